//! Sessions: texts of prose, commands and their expected output, which are run and compared.
//!
//! - [`run_all`] runs the sessions of a folder and prints a line for each, with the steps whose
//!   output differs. Its caller passes the commands of a program; those of this crate write and
//!   compare files.
//! - [`Step`] is a command with its input, and [`Output`] the output of a command.
#![tactic(auto)]

mod case;
mod cases;
mod compare;
mod files;
mod given;
mod line;
mod output;
mod room;
mod script;

pub use case::Step;
pub use cases::run_all;
pub use line::{joined, words_of};
pub use output::Output;
pub use script::script_of;
