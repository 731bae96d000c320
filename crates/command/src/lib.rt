//! The command line: reads its arguments, carries out its subcommand and returns the exit status.
//!
//! - [`run`] does so with the arguments of the process, and [`command`] with given ones.
//! - [`sample`] verifies a small repository that it makes, which [`command`] does if there are no
//!   arguments.
//! - [`carry_out`] carries out a [`Subcommand`]: what it prints and returns is what the run of
//!   `update`, `replay` or `ceremony` prints and returns that the subcommand names. A [`Runtime`]
//!   is what it runs on.
#![tactic(auto)]

mod apart;
mod carrying;
mod ceremonies;
mod dispatch;
mod folders;
mod into;
mod listed;
mod made;
mod making;
mod process;
mod reading;
mod runtime;
mod sampling;
mod subcommand;
mod terms;

pub use carrying::carry_out;
pub use dispatch::command;
pub use process::run;
pub use runtime::Runtime;
pub use sampling::sample;
pub use subcommand::{FolderPaths, Subcommand};
