//! The command line of `tufcheck`: its commands and their arguments.
//!
//! - [`parse`] reads a command and its arguments.
#![tactic(auto)]

mod arguments;
mod commands;
mod table;
mod texts;
mod version;

pub use commands::parse;
