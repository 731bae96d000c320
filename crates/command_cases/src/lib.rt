//! Runs sessions of the command line, which `README.md` says how to write.
//!
//! [`run_sessions`] runs those of the folder `cases` and prints a line for each, with the steps
//! whose output differs from the expected one.
#![tactic(auto)]

mod cuts;
mod narrow;
mod program;
mod run;
mod session;
mod workers;

pub use run::run_sessions;
