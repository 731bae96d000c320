//! Why a run of the program ends early: the exit status, and the line that is printed.
//!
//! - [`Failure`] is made from each error of the crates below, and [`of_io`] makes it from an error
//!   of a file.
//! - [`tell_failure`] prints its line.
#![tactic(auto)]

mod failure;

pub use failure::{Failure, of_io, tell_failure};
