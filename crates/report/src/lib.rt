//! The lines that a run prints, and its exit status.
//!
//! - [`tell`] prints the lines of what is [`Told`] of a cycle and returns the status,
//!   [`tell_stored`] does with whether copies were stored, and [`tell_cycles`] does for one cycle
//!   after another.
//! - [`show`] prints what a trusted state has, and when it expires.
//! - [`tell_needs`] prints the names of the files to fetch.
//! - [`root_line`], [`push_end`] and [`push_verdict`] make single lines.
#![tactic(auto)]

mod cycles;
mod fetching;
mod lines;
mod shown;
mod told;

pub use cycles::tell_cycles;
pub use fetching::tell_needs;
pub use lines::{push_end, push_verdict, root_line, tell, tell_stored};
pub use shown::show;
pub use told::{Told, Why};
