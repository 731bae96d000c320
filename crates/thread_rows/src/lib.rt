//! Rows of threads: boards that threads share, cycles with workers, which gates block at chosen
//! places, and keepers. `trials` runs them.
#![tactic(auto)]

mod boards;
mod gates;
mod given;
mod keepers;
mod parameters;
mod plans;
mod repositories;
mod runs;
mod session;
mod shell;
mod stress;
mod walks;

pub use session::perform;
