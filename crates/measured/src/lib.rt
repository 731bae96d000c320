//! The check of target files in a folder. Only files that a search found are read, each once, in
//! pieces.
//!
//! - [`measure`] reads the files of a course's targets, which several threads may digest.
//! - [`measure_into`] does so on one thread, and copies each file while it is digested.
//! - [`close`] ends the course by what is then [`Known`] of them.
#![tactic(auto)]

mod check;
mod closing;
mod copying;
mod early;
mod fitting;
mod known;
mod need;
mod reading;
mod store;

pub use closing::{close, measure};
pub use copying::{Copied, measure_into};
pub use early::Readers;
pub use known::{Found, Known};
pub use reading::target_of;
