//! The checks that a run probably makes, so that workers can make them in advance.
//!
//! - [`Plan`] contains the checks, and finds one by its parts.
//! - [`read_ahead`] reads the metadata that a run probably needs, without verifying it and within a
//!   bound.
//!
//! A plan affects no result, only the time: the run makes its own checks, and uses a worker's
//! verdict only for a check that is equal in all parts.
#![tactic(auto)]

mod checks;
mod document;
mod draft;
mod mark;
mod plan;
mod reading;
mod signers;
mod signing;
mod steps;
mod walk;
mod wanted;

pub use document::Document;
pub use plan::Plan;
pub use reading::{Ahead, Scope, read_ahead};
