//! The files that an updater has to fetch next: those that the workflow looked up and found absent
//! (TUF 1.0 sections 5.3 to 5.7).
//!
//! - [`needs`] returns them, each a [`Need`], in the order in which the workflow looks them up;
//!   [`missing_metadata`] returns the metadata files among them.
//! - [`names_of`] makes a map of the names of target files.
#![tactic(auto)]

mod list;
mod names;
mod need;
mod once;
mod searches;
mod steps;

pub use list::{missing_metadata, needs};
pub use names::names_of;
pub use need::{Need, Place};
