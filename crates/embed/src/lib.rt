//! Verification of files that are in the caller's memory, with plain data in and out: no file is
//! opened, no clock read and no thread started.
//!
//! - [`verify`] returns the outcome of the workflow on a [`Job`].
//! - [`list`] returns what roles list of the wanted paths, for a caller that has no target files.
//! - [`next`] returns the files that a caller has to fetch next.
//! - [`first_state`] returns the state of a first root, which the caller trusts.
//! - [`show`] returns what a state trusts, and until when.
#![tactic(auto)]

mod fault;
mod fetching;
mod held;
mod input;
mod job;
mod listing;
mod rows;
mod store;
mod trusted;
mod verifying;

pub use fault::JobFault;
pub use fetching::{Missing, next};
pub use input::first_state;
pub use job::{Bytes, Digests, File, Job};
pub use listing::{Listing, list};
pub use rows::{ListedRow, NeedRow, RoleRow, Summary, VerdictRow};
pub use trusted::{TrustedRow, show};
pub use verifying::{Verification, verify};
