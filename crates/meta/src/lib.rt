//! The four kinds of metadata file (TUF 1.0 section 4), the names of files, and a file with what is
//! read from it.
#![tactic(auto)]

mod catalog;
mod content;
mod delegation;
mod delegations;
mod fault;
mod hashes;
mod header;
mod listing;
pub mod names;
mod part;
mod reading;
mod repo;
mod root;
mod snapshot;
mod targets;
mod timestamp;

pub use cjson::ReadFault;
pub use content::{Content, refuse_if};
pub use delegation::{Delegation, HashPrefix, PathPattern, Paths};
pub use delegations::{Bins, Delegations, Roles};
pub use fault::{Fault, Stop};
pub use hashes::Hashes;
pub use header::Header;
pub use listing::Listing;
pub use moment::Moment;
pub use part::{Part, Reading, read_document};
pub use reading::{read_root, read_snapshot, read_targets, read_timestamp};
pub use repo::Repo;
pub use root::Root;
pub use snapshot::{Named, Snapshot};
pub use targets::{Target, Targets};
pub use timestamp::Timestamp;
