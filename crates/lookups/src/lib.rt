//! The metadata files of a folder, each read when the workflow looks it up (TUF 1.0 sections 5.3
//! to 5.6).
//!
//! - [`Metadata`] has the names of a folder's files, and those metadata files that were read.
//! - [`Metadata::follow`] follows a course on them, and reads what it lacks.
#![tactic(auto)]

mod asked;
mod metadata;

pub use asked::Asked;
pub use metadata::Metadata;
