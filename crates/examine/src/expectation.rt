//! What is expected of a file.

use keys::{KeyRing, RoleKeys};
use meta::{Listing, Snapshot, Timestamp};

/// Whether another file must list a file, and its listing.
#[derive(Clone, Copy)]
pub enum Listed {
    /// No file lists it: roots and the timestamp.
    NotDue,
    /// It must be listed, but isn't.
    Absent,
    /// It is listed like this.
    As(Listing),
}

/// What is expected of a file, whatever its kind.
#[derive(Clone, Copy)]
pub struct Expectation<'a> {
    /// The file's name in the repository.
    pub name: &'a str,
    /// Its listing, if it must be listed.
    pub listed: Listed,
    /// The keys of the file that delegates to it.
    pub ring: &'a KeyRing,
    /// Which of the keys must sign, and how many.
    pub role: &'a RoleKeys,
}

/// The kind of a file, with what only files of this kind must meet. The maximum number of bytes is
/// that of the kind.
#[derive(Clone, Copy)]
pub enum Kind<'a> {
    /// A root file.
    Root {
        /// The version that it must have.
        version: u64,
    },
    /// A timestamp file.
    Timestamp {
        /// The trusted timestamp, if there is one.
        trusted: Option<&'a Timestamp>,
    },
    /// A snapshot file, of its listed version.
    Snapshot {
        /// The trusted snapshot, if there is one.
        trusted: Option<&'a Snapshot>,
    },
    /// A targets file, top-level or delegated, of its listed version.
    Targets,
}

/// What is expected of a file of some kind.
#[derive(Clone, Copy)]
pub struct Expect<'a> {
    /// Its kind, and what only this kind must meet.
    pub kind: Kind<'a>,
    /// Its name, listing and signers.
    pub file: Expectation<'a>,
}
