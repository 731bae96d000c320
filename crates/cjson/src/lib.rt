//! Canonical JSON, metadata files as documents, and readers of JSON forms.
//!
//! - [`canonical`] writes the canonical text of a value (OLPC Canonical JSON), which is what is
//!   hashed and signed (TUF 1.0 section 4.1).
//! - [`signed_bytes`] reads a metadata file as a [`Doc`] (TUF 1.0 section 4.2).
//! - [`form::needed_member`], [`form::optional_member`] and [`members::read_members`] read the
//!   members of an object as values of Rust types.
//!
//! [`read_tree`] reads a file's bytes as a [`Tree`], as `serde_json` would, and [`canonical_text`]
//! writes that of a tree.
#![tactic(auto)]

mod doc;
mod fault;
pub mod form;
pub mod list;
pub mod members;
pub mod number;
mod sorted;
pub mod text;
mod tree;
mod write;

pub use doc::{Doc, Entry, signed_bytes};
pub use fault::{Canon, DocFault, NoMemory, ReadFault};
pub use sorted::Sorted;
pub use tree::{Tree, read_tree, tree_from};
pub use write::{canonical, canonical_text};
