//! Keys and signatures that another program made, as TUF writes them.
//!
//! - [`make_key`] makes the key object of a public key, and [`read_key`] reads one.
//! - [`signed_text`] returns the text of a metadata file that its signatures cover.
//! - [`attach`] adds a signature to a metadata file, if it is valid.
//! - [`signing_of`] returns who signed a metadata file, and whether they are enough.
#![tactic(auto)]

mod attaching;
mod counted;
mod entries;
mod fault;
mod invalid;
mod key;
mod kind;
mod metadata;
mod octets;
mod signing;
mod unusable;

pub use attaching::{Attached, attach};
pub use fault::{AttachFault, Invalid, KeyFault};
pub use key::{NewKey, make_key, read_key};
pub use kind::{KeyKind, kind_of, leaf_count};
pub use metadata::signed_text;
pub use signing::{KeyFinding, ListedKey, Required, Signing, signing_of};
pub use unusable::Unusable;
