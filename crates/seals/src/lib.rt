//! Keys that sign, and the metadata files that they sign.
//!
//! - [`secret`] and [`secret_of`] return the key of a key byte.
//! - [`seal`] signs a metadata file (TUF 1.0 section 4.2), and so does [`seal_text`] if its
//!   canonical text is known. [`entry_of`] and [`file_of`] make an entry and the file of one.
//! - [`MakeFault`] is why no file or repository is made.
#![tactic(auto)]

mod fault;
mod sealing;
mod signer;

pub use fault::MakeFault;
pub use sealing::{entry_of, file_of, seal, seal_text};
pub use signer::{Signer, secret, secret_of};
