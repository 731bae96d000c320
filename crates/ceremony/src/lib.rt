//! The steps of a signing ceremony, each over the files and the output of a run.
//!
//! - [`make_key_file`] makes the key object of a public key.
//! - [`print_text`] prints the text that signatures of a metadata file cover.
//! - [`attach_file`] attaches a signature to a metadata file.
//! - [`print_signers`] prints who signed a metadata file, of a [`By`], and whether they are enough.
#![tactic(auto)]

mod files;
mod key_file;
mod lines;
mod required;
mod signers;
mod text;

pub use files::{AttachPaths, attach_file};
pub use key_file::make_key_file;
pub use lines::Refusal;
pub use required::Role;
pub use signers::{By, print_signers};
pub use text::print_text;
