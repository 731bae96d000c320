//! The maker of test repositories, valid and hostile ones.
//!
//! - [`make`] makes a repository from a script.
//! - [`seal`] signs a metadata file, [`secret`] returns the key of a key byte, and [`MakeFault`] is
//!   why no file or repository is made: they are those of `seals`.
#![tactic(auto)]

mod bins;
mod line;
mod objects;
mod refusal;
mod repository;
mod ring;
mod script;
mod words;

pub use script::make;
pub use seals::{MakeFault, Signer, seal, secret};
