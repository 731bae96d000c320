//! Calls the public functions of the crates for files and keys from which a verifier is built, each
//! with its parameters and its result type, and with ample memory. If one of them changes, this
//! crate doesn't compile or a test fails.
//!
//! A module for each crate: documents (`cjson`), signatures (`lms`) and rings (`keys`).

mod documents;
mod rings;
mod signatures;
