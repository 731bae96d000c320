//! Calls the public functions of the workspace's crates that a verifier or a maker of test
//! repositories is built from, each with its parameters and its result type, and with ample memory.
//! If one of them changes, this crate doesn't compile or a test fails.
//!
//! A module for each crate: files (`meta`), states (`rolechain`), searches (`deleg`), boards
//! (`board`), workers (`crew`, `plan`), cycles (`cycle`) and made (`maker`). Those of the crates
//! below are in `file_tests`.

mod boards;
mod cycles;
mod files;
mod made;
mod repository;
mod searches;
mod states;
mod workers;
