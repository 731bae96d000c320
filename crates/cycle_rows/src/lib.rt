//! Rows of worked values of the cycle: trusted states, searches, names and lines. `trials` runs
//! them.
#![tactic(auto)]

mod layers;
mod names;
mod plain;
mod searches;
mod states;
mod verdicts;

pub use layers::Layers;
