//! Rows of worked values of one file and one key: canonical texts, signatures, keys, moments and
//! contents of files. `trials` runs them.
#![tactic(auto)]

mod blocks;
mod contents;
mod forms;
mod key_rings;
mod layers;
mod moments;
mod plain;
mod questions;
mod readings;
mod signatures;
mod signed;
mod texts;
mod thresholds;

pub use layers::Layers;
