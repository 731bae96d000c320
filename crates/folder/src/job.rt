//! Files that are to be measured, and those that were.

use crate::measure::{Measure, Need};

/// The name of a file, and what is needed of the file.
#[derive(Drop)]
pub struct Job {
    pub name: String,
    pub need: Need,
}

/// The name of a file that was measured, what was needed of the file, and its measure.
#[derive(Drop)]
pub struct Done {
    pub name: String,
    pub need: Need,
    pub measure: Measure,
}
