//! What is asked of a course.

use cycle::{Limits, Moment};
use std::alloc::Global;

/// What is asked of a course: the allocator, the moment, the wanted paths, the limits, and the
/// number of workers, at most 64.
#[derive(Clone, Copy)]
pub struct Asked<'a> {
    pub alloc: Global,
    pub moment: Moment,
    pub wanted: &'a [String],
    pub limits: Limits,
    pub workers: usize,
}
