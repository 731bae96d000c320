//! What the steps of a case run with.

use std::alloc::Global;

/// The files of the folder, threads, and an allocator.
#[derive(Drop)]
pub struct Shell<'a, T> {
    pub files: &'a HostRuntime,
    pub threads: &'a T,
    pub alloc: Global,
}
