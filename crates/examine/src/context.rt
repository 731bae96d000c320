//! What files are examined in.

use moment::Moment;
use std::alloc::Global;
use std::collections::BTreeMap;

/// A repository's metadata files, and the moment at which they are examined.
#[derive(Clone, Copy)]
pub struct Context<'a> {
    /// The allocator.
    pub alloc: Global,
    /// The metadata files, by name.
    pub files: &'a BTreeMap<String, Vec<u8>>,
    /// The moment, in UTC.
    pub moment: Moment,
}
