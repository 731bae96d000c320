//! A cache of verdicts on signatures, for cycle after cycle.
//!
//! - [`Cache`] contains the verdicts on the signatures of the files that were used last.
//! - [`Kept`] is a judge that uses the cache, and another judge for what the cache hasn't.
//!
//! The cache affects no result, only the time.
#![tactic(auto)]

mod cache;
mod kept;

pub use cache::Cache;
pub use kept::Kept;
