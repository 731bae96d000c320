//! Which paths a delegation is for, and the search for a path through delegations (TUF 1.0 sections
//! 4.5 and 5.6.7).
#![tactic(auto)]

mod accepted;
mod bin;
mod cache;
mod edge;
mod found;
mod frame;
mod hashed;
mod once;
mod pattern;
mod prefix;
mod query;
mod same;
mod searching;
mod walk;

pub use accepted::{Accepted, Search};
pub use bin::bin_name;
pub use edge::{Edge, bin_of, edge_at, edge_count, is_for};
pub use found::Found;
pub use hashed::HashedPath;
pub use pattern::matches;
pub use prefix::prefix_matches;
pub use query::{has_role, target_of};
pub use same::is_same;
pub use searching::{Searcher, search};
