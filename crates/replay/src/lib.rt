//! Verifications of repositories in folders, one after another.
#![tactic(auto)]

mod replaying;

pub use replaying::{Cached, Cycles, replay};
