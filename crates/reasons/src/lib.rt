//! Why a file is refused: the first check that it fails, and what this check compared (TUF 1.0
//! sections 5.3 to 5.7).
//!
//! - [`why_stopped`] returns why a cycle stopped, from the state that the stop left.
//! - [`why_role_refused`] returns why the file of a role is refused that a search visits.
//! - [`why_target_refused`] returns why a target's file is refused, by its measure.
//!
//! Each makes the checks once more and stops at the first that fails. The signatures are checked
//! directly.
#![tactic(auto)]

mod content;
mod fetched;
mod kinds;
mod order;
mod reason;
mod role;
mod signed;
mod stop;
mod target;

pub use reason::{
    Below, Differing, Malformation, NameFall, Reason, Sha256Pair, Sha512Pair, TimestampFall,
};
pub use role::why_role_refused;
pub use stop::why_stopped;
pub use target::why_target_refused;
