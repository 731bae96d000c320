//! The lines that say why something is refused.
//!
//! - [`stop_lines`] returns the lines of why a cycle stopped.
//! - [`role_lines`] and [`target_lines`] return those of a role's file and of a target's.
//! - [`signing_lines`] returns those of who signed a file.
//!
//! A refusal has at most 64 lines of keys or names. A text of a file is cut behind 256 bytes.
#![tactic(auto)]

mod lines;
mod place;
mod role;
mod signed;
mod stop;
mod target;

pub use role::{Delegator, role_lines};
pub use signed::signing_lines;
pub use stop::stop_lines;
pub use target::{Measured, target_lines};
