//! The checks of one metadata file, in order (TUF 1.0 sections 5.3 to 5.6).
//!
//! - [`examine`] examines a file of any kind: an [`Expect`] is what is expected of it, an
//!   [`Examined`] the result.
//! - [`Expectation`] is what is expected of a file, whatever its kind, and [`Context`] what files
//!   are examined in.
//! - Each kind has a function of its own, which returns the file or its first fault:
//!   [`examine_root`], [`examine_first_timestamp`] and [`examine_next_timestamp`] (without and with
//!   a trusted timestamp), [`examine_snapshot`], [`examine_targets`].
//! - [`target_file`] finds the file of a target.
//! - [`place_kept`] finds a name of a trusted snapshot in a new one.
//! - [`is_expired`] also applies to trusted files: to the last root, and to a timestamp that stays.
#![tactic(auto)]

mod context;
mod examined;
mod expectation;
mod fetch;
mod kinds;
mod order;
mod target;
mod timing;

pub use context::Context;
pub use examined::{Examined, File, examine};
pub use expectation::{Expect, Expectation, Kind, Listed};
pub use kinds::{
    examine_first_timestamp, examine_next_timestamp, examine_root, examine_snapshot,
    examine_targets,
};
pub use target::target_file;
pub use timing::{is_expired, place_kept};
