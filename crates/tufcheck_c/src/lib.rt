//! The C library that `tufcheck.h` declares. Each export calls a function of `embed` or `lms` and
//! states its clauses again, on the caller's memory. No pointer may be null (`bindings/c/nulls.c`
//! replaces it), and no room may overlap another one or the input.
#![tactic(auto)]

mod answer;
mod fetching;
mod first;
mod listed;
mod room;
mod shown;
mod signature;
mod sized;
mod version;

pub use answer::{Answer, tufcheck_verify};
pub use fetching::{Needs, tufcheck_next};
pub use first::tufcheck_first;
pub use listed::{Listed, tufcheck_list};
pub use shown::{Shown, tufcheck_show};
pub use signature::tufcheck_lms_verify;
pub use sized::SizedJob;
pub use version::tufcheck_version;
