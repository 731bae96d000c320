//! What a run reads, stores and prints, with its failures.
//!
//! - [`read_file`] reads a file with a bound, and [`keep_file`] stores one.
//! - [`quote_name`] makes the printed form of a name, [`quote_cut`] of one that may be long, and
//!   [`moment_text`] the text of a moment.
//! - [`put`] and [`put_bytes`] write.
#![tactic(auto)]

mod files;
mod moments;
mod print;
mod quote;

pub use files::{keep_file, read_file};
pub use moments::moment_text;
pub use print::{put, put_bytes};
pub use quote::{quote_cut, quote_name};
