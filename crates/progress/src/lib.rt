//! The progress of a run, printed while it goes on.
//!
//! - [`Progress`] counts what was done, and prints a line about it at most once a second, on a
//!   [`Ground`]: a clock and a place for lines.
//! - [`Counted`] are files; each that is opened is counted, and so are its bytes, if wanted.
//! - [`Watched`] is a folder; the bytes that its files need are counted before they are read.
//!
//! No contract depends on it.
#![tactic(auto)]

mod counted;
mod counts;
mod file;
mod ground;
mod stages;
mod watched;

pub use counted::Counted;
pub use counts::Progress;
pub use file::CountedFile;
pub use ground::Ground;
pub use watched::Watched;
