//! The commands of sessions of the command line that don't run the program. They change files of
//! the folder, print what these contain, and set their modes; or they read a clock, or verify
//! folders, that fail.
#![tactic(auto)]

mod changes;
mod clocks;
mod files;
mod rights;
mod shell;

pub use changes::change;
pub use clocks::{clock, failing};
pub use files::{digests, keeps, state};
pub use rights::{allow, link, mode};
pub use shell::{NOW, Shell, push_word, push_words};
