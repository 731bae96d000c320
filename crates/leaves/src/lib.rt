//! LMS signatures whose leaves are never used twice, whatever fails and whenever the process is cut
//! off.
//!
//! - [`Disk`] is the locked file that has how many leaves of a key are reserved, and the writer to
//!   which signatures are handed. Its meaning is what a crash at each moment leaves.
//! - [`Logged`] is a disk over the single [`Calls`] of a system.
//! - [`create`] stores that no leaf is reserved, if the file is missing; [`restore`] stores a
//!   number that is known to be high enough.
//! - [`sign`] reserves leaves, and only then signs by them. A [`Key`] signs by one leaf after the
//!   other.
//! - [`reserved_of`] reads the text of a leaves file.
//! - [`never_twice`] is the theorem on any number of runs, each of them cut off.
//!
//! The disk has to keep what was flushed, and nobody may set it back or copy it.
#![tactic(auto)]

mod disk;
mod fault;
mod history;
mod key;
mod log;
mod reserving;
mod signing;
mod text;

pub use disk::Disk;
pub use fault::LeavesFault;
pub use history::never_twice;
pub use key::{Key, KeyFault};
pub use log::{Calls, Event, Logged};
pub use reserving::{create, restore};
pub use signing::sign;
pub use text::reserved_of;
