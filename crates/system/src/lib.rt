//! Single files that are read and replaced as a whole, and the clock.
//!
//! - [`System`] is the interface that a run has to them, and [`Machine`] the system that a process
//!   runs on.
//! - [`System::read_locked`] holds a file against other runs until the system is dropped. An
//!   [`OwnFile`] is an open file as contracts follow it.
//! - [`is_of_path`] is whether an error says that no file can be put at a path.
//! - [`store`] replaces a file as a whole, through a [`Place`] with a temporary file.
//! - [`take_hold`] tells a file of a run that has ended from one that a run still has.
#![tactic(auto)]

mod blocked;
mod calls;
mod files;
mod held;
mod leftovers;
mod locks;
mod machine;
mod own;
mod place;
mod plain;

pub use blocked::is_of_path;
pub use calls::{System, Temporary};
pub use files::store;
pub use locks::{is_at, take_hold};
pub use machine::{Machine, whole_seconds};
pub use own::{Closed, Flushed, OwnFile};
pub use place::{Place, replace};
pub use plain::{flush_folder, folder_of};
