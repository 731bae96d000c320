//! Folders of files, and the maps of bytes by name that are read from them.
//!
//! - [`Folder`] is what may be listed and read. [`load`] reads all of it.
//! - [`Measure`] is the length and the digests of a file that isn't read into memory. A [`Sink`]
//!   may take its bytes meanwhile.
//! - [`Disk`] is a folder of the file system. [`open_plain`] opens one of its files, and follows no
//!   link.
#![tactic(auto)]

mod disk;
mod files;
mod job;
mod measure;
mod plain;
mod sink;
mod start;
mod stream;
mod together;

pub use disk::{Depth, Disk, path_below};
pub use files::{Folder, LoadFault, load};
pub use job::{Done, Job};
pub use measure::{Measure, Measuring, Need};
pub use plain::{PlainFile, open_plain};
pub use sink::Sink;
pub use start::start_of_reader;
