//! The files of a secret key on a disk.
//!
//! - [`KeyPaths`] has where they are. [`open_plain`], [`read_plain`] and [`write_new_file`] follow
//!   no link and take plain files only.
//! - [`SecretFile`] is what the key file has, [`open_key`] locks it, and [`stored_secret`] makes a
//!   key of it and of its leaves' values.
//! - [`KeyDisk`] has the single calls that `leaves` reserves leaves by. Nothing is proved of them:
//!   they have to be read.
#![tactic(auto)]

mod key_disk;
mod key_file;
mod paths;
mod plain;
mod values;

pub use key_disk::KeyDisk;
pub use key_file::{OpenKey, SecretFile, open_key, read_secret, secret_text};
pub use paths::KeyPaths;
pub use plain::{OTHERS_READ, OWNERS, is_free, open_plain, read_plain, write_new_file};
pub use values::{stored_secret, values_text};
