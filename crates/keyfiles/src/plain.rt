//! Plain files, of which no link is followed.

ghost use Rattle.std.specs.Prelude.{◌≤◌, IfOk, length};

use folder::start_of_reader;
use std::alloc::Global;
use std::fs::{self, File, OpenOptions};
use std::io::{self, ErrorKind, Write};
use std::os::unix::fs::{MetadataExt, OpenOptionsExt};

/// The mode of a file that its owner alone may read and write.
pub const OWNERS: u32 = 0o600;

/// The mode of a file that others may read.
pub const OTHERS_READ: u32 = 0o644;

/// Opens the plain file at `path` with these options. Fails with `InvalidInput` if a link or
/// anything else is there, also if it took the file's place meanwhile.
pub fn open_plain(rt: &HostRuntime, path: &str, options: &OpenOptions) -> io::Result<File> {
    let there = fs::symlink_metadata(rt, path)?;
    if !there.is_file() {
        return Err(io::Error::from(ErrorKind::InvalidInput));
    }
    let file = options.open(rt, path)?;
    let open = file.metadata()?;
    if open.dev() != there.dev() || open.ino() != there.ino() {
        return Err(io::Error::from(ErrorKind::InvalidInput));
    }
    Ok(file)
}

/// Reads the plain file at `path`. Fails with `FileTooLarge` if it has more than `most` bytes, and
/// as [`open_plain`] does.
pub fn read_plain(rt: &HostRuntime, alloc: Global, path: &str, most: u64) -> io::Result<Vec<u8>>
    ensures bounded { IfOk result (λ bytes. length bytes.items ≤ most) }
{
    let mut options = OpenOptions::new();
    options.read(true);
    let mut file = open_plain(rt, path, &options)?;
    read_file(alloc, &mut file, most)
}

/// Reads what is left of the file.
pub(crate) fn read_file(alloc: Global, file: &mut File, most: u64) -> io::Result<Vec<u8>>
    ensures bounded { IfOk result (λ bytes. length bytes.items ≤ most) }
{
    let bytes = start_of_reader(alloc, file, most.saturating_add(1))?;
    if bytes.len() as u64 > most {
        return Err(io::Error::from(ErrorKind::FileTooLarge));
    }
    Ok(bytes)
}

/// Returns whether nothing is at the path.
pub fn is_free(rt: &HostRuntime, path: &str) -> io::Result<bool> {
    match fs::symlink_metadata(rt, path) {
        Ok(_) => Ok(false),
        Err(error) if error.kind() == ErrorKind::NotFound => Ok(true),
        Err(error) => Err(error),
    }
}

/// Creates a file of that mode with the bytes, and flushes it to the device. Fails with
/// `AlreadyExists` if anything is at the path.
pub fn write_new_file(rt: &HostRuntime, path: &str, mode: u32, bytes: &[u8]) -> io::Result<()> {
    let mut options = OpenOptions::new();
    options.write(true).create_new(true).mode(mode);
    let mut file = options.open(rt, path)?;
    file.write_all(bytes)?;
    file.sync_all()
}
