//! Files that are locked against other runs.

ghost use Rattle.std.specs.Prelude.{◌≡◌, true, IfOk};

use crate::own::OwnFile;
use std::fs::{self, OpenFile, OpenOptions};
use std::io::{self, ErrorKind};
use std::os::unix::fs::MetadataExt;
use std::rt::Files;

/// How many times a file that was replaced while this run waited is opened again.
const TRIES: u32 = 1000;

/// Opens the file at `path` and locks it. A file that was replaced meanwhile is released, and the
/// one that took its place is locked instead. Fails if the file can't be locked.
pub(crate) fn open_locked<R: Files>(rt: &R, path: &str) -> io::Result<R::File>
where
    R::File: OwnFile,
    ensures locked { IfOk result (λ file. R.File.is_locked file ≡ true) }
{
    for _ in 0..TRIES {
        let mut file = open_to_lock(rt, path)?;
        file.lock()?;
        if is_at(rt, path, &file)? {
            return Ok(file);
        }
    }
    Err(io::Error::from(ErrorKind::WouldBlock))
}

/// Opens the file for reading and writing, which some file systems want for a lock. If it may not
/// be written or isn't a plain file, opens it for reading alone: a pipe that its reader may write
/// never ends.
fn open_to_lock<R: Files>(rt: &R, path: &str) -> io::Result<R::File> {
    if !fs::metadata(rt, path)?.is_file() {
        return fs::open(rt, path);
    }
    let mut options = OpenOptions::new();
    options.read(true).write(true);
    match options.open(rt, path) {
        Err(error) if may_be_read_alone(error.kind()) => fs::open(rt, path),
        opened => opened,
    }
}

fn may_be_read_alone(kind: ErrorKind) -> bool {
    kind == ErrorKind::PermissionDenied || kind == ErrorKind::ReadOnlyFilesystem
}

/// Returns whether the open file is the one at `path`.
pub fn is_at<R: Files>(rt: &R, path: &str, file: &R::File) -> io::Result<bool> {
    let there = fs::metadata(rt, path)?;
    let open = file.metadata()?;
    Ok(there.dev() == open.dev() && there.ino() == open.ino())
}

/// Locks a file and returns true if it is still the one at `path`, so that this run owns it.
/// Returns false if another run has locked it, if it was removed, or if it can't be locked.
pub fn take_hold<R: Files>(rt: &R, path: &str, file: &mut R::File) -> bool
where
    R::File: OwnFile,
{
    let is_locked = file.try_lock();
    matches!(is_locked, Ok(true)) && matches!(is_at(rt, path, file), Ok(true))
}
