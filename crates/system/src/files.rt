//! Files on the disk that are replaced as a whole.

ghost use Rattle.std.specs.Prelude.{IfOk, false};
ghost use Rattle.system.specs.Files.{IsPut};

use crate::held::Written;
use crate::own::OwnFile;
use crate::place::replace;
use crate::plain::Plain;
use std::fs::{self, Metadata, OpenOptions};
use std::io::{self, ErrorKind};
use std::path::PathBuf;
use std::rt::Files;

/// What there is at a path.
#[derive(Drop)]
enum There {
    Nothing,
    /// A plain file that may be written.
    Plain(Metadata),
    /// A symbolic link to a plain file that may be written, and the path of that file.
    Linked(PathBuf, Metadata),
    /// Anything else, or a link to it or to nothing.
    Other,
}

/// Returns what there is at the path. Fails if there is a plain file that may not be written.
fn what_is_at<R: Files + AllocGlobal>(rt: &R, path: &str) -> io::Result<There> {
    match fs::symlink_metadata(rt, path) {
        Ok(found) if found.is_symlink() => what_is_linked(rt, path),
        Ok(found) if found.is_file() => {
            may_be_written(rt, path)?;
            Ok(There::Plain(found))
        }
        Ok(_) => Ok(There::Other),
        Err(error) if error.kind() == ErrorKind::NotFound => Ok(There::Nothing),
        Err(error) => Err(error),
    }
}

/// Returns what the symbolic link at the path leads to.
fn what_is_linked<R: Files + AllocGlobal>(rt: &R, path: &str) -> io::Result<There> {
    let Ok(real) = fs::canonicalize(rt, path) else {
        return Ok(There::Other);
    };
    let found = fs::metadata(rt, real.as_str())?;
    if !found.is_file() {
        return Ok(There::Other);
    }
    may_be_written(rt, real.as_str())?;
    Ok(There::Linked(real, found))
}

fn may_be_written<R: Files>(rt: &R, path: &str) -> io::Result<()> {
    OpenOptions::new().write(true).open(rt, path)?;
    Ok(())
}

/// Stores the bytes as the file at `path`, as `put` does.
pub fn store<R: Files + AllocGlobal>(rt: &R, path: &str, bytes: &[u8]) -> io::Result<()>
where
    R::File: OwnFile,
{
    put(rt, path, false, bytes)?;
    Ok(())
}

/// Stores the bytes as the file at `path`, and returns that file. A plain file, or a new one, is
/// replaced as a whole: at each moment it has either its old bytes or the new ones, and on error
/// the old ones. The new one is locked before it takes the place; if it can't be locked, that is an
/// error only if it has to be. It keeps its owner, group and mode, and at no moment may anybody
/// else read or write the new one. Fails if they can't be kept, or if the file may not be written.
/// A symbolic link is followed to its file, and of a file with several names only this one is
/// replaced. What isn't a plain file is written in place, without a lock.
pub(crate) fn put<R: Files + AllocGlobal>(
    rt: &R,
    path: &str,
    must_lock: bool,
    bytes: &[u8],
) -> io::Result<Written<R::File>>
where
    R::File: OwnFile,
    ensures put { IfOk result (IsPut R.File.has R.File.is_locked must_lock bytes.now) }
{
    match what_is_at(rt, path)? {
        There::Nothing => put_plain(rt, path, must_lock, None, bytes),
        There::Plain(old) => put_plain(rt, path, must_lock, Some(old), bytes),
        There::Linked(real, old) => put_plain(rt, real.as_str(), must_lock, Some(old), bytes),
        There::Other if must_lock => Err(io::Error::from(ErrorKind::Unsupported)),
        There::Other => put_in_place(rt, path, bytes),
    }
}

/// Writes the bytes to what is at the path.
fn put_in_place<R: Files>(rt: &R, path: &str, bytes: &[u8]) -> io::Result<Written<R::File>>
where
    R::File: OwnFile,
    ensures put { IfOk result (IsPut R.File.has R.File.is_locked false bytes.now) }
{
    let mut file = fs::create(rt, path)?;
    file.begin()?;
    file.add(bytes)?;
    Ok(Written {
        file,
        is_locked: false,
    })
}

/// Stores the bytes in place of a plain file, or of nothing.
fn put_plain<R: Files + AllocGlobal>(
    rt: &R,
    path: &str,
    must_lock: bool,
    old: Option<Metadata>,
    bytes: &[u8],
) -> io::Result<Written<R::File>>
where
    R::File: OwnFile,
    ensures put { IfOk result (IsPut R.File.has R.File.is_locked must_lock bytes.now) }
{
    let mut place = Plain {
        rt,
        path,
        old,
        must_lock,
        beside: None,
        there: None,
    };
    replace(&mut place, bytes)?;
    let Plain { there, .. } = place;
    there.ok_or(io::Error::from(ErrorKind::NotFound))
}
