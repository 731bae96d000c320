//! The folder of the temporary files of a run.
//!
//! A file `lock` in it is locked as long as the run lasts. So a folder whose file isn't locked is
//! of a run that has ended, and is removed. Where files can't be locked, none is removed.

use folder::path_below;
use std::alloc::Global;
use std::fs::{self, DirBuilder, OpenOptions};
use std::io::{self, ErrorKind};
use std::os::unix::fs::{DirBuilderExt, PermissionsExt};
use std::rt::Files;
use system::{OwnFile, is_at, take_hold};

/// How many names are tried for the folder.
const NAMES: u32 = 1_000_000;

/// How many names in a row have to be free before no further one is looked at.
const FREE: u32 = 16;

/// The mode of a folder that only its owner may use.
const OWNERS: u32 = 0o700;

/// The folder of the temporary files, and its locked file.
#[derive(Drop)]
pub(crate) struct Own<F> {
    path: String,
    lock: F,
}

impl<F: Drop> Own<F> {
    /// Returns the path of the folder.
    pub(crate) fn path(&self) -> &str {
        self.path.as_str()
    }

    /// Removes the folder, and then releases the lock.
    pub(crate) fn remove<R: Files>(self, rt: &R, alloc: Global) {
        let Own { path, lock } = self;
        let _ = rt.remove_dir_all(alloc, path.as_str());
        drop(lock);
    }
}

/// Makes and locks the folder, under the first name below `folder` that is free.
pub(crate) fn own_folder<R: Files>(rt: &R, alloc: Global, folder: &str) -> io::Result<Own<R::File>>
where
    R::File: OwnFile,
{
    fs::create_dir_all(rt, folder)?;
    for number in 1..=NAMES {
        let path = path_of(alloc, folder, number)?;
        match DirBuilder::new().mode(OWNERS).create(rt, path.as_str()) {
            Err(error) if error.kind() == ErrorKind::AlreadyExists => {}
            Err(error) => return Err(error),
            Ok(()) => {
                if let Some(lock) = locked_in(rt, alloc, path.as_str())? {
                    return Ok(Own { path, lock });
                }
            }
        }
    }
    Err(io::Error::from(ErrorKind::AlreadyExists))
}

/// Returns the path of the folder with that number.
fn path_of(alloc: Global, folder: &str, number: u32) -> io::Result<String> {
    let name = format!(in alloc; ".tufcheck.{number}.new")?;
    Ok(path_below(alloc, folder, name.as_str())?)
}

/// Opens the file of a folder that is locked, and makes it if it isn't there. Fails if it isn't a
/// plain one.
fn open_in<R: Files>(rt: &R, alloc: Global, folder: &str) -> io::Result<(String, R::File)> {
    let path = path_below(alloc, folder, "lock")?;
    if let Ok(there) = fs::symlink_metadata(rt, path.as_str()) {
        if !there.is_file() {
            return Err(io::Error::from(ErrorKind::InvalidInput));
        }
    }
    let mut options = OpenOptions::new();
    options.write(true).create(true);
    let file = options.open(rt, path.as_str())?;
    Ok((path, file))
}

/// Locks the file of a folder that this run has made. Returns None if another run has removed it.
fn locked_in<R: Files>(rt: &R, alloc: Global, folder: &str) -> io::Result<Option<R::File>>
where
    R::File: OwnFile,
{
    let (path, mut file) = match open_in(rt, alloc, folder) {
        Err(error) if error.kind() == ErrorKind::NotFound => return Ok(None),
        Err(error) => return Err(error),
        Ok(opened) => opened,
    };
    let locked = file.lock();
    if locked.is_ok() && !matches!(is_at(rt, path.as_str(), &file), Ok(true)) {
        return Ok(None);
    }
    Ok(Some(file))
}

/// Removes the folders of runs that have ended. Returns whether there was one, or one of a run that
/// lasts, or anything else that has the name of one.
pub(crate) fn remove_leftovers<R: Files>(rt: &R, alloc: Global, folder: &str) -> io::Result<bool>
where
    R::File: OwnFile,
{
    let mut free = 0u32;
    let mut found = false;
    for number in 1..=NAMES {
        if free >= FREE {
            return Ok(found);
        }
        let path = path_of(alloc, folder, number)?;
        let is_free = remove_left(rt, alloc, path.as_str());
        found = found || !is_free;
        free = if is_free { free.saturating_add(1) } else { 0 };
    }
    Ok(found)
}

/// Removes the folder of that path, if it is one of a run that has ended. Returns whether the path
/// is free.
fn remove_left<R: Files>(rt: &R, alloc: Global, path: &str) -> bool
where
    R::File: OwnFile,
{
    match fs::symlink_metadata(rt, path) {
        Err(error) => error.kind() == ErrorKind::NotFound,
        Ok(found) if found.is_dir() && found.permissions().mode() & 0o777 == OWNERS => {
            remove_unlocked(rt, alloc, path);
            false
        }
        Ok(_) => false,
    }
}

/// Removes the folder, unless a run has locked its file.
fn remove_unlocked<R: Files>(rt: &R, alloc: Global, path: &str)
where
    R::File: OwnFile,
{
    if let Ok((name, mut file)) = open_in(rt, alloc, path) {
        if take_hold(rt, name.as_str(), &mut file) {
            let _ = rt.remove_dir_all(alloc, path);
        }
    }
}
