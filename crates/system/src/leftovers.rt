//! Temporary files that ended runs have left.
//!
//! Each temporary file is locked from its creation on, so one that isn't locked is of a run that
//! has ended. Where files can't be locked, none is removed.

use crate::locks::take_hold;
use crate::own::OwnFile;
use std::alloc::AllocError;
use std::fs::{self, OpenOptions};
use std::io::ErrorKind;
use std::rt::Files;

/// How many names are tried for a temporary file.
pub(crate) const NAMES: u32 = 1_000_000;

/// How many names in a row have to be free before no further one is looked at. A temporary file has
/// the first name that is free, so this many runs at once leave none behind.
const FREE: u32 = 16;

/// Returns the name of the temporary file with that number, beside `path`.
pub(crate) fn name_beside<R: AllocGlobal>(
    rt: &R,
    path: &str,
    number: u32,
) -> Result<String, AllocError> {
    format!(in rt.alloc(); "{path}.{number}.new")
}

/// Removes the temporary files beside `path` that ended runs have left.
pub(crate) fn remove_leftovers<R: Files + AllocGlobal>(rt: &R, path: &str) -> Result<(), AllocError>
where
    R::File: OwnFile,
{
    let mut free = 0u32;
    for number in 1..=NAMES {
        if free >= FREE {
            return Ok(());
        }
        let name = name_beside(rt, path, number)?;
        free = if remove_left(rt, name.as_str()) {
            free.saturating_add(1)
        } else {
            0
        };
    }
    Ok(())
}

/// Removes the plain file of that name, unless a run has locked it. Returns whether the name is
/// free.
fn remove_left<R: Files>(rt: &R, name: &str) -> bool
where
    R::File: OwnFile,
{
    match fs::symlink_metadata(rt, name) {
        Err(error) => error.kind() == ErrorKind::NotFound,
        Ok(found) if found.is_file() => {
            remove_unlocked(rt, name);
            false
        }
        Ok(_) => false,
    }
}

/// Removes the file of that name, unless a run has locked it.
fn remove_unlocked<R: Files>(rt: &R, name: &str)
where
    R::File: OwnFile,
{
    let mut options = OpenOptions::new();
    if let Ok(mut file) = options.write(true).open(rt, name) {
        if take_hold(rt, name, &mut file) {
            let _ = fs::remove_file(rt, name);
        }
    }
}
