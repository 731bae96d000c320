//! Paths of which neither leads to the other's file or below it.

use failure::{Failure, of_io};
use folder::path_below;
use std::alloc::Global;
use std::fs;
use std::io::{self, ErrorKind};
use std::os::unix::fs::MetadataExt;
use std::rt::Files;

/// How many links, and names of files that aren't there, are followed of a path.
const STEPS: u32 = 4096;

/// Returns whether neither path leads to what the other one leads to, nor below it. Links are
/// followed, and what isn't there may be made later. Fails with `Words` if a path can't be
/// followed.
pub fn are_apart<R: Files>(rt: &R, alloc: Global, one: &str, other: &str) -> Result<bool, Failure> {
    let one = real_path(rt, alloc, one).map_err(|error| of_io(&error, Failure::Words))?;
    let other = real_path(rt, alloc, other).map_err(|error| of_io(&error, Failure::Words))?;
    let (one, other) = (one.as_str(), other.as_str());
    Ok(!is_within(rt, one, other) && !is_within(rt, other, one))
}

/// Returns the path with its links followed. The names at its end may be of files that aren't
/// there.
fn real_path<R: Files>(rt: &R, alloc: Global, path: &str) -> io::Result<String> {
    let mut path = String::from_str(alloc, path)?;
    let mut absent = String::new(alloc);
    for _ in 0..STEPS {
        match rt.canonicalize(alloc, path.as_str()) {
            Ok(real) => return Ok(format!(in alloc; "{}{absent}", real.as_str())?),
            Err(error) if error.kind() != ErrorKind::NotFound => return Err(error),
            Err(_) => {}
        }
        if is_link(rt, path.as_str()) {
            path = target_of(rt, alloc, path.as_str())?;
        } else {
            let (folder, name) = parts_of(path.as_str());
            absent = name_before(alloc, name, absent)?;
            path = String::from_str(alloc, folder)?;
        }
    }
    Err(io::Error::from(ErrorKind::InvalidInput))
}

/// Returns whether there is a link at the path.
fn is_link<R: Files>(rt: &R, path: &str) -> bool {
    match fs::symlink_metadata(rt, path) {
        Ok(found) => found.is_symlink(),
        Err(_) => false,
    }
}

/// Returns where the link at the path leads.
fn target_of<R: Files>(rt: &R, alloc: Global, path: &str) -> io::Result<String> {
    let target = rt.read_link(alloc, path)?;
    if target.as_str().starts_with('/') {
        return Ok(String::from_str(alloc, target.as_str())?);
    }
    let (folder, _) = parts_of(path);
    Ok(path_below(alloc, folder, target.as_str())?)
}

/// Returns the folder of the path, and the name in it.
fn parts_of(path: &str) -> (&str, &str) {
    match path.rsplit_once('/') {
        None => (".", path),
        Some(("", name)) => ("/", name),
        Some(parts) => parts,
    }
}

/// Returns the names after a name, each after a `/`. Fails if the name leads upwards.
fn name_before(alloc: Global, name: &str, names: String) -> io::Result<String> {
    match name {
        "" | "." => Ok(names),
        ".." => Err(io::Error::from(ErrorKind::InvalidInput)),
        _ => Ok(format!(in alloc; "/{name}{names}")?),
    }
}

/// Returns whether the inner path leads to what the outer one leads to, or below it. Both have no
/// links.
fn is_within<R: Files>(rt: &R, inner: &str, outer: &str) -> bool {
    let mut inner = inner;
    for _ in 0..=inner.len() {
        if inner == outer || is_same_file(rt, inner, outer) {
            return true;
        }
        match inner.rsplit_once('/') {
            None => return false,
            Some((folder, _)) => inner = folder,
        }
    }
    false
}

/// Returns whether both paths lead to one file or folder, which is there. An empty path is the root
/// folder.
fn is_same_file<R: Files>(rt: &R, one: &str, other: &str) -> bool {
    let one = if one.is_empty() { "/" } else { one };
    match (fs::metadata(rt, one), fs::metadata(rt, other)) {
        (Ok(one), Ok(other)) => one.dev() == other.dev() && one.ino() == other.ino(),
        _ => false,
    }
}
