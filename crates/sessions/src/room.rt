//! The folder in which the cases are run.

use anyhow::{Result, ensure};
use std::alloc::Global;
use std::fs;

/// The folder of the cases.
pub const CASES: &str = "cases";

/// A name in a folder, and whether it is a folder's.
#[derive(Drop)]
struct Entry {
    name: String,
    is_folder: bool,
}

/// Returns the entries of a folder.
fn entries(rt: &HostRuntime, alloc: Global, folder: &str) -> Result<Vec<Entry>> {
    let mut entries = Vec::new(alloc);
    for entry in fs::read_dir(rt, folder)? {
        let entry = entry?;
        entries.push(Entry {
            name: String::from_str(alloc, entry.file_name())?,
            is_folder: entry.file_type()?.is_dir(),
        })?;
    }
    Ok(entries)
}

/// Fails if the folder contains anything but the cases, since all else is removed.
pub fn check(rt: &HostRuntime, alloc: Global) -> Result<()> {
    let entries = entries(rt, alloc, ".")?;
    ensure!(
        entries.iter().all(|entry| entry.name.as_str() == CASES),
        "the folder holds more than its folder cases"
    );
    Ok(())
}

/// Removes all but the cases.
pub fn clear(rt: &HostRuntime, alloc: Global) -> Result<()> {
    for entry in entries(rt, alloc, ".")? {
        remove(rt, &entry)?;
    }
    Ok(())
}

fn remove(rt: &HostRuntime, entry: &Entry) -> Result<()> {
    let name = entry.name.as_str();
    if entry.is_folder && name != CASES {
        fs::remove_dir_all(rt, name)?;
    } else if name != CASES {
        fs::remove_file(rt, name)?;
    }
    Ok(())
}

/// Returns the names of the files in the folder of the cases that have this ending, in order.
pub fn names(rt: &HostRuntime, alloc: Global, ending: &str) -> Result<Vec<String>> {
    let mut names = Vec::new(alloc);
    for Entry { name, .. } in entries(rt, alloc, CASES)? {
        if name.as_str().ends_with(ending) {
            names.push(name)?;
        }
    }
    names.sort()?;
    Ok(names)
}
