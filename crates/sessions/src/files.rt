//! The commands that look at files and change them.

use crate::case::Step;
use crate::output::Output;
use crate::script::script_of;
use anyhow::Result;
use std::alloc::Global;
use std::fs;

/// Writes a file with the text of the lines, without the last line feed.
pub fn put(rt: &HostRuntime, alloc: Global, step: &Step) -> Result<Output> {
    let text = script_of(rt, alloc, step.script.as_slice())?;
    let text = text.as_str().strip_suffix("\n").unwrap_or("");
    fs::write(rt, step.word(0)?, text)?;
    Ok(Output::nothing(alloc))
}

/// Writes a file with the bytes of another.
pub fn copy(rt: &HostRuntime, alloc: Global, step: &Step) -> Result<Output> {
    let bytes = fs::read(rt, step.word(0)?)?;
    fs::write(rt, step.word(1)?, bytes.as_slice())?;
    Ok(Output::nothing(alloc))
}

/// Makes a folder, and those that contain it.
pub fn folder(rt: &HostRuntime, alloc: Global, step: &Step) -> Result<Output> {
    fs::create_dir_all(rt, step.word(0)?)?;
    Ok(Output::nothing(alloc))
}

/// Removes a file, or a folder with all that is in it.
pub fn remove(rt: &HostRuntime, alloc: Global, step: &Step) -> Result<Output> {
    let name = step.word(0)?;
    if fs::symlink_metadata(rt, name)?.is_dir() {
        fs::remove_dir_all(rt, name)?;
    } else {
        fs::remove_file(rt, name)?;
    }
    Ok(Output::nothing(alloc))
}

/// Appends blanks to a file up to this number of bytes, or cuts it off there.
pub fn pad(rt: &HostRuntime, alloc: Global, step: &Step) -> Result<Output> {
    let name = step.word(0)?;
    let length = step.word(1)?.parse::<u32>()?;
    let mut bytes = fs::read(rt, name)?;
    bytes.resize(length as usize, b' ')?;
    fs::write(rt, name, bytes.as_slice())?;
    Ok(Output::nothing(alloc))
}

/// Returns whether there is a file or a folder of that name.
pub fn has(rt: &HostRuntime, alloc: Global, step: &Step) -> Result<Output> {
    Ok(Output::answer(alloc, fs::exists(rt, step.word(0)?)?))
}

/// Returns whether two files have the same bytes.
pub fn same(rt: &HostRuntime, alloc: Global, step: &Step) -> Result<Output> {
    let one = fs::read(rt, step.word(0)?)?;
    let other = fs::read(rt, step.word(1)?)?;
    Ok(Output::answer(alloc, one == other))
}
