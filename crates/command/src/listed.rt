//! Wanted paths that a file lists.

use crate::terms::all_of;
use clap::ArgMatches;
use failure::{Failure, of_io};
use folder::start_of_reader;
use inout::read_file;
use paths::read_list;
use std::alloc::Global;
use system::Machine;

/// Maximum number of bytes of a list of paths, and of a script.
pub const MOST_GIVEN: u64 = 67_108_864;

/// Returns the paths that are arguments, and then those of the file that `--paths-from` names, in
/// order. Fails with `Input` if the file can't be read or is too long, and with `Words` if a path
/// in it is empty or isn't UTF-8.
pub fn given_paths(
    rt: &HostRuntime,
    alloc: Global,
    words: &ArgMatches<'_>,
) -> Result<Vec<String>, Failure> {
    let mut paths = all_of(alloc, words, "PATH")?;
    let Some(file) = words.get_str("paths-from") else {
        return Ok(paths);
    };
    let list = bytes_of(rt, alloc, file)?;
    let mark = if words.get_flag("null") { 0 } else { b'\n' };
    let listed = read_list(alloc, list.as_slice(), mark)?;
    for path in listed.ok_or(Failure::Words)? {
        paths.push(path)?;
    }
    Ok(paths)
}

/// Returns the bytes of the file; `-` is standard input, up to its end. Fails if there are more
/// than [`MOST_GIVEN`].
fn bytes_of(rt: &HostRuntime, alloc: Global, file: &str) -> Result<Vec<u8>, Failure> {
    if file != "-" {
        return read_file(&Machine::new(rt), file, MOST_GIVEN, Failure::Input);
    }
    match start_of_reader(alloc, &mut rt.stdin(), MOST_GIVEN + 1) {
        Ok(bytes) if bytes.len() as u64 <= MOST_GIVEN => Ok(bytes),
        Ok(_) => Err(Failure::Input),
        Err(error) => Err(of_io(&error, Failure::Input)),
    }
}
