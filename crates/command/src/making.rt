//! Repositories that a script makes.

ghost use Rattle.std.specs.Prelude.{◌≡◌, IfOk};

use crate::listed::MOST_GIVEN;
use failure::{Failure, of_io};
use folder::path_below;
use inout::read_file;
use std::alloc::Global;
use std::fs;
use std::rt::Files;
use system::Machine;

/// Writes what the script of that path makes below a folder, and returns status 0. If the script is
/// invalid, nothing is written.
pub fn make(rt: &HostRuntime, alloc: Global, script: &str, folder: &str) -> Result<u8, Failure>
    ensures status { IfOk result (λ status. status ≡ 0) }
{
    let script = read_file(&Machine::new(rt), script, MOST_GIVEN, Failure::Input)?;
    let Ok(text) = std::str::from_utf8(script.as_slice()) else {
        return Err(Failure::Input);
    };
    for (name, bytes) in maker::make(alloc, text)? {
        write_below(rt, alloc, folder, name.as_str(), bytes.as_slice())?;
    }
    Ok(0)
}

/// Writes the file of that name below the folder, and makes the folders that contain it.
fn write_below<R: Files>(
    rt: &R,
    alloc: Global,
    folder: &str,
    name: &str,
    bytes: &[u8],
) -> Result<(), Failure> {
    let path = path_below(alloc, folder, name)?;
    make_folders_of(rt, path.as_str())?;
    fs::write(rt, path.as_str(), bytes).map_err(|error| of_io(&error, Failure::Output))
}

fn make_folders_of<R: Files>(rt: &R, path: &str) -> Result<(), Failure> {
    let Some((folders, _)) = path.rsplit_once('/') else {
        return Ok(());
    };
    fs::create_dir_all(rt, folders).map_err(|error| of_io(&error, Failure::Output))
}
