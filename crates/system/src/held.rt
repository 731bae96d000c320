//! Files that stay open, so that their locks last.

ghost use Rattle.std.specs.Prelude.{◌≡◌, bytes_eq, is_some, not, string_bytes, false};
ghost use Rattle.std.specs.Option.{option_map_or};
ghost use Rattle.system.specs.Files as spec;

use std::fs::{Metadata, OpenFile};
use std::io;
use std::os::unix::fs::MetadataExt;

/// An open file, and whether it was locked.
#[derive(Drop)]
pub struct Written<F> {
    pub file: F,
    pub is_locked: bool,
}

/// An open file, and the path at which it was opened.
#[derive(Drop)]
pub struct Held<F> {
    pub path: String,
    pub written: Written<F>,
}

/// Returns whether the file at the path was locked, if it is the one that was opened.
pub(crate) fn is_locked_at<F>(held: &Option<Held<F>>, path: &str) -> bool
    ensures { result ≡ option_map_or (λ w. w.is_locked) (spec.at_path path.now held.now) false }
{
    match held {
        Some(held) if held.path.as_str() == path => held.written.is_locked,
        _ => false,
    }
}

/// Returns whether the file that is described is the one that was opened.
pub(crate) fn is_file_of<F: OpenFile>(
    held: &Option<Held<F>>,
    there: &Metadata,
) -> io::Result<bool> {
    let Some(held) = held else {
        return Ok(false);
    };
    let open = held.written.file.metadata()?;
    Ok(there.dev() == open.dev() && there.ino() == open.ino())
}

/// Returns whether the file was opened at the path.
pub(crate) fn is_at_path<F>(held: &Option<Held<F>>, path: &str) -> bool
    ensures { result ≡ is_some (spec.at_path path.now held.now) }
{
    match held {
        Some(held) => held.path.as_str() == path,
        None => false,
    }
}

/// Returns whether a file was opened at another path.
pub(crate) fn is_elsewhere<F>(held: &Option<Held<F>>, path: &str) -> bool
    ensures { result
        ≡ option_map_or (λ h. not (bytes_eq (string_bytes h.path) path.now)) held.now false }
{
    match held {
        Some(held) => held.path.as_str() != path,
        None => false,
    }
}
