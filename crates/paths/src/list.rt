//! The paths of a list.

ghost use Rattle.std.specs.Prelude.{◌≡◌, ◌<◌, [], ◌∷◌, false, length, map, true, string_bytes};
ghost use Rattle.std.specs.Prelude.{IfOk, IfSome, MatchOption, option_map};
ghost use Rattle.paths.specs.Lists as spec;

use memchr::memchr;
use std::alloc::{AllocError, Global};

/// Returns the paths of a list, in order: each ends with the byte `mark`, which the last one may
/// lack. An empty list has no paths. Returns `None` if a path is empty or isn't UTF-8. Fails only
/// if out of memory.
///
/// Reads each byte a bounded number of times, and has one path at a time beside those that it
/// returns.
#[tactic(auto, using(crate::proofs::Parting::all_paths, crate::proofs::Parting::no_paths))]
pub fn read_list(alloc: Global, bytes: &[u8], mark: u8) -> Result<Option<Vec<String>>, AllocError>
    ensures paths { IfOk result (λ paths.
        option_map (λ v. map string_bytes v.items) paths ≡ spec.paths_of mark bytes.now) }
{
    let mut paths = Vec::new(alloc);
    let mut left = bytes;
    while let Some((path, after)) = first_of(left, mark) {
        let Some(path) = path_of(path) else {
            return Ok(None);
        };
        paths.push(String::from_str(alloc, path)?)?;
        left = after;
    }
    Ok(Some(paths))
}

/// Returns the first path of a list and the list after it, or `None` if the list is empty.
#[tactic(auto, using(crate::proofs::Parting::no_parts))]
fn first_of(list: &[u8], mark: u8) -> Option<(&[u8], &[u8])>
    ensures parts { MatchOption result (spec.parts mark list.now ≡ [])
        (λ x. spec.parts mark list.now ≡ x.0.now ∷ spec.parts mark x.1.now) }
    ensures shorter { IfSome result (λ x. length x.1.now < length list.now) }
{
    if list.is_empty() {
        return None;
    }
    Some(cut(list, mark))
}

/// Returns what is before the first mark of a list that isn't empty, and what is after it: all of
/// the list and nothing if it has no mark.
#[tactic(auto, using(crate::proofs::Parting::cut_at, crate::proofs::Parting::uncut))]
fn cut(list: &[u8], mark: u8) -> (&[u8], &[u8])
    requires some { 0 < length list.now }
    ensures parts { spec.parts mark list.now ≡ result.0.now ∷ spec.parts mark result.1.now }
    ensures shorter { length result.1.now < length list.now }
{
    match memchr(mark, list) {
        Some(at) => (&list[..at], &list[at + 1..]),
        None => (list, &[]),
    }
}

/// Returns the text of a path, or `None` if it is empty or isn't UTF-8.
#[tactic(auto, using(crate::proofs::Parting::odd_isnt, crate::proofs::Parting::path_is))]
fn path_of(bytes: &[u8]) -> Option<&str>
    ensures path { MatchOption result (spec.is_path bytes.now ≡ false)
        (λ path. (spec.is_path bytes.now ≡ true) × (path.now ≡ bytes.now)) }
{
    if bytes.is_empty() {
        return None;
    }
    match std::str::from_utf8(bytes) {
        Ok(path) => Some(path),
        Err(_) => None,
    }
}
