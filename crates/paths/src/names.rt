//! The paths that names of target files stand for.

ghost use Rattle.std.specs.Prelude.{◌≡◌, IfOk, map, string_bytes};
ghost use Rattle.std.specs.List.{list_all};
ghost use Rattle.meta.specs.Patterns.{is_lower_digit};
ghost use Rattle.paths.specs.Names as spec;
ghost use Rattle.paths.specs.Names.{AreOnceInOrder, ArePathsOf, HasEachTarget};

use std::alloc::{AllocError, Global};

/// Returns the paths for which files with these names may be there (TUF 1.0 section 5.7), each
/// once, in byte order. Without consistent names the path is the name itself; else it is the name
/// without `HASH.`, 64 or 128 digits in lower-case hexadecimal and a dot, before what follows the
/// last `/`, or the name itself if it has none. Fails only if out of memory.
pub fn paths_of_names(
    alloc: Global,
    names: &[String],
    consistent: bool,
) -> Result<Vec<String>, AllocError>
    ensures paths { IfOk result (λ paths. ArePathsOf consistent (map string_bytes names.now)
        (map string_bytes paths.items)) }
    ensures targets { IfOk result (λ paths. HasEachTarget consistent (map string_bytes names.now)
        (map string_bytes paths.items)) }
{
    let paths = each_path(alloc, names, consistent)?;
    Ok(once_in_order(paths))
}

/// Returns the path of each name, in order. Fails only if out of memory.
fn each_path(alloc: Global, names: &[String], consistent: bool) -> Result<Vec<String>, AllocError>
    ensures { IfOk result (λ paths. map string_bytes paths.items
        ≡ map (spec.path_of consistent) (map string_bytes names.now)) }
{
    let mut paths = Vec::with_capacity(alloc, names.len())?;
    for name in names {
        paths.push(path_of(alloc, name.as_str(), consistent)?)?;
    }
    Ok(paths)
}

/// Returns the same paths, each once, in byte order.
pub fn once_in_order(mut paths: Vec<String>) -> Vec<String>
    ensures { AreOnceInOrder (map string_bytes paths.items) (map string_bytes result.items) }
{
    paths.sort_unstable();
    paths.dedup();
    paths
}

/// Returns the path of a name. Fails only if out of memory.
fn path_of(alloc: Global, name: &str, consistent: bool) -> Result<String, AllocError>
    ensures { IfOk result (λ path. string_bytes path ≡ spec.path_of consistent name.now) }
{
    if !consistent {
        return String::from_str(alloc, name);
    }
    match name.rsplit_once('/') {
        Some((folder, base)) => {
            let base = unhashed(base);
            format!(in alloc; "{folder}/{base}")
        }
        None => String::from_str(alloc, unhashed(name)),
    }
}

/// Returns what follows the first dot if a digest is before it, else the whole name.
fn unhashed(name: &str) -> &str
    ensures { result.now ≡ spec.unhashed name.now }
{
    match name.split_once('.') {
        Some((digits, rest)) => { if is_hash(digits) { rest } else { name } }
        None => name,
    }
}

/// Returns whether these are 64 or 128 digits in lower-case hexadecimal.
#[tactic(auto, unfolding(crate::specs::Names::is_hash))]
fn is_hash(digits: &str) -> bool
    ensures { result ≡ spec.is_hash digits.now }
{
    (digits.len() == 64 || digits.len() == 128) && are_lower_digits(digits.as_bytes())
}

fn are_lower_digits(bytes: &[u8]) -> bool
    ensures { result ≡ list_all is_lower_digit bytes.now }
{
    bytes.iter().all(|c| is_lower_digit(*c))
}

fn is_lower_digit(c: u8) -> bool
    ensures { result ≡ is_lower_digit c }
{
    matches!(c, b'0'..=b'9' | b'a'..=b'f')
}
