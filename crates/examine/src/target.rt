//! The file of a target.

ghost use Rattle.std.specs.Prelude.{◌≡◌, IfOk, option_map};
ghost use Rattle.examine.specs.Checks as spec;

use meta::Target;
use meta::names::digest_name;
use std::alloc::{AllocError, Global};
use std::collections::BTreeMap;

/// Returns the file under the first of the target's names that is there: its path, or under
/// consistent snapshots the names under its sha256 and its sha512 digest, each if it is listed (TUF
/// 1.0 section 5.7). Fails only if out of memory.
pub fn target_file<'a>(
    alloc: Global,
    files: &'a BTreeMap<String, Vec<u8>>,
    consistent: bool,
    target: &Target,
) -> Result<Option<&'a [u8]>, AllocError>
    ensures first { IfOk result (λ o. option_map (λ b. b.now) o
        ≡ spec.target_file (spec.file_in files.now) consistent target.now) }
{
    if !consistent {
        return Ok(file_of(files, target.path.as_str()));
    }
    if let Some(digest) = &target.hashes.sha256 {
        let name = digest_name(alloc, digest, target.path.as_str())?;
        if let Some(found) = file_of(files, name.as_str()) {
            return Ok(Some(found));
        }
    }
    let Some(digest) = &target.hashes.sha512 else {
        return Ok(None);
    };
    let name = digest_name(alloc, digest, target.path.as_str())?;
    Ok(file_of(files, name.as_str()))
}

/// Returns the file of that name.
fn file_of<'a>(files: &'a BTreeMap<String, Vec<u8>>, name: &str) -> Option<&'a [u8]>
    ensures { option_map (λ b. b.now) result ≡ spec.file_in files.now name.now }
{
    Some(files.get(name)?.as_slice())
}
