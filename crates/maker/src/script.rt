//! Scripts that make repositories.

ghost use Rattle.std.specs.Prelude.{◌≢◌};

use crate::refusal::Refusal;
use crate::repository::Repository;
use seals::MakeFault;
use std::alloc::Global;

/// Returns the files of the repository that a script makes, in the order of their names, which
/// begin with `metadata/` or `targets/`. docs/SCRIPTS.md describes the language.
///
/// Fails with `Script` and the number of the first invalid line, counted from 1, or with
/// `NoMemory`. A `write` line is invalid if one of its keys has no leaf left, so this never fails
/// with `Used`.
pub fn make(alloc: Global, script: &str) -> Result<Vec<(String, Vec<u8>)>, MakeFault>
    ensures not_used { result ≢ Err MakeFault.Used }
{
    let mut repository = Repository::new(alloc)?;
    for (place, text) in script.split('\n').enumerate() {
        if let Err(refusal) = repository.follow(text) {
            return Err(refusal.at(place.saturating_add(1)));
        }
    }
    Ok(repository.into_files()?)
}
