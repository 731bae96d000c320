//! The names of a folder's files, and the measures taken so far.

ghost use Rattle.std.specs.Prelude.{◌≡◌, ◌∷◌, [], ℕ, List, Bool, true, Some, IfOk, IfSome, OnOk};
ghost use Rattle.std.specs.Prelude.{OnErr};
ghost use Rattle.std.specs.Prelude.{find, is_some, map, option_map, string_bytes};
ghost use Rattle.std.specs.BTreeMap.{get_by_text};
ghost use Rattle.meta.specs.Content.{hashed_name};
ghost use Rattle.folder.specs.Seen.{Seen};
ghost use Rattle.measured.specs.Closed.{IsKnownOf, seen_file, found_of};
ghost use Rattle.measured.specs.Known as spec;
ghost use Rattle.measured.specs.Known.{IsKnown, IsSame, Puts};

use folder::{Measure, Need};
use meta::Target;
use meta::names::digest_name;
use std::alloc::{AllocError, Global};
use std::collections::BTreeMap;

/// What is needed of a file, and its measure once the file was read.
#[derive(Clone, Copy)]
pub struct Wanted {
    pub need: Need,
    pub measure: Option<Measure>,
}

/// A file that is there: its name, and what is known of it if it is wanted.
#[derive(Drop)]
pub struct There {
    pub name: String,
    pub wanted: Option<Wanted>,
}

/// The names of a folder's files, and the measures of those that were read.
pub struct Known {
    pub(crate) files: BTreeMap<String, Option<Wanted>>,
}

/// A target's file: its name in the folder, its length as far as it was read, and those of its
/// digests that the target lists.
#[derive(Drop)]
pub struct Found {
    pub name: String,
    pub measure: Measure,
}

impl Drop for Known {
    fn drop(self) {
        let Known { files } = self;
    }
}

impl Known {
    /// Returns the target's file, or None if it isn't there (TUF 1.0 section 5.7). `consistent` is
    /// whether files have consistent names. Reads nothing. Fails only if out of memory.
    pub fn found(
        &self,
        alloc: Global,
        consistent: bool,
        target: &Target,
    ) -> Result<Option<Found>, AllocError>
        requires known { spec.knows self.now consistent target.now ≡ true }
        ensures found { IfOk result (λ o. (s : Seen) → IsKnownOf s self.now
            → option_map found_of o ≡ seen_file s consistent target.now) }
    {
        let Some(there) = place(alloc, self, consistent, target)? else {
            return Ok(None);
        };
        let Some(wanted) = there.wanted else {
            unreachable!();
        };
        let Some(measure) = &wanted.measure else {
            unreachable!();
        };
        Ok(Some(Found {
            name: there.name,
            measure: listed_of(target, measure),
        }))
    }
}

/// Returns the measure with those of its digests that the target lists.
fn listed_of(target: &Target, measure: &Measure) -> Measure
    ensures { result ≡ spec.listed_of target.now measure.now }
{
    let mut listed = *measure;
    if target.hashes.sha256.is_none() {
        listed.sha256 = None;
    }
    if target.hashes.sha512.is_none() {
        listed.sha512 = None;
    }
    listed
}

/// Returns these names, with no file wanted yet. Fails only if out of memory.
pub(crate) fn named(alloc: Global, names: Vec<String>) -> Result<Known, AllocError>
    ensures { IfOk result (λ k. (holds : List ℕ → List ℕ → Bool) (found : List ℕ → Bool)
        → IsKnown (map string_bytes names.items) holds found k) }
{
    let mut known = Known {
        files: BTreeMap::new(alloc),
    };
    for name in names {
        put(&mut known, name, None)?;
    }
    Ok(known)
}

/// Stores the value under the name. Fails only if out of memory.
#[tactic(auto, using(std::proofs::lemmas::Map::Text::text_keys))]
pub(crate) fn put(known: &mut Known, name: String, value: Option<Wanted>) -> Result<(), AllocError>
    ensures put { OnOk result (Puts (string_bytes name) value known.old known.new) }
    ensures refused { OnErr result (IsSame known.old known.new) }
{
    known.files.insert(name, value)?;
    Ok(())
}

/// Returns what is known of the file of that name, if there is such a file.
pub(crate) fn entry_of(known: &Known, name: &str) -> Option<Option<Wanted>>
    ensures { result ≡ get_by_text known.now.files name.now }
{
    Some(*known.files.get(name)?)
}

/// Returns the file under the first of the target's names that is there: its path, or under
/// consistent snapshots the names under its sha256 and its sha512 digest, each if it is listed (TUF
/// 1.0 section 5.7). Fails only if out of memory.
pub(crate) fn place(
    alloc: Global,
    known: &Known,
    consistent: bool,
    target: &Target,
) -> Result<Option<There>, AllocError>
    ensures name { IfOk result (λ o. option_map (λ t. string_bytes t.name) o
        ≡ spec.place known.now consistent target.now) }
    ensures there { IfOk result (λ o. IfSome o (spec.IsThere known.now)) }
{
    if !consistent {
        let path = String::from_str(alloc, target.path.as_str())?;
        return Ok(if_there(known, path));
    }
    if let Some(digest) = &target.hashes.sha256 {
        let name = name_under(alloc, digest, target)?;
        if let Some(there) = if_there(known, name) {
            return Ok(Some(there));
        }
    }
    let Some(digest) = &target.hashes.sha512 else {
        return Ok(None);
    };
    let name = name_under(alloc, digest, target)?;
    Ok(if_there(known, name))
}

/// Returns the name of the target's file under that digest. Fails only if out of memory.
fn name_under(alloc: Global, digest: &[u8], target: &Target) -> Result<String, AllocError>
    ensures { IfOk result (λ s. string_bytes s ∷ []
        ≡ hashed_name target.now.path (Some digest.now)) }
{
    digest_name(alloc, digest, target.path.as_str())
}

/// Returns the file of that name, if there is one.
fn if_there(known: &Known, name: String) -> Option<There>
    ensures name { option_map (λ t. string_bytes t.name) result
        ≡ find (λ name. is_some (get_by_text known.now.files name)) (string_bytes name ∷ []) }
    ensures some { is_some result ≡ is_some (get_by_text known.now.files (string_bytes name)) }
    ensures there { IfSome result (spec.IsThere known.now) }
{
    match entry_of(known, name.as_str()) {
        Some(wanted) => Some(There { name, wanted }),
        None => None,
    }
}
