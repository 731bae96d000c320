//! All files that are absent.

ghost use Rattle.std.specs.Prelude.{◌≡◌, IfOk, IsTrue, OnOk, fold, map};
ghost use Rattle.examine.specs.Checks.{file_in};
ghost use Rattle.needs.specs.Glue.{IsOnce};
ghost use Rattle.needs.specs.Laws.{AreAbsent, HasEnough, IsCourseOf, IsSettled, are_optional};
ghost use Rattle.needs.specs.Needs as spec;
ghost use Rattle.needs.specs.Needs.{is_in};

use crate::need::Need;
use crate::once::{Once, note, note_all, nothing};
use crate::searches::{file_needs, search_need};
use crate::steps::{end_need, root_need};
use cjson::NoMemory;
use cycle::{Course, Search, Trusted};
use std::alloc::Global;
use std::collections::BTreeMap;

/// Returns the files that the workflow looked up and found absent, in its order, each once.
/// `course` is what the workflow came to from the trusted state `before`, on the metadata files;
/// `targets` has the names of the target files, whatever their values.
///
/// - The root after the last one that was accepted may be absent for good, and is optional.
/// - The timestamp, the snapshot or the top-level targets file, if the cycle stopped for it.
/// - The file of each role that a search was refused.
/// - The file of each target that a search found, under each of its names up to one that is there.
///   Each but the last is optional, since the workflow goes on to the next.
///
/// If all of them are optional, no step and no search ended because a file is missing, and each
/// target that was found has its file, unless it has no name to look for. If the metadata files
/// among them are missing for good, no other files can change the course.
///
/// Fails only if out of memory.
pub fn needs<V>(
    alloc: Global,
    before: &Trusted,
    course: &Course,
    metadata: &BTreeMap<String, Vec<u8>>,
    targets: &BTreeMap<String, V>,
) -> Result<Vec<Need>, NoMemory>
    ensures needs { IfOk result (λ all. all.items ≡ spec.needs before.now.root.reading course.now
        (is_in metadata.now) (is_in targets.now)) }
    ensures absent { (r : spec.Request)
        → IsCourseOf r before.now course.now (file_in metadata.now) → IfOk result (λ all.
        AreAbsent (is_in metadata.now) (is_in targets.now) all.items) }
    ensures enough { (r : spec.Request)
        → IsCourseOf r before.now course.now (file_in metadata.now) → IfOk result (λ all.
        IsTrue (are_optional all.items) → HasEnough (is_in targets.now) course.now) }
    ensures settled { (r : spec.Request)
        → IsCourseOf r before.now course.now (file_in metadata.now) → IfOk result (λ all.
        IsSettled r (file_in metadata.now) all.items) }
{
    listed(alloc, before, course, metadata, targets)
}

/// Returns them: the metadata files, and the files of targets.
fn listed<V>(
    alloc: Global,
    before: &Trusted,
    course: &Course,
    metadata: &BTreeMap<String, Vec<u8>>,
    targets: &BTreeMap<String, V>,
) -> Result<Vec<Need>, NoMemory>
    ensures { IfOk result (λ all. all.items ≡ spec.needs before.now.root.reading course.now
        (is_in metadata.now) (is_in targets.now)) }
{
    let mut all = missing_metadata(alloc, before, course, metadata)?;
    let mut found = target_needs(alloc, course, targets)?;
    all.append(&mut found)?;
    Ok(all)
}

/// Returns the metadata files among [`needs`], in the same order. Fails only if out of memory.
pub fn missing_metadata(
    alloc: Global,
    before: &Trusted,
    course: &Course,
    metadata: &BTreeMap<String, Vec<u8>>,
) -> Result<Vec<Need>, NoMemory>
    ensures missing { IfOk result (λ all. all.items ≡ spec.missing_metadata
        before.now.root.reading course.now (is_in metadata.now)) }
{
    let mut all = next_root(alloc, before, course, metadata)?;
    let mut others = metadata_needs(alloc, course)?;
    all.append(&mut others)?;
    Ok(all)
}

/// Returns the root after the last one that was accepted, if it was looked up and isn't there.
fn next_root(
    alloc: Global,
    before: &Trusted,
    course: &Course,
    metadata: &BTreeMap<String, Vec<u8>>,
) -> Result<Vec<Need>, NoMemory>
    ensures { IfOk result (λ all. all.items
        ≡ spec.next_root before.now.root.reading course.now (is_in metadata.now)) }
{
    let (old, last) = (before.root().reading(), course.trusted().root().reading());
    let mut all = Vec::new(alloc);
    if let Some(root) = root_need(alloc, old, last, metadata)? {
        all.push(root)?;
    }
    Ok(all)
}

/// Returns the other metadata files that are absent.
fn metadata_needs(alloc: Global, course: &Course) -> Result<Vec<Need>, NoMemory>
    ensures { IfOk result (λ all. all.items ≡ spec.metadata_needs course.now) }
{
    let trusted = course.trusted();
    let mut once = nothing(alloc);
    note(alloc, &mut once, end_need(alloc, trusted, course.end())?)?;
    note_searches(alloc, &mut once, trusted, course.searches())?;
    Ok(once.needs)
}

/// Adds the files of the roles that searches were refused.
fn note_searches(
    alloc: Global,
    once: &mut Once,
    trusted: &Trusted,
    searches: &[Option<Search>],
) -> Result<(), NoMemory>
    requires { IsOnce once.old }
    ensures { OnOk result (once.new.needs.items ≡ fold spec.noted once.old.needs.items
        (map (spec.search_need trusted.now) searches.now)) }
{
    for search in searches {
        note(alloc, once, search_need(alloc, trusted, search)?)?;
    }
    Ok(())
}

/// Returns the files of targets that are absent.
fn target_needs<V>(
    alloc: Global,
    course: &Course,
    targets: &BTreeMap<String, V>,
) -> Result<Vec<Need>, NoMemory>
    ensures { IfOk result (λ all. all.items ≡ spec.target_needs course.now (is_in targets.now)) }
{
    let consistent = course.has_consistent_names();
    let mut once = nothing(alloc);
    note_files(alloc, &mut once, consistent, course.searches(), targets)?;
    Ok(once.needs)
}

/// Adds the files of the targets that searches found.
fn note_files<V>(
    alloc: Global,
    once: &mut Once,
    consistent: bool,
    searches: &[Option<Search>],
    targets: &BTreeMap<String, V>,
) -> Result<(), NoMemory>
    requires { IsOnce once.old }
    ensures { OnOk result (once.new.needs.items
        ≡ fold (spec.noted_files (is_in targets.now) consistent)
        once.old.needs.items searches.now) }
{
    for search in searches {
        note_all(alloc, once, file_needs(alloc, consistent, search, targets)?)?;
    }
    Ok(())
}
