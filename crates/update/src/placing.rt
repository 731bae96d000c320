//! The wanted paths that may have copies.

ghost use Rattle.std.specs.Prelude.{◌≡◌, ◌&&◌, IfOk, map, string_bytes};
ghost use Rattle.std.specs.Prelude.{IsPermutation, IsSorted, false, true};
ghost use Rattle.std.specs.Cmp.Lexicographic.{slice_cmp};
ghost use Rattle.std.specs.Ordering.{nat_cmp};
ghost use Rattle.std.specs.List.Sorted.{IsPartitionPoint};
ghost use Rattle.report.specs.Lines as report;
ghost use Rattle.update.specs.Copies as spec;
ghost use Rattle.update.specs.Stored.{AreCandidates, begins_at, is_before, lent_texts};

use copies::is_below;
use cycle::Verdict;
use std::alloc::{AllocError, Global};

/// Returns for each wanted path, by position, whether a copy may be stored for it: its verdict is
/// good, it is a path below the folder, and no other path with a good verdict is below it. Fails
/// only if out of memory.
pub(crate) fn candidates(
    alloc: Global,
    wanted: &[String],
    verdicts: &[Verdict],
) -> Result<Vec<bool>, AllocError>
    ensures candidates { IfOk result
        (λ flags. AreCandidates (map string_bytes wanted.now) verdicts.now flags.items) }
{
    let paths = good_paths(alloc, wanted, verdicts)?;
    let mut flags = Vec::new(alloc);
    for i in 0..wanted.len() {
        let is_good = is_good_at(verdicts, i);
        flags.push(is_candidate(alloc, is_good, paths.as_slice(), wanted[i].as_str())?)?;
    }
    Ok(flags)
}

/// Returns whether the verdict at the index is good.
fn is_good_at(verdicts: &[Verdict], i: usize) -> bool
    ensures { result ≡ spec.is_good_at verdicts.now i }
{
    match verdicts.get(i) {
        Some(verdict) => is_good(verdict),
        None => false,
    }
}

fn is_good(verdict: &Verdict) -> bool
    ensures { result ≡ report.is_good verdict.now }
{
    matches!(verdict, Verdict::Good { .. })
}

/// Returns the wanted paths whose verdict is good, sorted.
fn good_paths<'a>(
    alloc: Global,
    wanted: &'a [String],
    verdicts: &[Verdict],
) -> Result<Vec<&'a str>, AllocError>
    ensures paths { IfOk result (λ paths. IsPermutation
        (spec.good_paths (map string_bytes wanted.now) verdicts.now) (lent_texts paths.items)) }
    ensures sorted { IfOk result
        (λ paths. IsSorted (λ a b. slice_cmp nat_cmp a.now b.now) paths.items) }
{
    let mut paths = unsorted(alloc, wanted, verdicts)?;
    paths.sort_unstable();
    Ok(paths)
}

/// Returns the wanted paths whose verdict is good, in order.
fn unsorted<'a>(
    alloc: Global,
    wanted: &'a [String],
    verdicts: &[Verdict],
) -> Result<Vec<&'a str>, AllocError>
    ensures paths { IfOk result (λ paths. lent_texts paths.items
        ≡ spec.good_paths (map string_bytes wanted.now) verdicts.now) }
{
    let mut paths = Vec::new(alloc);
    for (path, verdict) in wanted.iter().zip(verdicts.iter()) {
        if is_good(verdict) {
            paths.push(path.as_str())?;
        }
    }
    Ok(paths)
}

/// Returns whether the verdict of the path is good and a copy may have it, among these sorted
/// paths.
fn is_candidate(
    alloc: Global,
    is_good: bool,
    paths: &[&str],
    path: &str,
) -> Result<bool, AllocError>
    requires sorted { IsSorted (λ a b. slice_cmp nat_cmp a.now b.now) paths.now }
    ensures test { IfOk result
        (λ flag. flag ≡ (is_good && spec.may_have_copy (lent_texts paths.now) path.now)) }
{
    if !is_good || !is_below(path) {
        return Ok(false);
    }
    Ok(!is_folder_of_one(alloc, paths, path)?)
}

/// Returns whether one of these sorted paths is below the path.
fn is_folder_of_one(alloc: Global, paths: &[&str], path: &str) -> Result<bool, AllocError>
    requires sorted { IsSorted (λ a b. slice_cmp nat_cmp a.now b.now) paths.now }
    ensures test { IfOk result
        (λ flag. flag ≡ spec.is_folder_of_one (lent_texts paths.now) path.now) }
{
    let folder = format!(in alloc; "{path}/")?;
    let first = first_from(paths, folder.as_str());
    Ok(begins_with(paths, first, folder.as_str()))
}

/// Returns the index of the first of these sorted texts that isn't before `start`.
fn first_from(texts: &[&str], start: &str) -> usize
    requires sorted { IsSorted (λ a b. slice_cmp nat_cmp a.now b.now) texts.now }
    ensures first { IsPartitionPoint (λ text. is_before start.now text.now ≡ true)
        (λ text. is_before start.now text.now ≡ false) texts.now result }
{
    texts.partition_point(|text| *text < start)
}

/// Returns whether there is a text at the index, and it begins with `start`.
fn begins_with(texts: &[&str], i: usize, start: &str) -> bool
    ensures { result ≡ begins_at start.now (lent_texts texts.now) i }
{
    match texts.get(i) {
        Some(text) => text.as_bytes().starts_with(start.as_bytes()),
        None => false,
    }
}
