//! Why the files of targets are refused, if that is asked for.

ghost use Rattle.std.specs.Prelude.{◌≡◌, All, IfOk, map, option_map, string_bytes};
ghost use Rattle.measured.specs.Closed.{IsKnownOf, found_of};
ghost use Rattle.measured.specs.Known.{IsCovered};
ghost use Rattle.update.specs.Opened.{IsToldBy};
ghost use Rattle.update.specs.Runs.{Seen, path_text, path_texts};
ghost use Rattle.whys.specs.Whys.{target_text};

use crate::start::{Detail, Start};
use cjson::NoMemory;
use cycle::{Course, Search, Target};
use measured::{Found, Known, close, target_of};
use report::{Told, Why};
use std::alloc::Global;
use whys::{Measured, target_lines};

/// Ends the course by what is known of the target files that its searches found, and tells the
/// outcome with these lines that say why it stopped. Fails only if out of memory.
#[tactic(auto, using(crate::proofs::Storing::told_by))]
pub fn told_of(
    start: &Start<'_>,
    course: Course,
    stop: String,
    known: &Known,
) -> Result<Told, NoMemory>
    requires covered { All (IsCovered known.now course.trusted.root.reading.consistent)
        course.searches }
    ensures told { IfOk result
        (IsToldBy start.now.detail course (string_bytes stop) known.now) }
    ensures state { IfOk result (λ t. t.outcome.trusted ≡ course.trusted) }
{
    let paths = path_lines(start, &course, known)?;
    let outcome = close(start.alloc, course, known)?;
    let why = Why { stop, paths };
    Ok(Told { outcome, why })
}

/// Returns for each search, by position, the lines that say why the file of the target is refused
/// that it found, or None if the start doesn't ask for them.
fn path_lines(
    start: &Start<'_>,
    course: &Course,
    known: &Known,
) -> Result<Option<Vec<String>>, NoMemory>
    requires covered { All (IsCovered known.now course.now.trusted.root.reading.consistent)
        course.now.searches }
    ensures lines { IfOk result (λ o. (targets : Seen) → IsKnownOf targets known.now
        → option_map (λ texts. map string_bytes texts.items) o
        ≡ path_texts start.now.detail targets course.now) }
{
    match start.detail {
        Detail::Faults => Ok(None),
        Detail::Reasons => Ok(Some(texts_of(start.alloc, course, known)?)),
    }
}

fn texts_of(alloc: Global, course: &Course, known: &Known) -> Result<Vec<String>, NoMemory>
    requires covered { All (IsCovered known.now course.now.trusted.root.reading.consistent)
        course.now.searches }
    ensures { IfOk result (λ texts. (targets : Seen) → IsKnownOf targets known.now
        → map string_bytes texts.items
        ≡ map (path_text targets course.now.trusted.root.reading.consistent)
        course.now.searches) }
{
    let consistent = course.has_consistent_names();
    let mut texts = Vec::new(alloc);
    for search in course.searches() {
        let text = text_of(alloc, consistent, search, known)?;
        texts.push(text)?;
    }
    Ok(texts)
}

/// Returns the lines that say why the file of the target is refused that the search found.
fn text_of(
    alloc: Global,
    consistent: bool,
    search: &Option<Search>,
    known: &Known,
) -> Result<String, NoMemory>
    requires covered { IsCovered known.now consistent search.now }
    ensures { IfOk result (λ text. (targets : Seen) → IsKnownOf targets known.now
        → string_bytes text ≡ path_text targets consistent search.now) }
{
    let Some(target) = target_of(search) else {
        return Ok(String::new(alloc));
    };
    let found = known.found(alloc, consistent, target)?;
    file_lines(alloc, consistent, target, &found)
}

fn file_lines(
    alloc: Global,
    consistent: bool,
    target: &Target,
    found: &Option<Found>,
) -> Result<String, NoMemory>
    ensures { IfOk result (λ text. string_bytes text
        ≡ target_text consistent target.now (option_map found_of found.now)) }
{
    let Some(found) = found else {
        return target_lines(alloc, consistent, target, None);
    };
    let measured = Measured {
        name: found.name.as_str(),
        measure: &found.measure,
    };
    target_lines(alloc, consistent, target, Some(measured))
}
