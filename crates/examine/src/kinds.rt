//! The examination of a file of each kind.

ghost use Rattle.std.specs.Prelude.{option_map};
ghost use Rattle.meta.specs.Content.{Answers};
ghost use Rattle.examine.specs.Checks as spec;
ghost use Rattle.examine.specs.Checks.{expectation, file_in};

use crate::context::Context;
use crate::expectation::Expectation;
use crate::fetch::{Candidate, fetch_signed, listed_version};
use crate::order::check_order;
use crate::timing::{falls_short, is_again, is_earlier, is_version_wrong};
use keys::{Judge, enough};
use meta::{Fault, Part, Root, Snapshot, Stop, Targets, Timestamp, refuse_if};

/// Examines a root file that follows a trusted one (TUF 1.0 section 5.3). The file must be signed
/// as expected and by its own root role, and have the version `due`. Fails with the first fault, or
/// if out of memory.
pub fn examine_root<J: Judge>(
    context: &Context,
    expect: &Expectation,
    due: u64,
    judge: &mut J,
) -> Result<Part<Root>, Stop>
    ensures answer { Answers (spec.root_part (expectation expect.now) due
        (file_in context.now.files.now)) result (λ p. p) }
{
    let found: Candidate<Root> = fetch_signed(context, expect, judge)?;
    let root = found.part.reading();
    let is_own = enough(
        context.alloc,
        &found.doc,
        expect.name,
        root.ring(),
        root.root(),
        judge,
    )?;
    refuse_if(!is_own, Fault::Unsigned)?;
    refuse_if(
        is_version_wrong(Some(due), root.header()),
        Fault::VersionWrong,
    )?;
    Ok(found.part)
}

/// Examines a timestamp file if none is trusted (TUF 1.0 section 5.4). Fails with the first fault,
/// or if out of memory.
pub fn examine_first_timestamp<J: Judge>(
    context: &Context,
    expect: &Expectation,
    judge: &mut J,
) -> Result<Part<Timestamp>, Stop>
    ensures answer { Answers (spec.first_timestamp (expectation expect.now)
        (file_in context.now.files.now) context.now.moment) result (λ p. p) }
{
    let found: Candidate<Timestamp> = fetch_signed(context, expect, judge)?;
    check_order(None, false, found.part.reading().header(), context.moment)?;
    Ok(found.part)
}

/// Examines a timestamp file against the trusted one, `old` (TUF 1.0 section 5.4). Returns None if
/// it is signed as expected and has the version of `old`. Fails with the first fault, or if out of
/// memory.
pub fn examine_next_timestamp<J: Judge>(
    context: &Context,
    expect: &Expectation,
    old: &Timestamp,
    judge: &mut J,
) -> Result<Option<Part<Timestamp>>, Stop>
    ensures answer { Answers (spec.next_timestamp (expectation expect.now) old.now
        (file_in context.now.files.now) context.now.moment) result (λ p. p) }
{
    let found: Candidate<Timestamp> = fetch_signed(context, expect, judge)?;
    let new = found.part.reading();
    if is_again(old, new) {
        return Ok(None);
    }
    check_order(None, is_earlier(old, new), new.header(), context.moment)?;
    Ok(Some(found.part))
}

/// Examines a snapshot file (TUF 1.0 section 5.5). It must list each name of the trusted snapshot
/// `old`, if there is one, with no lower version. Fails with the first fault, or if out of memory.
pub fn examine_snapshot<J: Judge>(
    context: &Context,
    expect: &Expectation,
    old: Option<&Snapshot>,
    judge: &mut J,
) -> Result<Part<Snapshot>, Stop>
    ensures answer { Answers (spec.snapshot_part (expectation expect.now)
        (option_map (λ s. s.now) old.entry) (file_in context.now.files.now) context.now.moment)
        result (λ p. p) }
{
    let found: Candidate<Snapshot> = fetch_signed(context, expect, judge)?;
    let new = found.part.reading();
    let due = listed_version(&expect.listed);
    check_order(due, falls_short(old, new), new.header(), context.moment)?;
    Ok(found.part)
}

/// Examines a targets file, top-level or delegated (TUF 1.0 sections 5.6 and 5.7). Fails with the
/// first fault, or if out of memory.
pub fn examine_targets<J: Judge>(
    context: &Context,
    expect: &Expectation,
    judge: &mut J,
) -> Result<Part<Targets>, Stop>
    ensures answer { Answers (spec.targets_part (expectation expect.now)
        (file_in context.now.files.now) context.now.moment) result (λ p. p) }
{
    let found: Candidate<Targets> = fetch_signed(context, expect, judge)?;
    let due = listed_version(&expect.listed);
    check_order(due, false, found.part.reading().header(), context.moment)?;
    Ok(found.part)
}
