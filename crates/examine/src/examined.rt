//! The examination of a file of any kind.

ghost use Rattle.std.specs.Prelude.{◌≡◌, IfOk, option_map};
ghost use Rattle.meta.specs.Content.{Answers};
ghost use Rattle.examine.specs.Checks.{expectation, file_in};
ghost use Rattle.examine.specs.Examined as spec;

use crate::context::Context;
use crate::expectation::{Expect, Expectation, Kind};
use crate::kinds::{
    examine_first_timestamp, examine_next_timestamp, examine_root, examine_snapshot,
    examine_targets,
};
use cjson::NoMemory;
use keys::Judge;
use meta::{Fault, Part, Repo, Root, Snapshot, Stop, Targets, Timestamp};
use moment::Moment;
use std::alloc::Global;

/// A metadata file of one of the four kinds.
#[derive(Drop)]
pub enum File {
    /// A root file.
    Root(Part<Root>),
    /// A timestamp file.
    Timestamp(Part<Timestamp>),
    /// A snapshot file.
    Snapshot(Part<Snapshot>),
    /// A targets file, top-level or delegated.
    Targets(Part<Targets>),
}

/// The result of the checks of a file.
#[derive(Drop)]
pub enum Examined {
    /// The file, which passed all checks.
    Good(File),
    /// The file is a timestamp, signed as expected, of the version of the trusted one, which stays.
    Same,
    /// The first check that the file fails.
    Refused(Fault),
}

/// Examines the expected file of the repository's metadata (TUF 1.0 sections 5.3 to 5.7): whether
/// it is listed and there, the limit of its kind, its listed length and digests, its form,
/// signatures, version, rollback and expiry, in this order. A root must also be signed by its own
/// root role, and its expiry isn't checked. Fails only if out of memory.
pub fn examine<J: Judge>(
    alloc: Global,
    expect: &Expect,
    repo: &Repo,
    now: Moment,
    judge: &mut J,
) -> Result<Examined, NoMemory>
    ensures examined { IfOk result (λ e. e
        ≡ spec.examined (spec.expect expect.now) (file_in repo.now.metadata) now) }
{
    let context = Context {
        alloc,
        files: &repo.metadata,
        moment: now,
    };
    match examine_file(&context, expect, judge) {
        Ok(Some(file)) => Ok(Examined::Good(file)),
        Ok(None) => Ok(Examined::Same),
        Err(Stop::Refused(fault)) => Ok(Examined::Refused(fault)),
        Err(Stop::NoMemory) => Err(NoMemory),
    }
}

/// Returns the expected file, or None for a timestamp of the version of the trusted one.
fn examine_file<J: Judge>(
    context: &Context,
    expect: &Expect,
    judge: &mut J,
) -> Result<Option<File>, Stop>
    ensures { Answers (spec.file_part (spec.kind expect.now.kind) (expectation expect.now.file)
        (file_in context.now.files.now) context.now.moment) result (λ o. o) }
{
    let file = &expect.file;
    match expect.kind {
        Kind::Root { version } => {
            let part = examine_root(context, file, version, judge)?;
            Ok(Some(File::Root(part)))
        }
        Kind::Timestamp { trusted } => {
            let part = examine_timestamp(context, file, trusted, judge)?;
            Ok(part.map(File::Timestamp))
        }
        Kind::Snapshot { trusted } => {
            let part = examine_snapshot(context, file, trusted, judge)?;
            Ok(Some(File::Snapshot(part)))
        }
        Kind::Targets => {
            let part = examine_targets(context, file, judge)?;
            Ok(Some(File::Targets(part)))
        }
    }
}

/// Returns the expected timestamp, or None if it has the version of the trusted one, `old`.
fn examine_timestamp<J: Judge>(
    context: &Context,
    file: &Expectation,
    old: Option<&Timestamp>,
    judge: &mut J,
) -> Result<Option<Part<Timestamp>>, Stop>
    ensures { Answers (spec.timestamp_part (option_map (λ t. t.now) old.entry)
        (expectation file.now) (file_in context.now.files.now) context.now.moment)
        result (λ p. p) }
{
    let Some(old) = old else {
        let part = examine_first_timestamp(context, file, judge)?;
        return Ok(Some(part));
    };
    examine_next_timestamp(context, file, old, judge)
}
