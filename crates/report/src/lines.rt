//! The lines that a run prints, and its exit status.

ghost use Rattle.failure.specs.Failures.{IsLate};
ghost use Rattle.std.specs.Prelude.{◌≡◌, ◌≤◌, ◌∷◌, ◌++◌, [], List, ℕ, IfErr, IfOk, OnOk};
ghost use Rattle.std.specs.Prelude.{codes, decimal, flat_map, map, string_bytes};
ghost use Rattle.std.specs.Io.KnownBytes.{Appends};
ghost use Rattle.failure.specs.Failures as words;
ghost use Rattle.report.specs.Lines as spec;
ghost use Rattle.std.specs.List.{list_all};
ghost use Rattle.report.specs.Lines.{IsStatus};

use crate::told::{Told, Why};
use cycle::{Accepted, End, Fault, Outcome, Step, Verdict};
use failure::Failure;
use inout::{put, quote_name};
use std::alloc::{AllocError, Global};
use std::io::Write;

/// Prints all lines of what is told and returns the exit status: 2 if the update stopped, else 1 if
/// some target isn't accepted, else 0. If the contract tracks the content of `out`, these lines and
/// nothing else were printed; it doesn't for a stream of the system. Fails with `Memory` or
/// `Output`.
pub fn tell<W: Write>(
    alloc: Global,
    told: &Told,
    wanted: &[String],
    out: &mut W,
) -> Result<u8, Failure>
    ensures written { OnOk result (Appends (W.contents out.old) (W.contents out.new)
        (spec.outcome_text told.now.outcome told.now.why (map string_bytes wanted.now))) }
    ensures status { IfOk result (λ status. status ≡ spec.outcome_status told.now.outcome) }
    ensures known { IfOk result IsStatus }
    ensures refused { IfErr result IsLate }
{
    let mut text = String::new(alloc);
    push_outcome(alloc, &mut text, told, wanted, &[])?;
    put(out, text.as_str())?;
    Ok(outcome_status(&told.outcome))
}

/// Prints all lines of what is told with copies, as [`tell`] does, and returns the exit status. For
/// each wanted path, `stored` has by position whether its copy was stored: an accepted path without
/// one has the line `no PATH NoPlace`, and isn't accepted for the status. Fails with `Memory` or
/// `Output`.
pub fn tell_stored<W: Write>(
    alloc: Global,
    told: &Told,
    wanted: &[String],
    stored: &[bool],
    out: &mut W,
) -> Result<u8, Failure>
    ensures written { OnOk result (Appends (W.contents out.old) (W.contents out.new)
        (spec.stored_outcome_text told.now.outcome told.now.why (map string_bytes wanted.now)
        stored.now)) }
    ensures status { IfOk result
        (λ status. status ≡ spec.stored_outcome_status told.now.outcome stored.now) }
    ensures known { IfOk result IsStatus }
    ensures refused { IfErr result IsLate }
{
    let outcome = &told.outcome;
    let mut text = String::new(alloc);
    push_outcome(alloc, &mut text, told, wanted, stored)?;
    put(out, text.as_str())?;
    let are_good = all_good(outcome.verdicts());
    Ok(status_of(outcome.end(), are_good && all_stored(stored)))
}

/// Returns the status of an outcome without copies.
pub(crate) fn outcome_status(outcome: &Outcome) -> u8
    ensures status { result ≡ spec.outcome_status outcome.now }
    ensures known { result ≤ 2 }
{
    status_of(outcome.end(), all_good(outcome.verdicts()))
}

/// Returns the status of an outcome with this end, whose targets are all accepted or not.
fn status_of(end: End, are_accepted: bool) -> u8
    ensures status { result ≡ spec.status_of end are_accepted }
    ensures known { result ≤ 2 }
{
    if end != End::Ready {
        2
    } else if are_accepted {
        0
    } else {
        1
    }
}

fn all_good(verdicts: &[Verdict]) -> bool
    ensures test { result ≡ list_all spec.is_good verdicts.now }
{
    verdicts.iter().all(accepts)
}

fn all_stored(stored: &[bool]) -> bool
    ensures test { result ≡ list_all (λ is_stored. is_stored) stored.now }
{
    stored.iter().all(|is_stored| *is_stored)
}

fn accepts(verdict: &Verdict) -> bool
    ensures { result ≡ spec.is_good verdict.now }
{
    matches!(verdict, Verdict::Good { .. })
}

/// Adds all lines of what is told: the root, the end and why, the accepted roles, and each wanted
/// path in order. `stored` has by position whether a path's copy was stored, if it needs one.
pub(crate) fn push_outcome(
    alloc: Global,
    text: &mut String,
    told: &Told,
    wanted: &[String],
    stored: &[bool],
) -> Result<(), AllocError>
    ensures lines { OnOk result (string_bytes text.new ≡ string_bytes text.old
        ++ spec.stored_outcome_text told.now.outcome told.now.why (map string_bytes wanted.now)
        stored.now) }
{
    push_head(alloc, text, told)?;
    push_paths(alloc, text, told, wanted, stored)
}

/// Adds the lines before those of the wanted paths.
fn push_head(alloc: Global, text: &mut String, told: &Told) -> Result<(), AllocError>
    ensures lines { OnOk result ((lines : List ℕ) → string_bytes text.new ++ lines
        ≡ string_bytes text.old
        ++ spec.outcome_with told.now.outcome told.now.why.stop lines) }
{
    let outcome = &told.outcome;
    text.push_str(root_line(alloc, outcome.trusted().root_version())?.as_str())?;
    push_end(text, outcome.end())?;
    text.push_str(told.why.stop.as_str())?;
    push_roles(alloc, text, outcome.accepted())
}

/// Returns the line `root N`. Fails only if out of memory.
pub fn root_line(alloc: Global, version: u64) -> Result<String, AllocError>
    ensures line { IfOk result (λ text. string_bytes text ≡ spec.root_text version) }
{
    format!(in alloc; "root {version}\n")
}

/// Adds the line `end ready` or `end STEP FAULT`. Fails only if out of memory.
pub fn push_end(text: &mut String, end: End) -> Result<(), AllocError>
    ensures line { OnOk result (
        string_bytes text.new ≡ string_bytes text.old ++ spec.end_text end) }
{
    match end {
        End::Ready => text.push_str("end ready\n"),
        End::Stopped(step, fault) => push_stop(text, step_name(step), fault_name(fault)),
    }
}

fn push_stop(text: &mut String, step: &str, fault: &str) -> Result<(), AllocError>
    ensures line { OnOk result (string_bytes text.new
        ≡ string_bytes text.old ++ words.line (codes "end" ∷ step.now ∷ fault.now ∷ [])) }
{
    writeln!(text, "end {step} {fault}")
}

fn push_roles(alloc: Global, text: &mut String, roles: &[Accepted]) -> Result<(), AllocError>
    ensures lines { OnOk result (string_bytes text.new
        ≡ string_bytes text.old ++ flat_map spec.role_text roles.now) }
{
    for accepted in roles {
        push_role(alloc, text, accepted)?;
    }
    Ok(())
}

fn push_role(alloc: Global, text: &mut String, accepted: &Accepted) -> Result<(), AllocError>
    ensures line { OnOk result (string_bytes text.new
        ≡ string_bytes text.old ++ spec.role_text accepted.now) }
{
    let role = quote_name(alloc, accepted.role.as_str())?;
    let version = accepted.version;
    writeln!(text, "role {role} {version}")
}

/// Adds the lines of all wanted paths.
fn push_paths(
    alloc: Global,
    text: &mut String,
    told: &Told,
    wanted: &[String],
    stored: &[bool],
) -> Result<(), AllocError>
    ensures lines { OnOk result (string_bytes text.new ≡ string_bytes text.old
        ++ spec.path_texts told.now.outcome.verdicts stored.now told.now.why.paths
        (map string_bytes wanted.now)) }
{
    for (place, path) in wanted.iter().enumerate() {
        let is_stored = is_stored_at(stored, place);
        let line = Line { place, is_stored };
        push_path(alloc, text, told, path.as_str(), line)?;
    }
    Ok(())
}

/// Returns whether the copy of the path at that position was stored; without a flag it needs none.
fn is_stored_at(stored: &[bool], place: usize) -> bool
    ensures test { result ≡ spec.is_stored_at stored.now place }
{
    match stored.get(place) {
        Some(is_stored) => *is_stored,
        None => true,
    }
}

/// The position of a wanted path, and whether its copy was stored, if it needs one.
#[derive(Clone, Copy)]
struct Line {
    place: usize,
    is_stored: bool,
}

/// Adds the line of a wanted path, if it has a verdict, and those that say why it is refused.
fn push_path(
    alloc: Global,
    text: &mut String,
    told: &Told,
    path: &str,
    line: Line,
) -> Result<(), AllocError>
    ensures lines { OnOk result (string_bytes text.new ≡ string_bytes text.old
        ++ spec.path_line told.now.outcome.verdicts told.now.why.paths line.place line.is_stored
        path.now) }
{
    let Some(verdict) = told.outcome.verdicts().get(line.place) else {
        return Ok(());
    };
    push_placed(alloc, text, path, verdict, line.is_stored)?;
    push_why(text, &told.why, line.place)
}

/// Adds the lines that say why the wanted path at that position is refused.
fn push_why(text: &mut String, why: &Why, place: usize) -> Result<(), AllocError>
    ensures lines { OnOk result (string_bytes text.new
        ≡ string_bytes text.old ++ spec.why_at why.now.paths place) }
{
    let Some(texts) = &why.paths else {
        return Ok(());
    };
    let Some(lines) = texts.get(place) else {
        return Ok(());
    };
    text.push_str(lines.as_str())
}

/// Adds the line of a verdict, or `no PATH NoPlace` of an accepted path without a stored copy.
fn push_placed(
    alloc: Global,
    text: &mut String,
    path: &str,
    verdict: &Verdict,
    is_stored: bool,
) -> Result<(), AllocError>
    ensures line { OnOk result (string_bytes text.new
        ≡ string_bytes text.old ++ spec.stored_text path.now verdict.now is_stored) }
{
    match verdict {
        Verdict::Good { .. } if !is_stored => push_no(alloc, text, path, "NoPlace"),
        _ => push_verdict(alloc, text, path, verdict),
    }
}

/// Adds the line `ok NAME LENGTH ROLE` or `no NAME WHY`. Fails only if out of memory.
pub fn push_verdict(
    alloc: Global,
    text: &mut String,
    path: &str,
    verdict: &Verdict,
) -> Result<(), AllocError>
    ensures line { OnOk result (string_bytes text.new
        ≡ string_bytes text.old ++ spec.verdict_text path.now verdict.now) }
{
    match verdict {
        Verdict::Good { role, length } => push_good(alloc, text, path, *length, role.as_str()),
        Verdict::NotFound => push_no(alloc, text, path, "NotFound"),
        Verdict::LimitReached => push_no(alloc, text, path, "LimitReached"),
        Verdict::RoleRefused { role, fault } => {
            push_refused(alloc, text, path, *fault, role.as_str())
        }
        Verdict::FileRefused(fault) => push_no(alloc, text, path, fault_name(*fault)),
        Verdict::NotSearched => push_no(alloc, text, path, "NotSearched"),
    }
}

/// Adds the line `ok PATH LENGTH ROLE`.
fn push_good(
    alloc: Global,
    text: &mut String,
    path: &str,
    length: u64,
    role: &str,
) -> Result<(), AllocError>
    ensures line { OnOk result (string_bytes text.new ≡ string_bytes text.old
        ++ words.line (codes "ok" ∷ spec.quoted_text path.now ∷ decimal length
        ∷ spec.quoted_text role.now ∷ [])) }
{
    let path = quote_name(alloc, path)?;
    let role = quote_name(alloc, role)?;
    writeln!(text, "ok {path} {length} {role}")
}

/// Adds the line `no PATH WHY`.
fn push_no(alloc: Global, text: &mut String, path: &str, why: &str) -> Result<(), AllocError>
    ensures line { OnOk result (string_bytes text.new ≡ string_bytes text.old
        ++ words.line (codes "no" ∷ spec.quoted_text path.now ∷ why.now ∷ [])) }
{
    let path = quote_name(alloc, path)?;
    writeln!(text, "no {path} {why}")
}

/// Adds the line `no PATH FAULT ROLE`.
fn push_refused(
    alloc: Global,
    text: &mut String,
    path: &str,
    fault: Fault,
    role: &str,
) -> Result<(), AllocError>
    ensures line { OnOk result (string_bytes text.new ≡ string_bytes text.old
        ++ words.line (codes "no" ∷ spec.quoted_text path.now ∷ spec.fault_word fault
        ∷ spec.quoted_text role.now ∷ [])) }
{
    let path = quote_name(alloc, path)?;
    let role = quote_name(alloc, role)?;
    let fault = fault_name(fault);
    writeln!(text, "no {path} {fault} {role}")
}

pub(crate) fn step_name(step: Step) -> &'static str
    ensures word { result.now ≡ spec.step_word step }
{
    match step {
        Step::Root => "root",
        Step::Timestamp => "timestamp",
        Step::Snapshot => "snapshot",
        Step::Targets => "targets",
    }
}

fn fault_name(fault: Fault) -> &'static str
    ensures word { result.now ≡ spec.fault_word fault }
{
    match fault {
        Fault::NotListed => "NotListed",
        Fault::Missing => "Missing",
        Fault::TooLong => "TooLong",
        Fault::LengthWrong => "LengthWrong",
        Fault::HashWrong => "HashWrong",
        Fault::NoKnownHash => "NoKnownHash",
        Fault::Malformed => "Malformed",
        Fault::Unsigned => "Unsigned",
        Fault::VersionWrong => "VersionWrong",
        Fault::Rollback => "Rollback",
        Fault::Expired => "Expired",
    }
}
