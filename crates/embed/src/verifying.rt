//! The verification of a job.

ghost use Rattle.std.specs.Prelude.{◌≡◌, ◌≤◌, ◌++◌, IfErr, IfOk, None, OnOk, get_or, length};
ghost use Rattle.std.specs.Prelude.{option_map};
ghost use Rattle.std.specs.List.{list_all};
ghost use Rattle.cycle.specs.Workflow.{closed_by};
ghost use Rattle.embed.specs.Inputs.{given_by, givens_by, held_in};
ghost use Rattle.embed.specs.Jobs as job;
ghost use Rattle.embed.specs.Jobs.{HasCause};
ghost use Rattle.embed.specs.Outcomes as spec;
ghost use Rattle.embed.specs.Rows as row;

use crate::fault::JobFault;
use crate::held::{Held, add_targets};
use crate::input::{follow, read};
use crate::job::Job;
use crate::listing::target_in;
use crate::rows::{RoleRow, Summary, VerdictRow, fault_number, summary_of};
use crate::store::{HeldFiles, held_of};
use cjson::NoMemory;
use cycle::{Accepted, Course, End, Outcome, Search, Verdict};
use std::alloc::{AllocError, Global};
use std::collections::BTreeMap;

/// The outcome of a verification.
pub struct Verification {
    /// 2 if the cycle stopped, else 0 if all wanted targets are accepted, else 1.
    pub status: u8,
    /// How the cycle ended, and how much is returned.
    pub summary: Summary,
    /// The text of the new trusted state.
    pub state: Vec<u8>,
    /// A row for each wanted path, by position.
    pub verdicts: Vec<VerdictRow>,
    /// A row for each accepted role, in byte order of their names.
    pub roles: Vec<RoleRow>,
    /// The names that the rows cite.
    pub names: Vec<u8>,
}

impl Drop for Verification {
    fn drop(self) {
        let Verification {
            status,
            summary,
            state,
            verdicts,
            roles,
            names,
        } = self;
    }
}

/// Verifies the job: runs one cycle of the client workflow on its files (TUF 1.0 section 5). Checks
/// a target's file by its bytes, or by its length and digests, as the job has them, and so returns
/// the outcome for all target files that have these, if each listed digest is given. Each verdict
/// names the file that it is by. Fails with the first fault of the job, or with `Memory`.
pub fn verify(alloc: Global, job: &Job) -> Result<Verification, JobFault>
    ensures verified { IfOk result (λ v. spec.IsVerified job.now v.status v.summary v.state.items
        v.verdicts.items v.roles.items v.names.items) }
    ensures counts { IfOk result (λ v. spec.AreCounted v.summary v.state.items v.verdicts.items
        v.roles.items v.names.items) }
    ensures status_range { IfOk result (λ v. v.status ≤ 2) }
    ensures errors { IfErr result (HasCause job.now) }
{
    let judged = judged_of(alloc, job)?;
    verification_of(alloc, &judged)
}

/// An outcome, and what is held of the file of each wanted target that is listed.
#[derive(Drop)]
struct Judged<'a> {
    /// The outcome.
    outcome: Outcome,
    /// What is held of the file of each wanted path, by position.
    files: Vec<Option<Held<'a>>>,
}

/// Runs one cycle of the client workflow on the files of the job.
fn judged_of<'a>(alloc: Global, job: &Job<'a>) -> Result<Judged<'a>, JobFault>
    ensures outcome { IfOk result
        (λ j. spec.IsOutcome job.now j.outcome (givens_by j.files.items)) }
    ensures errors { IfErr result (HasCause job.now) }
{
    let input = read(alloc, job)?;
    let course = follow(alloc, &input)?;
    let mut targets = BTreeMap::new(alloc);
    add_targets(alloc, job, &mut targets)?;
    Ok(close(alloc, course, &targets)?)
}

/// Ends the course by the target files. Fails only if out of memory.
fn close<'a>(
    alloc: Global,
    course: Course,
    held: &BTreeMap<String, Held<'a>>,
) -> Result<Judged<'a>, NoMemory>
    ensures outcome { IfOk result
        (λ j. j.outcome ≡ closed_by (job.given_checked (held_in held.now)) course) }
    ensures files { IfOk result
        (λ j. givens_by j.files.items ≡ job.givens_for (held_in held.now) course) }
{
    let files = files_of(alloc, &course, held)?;
    let store = HeldFiles { alloc, files: held };
    let outcome = course.close(alloc, &store)?;
    Ok(Judged { outcome, files })
}

/// Returns what is held of the file of each target that a search found.
fn files_of<'a>(
    alloc: Global,
    course: &Course,
    held: &BTreeMap<String, Held<'a>>,
) -> Result<Vec<Option<Held<'a>>>, AllocError>
    ensures { IfOk result
        (λ all. givens_by all.items ≡ job.givens_for (held_in held.now) course.now) }
{
    let consistent = course.has_consistent_names();
    let searches = course.searches();
    let mut all = Vec::new(alloc);
    for search in searches {
        all.push(file_of(alloc, held, consistent, search)?)?;
    }
    Ok(all)
}

/// Returns what is held of the file of the target that the search found.
fn file_of<'a>(
    alloc: Global,
    held: &BTreeMap<String, Held<'a>>,
    consistent: bool,
    search: &Option<Search>,
) -> Result<Option<Held<'a>>, AllocError>
    ensures { IfOk result
        (λ o. option_map given_by o ≡ job.given_to (held_in held.now) consistent search.now) }
{
    match target_in(search) {
        Some(target) => held_of(alloc, held, consistent, target),
        None => Ok(None),
    }
}

/// Returns the rows of the outcome. Fails only with `Memory`.
fn verification_of(alloc: Global, judged: &Judged) -> Result<Verification, JobFault>
    ensures rows { IfOk result (λ v. spec.Encodes judged.now.outcome
        (givens_by judged.now.files.items) v.status v.summary v.state.items v.verdicts.items
        v.roles.items v.names.items) }
    ensures counts { IfOk result (λ v. spec.AreCounted v.summary v.state.items v.verdicts.items
        v.roles.items v.names.items) }
    ensures status_range { IfOk result (λ v. v.status ≤ 2) }
    ensures errors { IfErr result (λ f. f ≡ JobFault.Memory) }
{
    let outcome = &judged.outcome;
    let state = outcome.trusted().to_text(alloc)?;
    let mut names = Vec::new(alloc);
    let files = judged.files.as_slice();
    let verdicts = verdict_rows(alloc, outcome.verdicts(), files, &mut names)?;
    let roles = role_rows(alloc, outcome.accepted(), &mut names)?;
    let mut summary = summary_of(outcome.trusted(), outcome.end(), state.as_slice());
    summary.verdict_count = verdicts.len();
    summary.role_count = roles.len();
    summary.name_len = names.len();
    let status = status_of(outcome.end(), are_good(outcome.verdicts()));
    Ok(Verification {
        status,
        summary,
        state,
        verdicts,
        roles,
        names,
    })
}

/// Returns a row for each verdict, with its file, and adds the names of the roles to the names.
fn verdict_rows(
    alloc: Global,
    verdicts: &[Verdict],
    files: &[Option<Held>],
    names: &mut Vec<u8>,
) -> Result<Vec<VerdictRow>, JobFault>
    ensures rows { IfOk result (λ rows. rows.items
        ≡ row.verdict_rows (length names.old.items) verdicts.now (givens_by files.now)) }
    ensures names { OnOk result (names.new.items
        ≡ names.old.items ++ row.verdict_names verdicts.now) }
    ensures errors { IfErr result (λ f. f ≡ JobFault.Memory) }
{
    let mut rows = Vec::with_capacity(alloc, verdicts.len())?;
    for (at, verdict) in verdicts.iter().enumerate() {
        let row = verdict_row(names.len(), verdict, file_at(files, at));
        names.extend_from_slice(role_of(verdict).as_bytes())?;
        rows.push(row)?;
    }
    Ok(rows)
}

/// Returns what is held of the file at that place of the list, if there is one.
fn file_at<'a>(files: &[Option<Held<'a>>], at: usize) -> Option<Held<'a>>
    ensures { option_map given_by result ≡ get_or (givens_by files.now) at None }
{
    if at < files.len() { files[at] } else { None }
}

/// Returns the row of a verdict whose role's name begins at `at` in the names, with its file.
fn verdict_row(at: usize, verdict: &Verdict, file: Option<Held>) -> VerdictRow
    ensures { result ≡ row.verdict_row at verdict.now (option_map given_by file.entry) }
{
    let (source, file_at) = source_of(file);
    let (kind, fault, length) = match verdict {
        Verdict::Good { length, .. } => (17, 0, *length),
        Verdict::NotFound => (18, 0, 0),
        Verdict::LimitReached => (19, 0, 0),
        Verdict::RoleRefused { fault, .. } => (20, fault_number(*fault), 0),
        Verdict::FileRefused(fault) => (21, fault_number(*fault), 0),
        Verdict::NotSearched => (22, 0, 0),
    };
    VerdictRow {
        kind,
        fault,
        length,
        role_at: at,
        role_len: role_of(verdict).len(),
        file_at,
        source,
        reserved: [0; 5],
    }
}

/// Returns the number of the file's list, and the file's index there.
fn source_of(file: Option<Held>) -> (u32, usize)
    ensures source { result.0 ≡ row.source_number (option_map given_by file.entry) }
    ensures index { result.1 ≡ row.file_index (option_map given_by file.entry) }
{
    match file {
        Some(Held::Bytes(at, _)) => (81, at),
        Some(Held::Digests(at, _)) => (82, at),
        None => (0, 0),
    }
}

/// Returns the role of a verdict, or no name.
fn role_of(verdict: &Verdict) -> &str
    ensures { result.now ≡ row.verdict_role verdict.now }
{
    match verdict {
        Verdict::Good { role, .. } | Verdict::RoleRefused { role, .. } => role.as_str(),
        _ => "",
    }
}

/// Returns a row for each role, and adds their names to the names.
fn role_rows(
    alloc: Global,
    roles: &[Accepted],
    names: &mut Vec<u8>,
) -> Result<Vec<RoleRow>, JobFault>
    ensures rows { IfOk result (λ rows. rows.items
        ≡ row.role_rows (length names.old.items) roles.now) }
    ensures names { OnOk result (names.new.items
        ≡ names.old.items ++ row.role_names roles.now) }
    ensures errors { IfErr result (λ f. f ≡ JobFault.Memory) }
{
    let mut rows = Vec::with_capacity(alloc, roles.len())?;
    for accepted in roles {
        let name = accepted.role.as_str();
        let row = RoleRow {
            version: accepted.version,
            name_at: names.len(),
            name_len: name.len(),
            reserved: [0; 2],
        };
        names.extend_from_slice(name.as_bytes())?;
        rows.push(row)?;
    }
    Ok(rows)
}

/// Returns the status of a cycle: 2 if it stopped, else 0 if all are accepted, else 1.
pub(crate) fn status_of(end: End, all: bool) -> u8
    ensures status { result ≡ spec.status_of end all }
    ensures range { result ≤ 2 }
{
    if end != End::Ready {
        2
    } else if all {
        0
    } else {
        1
    }
}

fn are_good(verdicts: &[Verdict]) -> bool
    ensures { result ≡ list_all spec.is_good verdicts.now }
{
    for verdict in verdicts {
        if !is_good(verdict) {
            return false;
        }
    }
    true
}

fn is_good(verdict: &Verdict) -> bool
    ensures { result ≡ spec.is_good verdict.now }
{
    matches!(verdict, Verdict::Good { .. })
}
