//! What roles list of the wanted paths, for a caller that has no target file yet.

ghost use Rattle.std.specs.Prelude.{◌≡◌, ◌≤◌, ◌++◌, IfErr, IfOk, OnOk, length, option_map};
ghost use Rattle.std.specs.Prelude.{string_bytes};
ghost use Rattle.std.specs.List.{list_all};
ghost use Rattle.meta.specs.Content.{target_names};
ghost use Rattle.cycle.specs.Workflow.{target_of};
ghost use Rattle.embed.specs.Jobs.{HasCause};
ghost use Rattle.embed.specs.Outcomes as spec;
ghost use Rattle.embed.specs.Rows as row;

use crate::fault::JobFault;
use crate::input::{follow, read};
use crate::job::Job;
use crate::rows::{ListedRow, Summary, fault_number, summary_of};
use crate::verifying::status_of;
use cycle::{Course, Found, Search, Target};
use meta::names::digest_name;
use std::alloc::{AllocError, Global};

/// What roles list of the wanted paths.
pub struct Listing {
    /// 2 if the cycle stopped, else 0 if all wanted paths are listed, else 1.
    pub status: u8,
    /// How the cycle ended, and how much is returned. It counts no roles.
    pub summary: Summary,
    /// The text of the new trusted state.
    pub state: Vec<u8>,
    /// A row for each wanted path, by position.
    pub rows: Vec<ListedRow>,
    /// The names that the rows cite.
    pub names: Vec<u8>,
}

impl Drop for Listing {
    fn drop(self) {
        let Listing {
            status,
            summary,
            state,
            rows,
            names,
        } = self;
    }
}

/// Does the job as [`verify`](crate::verify) does, but reads none of its target files: returns what
/// roles list of the wanted paths. Fails with the first fault of the job, or with `Memory`. The
/// names of target files aren't checked.
pub fn list(alloc: Global, job: &Job) -> Result<Listing, JobFault>
    ensures listed { IfOk result (λ l. spec.IsListing job.now l.status l.summary l.state.items
        l.rows.items l.names.items) }
    ensures counts { IfOk result (λ l. spec.AreListed l.summary l.state.items l.rows.items
        l.names.items) }
    ensures status_range { IfOk result (λ l. l.status ≤ 2) }
    ensures errors { IfErr result (HasCause job.now) }
{
    let input = read(alloc, job)?;
    let course = follow(alloc, &input)?;
    listing_of(alloc, &course)
}

/// Returns the rows of the course. Fails only with `Memory`.
fn listing_of(alloc: Global, course: &Course) -> Result<Listing, JobFault>
    ensures rows { IfOk result (λ l. spec.EncodesCourse course.now l.status l.summary
        l.state.items l.rows.items l.names.items) }
    ensures counts { IfOk result (λ l. spec.AreListed l.summary l.state.items l.rows.items
        l.names.items) }
    ensures status_range { IfOk result (λ l. l.status ≤ 2) }
    ensures errors { IfErr result (λ f. f ≡ JobFault.Memory) }
{
    let state = course.trusted().to_text(alloc)?;
    let mut names = Vec::new(alloc);
    let consistent = course.has_consistent_names();
    let rows = listed_rows(alloc, consistent, course.searches(), &mut names)?;
    let mut summary = summary_of(course.trusted(), course.end(), state.as_slice());
    summary.verdict_count = rows.len();
    summary.name_len = names.len();
    let status = status_of(course.end(), are_listed(course.searches()));
    Ok(Listing {
        status,
        summary,
        state,
        rows,
        names,
    })
}

/// Returns a row for each search, and adds the names of the roles and of the files to fetch to the
/// names.
fn listed_rows(
    alloc: Global,
    consistent: bool,
    all: &[Option<Search>],
    names: &mut Vec<u8>,
) -> Result<Vec<ListedRow>, JobFault>
    ensures rows { IfOk result (λ rows. rows.items
        ≡ row.listed_rows consistent (length names.old.items) all.now) }
    ensures names { OnOk result (names.new.items
        ≡ names.old.items ++ row.listed_names consistent all.now) }
    ensures errors { IfErr result (λ f. f ≡ JobFault.Memory) }
{
    let mut rows = Vec::with_capacity(alloc, all.len())?;
    for search in all {
        let name = name_in(alloc, consistent, search)?;
        let at = names.len();
        names.extend_from_slice(role_in(search).as_bytes())?;
        let name_at = names.len();
        names.extend_from_slice(name.as_bytes())?;
        rows.push(listed_row(at, name_at, name.len(), search))?;
    }
    Ok(rows)
}

/// Returns the row of a search whose role's name begins at `at` in the names, and whose file has
/// the name at `name_at`.
fn listed_row(at: usize, name_at: usize, name_len: usize, search: &Option<Search>) -> ListedRow
    ensures { result ≡ row.listed_row at name_at name_len search.now }
{
    let (kind, fault) = kind_of(search);
    let (length, sha256, sha512) = match target_in(search) {
        Some(target) => (
            target.length.get(),
            target.hashes.sha256,
            target.hashes.sha512,
        ),
        None => (0, None, None),
    };
    ListedRow {
        kind,
        fault,
        length,
        role_at: at,
        role_len: role_in(search).len(),
        name_at,
        name_len,
        has_sha256: sha256.is_some(),
        has_sha512: sha512.is_some(),
        sha256: sha256.unwrap_or([0; 32]),
        sha512: sha512.unwrap_or([0; 64]),
        reserved: [0; 30],
    }
}

fn kind_of(search: &Option<Search>) -> (u32, u32)
    ensures kind { result.0 ≡ row.search_kind search.now }
    ensures fault { result.1 ≡ row.search_fault search.now }
{
    let Some(search) = search else {
        return (22, 0);
    };
    match &search.found {
        Found::Listed { .. } => (23, 0),
        Found::NotFound => (18, 0),
        Found::LimitReached => (19, 0),
        Found::RoleRefused { fault, .. } => (20, fault_number(*fault)),
    }
}

/// Returns the name to fetch of the target that the search found, or no name.
fn name_in(alloc: Global, consistent: bool, search: &Option<Search>) -> Result<String, AllocError>
    ensures { IfOk result (λ name. string_bytes name ≡ row.listed_name consistent search.now) }
{
    match target_in(search) {
        Some(target) => first_name(alloc, consistent, target),
        None => Ok(String::new(alloc)),
    }
}

/// Returns the first of the target's names, or no name.
fn first_name(alloc: Global, consistent: bool, target: &Target) -> Result<String, AllocError>
    ensures { IfOk result (λ name. string_bytes name ≡ row.first_name (target_names consistent
        target.now.path target.now.hashes.sha256 target.now.hashes.sha512)) }
{
    let path = target.path.as_str();
    if !consistent {
        return String::from_str(alloc, path);
    }
    if let Some(digest) = &target.hashes.sha256 {
        return digest_name(alloc, digest, path);
    }
    match &target.hashes.sha512 {
        Some(digest) => digest_name(alloc, digest, path),
        None => Ok(String::new(alloc)),
    }
}

/// Returns the target that the search found.
pub(crate) fn target_in(search: &Option<Search>) -> Option<&Target>
    ensures { option_map (λ t. t.now) result ≡ target_of search.now }
{
    match &search.as_ref()?.found {
        Found::Listed { target, .. } => Some(target),
        _ => None,
    }
}

/// Returns the role that lists the target, or whose file is refused; else no name.
fn role_in(search: &Option<Search>) -> &str
    ensures { result.now ≡ row.search_role search.now }
{
    let Some(search) = search else {
        return "";
    };
    match &search.found {
        Found::Listed { role, .. } | Found::RoleRefused { role, .. } => role.as_str(),
        _ => "",
    }
}

fn are_listed(all: &[Option<Search>]) -> bool
    ensures { result ≡ list_all spec.is_listed all.now }
{
    for search in all {
        if target_in(search).is_none() {
            return false;
        }
    }
    true
}
