//! The files that a caller has to fetch next.

ghost use Rattle.std.specs.Prelude.{◌≡◌, ◌≤◌, ◌++◌, IfErr, IfOk, OnOk, length};
ghost use Rattle.std.specs.List.{list_all};
ghost use Rattle.embed.specs.Jobs.{HasCause};
ghost use Rattle.embed.specs.Outcomes as spec;
ghost use Rattle.embed.specs.Rows as row;
ghost use Rattle.needs.specs.declared.need.Need.{Need};

use crate::fault::JobFault;
use crate::held::add_targets;
use crate::input::{follow, read};
use crate::job::Job;
use crate::rows::{NeedRow, Summary, summary_of};
use crate::verifying::status_of;
use cycle::{Course, End};
use needs::{Need, Place, needs};
use std::alloc::Global;
use std::collections::BTreeMap;

/// The files to fetch next.
pub struct Missing {
    /// 1 if some file isn't optional, else 2 if the cycle stopped, else 0.
    pub status: u8,
    /// How the cycle ended, and how much is returned. It counts no state and no roles.
    pub summary: Summary,
    /// A row for each file, in the order in which the workflow looks them up.
    pub rows: Vec<NeedRow>,
    /// The names that the rows cite.
    pub names: Vec<u8>,
}

impl Drop for Missing {
    fn drop(self) {
        let Missing {
            status,
            summary,
            rows,
            names,
        } = self;
    }
}

/// Does the job as [`verify`](crate::verify) does, and returns the files that it looked up and
/// found absent, each with the maximum number of its bytes: what a caller has to fetch next. If the
/// caller adds those files that it finds and calls this again until nothing was found, the job has
/// each file that the workflow looks up. Fails with the first fault of the job, or with `Memory`.
pub fn next(alloc: Global, job: &Job) -> Result<Missing, JobFault>
    ensures next { IfOk result (λ m. spec.IsNext job.now m.status m.summary m.rows.items
        m.names.items) }
    ensures counts { IfOk result (λ m. spec.AreNeeds m.summary m.rows.items m.names.items) }
    ensures status_range { IfOk result (λ m. m.status ≤ 2) }
    ensures errors { IfErr result (HasCause job.now) }
{
    let input = read(alloc, job)?;
    let course = follow(alloc, &input)?;
    let mut targets = BTreeMap::new(alloc);
    add_targets(alloc, job, &mut targets)?;
    let found = needs(
        alloc,
        &input.trusted,
        &course,
        &input.repo.metadata,
        &targets,
    )?;
    missing_of(alloc, &course, found.as_slice())
}

/// Returns the rows of the files. Fails only with `Memory`.
fn missing_of(alloc: Global, course: &Course, all: &[Need]) -> Result<Missing, JobFault>
    ensures rows { IfOk result (λ m. spec.EncodesNeeds course.now all.now m.status m.summary
        m.rows.items m.names.items) }
    ensures counts { IfOk result (λ m. spec.AreNeeds m.summary m.rows.items m.names.items) }
    ensures status_range { IfOk result (λ m. m.status ≤ 2) }
    ensures errors { IfErr result (λ f. f ≡ JobFault.Memory) }
{
    let mut names = Vec::new(alloc);
    let rows = need_rows(alloc, all, &mut names)?;
    let mut summary = summary_of(course.trusted(), course.end(), &[]);
    summary.verdict_count = rows.len();
    summary.name_len = names.len();
    let status = needs_status(course.end(), all);
    Ok(Missing {
        status,
        summary,
        rows,
        names,
    })
}

/// Returns a row for each file, and adds their names to the names.
fn need_rows(alloc: Global, all: &[Need], names: &mut Vec<u8>) -> Result<Vec<NeedRow>, JobFault>
    ensures rows { IfOk result (λ rows. rows.items
        ≡ row.need_rows (length names.old.items) all.now) }
    ensures names { OnOk result (names.new.items ≡ names.old.items ++ row.need_names all.now) }
    ensures errors { IfErr result (λ f. f ≡ JobFault.Memory) }
{
    let mut rows = Vec::with_capacity(alloc, all.len())?;
    for need in all {
        let row = need_row(names.len(), need);
        names.extend_from_slice(need.name.as_str().as_bytes())?;
        rows.push(row)?;
    }
    Ok(rows)
}

/// Returns the row of a file whose name begins at `at` in the names.
fn need_row(at: usize, need: &Need) -> NeedRow
    ensures { result ≡ row.need_row at need.now }
{
    NeedRow {
        place: match need.place {
            Place::Metadata => 49,
            Place::Targets => 50,
        },
        optional: need.optional,
        most: need.most,
        name_at: at,
        name_len: need.name.as_str().len(),
        reserved: [0; 2],
    }
}

/// Returns 1 if some file isn't optional, else 2 if the cycle stopped, else 0.
fn needs_status(end: End, all: &[Need]) -> u8
    ensures status { result ≡ spec.needs_status end all.now }
    ensures range { result ≤ 2 }
{
    if are_optional(all) {
        status_of(end, true)
    } else {
        1
    }
}

fn are_optional(all: &[Need]) -> bool
    ensures { result ≡ list_all (λ n. n.optional) all.now }
{
    for need in all {
        if !need.optional {
            return false;
        }
    }
    true
}
