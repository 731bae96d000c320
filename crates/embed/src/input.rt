//! What is read of a job, and the workflow up to the searches.

ghost use Rattle.std.specs.Prelude.{◌≡◌, ◌≢◌, ◌≤◌, ◌<◌, ◌/◌, IfErr, IfOk};
ghost use Rattle.embed.specs.Inputs.{IsInput};
ghost use Rattle.embed.specs.Jobs as spec;
ghost use Rattle.embed.specs.Outcomes.{IsFirst};
ghost use Rattle.embed.specs.declared.job.Job.{Job};

use crate::fault::JobFault;
use crate::job::{Job, files_of, paths_of};
use cjson::NoMemory;
use cycle::{Course, Cycle, Limits, Moment, Repo, Round, Trusted, follow_alone};
use std::alloc::Global;
use std::collections::BTreeMap;

/// Maximum number of checks of a plan. No plan is made.
const CHECKS: usize = 0;

/// What is read of a job before any file is checked.
pub struct Input {
    /// The trusted state.
    pub trusted: Trusted,
    /// The metadata files. It has no target files.
    pub repo: Repo,
    /// The moment.
    pub moment: Moment,
    /// The wanted paths.
    pub wanted: Vec<String>,
    /// The limits.
    pub limits: Limits,
}

impl Drop for Input {
    fn drop(self) {
        let Input {
            trusted,
            repo,
            moment,
            wanted,
            limits,
        } = self;
    }
}

/// Returns the text of the state of a root file that the caller trusts. Fails with `State` if it
/// isn't a root file of at most 512,000 bytes, or with `Memory`.
pub fn first_state(alloc: Global, root: &[u8]) -> Result<Vec<u8>, JobFault>
    ensures state { IfOk result (λ text. IsFirst root.now text.items) }
    ensures errors { IfErr result (spec.IsNoRoot root.now) }
{
    let trusted = Trusted::from_root(alloc, root)?;
    Ok(trusted.to_text(alloc)?)
}

/// Reads the job, its target files excepted. Fails with the first fault of the job in the order
/// state, moment, limit, wanted paths and names of metadata files, or with `Memory`.
pub(crate) fn read(alloc: Global, job: &Job) -> Result<Input, JobFault>
    ensures input { IfOk result (IsInput job.now) }
    ensures errors { IfErr result (spec.HasCause job.now) }
{
    let trusted = Trusted::from_text(alloc, job.state)?;
    let moment = moment_of(job.moment)?;
    let limits = limits_of(job.limit)?;
    let wanted = paths_of(alloc, job.wanted)?;
    let repo = Repo {
        metadata: files_of(alloc, job.metadata)?,
        targets: BTreeMap::new(alloc),
    };
    Ok(Input {
        trusted,
        repo,
        moment,
        wanted,
        limits,
    })
}

/// Runs the workflow up to the searches. Fails only if out of memory.
pub(crate) fn follow(alloc: Global, input: &Input) -> Result<Course, NoMemory>
    ensures { (job : Job) → IsInput job input.now
        → IfOk result (λ c. c ≡ spec.course_for job input.now.trusted) }
{
    let round = Round {
        repo: &input.repo,
        now: input.moment,
        wanted: input.wanted.as_slice(),
    };
    follow_alone(&Cycle {
        alloc,
        trusted: &input.trusted,
        round,
        limits: input.limits,
    })
}

/// Returns the moment that many seconds after 1970-01-01T00:00:00Z. Fails with `Moment` past the
/// year 9999.
fn moment_of(seconds: u64) -> Result<Moment, JobFault>
    ensures value { IfOk result (λ m. m ≡ spec.moment_at seconds) }
    ensures errors { IfErr result
        (λ f. (f ≡ JobFault.Moment) × (2_932_896 < seconds / 86_400)) }
{
    Moment::at(seconds).ok_or(JobFault::Moment)
}

/// Returns the limits of searches that visit at most that many roles. Fails with `Limit` if that
/// isn't 1 to 256.
fn limits_of(roles: usize) -> Result<Limits, JobFault>
    ensures value { IfOk result (λ l. l.roles ≡ roles) }
    ensures errors { IfErr result
        (λ f. (f ≡ JobFault.Limit) × (1 ≤ roles → roles ≤ 256 → ⊥)) }
{
    Limits::new(roles, CHECKS).ok_or(JobFault::Limit)
}
