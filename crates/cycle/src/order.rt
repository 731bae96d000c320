//! The workflow, done sequentially by any judge.

ghost use Rattle.std.specs.Prelude.{◌≡◌, All, IfOk, IfSome, map, string_bytes, true};
ghost use Rattle.examine.specs.Checks.{file_in};
ghost use Rattle.rolechain.specs.Advance.{is_ready};
ghost use Rattle.cycle.specs.Inputs.{repository_of, request_of};
ghost use Rattle.cycle.specs.Workflow as spec;

use crate::course::Course;
use crate::limits::Limits;
use crate::outcome::Outcome;
use crate::roles::gather_roles;
use crate::round::{Cycle, Round};
use crate::store::{InMemory, Store};
use crate::target::verdicts_of;
use cjson::NoMemory;
use deleg::{Search, Searcher};
use keys::Judge;
use rolechain::{End, Trusted, advance};
use std::alloc::Global;

/// Sequential work by any judge, with one result.
pub(crate) trait Ordered {
    type Gives: Drop;

    /// The result, which doesn't depend on the judge.
    ghost gives: { Self → Self.Gives };

    /// Does the work sequentially. Fails only if out of memory.
    fn in_order<J: Judge>(&self, judge: &mut J) -> Result<Self::Gives, NoMemory>
        ensures { IfOk result (λ o. o ≡ gives self.now) };
}

/// Its own work is the workflow up to the searches, which looks at no target file.
impl Ordered for Cycle<'_> {
    type Gives = Course;

    ghost gives = { λ c. spec.course (request_of c) (file_in c.round.repo.now.metadata) };

    /// Examines each file when its turn comes, and searches for each wanted path on its own, in
    /// order.
    fn in_order<J: Judge>(&self, judge: &mut J) -> Result<Course, NoMemory> {
        let Round { repo, now, .. } = self.round;
        let (trusted, end) = advance(self.alloc, self.trusted, repo, now, judge)?;
        let searches = searches(self, &trusted, end, judge)?;
        Ok(Course::new(trusted, end, searches))
    }
}

/// The whole workflow, on the target files of the repository.
#[derive(Clone, Copy)]
pub(crate) struct Whole<'a> {
    /// The input.
    pub cycle: &'a Cycle<'a>,
}

impl Ordered for Whole<'_> {
    type Gives = Outcome;

    ghost gives = { λ w. spec.workflow (request_of w.cycle.now) (repository_of w.cycle.now) };

    fn in_order<J: Judge>(&self, judge: &mut J) -> Result<Outcome, NoMemory> {
        let cycle = self.cycle;
        let course = cycle.in_order(judge)?;
        close_in_memory(cycle, course, judge)
    }
}

/// Ends the course, by the target files of the repository.
fn close_in_memory<J: Judge>(
    cycle: &Cycle,
    course: Course,
    judge: &mut J,
) -> Result<Outcome, NoMemory>
    ensures { IfOk result (λ o.
        o ≡ spec.closed_course (file_in cycle.now.round.repo.now.targets) course) }
{
    let store = InMemory {
        alloc: cycle.alloc,
        files: &cycle.round.repo.targets,
    };
    close(cycle.alloc, course, &store, judge)
}

/// Ends the course, by the checks of a store.
pub(crate) fn close<S: Store, J: Judge>(
    alloc: Global,
    course: Course,
    store: &S,
    judge: &mut J,
) -> Result<Outcome, NoMemory>
    requires known { All (λ s. IfSome (spec.target_of s)
        (S.knows store.now course.trusted.root.reading.consistent)) course.searches }
    ensures outcome { IfOk result (λ o. (checks : spec.Checks) → S.may_give store.now checks
        → o ≡ spec.closed_by checks course) }
    ensures state { IfOk result (λ o. o.trusted ≡ course.trusted) }
{
    let consistent = course.has_consistent_names();
    let verdicts = verdicts_of(alloc, store, consistent, course.searches(), judge)?;
    let accepted = gather_roles(alloc, course.searches())?;
    let (trusted, end) = course.into_state();
    Ok(Outcome::new(trusted, end, verdicts, accepted))
}

/// Searches for each wanted path, in order. All searches share the searcher's cache.
fn searches<J: Judge>(
    cycle: &Cycle,
    trusted: &Trusted,
    end: End,
    judge: &mut J,
) -> Result<Vec<Option<Search>>, NoMemory>
    requires { end ≡ End.Ready → is_ready trusted.now ≡ true }
    ensures { let r = request_of cycle.now in IfOk result (λ all. all.items
        ≡ map (spec.searched (file_in cycle.now.round.repo.now.metadata) r.moment r.limit
        trusted.now end) r.wanted) }
{
    let Round { repo, now, wanted } = cycle.round;
    let mut all = Vec::with_capacity(cycle.alloc, wanted.len())?;
    let mut searcher = Searcher::new(cycle.alloc, trusted, repo, now);
    for path in wanted {
        all.push(search_path(&mut searcher, &cycle.limits, end, path.as_str(), judge)?)?;
    }
    Ok(all)
}

/// Searches for the path if the cycle is ready.
fn search_path<J: Judge>(
    searcher: &mut Searcher,
    limits: &Limits,
    end: End,
    path: &str,
    judge: &mut J,
) -> Result<Option<Search>, NoMemory>
    requires { end ≡ End.Ready → is_ready searcher.old.trusted.now ≡ true }
    ensures searched { let s = searcher.old in IfOk result (λ found. found
        ≡ spec.searched (file_in s.repo.now.metadata) s.moment limits.now.roles s.trusted.now end
        path.now) }
    ensures trusted { searcher.new.trusted.now ≡ searcher.old.trusted.now }
    ensures repo { searcher.new.repo.now ≡ searcher.old.repo.now }
    ensures moment { searcher.new.moment ≡ searcher.old.moment }
{
    let End::Ready = end else {
        return Ok(None);
    };
    let limit = limits.roles.get() as usize;
    let found = searcher.search(path, limit, judge)?;
    Ok(Some(found))
}
