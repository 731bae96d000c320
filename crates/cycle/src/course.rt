//! The workflow up to the searches.

ghost use Rattle.std.specs.Prelude.{◌≡◌, All, IfOk, IfSome};
ghost use Rattle.cycle.specs.Workflow.{Checks, closed_by, target_of};

use crate::order::close;
use crate::outcome::Outcome;
use crate::stats::Stats;
use crate::store::Store;
use cjson::NoMemory;
use deleg::Search;
use keys::Direct;
use rolechain::{End, Trusted};
use std::alloc::Global;
use std::marker::Model;

/// The workflow up to the searches: the new trusted state, how the cycle ended, and the search for
/// each wanted path, by position. No target file was read. Contracts see these three parts; the
/// counts don't affect an outcome.
#[derive(Drop)]
pub struct Course {
    trusted: Trusted,
    end: End,
    searches: Vec<Option<Search>>,
    stats: Stats,
}

impl Model for Course {
    ghost use Rattle.cycle.specs.Workflow as spec;

    ghost Value = { spec.Course };

    ghost view = { λ c. record {
      trusted = c.trusted;
      end = c.end;
      searches = c.searches.items;
    } };
}

impl Course {
    /// Returns a course with counts of 0.
    pub(crate) fn new(trusted: Trusted, end: End, searches: Vec<Option<Search>>) -> Course
        ensures { result ≡ record {
          trusted = trusted;
          end = end;
          searches = searches.items;
        } }
    {
        Course {
            trusted,
            end,
            searches,
            stats: Stats::none(),
        }
    }

    /// Returns the same course with these counts.
    pub(crate) fn with_stats(mut self, stats: Stats) -> Course
        ensures { result ≡ self }
    {
        self.stats = stats;
        self
    }

    /// Returns the new trusted state.
    pub fn trusted(&self) -> &Trusted
        ensures value { result.now ≡ self.now.trusted }
    {
        &self.trusted
    }

    /// Returns how the cycle ended.
    pub fn end(&self) -> End
        ensures value { result ≡ self.now.end }
    {
        self.end
    }

    /// Returns whether target files have consistent names, by the trusted root (TUF 1.0 section
    /// 7.1).
    pub fn has_consistent_names(&self) -> bool
        ensures value { result ≡ self.now.trusted.root.reading.consistent }
    {
        self.trusted.root().reading().consistent()
    }

    /// Returns the search for each wanted path, by position, or None if the cycle stopped.
    pub fn searches(&self) -> &[Option<Search>]
        ensures value { result.now ≡ self.now.searches }
    {
        self.searches.as_slice()
    }

    /// Returns the counts of the run's checks.
    pub fn stats(&self) -> Stats {
        self.stats
    }

    /// Returns the new trusted state, and how the cycle ended.
    pub(crate) fn into_state(self) -> (Trusted, End)
        ensures trusted { result.0 ≡ self.trusted }
        ensures end { result.1 ≡ self.end }
    {
        let Course { trusted, end, .. } = self;
        (trusted, end)
    }

    /// Ends the workflow: a verdict for each wanted path, by the checks of the store, which has to
    /// know enough of each target that a search found. This is the outcome by all results that the
    /// store may give. Fails only if out of memory.
    pub fn close<S: Store>(self, alloc: Global, store: &S) -> Result<Outcome, NoMemory>
        requires known { All (λ s. IfSome (target_of s)
            (S.knows store.now self.trusted.root.reading.consistent)) self.searches }
        ensures outcome { IfOk result (λ o. (checks : Checks) → S.may_give store.now checks
            → o ≡ closed_by checks self) }
        ensures state { IfOk result (λ o. o.trusted ≡ self.trusted) }
    {
        let stats = self.stats;
        let outcome = close(alloc, self, store, &mut Direct)?;
        Ok(outcome.with_stats(stats))
    }
}
