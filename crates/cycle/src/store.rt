//! The target files of a repository.

ghost use Rattle.std.specs.Prelude.{◌≡◌, Bool};
ghost use Rattle.meta.specs.Content.{Answers};
ghost use Rattle.examine.specs.Checks.{Target, file_in};
ghost use Rattle.cycle.specs.Workflow.{Checks, target_checked};

use examine::target_file;
use keys::Judge;
use meta::{Fault, Stop, Target};
use std::alloc::Global;
use std::collections::BTreeMap;

/// The target files of a repository, or as much of them as is known. So the store may give several
/// results of checks; what it returns is that of each of them.
pub trait Store {
    /// Whether the checks of target files may come to these results.
    ghost may_give: { Self → Checks → Type 0 };

    /// Whether enough is known to check the file of the target, under consistent names or not.
    ghost knows: { Self → Bool → Target → Type 0 };

    /// Checks that the target's file is there and has the listed length and digests (TUF 1.0
    /// section 5.7). May use `judge` for the digests. Fails with the first fault, or if out of
    /// memory.
    fn check<J: Judge>(&self, consistent: bool, target: &Target, judge: &mut J) -> Result<(), Stop>
        requires known { knows self.now consistent target.now }
        ensures checked { (checks : Checks) → may_give self.now checks
            → Answers (checks consistent target.now) result (λ x. x) };
}

/// Target files in memory, by name.
#[derive(Clone, Copy)]
pub struct InMemory<'a> {
    /// The allocator.
    pub alloc: Global,
    /// The files, by name.
    pub files: &'a BTreeMap<String, Vec<u8>>,
}

impl Store for InMemory<'_> {
    ghost may_give = { λ s checks. checks ≡ target_checked (file_in s.files.now) };

    ghost knows = { λ _ _ _. Unit {0} };

    /// Passes the target's path to the judge as the name of the file.
    fn check<J: Judge>(
        &self,
        consistent: bool,
        target: &Target,
        judge: &mut J,
    ) -> Result<(), Stop> {
        let found = target_file(self.alloc, self.files, consistent, target)?;
        let bytes = found.ok_or(Fault::Missing)?;
        match target.check(target.path.as_str(), bytes, None, judge)? {
            None => Ok(()),
            Some(fault) => Err(Stop::Refused(fault)),
        }
    }
}
