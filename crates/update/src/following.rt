//! The course of a verification, before any target file is read.

ghost use Rattle.std.specs.Prelude.{◌≡◌, ◌≤◌, IfErr, IfOk, OnOk};
ghost use Rattle.std.specs.List.{AllZip};
ghost use Rattle.folder.specs.Folders.{IsSameFolder};
ghost use Rattle.cycle.specs.Workflow.{State, request};
ghost use Rattle.lookups.specs.Lookups.{IsPart, request_of};
ghost use Rattle.update.specs.Causes.{IsCauseToRead};
ghost use Rattle.update.specs.Opened.{AreListed, IsFollowed};
ghost use Rattle.update.specs.Same.{IsCauseToEnd, IsSame};

use crate::host::{Folders, HasMirrors};
use crate::start::{Opened, Start, Wanted};
use crate::stopped::why_lines;
use cycle::{Course, Gate, Keeper, Threading, Watch};
use failure::Failure;
use folder::Folder;
use lookups::Asked;
use paths::paths_of_names;
use std::alloc::Global;
use std::sync::Wait;
use std::thread::Threads;

/// Number of files of which the verdicts on signatures are cached from one course to the next.
pub(crate) const CACHED: usize = 64;

/// A course, and the names of the target files; with the paths of these names, if every file is
/// wanted, and the lines that say why the course stopped, if they are.
#[derive(Drop)]
pub struct Followed {
    pub(crate) course: Course,
    pub(crate) names: Vec<String>,
    pub(crate) listed: Vec<String>,
    pub(crate) stop: String,
}

/// What was seen of the folders so far, and the keeper of the state that a course begins with.
#[derive(Drop)]
struct Begun {
    opened: Opened,
    keeper: Keeper,
}

impl<M: Folder, T: Folder> Folders<M, T> {
    /// Lists both folders, and follows the course of the wanted paths, for which metadata files are
    /// read when they are looked up.
    pub(crate) fn follow<'a, R: Threads + Wait + Sync, N: Gate + Watch + Sync>(
        &mut self,
        threading: &Threading<'_, R, N>,
        start: &'a Start<'_>,
        wanted: &'a Wanted,
    ) -> Result<Followed, Failure>
        ensures followed { IfOk result
            (IsFollowed (⟦<Self as HasMirrors>⟧.mirrors self.old) start.now wanted.now) }
        ensures same { AllZip IsSame (⟦<Self as HasMirrors>⟧.mirrors self.old)
            (⟦<Self as HasMirrors>⟧.mirrors self.new) }
        ensures cause { IfErr result (IsCauseToRead (⟦<Self as HasMirrors>⟧.mirrors self.old)
            (⟦<Self as HasMirrors>⟧.mirrors self.new)) }
    {
        let opened = self.open(start.alloc)?;
        let keeper = Keeper::new(start.alloc, start.trusted.copy()?, CACHED)?;
        let mut begun = Begun { opened, keeper };
        let folder = &mut self.metadata;
        let listed = listed_paths(start, wanted, folder, threading, &mut begun)?;
        let asked = asked_of(start, wanted.paths(listed.as_slice()));
        let Begun {
            mut opened,
            mut keeper,
        } = begun;
        let course = (opened.metadata).follow(folder, threading, &mut keeper, &asked)?;
        let stop = why_lines(start, &opened.metadata.repo.metadata, &course)?;
        let Opened { names, .. } = opened;
        Ok(Followed {
            course,
            names,
            listed,
            stop,
        })
    }
}

/// Returns what is asked for these paths.
fn asked_of<'a>(start: &Start<'_>, wanted: &'a [String]) -> Asked<'a>
    ensures request { (trusted : State) → request_of trusted result
        ≡ request trusted start.now.moment wanted.now start.now.limits.roles }
    ensures workers { result.workers ≤ 64 }
{
    Asked {
        alloc: start.alloc,
        moment: start.moment,
        wanted,
        limits: start.limits,
        workers: start.threads(),
    }
}

/// Returns the paths of the names that were listed, if each is wanted. The names are consistent if
/// the root says so that a course without paths trusts.
#[tactic(auto, using(folder::proofs::Sameness::sameness))]
fn listed_paths<F: Folder, R: Threads + Wait + Sync, N: Gate + Watch + Sync>(
    start: &Start<'_>,
    wanted: &Wanted,
    folder: &mut F,
    threading: &Threading<'_, R, N>,
    begun: &mut Begun,
) -> Result<Vec<String>, Failure>
    requires part { IsPart (F.gives folder.old) begun.old.opened.metadata }
    requires state { begun.old.keeper ≡ start.now.trusted }
    ensures part { OnOk result (IsPart (F.gives folder.old) begun.new.opened.metadata) }
    ensures names { begun.new.opened.names ≡ begun.old.opened.names }
    ensures state { begun.new.keeper ≡ begun.old.keeper }
    ensures paths { IfOk result (λ listed. AreListed (F.gives folder.old) start.now wanted.now
        begun.new.opened listed.items) }
    ensures same { IsSameFolder (F.gives folder.old) (F.gives folder.new) }
    ensures cause { IfErr result (IsCauseToEnd (F.gives folder.old) (F.gives folder.new)) }
{
    match wanted {
        Wanted::Paths(_) => Ok(Vec::new(start.alloc)),
        Wanted::Every => {
            let asked = asked_of(start, &[]);
            let Begun { opened, keeper } = begun;
            let course = (opened.metadata).follow(folder, threading, keeper, &asked)?;
            let is_consistent = course.has_consistent_names();
            let names = opened.names.as_slice();
            Ok(paths_of_names(start.alloc, names, is_consistent)?)
        }
    }
}
