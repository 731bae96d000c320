//! What a verification begins with.

ghost use Rattle.std.specs.Prelude.{◌≡◌, ◌≢◌, ◌≤◌, ◌⊎◌, true, IfErr, IfOk, OnOk, map};
ghost use Rattle.std.specs.Prelude.{string_bytes};
ghost use Rattle.std.specs.List.{AllZip};
ghost use Rattle.update.specs.Causes.{IsCauseToRead, IsCauseToStart, IsNoState};
ghost use Rattle.update.specs.Copies as spec;
ghost use Rattle.update.specs.Opened.{paths_from};
ghost use Rattle.lookups.specs.Lookups.{IsPart};
ghost use Rattle.update.specs.Runs.{IsRead, IsStart, given_by};
ghost use Rattle.update.specs.Same.{IsSame};

use crate::clock::moment;
use crate::host::{Folders, HasMirrors};
use crate::state::{lock_state, read_state};
use cjson::number::Within;
use copies::are_below;
use cycle::{Limits, Moment, Trusted};
use failure::Failure;
use folder::Folder;
use lookups::Metadata;
use std::alloc::Global;
use system::System;

/// A number of threads that decide checks in advance.
pub type Workers = Within<0, 64>;

/// Whether the file of the trusted state has to be locked.
#[derive(Clone, Copy, Debug, PartialEq, Eq)]
pub enum Locking {
    /// It is locked until the run has ended.
    Needed,
    /// It is read without a lock: its file system has none.
    Without,
}

/// What is printed of a cycle that stopped.
#[derive(Clone, Copy, Debug, PartialEq, Eq)]
pub enum Detail {
    /// The step and its fault.
    Faults,
    /// What the check compared that failed, too.
    Reasons,
}

/// What the arguments of a run name: the path of the file with the trusted state, whether that is
/// locked, the text of the moment, the limits, the number of workers, the path of the file for the
/// new state, and what is printed of a stop.
#[derive(Clone, Copy)]
pub struct Settings<'a> {
    pub state: &'a str,
    pub locking: Locking,
    pub moment: Option<&'a str>,
    pub limits: Limits,
    pub workers: Workers,
    pub out: &'a str,
    pub detail: Detail,
}

/// The paths that a verification wants.
#[derive(Drop)]
pub enum Wanted {
    /// These, in order.
    Paths(Vec<String>),
    /// The path of every name that the targets folder lists, each once, in byte order. Whether
    /// names are consistent says the root that is trusted at the end.
    Every,
}

impl Wanted {
    /// Returns the paths that are given, or else those that were listed.
    pub(crate) fn paths<'a>(&'a self, listed: &'a [String]) -> &'a [String]
        ensures { result.now ≡ paths_from self.now listed.now }
    {
        match self {
            Wanted::Paths(paths) => paths.as_slice(),
            Wanted::Every => listed,
        }
    }

    /// Returns whether a copy may have each path that is given.
    pub(crate) fn may_be_copied(&self) -> bool
        ensures { result ≡ spec.may_be_copied self.now }
    {
        match self {
            Wanted::Paths(paths) => are_below(paths.as_slice()),
            Wanted::Every => true,
        }
    }
}

/// What the arguments of a verification name.
#[derive(Drop)]
pub struct Terms<'a> {
    pub settings: Settings<'a>,
    pub wanted: Wanted,
}

/// What a verification begins with: the allocator, the trusted state, the moment, the limits, the
/// number of workers, the path of the file for the new state, and what is printed of a stop.
#[derive(Drop)]
pub struct Start<'a> {
    pub alloc: Global,
    pub trusted: Trusted,
    pub moment: Moment,
    pub limits: Limits,
    pub workers: Workers,
    pub state: &'a str,
    pub detail: Detail,
}

impl Start<'_> {
    /// Returns the number of workers.
    pub fn threads(&self) -> usize
        ensures { result ≤ 64 }
    {
        self.workers.get() as usize
    }
}

/// Reads the moment, and then the trusted state that the settings name, while its file is locked if
/// it has to be.
pub fn begin<'a, S: System>(
    alloc: Global,
    system: &mut S,
    settings: &Settings<'a>,
) -> Result<Start<'a>, Failure>
    ensures start { IfOk result
        (IsStart settings.now (given_by settings.now.locking (S.gives_locked system.old)
        (S.gives system.old)) (S.shows system.old)) }
    ensures locked { OnOk result (settings.now.locking ≡ Locking.Needed
        → S.locks system.new settings.now.state.now ≡ true) }
    ensures kept { S.keeps system.new ≡ S.keeps system.old }
    ensures same_obstacles { S.obstacles system.new ≡ S.obstacles system.old }
    ensures cause { IfErr result (IsCauseToStart settings.now (S.shows system.old)
        (given_by settings.now.locking (S.gives_locked system.old) (S.gives system.old))
        (S.refuses system.old)) }
{
    let moment = moment(system, settings.moment)?;
    Ok(Start {
        alloc,
        trusted: first_state(alloc, system, settings)?,
        moment,
        limits: settings.limits,
        workers: settings.workers,
        state: settings.out,
        detail: settings.detail,
    })
}

/// Reads the trusted state, while its file is locked if it has to be.
fn first_state<S: System>(
    alloc: Global,
    system: &mut S,
    settings: &Settings<'_>,
) -> Result<Trusted, Failure>
    ensures read { IfOk result (IsRead (given_by settings.now.locking (S.gives_locked system.old)
        (S.gives system.old) settings.now.state.now)) }
    ensures locked { OnOk result (settings.now.locking ≡ Locking.Needed
        → S.locks system.new settings.now.state.now ≡ true) }
    ensures kept { S.keeps system.new ≡ S.keeps system.old }
    ensures same_obstacles { S.obstacles system.new ≡ S.obstacles system.old }
    ensures refused { IfErr result (λ f. (f ≡ Failure.Memory) ⊎ (f ≡ Failure.State)) }
    ensures cause { IfErr result (λ f. f ≢ Failure.Memory
        → IsNoState (given_by settings.now.locking (S.gives_locked system.old)
        (S.gives system.old) settings.now.state.now)
        (S.refuses system.old settings.now.state.now)) }
{
    match settings.locking {
        Locking::Needed => lock_state(alloc, system, settings.state),
        Locking::Without => read_state(alloc, system, settings.state),
    }
}

/// What was seen of a repository: the metadata folder, and the names of the target files.
#[derive(Drop)]
pub struct Opened {
    pub metadata: Metadata,
    pub names: Vec<String>,
}

impl<M: Folder, T: Folder> Folders<M, T> {
    /// Lists both folders, and reads no file.
    pub fn open(&mut self, alloc: Global) -> Result<Opened, Failure>
        ensures metadata { IfOk result (λ o. IsPart (M.gives self.old.metadata) o.metadata) }
        ensures names { IfOk result (λ o. (T.gives self.old.targets).lists
            (map string_bytes o.names.items) ≡ true) }
        ensures same { AllZip IsSame (⟦<Self as HasMirrors>⟧.mirrors self.old)
            (⟦<Self as HasMirrors>⟧.mirrors self.new) }
        ensures cause { IfErr result (IsCauseToRead (⟦<Self as HasMirrors>⟧.mirrors self.old)
            (⟦<Self as HasMirrors>⟧.mirrors self.new)) }
    {
        let metadata = Metadata::list(alloc, &mut self.metadata)?;
        let names = self.targets.names(alloc)?;
        Ok(Opened { metadata, names })
    }
}
