//! The files that have to be fetched next.

ghost use Rattle.std.specs.Prelude.{◌≡◌, ◌≢◌, ◌≤◌, IfErr, IfOk, OnOk};
ghost use Rattle.update.specs.Causes.{IsCauseToRead};
ghost use Rattle.update.specs.Fetching as spec;
ghost use Rattle.lookups.specs.Lookups.{request_of};
ghost use Rattle.update.specs.Fetching.{AreAbsentIn, IsCauseToList};
ghost use Rattle.update.specs.Moments.{IsMomentOf};
ghost use Rattle.update.specs.Runs.{IsRead};
ghost use Rattle.update.specs.World.{IsUntouched};

use crate::clock::moment;
use crate::following::CACHED;
use crate::host::{Folders, HasMirrors, HasWorld, Host};
use crate::start::Opened;
use crate::state::read_state;
use cycle::{Gate, Keeper, Limits, Moment, Threading, Trusted, Watch};
use failure::Failure;
use folder::Folder;
use lookups::Asked;
use needs::{Need, Place, names_of, needs};
use report::tell_needs;
use std::alloc::Global;
use std::io::Write;
use std::sync::Wait;
use std::thread::Threads;
use system::System;

/// What the arguments name: the path of the file with the trusted state, the text of the moment,
/// the limits, the wanted paths, in order, and the only folder whose files are printed, if one is
/// named.
#[derive(Drop)]
pub struct Wants<'a> {
    pub state: &'a str,
    pub moment: Option<&'a str>,
    pub limits: Limits,
    pub wanted: Vec<String>,
    pub only: Option<Place>,
}

impl<S: System, M: Folder, T: Folder, W: Write> Host<S, Folders<M, T>, W> {
    /// Prints a line for each file that a verification of the folders would look up and find
    /// absent, in its order, and returns 0. Reads the moment, the state file, whether or not
    /// another run has locked it, and then the folders: the metadata as a verification does, and of
    /// the target files only their names. Stores nothing.
    ///
    /// Fails with `Now` or `Clock`, with `State`, with `Folder`, and if out of memory or by an
    /// output error.
    pub fn next<R: Threads + Wait + Sync, N: Gate + Watch + Sync>(
        &mut self,
        threading: &Threading<'_, R, N>,
        alloc: Global,
        wants: &Wants<'_>,
    ) -> Result<u8, Failure>
        ensures known { IfOk result (λ status. status ≡ 0) }
        ensures listed { OnOk result (spec.IsNext wants.now
            (⟦<Self as HasWorld>⟧.world self.old) (⟦<Self as HasWorld>⟧.world self.new)) }
        ensures untouched { (⟦<Self as HasWorld>⟧.world self.new).keeps
            ≡ (⟦<Self as HasWorld>⟧.world self.old).keeps }
        ensures quiet { IfErr result (λ f. f ≢ Failure.Memory → f ≢ Failure.Output → IsUntouched
            (⟦<Self as HasWorld>⟧.world self.old) (⟦<Self as HasWorld>⟧.world self.new)) }
        ensures cause { IfErr result (spec.IsCauseOfNext wants.now
            (⟦<Self as HasWorld>⟧.world self.old) (⟦<Self as HasWorld>⟧.world self.new)) }
    {
        let started = self.start(alloc, wants)?;
        self.list(threading, alloc, wants, started)?;
        Ok(0)
    }

    /// Lists the files from that state and moment.
    fn list<R: Threads + Wait + Sync, N: Gate + Watch + Sync>(
        &mut self,
        threading: &Threading<'_, R, N>,
        alloc: Global,
        wants: &Wants<'_>,
        started: (Trusted, Moment),
    ) -> Result<(), Failure>
        ensures listed { OnOk result (spec.IsNextFrom wants.now started.0 started.1
            (⟦<Self as HasWorld>⟧.world self.old) (⟦<Self as HasWorld>⟧.world self.new)) }
        ensures untouched { (⟦<Self as HasWorld>⟧.world self.new).keeps
            ≡ (⟦<Self as HasWorld>⟧.world self.old).keeps }
        ensures quiet { IfErr result (λ f. f ≢ Failure.Memory → f ≢ Failure.Output → IsUntouched
            (⟦<Self as HasWorld>⟧.world self.old) (⟦<Self as HasWorld>⟧.world self.new)) }
        ensures cause { IfErr result (IsCauseToList
            (⟦<Self as HasWorld>⟧.world self.old) (⟦<Self as HasWorld>⟧.world self.new)) }
    {
        let (trusted, moment) = started;
        let mut keeper = Keeper::new(alloc, trusted, CACHED)?;
        let asked = Asked {
            alloc,
            moment,
            wanted: wants.wanted.as_slice(),
            limits: wants.limits,
            workers: 0,
        };
        let all = self.folders.absent(threading, &mut keeper, &asked)?;
        tell_needs(alloc, all.as_slice(), wants.only, &mut self.out)
    }
}

impl<S: System, F: HasMirrors, W: Write> Host<S, F, W> {
    /// Reads the moment, and then the trusted state that the arguments name.
    fn start(&self, alloc: Global, wants: &Wants<'_>) -> Result<(Trusted, Moment), Failure>
        ensures read { IfOk result (λ p. IsRead
            ((⟦<Self as HasWorld>⟧.world self.now).gives wants.now.state.now) p.0) }
        ensures moment { IfOk result (λ p. IsMomentOf
            (⟦<Self as HasWorld>⟧.world self.now).shows (spec.text_of wants.now) p.1) }
        ensures cause { IfErr result (spec.IsCauseToStart wants.now
            (⟦<Self as HasWorld>⟧.world self.now)) }
    {
        let moment = moment(&self.system, wants.moment)?;
        let trusted = read_state(alloc, &self.system, wants.state)?;
        Ok((trusted, moment))
    }
}

impl<M: Folder, T: Folder> Folders<M, T> {
    /// Returns the files that the course looks up and finds absent.
    fn absent<R: Threads + Wait + Sync, N: Gate + Watch + Sync>(
        &mut self,
        threading: &Threading<'_, R, N>,
        keeper: &mut Keeper,
        asked: &Asked<'_>,
    ) -> Result<Vec<Need>, Failure>
        requires workers { asked.now.workers ≤ 64 }
        ensures needs { IfOk result (λ all. AreAbsentIn (⟦<Self as HasMirrors>⟧.mirrors self.old)
            (request_of keeper.old asked.now) all.items) }
        ensures cause { IfErr result (IsCauseToRead (⟦<Self as HasMirrors>⟧.mirrors self.old)
            (⟦<Self as HasMirrors>⟧.mirrors self.new)) }
    {
        let mut opened = self.open(asked.alloc)?;
        let folder = &mut self.metadata;
        let course = (opened.metadata).follow(folder, threading, keeper, asked)?;
        let Opened { metadata, names } = opened;
        let targets = names_of(asked.alloc, names)?;
        let files = &metadata.repo.metadata;
        Ok(needs(asked.alloc, keeper.trusted(), &course, files, &targets)?)
    }
}
