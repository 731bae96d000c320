//! The verification of a repository in two folders.

ghost use Rattle.std.specs.Prelude.{◌≡◌, ◌≢◌, true, IfErr, IfOk, OnErr, OnOk};
ghost use Rattle.system.specs.Locks.{StaysLocked};
ghost use Rattle.report.specs.Lines.{IsStatus};
ghost use Rattle.update.specs.Causes.{IsCause, IsCauseFrom};
ghost use Rattle.update.specs.Runs.{IsUntouchedOrStored, IsUntouchedOrStoredFrom};
ghost use Rattle.update.specs.Runs.{IsVerified, IsVerifiedFrom};
ghost use Rattle.update.specs.World.{IsUntouched, OthersKept};

use crate::answer::tell_outcome;
use crate::following::Followed;
use crate::host::{Folders, HasWorld, Host};
use crate::refused::told_of;
use crate::start::{Locking, Start, Terms, Wanted, begin};
use crate::state::keep_state;
use cycle::{Gate, Threading, Watch};
use failure::Failure;
use folder::Folder;
use measured::{Readers, measure};
use std::alloc::Global;
use std::io::Write;
use std::sync::Wait;
use std::thread::Threads;
use system::System;

impl<S: System, M: Folder, T: Folder + Sync, W: Write> Host<S, Folders<M, T>, W> {
    /// Verifies what the terms name: reads the moment, locks and reads the state file, and then
    /// reads the folders, as [`verify_from`](Host::verify_from) does. The file stays locked, unless
    /// the terms want no lock. If the
    /// moment, the state file or a folder fails, nothing was stored or printed. If out of memory or
    /// by an output error, that holds too, or the new state was stored whole. What is stored for
    /// other paths stays.
    pub fn verify<R: Threads + Wait + Sync, N: Gate + Watch + Sync>(
        &mut self,
        threading: &Threading<'_, R, N>,
        alloc: Global,
        terms: &Terms<'_>,
    ) -> Result<u8, Failure>
        ensures known { IfOk result IsStatus }
        ensures locked { OnOk result (terms.now.settings.locking ≡ Locking.Needed
            → (⟦<Self as HasWorld>⟧.world self.new).locks terms.now.settings.state.now ≡ true) }
        ensures verified { IfOk result (IsVerified terms.now
            (⟦<Self as HasWorld>⟧.world self.old) (⟦<Self as HasWorld>⟧.world self.new)) }
        ensures order { OnErr result (IsUntouchedOrStored terms.now
            (⟦<Self as HasWorld>⟧.world self.old) (⟦<Self as HasWorld>⟧.world self.new)) }
        ensures others { OthersKept terms.now.settings.out.now
            (⟦<Self as HasWorld>⟧.world self.old).keeps
            (⟦<Self as HasWorld>⟧.world self.new).keeps }
        ensures quiet { IfErr result (λ f. f ≢ Failure.Memory → f ≢ Failure.Output → IsUntouched
            (⟦<Self as HasWorld>⟧.world self.old) (⟦<Self as HasWorld>⟧.world self.new)) }
        ensures cause { IfErr result (IsCause terms.now
            (⟦<Self as HasWorld>⟧.world self.old) (⟦<Self as HasWorld>⟧.world self.new)) }
    {
        let start = begin(alloc, &mut self.system, &terms.settings)?;
        self.verify_from(threading, &start, &terms.wanted)
    }

    /// Verifies the repository in the folders, stores the new state and prints the lines. Returns
    /// the status: 2 if the update stopped, else 1 if some target is refused, else 0. Prints
    /// nothing before the state is stored.
    ///
    /// Of the metadata folder, files whose names end in `.json` are read when they are looked up,
    /// at most 5,000,001 bytes of each. Of the target folder the names are listed. After the
    /// searches each target file that they found is read once, in pieces, no further than the
    /// greatest length that is listed of it and one byte, by `start.workers` threads. Status, lines
    /// and state are those of the workflow for all files of which the same was seen, whatever else
    /// they have.
    ///
    /// On failure either nothing was stored or printed, or the new state was stored whole; the
    /// latter only if out of memory or by an output error. What is stored for other paths stays.
    /// Waits for its threads.
    pub fn verify_from<'a, R: Threads + Wait + Sync, N: Gate + Watch + Sync>(
        &mut self,
        threading: &Threading<'_, R, N>,
        start: &'a Start<'_>,
        wanted: &'a Wanted,
    ) -> Result<u8, Failure>
        ensures known { IfOk result IsStatus }
        ensures locked { StaysLocked (⟦<Self as HasWorld>⟧.world self.old).locks
            (⟦<Self as HasWorld>⟧.world self.new).locks }
        ensures verified { IfOk result (IsVerifiedFrom start.now wanted.now
            (⟦<Self as HasWorld>⟧.world self.old) (⟦<Self as HasWorld>⟧.world self.new)) }
        ensures order { OnErr result (IsUntouchedOrStoredFrom start.now wanted.now
            (⟦<Self as HasWorld>⟧.world self.old) (⟦<Self as HasWorld>⟧.world self.new)) }
        ensures others { OthersKept start.now.state.now
            (⟦<Self as HasWorld>⟧.world self.old).keeps
            (⟦<Self as HasWorld>⟧.world self.new).keeps }
        ensures quiet { IfErr result (λ f. f ≢ Failure.Memory → f ≢ Failure.Output → IsUntouched
            (⟦<Self as HasWorld>⟧.world self.old) (⟦<Self as HasWorld>⟧.world self.new)) }
        ensures cause { IfErr result (IsCauseFrom start.now wanted.now
            (⟦<Self as HasWorld>⟧.world self.old) (⟦<Self as HasWorld>⟧.world self.new)) }
    {
        let alloc = start.alloc;
        let followed = self.folders.follow(threading, start, wanted)?;
        let Followed {
            course,
            names,
            listed,
            stop,
        } = followed;
        let readers = Readers {
            rt: threading.rt,
            threads: start.threads(),
        };
        let known = measure(&readers, alloc, &course, &mut self.folders.targets, names)?;
        let told = told_of(start, course, stop, &known)?;
        let paths = wanted.paths(listed.as_slice());
        keep_state(alloc, &mut self.system, start.state, told.outcome.trusted())?;
        tell_outcome(alloc, &told, paths, &mut self.out)
    }
}
