//! The verification of a repository in two folders, with copies of its good targets.

ghost use Rattle.failure.specs.Failures.{IsLate};
ghost use Rattle.std.specs.Prelude.{◌≡◌, ◌≢◌, Err, IfErr, IfOk, OnErr, OnOk, false, true};
ghost use Rattle.system.specs.Locks.{StaysLocked};
ghost use Rattle.report.specs.Lines.{IsStatus};
ghost use Rattle.update.specs.Copies.{IsCauseIntoFrom, IsCauseToVerifyInto, may_be_copied};
ghost use Rattle.update.specs.Copies.{IsUntouchedOrBegun, IsUntouchedOrBegunFrom, OutsideKept};
ghost use Rattle.update.specs.Copies.{IsVerifiedInto, IsVerifiedIntoFrom};
ghost use Rattle.update.specs.World.{IsUntouched};

use crate::answer::tell_copied;
use crate::following::Followed;
use crate::host::{Folders, HasWorld, Host};
use crate::installing::{Places, store_copies};
use crate::refused::told_of;
use crate::start::{Locking, Start, Terms, Wanted, begin};
use crate::state::keep_state;
use copies::Destination;
use cycle::{Gate, Threading, Watch};
use failure::{Failure, of_io};
use folder::Folder;
use measured::{Copied, measure_into};
use std::alloc::Global;
use std::io::Write;
use std::sync::Wait;
use std::thread::Threads;
use system::System;

impl<S: System, M: Folder, T: Folder, W: Write> Host<S, Folders<M, T>, W> {
    /// Verifies what the terms name, as [`verify`](Host::verify) does, and stores each good target
    /// in `to` under its path: the bytes that were read and verified, and no others. Target files
    /// are read one at a time. First the new state is stored, then the copies in the order of the
    /// wanted paths, and then the lines are printed.
    ///
    /// An accepted path has no place if it may not be that of a copy, if it is a folder of another
    /// accepted path, if its place is the state's, or if the system puts no file there. Then it is
    /// printed as `no PATH NoPlace`, and the copies of the other paths are stored.
    ///
    /// Fails with `Words`, before anything is read, if a given path may not be that of a copy, and
    /// with `Output` if a copy can't be written for another cause. On failure nothing was stored,
    /// copied or printed; or if out of memory or by an output error, the new state was stored, and
    /// copies of some of the first good paths. What is stored for other paths stays.
    pub fn verify_into<R: Threads + Wait + Sync, N: Gate + Watch + Sync, D: Destination>(
        &mut self,
        threading: &Threading<'_, R, N>,
        alloc: Global,
        terms: &Terms<'_>,
        to: &mut D,
    ) -> Result<u8, Failure>
        ensures known { IfOk result IsStatus }
        ensures flushed { OnOk result (D.is_flushed to.new ≡ true) }
        ensures nothing_left { D.is_left to.old ≡ false → D.is_left to.new ≡ false }
        ensures paths { may_be_copied terms.now.wanted ≡ false → result ≡ Err Failure.Words }
        ensures locked { OnOk result (terms.now.settings.locking ≡ Locking.Needed
            → (⟦<Self as HasWorld>⟧.world self.new).locks terms.now.settings.state.now ≡ true) }
        ensures verified { IfOk result (IsVerifiedInto terms.now (D.site to.old)
            (⟦<Self as HasWorld>⟧.world self.old) (⟦<Self as HasWorld>⟧.world self.new)) }
        ensures order { OnErr result (IsUntouchedOrBegun terms.now (D.site to.old)
            (⟦<Self as HasWorld>⟧.world self.old) (⟦<Self as HasWorld>⟧.world self.new)) }
        ensures others { OutsideKept (D.site to.old).path terms.now.settings.out.now
            (⟦<Self as HasWorld>⟧.world self.old).keeps
            (⟦<Self as HasWorld>⟧.world self.new).keeps }
        ensures quiet { IfErr result (λ f. f ≢ Failure.Memory → f ≢ Failure.Output
            → IsUntouched
            (⟦<Self as HasWorld>⟧.world self.old) (⟦<Self as HasWorld>⟧.world self.new)) }
        ensures cause { IfErr result (IsCauseToVerifyInto terms.now (D.site to.old)
            (⟦<Self as HasWorld>⟧.world self.old) (⟦<Self as HasWorld>⟧.world self.new)) }
    {
        if !terms.wanted.may_be_copied() {
            return Err(Failure::Words);
        }
        let start = begin(alloc, &mut self.system, &terms.settings)?;
        let done = self.verify_into_from(threading, &start, &terms.wanted, to);
        to.clear(alloc);
        done
    }

    /// Does so from the state and the moment of `start`, and leaves the temporary files.
    #[tactic(auto, using(crate::proofs::Ending::outside))]
    fn verify_into_from<'a, R: Threads + Wait + Sync, N: Gate + Watch + Sync, D: Destination>(
        &mut self,
        threading: &Threading<'_, R, N>,
        start: &'a Start<'_>,
        wanted: &'a Wanted,
        to: &mut D,
    ) -> Result<u8, Failure>
        ensures known { IfOk result IsStatus }
        ensures flushed { OnOk result (D.is_flushed to.new ≡ true) }
        ensures locked { StaysLocked (⟦<Self as HasWorld>⟧.world self.old).locks
            (⟦<Self as HasWorld>⟧.world self.new).locks }
        ensures verified { IfOk result (IsVerifiedIntoFrom start.now wanted.now (D.site to.old)
            (⟦<Self as HasWorld>⟧.world self.old) (⟦<Self as HasWorld>⟧.world self.new)) }
        ensures order { OnErr result (IsUntouchedOrBegunFrom start.now wanted.now (D.site to.old)
            (⟦<Self as HasWorld>⟧.world self.old) (⟦<Self as HasWorld>⟧.world self.new)) }
        ensures others { OutsideKept (D.site to.old).path start.now.state.now
            (⟦<Self as HasWorld>⟧.world self.old).keeps
            (⟦<Self as HasWorld>⟧.world self.new).keeps }
        ensures quiet { IfErr result (λ f. f ≢ Failure.Memory → f ≢ Failure.Output
            → IsUntouched
            (⟦<Self as HasWorld>⟧.world self.old) (⟦<Self as HasWorld>⟧.world self.new)) }
        ensures cause { IfErr result (IsCauseIntoFrom start.now wanted.now (D.site to.old)
            (⟦<Self as HasWorld>⟧.world self.old) (⟦<Self as HasWorld>⟧.world self.new)) }
    {
        let alloc = start.alloc;
        let followed = self.folders.follow(threading, start, wanted)?;
        let Followed {
            course,
            names,
            listed,
            stop,
        } = followed;
        let copied = measure_into(alloc, &course, &mut self.folders.targets, names, to)?;
        let Copied { known, copies } = copied;
        let told = told_of(start, course, stop, &known)?;
        let paths = wanted.paths(listed.as_slice());
        keep_state(alloc, &mut self.system, start.state, told.outcome.trusted())?;
        let (verdicts, copies) = (told.outcome.verdicts(), copies.as_slice());
        let places = Places {
            alloc,
            to: &*to,
            state: start.state,
        };
        let stored = store_copies(&places, paths, verdicts, copies, &mut self.system)?;
        flush(alloc, paths, stored.as_slice(), to)?;
        tell_copied(alloc, &told, paths, stored.as_slice(), &mut self.out)
    }
}

/// Flushes the folders of the copies that were stored. Fails with `Output` if one can't be flushed.
fn flush<D: Destination>(
    alloc: Global,
    paths: &[String],
    stored: &[bool],
    to: &mut D,
) -> Result<(), Failure>
    ensures flushed { OnOk result (D.is_flushed to.new ≡ true) }
    ensures same_site { D.site to.new ≡ D.site to.old }
    ensures refused { IfErr result IsLate }
{
    match to.flush(alloc, paths, stored) {
        Ok(()) => Ok(()),
        Err(error) => Err(of_io(&error, Failure::Output)),
    }
}
