//! The trusted state, shown.

ghost use Rattle.std.specs.Prelude.{◌≡◌, ◌≢◌, ◌≤◌, IfErr, IfOk, option_map};
ghost use Rattle.failure.specs.Failures.{IsLate};
ghost use Rattle.update.specs.Shown as spec;
ghost use Rattle.update.specs.World.{IsUntouched};

use crate::host::{HasMirrors, HasWorld, Host};
use crate::state::read_state;
use cycle::{Moment, Step, Trusted};
use failure::Failure;
use inout::put_bytes;
use report::show;
use std::alloc::Global;
use std::io::Write;
use system::System;

impl<S: System, F: HasMirrors, W: Write> Host<S, F, W> {
    /// Prints the lines of the trusted state in a file: a version and the moment of expiry for the
    /// root and for each other file that is trusted. Returns 1 if `before` is given and one of them
    /// expires before the moment that it encodes, else 0. Stores nothing.
    ///
    /// Reads the moment, and then the state. Fails with `Now` if `before` encodes no moment, with
    /// `State` if the state file can't be read or has no state, and if out of memory or by an
    /// output error.
    #[tactic(auto, using(crate::proofs::Viewing::viewing))]
    pub fn show(&mut self, alloc: Global, state: &str, before: Option<&str>) -> Result<u8, Failure>
        ensures known { IfOk result (λ status. status ≤ 1) }
        ensures shown { IfOk result (spec.IsShown state.now
            (option_map (λ t. t.now) before.entry)
            (⟦<Self as HasWorld>⟧.world self.old) (⟦<Self as HasWorld>⟧.world self.new)) }
        ensures untouched { (⟦<Self as HasWorld>⟧.world self.new).keeps
            ≡ (⟦<Self as HasWorld>⟧.world self.old).keeps }
        ensures quiet { IfErr result (λ f. f ≢ Failure.Memory → f ≢ Failure.Output → IsUntouched
            (⟦<Self as HasWorld>⟧.world self.old) (⟦<Self as HasWorld>⟧.world self.new)) }
        ensures cause { IfErr result (spec.IsCauseToShow state.now
            (option_map (λ t. t.now) before.entry) (⟦<Self as HasWorld>⟧.world self.old)) }
    {
        let before = moment_before(before)?;
        let trusted = read_state(alloc, &self.system, state)?;
        show(alloc, &trusted, before, &mut self.out)
    }

    /// Prints the bytes of the step's file in the trusted state in a file, as they are, and returns
    /// 0. If the state has none, prints nothing and returns 1. Stores nothing. Fails with `State`
    /// if the state file can't be read or has no state, and if out of memory or by an output error.
    #[tactic(auto, using(crate::proofs::Viewing::viewing))]
    pub fn show_file(&mut self, alloc: Global, state: &str, step: Step) -> Result<u8, Failure>
        ensures known { IfOk result (λ status. status ≤ 1) }
        ensures shown { IfOk result (spec.IsFileShown state.now step
            (⟦<Self as HasWorld>⟧.world self.old) (⟦<Self as HasWorld>⟧.world self.new)) }
        ensures untouched { (⟦<Self as HasWorld>⟧.world self.new).keeps
            ≡ (⟦<Self as HasWorld>⟧.world self.old).keeps }
        ensures quiet { IfErr result (λ f. f ≢ Failure.Memory → f ≢ Failure.Output → IsUntouched
            (⟦<Self as HasWorld>⟧.world self.old) (⟦<Self as HasWorld>⟧.world self.new)) }
        ensures cause { IfErr result (spec.IsCauseToShowFile state.now
            (⟦<Self as HasWorld>⟧.world self.old)) }
    {
        let trusted = read_state(alloc, &self.system, state)?;
        give_out(bytes_of(&trusted, step), &mut self.out)
    }
}

/// Returns the bytes of the step's file, if it is trusted.
fn bytes_of(trusted: &Trusted, step: Step) -> Option<&[u8]>
    ensures { option_map (λ b. b.now) result ≡ spec.file_of step trusted.now }
{
    match step {
        Step::Root => Some(trusted.root().bytes()),
        Step::Timestamp => Some(trusted.timestamp()?.bytes()),
        Step::Snapshot => Some(trusted.snapshot()?.bytes()),
        Step::Targets => Some(trusted.targets()?.bytes()),
    }
}

/// Prints the bytes and returns 0, or returns 1 if there are none.
fn give_out<W: Write>(bytes: Option<&[u8]>, out: &mut W) -> Result<u8, Failure>
    ensures known { IfOk result (λ status. status ≤ 1) }
    ensures given { IfOk result (spec.IsGivenOut (option_map (λ b. b.now) bytes.entry)
        (W.contents out.old) (W.contents out.new)) }
    ensures refused { IfErr result IsLate }
{
    match bytes {
        Some(bytes) => {
            put_bytes(out, bytes)?;
            Ok(0)
        }
        None => Ok(1),
    }
}

/// Returns the moment that the text encodes, if there is a text.
fn moment_before(text: Option<&str>) -> Result<Option<Moment>, Failure>
    ensures moment { IfOk result (spec.IsBefore (option_map (λ t. t.now) text.entry)) }
    ensures refused { IfErr result (spec.IsNoBefore (option_map (λ t. t.now) text.entry)) }
{
    match text {
        Some(text) => match Moment::read(text) {
            Some(moment) => Ok(Some(moment)),
            None => Err(Failure::Now),
        },
        None => Ok(None),
    }
}
