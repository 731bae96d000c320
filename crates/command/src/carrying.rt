//! Carrying out a subcommand.

ghost use Rattle.std.specs.Prelude.{◌≡◌, ◌≢◌, ◌≤◌, [], IfErr, IfOk, option_map};
ghost use Rattle.report.specs.Lines.{IsStatus};
ghost use Rattle.command.specs.Done.{IsCause, IsCauseOf, IsDone, IsFirst, OfHeld};
ghost use Rattle.command.specs.Done.{system_of, system_with};
ghost use Rattle.update.specs.First.{IsCauseOfFirst};
ghost use Rattle.update.specs.Shown.{IsCauseToShow, IsCauseToShowFile, IsFileShown, IsShown};

use crate::ceremonies::{attach, key, signers, text};
use crate::folders::{next_in, replay_in, verify_in};
use crate::into::verify_into_in;
use crate::making::make;
use crate::runtime::Runtime;
use crate::subcommand::Subcommand;
use cycle::Step;
use failure::Failure;
use std::alloc::Global;
use std::io::Write;
use std::sync::Wait;
use std::thread::Threads;
use system::Machine;
use update::{First, Host};

/// Carries out a subcommand on the file system, and returns its status: 0 if all wanted targets
/// are accepted, 1 if one is refused or a file that is shown expires too soon or isn't there, 2 if
/// the update stopped or the root is refused. A step of a ceremony returns 0 if it was done. Prints
/// the lines of the outcome to `out`, which is returned too. Fails as the run does that the
/// subcommand names.
pub fn carry_out<T: Threads + Wait + Sync, W: Write>(
    run: &Runtime<'_, T>,
    subcommand: &Subcommand<'_>,
    out: W,
) -> (Result<u8, Failure>, W)
    ensures known { IfOk result.0 IsStatus }
    ensures done { IfOk result.0 (IsDone subcommand.now
        (W.contents out) (W.contents result.1)) }
    ensures quiet { IfErr result.0 (λ f. f ≢ Failure.Memory → f ≢ Failure.Output
        → W.contents result.1 ≡ W.contents out) }
    ensures cause { IfErr result.0 (IsCause subcommand.now
        (W.contents out) (W.contents result.1)) }
{
    let (rt, alloc) = (run.host, run.alloc);
    match subcommand {
        Subcommand::Init { first } => init(rt, alloc, first, out),
        Subcommand::Verify { terms, folders } => verify_in(run, terms, *folders, out),
        Subcommand::VerifyInto {
            terms,
            folders,
            into,
        } => verify_into_in(run, terms, *folders, into, out),
        Subcommand::Replay {
            cycles,
            repositories,
        } => replay_in(run, cycles, repositories.as_slice(), out),
        Subcommand::Next { wants, folders } => next_in(run, wants, *folders, out),
        Subcommand::Show { state, before } => show(rt, alloc, state, *before, out),
        Subcommand::ShowFile { state, file } => show_file(rt, alloc, state, *file, out),
        Subcommand::Key { from, to } => key(rt, alloc, from, to, out),
        Subcommand::Text { file } => text(rt, alloc, file, out),
        Subcommand::Attach { paths } => attach(rt, alloc, paths, out),
        Subcommand::Signers { file, by } => signers(rt, alloc, file, by, out),
        Subcommand::Make { script, folder } => (make(rt, alloc, script, folder), out),
    }
}

/// Trusts the root file of a path, and stores the state for a path.
#[tactic(auto, using(crate::proofs::Doing::quiet))]
fn init<W: Write>(
    rt: &HostRuntime,
    alloc: Global,
    first: &First<'_>,
    out: W,
) -> (Result<u8, Failure>, W)
    ensures known { IfOk result.0 IsStatus }
    ensures first { IfOk result.0 (λ status. OfHeld (λ h k. IsFirst first.now.root.now
        first.now.state.now (system_of h [] (W.contents out))
        (system_of k [] (W.contents result.1)) status)) }
    ensures quiet { IfErr result.0 (λ f. f ≢ Failure.Memory → f ≢ Failure.Output
        → W.contents result.1 ≡ W.contents out) }
    ensures cause { IfErr result.0 (λ f. IsCauseOf
        (λ w v. IsCauseOfFirst first.now w v f)
        (W.contents out) (W.contents result.1)) }
{
    let mut host = Host {
        system: Machine::new(rt),
        folders: (),
        out,
    };
    let done = host.init(alloc, first);
    (done, host.out)
}

/// Prints the trusted state of a path.
#[tactic(auto, using(crate::proofs::Doing::quiet_of))]
fn show<W: Write>(
    rt: &HostRuntime,
    alloc: Global,
    state: &str,
    before: Option<&str>,
    out: W,
) -> (Result<u8, Failure>, W)
    ensures known { IfOk result.0 (λ status. status ≤ 1) }
    ensures shown { IfOk result.0 (IsShown state.now (option_map (λ t. t.now) before.entry)
        (system_with [] (W.contents out)) (system_with [] (W.contents result.1))) }
    ensures quiet { IfErr result.0 (λ f. f ≢ Failure.Memory → f ≢ Failure.Output
        → W.contents result.1 ≡ W.contents out) }
    ensures cause { IfErr result.0 (IsCauseToShow state.now (option_map (λ t. t.now) before.entry)
        (system_with [] (W.contents out))) }
{
    let mut host = Host {
        system: Machine::new(rt),
        folders: (),
        out,
    };
    let done = host.show(alloc, state, before);
    (done, host.out)
}

/// Prints the step's file in the trusted state of a path.
#[tactic(auto, using(crate::proofs::Doing::quiet_of))]
fn show_file<W: Write>(
    rt: &HostRuntime,
    alloc: Global,
    state: &str,
    file: Step,
    out: W,
) -> (Result<u8, Failure>, W)
    ensures known { IfOk result.0 (λ status. status ≤ 1) }
    ensures shown { IfOk result.0 (IsFileShown state.now file
        (system_with [] (W.contents out)) (system_with [] (W.contents result.1))) }
    ensures quiet { IfErr result.0 (λ f. f ≢ Failure.Memory → f ≢ Failure.Output
        → W.contents result.1 ≡ W.contents out) }
    ensures cause { IfErr result.0 (IsCauseToShowFile state.now
        (system_with [] (W.contents out))) }
{
    let mut host = Host {
        system: Machine::new(rt),
        folders: (),
        out,
    };
    let done = host.show_file(alloc, state, file);
    (done, host.out)
}
