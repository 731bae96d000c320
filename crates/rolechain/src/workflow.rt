//! The client workflow, step by step.

ghost use Rattle.std.specs.Prelude.{◌≡◌, IfOk, true};
ghost use Rattle.examine.specs.Checks.{file_in};
ghost use Rattle.rolechain.specs.Advance as spec;
ghost use Rattle.rolechain.specs.Advance.{most_roots, IsLongestChain, IsDropped, is_early};
ghost use Rattle.rolechain.specs.Advance.{is_ready, advanced_of, Ends, Leaves};
ghost use Rattle.rolechain.specs.Kept.{AreRead};

use crate::end::{End, Halt};
use crate::roots::root_step;
use crate::state::Trusted;
use crate::steps::{snapshot_step, targets_step, timestamp_step};
use cjson::NoMemory;
use examine::Context;
use keys::Judge;
use meta::{Moment, Repo};
use std::alloc::Global;

/// Runs one cycle of the client workflow, from the trusted state up to the top-level targets file
/// (TUF 1.0 sections 5.3 to 5.6). Returns the new trusted state, and how the cycle ended. Fails
/// only if out of memory.
///
/// The new root ends the longest chain of at most 256 roots that follow the trusted one. A stop
/// leaves what was trusted before it. If the cycle stops at a root or at the timestamp, it keeps
/// the trusted timestamp and snapshot. If two consecutive roots of the chain list different keys
/// for either role, it drops both instead.
pub fn advance<J: Judge>(
    alloc: Global,
    trusted: &Trusted,
    repo: &Repo,
    now: Moment,
    judge: &mut J,
) -> Result<(Trusted, End), NoMemory>
    ensures workflow { IfOk result (λ r. advanced_of r
        ≡ spec.advanced (file_in repo.now.metadata) now trusted.now) }
    ensures ready { IfOk result (λ r. r.1 ≡ End.Ready → is_ready r.0 ≡ true) }
    ensures parts { IfOk result (λ r. AreRead r.0) }
    ensures roots { IfOk result (λ r. IsLongestChain (file_in repo.now.metadata) most_roots
        trusted.now.root r.0.root) }
    ensures drop { IfOk result (λ r. is_early r.1 ≡ true
        → IsDropped (file_in repo.now.metadata) trusted.now r.0) }
{
    let context = Context {
        alloc,
        files: &repo.metadata,
        moment: now,
    };
    let mut state = trusted.copy()?;
    let end = end_of(steps(&context, &mut state, judge))?;
    // (reading a field of the state shows its invariant: the clause `parts`)
    let _root = &state.root;
    Ok((state, end))
}

/// Returns how a cycle ended whose steps have this result.
fn end_of(answer: Result<(), Halt>) -> Result<End, NoMemory>
    ensures { Ends answer result }
{
    match answer {
        Ok(()) => Ok(End::Ready),
        Err(Halt::Stopped(step, fault)) => Ok(End::Stopped(step, fault)),
        Err(Halt::NoMemory) => Err(NoMemory),
    }
}

/// Runs the steps of a cycle, in order.
#[tactic(auto, unfolding(crate::specs::Advance::steps))]
fn steps<J: Judge>(context: &Context, state: &mut Trusted, judge: &mut J) -> Result<(), Halt>
    ensures { Leaves (spec.steps (file_in context.now.files.now) context.now.moment state.old)
        result state.new }
{
    root_step(context, state, judge)?;
    timestamp_step(context, state, judge)?;
    snapshot_step(context, state, judge)?;
    targets_step(context, state, judge)
}
