//! Cycles of a keeper over repositories that a seed draws, beside cycles on one thread.

use crate::gates::{Schedule, mixed};
use crate::keepers::{all_read, keeper_of};
use crate::parameters::Parameters;
use crate::repositories::Made;
use crate::runs::{limits_of, moment};
use crate::shell::Shell;
use crate::stress::drawn;
use anyhow::{Context, Result};
use cycle::{Keeper, Outcome, Repo, run_alone};
use report::{Told, tell};
use sessions::{Output, Step};
use std::alloc::Global;
use std::sync::Wait;
use std::thread::Threads;

/// The parameters of a walk.
#[derive(Clone, Copy)]
struct Course<'a> {
    made: &'a [Made],
    wanted: &'a [String],
    cycles: u64,
    seed: u64,
}

/// Returns how many of a number of cycles of a keeper print something else than a cycle on one
/// thread from the state of the cycle before, or lead to another state.
pub fn walk<T: Threads + Wait + Sync>(shell: &Shell<'_, T>, step: &Step) -> Result<Output> {
    let cycles = step.word(1)?.parse::<u64>()?;
    let seed = mixed(step.word(2)?.parse::<u64>()?);
    let made = all_read(shell.files, shell.alloc, step.word(0)?)?;
    let mut keeper = keeper_of(shell.alloc, made.as_slice(), step.word(3)?)?;
    let course = Course {
        made: made.as_slice(),
        wanted: step.words_behind(4),
        cycles,
        seed,
    };
    let differing = differing(shell, &mut keeper, course)?;
    let text = format!(in shell.alloc; "{cycles} cycles, {differing} differ\n")?;
    Ok(Output::printed(shell.alloc, text))
}

fn differing<T: Threads + Wait + Sync>(
    shell: &Shell<'_, T>,
    keeper: &mut Keeper,
    course: Course,
) -> Result<u64> {
    let mut differing: u64 = 0;
    for cycle in 0..course.cycles {
        let draw = mixed(course.seed ^ cycle);
        let repo = repo_of(course.made, draw)?;
        if !agrees(shell, keeper, repo, course.wanted, drawn(draw))? {
            differing = differing.saturating_add(1);
        }
    }
    Ok(differing)
}

/// Returns the repository that is drawn.
fn repo_of(made: &[Made], draw: u64) -> Result<&Repo> {
    let place = (draw >> 8)
        .checked_rem(made.len() as u64)
        .context("no repository")?;
    let one = made.get(place as usize).context("no repository")?;
    Ok(&one.repo)
}

/// Returns whether the next cycle of the keeper prints what one on one thread prints from the
/// keeper's state, and leads to its state.
fn agrees<T: Threads + Wait + Sync>(
    shell: &Shell<'_, T>,
    keeper: &mut Keeper,
    repo: &Repo,
    wanted: &[String],
    parameters: Parameters,
) -> Result<bool> {
    let (now, limits) = (moment()?, limits_of(parameters.most)?);
    let (rt, alloc) = (shell.threads, shell.alloc);
    let alone = run_alone(alloc, keeper.trusted(), repo, now, wanted, &limits)?;
    let gate = Schedule::new(parameters.rule);
    let kept = keeper.cycle(rt, repo, now, wanted, &limits, parameters.workers, &gate)?;
    Ok(all_of(alloc, alone, wanted)? == all_of(alloc, kept, wanted)?)
}

/// Returns the text of the outcome's state, followed by its lines. The status is a function of
/// these.
fn all_of(alloc: Global, outcome: Outcome, wanted: &[String]) -> Result<Vec<u8>> {
    let mut all = outcome.trusted().to_text(alloc)?;
    tell(alloc, &Told::plain(alloc, outcome), wanted, &mut all)?;
    Ok(all)
}
