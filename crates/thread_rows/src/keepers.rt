//! Cycles of a keeper, each from the state that the one before led to.

ghost use Rattle.std.specs.Prelude.{◌≤◌, IfSome};

use crate::gates::Schedule;
use crate::parameters::Parameters;
use crate::repositories::{Made, read};
use crate::runs::{limits_of, moment};
use crate::shell::Shell;
use anyhow::{Context, Result};
use cycle::{Keeper, Outcome, Round, Stats};
use report::{Told, tell_cycles};
use sessions::{Output, Step};
use std::alloc::Global;
use std::io::Write;
use std::sync::Wait;
use std::thread::Threads;

/// Maximum number of files in a keeper's cache.
const MOST_KEPT: usize = 4096;

/// Returns the lines of a keeper's cycles over repositories, and the status of the last one.
pub fn cycles<T: Threads + Wait + Sync>(shell: &Shell<'_, T>, step: &Step) -> Result<Output> {
    let (all, _) = outcomes(shell, step)?;
    let mut output = Output::nothing(shell.alloc);
    let wanted = step.words_behind(5);
    let told = all_told(shell.alloc, all)?;
    output.status = tell_cycles(shell.alloc, told.as_slice(), wanted, &mut output.out)?;
    Ok(output)
}

/// Returns what is told of the outcomes, without lines that say why.
fn all_told(alloc: Global, outcomes: Vec<Outcome>) -> Result<Vec<Told>> {
    let mut all = Vec::new(alloc);
    for outcome in outcomes {
        all.push(Told::plain(alloc, outcome))?;
    }
    Ok(all)
}

/// Returns the counts of each of a keeper's cycles over repositories, and how many waits of the
/// gate met their limit.
pub fn kept<T: Threads + Wait + Sync>(shell: &Shell<'_, T>, step: &Step) -> Result<Output> {
    let (all, gate) = outcomes(shell, step)?;
    counted(shell.alloc, all.as_slice(), &gate)
}

/// Reads the repositories of these names, which are separated by commas.
pub fn all_read(rt: &HostRuntime, alloc: Global, names: &str) -> Result<Vec<Made>> {
    let mut made = Vec::new(alloc);
    for name in names.split(",") {
        made.push(read(rt, alloc, name)?)?;
    }
    Ok(made)
}

/// Returns a keeper whose state begins with the first root of the first repository. The word is the
/// capacity of its cache.
pub fn keeper_of(alloc: Global, made: &[Made], word: &str) -> Result<Keeper> {
    let capacity = capacity_of(word).context("no such capacity")?;
    let first = made.first().context("no repository")?;
    let trusted = first.trusted.copy()?;
    Ok(Keeper::new(alloc, trusted, capacity)?)
}

/// Returns the number of a word that is 1 to 4,096.
fn capacity_of(word: &str) -> Option<usize>
    ensures { IfSome result (λ n. (1 ≤ n) × (n ≤ 4096)) }
{
    let capacity = word.parse::<usize>().ok()?;
    if capacity == 0 || capacity > MOST_KEPT {
        return None;
    }
    Some(capacity)
}

/// Runs a keeper's cycles over the repositories that the step names, and returns their outcomes, in
/// order, and the gate.
fn outcomes<T: Threads + Wait + Sync>(
    shell: &Shell<'_, T>,
    step: &Step,
) -> Result<(Vec<Outcome>, Schedule)> {
    let parameters = Parameters::of_step(step)?;
    let (gate, limits) = (Schedule::new(parameters.rule), limits_of(parameters.most)?);
    let made = all_read(shell.files, shell.alloc, step.word(0)?)?;
    let rounds = rounds_of(shell.alloc, made.as_slice(), step.words_behind(5))?;
    let mut keeper = keeper_of(shell.alloc, made.as_slice(), step.word(4)?)?;
    let all = keeper.cycles(
        shell.threads,
        rounds.as_slice(),
        &limits,
        parameters.workers,
        &gate,
    )?;
    Ok((all, gate))
}

fn rounds_of<'a>(alloc: Global, made: &'a [Made], wanted: &'a [String]) -> Result<Vec<Round<'a>>> {
    let now = moment()?;
    let mut rounds = Vec::new(alloc);
    for one in made {
        let repo = &one.repo;
        rounds.extend_from_slice(&[Round { repo, now, wanted }])?;
    }
    Ok(rounds)
}

/// Returns the counts of each of the outcomes, and how many waits of the gate met their limit.
pub fn counted(alloc: Global, all: &[Outcome], gate: &Schedule) -> Result<Output> {
    let mut text = String::new(alloc);
    for outcome in all {
        push_counts(&mut text, outcome.stats())?;
    }
    writeln!(text, "late {}", gate.late())?;
    Ok(Output::printed(alloc, text))
}

fn push_counts(text: &mut String, stats: Stats) -> Result<()> {
    writeln!(
        text,
        "planned {}, taken over {}, alone {}",
        stats.planned, stats.taken_over, stats.alone
    )?;
    Ok(())
}
