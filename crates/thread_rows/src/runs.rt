//! Cycles with workers, beside cycles on one thread.

use crate::gates::Schedule;
use crate::keepers::counted;
use crate::parameters::Parameters;
use crate::repositories::{Made, read};
use crate::shell::Shell;
use anyhow::{Context, Result};
use cycle::{Cycle, InMemory, Limits, Moment, Outcome, Round, follow_alone, run, run_alone};
use report::{Told, tell};
use sessions::{Output, Step};
use std::alloc::Global;
use std::sync::Wait;
use std::thread::Threads;

/// Returns the lines and the status of a run with workers.
pub fn lines<T: Threads + Wait + Sync>(shell: &Shell<'_, T>, step: &Step) -> Result<Output> {
    let (outcome, _) = ran_as(shell, step)?;
    output(shell.alloc, outcome, step.words_behind(4))
}

/// Returns the lines and the status of a cycle on one thread.
pub fn alone(rt: &HostRuntime, alloc: Global, step: &Step) -> Result<Output> {
    let made = read(rt, alloc, step.word(0)?)?;
    lines_alone(alloc, &made, step.words_behind(1))
}

/// Returns the same lines and status for the workflow up to the searches, ended by the target
/// files.
pub fn course(rt: &HostRuntime, alloc: Global, step: &Step) -> Result<Output> {
    let made = read(rt, alloc, step.word(0)?)?;
    let wanted = step.words_behind(1);
    let outcome = followed(alloc, &made, wanted)?;
    output(alloc, outcome, wanted)
}

/// Returns the counts of a run, and how many waits of its gate met their limit.
pub fn counts<T: Threads + Wait + Sync>(shell: &Shell<'_, T>, step: &Step) -> Result<Output> {
    let (outcome, gate) = ran_as(shell, step)?;
    counted(shell.alloc, &[outcome], &gate)
}

/// Returns how many checks entered, and how many waits of the gate met their limit.
pub fn entered<T: Threads + Wait + Sync>(shell: &Shell<'_, T>, step: &Step) -> Result<Output> {
    let (_, gate) = ran_as(shell, step)?;
    let (entered, late) = (gate.entered(), gate.late());
    let text = format!(in shell.alloc; "entered {entered}\nlate {late}\n")?;
    Ok(Output::printed(shell.alloc, text))
}

/// Returns whether a run with workers prints what a cycle on one thread prints, and how many waits
/// of its gate met their limit.
pub fn agrees<T: Threads + Wait + Sync>(shell: &Shell<'_, T>, step: &Step) -> Result<Output> {
    let parameters = Parameters::of_step(step)?;
    let made = read(shell.files, shell.alloc, step.word(0)?)?;
    let wanted = step.words_behind(4);
    let alone = lines_alone(shell.alloc, &made, wanted)?;
    let (is_same, gate) = prints_the_same(shell, &made, wanted, parameters, &alone)?;
    let word = if is_same { "yes" } else { "no" };
    let text = format!(in shell.alloc; "{word}\nlate {}\n", gate.late())?;
    Ok(Output::printed(shell.alloc, text))
}

/// Returns whether a run with workers prints this, and its gate.
pub fn prints_the_same<T: Threads + Wait + Sync>(
    shell: &Shell<'_, T>,
    made: &Made,
    wanted: &[String],
    parameters: Parameters,
    alone: &Output,
) -> Result<(bool, Schedule)> {
    let (outcome, gate) = ran(shell, made, wanted, parameters)?;
    let output = output(shell.alloc, outcome, wanted)?;
    Ok((output.is(alone), gate))
}

/// Returns what a cycle on one thread prints.
pub fn lines_alone(alloc: Global, made: &Made, wanted: &[String]) -> Result<Output> {
    let (trusted, repo) = (&made.trusted, &made.repo);
    let outcome = run_alone(alloc, trusted, repo, moment()?, wanted, &limits_of(0)?)?;
    output(alloc, outcome, wanted)
}

fn output(alloc: Global, outcome: Outcome, wanted: &[String]) -> Result<Output> {
    let mut output = Output::nothing(alloc);
    output.status = tell(alloc, &Told::plain(alloc, outcome), wanted, &mut output.out)?;
    Ok(output)
}

/// Runs a cycle as the step says, and returns its outcome and its gate.
fn ran_as<T: Threads + Wait + Sync>(
    shell: &Shell<'_, T>,
    step: &Step,
) -> Result<(Outcome, Schedule)> {
    let parameters = Parameters::of_step(step)?;
    let made = read(shell.files, shell.alloc, step.word(0)?)?;
    ran(shell, &made, step.words_behind(4), parameters)
}

fn ran<T: Threads + Wait + Sync>(
    shell: &Shell<'_, T>,
    made: &Made,
    wanted: &[String],
    parameters: Parameters,
) -> Result<(Outcome, Schedule)> {
    let (now, limits) = (moment()?, limits_of(parameters.most)?);
    let gate = Schedule::new(parameters.rule);
    let outcome = run(
        shell.threads,
        shell.alloc,
        &made.trusted,
        &made.repo,
        now,
        wanted,
        &limits,
        parameters.workers,
        &gate,
    )?;
    Ok((outcome, gate))
}

fn followed(alloc: Global, made: &Made, wanted: &[String]) -> Result<Outcome> {
    let (repo, now) = (&made.repo, moment()?);
    let course = follow_alone(&Cycle {
        alloc,
        trusted: &made.trusted,
        round: Round { repo, now, wanted },
        limits: limits_of(0)?,
    })?;
    let files = &repo.targets;
    Ok(course.close(alloc, &InMemory { alloc, files })?)
}

/// Returns the moment of a verification.
pub fn moment() -> Result<Moment> {
    Moment::read("2026-01-01T00:00:00Z").context("no moment")
}

/// Returns the limits for a plan of at most this number of checks.
pub fn limits_of(checks: usize) -> Result<Limits> {
    Limits::new(256, checks).context("too many questions")
}
