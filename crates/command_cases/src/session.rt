//! The commands of a session.

use crate::cuts::cuts;
use crate::narrow::{with_narrow_error, with_narrow_output};
use crate::program::{init, make, run};
use crate::workers::{verify, verify_by};
use anyhow::{Result, bail};
use sessions::{Output, Step};
use std::sync::Wait;
use std::thread::Threads;
use system_cases::{Shell, allow, change, clock, digests, failing, keeps, link, mode, state};

/// Runs a step, and returns its command's output. An error is why the step can't be run.
pub fn perform<T: Threads + Wait + Sync>(shell: &Shell<'_, T>, step: &Step) -> Result<Output> {
    match step.name()? {
        "tufcheck" => run(shell, step.words()),
        "make" => make(shell, step.script.as_slice()),
        "init" => init(shell, step),
        "verify" => verify(shell, step),
        "by" => verify_by(shell, step),
        "cuts" => cuts(shell, step),
        _ => perform_on_files(shell, step),
    }
}

/// Runs a step that changes files of the folder, or prints what they contain.
fn perform_on_files<T: Threads + Wait + Sync>(shell: &Shell<'_, T>, step: &Step) -> Result<Output> {
    match step.name()? {
        "change" => change(shell, step),
        "state" => state(shell, step),
        "keeps" => keeps(shell, step),
        "digests" => digests(shell),
        "link" => link(shell, step),
        "lock" => allow(shell, step, 0),
        "freeze" => allow(shell, step, 0o500),
        "unlock" => allow(shell, step, 0o700),
        "mode" => mode(shell, step),
        _ => perform_amiss(shell, step),
    }
}

/// Runs a step with a stream, a folder or a clock that fails.
fn perform_amiss<T: Threads + Wait + Sync>(shell: &Shell<'_, T>, step: &Step) -> Result<Output> {
    match step.name()? {
        "narrow" => with_narrow_output(shell, step),
        "deaf" => with_narrow_error(shell, step),
        "clock" => clock(shell, step.words()),
        "failing" => failing(shell, step),
        _ => bail!("no such command"),
    }
}
