//! Verifications by several numbers of workers.

use crate::program::verify_from;
use anyhow::{Context, Result, bail};
use sessions::{Output, Step};
use std::fs;
use std::sync::Wait;
use std::thread::Threads;
use system_cases::{Shell, push_word, push_words};

/// The output of a verification, and the state that is at its place afterwards, if there is one.
#[derive(Drop)]
struct Ran {
    output: Output,
    state: Option<Vec<u8>>,
}

impl Ran {
    fn is(&self, other: &Ran) -> bool {
        self.state == other.state && self.output.is(&other.output)
    }
}

/// Verifies as the step says: from one state to another, with further arguments.
pub fn verify<T: Threads + Wait + Sync>(shell: &Shell<'_, T>, step: &Step) -> Result<Output> {
    verify_from(shell, step.word(0)?, step.word(1)?, step.words_behind(2))
}

/// Verifies as the step says by each of the numbers of workers that its first word lists.
pub fn verify_by<T: Threads + Wait + Sync>(shell: &Shell<'_, T>, step: &Step) -> Result<Output> {
    let (old, new) = (step.word(1)?, step.word(2)?);
    by(shell, step.word(0)?, old, new, step.words_behind(3))
}

/// Verifies by each of the numbers of workers, which are separated by commas, and returns the
/// output of the first run. Fails if another one prints or stores something else.
pub fn by<T: Threads + Wait + Sync>(
    shell: &Shell<'_, T>,
    numbers: &str,
    old: &str,
    new: &str,
    more: &[String],
) -> Result<Output> {
    let mut first: Option<Ran> = None;
    for number in numbers.split(",") {
        let next = verify_with(shell, number, old, new, more)?;
        let Some(ran) = &first else {
            first = Some(next);
            continue;
        };
        if !ran.is(&next) {
            bail!("{number} workers print or store something else");
        }
    }
    Ok(first.context("no number")?.output)
}

/// Verifies by that number of workers.
fn verify_with<T: Threads + Wait + Sync>(
    shell: &Shell<'_, T>,
    number: &str,
    old: &str,
    new: &str,
    more: &[String],
) -> Result<Ran> {
    let mut words = Vec::new(shell.alloc);
    push_word(shell.alloc, &mut words, "--workers")?;
    push_word(shell.alloc, &mut words, number)?;
    push_words(&mut words, more)?;
    let output = verify_from(shell, old, new, words.as_slice())?;
    let state = state_at(shell.rt, new)?;
    Ok(Ran { output, state })
}

/// Returns the state of that name, if there is one.
fn state_at(rt: &HostRuntime, name: &str) -> Result<Option<Vec<u8>>> {
    if !fs::exists(rt, name)? {
        return Ok(None);
    }
    Ok(Some(fs::read(rt, name)?))
}
