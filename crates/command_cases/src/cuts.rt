//! Verifications of a truncated file.

use crate::workers::by;
use anyhow::{Result, ensure};
use sessions::{Output, Step};
use std::alloc::Global;
use std::fs;
use std::io::Write;
use std::sync::Wait;
use std::thread::Threads;
use system_cases::Shell;

/// An output, and the number of lengths that led to it.
#[derive(Drop)]
struct Answer {
    output: Output,
    lengths: u32,
}

/// Truncates a file at each multiple of a step below its length, and verifies each time by several
/// numbers of workers. Returns each different output once, after the number of lengths that led to
/// it. Then restores the file.
pub fn cuts<T: Threads + Wait + Sync>(shell: &Shell<'_, T>, step: &Step) -> Result<Output> {
    let size = step.word(0)?.parse::<usize>()?;
    let name = step.word(1)?;
    let whole = fs::read(shell.rt, name)?;
    let answers = answers_of(shell, step, size, whole.as_slice())?;
    fs::write(shell.rt, name, whole.as_slice())?;
    all_printed(shell.alloc, answers.as_slice())
}

/// Returns the outputs for the beginnings of a file, whose lengths are the multiples of a step.
fn answers_of<T: Threads + Wait + Sync>(
    shell: &Shell<'_, T>,
    step: &Step,
    size: usize,
    whole: &[u8],
) -> Result<Vec<Answer>> {
    ensure!(size > 0, "no step");
    let mut cut: Vec<u8> = Vec::new(shell.alloc);
    let mut answers: Vec<Answer> = Vec::new(shell.alloc);
    for part in whole.chunks(size) {
        let output = verified(shell, step, cut.as_slice())?;
        count(&mut answers, output)?;
        cut.extend_from_slice(part)?;
    }
    Ok(answers)
}

/// Returns the output of a verification of the step's states if its file has these bytes, by each
/// of its numbers of workers.
fn verified<T: Threads + Wait + Sync>(
    shell: &Shell<'_, T>,
    step: &Step,
    bytes: &[u8],
) -> Result<Output> {
    fs::write(shell.rt, step.word(1)?, bytes)?;
    let (old, new) = (step.word(3)?, step.word(4)?);
    by(shell, step.word(2)?, old, new, step.words_behind(5))
}

/// Counts one more length that led to this output.
fn count(answers: &mut Vec<Answer>, output: Output) -> Result<()> {
    for answer in answers.iter_mut() {
        if answer.output.is(&output) {
            answer.lengths = answer.lengths.saturating_add(1);
            return Ok(());
        }
    }
    answers.push(Answer { output, lengths: 1 })?;
    Ok(())
}

/// Returns each output after the number of its lengths and its status.
fn all_printed(alloc: Global, answers: &[Answer]) -> Result<Output> {
    let mut all = Output::nothing(alloc);
    for answer in answers {
        let (lengths, status) = (answer.lengths, answer.output.status);
        writeln!(all.out, "{lengths} lengths, status {status}")?;
        all.out.extend_from_slice(answer.output.out.as_slice())?;
        all.err.extend_from_slice(answer.output.err.as_slice())?;
    }
    Ok(all)
}
