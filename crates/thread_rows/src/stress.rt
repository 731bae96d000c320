//! Many runs under drawn schedules.

use crate::gates::{Rule, mixed};
use crate::parameters::Parameters;
use crate::repositories::{Made, read};
use crate::runs::{lines_alone, prints_the_same};
use crate::shell::Shell;
use anyhow::Result;
use sessions::{Output, Step};
use std::sync::Wait;
use std::thread::Threads;

/// Returns how many of a number of runs print something else than a cycle on one thread.
pub fn stress<T: Threads + Wait + Sync>(shell: &Shell<'_, T>, step: &Step) -> Result<Output> {
    let runs = step.word(1)?.parse::<u64>()?;
    let seed = mixed(step.word(2)?.parse::<u64>()?);
    let made = read(shell.files, shell.alloc, step.word(0)?)?;
    let differing = differing(shell, &made, step.words_behind(3), runs, seed)?;
    let text = format!(in shell.alloc; "{runs} runs, {differing} differ\n")?;
    Ok(Output::printed(shell.alloc, text))
}

fn differing<T: Threads + Wait + Sync>(
    shell: &Shell<'_, T>,
    made: &Made,
    wanted: &[String],
    runs: u64,
    seed: u64,
) -> Result<u64> {
    let alone = lines_alone(shell.alloc, made, wanted)?;
    let mut differing: u64 = 0;
    for run in 0..runs {
        let parameters = drawn(mixed(seed ^ run));
        let (is_same, _) = prints_the_same(shell, made, wanted, parameters, &alone)?;
        if !is_same {
            differing = differing.saturating_add(1);
        }
    }
    Ok(differing)
}

/// Returns up to 8 workers with a plan of any length, and a gate at which none of them can wait for
/// long.
pub fn drawn(seed: u64) -> Parameters {
    let draw = mixed(seed);
    Parameters {
        workers: (draw % 9) as usize,
        most: if draw & 0x1000 == 0 { 4096 } else { 3 },
        rule: match (draw >> 16) % 4 {
            0 => Rule::Open,
            1 => Rule::HeldToEnd(0),
            _ => Rule::Random(seed),
        },
    }
}
