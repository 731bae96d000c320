//! The parameters of a run with workers.

ghost use Rattle.std.specs.Prelude.{◌≤◌};

use crate::gates::Rule;
use anyhow::{Result, ensure};
use sessions::Step;

/// The parameters of a run with workers.
#[derive(Clone, Copy)]
pub struct Parameters {
    /// Number of workers, at most 64.
    pub workers: usize,
    /// Maximum number of checks of the plan.
    pub most: usize,
    /// The rule of the gate.
    pub rule: Rule,
    ghost few: { workers ≤ 64 },
}

impl Parameters {
    /// Reads the words after the repository's name: the workers, the maximum number of checks and
    /// the gate.
    pub fn of_step(step: &Step) -> Result<Parameters> {
        let workers = step.word(1)?.parse::<usize>()?;
        ensure!(workers <= 64, "too many workers");
        Ok(Parameters {
            workers,
            most: step.word(2)?.parse::<usize>()?,
            rule: Rule::of_word(step.word(3)?)?,
        })
    }
}
