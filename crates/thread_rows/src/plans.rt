//! Plans of checks, without workers.

ghost use Rattle.std.specs.Prelude.{◌≤◌};

use crate::repositories::{Made, read};
use anyhow::{Result, ensure};
use board::MOST_CHECKS;
use plan::Plan;
use sessions::{Output, Step};
use std::alloc::Global;

/// Returns how many checks a plan has, and how many of them are true.
pub fn plan(rt: &HostRuntime, alloc: Global, step: &Step) -> Result<Output> {
    let most = step.word(1)?.parse::<usize>()?;
    ensure!(most <= MOST_CHECKS, "too many questions");
    let made = read(rt, alloc, step.word(0)?)?;
    let text = counted(alloc, &made, step.words_behind(2), most)?;
    Ok(Output::printed(alloc, text))
}

fn counted(alloc: Global, made: &Made, wanted: &[String], most: usize) -> Result<String>
    requires { most ≤ 4096 }
{
    let (trusted, repo) = (&made.trusted, &made.repo);
    let plan = Plan::of(alloc, trusted, repo, wanted, most)?;
    let valid = true_in(&plan)?;
    Ok(format!(in alloc; "{} questions, {valid} true\n", plan.len())?)
}

/// Returns how many checks of the plan are true.
fn true_in(plan: &Plan) -> Result<usize> {
    let mut valid: usize = 0;
    for j in 0..plan.len() {
        if plan.answer(j)? {
            valid = valid.saturating_add(1);
        }
    }
    Ok(valid)
}
