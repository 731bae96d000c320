//! The output of a step.

use crate::case::Step;
use crate::files::{copy, folder, has, pad, put, remove, same};
use crate::output::Output;
use anyhow::{Error, Result};
use std::alloc::Global;

/// Returns the lines of a step's output. If the step can't be run, a line says why.
pub fn given_by<F: Fn(&Step) -> Result<Output>>(
    rt: &HostRuntime,
    alloc: Global,
    perform: &F,
    step: &Step,
) -> Result<Vec<String>>
    requires { F.IsAlwaysCallable perform.now }
{
    match done(rt, alloc, perform, step) {
        Ok(output) => output.lines(alloc),
        Err(error) => undone(alloc, error),
    }
}

fn undone(alloc: Global, error: Error) -> Result<Vec<String>> {
    let mut lines = Vec::new(alloc);
    lines.push(format!(in alloc; "the step can't be done: {error}")?)?;
    Ok(lines)
}

fn done<F: Fn(&Step) -> Result<Output>>(
    rt: &HostRuntime,
    alloc: Global,
    perform: &F,
    step: &Step,
) -> Result<Output>
    requires { F.IsAlwaysCallable perform.now }
{
    match step.name()? {
        "put" => put(rt, alloc, step),
        "copy" => copy(rt, alloc, step),
        "folder" => folder(rt, alloc, step),
        "remove" => remove(rt, alloc, step),
        "pad" => pad(rt, alloc, step),
        "has" => has(rt, alloc, step),
        "same" => same(rt, alloc, step),
        _ => perform(step),
    }
}
