//! The report of all cases.

use crate::case::{Step, steps_of};
use crate::compare::is_as_expected;
use crate::given::given_by;
use crate::output::Output;
use crate::room;
use anyhow::{Context, Result};
use std::alloc::Global;
use std::fs;
use std::io::Write;

/// The number of steps of a case, and the lines to print for those that differ.
#[derive(Drop)]
struct Report {
    steps: usize,
    differences: String,
}

/// Runs the sessions in the files of the folder `cases` whose names have this ending, in order of
/// their names. Prints a report of each, and returns how many differ. Each session starts with
/// nothing but the folder `cases`, and what it made is removed afterwards. `perform` runs the steps
/// whose commands this crate hasn't; its error is why a step can't be run.
pub fn run_all<F: Fn(&Step) -> Result<Output>, W: Write>(
    rt: &HostRuntime,
    alloc: Global,
    out: &mut W,
    ending: &str,
    perform: F,
) -> Result<u32>
    requires { F.IsAlwaysCallable perform }
{
    room::check(rt, alloc)?;
    let mut differing: u32 = 0;
    let names = room::names(rt, alloc, ending)?;
    for name in names.iter() {
        if differs(rt, alloc, out, &perform, name.as_str())? {
            differing = differing.saturating_add(1);
        }
    }
    writeln!(out, "{} cases, differing: {differing}", names.len())?;
    Ok(differing)
}

/// Runs the session of that file, prints its report, and removes what it made. Returns whether a
/// step's output differs from the expected one.
fn differs<F: Fn(&Step) -> Result<Output>, W: Write>(
    rt: &HostRuntime,
    alloc: Global,
    out: &mut W,
    perform: &F,
    name: &str,
) -> Result<bool>
    requires { F.IsAlwaysCallable perform.now }
{
    let report = report_of(rt, alloc, perform, name)?;
    room::clear(rt, alloc)?;
    let (steps, differences) = (report.steps, report.differences.as_str());
    write!(out, "{name}: {steps} steps\n{differences}")?;
    Ok(!differences.is_empty())
}

fn report_of<F: Fn(&Step) -> Result<Output>>(
    rt: &HostRuntime,
    alloc: Global,
    perform: &F,
    name: &str,
) -> Result<Report>
    requires { F.IsAlwaysCallable perform.now }
{
    let steps = steps_in(rt, alloc, name)?;
    let mut differences = String::new(alloc);
    for step in steps.iter() {
        compare(rt, alloc, perform, step, &mut differences)?;
    }
    Ok(Report {
        steps: steps.len(),
        differences,
    })
}

/// Reads the steps of the session of that file.
fn steps_in(rt: &HostRuntime, alloc: Global, name: &str) -> Result<Vec<Step>> {
    let path = format!(in alloc; "{}/{name}", room::CASES)?;
    let text = fs::read_to_string(rt, path.as_str())?;
    steps_of(alloc, text.as_str()).context(format_args!("{name}"))
}

/// Runs a step, and adds its output if that differs from the expected one.
fn compare<F: Fn(&Step) -> Result<Output>>(
    rt: &HostRuntime,
    alloc: Global,
    perform: &F,
    step: &Step,
    differences: &mut String,
) -> Result<()>
    requires { F.IsAlwaysCallable perform.now }
{
    let given = given_by(rt, alloc, perform, step)?;
    if !is_as_expected(alloc, step.expected.as_slice(), given.as_slice())? {
        writeln!(differences, "line {}: {}", step.line, step.command)?;
        push_marked(differences, "-", step.expected.as_slice())?;
        push_marked(differences, "+", given.as_slice())?;
    }
    Ok(())
}

fn push_marked(text: &mut String, mark: &str, lines: &[String]) -> Result<()> {
    for line in lines {
        writeln!(text, "{mark} {line}")?;
    }
    Ok(())
}
