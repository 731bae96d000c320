//! The input lines of a command.

use crate::room::CASES;
use anyhow::{Context, Result};
use std::alloc::Global;
use std::fs;

/// Returns the script of the lines, each ended by a line feed. `@NAME` means the lines of the file
/// `NAME.script` among the cases, and `@FIRST..LAST TEXT` a line TEXT for each number, in which
/// `{}` is the number, `{x}` the same in four hexadecimal digits, and `{+}` the one after it.
pub fn script_of(rt: &HostRuntime, alloc: Global, lines: &[String]) -> Result<String> {
    let mut script = String::new(alloc);
    for line in lines {
        push_spelled(rt, alloc, &mut script, line.as_str())?;
    }
    Ok(script)
}

/// Adds what the line means.
fn push_spelled(rt: &HostRuntime, alloc: Global, script: &mut String, line: &str) -> Result<()> {
    let Some(short) = line.strip_prefix("@") else {
        return push_line(script, line);
    };
    match short.split_once(" ") {
        None => push_prologue(rt, alloc, script, short),
        Some((range, line)) => push_repeats(alloc, script, range, line),
    }
}

fn push_line(script: &mut String, line: &str) -> Result<()> {
    script.push_str(line)?;
    script.push('\n')?;
    Ok(())
}

fn push_prologue(rt: &HostRuntime, alloc: Global, script: &mut String, name: &str) -> Result<()> {
    let path = format!(in alloc; "{CASES}/{name}.script")?;
    let lines = fs::read_to_string(rt, path.as_str()).context("no file of that name and .script")?;
    script.push_str(lines.as_str())?;
    Ok(())
}

fn push_repeats(alloc: Global, script: &mut String, range: &str, line: &str) -> Result<()> {
    let (first, last) = range.split_once("..").context("no range")?;
    let first = first.parse::<u32>()?;
    let last = last.parse::<u32>()?;
    for number in first..=last {
        push_numbered(alloc, script, number, line)?;
    }
    Ok(())
}

fn push_numbered(alloc: Global, script: &mut String, number: u32, line: &str) -> Result<()> {
    let next = format!(in alloc; "{}", number.saturating_add(1))?;
    let digits = format!(in alloc; "{number:04x}")?;
    let number = format!(in alloc; "{number}")?;
    let line = line.replace(alloc, "{x}", digits.as_str())?;
    let line = line.as_str().replace(alloc, "{}", number.as_str())?;
    let line = line.as_str().replace(alloc, "{+}", next.as_str())?;
    push_line(script, line.as_str())
}
