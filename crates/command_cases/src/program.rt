//! Runs of the program.

use anyhow::Result;
use command::command;
use sessions::{Output, Step, script_of, words_of};
use std::alloc::Global;
use std::fs;
use std::io::Write;
use std::sync::Wait;
use std::thread::Threads;
use system_cases::{NOW, Shell, push_word, push_words};

/// Runs the command line with these arguments.
pub fn run<T: Threads + Wait + Sync>(shell: &Shell<'_, T>, words: &[String]) -> Result<Output> {
    let mut output = Output::nothing(shell.alloc);
    output.status = status(shell, words, &mut output.out, &mut output.err);
    Ok(output)
}

/// Runs the command line with these arguments and outputs, and returns its status.
pub fn status<T: Threads + Wait + Sync, O: Write, E: Write>(
    shell: &Shell<'_, T>,
    words: &[String],
    out: &mut O,
    err: &mut E,
) -> u8 {
    command(shell.rt, shell.threads, shell.alloc, words, out, err)
}

/// Runs the command line with the words of a line as arguments.
fn run_line<T: Threads + Wait + Sync>(shell: &Shell<'_, T>, line: &str) -> Result<Output> {
    let words = words_of(shell.alloc, line)?;
    run(shell, words.as_slice())
}

/// Makes the script's files in place of the folders `metadata` and `targets`.
pub fn make<T: Threads + Wait + Sync>(shell: &Shell<'_, T>, lines: &[String]) -> Result<Output> {
    empty(shell.rt, "metadata")?;
    empty(shell.rt, "targets")?;
    let script = script_of(shell.rt, shell.alloc, lines)?;
    fs::write(shell.rt, "script", script.as_str())?;
    run_line(shell, "make script .")
}

/// Makes an empty folder in place of what is there.
fn empty(rt: &HostRuntime, folder: &str) -> Result<()> {
    if fs::exists(rt, folder)? {
        fs::remove_dir_all(rt, folder)?;
    }
    Ok(fs::create_dir(rt, folder)?)
}

/// Trusts the root of version 1.
pub fn init<T: Threads + Wait + Sync>(shell: &Shell<'_, T>, step: &Step) -> Result<Output> {
    let state = step.word(0)?;
    let line = format!(in shell.alloc; "init metadata/1.root.json --out {state}")?;
    run_line(shell, line.as_str())
}

/// Verifies the folders `metadata` and `targets` from the state `old`, with further arguments.
pub fn verify_from<T: Threads + Wait + Sync>(
    shell: &Shell<'_, T>,
    old: &str,
    new: &str,
    more: &[String],
) -> Result<Output> {
    let line = format!(in shell.alloc;
        "verify --state {old} --metadata metadata --targets targets --out {new}"
    )?;
    let mut words = words_of(shell.alloc, line.as_str())?;
    push_moment(shell.alloc, &mut words, more)?;
    push_words(&mut words, more)?;
    run(shell, words.as_slice())
}

/// Adds the moment, unless the further arguments name one.
fn push_moment(alloc: Global, words: &mut Vec<String>, more: &[String]) -> Result<()> {
    if more.iter().any(|word| word.as_str() == "--now") {
        return Ok(());
    }
    push_word(alloc, words, "--now")?;
    push_word(alloc, words, NOW)
}
