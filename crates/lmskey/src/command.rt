//! The commands.

ghost use Rattle.std.specs.Prelude.{◌≤◌, IfOk};

use crate::fault::{RunFault, of_io};
use crate::making::make;
use crate::printing::put;
use crate::restoring::restore_leaves;
use crate::run::Run;
use crate::showing::show;
use crate::signatures::sign_files;
use crate::words::parse;
use clap::ArgMatches;
use clap::error::ErrorKind;
use lms::{Height, Width};
use std::alloc::Global;
use std::env;
use std::io::Write;
use std::rt::Env;

/// Carries out the command line of the process. Returns the exit status: 0 if it was done, 1 if the
/// leaves file keeps the key from signing, 3 for a usage error and 4 for a system error. Prints
/// lines to `out`, and the reason of an error to `err`.
pub fn run<W: Write, E: Write>(rt: &HostRuntime, out: &mut W, err: &mut E) -> u8
    ensures known { result ≤ 4 }
{
    match carry_out(rt, out, err) {
        Ok(status) => status,
        Err(fault) => {
            let _ = writeln!(err, "lmskey: {fault}");
            fault.status()
        }
    }
}

fn carry_out<W: Write, E: Write>(rt: &HostRuntime, out: &mut W, err: &mut E) -> Result<u8, RunFault>
    ensures { IfOk result (λ status. status ≤ 4) }
{
    let alloc = rt.alloc();
    let words = words_of(rt, alloc)?;
    let matches = match parse(alloc, words.as_slice()) {
        Ok(matches) => matches,
        Err(error) => return report(alloc, &error, out, err),
    };
    let (name, words) = matches.subcommand().ok_or(RunFault::Words)?;
    let key = words.get_str("KEY").ok_or(RunFault::Words)?;
    if name == "show" {
        show(&Run::new(rt, key, None)?, out)?;
        return Ok(0);
    }
    let run = Run::new(rt, key, log_of(words)?)?;
    match name {
        "new" => make(&run, width_of(words), height_of(words), out)?,
        "sign" => sign_of(&run, words, out)?,
        _ => restore_of(&run, words, out)?,
    }
    Ok(0)
}

/// Returns the arguments after the program's name. Fails with `Words` if one isn't UTF-8.
fn words_of<R: Env + AllocGlobal>(rt: &R, alloc: Global) -> Result<Vec<String>, RunFault> {
    let all = match env::args(rt) {
        Ok(all) => all,
        Err(error) => return Err(of_io(&error, RunFault::Words)),
    };
    let mut words = Vec::new(alloc);
    for word in all.skip(1) {
        words.push(word)?;
    }
    Ok(words)
}

/// Prints what `clap` reports: help or the version to `out`, a usage error to `err`.
fn report<W: Write, E: Write>(
    alloc: Global,
    error: &clap::Error,
    out: &mut W,
    err: &mut E,
) -> Result<u8, RunFault>
    ensures { IfOk result (λ status. status ≤ 4) }
{
    if error.kind() == ErrorKind::OutOfMemory {
        return Err(RunFault::Memory);
    }
    let text = format!(in alloc; "{error}")?;
    if error.use_stderr() {
        let _ = put(err, text.as_str());
        return Ok(3);
    }
    put(out, text.as_str())?;
    Ok(0)
}

/// Returns the path of the log. Fails with `Words` unless one is named or refused by `--no-log`.
fn log_of<'a>(words: &ArgMatches<'a>) -> Result<Option<&'a str>, RunFault> {
    match words.get_str("log") {
        Some(path) => Ok(Some(path)),
        None if words.get_flag("no-log") => Ok(None),
        None => Err(RunFault::Words),
    }
}

fn width_of(words: &ArgMatches<'_>) -> Width {
    match words.get_str("width") {
        Some("4") => Width::W4,
        _ => Width::W8,
    }
}

fn height_of(words: &ArgMatches<'_>) -> Height {
    match words.get_str("height") {
        Some("5") => Height::H5,
        Some("15") => Height::H15,
        _ => Height::H10,
    }
}

fn sign_of<W: Write>(run: &Run<'_>, words: &ArgMatches<'_>, out: &mut W) -> Result<(), RunFault> {
    let files = words.get_strs("FILE").ok_or(RunFault::Words)?;
    let suffix = words.get_str("suffix").ok_or(RunFault::Words)?;
    sign_files(run, files, suffix, out)
}

fn restore_of<W: Write>(
    run: &Run<'_>,
    words: &ArgMatches<'_>,
    out: &mut W,
) -> Result<(), RunFault> {
    let gap: Option<u32> = words.get_one("gap");
    restore_leaves(run, gap.ok_or(RunFault::Words)?, out)
}
