//! The arguments of the process.

ghost use Rattle.std.specs.Prelude.{◌≤◌};

use crate::dispatch::{command, status_of};
use failure::{Failure, of_io};
use std::alloc::Global;
use std::env;
use std::io::Write;
use std::rt::Env;
use std::sync::Wait;
use std::thread::Threads;

/// Carries out the command line of the process, and returns the exit status, as [`command`] does.
pub fn run<T: Threads + Wait + Sync, W: Write, E: Write>(
    rt: &HostRuntime,
    threads: &T,
    alloc: Global,
    out: &mut W,
    err: &mut E,
) -> u8
    ensures known { result ≤ 4 }
{
    match words_of(rt, alloc) {
        Ok(words) => command(rt, threads, alloc, words.as_slice(), out, err),
        Err(failure) => status_of(Err(failure), err),
    }
}

/// Returns the arguments after the program's name. Fails with `Words` if one isn't UTF-8.
fn words_of<R: Env + AllocGlobal>(rt: &R, alloc: Global) -> Result<Vec<String>, Failure> {
    let all = env::args(rt).map_err(|error| of_io(&error, Failure::Words))?;
    let mut words = Vec::new(alloc);
    for word in all.skip(1) {
        words.push(word)?;
    }
    Ok(words)
}
