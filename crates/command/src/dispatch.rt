//! The command line with given arguments.

ghost use Rattle.std.specs.Prelude.{◌≡◌, ◌≤◌, ◌⊎◌, ◌↔◌, true, IfErr, IfOk};
ghost use Rattle.failure.specs.Failures.{is_callers};

use crate::carrying::carry_out;
use crate::reading::{has_progress, read_subcommand};
use crate::runtime::Runtime;
use crate::sampling::sample;
use clap::error::ErrorKind;
use failure::{Failure, tell_failure};
use inout::put;
use progress::Progress;
use std::alloc::Global;
use std::io::Write;
use std::sync::Wait;
use std::thread::Threads;

/// Carries out the command line of these arguments, those after the program's name, or verifies the
/// sample repository if there are none. Returns the exit status: 0 if all wanted targets are
/// accepted, 1 if one is refused, a file that is shown expires too soon or isn't there, a key or a
/// signature is refused or too few have signed, 2 if the update stopped or the root or another file
/// is refused, 3 for a usage error and 4 for a system error. Prints
/// lines to `out`, and the reason of an error to `err`. Files, clock and standard input are those
/// of `rt`, and `threads` starts the threads that decide checks in advance.
pub fn command<T: Threads + Wait + Sync, W: Write, E: Write>(
    rt: &HostRuntime,
    threads: &T,
    alloc: Global,
    words: &[String],
    out: &mut W,
    err: &mut E,
) -> u8
    ensures known { result ≤ 4 }
{
    if words.is_empty() {
        return status_of(sample(alloc, out), err);
    }
    let matches = match words::parse(alloc, words) {
        Ok(matches) => matches,
        Err(error) => return status_of(report_error(alloc, &error, out, err), err),
    };
    let subcommand = match read_subcommand(rt, alloc, &matches) {
        Ok(subcommand) => subcommand,
        Err(failure) => return status_of(Err(failure), err),
    };
    let progress = Progress::new(rt, alloc, has_progress(&matches));
    let run = Runtime::new(rt, threads, alloc, &progress);
    status_of(carry_out(&run, &subcommand, out).0, err)
}

/// Returns the exit status. Prints the line of a failure to `err`.
pub(crate) fn status_of<E: Write>(done: Result<u8, Failure>, err: &mut E) -> u8
    ensures status { IfOk done (λ status. result ≡ status) }
    ensures caller { IfErr done (λ failure. (result ≡ 3) ↔ (is_callers failure ≡ true)) }
    ensures failed { IfErr done (λ _. (result ≡ 3) ⊎ (result ≡ 4)) }
{
    match done {
        Ok(status) => status,
        Err(failure) => {
            let _ = tell_failure(failure, err);
            failure.status()
        }
    }
}

/// Prints what `clap` reports: help or the version to `out` with status 0, a usage error to `err`
/// with status 3.
fn report_error<W: Write, E: Write>(
    alloc: Global,
    error: &clap::Error,
    out: &mut W,
    err: &mut E,
) -> Result<u8, Failure>
    ensures status { IfOk result (λ status. (status ≡ 0) ⊎ (status ≡ 3)) }
{
    if error.kind() == ErrorKind::OutOfMemory {
        return Err(Failure::Memory);
    }
    let text = format!(in alloc; "{error}")?;
    if error.use_stderr() {
        let _ = put(err, text.as_str());
        return Ok(3);
    }
    put(out, text.as_str())?;
    Ok(0)
}
