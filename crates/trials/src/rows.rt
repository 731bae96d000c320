//! All rows of a folder.

use anyhow::Result;
use sessions::{Output, Step, run_all};
use std::alloc::Global;
use std::io::Write;
use std::sync::Wait;
use std::thread::Threads;

/// Runs the rows of the files `cases/NAME.rows` of the current folder, as sessions are run, and
/// prints what [`run_all`] does. Returns 0 if all output was as expected, else 1, and 2 if the rows
/// couldn't be run, which is printed on standard error.
pub fn run_rows<T: Threads + Wait + Sync, O: Write, E: Write>(
    files: &HostRuntime,
    threads: &T,
    alloc: Global,
    out: &mut O,
    err: &mut E,
) -> u8 {
    match run_all(
        files,
        alloc,
        out,
        ".rows",
        |step| perform(files, threads, alloc, step),
    ) {
        Ok(0) => 0,
        Ok(_) => 1,
        Err(error) => {
            let _ = writeln!(err, "rows: {error}");
            2
        }
    }
}

/// Runs a step: of files and keys, of the cycle, or of threads.
fn perform<T: Threads + Wait + Sync>(
    files: &HostRuntime,
    threads: &T,
    alloc: Global,
    step: &Step,
) -> Result<Output> {
    if let Some(printed) = file_rows::Layers::new(files, alloc).printed(step)? {
        return Ok(Output::printed(alloc, printed));
    }
    if let Some(printed) = cycle_rows::Layers::new(files, alloc).printed(step)? {
        return Ok(Output::printed(alloc, printed));
    }
    thread_rows::perform(files, threads, alloc, step)
}
