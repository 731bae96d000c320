//! All sessions of a folder.

use crate::session::perform;
use sessions::run_all;
use std::alloc::Global;
use std::io::Write;
use std::sync::Wait;
use std::thread::Threads;
use system_cases::Shell;

/// Runs the sessions of the files `cases/NAME.t` of the current folder, and prints what [`run_all`]
/// does. The folder must contain `cases` and nothing else: each session begins with nothing beside
/// it, and what it makes is removed afterwards. Returns 0 if all output was as expected, else 1,
/// and 2 if the sessions couldn't be run, which is printed on standard error.
pub fn run_sessions<T: Threads + Wait + Sync, O: Write, E: Write>(
    rt: &HostRuntime,
    threads: &T,
    alloc: Global,
    out: &mut O,
    err: &mut E,
) -> u8 {
    let shell = Shell { rt, threads, alloc };
    match run_all(rt, alloc, out, ".t", |step| perform(&shell, step)) {
        Ok(0) => 0,
        Ok(_) => 1,
        Err(error) => {
            let _ = writeln!(err, "sessions: {error}");
            2
        }
    }
}
