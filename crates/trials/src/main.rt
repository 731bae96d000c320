//! Runs sessions of the command line, which cover normal use, usage errors and system errors, and
//! mirrors that serve one repository after another: newer, older, changed, truncated or made to
//! cost. Then it runs rows of worked values, of one file and one key, of the cycle, and of threads
//! that share a board, which gates block at chosen places. Prints a line for each file, with the
//! steps whose output differs from the expected one.
//!
//! Takes no arguments. Runs in a folder that contains the folder `cases` and nothing else. The
//! status is 0 if all output was as expected, else 1, and 2 if something couldn't be run.
#![tactic(auto)]

mod rows;

use command_cases::run_sessions;
use rows::run_rows;
use std::process::ExitCode;

fn main(rt: HostRuntime) -> ExitCode {
    let (mut out, mut err) = (rt.stdout(), rt.stderr());
    let sessions = run_sessions(&rt, &rt, rt.alloc(), &mut out, &mut err);
    let rows = run_rows(&rt, &rt, rt.alloc(), &mut out, &mut err);
    ExitCode::from(sessions.max(rows))
}
