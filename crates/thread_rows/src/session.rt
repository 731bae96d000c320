//! The commands of a case.

use crate::boards::printed;
use crate::keepers::{cycles, kept};
use crate::plans::plan;
use crate::repositories::make;
use crate::runs::{agrees, alone, counts, course, entered, lines};
use crate::shell::Shell;
use crate::stress::stress;
use crate::walks::walk;
use anyhow::Result;
use sessions::{Output, Step};
use std::alloc::Global;
use std::sync::Wait;
use std::thread::Threads;

/// Runs a step, with the files of the folder and with threads, and returns the output of its
/// command. An error is why the step can't be run.
pub fn perform<T: Threads + Wait + Sync>(
    files: &HostRuntime,
    threads: &T,
    alloc: Global,
    step: &Step,
) -> Result<Output> {
    let shell = Shell {
        files,
        threads,
        alloc,
    };
    match step.name()? {
        "make" => make(files, alloc, step),
        "plan" => plan(files, alloc, step),
        "alone" => alone(files, alloc, step),
        "course" => course(files, alloc, step),
        "lines" => lines(&shell, step),
        "counts" => counts(&shell, step),
        "entered" => entered(&shell, step),
        "agrees" => agrees(&shell, step),
        "cycles" => cycles(&shell, step),
        "kept" => kept(&shell, step),
        "walk" => walk(&shell, step),
        "stress" => stress(&shell, step),
        _ => share(threads, alloc, step),
    }
}

/// Runs a step of a board, which reads no file.
fn share<R: Threads + Wait + Sync>(rt: &R, alloc: Global, step: &Step) -> Result<Output> {
    Ok(Output::printed(alloc, printed(rt, alloc, step)?))
}
