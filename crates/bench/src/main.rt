//! Times the slow parts of a verification.
//!
//! Without arguments it does nothing. With the argument `all` it prints a line for each part, and
//! with `ahead` one for each round of cycles with several numbers of workers.
#![tactic(auto)]

mod parts;
mod trouble;
mod workers;

use std::alloc::Global;
use std::env;
use std::io::Write;
use std::process::ExitCode;
use std::rt::{Clock, Env};
use std::sync::Wait;
use std::thread::Threads;
use trouble::Trouble;

fn main(rt: HostRuntime) -> ExitCode {
    let mut out = rt.stdout();
    match measured(&rt, &rt, rt.alloc(), &mut out) {
        Ok(()) => ExitCode::SUCCESS,
        Err(trouble) => {
            let _ = writeln!(rt.stderr(), "bench: {trouble}");
            ExitCode::FAILURE
        }
    }
}

fn measured<R: Env + Clock + AllocGlobal, T: Threads + Wait + Sync, W: Write>(
    rt: &R,
    threads: &T,
    alloc: Global,
    out: &mut W,
) -> Result<(), Trouble> {
    if is_asked(rt, "ahead")? {
        return workers::rounds(rt, threads, alloc, out);
    }
    if is_asked(rt, "all")? {
        return all(rt, alloc, out);
    }
    Ok(())
}

fn all<R: Clock, W: Write>(rt: &R, alloc: Global, out: &mut W) -> Result<(), Trouble> {
    let rate = parts::verifications(rt, alloc)?;
    writeln!(out, "verify W8 H5: {rate} per second")?;
    let step = parts::chain_step(rt, alloc)?;
    writeln!(out, "chain step: {step} ns")?;
    let speed = parts::canonical_speed(rt, alloc)?;
    writeln!(out, "canonical: {speed} MB/s")?;
    let stars = parts::pattern_time(rt, alloc)?;
    writeln!(out, "5,000 stars: {stars} us")?;
    Ok(())
}

/// Returns whether the first argument is this one.
fn is_asked<R: Env + AllocGlobal>(rt: &R, asked: &str) -> Result<bool, Trouble> {
    let mut words = env::args(rt)?.skip(1);
    let word = words.next();
    Ok(word.as_ref().map(String::as_str) == Some(asked))
}
