//! Signs with LMS keys whose leaves can't be used twice.
#![tactic(auto)]

mod command;
mod fault;
mod making;
mod printing;
mod restoring;
mod run;
mod showing;
mod signatures;
mod words;

use std::process::ExitCode;

fn main(rt: HostRuntime) -> ExitCode {
    ExitCode::from(command::run(&rt, &mut rt.stdout(), &mut rt.stderr()))
}
