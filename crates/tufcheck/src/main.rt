//! Verifies an update repository of TUF 1.0 that lies in two folders, one of metadata files and one
//! of target files.
#![tactic(auto)]

use std::process::ExitCode;

fn main(rt: HostRuntime) -> ExitCode {
    ExitCode::from(command::run(&rt, &rt, rt.alloc(), &mut rt.stdout(), &mut rt.stderr()))
}
