//! How a cycle ends.

ghost use Rattle.std.specs.Prelude.{◌≡◌};
ghost use Rattle.rolechain.specs.Advance as spec;

use meta::{Fault, Stop};

/// The steps of a cycle, in order (TUF 1.0 sections 5.3 to 5.6).
#[derive(Clone, Copy, Debug, PartialEq, Eq)]
pub enum Step {
    Root,
    Timestamp,
    Snapshot,
    Targets,
}

/// How a cycle ended.
#[derive(Clone, Copy, Debug, PartialEq, Eq)]
pub enum End {
    /// The timestamp, the snapshot and the top-level targets file are trusted and unexpired.
    Ready,
    /// The step's file has the fault. What was trusted before stays.
    Stopped(Step, Fault),
}

/// Why a cycle ends before its last step.
#[derive(Clone, Copy)]
pub(crate) enum Halt {
    /// The step's file has the fault.
    Stopped(Step, Fault),
    /// Out of memory.
    NoMemory,
}

/// Returns the result of a step's checks. If they end early, the cycle ends in that step.
pub(crate) fn or_halt<A: Drop>(step: Step, answer: Result<A, Stop>) -> Result<A, Halt>
    ensures { result ≡ spec.or_halt step answer }
{
    match answer {
        Ok(value) => Ok(value),
        Err(Stop::Refused(fault)) => Err(Halt::Stopped(step, fault)),
        Err(Stop::NoMemory) => Err(Halt::NoMemory),
    }
}
