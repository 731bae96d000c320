//! Why a line of a script is refused.

ghost use Rattle.std.specs.Prelude.{◌≢◌};

use cjson::{Canon, NoMemory};
use seals::MakeFault;
use std::alloc::AllocError;
use thiserror::Error;

/// Why a line of a script is refused.
#[derive(Debug, Drop, Error)]
pub enum Refusal {
    /// The line is invalid.
    #[error("the line can't be followed")]
    Line,
    /// Out of memory.
    #[error("out of memory")]
    Memory(#[from(alloc)] AllocError),
}

impl Refusal {
    /// Returns the fault of the script at a line, counted from 1.
    pub fn at(self, line: usize) -> MakeFault
        ensures not_used { result ≢ MakeFault.Used }
    {
        match self {
            Refusal::Line => MakeFault::Script(line),
            Refusal::Memory(_) => MakeFault::NoMemory,
        }
    }
}

impl From<NoMemory> for Refusal {
    fn from(_refused: NoMemory) -> Refusal {
        Refusal::Memory(AllocError)
    }
}

impl From<Canon> for Refusal {
    fn from(fault: Canon) -> Refusal {
        match fault {
            Canon::Float => Refusal::Line,
            Canon::NoMemory => Refusal::Memory(AllocError),
        }
    }
}

impl From<MakeFault> for Refusal {
    fn from(fault: MakeFault) -> Refusal {
        match fault {
            MakeFault::Script(_) | MakeFault::Used => Refusal::Line,
            MakeFault::NoMemory => Refusal::Memory(AllocError),
        }
    }
}
