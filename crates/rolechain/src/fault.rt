//! The faults of a trusted state's text.

ghost use Rattle.std.specs.Prelude.{◌≡◌};
ghost use Rattle.cjson.specs.declared.fault.ReadFault.TheVariants as read;
ghost use Rattle.rolechain.specs.declared.fault.StateFault.TheVariants as state;

use cjson::{NoMemory, ReadFault};
use std::alloc::AllocError;
use thiserror::Error;

/// Why a trusted state can't be read.
#[derive(Clone, Copy, Debug, PartialEq, Eq, Error)]
pub enum StateFault {
    /// A file is longer than the limit of its kind.
    #[error("a file is too long")]
    TooLong,
    /// The text isn't that of a state, or a file is malformed.
    #[error("not of the form")]
    Malformed,
    /// Out of memory.
    #[error("out of memory")]
    NoMemory,
}

impl From<NoMemory> for StateFault {
    ghost from_gives = { λ _ e. e ≡ state.NoMemory };

    fn from(_refused: NoMemory) -> StateFault {
        StateFault::NoMemory
    }
}

impl From<AllocError> for StateFault {
    ghost from_gives = { λ _ e. e ≡ state.NoMemory };

    fn from(_refused: AllocError) -> StateFault {
        StateFault::NoMemory
    }
}

impl From<ReadFault> for StateFault {
    ghost from_gives = { λ r e. (r ≡ read.Malformed → e ≡ state.Malformed)
        × (r ≡ read.NoMemory → e ≡ state.NoMemory) };

    fn from(fault: ReadFault) -> StateFault {
        match fault {
            ReadFault::Malformed => StateFault::Malformed,
            ReadFault::NoMemory => StateFault::NoMemory,
        }
    }
}
