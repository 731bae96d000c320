//! Why a measurement ends early.

use cjson::{Canon, NoMemory, ReadFault};
use cycle::StateFault;
use lms::SignFault;
use seals::MakeFault;
use std::alloc::{AllocError, AllocFailed};
use std::io;
use thiserror::Error;

/// Why nothing was measured.
#[derive(Debug, Drop, Error)]
pub enum Trouble {
    /// The clock or the arguments can't be read, or a line can't be written.
    #[error("a refusal of the system")]
    System(#[from] io::Error),
    /// Out of memory.
    #[error("out of memory")]
    Memory,
    /// What was made for the measurement isn't what it has to be.
    #[error("a part is not as it was made")]
    Part,
}

impl From<AllocError> for Trouble {
    fn from(_error: AllocError) -> Trouble {
        Trouble::Memory
    }
}

impl<T: Drop> From<AllocFailed<T>> for Trouble {
    fn from(_error: AllocFailed<T>) -> Trouble {
        Trouble::Memory
    }
}

impl From<NoMemory> for Trouble {
    fn from(_error: NoMemory) -> Trouble {
        Trouble::Memory
    }
}

impl From<SignFault> for Trouble {
    fn from(_error: SignFault) -> Trouble {
        Trouble::Memory
    }
}

impl From<ReadFault> for Trouble {
    fn from(_error: ReadFault) -> Trouble {
        Trouble::Part
    }
}

impl From<StateFault> for Trouble {
    fn from(_error: StateFault) -> Trouble {
        Trouble::Part
    }
}

impl From<MakeFault> for Trouble {
    fn from(_error: MakeFault) -> Trouble {
        Trouble::Part
    }
}

impl From<Canon> for Trouble {
    fn from(_error: Canon) -> Trouble {
        Trouble::Part
    }
}
