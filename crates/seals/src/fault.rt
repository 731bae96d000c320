//! Why no file or repository is made.

ghost use Rattle.std.specs.Prelude.{◌≡◌};
ghost use Rattle.lms.specs.declared.signer.SignFault.TheVariants as sign;
ghost use Rattle.seals.specs.declared.fault.MakeFault.TheVariants as fault;

use lms::SignFault;
use std::alloc::{AllocError, AllocFailed};
use thiserror::Error;

/// Why no file or repository is made.
#[derive(Clone, Copy, Debug, PartialEq, Eq, Error)]
pub enum MakeFault {
    /// The script is invalid at this line, counted from 1.
    #[error("the script can't be followed at line {0}")]
    Script(usize),
    /// A key has signed as often as its height allows: 32 times at height 5, 1,024 times at height
    /// 10, 32,768 times at height 15.
    #[error("all leaves of a key are used")]
    Used,
    /// Out of memory.
    #[error("out of memory")]
    NoMemory,
}

impl From<AllocError> for MakeFault {
    ghost from_gives = { λ _ e. e ≡ fault.NoMemory };

    fn from(_refused: AllocError) -> MakeFault {
        MakeFault::NoMemory
    }
}

impl<T: Drop> From<AllocFailed<T>> for MakeFault {
    ghost from_gives = { λ _ e. e ≡ fault.NoMemory };

    fn from(_refused: AllocFailed<T>) -> MakeFault {
        MakeFault::NoMemory
    }
}

impl From<SignFault> for MakeFault {
    ghost from_gives = { λ s e. (s ≡ sign.Used → e ≡ fault.Used)
        × (s ≡ sign.NoMemory → e ≡ fault.NoMemory) };

    fn from(fault: SignFault) -> MakeFault {
        match fault {
            SignFault::Used => MakeFault::Used,
            SignFault::NoMemory => MakeFault::NoMemory,
        }
    }
}
