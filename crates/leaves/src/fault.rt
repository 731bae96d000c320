//! Why nothing is signed, or no more.

ghost use Rattle.std.specs.Prelude.{◌≡◌};
ghost use Rattle.leaves.specs.declared.fault.LeavesFault.TheVariants as fault;

use std::alloc::{AllocError, AllocFailed};
use thiserror::Error;

/// Why nothing is signed, or no more.
#[derive(Clone, Copy, Debug, PartialEq, Eq, Error)]
pub enum LeavesFault {
    /// The leaves file is missing.
    #[error("the leaves file is missing")]
    Missing,
    /// There is a leaves file already.
    #[error("there is a leaves file already")]
    Exists,
    /// The leaves file isn't one of this key.
    #[error("the leaves file is not one of this key")]
    Foreign,
    /// The key has fewer leaves left.
    #[error("the key has fewer leaves left")]
    Used,
    /// The key in memory gave up or used the leaf before, or its stored values aren't its own.
    #[error("the key does not sign")]
    Key,
    /// The leaves file can't be read or stored.
    #[error("the leaves file can't be read or stored")]
    Disk,
    /// A signature can't be handed out.
    #[error("a signature can't be written")]
    Output,
    /// Out of memory.
    #[error("out of memory")]
    NoMemory,
}

impl From<AllocError> for LeavesFault {
    ghost from_gives = { λ _ e. e ≡ fault.NoMemory };

    fn from(_refused: AllocError) -> LeavesFault {
        LeavesFault::NoMemory
    }
}

impl<T: Drop> From<AllocFailed<T>> for LeavesFault {
    ghost from_gives = { λ _ e. e ≡ fault.NoMemory };

    fn from(_refused: AllocFailed<T>) -> LeavesFault {
        LeavesFault::NoMemory
    }
}
