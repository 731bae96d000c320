//! The faults of a job.

ghost use Rattle.std.specs.Prelude.{◌≡◌};
ghost use Rattle.embed.specs.declared.fault.JobFault.TheVariants as fault;

use cjson::NoMemory;
use rolechain::StateFault;
use std::alloc::{AllocError, AllocFailed};
use thiserror::Error;

/// Why a job fails.
#[derive(Clone, Copy, Debug, PartialEq, Eq, Error)]
pub enum JobFault {
    /// Out of memory.
    #[error("out of memory")]
    Memory,
    /// The trusted state, or the first root, isn't one.
    #[error("not a trusted state")]
    State,
    /// A file's name or a wanted path isn't UTF-8.
    #[error("a name or path that is not UTF-8")]
    Name,
    /// The moment is past the year 9999.
    #[error("a moment past the year 9999")]
    Moment,
    /// The maximum number of roles isn't 1 to 256.
    #[error("a limit that is not 1 to 256")]
    Limit,
}

impl From<AllocError> for JobFault {
    ghost from_gives = { λ _ f. f ≡ fault.Memory };

    fn from(_error: AllocError) -> JobFault {
        JobFault::Memory
    }
}

impl<T: Drop> From<AllocFailed<T>> for JobFault {
    ghost from_gives = { λ _ f. f ≡ fault.Memory };

    fn from(_error: AllocFailed<T>) -> JobFault {
        JobFault::Memory
    }
}

impl From<NoMemory> for JobFault {
    ghost from_gives = { λ _ f. f ≡ fault.Memory };

    fn from(_error: NoMemory) -> JobFault {
        JobFault::Memory
    }
}

impl From<StateFault> for JobFault {
    ghost use Rattle.std.specs.Prelude.{◌≢◌};
    ghost use Rattle.rolechain.specs.declared.fault.StateFault.TheVariants as state;

    ghost from_gives = { λ e f. (e ≡ state.NoMemory → f ≡ fault.Memory)
        × (e ≢ state.NoMemory → f ≡ fault.State) };

    fn from(fault: StateFault) -> JobFault {
        match fault {
            StateFault::NoMemory => JobFault::Memory,
            StateFault::TooLong | StateFault::Malformed => JobFault::State,
        }
    }
}
