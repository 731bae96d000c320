//! The faults of files.

ghost use Rattle.std.specs.Prelude.{◌≡◌};
ghost use Rattle.cjson.specs.declared.fault.ReadFault.TheVariants as read;
ghost use Rattle.meta.specs.declared.fault.Fault.TheVariants as fault;
ghost use Rattle.meta.specs.declared.fault.Stop.TheVariants as stop;

use cjson::{NoMemory, ReadFault};
use std::alloc::AllocError;
use thiserror::Error;

/// Why a file is refused (TUF 1.0 section 5): the first check that it fails, in this order of the
/// checks: listed, present, limit, length, hashes, form, signatures, version, rollback, expiry.
#[derive(Clone, Copy, Debug, PartialEq, Eq, Error)]
pub enum Fault {
    /// The snapshot has no listing for the role.
    #[error("not listed")]
    NotListed = 1,
    /// The repository has no file of that name.
    #[error("missing")]
    Missing = 2,
    /// The file is longer than its kind's limit.
    #[error("over the limit")]
    TooLong = 3,
    /// The file has another length than listed.
    #[error("of another length than listed")]
    LengthWrong = 4,
    /// A listed digest of a known algorithm isn't the file's.
    #[error("of another digest than listed")]
    HashWrong = 5,
    /// Digests are listed, but none of a known algorithm.
    #[error("listed without a known digest")]
    NoKnownHash = 6,
    /// The file is malformed.
    #[error("not of the form")]
    Malformed = 7,
    /// Fewer distinct keys signed than the role's threshold.
    #[error("signed by too few keys")]
    Unsigned = 8,
    /// The version isn't the expected one.
    #[error("of another version than due")]
    VersionWrong = 9,
    /// The file falls below what is trusted, or leaves out a name.
    #[error("below what is trusted")]
    Rollback = 10,
    /// The file expires no later than the given moment.
    #[error("expired")]
    Expired = 11,
}

/// Why the checks of a file end early.
#[derive(Clone, Copy, Debug, PartialEq, Eq, Error)]
pub enum Stop {
    /// The file is refused.
    #[error("the file is refused")]
    Refused(Fault),
    /// Out of memory.
    #[error("out of memory")]
    NoMemory,
}

impl From<Fault> for Stop {
    ghost from_gives = { λ f e. e ≡ stop.Refused f };

    fn from(fault: Fault) -> Stop {
        Stop::Refused(fault)
    }
}

impl From<ReadFault> for Stop {
    ghost from_gives = { λ f e. (f ≡ read.Malformed → e ≡ stop.Refused fault.Malformed)
        × (f ≡ read.NoMemory → e ≡ stop.NoMemory) };

    fn from(fault: ReadFault) -> Stop {
        match fault {
            ReadFault::Malformed => Stop::Refused(Fault::Malformed),
            ReadFault::NoMemory => Stop::NoMemory,
        }
    }
}

impl From<NoMemory> for Stop {
    ghost from_gives = { λ _ e. e ≡ stop.NoMemory };

    fn from(_refused: NoMemory) -> Stop {
        Stop::NoMemory
    }
}

impl From<AllocError> for Stop {
    ghost from_gives = { λ _ e. e ≡ stop.NoMemory };

    fn from(_refused: AllocError) -> Stop {
        Stop::NoMemory
    }
}
