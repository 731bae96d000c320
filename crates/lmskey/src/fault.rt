//! Why a run ends early.

ghost use Rattle.std.specs.Prelude.{◌≡◌, ◌≢◌, ◌↔◌, ◌⊎◌, true};
ghost use Rattle.std.specs.IoError.{error_kind};
ghost use Rattle.lmskey.specs.Statuses.{is_callers, is_leaves, is_of_leaves};
ghost use Rattle.lmskey.specs.declared.fault.RunFault.TheVariants as run;

use leaves::LeavesFault;
use std::alloc::{AllocError, AllocFailed};
use std::io::{self, ErrorKind};
use thiserror::Error;

/// Why a run ends early. It prints `lmskey: ` and the text.
#[derive(Clone, Copy, Debug, PartialEq, Eq, Error)]
pub enum RunFault {
    /// An argument isn't UTF-8, unknown or out of its range.
    #[error("words")]
    Words,
    /// The key file can't be read or locked, or isn't one.
    #[error("key file")]
    KeyFile,
    /// A file that is to be made is there already.
    #[error("exists")]
    Exists,
    /// The file of the leaves' values can't be read, or isn't one of the key.
    #[error("tree")]
    Tree,
    /// The log can't be read, or has a record of another key.
    #[error("log")]
    Log,
    /// A file that is to be signed can't be read.
    #[error("input")]
    Input,
    /// The system gives no random bytes.
    #[error("random")]
    Random,
    /// Nothing is signed, or no more.
    #[error("{0}")]
    Leaves(LeavesFault),
    /// A file or a line can't be written.
    #[error("output")]
    Output,
    /// Out of memory.
    #[error("memory")]
    Memory,
}

impl RunFault {
    /// Returns the exit status: 1 if the leaves file keeps the key from signing, 3 for a usage
    /// error, 4 for a system error.
    pub fn status(self) -> u8
        ensures leaves { (result ≡ 1) ↔ (is_leaves self ≡ true) }
        ensures caller { (result ≡ 3) ↔ (is_callers self ≡ true) }
        ensures known { (result ≡ 1) ⊎ ((result ≡ 3) ⊎ (result ≡ 4)) }
    {
        match self {
            RunFault::Leaves(fault) => status_of(fault),
            RunFault::Words | RunFault::KeyFile | RunFault::Exists | RunFault::Tree => 3,
            RunFault::Log | RunFault::Input | RunFault::Random => 4,
            RunFault::Output | RunFault::Memory => 4,
        }
    }
}

fn status_of(fault: LeavesFault) -> u8
    ensures leaves { (result ≡ 1) ↔ (is_of_leaves fault ≡ true) }
    ensures caller { (result ≡ 3) ↔ (fault ≡ LeavesFault.Key) }
    ensures known { (result ≡ 1) ⊎ ((result ≡ 3) ⊎ (result ≡ 4)) }
{
    match fault {
        LeavesFault::Missing | LeavesFault::Exists => 1,
        LeavesFault::Foreign | LeavesFault::Used => 1,
        LeavesFault::Key => 3,
        LeavesFault::Disk | LeavesFault::Output | LeavesFault::NoMemory => 4,
    }
}

impl From<AllocError> for RunFault {
    ghost from_gives = { λ _ f. f ≡ run.Memory };

    fn from(_refused: AllocError) -> RunFault {
        RunFault::Memory
    }
}

impl<T: Drop> From<AllocFailed<T>> for RunFault {
    ghost from_gives = { λ _ f. f ≡ run.Memory };

    fn from(_refused: AllocFailed<T>) -> RunFault {
        RunFault::Memory
    }
}

impl From<LeavesFault> for RunFault {
    ghost from_gives = { λ e f. f ≡ run.Leaves e };

    fn from(fault: LeavesFault) -> RunFault {
        RunFault::Leaves(fault)
    }
}

/// Returns the fault for an error of a file: `Memory` if it was out of memory, else `other`.
pub fn of_io(error: &io::Error, other: RunFault) -> RunFault
    ensures memory { error_kind error.now ≡ ErrorKind.OutOfMemory → result ≡ RunFault.Memory }
    ensures other { error_kind error.now ≢ ErrorKind.OutOfMemory → result ≡ other }
{
    if error.kind() == ErrorKind::OutOfMemory {
        RunFault::Memory
    } else {
        other
    }
}
