//! Why a copy can't be made.

ghost use Rattle.std.specs.Prelude.{◌≡◌, ◌≢◌};
ghost use Rattle.std.specs.IoError.{error_kind};
ghost use Rattle.folder.specs.declared.files.LoadFault.TheVariants as load;
ghost use Rattle.copies.specs.declared.fault.CopyFault.TheVariants as fault;

use folder::LoadFault;
use std::alloc::{AllocError, AllocFailed};
use std::io::{self, ErrorKind};
use thiserror::Error;

/// Why a copy of a file can't be made.
#[derive(Clone, Copy, Debug, PartialEq, Eq, Error)]
pub enum CopyFault {
    /// A call of the folder failed.
    #[error("the folder can't be read")]
    Folder,
    /// A copy can't be written.
    #[error("a copy can't be written")]
    Output,
    /// Out of memory.
    #[error("out of memory")]
    NoMemory,
}

impl From<AllocError> for CopyFault {
    ghost from_gives = { λ _ f. f ≡ fault.NoMemory };

    fn from(_error: AllocError) -> CopyFault {
        CopyFault::NoMemory
    }
}

impl<T: Drop> From<AllocFailed<T>> for CopyFault {
    ghost from_gives = { λ _ f. f ≡ fault.NoMemory };

    fn from(_error: AllocFailed<T>) -> CopyFault {
        CopyFault::NoMemory
    }
}

impl From<LoadFault> for CopyFault {
    ghost from_gives = { λ e f. (e ≡ load.Folder → f ≡ fault.Folder)
        × (e ≡ load.NoMemory → f ≡ fault.NoMemory) };

    fn from(error: LoadFault) -> CopyFault {
        match error {
            LoadFault::Folder => CopyFault::Folder,
            LoadFault::NoMemory => CopyFault::NoMemory,
        }
    }
}

/// Returns the fault for an error of a file: `NoMemory` if it was out of memory, else `Output`.
pub fn copy_fault(error: &io::Error) -> CopyFault
    ensures output { result ≡ fault.Output → error_kind error.now ≢ ErrorKind.OutOfMemory }
    ensures written { result ≢ fault.Folder }
{
    if error.kind() == ErrorKind::OutOfMemory {
        CopyFault::NoMemory
    } else {
        CopyFault::Output
    }
}
