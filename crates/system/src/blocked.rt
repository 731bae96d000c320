//! Errors that say that no file can be put at a path.

ghost use Rattle.std.specs.Prelude.{◌≡◌};
ghost use Rattle.std.specs.IoError.{error_kind};
ghost use Rattle.system.specs.Blocked as spec;

use std::io::{self, ErrorKind};

/// Returns whether the error is that of the path, and not one of the whole system: a folder is
/// there, or what should be a folder is none; the path is on another device; or a name is too long
/// or malformed.
pub fn is_of_path(error: &io::Error) -> bool
    ensures test { result ≡ spec.is_of_path (error_kind error.now) }
{
    matches!(
        error.kind(),
        ErrorKind::AlreadyExists
            | ErrorKind::CrossesDevices
            | ErrorKind::DirectoryNotEmpty
            | ErrorKind::FilesystemLoop
            | ErrorKind::InvalidFilename
            | ErrorKind::InvalidInput
            | ErrorKind::IsADirectory
            | ErrorKind::NotADirectory
            | ErrorKind::TooManyLinks
    )
}
