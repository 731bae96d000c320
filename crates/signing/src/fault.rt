//! Why no key is made, and why no signature is attached.

ghost use Rattle.std.specs.Prelude.{◌≡◌, ◌≢◌};
ghost use Rattle.cjson.specs.declared.fault.DocFault.TheVariants as doc;
ghost use Rattle.signing.specs.declared.fault.AttachFault.TheVariants as attach;
ghost use Rattle.signing.specs.declared.fault.KeyFault.TheVariants as key;

use cjson::DocFault;
use std::alloc::AllocError;
use thiserror::Error;

/// Why bytes are no public key that counts, in the order of the checks.
#[derive(Clone, Copy, Debug, PartialEq, Eq, Error)]
pub enum KeyFault {
    /// They are neither 56 bytes nor 60, but this number.
    #[error("{0} bytes are no public key")]
    Length(usize),
    /// They are a key of HSS with this number of levels, and not with one.
    #[error("a key of HSS with {0} levels")]
    Levels(u32),
    /// Their two type codes aren't those of a supported kind.
    #[error("a key of another kind")]
    Kind,
    /// Out of memory.
    #[error("out of memory")]
    NoMemory,
}

/// Why a signature isn't valid, in the order of the checks (RFC 8554 section 5.4.2).
#[derive(Clone, Copy, Debug, PartialEq, Eq, Error)]
pub enum Invalid {
    /// It isn't written in hexadecimal digits.
    #[error("not hexadecimal")]
    Hexadecimal,
    /// It has the first number of bytes, and the key's signatures have the second.
    #[error("{0} bytes in place of {1}")]
    Length(usize, usize),
    /// Its type codes aren't the key's.
    #[error("of another kind than the key")]
    Kind,
    /// Its leaf is past the last of the key's tree.
    #[error("leaf {0} is past the last")]
    Leaf(u32),
    /// It leads to another root than the key's: by another key, or of another text.
    #[error("it leads to another root")]
    Root,
}

/// Why no signature is attached.
#[derive(Clone, Copy, Debug, PartialEq, Eq, Error)]
pub enum AttachFault {
    /// The file is malformed.
    #[error("{0}")]
    File(DocFault),
    /// The signature isn't valid.
    #[error("{0}")]
    Signature(Invalid),
    /// Out of memory.
    #[error("out of memory")]
    NoMemory,
}

impl From<AllocError> for KeyFault {
    ghost from_gives = { λ _ e. e ≡ key.NoMemory };

    fn from(_refused: AllocError) -> KeyFault {
        KeyFault::NoMemory
    }
}

impl From<AllocError> for AttachFault {
    ghost from_gives = { λ _ e. e ≡ attach.NoMemory };

    fn from(_refused: AllocError) -> AttachFault {
        AttachFault::NoMemory
    }
}

impl From<DocFault> for AttachFault {
    ghost from_gives = { λ f e. (f ≡ doc.NoMemory → e ≡ attach.NoMemory)
        × (f ≢ doc.NoMemory → e ≡ attach.File f) };

    fn from(fault: DocFault) -> AttachFault {
        match fault {
            DocFault::NoMemory => AttachFault::NoMemory,
            _ => AttachFault::File(fault),
        }
    }
}
