//! The errors of readers and documents.

ghost use Rattle.std.specs.Prelude.{◌≡◌};
ghost use Rattle.cjson.specs.declared.fault.Canon.TheVariants as canon;
ghost use Rattle.cjson.specs.declared.fault.DocFault.TheVariants as doc;
ghost use Rattle.cjson.specs.declared.fault.ReadFault.TheVariants as read;

use json::Invalid;
use std::alloc::{AllocError, AllocFailed};
use thiserror::Error;

/// Out of memory.
#[derive(Clone, Copy, Debug, PartialEq, Eq, Error)]
#[error("out of memory")]
pub struct NoMemory;

/// Why a tree has no canonical text.
#[derive(Clone, Copy, Debug, PartialEq, Eq, Error)]
pub enum Canon {
    /// A number in the tree isn't whole, or is below -2^63 or above 2^64 - 1.
    #[error("a number is not whole")]
    Float,
    /// Out of memory.
    #[error("out of memory")]
    NoMemory,
}

/// Why a file isn't a document, in the order of the checks.
#[derive(Clone, Copy, Debug, PartialEq, Eq, Error)]
pub enum DocFault {
    /// The bytes aren't JSON in UTF-8, of at most 127 levels.
    #[error("not JSON")]
    NotJson,
    /// The file or its `signed` isn't an object.
    #[error("the file or its `signed` is not an object")]
    NotObject,
    /// `signed` has no canonical form.
    #[error("`signed` has no canonical form")]
    Float,
    /// `signatures` isn't a list of objects with the texts `keyid` and `sig`.
    #[error("`signatures` is not a list of entries")]
    BadSignatures,
    /// Out of memory.
    #[error("out of memory")]
    NoMemory,
}

/// Why a tree or a document can't be read as a value of some form.
#[derive(Clone, Copy, Debug, PartialEq, Eq, Error)]
pub enum ReadFault {
    /// It is malformed.
    #[error("not of the form")]
    Malformed,
    /// Out of memory.
    #[error("out of memory")]
    NoMemory,
}

impl From<AllocError> for NoMemory {
    fn from(_refused: AllocError) -> NoMemory {
        NoMemory
    }
}

impl<T: Drop> From<AllocFailed<T>> for NoMemory {
    fn from(_refused: AllocFailed<T>) -> NoMemory {
        NoMemory
    }
}

impl From<AllocError> for Canon {
    ghost from_gives = { λ _ e. e ≡ canon.NoMemory };

    fn from(_refused: AllocError) -> Canon {
        Canon::NoMemory
    }
}

impl<T: Drop> From<AllocFailed<T>> for Canon {
    ghost from_gives = { λ _ e. e ≡ canon.NoMemory };

    fn from(_refused: AllocFailed<T>) -> Canon {
        Canon::NoMemory
    }
}

impl From<Canon> for DocFault {
    ghost from_gives = { λ c e. (c ≡ canon.Float → e ≡ doc.Float)
        × (c ≡ canon.NoMemory → e ≡ doc.NoMemory) };

    fn from(fault: Canon) -> DocFault {
        match fault {
            Canon::Float => DocFault::Float,
            Canon::NoMemory => DocFault::NoMemory,
        }
    }
}

impl From<AllocError> for ReadFault {
    ghost from_gives = { λ _ e. e ≡ read.NoMemory };

    fn from(_refused: AllocError) -> ReadFault {
        ReadFault::NoMemory
    }
}

impl<T: Drop> From<AllocFailed<T>> for ReadFault {
    ghost from_gives = { λ _ e. e ≡ read.NoMemory };

    fn from(_refused: AllocFailed<T>) -> ReadFault {
        ReadFault::NoMemory
    }
}

impl From<NoMemory> for ReadFault {
    ghost from_gives = { λ _ e. e ≡ read.NoMemory };

    fn from(_refused: NoMemory) -> ReadFault {
        ReadFault::NoMemory
    }
}

impl From<Invalid> for ReadFault {
    ghost from_gives = { λ _ e. e ≡ read.Malformed };

    fn from(_refused: Invalid) -> ReadFault {
        ReadFault::Malformed
    }
}
