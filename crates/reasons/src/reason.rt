//! Reasons of refusals.

ghost use Rattle.std.specs.Prelude.{◌≡◌, ⊤, IfOk, Result};
ghost use Rattle.cjson.specs.declared.fault.ReadFault.TheVariants as read;
ghost use Rattle.reasons.specs.declared.reason.Ended.TheVariants as ended;
ghost use Rattle.reasons.specs.declared.reason.Malformation.TheVariants as malformed;
ghost use Rattle.reasons.specs.declared.reason.Reason.TheVariants as reason;
ghost use Rattle.reasons.specs.Reasons as spec;

use cjson::list::Items;
use cjson::text::Text;
use cjson::{NoMemory, ReadFault};
use moment::Moment;
use signing::Signing;
use std::alloc::AllocError;

/// Why a file is malformed, in the order of the checks.
#[derive(Clone, Copy, Debug, PartialEq, Eq)]
pub enum Malformation {
    /// The bytes aren't JSON in UTF-8.
    NotJson,
    /// The file or its `signed` isn't an object.
    NotObject,
    /// `signed` has no canonical form.
    Float,
    /// `signatures` isn't a list of entries.
    BadSignatures,
    /// `signed` isn't of the form of its kind.
    NotFormed,
}

/// A SHA-256 digest that differs from the listed one.
#[derive(Clone, Copy)]
pub struct Sha256Pair {
    /// The digest of the bytes.
    pub found: [u8; 32],
    /// The listed digest.
    pub listed: [u8; 32],
}

/// A SHA-512 digest that differs from the listed one.
#[derive(Clone, Copy)]
pub struct Sha512Pair {
    /// The digest of the bytes.
    pub found: [u8; 64],
    /// The listed digest.
    pub listed: [u8; 64],
}

/// The digests that differ from the listed ones.
#[derive(Clone, Copy)]
pub struct Differing {
    /// The SHA-256 digests, if they differ.
    pub sha256: Option<Sha256Pair>,
    /// The SHA-512 digests, if they differ.
    pub sha512: Option<Sha512Pair>,
}

/// A number that is below the trusted one.
#[derive(Clone, Copy, Debug, PartialEq, Eq)]
pub struct Below {
    /// The number that was found.
    pub found: u64,
    /// The trusted number.
    pub trusted: u64,
}

/// How a timestamp falls below the trusted one.
#[derive(Clone, Copy, Debug, PartialEq, Eq)]
pub struct TimestampFall {
    /// The versions, if the new one is below the trusted one.
    pub version: Option<Below>,
    /// The listed versions of the snapshot, if the new one is below the trusted one.
    pub snapshot: Option<Below>,
}

/// A trusted name that is missing in a snapshot, or has a lower version there.
pub struct NameFall {
    /// The name.
    pub name: Text,
    /// The trusted version.
    pub trusted: u64,
    /// The version that was found, or None if the name is missing.
    pub found: Option<u64>,
}

impl Drop for NameFall {
    fn drop(self) {
        let NameFall {
            name,
            trusted,
            found,
        } = self;
    }
}

/// Why a file is refused: the first check that it fails, and what this check compared.
pub enum Reason {
    /// The snapshot doesn't list it.
    NotListed,
    /// The repository has no file of its name.
    Missing,
    /// The length in bytes, and the maximum for its kind.
    TooLong(u64, u64),
    /// The length in bytes, and the listed one.
    LengthWrong(u64, u64),
    /// The digests that differ.
    HashWrong(Differing),
    /// Digests are listed, but none of a known algorithm.
    NoKnownHash,
    /// It is malformed.
    Malformed(Malformation),
    /// Fewer keys signed than the role's threshold.
    Unsigned(Signing),
    /// Fewer of a root's own keys signed than its threshold.
    OwnUnsigned(Signing),
    /// The version, and the one that is due.
    VersionWrong(u64, u64),
    /// A timestamp falls below the trusted one.
    TimestampFell(TimestampFall),
    /// The trusted names that a snapshot leaves out, or lists in lower versions.
    SnapshotFell(Items<NameFall>),
    /// The moment at which it expires, and the moment of the run.
    Expired(Moment, Moment),
    /// The same of a trusted file.
    TrustedExpired(Moment, Moment),
}

impl Drop for Reason {
    fn drop(self) {
        match self {
            Reason::Unsigned(signing) => {}
            Reason::OwnUnsigned(signing) => {}
            Reason::SnapshotFell(falls) => {}
            Reason::NotListed | Reason::Missing | Reason::NoKnownHash => {}
            Reason::TooLong(_, _) | Reason::LengthWrong(_, _) | Reason::VersionWrong(_, _) => {}
            Reason::HashWrong(_) | Reason::Malformed(_) | Reason::TimestampFell(_) => {}
            Reason::Expired(_, _) | Reason::TrustedExpired(_, _) => {}
        }
    }
}

/// Why the checks of a file end early.
#[derive(Drop)]
pub(crate) enum Ended {
    /// The file is refused.
    Refused(Reason),
    /// Out of memory.
    NoMemory,
}

impl From<Reason> for Ended {
    ghost from_gives = { λ r e. e ≡ ended.Refused r };

    fn from(reason: Reason) -> Ended {
        Ended::Refused(reason)
    }
}

impl From<NoMemory> for Ended {
    ghost from_gives = { λ _ e. e ≡ ended.NoMemory };

    fn from(_refused: NoMemory) -> Ended {
        Ended::NoMemory
    }
}

impl From<AllocError> for Ended {
    ghost from_gives = { λ _ e. e ≡ ended.NoMemory };

    fn from(_refused: AllocError) -> Ended {
        Ended::NoMemory
    }
}

impl From<ReadFault> for Ended {
    ghost from_gives = { λ f e.
        (f ≡ read.Malformed → e ≡ ended.Refused (reason.Malformed malformed.NotFormed))
        × (f ≡ read.NoMemory → e ≡ ended.NoMemory) };

    fn from(fault: ReadFault) -> Ended {
        match fault {
            ReadFault::Malformed => Ended::Refused(Reason::Malformed(Malformation::NotFormed)),
            ReadFault::NoMemory => Ended::NoMemory,
        }
    }
}

/// Returns the reason with which checks ended, or None if they all passed. Fails only if out of
/// memory.
pub(crate) fn reason_of(checked: Result<(), Ended>) -> Result<Option<Reason>, NoMemory>
    ensures { (should : Result ⊤ spec.Reason) → spec.Explains should checked (λ x. x)
        → IfOk result (λ o. o ≡ spec.reason_in should) }
{
    match checked {
        Ok(()) => Ok(None),
        Err(Ended::Refused(reason)) => Ok(Some(reason)),
        Err(Ended::NoMemory) => Err(NoMemory),
    }
}
