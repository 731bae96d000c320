//! A key that signs by one leaf after the other.

ghost use Rattle.std.specs.Prelude.{◌≡◌, ◌+◌, ◌^◌, ◌≤◌, ◌<◌, ℕ, List, IsTrue, IfOk, OnOk, OnErr};
ghost use Rattle.lms.specs.Lms.{is_valid, levels};
ghost use Rattle.lms.specs.Signer.{public_of};
ghost use Rattle.leaves.specs.Leaves.{leaf_of};

use lms::{Public, Secret, SignFault, StoredFault, StoredSecret};
use thiserror::Error;

/// A key that signs by one leaf after the other.
pub trait Key {
    /// The public key.
    ghost public: { Self → List ℕ };

    /// The leaf that signs next.
    ghost next: { Self → ℕ };

    /// How many leaves it has.
    ghost leaves: { Self → ℕ };

    /// Returns the public key.
    fn public(&self) -> Public
        ensures same { result ≡ public self.now };

    /// Returns how many leaves it has.
    fn leaf_count(&self) -> u32
        ensures same { result ≡ leaves self.now };

    /// Gives up the leaves before `leaf`, so that the next signature is by it.
    fn skip_to(&mut self, leaf: u32) -> Result<(), KeyFault>
        ensures skipped { OnOk result (next self.new ≡ leaf) }
        ensures public { public self.new ≡ public self.old };

    /// Signs a message by the next leaf (RFC 8554 section 5.4.1).
    fn sign(&mut self, msg: &[u8]) -> Result<Vec<u8>, KeyFault>
        ensures leaf { IfOk result (λ sig. leaf_of sig.items ≡ next self.old) }
        ensures valid { IfOk result (λ sig.
            IsTrue (is_valid (public self.old) msg.now sig.items)) }
        ensures next { OnOk result (next self.new ≡ next self.old + 1) }
        ensures public { public self.new ≡ public self.old };
}

/// Why a key doesn't sign.
#[derive(Clone, Copy, Debug, PartialEq, Eq, Error)]
pub enum KeyFault {
    /// The leaf is gone, or past the last.
    #[error("the leaf is gone")]
    Used,
    /// The stored values aren't those of the key.
    #[error("the stored leaves are not those of the key")]
    Damaged,
    /// Out of memory.
    #[error("out of memory")]
    NoMemory,
}

impl From<SignFault> for KeyFault {
    fn from(fault: SignFault) -> KeyFault {
        match fault {
            SignFault::Used => KeyFault::Used,
            SignFault::NoMemory => KeyFault::NoMemory,
        }
    }
}

impl From<StoredFault> for KeyFault {
    fn from(fault: StoredFault) -> KeyFault {
        match fault {
            StoredFault::Used => KeyFault::Used,
            StoredFault::Damaged => KeyFault::Damaged,
            StoredFault::NoMemory => KeyFault::NoMemory,
        }
    }
}

impl Key for Secret {
    ghost public = { λ s. public_of s };

    ghost next = { λ s. s.used };

    ghost leaves = { λ s. 2 ^ levels s.kind.height };

    fn public(&self) -> Public {
        Secret::public(self)
    }

    fn leaf_count(&self) -> u32 {
        Secret::leaf_count(self)
    }

    fn skip_to(&mut self, leaf: u32) -> Result<(), KeyFault> {
        Ok(Secret::skip_to(self, leaf)?)
    }

    fn sign(&mut self, msg: &[u8]) -> Result<Vec<u8>, KeyFault> {
        Ok(Secret::sign(self, msg)?)
    }
}

impl Key for StoredSecret {
    ghost public = { λ k. k.public };

    ghost next = { λ k. k.used };

    ghost leaves = { λ k. k.leaves };

    fn public(&self) -> Public {
        StoredSecret::public(self)
    }

    fn leaf_count(&self) -> u32 {
        StoredSecret::leaf_count(self)
    }

    fn skip_to(&mut self, leaf: u32) -> Result<(), KeyFault> {
        Ok(StoredSecret::skip_to(self, leaf)?)
    }

    fn sign(&mut self, msg: &[u8]) -> Result<Vec<u8>, KeyFault> {
        Ok(StoredSecret::sign(self, msg)?)
    }
}
