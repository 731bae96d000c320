//! Secret keys whose leaves' values were stored when they were made.

ghost use Rattle.std.specs.Prelude.{◌≡◌, ◌≢◌, ◌↔◌, ◌⊎◌, ◌+◌, ◌*◌, ◌^◌, ◌<◌, ◌≤◌, Err};
ghost use Rattle.std.specs.Prelude.{IsTrue, IfOk, IfErr, OnOk, OnErr, length, take};
ghost use Rattle.lms.specs.Lms.{is_valid, levels, u32str};
ghost use Rattle.lms.specs.Stored.{StoredKey};

use crate::kind::Kind;
use crate::ots::{Node, chain_start, digits_of, message_digest, u32str, values_at};
use crate::signer::{RANDOMIZER, push_chains, push_path};
use crate::tree::inner;
use crate::verifier::{Public, public_kind, verify};
use std::alloc::{AllocError, Global};
use std::marker::Model;
use thiserror::Error;

/// Why a stored key wasn't made, or doesn't sign.
#[derive(Clone, Copy, Debug, PartialEq, Eq, Error)]
pub enum StoredFault {
    /// The leaf is gone, or the tree has none of that number.
    #[error("every one-time key was used")]
    Used,
    /// The stored values aren't those of the key.
    #[error("the stored leaves are not those of the key")]
    Damaged,
    /// Out of memory.
    #[error("out of memory")]
    NoMemory,
}

impl From<AllocError> for StoredFault {
    ghost use Rattle.std.specs.Prelude.{◌≡◌};
    ghost use Rattle.lms.specs.declared.stored.StoredFault.TheVariants as StoredFault;

    ghost from_gives = { λ _ f. f ≡ StoredFault.NoMemory };

    fn from(_: AllocError) -> StoredFault {
        StoredFault::NoMemory
    }
}

/// A secret key whose leaves' values were stored when it was made, so that a tree of height 15
/// takes milliseconds. The values aren't trusted: each signature is checked before it is returned.
pub struct StoredSecret {
    alloc: Global,
    public: Public,
    kind: Kind,
    id: [u8; 16],
    seed: [u8; 32],
    used: u32,
    nodes: Vec<Node>,
}

impl Drop for StoredSecret {
    fn drop(self) {
        let StoredSecret {
            alloc,
            public,
            kind,
            id,
            seed,
            used,
            nodes,
        } = self;
    }
}

impl Model for StoredSecret {
    ghost use Rattle.std.specs.Prelude.{◌≡◌, ◌*◌, ◌^◌, ◌≤◌, length};
    ghost use Rattle.lms.specs.Stored.{StoredKey};
    ghost use Rattle.lms.specs.Lms.{levels};

    ghost Value = { StoredKey };

    ghost view = { λ s. record {
      public = s.public;
      used = s.used;
      leaves = 2 ^ levels s.kind.height;
    } };

    ghost invariant = { λ s. (s.used ≤ 2 ^ levels s.kind.height)
        × (length s.nodes.items ≡ 2 * 2 ^ levels s.kind.height) };
}

/// Writes the inner nodes' values to their places, from the last one to the root.
fn put_inner(nodes: &mut [Node], kind: Kind, id: &[u8; 16])
    requires { length nodes.old ≡ 2 * 2 ^ levels kind.height }
    ensures { length nodes.new ≡ length nodes.old }
{
    let count = kind.height.leaf_count();
    'inner: for k in 1..count {
        let r = (count - k) as usize;
        nodes[r] = inner(id, count - k, &nodes[2 * r], &nodes[2 * r + 1]);
    }
}

impl StoredSecret {
    /// Makes the key of a public key, of the secret of its one-time keys, and of its leaves' values
    /// in order ([`Secret::leaf_values`](crate::Secret::leaf_values)). No leaf is used. Fails with
    /// `Damaged` if the root of these leaves isn't that of the public key. Hashes 2^h pairs of
    /// nodes, and keeps 64 bytes for each leaf.
    pub fn of(
        alloc: Global,
        public: &Public,
        seed: [u8; 32],
        leaves: &[Node],
    ) -> Result<StoredSecret, StoredFault>
        ensures key { IfOk result (λ k. (k.public ≡ public.now) × (k.used ≡ 0)) }
        ensures leaves { IfOk result (λ k. k.leaves ≡ length leaves.now) }
        ensures unused { result ≢ Err StoredFault.Used }
    {
        let bytes = public.bytes();
        let Some(kind) = public_kind(bytes) else {
            return Err(StoredFault::Damaged);
        };
        let count = kind.height.leaf_count() as usize;
        if leaves.len() != count {
            return Err(StoredFault::Damaged);
        }
        let mut id = [0u8; 16];
        id.copy_from_slice(&bytes[8..24]);
        let mut nodes = vec![in alloc; [0u8; 32]; 2 * count]?;
        nodes[count..].copy_from_slice(leaves);
        put_inner(&mut nodes, kind, &id);
        if nodes[1][..] != bytes[24..] {
            return Err(StoredFault::Damaged);
        }
        Ok(StoredSecret {
            alloc,
            public: *public,
            kind,
            id,
            seed,
            used: 0,
            nodes,
        })
    }

    /// Returns the public key.
    pub fn public(&self) -> Public
        ensures same { result ≡ self.now.public }
    {
        self.public
    }

    /// Returns how many leaves the tree has.
    pub fn leaf_count(&self) -> u32
        ensures count { result ≡ self.now.leaves }
    {
        self.kind.height.leaf_count()
    }

    /// Gives up the leaves before `leaf`, so that the next signature is by it. Fails with `Used`
    /// if it is gone already, or past the last of the tree by more than one. No leaf comes back.
    pub fn skip_to(&mut self, leaf: u32) -> Result<(), StoredFault>
        ensures skipped { OnOk result (self.new ≡ record self.old { used = leaf }) }
        ensures forward { OnOk result ((self.old.used ≤ leaf) × (leaf ≤ self.old.leaves)) }
        ensures used { IfErr result (λ e. (e ≡ StoredFault.Used)
            × ((leaf < self.old.used) ⊎ (self.old.leaves < leaf))) }
        ensures err { OnErr result (self.new ≡ self.old) }
    {
        if leaf < self.used || leaf > self.kind.height.leaf_count() {
            return Err(StoredFault::Used);
        }
        self.used = leaf;
        Ok(())
    }

    /// Returns the signature by leaf `q`, if the stored leaves are those of the key.
    fn candidate(&self, q: u32, msg: &[u8]) -> Result<Vec<u8>, AllocError>
        requires { q < self.now.leaves }
    {
        let kind = self.kind;
        let c = chain_start(&self.id, &self.seed, q, RANDOMIZER);
        let s = message_digest(&self.id, q, &c, msg);
        let digits = digits_of(kind.width, &s);
        let values = values_at(kind.width, &self.id, &self.seed, q, &digits);
        let mut sig = Vec::with_capacity(self.alloc, kind.signature_len())?;
        sig.extend_from_slice(&u32str(q))?;
        sig.extend_from_slice(&u32str(kind.width.code()))?;
        sig.extend_from_slice(&c)?;
        push_chains(&mut sig, kind.width, &values)?;
        sig.extend_from_slice(&u32str(kind.height.code()))?;
        push_path(&mut sig, &self.nodes, kind.height, q)?;
        Ok(sig)
    }

    /// Signs a message with the next leaf (RFC 8554 section 5.4.1), and verifies the signature.
    /// Fails with `Damaged` if it isn't valid, and with `Used` if no leaf is left. The leaf is gone
    /// on success and on each other failure.
    pub fn sign(&mut self, msg: &[u8]) -> Result<Vec<u8>, StoredFault>
        ensures leaf { IfOk result (λ sig. take 4 sig.items ≡ u32str self.old.used) }
        ensures valid { IfOk result
            (λ sig. IsTrue (is_valid self.old.public msg.now sig.items)) }
        ensures next { OnOk result (self.new ≡ record self.old { used = self.old.used + 1 }) }
        ensures within { OnOk result ((self.old.used < self.old.leaves)
            × (self.old.used < 2 ^ 32)) }
        ensures used { (result ≡ Err StoredFault.Used) ↔ (self.old.used ≡ self.old.leaves) }
        ensures spent { result ≢ Err StoredFault.Used
            → self.new ≡ record self.old { used = self.old.used + 1 } }
        ensures kept { result ≡ Err StoredFault.Used → self.new ≡ self.old }
        ensures public { self.new.public ≡ self.old.public }
    {
        let q = self.used;
        if q >= self.kind.height.leaf_count() {
            return Err(StoredFault::Used);
        }
        self.used += 1;
        let sig = self.candidate(q, msg)?;
        if !sig.starts_with(&u32str(q)) || !verify(&self.public, msg, &sig) {
            return Err(StoredFault::Damaged);
        }
        Ok(sig)
    }
}
