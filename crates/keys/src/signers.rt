//! Sets of public values.

ghost use Rattle.std.specs.Prelude.{◌≡◌, OnOk, OnErr, bytes_eq};
ghost use Rattle.std.specs.List.{list_any};
ghost use Rattle.std.specs.FinSet as set;

use lms::Public;
use std::alloc::{AllocError, Global};
use std::marker::Model;

/// A set of public values.
pub struct Signers {
    publics: Vec<Public>,
}

impl Drop for Signers {
    fn drop(self) {
        let Signers { publics } = self;
    }
}

impl Model for Signers {
    ghost use Rattle.std.specs.Prelude.{◌≡◌, vec_len, List, ℕ};
    ghost use Rattle.std.specs.Ordering.{nat_cmp};
    ghost use Rattle.std.specs.Cmp.Lexicographic.{slice_cmp};
    ghost use Rattle.std.specs.FinSet as set;
    ghost use Rattle.std.specs.Coded.{coded_ℕ, coded_list};

    ghost Value = { set.FinSet (slice_cmp nat_cmp) };

    ghost coded = { set.code (coded_list coded_ℕ) };

    ghost view = { λ a. set.from_list a.publics.items };

    ghost invariant = { λ a.
        set.len (set.from_list {R = slice_cmp nat_cmp} a.publics.items) ≡ vec_len a.publics };
}

impl Signers {
    /// Returns the empty set. Does not allocate.
    pub fn new(alloc: Global) -> Signers
        ensures value { result ≡ set.empty }
    {
        Signers {
            publics: Vec::new(alloc),
        }
    }

    /// Returns the number of public values.
    pub fn len(&self) -> usize
        ensures value { result ≡ set.len self.now }
    {
        self.publics.len()
    }

    /// Returns whether the set has the public value.
    pub fn has(&self, public: &Public) -> bool
        ensures value { result ≡ set.contains self.now public.now }
    {
        is_among(&self.publics, public)
    }

    /// Adds the public value if it isn't there yet. Fails only if out of memory, and leaves the set
    /// unchanged on error.
    pub fn add(&mut self, public: &Public) -> Result<(), AllocError>
        ensures ok { OnOk result (self.new ≡ set.insert self.old public.now) }
        ensures err { OnErr result (self.new ≡ self.old) }
    {
        if !self.has(public) {
            self.publics.push(*public)?;
        }
        Ok(())
    }
}

fn is_among(publics: &[Public], public: &Public) -> bool
    ensures { result ≡ list_any (bytes_eq public.now) publics.now }
{
    publics
        .iter()
        .any(|signer| public.bytes() == signer.bytes())
}
