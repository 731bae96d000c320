//! Whole numbers, bytes in hexadecimal, and true or false.

ghost use Rattle.std.specs.Prelude.{◌≡◌, ◌≤◌, ◌↔◌, IfSome, IsSome};
ghost use Rattle.cjson.specs.Tree.{view};
ghost use Rattle.cjson.specs.Form as form_of;

use crate::fault::ReadFault;
use crate::form::FromJson;
use crate::tree::Tree;
use hex::FromHex;
use std::alloc::Global;
use std::marker::Model;

/// Returns the whole number, if it is from `least` to `most`.
fn whole(value: &Tree, least: u64, most: u64) -> Option<u64>
    ensures value { result ≡ form_of.whole least most (view value.now) }
    ensures range { IfSome result (λ n. (least ≤ n) × (n ≤ most)) }
{
    value.as_u64().filter(|n| least <= *n && *n <= most)
}

/// A whole number from `LEAST` to `MOST`; `Malformed` for any other value.
#[derive(Clone, Copy, Debug, PartialEq, Eq)]
pub struct Within<const LEAST: u64, const MOST: u64> {
    number: u64,
}

/// A version or a threshold: a whole number from 1 to 9223372036854775807.
pub type Positive = Within<1, 9_223_372_036_854_775_807>;

/// A length: a whole number from 0 to 9223372036854775807.
pub type Length = Within<0, 9_223_372_036_854_775_807>;

impl<const LEAST: u64, const MOST: u64> Model for Within<LEAST, MOST> {
    ghost use Rattle.std.specs.Prelude.{ℕ, ◌≤◌};

    ghost Value = { ℕ };

    ghost view = { λ p. p.number };

    ghost invariant = { λ p. (LEAST ≤ p.number) × (p.number ≤ MOST) };

    ghost inverse = { λ n. record { number = n } };
}

impl<const LEAST: u64, const MOST: u64> Within<LEAST, MOST> {
    /// Returns the number, if it is from `LEAST` to `MOST`.
    pub fn new(number: u64) -> Option<Within<LEAST, MOST>>
        ensures some { IsSome result ↔ (LEAST ≤ number) × (number ≤ MOST) }
        ensures value { IfSome result (λ n. n ≡ number) }
    {
        if LEAST <= number && number <= MOST {
            Some(Within { number })
        } else {
            None
        }
    }

    /// Returns the number, from `LEAST` to `MOST`.
    pub fn get(&self) -> u64
        ensures value { result ≡ self.now }
        ensures least { LEAST ≤ result }
        ensures most { result ≤ MOST }
    {
        self.number
    }
}

impl<const LEAST: u64, const MOST: u64> FromJson for Within<LEAST, MOST> {
    ghost form = { form_of.whole LEAST MOST };

    fn from_json(_alloc: Global, value: &Tree) -> Result<Within<LEAST, MOST>, ReadFault> {
        let number = whole(value, LEAST, MOST).ok_or(ReadFault::Malformed)?;
        Ok(Within { number })
    }
}

/// `N` bytes, read from a JSON text of `2 * N` hexadecimal digits in either case; `Malformed` for
/// any other value.
impl<const N: usize> FromJson for [u8; N] {
    ghost form = { form_of.hex_bytes N };

    fn from_json(_alloc: Global, value: &Tree) -> Result<[u8; N], ReadFault> {
        let text = value.as_str().ok_or(ReadFault::Malformed)?;
        <[u8; N] as FromHex>::from_hex(text).map_err(|_| ReadFault::Malformed)
    }
}

/// `true` or `false`; `Malformed` for any other value.
impl FromJson for bool {
    ghost use Rattle.serde_json.specs.Find.{as_bool};

    ghost form = { as_bool };

    fn from_json(_alloc: Global, value: &Tree) -> Result<bool, ReadFault> {
        value.as_bool().ok_or(ReadFault::Malformed)
    }
}
