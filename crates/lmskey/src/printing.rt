//! What is printed.

ghost use Rattle.std.specs.Prelude.{◌≡◌, ◌++◌, ◌^◌, ℕ, List, OnOk};
ghost use Rattle.std.specs.Io.KnownBytes.{Appends};
ghost use Rattle.lms.specs.Lms.{codes, levels};
ghost use Rattle.lms.specs.declared.kind.Kind.{Kind};

use crate::fault::{RunFault, of_io};
use lms::Public;
use signing::{NewKey, make_key};
use std::alloc::Global;
use std::io::Write;

/// Writes the whole text. Fails with `Output` or `Memory`.
pub fn put<W: Write>(out: &mut W, text: &str) -> Result<(), RunFault>
    ensures written { OnOk result (Appends (W.contents out.old) (W.contents out.new) text.now) }
{
    match out.write_all(text.as_bytes()) {
        Ok(()) => out.flush().map_err(|error| of_io(&error, RunFault::Output)),
        Err(error) => Err(of_io(&error, RunFault::Output)),
    }
}

/// Returns the key object of a public key, and its id (TUF 1.0 section 4.2).
pub fn object_of(alloc: Global, public: &Public) -> Result<NewKey, RunFault> {
    match make_key(alloc, public.bytes()) {
        Ok(key) => Ok(key),
        Err(_) => Err(RunFault::Memory),
    }
}

/// Returns how many leaves the key has, by the first type code (RFC 8554 section 5.1).
#[tactic(auto, using(crate::proofs::Size::h5, crate::proofs::Size::h10, crate::proofs::Size::h15))]
pub fn leaf_count(public: &Public) -> u32
    ensures count { (kind : Kind) (rest : List ℕ) → public.now ≡ codes kind ++ rest
        → result ≡ 2 ^ levels kind.height }
{
    match public.bytes()[3] {
        5 => 32,
        6 => 1024,
        _ => 32768,
    }
}

/// Prints the line of a key: its id, its kind and how many leaves it has.
pub fn put_key<W: Write>(alloc: Global, public: &Public, out: &mut W) -> Result<(), RunFault> {
    let key = object_of(alloc, public)?.key;
    let id = key.id.as_str();
    let width = if public.bytes()[7] == 3 { "W4" } else { "W8" };
    let height = match public.bytes()[3] {
        5 => "H5",
        6 => "H10",
        _ => "H15",
    };
    let leaves = leaf_count(public);
    let line = format!(in alloc; "key \"{id}\" {width} {height} {leaves}\n")?;
    put(out, line.as_str())
}
