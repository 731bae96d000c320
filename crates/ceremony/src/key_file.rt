//! The file of a key object.

ghost use Rattle.std.specs.Prelude.{◌≡◌, ◌≢◌, ◌≤◌, ◌⊎◌, IfErr, IfOk, OnErr, OnOk, true, ⊤};
ghost use Rattle.std.specs.Io.KnownBytes.{Appends};
ghost use Rattle.failure.specs.Failures.{IsLate};
ghost use Rattle.inout.specs.Stored.{OthersKept};
ghost use Rattle.ceremony.specs.KeyFiles as spec;
ghost use Rattle.ceremony.specs.Printed.{key_text, refusal_text};

use crate::lines::{Refusal, key_line, put_refusal};
use failure::Failure;
use inout::{keep_file, put, read_file};
use signing::{KeyFault, NewKey, make_key};
use std::alloc::Global;
use std::io::Write;
use system::System;

/// Maximum number of bytes of a file with a key or a signature.
pub(crate) const SMALL_MOST: u64 = 16_384;

/// Makes the key object of the public key in a file, stores it as the file `to`, prints its line
/// and returns 0. If the bytes are no public key that counts, prints why, stores nothing and
/// returns 1. What is stored for other paths stays.
///
/// Fails with `Input` if the file can't be read, and then has no effect; or with `Memory` or
/// `Output`, and then the key object was stored, or nothing was.
pub fn make_key_file<S: System, W: Write>(
    alloc: Global,
    system: &mut S,
    from: &str,
    to: &str,
    out: &mut W,
) -> Result<u8, Failure>
    ensures known { IfOk result (λ status. status ≤ 1) }
    ensures made { IfOk result (λ status. status ≡ 0 → spec.IsMade
        (S.gives system.old from.now) (S.keeps system.new to.now)
        (λ key. Appends (W.contents out.old) (W.contents out.new) (key_text key))) }
    ensures refused { IfOk result (λ status. status ≡ 1 → spec.IsNoKey
        (S.gives system.old from.now)
        (λ f. Appends (W.contents out.old) (W.contents out.new)
        (refusal_text (Refusal.Key f)))) }
    ensures kept { IfOk result
        (λ status. status ≡ 1 → S.keeps system.new ≡ S.keeps system.old) }
    ensures others { OthersKept to.now (S.keeps system.old) (S.keeps system.new) }
    ensures order { OnErr result ((S.keeps system.new ≡ S.keeps system.old)
        ⊎ spec.IsMade (S.gives system.old from.now) (S.keeps system.new to.now) (λ _. ⊤)) }
    ensures quiet { IfErr result (λ f. f ≢ Failure.Memory → f ≢ Failure.Output
        → (S.keeps system.new ≡ S.keeps system.old)
        × (W.contents out.new ≡ W.contents out.old)) }
    ensures cause { IfErr result (spec.IsCause (S.gives system.old from.now)
        (S.refuses system.old from.now) ((S.obstacles system.old).fails to.now)
        (S.keeps system.new to.now)) }
{
    let file = read_file(system, from, SMALL_MOST, Failure::Input)?;
    match make_key(alloc, &file) {
        Ok(new) => {
            keep_key(alloc, system, to, &new, out)?;
            Ok(0)
        }
        Err(KeyFault::NoMemory) => Err(Failure::Memory),
        Err(fault) => {
            put_refusal(alloc, Refusal::Key(fault), out)?;
            Ok(1)
        }
    }
}

/// Stores the key object and prints its line.
fn keep_key<S: System, W: Write>(
    alloc: Global,
    system: &mut S,
    path: &str,
    new: &NewKey,
    out: &mut W,
) -> Result<(), Failure>
    ensures kept { OnOk result (S.keeps system.new path.now new.now.text.items ≡ true) }
    ensures line { OnOk result (Appends (W.contents out.old) (W.contents out.new)
        (key_text new.now.key)) }
    ensures order { OnErr result ((S.keeps system.new ≡ S.keeps system.old)
        ⊎ (S.keeps system.new path.now new.now.text.items ≡ true)) }
    ensures others { OthersKept path.now (S.keeps system.old) (S.keeps system.new) }
    ensures refused { IfErr result IsLate }
    ensures cause { IfErr result (λ f. f ≢ Failure.Memory
        → ((S.obstacles system.old).fails path.now ≡ true)
        ⊎ (S.keeps system.new path.now new.now.text.items ≡ true)) }
{
    keep_file(system, path, &new.text)?;
    let line = key_line(alloc, &new.key)?;
    put(out, line.as_str())
}
