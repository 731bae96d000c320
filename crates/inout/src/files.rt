//! Single files of a run.

ghost use Rattle.std.specs.Prelude.{◌≡◌, ◌≢◌, ◌≤◌, ◌⊎◌, true, IfErr, IfOk, OnErr, OnOk, length};
ghost use Rattle.failure.specs.Failures.{IsLate};
ghost use Rattle.inout.specs.Stored.{OthersKept};
ghost use Rattle.system.specs.Locks.{StaysLocked};

use failure::{Failure, of_io};
use system::System;

/// Reads the file, of at most `most` bytes. Fails with `other` if it has more or can't be read, or
/// with `Memory` if out of memory.
pub fn read_file<S: System>(
    system: &S,
    path: &str,
    most: u64,
    other: Failure,
) -> Result<Vec<u8>, Failure>
    ensures given { IfOk result (λ bytes. S.gives system.now path.now bytes.items ≡ true) }
    ensures bounded { IfOk result (λ bytes. length bytes.items ≤ most) }
    ensures refused { IfErr result (λ f. (f ≡ Failure.Memory) ⊎ (f ≡ other)) }
    ensures cause { IfErr result
        (λ f. f ≢ Failure.Memory → S.refuses system.now path.now ≡ true) }
{
    system
        .read(path, most)
        .map_err(|error| of_io(&error, other))
}

/// Stores the bytes as the file, in place of what it held. On error the file is unchanged, and
/// nothing at other paths ever changes. Fails with `Memory` or `Output`.
pub fn keep_file<S: System>(system: &mut S, path: &str, bytes: &[u8]) -> Result<(), Failure>
    ensures kept { OnOk result (S.keeps system.new path.now bytes.now ≡ true) }
    ensures unchanged { OnErr result (S.keeps system.new ≡ S.keeps system.old) }
    ensures locked { StaysLocked (S.locks system.old) (S.locks system.new) }
    ensures others { OthersKept path.now (S.keeps system.old) (S.keeps system.new) }
    ensures same_obstacles { S.obstacles system.new ≡ S.obstacles system.old }
    ensures refused { IfErr result IsLate }
    ensures cause { IfErr result
        (λ f. f ≢ Failure.Memory → (S.obstacles system.old).fails path.now ≡ true) }
{
    match system.store(path, bytes) {
        Ok(()) => Ok(()),
        Err(error) => Err(of_io(&error, Failure::Output)),
    }
}
