//! What a run prints.

ghost use Rattle.std.specs.Prelude.{IfErr, OnOk};
ghost use Rattle.std.specs.Io.KnownBytes.{Appends};
ghost use Rattle.failure.specs.Failures.{IsLate};

use failure::{Failure, of_io};
use std::io::Write;

/// Writes the whole text. If the contract tracks the content of `out`, this text and nothing else
/// was written. Fails with `Memory` or `Output`.
pub fn put<W: Write>(out: &mut W, text: &str) -> Result<(), Failure>
    ensures written { OnOk result (Appends (W.contents out.old) (W.contents out.new) text.now) }
    ensures refused { IfErr result IsLate }
{
    put_bytes(out, text.as_bytes())
}

/// Writes all bytes, as [`put`] writes a text.
pub fn put_bytes<W: Write>(out: &mut W, bytes: &[u8]) -> Result<(), Failure>
    ensures written { OnOk result (Appends (W.contents out.old) (W.contents out.new) bytes.now) }
    ensures refused { IfErr result IsLate }
{
    match out.write_all(bytes) {
        Ok(()) => out.flush().map_err(|e| of_io(&e, Failure::Output)),
        Err(e) => Err(of_io(&e, Failure::Output)),
    }
}
