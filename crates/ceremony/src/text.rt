//! The text that is signed.

ghost use Rattle.std.specs.Prelude.{◌≡◌, ◌≢◌, ◌⊎◌, IfErr, IfOk};
ghost use Rattle.std.specs.Io.KnownBytes.{Appends};
ghost use Rattle.ceremony.specs.Printed.{refusal_text};
ghost use Rattle.ceremony.specs.Texts as spec;

use crate::lines::{Refusal, put_refusal};
use cjson::DocFault;
use failure::Failure;
use inout::{put_bytes, read_file};
use signing::signed_text;
use std::alloc::Global;
use std::io::Write;
use system::System;

/// Maximum number of bytes of a metadata file, that of a targets file.
pub(crate) const FILE_MOST: u64 = 5_000_000;

/// Prints the canonical text of `signed` of a metadata file, which signatures cover, without a line
/// feed, and returns 0. The file need have no `signatures`. If it is malformed, prints why to `err`
/// and nothing to `out`, and returns 2. Fails with `Input` if the file can't be read, or with
/// `Memory` or `Output`.
pub fn print_text<S: System, W: Write, E: Write>(
    alloc: Global,
    system: &S,
    path: &str,
    out: &mut W,
    err: &mut E,
) -> Result<u8, Failure>
    ensures known { IfOk result (λ status. (status ≡ 0) ⊎ (status ≡ 2)) }
    ensures printed { IfOk result (λ status. status ≡ 0 → spec.IsText
        (S.gives system.now path.now)
        (λ text. Appends (W.contents out.old) (W.contents out.new) text)) }
    ensures refused { IfOk result (λ status. status ≡ 2 → spec.IsNoText
        (S.gives system.now path.now)
        (λ f. Appends (E.contents err.old) (E.contents err.new)
        (refusal_text (Refusal.File f)))) }
    ensures quiet { IfOk result (λ status. status ≡ 2 → W.contents out.new ≡ W.contents out.old) }
    ensures input { IfErr result (λ f. f ≢ Failure.Memory → f ≢ Failure.Output
        → W.contents out.new ≡ W.contents out.old) }
    ensures cause { IfErr result
        (spec.IsCause (S.gives system.now path.now) (S.refuses system.now path.now)) }
{
    let file = read_file(system, path, FILE_MOST, Failure::Input)?;
    match signed_text(alloc, &file) {
        Ok(text) => {
            put_bytes(out, &text)?;
            Ok(0)
        }
        Err(DocFault::NoMemory) => Err(Failure::Memory),
        Err(fault) => {
            put_refusal(alloc, Refusal::File(fault), err)?;
            Ok(2)
        }
    }
}
