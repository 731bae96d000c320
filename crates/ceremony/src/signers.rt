//! Who signed a metadata file.

ghost use Rattle.std.specs.Prelude.{◌≡◌, ◌≢◌, ◌≤◌, ◌⊎◌, ℕ, List, Some, IfErr, IfOk};
ghost use Rattle.std.specs.Io.KnownBytes.{Appends};
ghost use Rattle.ceremony.specs.Printed.{refusal_text};
ghost use Rattle.ceremony.specs.Required.{Required};
ghost use Rattle.ceremony.specs.SignedBy as spec;
ghost use Rattle.signing.specs.Signers.{IsReasoned};

use crate::lines::{Refusal, put_refusal};
use crate::required::{Role, signing_by};
use crate::text::FILE_MOST;
use cjson::{DocFault, signed_bytes};
use failure::Failure;
use inout::{put, read_file};
use signing::Signing;
use std::alloc::Global;
use std::io::Write;
use system::System;
use whys::signing_lines;

/// The file that lists the keys of a role.
#[derive(Clone, Copy)]
pub struct By<'a> {
    /// The file's path.
    pub path: &'a str,
    /// The role.
    pub role: Role<'a>,
}

/// Prints who signed a metadata file, and returns 0 if they are enough for the role and 1 if not.
/// At most 64 lines are of keys; one more says how many ids are left. If one of the two files is
/// malformed, or the second has no such role, prints why and returns 2.
///
/// Fails with `Input` if a file can't be read, or with `Memory` or `Output`.
#[tactic(auto, using(crate::proofs::Usable::reasoned_in))]
pub fn print_signers<S: System, W: Write>(
    alloc: Global,
    system: &S,
    path: &str,
    by: &By<'_>,
    out: &mut W,
) -> Result<u8, Failure>
    ensures known { IfOk result (λ status. status ≤ 2) }
    ensures signers { IfOk result (λ status. status ≢ 2 → spec.IsTold
        (S.gives system.now path.now) (S.gives system.now by.now.path.now) by.now.role
        (spec.AreTold by.now status (W.contents out.old) (W.contents out.new))) }
    ensures refused { IfOk result (λ status. status ≡ 2 → spec.IsUntold
        (S.gives system.now path.now) (S.gives system.now by.now.path.now) by.now.role
        (λ r. Appends (W.contents out.old) (W.contents out.new) (refusal_text r))) }
    ensures quiet { IfErr result (λ f. f ≢ Failure.Memory → f ≢ Failure.Output
        → W.contents out.new ≡ W.contents out.old) }
    ensures cause { IfErr result (spec.IsCause
        (S.gives system.now path.now) (S.gives system.now by.now.path.now)
        (S.refuses system.now path.now) (S.refuses system.now by.now.path.now) by.now.role) }

    // Why an id has no usable key.
    ensures unusable { (listing : List ℕ) (r : Required)
        → spec.required_in by.now.role listing ≡ Some r
        → (id : List ℕ) → IsReasoned r.keys r.ring id }
{
    let file = read_file(system, path, FILE_MOST, Failure::Input)?;
    let listing = read_file(system, by.path, FILE_MOST, Failure::Input)?;
    match told(alloc, &file, &listing, &by.role)? {
        Ok(signing) => {
            let lines = signing_lines(alloc, by.path, &signing)?;
            put(out, lines.as_str())?;
            Ok(met_status(signing.is_met))
        }
        Err(refusal) => {
            put_refusal(alloc, refusal, out)?;
            Ok(2)
        }
    }
}

fn met_status(is_met: bool) -> u8
    ensures { result ≡ spec.met_status is_met }
{
    if is_met { 0 } else { 1 }
}

/// Returns who signed the file, of the keys that the second one lists, or why it can't be said.
fn told(
    alloc: Global,
    file: &[u8],
    listing: &[u8],
    role: &Role<'_>,
) -> Result<Result<Signing, Refusal>, Failure>
    ensures answer { IfOk result (spec.IsAnswer file.now listing.now role.now) }
    ensures memory { IfErr result (λ f. f ≡ Failure.Memory) }
{
    let doc = match signed_bytes(alloc, file) {
        Ok(doc) => doc,
        Err(DocFault::NoMemory) => return Err(Failure::Memory),
        Err(fault) => return Ok(Err(Refusal::File(fault))),
    };
    let by = match signed_bytes(alloc, listing) {
        Ok(by) => by,
        Err(DocFault::NoMemory) => return Err(Failure::Memory),
        Err(_) => return Ok(Err(Refusal::Role)),
    };
    match signing_by(alloc, &doc, &by, role)? {
        Some(signing) => Ok(Ok(signing)),
        None => Ok(Err(Refusal::Role)),
    }
}
