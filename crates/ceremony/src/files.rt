//! Metadata files to which a signature is attached.

ghost use Rattle.std.specs.Prelude.{◌≡◌, ◌≢◌, ◌≤◌, ◌⊎◌, IfErr, IfOk, OnErr, OnOk, true, ⊤};
ghost use Rattle.std.specs.Io.KnownBytes.{Appends};
ghost use Rattle.failure.specs.Failures.{IsLate};
ghost use Rattle.inout.specs.Stored.{OthersKept};
ghost use Rattle.ceremony.specs.Entered as spec;
ghost use Rattle.ceremony.specs.Printed.{entry_text, refusal_status, refusal_text};

use crate::key_file::SMALL_MOST;
use crate::lines::{Refusal, entry_line, put_refusal};
use crate::text::FILE_MOST;
use cjson::ReadFault;
use failure::Failure;
use inout::{keep_file, put, read_file};
use keys::Key;
use signing::{AttachFault, Attached, attach, read_key};
use std::alloc::Global;
use std::io::Write;
use system::System;

/// The files of [`attach_file`].
#[derive(Clone, Copy)]
pub struct AttachPaths<'a> {
    /// The metadata file.
    pub file: &'a str,
    /// The key object.
    pub key: &'a str,
    /// The signature.
    pub sig: &'a str,
    /// The file that is stored, which may be the metadata file itself.
    pub to: &'a str,
}

/// The bytes of the files that [`attach_file`] reads.
#[derive(Drop)]
struct Contents {
    file: Vec<u8>,
    key: Vec<u8>,
    sig: Vec<u8>,
}

/// A key, and the file to which its signature was attached.
#[derive(Drop)]
struct Entered {
    key: Key,
    attached: Attached,
}

/// Attaches a signature to a metadata file, as [`attach`] does, stores the new file, prints the
/// line of the entry and returns 0. If it is refused, prints why, stores nothing and returns 1 for
/// a signature that isn't valid, or 2 for a metadata file or a key object that is malformed. What
/// is stored for other paths stays.
///
/// Fails with `Input` if a file can't be read, and then has no effect; or with `Memory` or
/// `Output`, and then the new file was stored, or nothing was.
pub fn attach_file<S: System, W: Write>(
    alloc: Global,
    system: &mut S,
    paths: &AttachPaths<'_>,
    out: &mut W,
) -> Result<u8, Failure>
    ensures known { IfOk result (λ status. status ≤ 2) }
    ensures attached { IfOk result (λ status. status ≡ 0 → spec.IsStored (S.gives system.old)
        paths.now (S.keeps system.new paths.now.to.now)
        (λ key a. Appends (W.contents out.old) (W.contents out.new)
        (entry_text key a))) }
    ensures refused { IfOk result (λ status. status ≢ 0 → spec.IsRefused (S.gives system.old)
        paths.now (λ r. (status ≡ refusal_status r)
        × Appends (W.contents out.old) (W.contents out.new) (refusal_text r))) }
    ensures kept { IfOk result
        (λ status. status ≢ 0 → S.keeps system.new ≡ S.keeps system.old) }
    ensures others { OthersKept paths.now.to.now (S.keeps system.old) (S.keeps system.new) }
    ensures order { OnErr result ((S.keeps system.new ≡ S.keeps system.old)
        ⊎ spec.IsStored (S.gives system.old) paths.now (S.keeps system.new paths.now.to.now)
        (λ _ _. ⊤)) }
    ensures quiet { IfErr result (λ f. f ≢ Failure.Memory → f ≢ Failure.Output
        → (S.keeps system.new ≡ S.keeps system.old)
        × (W.contents out.new ≡ W.contents out.old)) }
    ensures cause { IfErr result (spec.IsCause (S.gives system.old) (S.refuses system.old)
        (S.obstacles system.old).fails paths.now (S.keeps system.new paths.now.to.now)) }
{
    let read = read_all(system, paths)?;
    match enter(alloc, &read)? {
        Ok(entered) => match keep_entry(alloc, system, paths.to, &entered, out) {
            Ok(()) => Ok(0),
            Err(failure) => Err(failure),
        },
        Err(refusal) => {
            put_refusal(alloc, refusal, out)?;
            Ok(refusal.status())
        }
    }
}

/// Reads the three files.
fn read_all<S: System>(system: &S, paths: &AttachPaths<'_>) -> Result<Contents, Failure>
    ensures file { IfOk result
        (λ r. S.gives system.now paths.now.file.now r.file.items ≡ true) }
    ensures key { IfOk result (λ r. S.gives system.now paths.now.key.now r.key.items ≡ true) }
    ensures sig { IfOk result (λ r. S.gives system.now paths.now.sig.now r.sig.items ≡ true) }
    ensures refused { IfErr result (λ f. (f ≡ Failure.Memory) ⊎ (f ≡ Failure.Input)) }
    ensures cause { IfErr result
        (λ f. f ≢ Failure.Memory → spec.SomeRefused (S.refuses system.now) paths.now) }
{
    let file = read_file(system, paths.file, FILE_MOST, Failure::Input)?;
    let key = read_file(system, paths.key, SMALL_MOST, Failure::Input)?;
    let sig = read_file(system, paths.sig, SMALL_MOST, Failure::Input)?;
    Ok(Contents { file, key, sig })
}

/// Returns the file to which the signature is attached, or why it isn't.
fn enter(alloc: Global, read: &Contents) -> Result<Result<Entered, Refusal>, Failure>
    ensures answer { IfOk result (spec.IsAnswer read.now.file.items read.now.key.items
        read.now.sig.items) }
    ensures memory { IfErr result (λ f. f ≡ Failure.Memory) }
{
    let key = match read_key(alloc, &read.key) {
        Ok(key) => key,
        Err(ReadFault::Malformed) => return Ok(Err(Refusal::KeyFile)),
        Err(ReadFault::NoMemory) => return Err(Failure::Memory),
    };
    match attach(alloc, &read.file, &key, &read.sig) {
        Ok(attached) => Ok(Ok(Entered { key, attached })),
        Err(AttachFault::File(fault)) => Ok(Err(Refusal::File(fault))),
        Err(AttachFault::Signature(why)) => Ok(Err(Refusal::Signature(why))),
        Err(AttachFault::NoMemory) => Err(Failure::Memory),
    }
}

/// Stores the new file and prints the line of the entry.
fn keep_entry<S: System, W: Write>(
    alloc: Global,
    system: &mut S,
    path: &str,
    entered: &Entered,
    out: &mut W,
) -> Result<(), Failure>
    ensures kept { OnOk result
        (S.keeps system.new path.now entered.now.attached.file.items ≡ true) }
    ensures line { OnOk result (Appends (W.contents out.old) (W.contents out.new)
        (entry_text entered.now.key entered.now.attached)) }
    ensures order { OnErr result ((S.keeps system.new ≡ S.keeps system.old)
        ⊎ (S.keeps system.new path.now entered.now.attached.file.items ≡ true)) }
    ensures others { OthersKept path.now (S.keeps system.old) (S.keeps system.new) }
    ensures refused { IfErr result IsLate }
    ensures cause { IfErr result (λ f. f ≢ Failure.Memory
        → ((S.obstacles system.old).fails path.now ≡ true)
        ⊎ (S.keeps system.new path.now entered.now.attached.file.items ≡ true)) }
{
    keep_file(system, path, &entered.attached.file)?;
    let line = entry_line(alloc, &entered.key, &entered.attached)?;
    put(out, line.as_str())
}
