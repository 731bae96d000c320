//! Whether enough keys signed a document.

ghost use Rattle.std.specs.Prelude.{◌≡◌, ◌&&◌, IfOk};
ghost use Rattle.cjson.specs.Document.{doc_of};
ghost use Rattle.keys.specs.Keys as spec;

use crate::entries::Entries;
use crate::judge::{Ask, Judge, SignatureAsk};
use crate::key::Key;
use crate::ring::KeyRing;
use crate::role_keys::RoleKeys;
use crate::signers::Signers;
use cjson::{Doc, NoMemory};
use std::alloc::Global;
use std::collections::BTreeSet;

/// Returns whether the document has at least as many signers as the role's threshold (TUF 1.0
/// section 4.3): keys of the ring that the role lists, each with an entry under its id that is
/// valid on the canonical text of `signed`. Keys with one public value count once, however many ids
/// or entries they have.
///
/// Passes `file` to the judge as the name of the document's file. Stops at the threshold, and stops
/// checking a key at its first valid entry. Listed ids and entries are looked up by id, so many
/// keys over many entries cost no more than their number. Fails only if out of memory.
pub fn enough<J: Judge>(
    alloc: Global,
    doc: &Doc,
    file: &str,
    ring: &KeyRing,
    role: &RoleKeys,
    judge: &mut J,
) -> Result<bool, NoMemory>
    ensures met { IfOk result (λ b. b
        ≡ spec.is_met (doc_of doc.now).text (doc_of doc.now).entries ring.now role.now) }
{
    let signed = Signed { doc, file };
    let listed = role.id_set(alloc)?;
    let entries = Entries::of(alloc, doc)?;
    let mut signers = Signers::new(alloc);
    for key in ring.keys() {
        if signers.len() as u64 >= role.threshold.get() {
            return Ok(true);
        }
        if has_signed(&signed, &listed, &entries, key, judge)? {
            signers.add(&key.public)?;
        }
    }
    Ok(signers.len() as u64 >= role.threshold.get())
}

/// A document, and the name of its file.
#[derive(Clone, Copy)]
struct Signed<'a> {
    doc: &'a Doc,
    file: &'a str,
}

/// Returns whether the key's id is listed, and an entry under it has a valid signature.
fn has_signed<J: Judge>(
    signed: &Signed,
    listed: &BTreeSet<&str>,
    entries: &Entries,
    key: &Key,
    judge: &mut J,
) -> Result<bool, NoMemory>
    requires { spec.IsById entries.now.by_id (doc_of signed.now.doc.now).entries }
    ensures { IfOk result (λ b. b ≡ (spec.has_id listed.now key.now.id
        && spec.has_entry (doc_of signed.now.doc.now).text (doc_of signed.now.doc.now).entries
        key.now)) }
{
    if !listed.contains(key.id.as_str()) {
        return Ok(false);
    }
    let Some(under) = entries.under(key.id.as_str()) else {
        return Ok(false);
    };
    let message = signed.doc.bytes();
    for placed in under {
        if judge.valid(&Ask::Signature(SignatureAsk {
            file: signed.file,
            place: placed.place,
            public: &key.public,
            message,
            sig: placed.sig,
        }))? {
            return Ok(true);
        }
    }
    Ok(false)
}
