//! Who had to sign, and who did.

ghost use Rattle.std.specs.Prelude.{◌≡◌, IfOk};
ghost use Rattle.cjson.specs.Document.{doc_of};
ghost use Rattle.cjson.specs.Tree.{view};
ghost use Rattle.reasons.specs.Reasons as spec;
ghost use Rattle.reasons.specs.Reasons.{Explains};
ghost use Rattle.reasons.specs.Stops as stop;

use crate::reason::{Ended, Reason};
use cjson::{Doc, NoMemory, Tree};
use meta::{Part, Root, Stop, read_document};
use signing::{Required, Signing, signing_of};
use std::alloc::Global;

/// Checks that enough of the keys signed the document (TUF 1.0 section 4.3).
pub(crate) fn signed_check(alloc: Global, doc: &Doc, by: &Required<'_>) -> Result<(), Ended>
    ensures { Explains (spec.signed_check (spec.by by.now) (doc_of doc.now)) result (λ x. x) }
{
    let signing = signing_by(alloc, doc, by)?;
    if !signing.is_met {
        return Err(Ended::Refused(Reason::Unsigned(signing)));
    }
    Ok(())
}

/// Returns who signed the document, and whether they are enough. Fails only if out of memory.
pub(crate) fn signing_by(alloc: Global, doc: &Doc, by: &Required<'_>) -> Result<Signing, NoMemory>
    ensures { IfOk result (λ s. s ≡ spec.signing_by (spec.by by.now) (doc_of doc.now)) }
{
    signing_of(alloc, doc, by)
}

/// Returns the keys that a root lists for roots, of its document.
pub(crate) fn own_required<'a>(doc: &'a Doc, root: &'a Root) -> Required<'a>
    ensures { spec.by result ≡ spec.own_by root.now (doc_of doc.now) }
{
    Required {
        keys: keys_in(doc),
        ring: root.ring(),
        role: root.root(),
    }
}

/// Returns the object of keys of what a root signs.
pub(crate) fn keys_in(doc: &Doc) -> &Tree
    ensures { view result.now ≡ spec.keys_in (doc_of doc.now).signed }
{
    let signed = doc.tree();
    match signed.get("keys") {
        Some(keys) => keys,
        None => signed,
    }
}

/// Returns the document of a root file. Fails only if out of memory.
pub(crate) fn root_document(alloc: Global, root: &Part<Root>) -> Result<Doc, NoMemory>
    ensures { IfOk result
        (λ doc. spec.keys_in (doc_of doc).signed ≡ stop.root_keys root.now) }
{
    let _reading = root.reading();
    match read_document(alloc, root.bytes()) {
        Ok(doc) => Ok(doc),
        Err(Stop::NoMemory) => Err(NoMemory),
        Err(Stop::Refused(_)) => unreachable!(),
    }
}
