//! How many keys signed a document, and how many ids a role lists.

ghost use Rattle.std.specs.Prelude.{◌≡◌, ◌&&◌, IfOk};
ghost use Rattle.std.specs.Cmp.Lexicographic.{slice_cmp};
ghost use Rattle.std.specs.FinSet as set;
ghost use Rattle.std.specs.Ordering.{nat_cmp};
ghost use Rattle.cjson.specs.Document.{doc_of};
ghost use Rattle.keys.specs.Keys as keys;

use cjson::text::Text;
use cjson::{Doc, NoMemory};
use keys::{Entries, Key, KeyRing, RoleKeys, Signers, is_signed_by};
use std::alloc::Global;
use std::collections::BTreeSet;

/// Returns the public values that signed the document (TUF 1.0 section 4.3).
pub(crate) fn signers_of(
    alloc: Global,
    doc: &Doc,
    ring: &KeyRing,
    role: &RoleKeys,
) -> Result<Signers, NoMemory>
    ensures signers { IfOk result (λ s. s ≡ keys.signers
        (doc_of doc.now).text (doc_of doc.now).entries ring.now role.now) }
{
    let listed = role.id_set(alloc)?;
    let entries = Entries::of(alloc, doc)?;
    let mut signers = Signers::new(alloc);
    for key in ring.keys() {
        if has_signed(doc, &listed, &entries, key) {
            signers.add(&key.public)?;
        }
    }
    Ok(signers)
}

/// Returns whether the key's id is listed, and an entry under it is valid.
fn has_signed(doc: &Doc, listed: &BTreeSet<&str>, entries: &Entries<'_>, key: &Key) -> bool
    requires { keys.IsById entries.now.by_id (doc_of doc.now).entries }
    ensures { result ≡ (keys.has_id listed.now key.now.id
        && keys.has_entry (doc_of doc.now).text (doc_of doc.now).entries key.now) }
{
    if !listed.contains(key.id.as_str()) {
        return false;
    }
    let Some(under) = entries.under(key.id.as_str()) else {
        return false;
    };
    let message = doc.bytes();
    for placed in under {
        if is_signed_by(&key.public, message, placed.sig) {
            return true;
        }
    }
    false
}

/// Returns how many ids these are, each counted once.
pub(crate) fn id_count(alloc: Global, ids: &[Text]) -> Result<usize, NoMemory>
    ensures count { IfOk result
        (λ n. n ≡ set.len (set.from_list {R = slice_cmp nat_cmp} ids.now)) }
{
    let mut seen: BTreeSet<&str> = BTreeSet::new(alloc);
    for id in ids {
        seen.insert(id.as_str())?;
    }
    Ok(seen.len())
}
