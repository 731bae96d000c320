//! Who signed a metadata file.

ghost use Rattle.std.specs.Prelude.{◌≡◌, ℕ, List, Some, IfOk, OnOk, bytes_eq, filter, find, fold};
ghost use Rattle.std.specs.Prelude.{length, option_map, true};
ghost use Rattle.std.specs.FinSet as set;
ghost use Rattle.std.specs.List.{list_any};
ghost use Rattle.cjson.specs.Document.{doc_of};
ghost use Rattle.cjson.specs.Tree.{view};
ghost use Rattle.cjson.specs.Canon.{is_ordered};
ghost use Rattle.keys.specs.Keys.{is_met, ring, signers};
ghost use Rattle.signing.specs.Attached.{is_good};
ghost use Rattle.signing.specs.Invalids as invalid;
ghost use Rattle.signing.specs.Signers as spec;

use crate::counted::{id_count, signers_of};
use crate::entries::is_good;
use crate::fault::Invalid;
use crate::invalid::{decoded, leaf_in, reason_of};
use crate::unusable::{Unusable, why_unusable};
use cjson::list::Items;
use cjson::text::Text;
use cjson::{Doc, Entry, NoMemory, Tree};
use keys::{Key, KeyRing, RoleKeys};
use lms::Public;
use std::alloc::{AllocError, Global};

/// Maximum number of listed ids of which it is said what they came to.
const MOST_KEYS: usize = 64;

/// The keys that must sign a metadata file.
#[derive(Clone, Copy)]
pub struct Required<'a> {
    /// The object of keys of the file that lists them.
    pub keys: &'a Tree,
    /// Its usable keys.
    pub ring: &'a KeyRing,
    /// The ids of those that may sign, and how many of them must.
    pub role: &'a RoleKeys,
}

/// What a listed id came to.
pub enum KeyFinding {
    /// No usable key has the id.
    Unusable(Unusable),
    /// An entry under the id is valid. Its signature has this leaf.
    Signed(u32),
    /// An entry under the id is valid, and the key's public value has signed under this id, which
    /// is listed before.
    Again(Text),
    /// No entry is under the id.
    Unsigned,
    /// This number of entries is under the id, and none is valid, the first for this reason.
    Invalid(usize, Invalid),
}

impl Drop for KeyFinding {
    fn drop(self) {
        match self {
            KeyFinding::Unusable(why) => {}
            KeyFinding::Again(id) => {}
            KeyFinding::Signed(_) | KeyFinding::Unsigned | KeyFinding::Invalid(_, _) => {}
        }
    }
}

/// A listed id, and what it came to.
pub struct ListedKey {
    /// The id.
    pub id: Text,
    /// What it came to.
    pub finding: KeyFinding,
}

impl Drop for ListedKey {
    fn drop(self) {
        let ListedKey { id, finding } = self;
    }
}

/// Who signed a metadata file.
pub struct Signing {
    /// Whether the threshold is met.
    pub is_met: bool,
    /// How many keys must sign.
    pub threshold: u64,
    /// The number of public values that signed.
    pub signed: usize,
    /// How many ids are listed, each counted once.
    pub listed: usize,
    /// The listed ids, each once, in the order in which they are listed first, up to 64.
    pub keys: Items<ListedKey>,
}

impl Drop for Signing {
    fn drop(self) {
        let Signing {
            is_met,
            threshold,
            signed,
            listed,
            keys,
        } = self;
    }
}

/// Returns whether enough of the keys signed the document (TUF 1.0 section 4.3), how many did, how
/// many ids are listed, and what each of the first 64 came to. Fails only if out of memory.
///
/// Looks up ids and entries by maps. Checks the entries of a key up to its first valid one, and
/// those of the first 64 ids twice.
#[tactic(auto, using(crate::proofs::Reasons::reasoned))]
pub fn signing_of(alloc: Global, doc: &Doc, by: &Required<'_>) -> Result<Signing, NoMemory>
    ensures met { IfOk result (λ s. s.is_met
        ≡ is_met (doc_of doc.now).text (doc_of doc.now).entries by.now.ring.now by.now.role.now) }
    ensures threshold { IfOk result (λ s. s.threshold ≡ by.now.role.now.threshold) }
    ensures signed { IfOk result (λ s. s.signed ≡ set.len (signers
        (doc_of doc.now).text (doc_of doc.now).entries by.now.ring.now by.now.role.now)) }
    ensures listed { IfOk result (λ s. s.listed ≡ spec.id_count by.now.role.now) }
    ensures keys { IfOk result (λ s. s.keys ≡ spec.findings (doc_of doc.now).text
        (doc_of doc.now).entries (view by.now.keys.now) by.now.ring.now by.now.role.now) }

    // The names of the object ascend, and the ring is its own.
    ensures unusable { is_ordered (view by.now.keys.now) ≡ true
        → ring (view by.now.keys.now) ≡ Some by.now.ring.now → (id : List ℕ)
        → spec.IsReasoned (view by.now.keys.now) by.now.ring.now id }
{
    let threshold = by.role.threshold.get();
    let signed = signers_of(alloc, doc, by.ring, by.role)?.len();
    let listed = id_count(alloc, by.role.ids.as_slice())?;
    let keys = Items::new(findings(alloc, doc, by)?);
    Ok(Signing {
        is_met: signed as u64 >= threshold,
        threshold,
        signed,
        listed,
        keys,
    })
}

fn is_signed(key: &ListedKey) -> bool
    ensures { result ≡ spec.is_signed key.now }
{
    matches!(key.finding, KeyFinding::Signed(_))
}

/// Returns what each listed id came to.
fn findings(alloc: Global, doc: &Doc, by: &Required<'_>) -> Result<Vec<ListedKey>, NoMemory>
    ensures { IfOk result (λ all. all.items ≡ spec.findings (doc_of doc.now).text
        (doc_of doc.now).entries (view by.now.keys.now) by.now.ring.now by.now.role.now) }
{
    let mut all = Vec::new(alloc);
    for id in by.role.ids.as_slice() {
        add_id(alloc, &mut all, doc, by, id.as_str())?;
    }
    Ok(all)
}

/// Adds a listed id, unless it is there or 64 are.
fn add_id(
    alloc: Global,
    all: &mut Vec<ListedKey>,
    doc: &Doc,
    by: &Required<'_>,
    id: &str,
) -> Result<(), NoMemory>
    ensures { OnOk result (all.new.items ≡ spec.with_id (doc_of doc.now).text
        (doc_of doc.now).entries (view by.now.keys.now) by.now.ring.now all.old.items id.now) }
{
    if all.len() >= MOST_KEYS || is_named(all.as_slice(), id) {
        return Ok(());
    }
    let finding = finding_of(alloc, all.as_slice(), doc, by, id)?;
    let id = Text::new(String::from_str(alloc, id)?);
    all.push(ListedKey { id, finding })?;
    Ok(())
}

fn is_named(all: &[ListedKey], id: &str) -> bool
    ensures { result ≡ list_any (spec.is_named id.now) all.now }
{
    all.iter().any(|listed| listed.id.as_str() == id)
}

/// Returns what a listed id came to, after these.
fn finding_of(
    alloc: Global,
    all: &[ListedKey],
    doc: &Doc,
    by: &Required<'_>,
    id: &str,
) -> Result<KeyFinding, NoMemory>
    ensures { IfOk result (λ f. f ≡ spec.finding (doc_of doc.now).text (doc_of doc.now).entries
        (view by.now.keys.now) by.now.ring.now all.now id.now) }
{
    let Some(key) = key_of(by.ring, id) else {
        return Ok(KeyFinding::Unusable(why_unusable(alloc, by.keys, id)?));
    };
    match good_entry(key, doc.bytes(), doc.entries()) {
        Some(entry) => signed_finding(alloc, all, by.ring, key, entry),
        None => unsigned_finding(alloc, key, doc.entries()),
    }
}

/// Returns the usable key of the id.
fn key_of<'a>(ring: &'a KeyRing, id: &str) -> Option<&'a Key>
    ensures { option_map (λ k. k.now) result ≡ spec.key_of ring.now id.now }
{
    ring.keys().iter().find(|key| key.id.as_str() == id)
}

/// Returns the first entry under the key's id that is valid.
fn good_entry<'a>(key: &Key, message: &[u8], entries: &'a [Entry]) -> Option<&'a Entry>
    ensures { option_map (λ e. e.now) result ≡ find (is_good key.now message.now) entries.now }
{
    entries.iter().find(|entry| is_good(key, message, entry))
}

/// Returns the first entry under the key's id.
fn entry_under<'a>(key: &Key, entries: &'a [Entry]) -> Option<&'a Entry>
    ensures { option_map (λ e. e.now) result ≡ find (spec.is_under key.now) entries.now }
{
    entries
        .iter()
        .find(|entry| entry.keyid.as_str() == key.id.as_str())
}

fn entry_count(key: &Key, entries: &[Entry]) -> usize
    ensures { result ≡ length (filter (spec.is_under key.now) entries.now) }
{
    entries
        .iter()
        .filter(|entry| entry.keyid.as_str() == key.id.as_str())
        .count()
}

/// Returns what a key came to that signed by the entry.
fn signed_finding(
    alloc: Global,
    all: &[ListedKey],
    ring: &KeyRing,
    key: &Key,
    entry: &Entry,
) -> Result<KeyFinding, NoMemory>
    ensures { IfOk result
        (λ f. f ≡ spec.signed_finding ring.now all.now key.now entry.now) }
{
    if let Some(listed) = signed_as(all, ring, &key.public) {
        let id = String::from_str(alloc, listed.id.as_str())?;
        return Ok(KeyFinding::Again(Text::new(id)));
    }
    Ok(KeyFinding::Signed(text_leaf(alloc, entry.sig.as_str())?))
}

/// Returns the first of these that signed with the public value.
fn signed_as<'a>(all: &'a [ListedKey], ring: &KeyRing, public: &Public) -> Option<&'a ListedKey>
    ensures { option_map (λ k. k.now) result
        ≡ find (spec.is_signed_as ring.now public.now) all.now }
{
    all.iter().find(|listed| is_signed_as(ring, public, listed))
}

fn is_signed_as(ring: &KeyRing, public: &Public, listed: &ListedKey) -> bool
    ensures { result ≡ spec.is_signed_as ring.now public.now listed.now }
{
    is_signed(listed) && has_public(ring, listed.id.as_str(), public)
}

/// Returns whether the id has a usable key with the public value.
fn has_public(ring: &KeyRing, id: &str, public: &Public) -> bool
    ensures { result ≡ spec.has_public ring.now id.now public.now }
{
    match key_of(ring, id) {
        Some(key) => key.public.bytes() == public.bytes(),
        None => false,
    }
}

/// Returns what a key came to that didn't sign.
fn unsigned_finding(alloc: Global, key: &Key, entries: &[Entry]) -> Result<KeyFinding, NoMemory>
    ensures { IfOk result (λ f. f ≡ spec.unsigned_finding entries.now key.now) }
{
    let Some(entry) = entry_under(key, entries) else {
        return Ok(KeyFinding::Unsigned);
    };
    let reason = text_reason(alloc, &key.public, entry.sig.as_str())?;
    Ok(KeyFinding::Invalid(entry_count(key, entries), reason))
}

/// Returns why the text of an entry isn't a valid signature.
fn text_reason(alloc: Global, public: &Public, text: &str) -> Result<Invalid, NoMemory>
    ensures { IfOk result (λ r. r ≡ invalid.text_reason public.now text.now) }
{
    match decoded(alloc, text)? {
        Some(sig) => Ok(reason_of(public, &sig)),
        None => Ok(Invalid::Hexadecimal),
    }
}

/// Returns the leaf of the signature that a text encodes.
fn text_leaf(alloc: Global, text: &str) -> Result<u32, NoMemory>
    ensures { IfOk result (λ leaf. leaf ≡ invalid.text_leaf text.now) }
{
    match decoded(alloc, text)? {
        Some(sig) => Ok(leaf_in(&sig)),
        None => Ok(0),
    }
}
