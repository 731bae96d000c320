//! Signed metadata files.

ghost use Rattle.std.specs.Prelude.{◌≡◌, ◌≢◌, ◌↔◌, ◌+◌, ◌<◌, ◌⊎◌, ℕ, List, Some, IsSome, IfOk};
ghost use Rattle.std.specs.Prelude.{OnOk, OnErr, All, fold, length, map, string_bytes};
ghost use Rattle.std.specs.List.{AllZip};
ghost use Rattle.serde_json.specs.Find.{as_object};
ghost use Rattle.serde_json.specs.View.{view, items_view};
ghost use Rattle.cjson.specs.Canon.{canon};
ghost use Rattle.cjson.specs.declared.doc.Entry.{Entry};
ghost use Rattle.seals.specs.Sealed.{HasSpent, IsSealed, IsSignedAt, IsSignedBy, IsUsedUp};
ghost use Rattle.seals.specs.Sealed.{entry_object, entry_objects, holder, sealed, spend, unused};
ghost use Rattle.seals.specs.Sealed.{used_of};

use crate::fault::MakeFault;
use crate::signer::Signer;
use cjson::{Canon, canonical};
use serde_json::{Value, json};
use std::alloc::{AllocError, Global};

/// Returns a metadata file (TUF 1.0 section 4.2): `signed` is the value, and `signatures` has a
/// signature of its canonical text by each of the signers at the places `by`, in order. The file is
/// canonical text itself.
///
/// Each place takes one leaf. Fails with `Used` if a signer has fewer leaves left than there are
/// places that name it, or with `NoMemory`. On error, each of some first places has taken its leaf,
/// and nothing else has changed. No key and no id ever changes.
pub fn seal(
    alloc: Global,
    value: &Value,
    signers: &mut [Signer],
    by: &[usize],
) -> Result<Vec<u8>, MakeFault>
    requires places { All (λ p. p < length signers.old) by.now }
    requires object { IsSome (as_object (view value.now)) }
    requires canonical { IsSome (canon (view value.now)) }
    ensures file { IfOk result (λ file. IsSealed (view value.now) (map holder signers.old) by.now
        file.items) }
    ensures kept { map unused signers.new ≡ map unused signers.old }
    ensures leaves { OnOk result (map used_of signers.new
        ≡ fold spend (map used_of signers.old) by.now) }
    ensures spent { OnErr result (HasSpent by.now (map used_of signers.old)
        (map used_of signers.new)) }

    ensures used { result ≢ Err MakeFault.NoMemory → (result ≡ Err MakeFault.Used)
        ↔ IsUsedUp signers.old by.now }
    ensures no_script { (line : ℕ) → result ≢ Err (MakeFault.Script line) }
{
    let text = text_of(alloc, value)?;
    seal_text(alloc, value, &text, signers, by)
}

/// As [`seal`], for a value whose canonical text is known.
pub fn seal_text(
    alloc: Global,
    value: &Value,
    text: &[u8],
    signers: &mut [Signer],
    by: &[usize],
) -> Result<Vec<u8>, MakeFault>
    requires places { All (λ p. p < length signers.old) by.now }
    requires object { IsSome (as_object (view value.now)) }
    requires text { canon (view value.now) ≡ Some text.now }
    ensures file { IfOk result (λ file. IsSealed (view value.now) (map holder signers.old) by.now
        file.items) }
    ensures kept { map unused signers.new ≡ map unused signers.old }
    ensures leaves { OnOk result (map used_of signers.new
        ≡ fold spend (map used_of signers.old) by.now) }
    ensures spent { OnErr result (HasSpent by.now (map used_of signers.old)
        (map used_of signers.new)) }
    ensures used { result ≢ Err MakeFault.NoMemory → (result ≡ Err MakeFault.Used)
        ↔ IsUsedUp signers.old by.now }
    ensures no_script { (line : ℕ) → result ≢ Err (MakeFault.Script line) }
{
    let entries = entries(alloc, signers, by, text)?;
    let file = file_of(alloc, value, entries)?;
    text_of(alloc, &file)
}

/// Returns the canonical text of a value that has one.
fn text_of(alloc: Global, value: &Value) -> Result<Vec<u8>, MakeFault>
    requires { IsSome (canon (view value.now)) }
    ensures text { IfOk result (λ text. canon (view value.now) ≡ Some text.items) }
    ensures err { OnErr result (result ≡ Err MakeFault.NoMemory) }
{
    match canonical(alloc, value) {
        Ok(text) => Ok(text),
        Err(Canon::NoMemory) => Err(MakeFault::NoMemory),
        Err(Canon::Float) => unreachable!(),
    }
}

/// Returns the entry of `signatures` that a signer makes for the text.
fn entry(alloc: Global, signer: &mut Signer, text: &[u8]) -> Result<Value, MakeFault>
    ensures entry { IfOk result (λ v. (e : Entry) × (view v ≡ entry_object e)
        × IsSignedBy (holder signer.old) text.now e) }
    ensures kept { unused signer.new ≡ unused signer.old }
    ensures leaf { OnOk result (used_of signer.new ≡ used_of signer.old + 1) }
    ensures spent { OnErr result ((used_of signer.new ≡ used_of signer.old)
        ⊎ (used_of signer.new ≡ used_of signer.old + 1)) }
    ensures used { (result ≡ Err MakeFault.Used)
        ↔ (used_of signer.old ≡ (holder signer.old).leaves) }
    ensures no_script { (line : ℕ) → result ≢ Err (MakeFault.Script line) }
{
    let signature = signer.secret.sign(text)?;
    let sig = hex::encode(alloc, &signature)?;
    Ok(entry_of(alloc, signer.id.as_str(), sig)?)
}

/// Returns the entry of `signatures` for a signature in hexadecimal (TUF 1.0 section 4.2). Fails
/// only if out of memory.
pub fn entry_of(alloc: Global, id: &str, sig: String) -> Result<Value, AllocError>
    ensures entry { IfOk result
        (λ v. view v ≡ entry_object (record { keyid = id.now; sig = string_bytes sig })) }
{
    json!(in alloc; { "keyid": id, "sig": sig })
}

/// Returns the tree of a file with these entries (TUF 1.0 section 4.2). Fails only if out of
/// memory.
pub fn file_of(alloc: Global, value: &Value, entries: Vec<Value>) -> Result<Value, AllocError>
    ensures file { IfOk result (λ v. (es : List Entry) → items_view entries.items ≡ entry_objects es
        → view v ≡ sealed (view value.now) es) }
{
    json!(in alloc; { "signatures": entries, "signed": value })
}

/// Returns the entries of the signers at the places, in order.
fn entries(
    alloc: Global,
    signers: &mut [Signer],
    by: &[usize],
    text: &[u8],
) -> Result<Vec<Value>, MakeFault>
    requires { All (λ p. p < length signers.old) by.now }
    ensures entries { IfOk result (λ vs. (es : List Entry)
        × (items_view vs.items ≡ entry_objects es)
        × AllZip (IsSignedAt (map holder signers.old) text.now) by.now es) }
    ensures kept { map unused signers.new ≡ map unused signers.old }
    ensures leaves { OnOk result (map used_of signers.new
        ≡ fold spend (map used_of signers.old) by.now) }
    ensures spent { OnErr result (HasSpent by.now (map used_of signers.old)
        (map used_of signers.new)) }
    ensures used { result ≢ Err MakeFault.NoMemory → (result ≡ Err MakeFault.Used)
        ↔ IsUsedUp signers.old by.now }
    ensures no_script { (line : ℕ) → result ≢ Err (MakeFault.Script line) }
{
    let mut entries = Vec::with_capacity(alloc, by.len())?;
    for place in by {
        entries.push(entry(alloc, &mut signers[*place], text)?)?;
    }
    Ok(entries)
}
