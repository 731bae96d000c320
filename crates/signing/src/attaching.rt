//! A signature that another program made, as an entry of a metadata file.

ghost use Rattle.std.specs.Prelude.{◌≡◌, ◌<◌, ◌++◌, Some, None, Ok, IfOk, IfErr, IsSome, List, ℕ};
ghost use Rattle.std.specs.Prelude.{if◌then◌else◌, map, option_map, string_bytes};
ghost use Rattle.serde_json.specs.Data.{depth};
ghost use Rattle.serde_json.specs.Find.{as_object};
ghost use Rattle.serde_json.specs.Read.{max_depth};
ghost use Rattle.serde_json.specs.View.{view};
ghost use Rattle.cjson.specs.Canon.{canon};
ghost use Rattle.cjson.specs.Document.{document};
ghost use Rattle.cjson.specs.declared.doc.Entry.{Entry};
ghost use Rattle.seals.specs.Sealed.{entry_object};
ghost use Rattle.signing.specs.Attached as spec;
ghost use Rattle.signing.specs.Attached.{IsAttached, IsRefused, signature_in};

use crate::entries::{has_entry, staying_values, valid_digits};
use crate::fault::AttachFault;
use crate::invalid::leaf_in;
use crate::metadata::{Draft, read_draft, read_metadata};
use crate::octets::octets;
use keys::Key;
use lms::Public;
use seals::{entry_of, file_of};
use serde_json::Value;
use std::alloc::{AllocError, Global};

/// A metadata file to which a signature was attached.
#[derive(Drop)]
pub struct Attached {
    /// The new file.
    pub file: Vec<u8>,
    /// The signature's leaf.
    pub leaf: u32,
    /// Whether it became an entry. If a valid one was there under the key's id, it didn't.
    pub is_new: bool,
}

/// Attaches the signature in a file to a metadata file, as an entry under the key's id (TUF 1.0
/// section 4.2), if it is valid on the canonical text of `signed`. If a valid entry is there under
/// the id already, adds none. Removes entries under the id that aren't valid.
///
/// The signature is one of LMS, or of HSS with one level, which loses the four zero bytes in front
/// (RFC 8554 section 6.2). Its file has the bytes as they are, or as hexadecimal digits. The
/// metadata file need have no `signatures`; of its members only these and `signed` stay.
///
/// Fails with `File` if the metadata file is malformed, with `Signature` if the signature isn't
/// valid, or with `NoMemory`.
pub fn attach(alloc: Global, file: &[u8], key: &Key, sig: &[u8]) -> Result<Attached, AttachFault>
    ensures attached { IfOk result
        (IsAttached file.now key.now (signature_in key.now.public sig.now)) }
    ensures refused { IfErr result
        (IsRefused file.now key.now (signature_in key.now.public sig.now)) }
{
    let value = read_metadata(alloc, file)?;
    let draft = read_draft(alloc, &value)?;
    let sig = read_signature(alloc, &key.public, sig)?;
    let digits = match valid_digits(alloc, &key.public, &draft.text, &sig) {
        Ok(digits) => digits,
        Err(fault) => return Err(fault),
    };
    let is_there = has_entry(key, &draft.text, draft.entries.as_slice());
    let new = new_text(is_there, digits);
    let entries = entries_after(alloc, key, &draft, new)?;
    let file = written(alloc, draft.signed, entries)?;
    Ok(Attached {
        file,
        leaf: leaf_in(&sig),
        is_new: !is_there,
    })
}

/// Returns the text of the new entry, unless a valid one is there.
fn new_text(is_there: bool, digits: String) -> Option<String>
    ensures { option_map string_bytes result
        ≡ (if is_there then None else Some (string_bytes digits)) }
{
    if is_there { None } else { Some(digits) }
}

/// Returns the signature in a file, for a public value.
fn read_signature(alloc: Global, public: &Public, file: &[u8]) -> Result<Vec<u8>, AllocError>
    ensures { IfOk result (λ sig. sig.items ≡ signature_in public.now file.now) }
{
    let bytes = octets(alloc, file)?;
    if !is_one_level(public.signature_len(), &bytes) {
        return Ok(bytes);
    }
    Vec::from_slice(alloc, &bytes[4..])
}

/// Returns whether the bytes are four zeros and then `due` further ones.
fn is_one_level(due: usize, bytes: &[u8]) -> bool
    ensures { result ≡ spec.is_one_level due bytes.now }
{
    bytes.len() >= 4 && bytes[..4] == [0, 0, 0, 0] && bytes[4..].len() == due
}

/// Returns the entries of the new file, with the new one's text, if there is one.
fn entries_after(
    alloc: Global,
    key: &Key,
    draft: &Draft<'_>,
    new: Option<String>,
) -> Result<Vec<Value>, AllocError>
    ensures { IfOk result (λ v. map view v.items ≡ map entry_object
        (spec.staying key.now draft.now.text.items draft.now.entries
        ++ spec.new_entry key.now (option_map string_bytes new))) }
{
    let mut values = staying_values(alloc, key, &draft.text, draft.entries.as_slice())?;
    if let Some(sig) = new {
        values.push(entry_of(alloc, key.id.as_str(), sig)?)?;
    }
    Ok(values)
}

/// Returns the metadata file that signs the value by the entries.
fn written(alloc: Global, signed: &Value, entries: Vec<Value>) -> Result<Vec<u8>, AllocError>
    requires object { IsSome (as_object (view signed.now)) }
    requires depth { depth (view signed.now) < max_depth }
    ensures file { IfOk result (λ file. (es : List Entry) (text : List ℕ)
        → map view entries.items ≡ map entry_object es → canon (view signed.now) ≡ Some text
        → document file.items ≡ Ok (spec.drafted (view signed.now) text es)) }
{
    let file = file_of(alloc, signed, entries)?;
    file.to_vec(alloc)
}
