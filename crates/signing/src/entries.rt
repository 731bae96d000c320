//! The entries of a file to which a signature is attached.

ghost use Rattle.std.specs.Prelude.{◌≡◌, ◌≢◌, IfOk, IfErr, false, map, string_bytes, true};
ghost use Rattle.hex.specs.Hex.{encode_lower};
ghost use Rattle.serde_json.specs.View.{view};
ghost use Rattle.keys.specs.Keys.{has_entry, is_signed_by};
ghost use Rattle.seals.specs.Sealed.{entry_object};
ghost use Rattle.signing.specs.Attached as spec;
ghost use Rattle.signing.specs.Invalids.{reason};

use crate::fault::AttachFault;
use crate::invalid::reason_of;
use cjson::Entry;
use keys::{Key, is_signed_by};
use lms::Public;
use seals::entry_of;
use serde_json::Value;
use std::alloc::{AllocError, Global};

/// Returns the hexadecimal digits of a signature that is valid, or why it isn't.
pub(crate) fn valid_digits(
    alloc: Global,
    public: &Public,
    message: &[u8],
    sig: &[u8],
) -> Result<String, AttachFault>
    ensures digits { IfOk result (λ s. string_bytes s ≡ encode_lower sig.now) }
    ensures valid { IfOk result (λ _. is_signed_by public.now message.now (encode_lower sig.now)
        ≡ true) }
    ensures reason { IfErr result (λ e. e ≢ AttachFault.NoMemory
        → e ≡ AttachFault.Signature (reason public.now sig.now)) }
    ensures invalid { IfErr result (λ e. e ≢ AttachFault.NoMemory
        → is_signed_by public.now message.now (encode_lower sig.now) ≡ false) }
{
    let digits = hex::encode(alloc, sig)?;
    if !is_signed_by(public, message, digits.as_str()) {
        return Err(AttachFault::Signature(reason_of(public, sig)));
    }
    Ok(digits)
}

/// Returns whether the entry is under the key's id and valid.
pub(crate) fn is_good(key: &Key, message: &[u8], entry: &Entry) -> bool
    ensures value { result ≡ spec.is_good key.now message.now entry.now }
{
    entry.keyid.as_str() == key.id.as_str()
        && is_signed_by(&key.public, message, entry.sig.as_str())
}

fn is_stale(key: &Key, message: &[u8], entry: &Entry) -> bool
    ensures { result ≡ spec.is_stale key.now message.now entry.now }
{
    entry.keyid.as_str() == key.id.as_str()
        && !is_signed_by(&key.public, message, entry.sig.as_str())
}

/// Returns whether an entry under the key's id is valid.
pub(crate) fn has_entry(key: &Key, message: &[u8], entries: &[Entry]) -> bool
    ensures value { result ≡ has_entry message.now entries.now key.now }
{
    let mut found = false;
    for entry in entries {
        found = found || is_good(key, message, entry);
    }
    found
}

/// Returns the entries but those under the key's id that aren't valid, in order.
fn staying<'a>(
    alloc: Global,
    key: &Key,
    message: &[u8],
    entries: &'a [Entry],
) -> Result<Vec<&'a Entry>, AllocError>
    ensures { IfOk result (λ v. map (λ e. e.now) v.items
        ≡ spec.staying key.now message.now entries.now) }
{
    let mut staying = Vec::with_capacity(alloc, entries.len())?;
    for entry in entries {
        if !is_stale(key, message, entry) {
            staying.push(entry)?;
        }
    }
    Ok(staying)
}

/// Returns the entries of the new file, but the one that is attached.
pub(crate) fn staying_values(
    alloc: Global,
    key: &Key,
    message: &[u8],
    entries: &[Entry],
) -> Result<Vec<Value>, AllocError>
    ensures { IfOk result (λ v. map view v.items
        ≡ map entry_object (spec.staying key.now message.now entries.now)) }
{
    let staying = staying(alloc, key, message, entries)?;
    let mut values = Vec::with_capacity(alloc, staying.len())?;
    for entry in &staying {
        let sig = String::from_str(alloc, entry.sig.as_str())?;
        values.push(entry_of(alloc, entry.keyid.as_str(), sig)?)?;
    }
    Ok(values)
}
