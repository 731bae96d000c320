//! Public keys as key objects (TUF 1.0 section 4.2).

ghost use Rattle.std.specs.Prelude.{◌≡◌, ◌≢◌, Some, Ok, Err, IfOk, IfErr, length};
ghost use Rattle.std.specs.Prelude.{string_bytes, true};
ghost use Rattle.serde_json.specs.View.{view};
ghost use Rattle.cjson.specs.Canon.{canon};
ghost use Rattle.cjson.specs.Form.{Reads, ReadsAs};
ghost use Rattle.hex.specs.Hex.{decode_sized, encode_lower};
ghost use Rattle.lms.specs.Lms.{is_public};
ghost use Rattle.keys.specs.Keys.{key_id, public_value, ring, usable};
ghost use Rattle.signing.specs.NewKeys as spec;
ghost use Rattle.signing.specs.Octets.{octets};

use crate::fault::KeyFault;
use crate::metadata::read_value;
use crate::octets::{first_number, octets};
use cjson::text::Text;
use cjson::{Canon, NoMemory, ReadFault, canonical};
use keys::{Key, KeyRing, key_id};
use lms::Public;
use serde_json::{Value, json};
use std::alloc::{AllocError, Global};

/// A public key, its id, and the canonical text of its key object.
#[derive(Drop)]
pub struct NewKey {
    /// The key, under the id of its object.
    pub key: Key,
    /// The object's canonical text.
    pub text: Vec<u8>,
}

/// Makes the key object (TUF 1.0 section 4.2) of the public key in a file: 56 bytes of a supported
/// kind (RFC 8554 section 5.3), or 60 of HSS with one level (section 6.1), which lose the first
/// four. The file has the bytes as they are, or as hexadecimal digits. Fails with the first of
/// [`KeyFault`], or if out of memory.
#[tactic(auto, using(crate::proofs::OwnKeys::usable_object))]
pub fn make_key(alloc: Global, file: &[u8]) -> Result<NewKey, KeyFault>
    ensures public { IfOk result (λ n. spec.public_in (octets file.now) ≡ Ok n.key.public) }
    ensures text { IfOk result (λ n. canon (spec.key_object n.key.public) ≡ Some n.text.items) }
    ensures id { IfOk result (λ n. key_id (spec.key_object n.key.public) ≡ Some n.key.id) }
    ensures usable { IfOk result (λ n. usable n.key.id (spec.key_object n.key.public)
        ≡ Some n.key) }
    ensures refused { IfErr result (λ e. e ≢ KeyFault.NoMemory
        → spec.public_in (octets file.now) ≡ Err e) }
{
    let bytes = octets(alloc, file)?;
    let public = public_in(&bytes)?;
    let object = key_object(alloc, &public)?;
    let id = id_of(alloc, &object)?;
    let text = text_of(alloc, &object)?;
    let id = Text::new(id);
    Ok(NewKey {
        key: Key { id, public },
        text,
    })
}

/// Returns the public key that the bytes are.
fn public_in(bytes: &[u8]) -> Result<Public, KeyFault>
    ensures { result ≡ spec.public_in bytes.now }
{
    match bytes.len() {
        60 => one_level(bytes),
        56 => supported(bytes),
        other => Err(KeyFault::Length(other)),
    }
}

/// Returns the public key of HSS that the bytes are, if it has one level (RFC 8554 section 6.1).
fn one_level(bytes: &[u8]) -> Result<Public, KeyFault>
    requires { length bytes.now ≡ 60 }
    ensures { result ≡ spec.one_level bytes.now }
{
    let levels = first_number(bytes);
    if levels != 1 {
        return Err(KeyFault::Levels(levels));
    }
    supported(&bytes[4..])
}

fn supported(bytes: &[u8]) -> Result<Public, KeyFault>
    ensures { result ≡ spec.supported bytes.now }
{
    match Public::read(bytes) {
        Some(public) => Ok(public),
        None => Err(KeyFault::Kind),
    }
}

/// Returns the key object of the public key.
#[tactic(auto, using(crate::proofs::OwnKeys::public_value_object))]
fn key_object(alloc: Global, public: &Public) -> Result<Value, AllocError>
    ensures object { IfOk result (λ v. view v ≡ spec.key_object public.now) }
    ensures public { IfOk result (λ v. public_value (view v) ≡ Some public.now) }
{
    let digits = digits_of(alloc, public)?;
    object_of(alloc, digits)
}

/// Returns the hexadecimal digits of the public key.
fn digits_of(alloc: Global, public: &Public) -> Result<String, AllocError>
    ensures digits { IfOk result (λ s. string_bytes s ≡ encode_lower public.now) }
    ensures back { decode_sized (encode_lower public.now) 56 ≡ Ok public.now }
    ensures public { is_public public.now ≡ true }
{
    encoded(alloc, public.bytes().as_slice())
}

/// Returns the hexadecimal digits of 56 bytes.
fn encoded(alloc: Global, bytes: &[u8]) -> Result<String, AllocError>
    requires { length bytes.now ≡ 56 }
    ensures digits { IfOk result (λ s. string_bytes s ≡ encode_lower bytes.now) }
    ensures back { decode_sized (encode_lower bytes.now) 56 ≡ Ok bytes.now }
{
    hex::encode(alloc, bytes)
}

/// Returns the key object with these digits.
fn object_of(alloc: Global, digits: String) -> Result<Value, AllocError>
    ensures { IfOk result (λ v. view v ≡ spec.object_of (string_bytes digits)) }
{
    json!(in alloc; {"keytype": "lms", "keyval": {"public": digits}, "scheme": "lms-sha256"})
}

/// Returns the id of a key object.
fn id_of(alloc: Global, object: &Value) -> Result<String, KeyFault>
    requires { spec.IsKeyObject (view object.now) }
    ensures id { IfOk result (λ id. key_id (view object.now) ≡ Some (string_bytes id)) }
    ensures memory { IfErr result (λ e. e ≡ KeyFault.NoMemory) }
{
    match key_id(alloc, object) {
        Ok(id) => Ok(id),
        Err(Canon::NoMemory) => Err(KeyFault::NoMemory),
        Err(Canon::Float) => unreachable!(),
    }
}

/// Returns the canonical text of a key object.
fn text_of(alloc: Global, object: &Value) -> Result<Vec<u8>, KeyFault>
    requires { spec.IsKeyObject (view object.now) }
    ensures text { IfOk result (λ text. canon (view object.now) ≡ Some text.items) }
    ensures memory { IfErr result (λ e. e ≡ KeyFault.NoMemory) }
{
    match canonical(alloc, object) {
        Ok(text) => Ok(text),
        Err(Canon::NoMemory) => Err(KeyFault::NoMemory),
        Err(Canon::Float) => unreachable!(),
    }
}

/// Reads the file of a key object as the key under the object's own id (TUF 1.0 section 4.2). Fails
/// with `Malformed` if the file isn't JSON, or the key isn't usable, or with `NoMemory`.
pub fn read_key(alloc: Global, file: &[u8]) -> Result<Key, ReadFault>
    ensures read { Reads (spec.key_in file.now) result }
{
    let object = read_value(alloc, file)?;
    let id = own_id(alloc, &object)?;
    usable_key(alloc, id.as_str(), &object)
}

/// Returns the id of the object.
fn own_id(alloc: Global, object: &Value) -> Result<String, ReadFault>
    ensures { ReadsAs (key_id (view object.now)) result string_bytes }
{
    match key_id(alloc, object) {
        Ok(id) => Ok(id),
        Err(Canon::Float) => Err(ReadFault::Malformed),
        Err(Canon::NoMemory) => Err(ReadFault::NoMemory),
    }
}

/// Returns the key, if it counts under the id.
fn usable_key(alloc: Global, id: &str, object: &Value) -> Result<Key, ReadFault>
    ensures { Reads (usable id.now (view object.now)) result }
{
    let Some(ring) = ring_of(alloc, id, object)? else {
        return Err(ReadFault::Malformed);
    };
    match ring.keys().first() {
        Some(key) => Ok(copy_key(alloc, key)?),
        None => Err(ReadFault::Malformed),
    }
}

/// Returns the usable keys of an object of keys that has this one alone.
fn ring_of(alloc: Global, id: &str, object: &Value) -> Result<Option<KeyRing>, NoMemory>
    ensures { IfOk result (λ o. o ≡ ring (spec.alone id.now (view object.now))) }
{
    let keys = alone(alloc, id, object)?;
    KeyRing::read(alloc, &keys)
}

fn alone(alloc: Global, id: &str, object: &Value) -> Result<Value, AllocError>
    ensures { IfOk result (λ v. view v ≡ spec.alone id.now (view object.now)) }
{
    json!(in alloc; {(id): object})
}

fn copy_key(alloc: Global, key: &Key) -> Result<Key, AllocError>
    ensures { IfOk result (λ k. k ≡ key.now) }
{
    let id = Text::new(String::from_str(alloc, key.id.as_str())?);
    Ok(Key {
        id,
        public: key.public,
    })
}
