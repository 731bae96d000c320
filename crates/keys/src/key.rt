//! A single usable key.

ghost use Rattle.std.specs.Prelude.{◌≡◌, IfOk, string_bytes};
ghost use Rattle.serde_json.specs.View as data_of;
ghost use Rattle.cjson.specs.Tree.{view};
ghost use Rattle.keys.specs.Keys as spec;

use cjson::text::{Text, is_text};
use cjson::{Canon, NoMemory, Tree, canonical_text, tree_from};
use hex::FromHex;
use lms::Public;
use serde_json::Value;
use sha2::{Digest, Sha256};
use std::alloc::Global;

/// A usable key: of type `lms` and scheme `lms-sha256`, with a public value of a supported kind,
/// under its own id (TUF 1.0 section 4.2).
pub struct Key {
    /// The key's id: 64 lower-case hexadecimal digits.
    pub id: Text,
    /// The public value.
    pub public: Public,
}

impl Drop for Key {
    fn drop(self) {
        let Key { id, public } = self;
    }
}

/// Returns the id of a key object: the SHA-256 of its canonical text, in 64 lower-case hexadecimal
/// digits (TUF 1.0 section 4.2). Fails with `Float` if a number of the object isn't whole, since it
/// then has no canonical text, or with `NoMemory`.
pub fn key_id(alloc: Global, key: &Value) -> Result<String, Canon>
    ensures digest { spec.GivesText (spec.key_id (data_of.view key.now)) result string_bytes }
{
    let tree = tree_from(alloc, key)?;
    id_of(alloc, &tree)
}

/// Returns the id of a key object that is a tree.
fn id_of(alloc: Global, key: &Tree) -> Result<String, Canon>
    ensures { spec.GivesText (spec.key_id (view key.now)) result string_bytes }
{
    let text = canonical_text(alloc, key)?;
    let digest: [u8; 32] = Sha256::digest(text.as_slice());
    Ok(hex::encode(alloc, digest)?)
}

/// Returns the key, if it counts under the id. Fails only if out of memory.
pub(crate) fn usable_key(alloc: Global, id: &str, key: &Tree) -> Result<Option<Key>, NoMemory>
    ensures { IfOk result (λ o. o ≡ spec.usable id.now (view key.now)) }
{
    let Some(public) = public_value(key) else {
        return Ok(None);
    };
    if !is_lms(key) || !is_own_id(alloc, id, key)? {
        return Ok(None);
    }
    let id = Text::new(String::from_str(alloc, id)?);
    Ok(Some(Key { id, public }))
}

/// Returns the public value of a key object: 56 bytes in hexadecimal, of a supported kind. None if
/// it has no such value.
pub fn public_value(key: &Tree) -> Option<Public>
    ensures value { result ≡ spec.public_value (view key.now) }
{
    let text = key.get("keyval")?.get("public")?.as_str()?;
    match <[u8; 56] as FromHex>::from_hex(text) {
        Ok(bytes) => Public::read(&bytes),
        Err(_) => None,
    }
}

/// Returns whether a key object has the type and scheme of LMS keys.
pub fn is_lms(key: &Tree) -> bool
    ensures value { result ≡ spec.is_lms (view key.now) }
{
    is_text(key, "keytype", "lms") && is_text(key, "scheme", "lms-sha256")
}

fn is_own_id(alloc: Global, id: &str, key: &Tree) -> Result<bool, NoMemory>
    ensures { IfOk result (λ b. b ≡ spec.is_own_id id.now (view key.now)) }
{
    match id_of(alloc, key) {
        Ok(found) => Ok(found.as_str() == id),
        Err(Canon::Float) => Ok(false),
        Err(Canon::NoMemory) => Err(NoMemory),
    }
}
