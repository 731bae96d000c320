//! Why a key counts for no threshold.

ghost use Rattle.std.specs.Prelude.{◌≡◌, IfOk};
ghost use Rattle.cjson.specs.Tree.{view};
ghost use Rattle.signing.specs.Signers as spec;

use cjson::text::Text;
use cjson::{NoMemory, Tree};
use keys::{is_lms, public_value};
use std::alloc::Global;

/// Why a listed id has no usable key, in the order of the checks.
pub enum Unusable {
    /// No key has the id.
    Absent,
    /// The key isn't of type `lms` and scheme `lms-sha256`. The text is its type, and empty if that
    /// is none.
    Type(Text),
    /// Its public value isn't one of a supported kind.
    Kind,
    /// Its id isn't its own.
    Id,
}

impl Drop for Unusable {
    fn drop(self) {
        match self {
            Unusable::Type(text) => {}
            Unusable::Absent | Unusable::Kind | Unusable::Id => {}
        }
    }
}

/// Returns why the id has no usable key in an object of keys, if it has none. Fails only if out of
/// memory.
pub(crate) fn why_unusable(alloc: Global, keys: &Tree, id: &str) -> Result<Unusable, NoMemory>
    ensures value { IfOk result (λ u. u ≡ spec.unusable (view keys.now) id.now) }
{
    match keys.get(id) {
        Some(key) => why_unusable_key(alloc, key),
        None => Ok(Unusable::Absent),
    }
}

fn why_unusable_key(alloc: Global, key: &Tree) -> Result<Unusable, NoMemory>
    ensures { IfOk result (λ u. u ≡ spec.unusable_key (view key.now)) }
{
    if !is_lms(key) {
        return Ok(Unusable::Type(key_type(alloc, key)?));
    }
    if public_value(key).is_none() {
        return Ok(Unusable::Kind);
    }
    Ok(Unusable::Id)
}

fn key_type(alloc: Global, key: &Tree) -> Result<Text, NoMemory>
    ensures { IfOk result (λ text. text ≡ spec.key_type (view key.now)) }
{
    let text = key.get("keytype").and_then(Tree::as_str).unwrap_or("");
    Ok(Text::new(String::from_str(alloc, text)?))
}
