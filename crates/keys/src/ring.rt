//! The usable keys of a file, by id.

ghost use Rattle.std.specs.Prelude.{◌≡◌, IfOk};
ghost use Rattle.serde_json.specs.View.{view};
ghost use Rattle.cjson.specs.Form.{Reads};
ghost use Rattle.keys.specs.Keys as spec;

use crate::key::{Key, usable_key};
use cjson::form::{FromJson, if_formed};
use cjson::list::Items;
use cjson::members::{FromMember, read_members};
use cjson::{NoMemory, ReadFault, Tree, tree_from};
use serde_json::Value;
use std::alloc::Global;
use std::marker::Model;

/// The usable keys of an object of keys (TUF 1.0 section 4.3), in the order of their ids: those of
/// type `lms` and scheme `lms-sha256` whose `keyval.public` is the hexadecimal, in either case, of
/// 56 bytes of a supported kind, each under its own id. Any other key stays in the file and counts
/// for no threshold.
pub struct KeyRing {
    keys: Vec<Key>,
}

impl Drop for KeyRing {
    fn drop(self) {
        let KeyRing { keys } = self;
    }
}

impl Model for KeyRing {
    ghost use Rattle.std.specs.Prelude.{List};
    ghost use Rattle.keys.specs.declared.key.Key as listed;

    ghost Value = { List listed.Key };

    ghost view = { λ a. a.keys.items };
}

impl KeyRing {
    /// Reads an object of keys. Returns None if the value or one of its members isn't an object.
    /// Fails only if out of memory.
    pub fn read(alloc: Global, value: &Value) -> Result<Option<KeyRing>, NoMemory>
        ensures read { IfOk result (λ o. o ≡ spec.ring (view value.now)) }
    {
        let tree = tree_from(alloc, value)?;
        if_formed(KeyRing::from_json(alloc, &tree))
    }

    /// Returns the keys, in the order of their ids.
    pub fn keys(&self) -> &[Key]
        ensures value { result.now ≡ self.now }
    {
        self.keys.as_slice()
    }
}

impl FromJson for KeyRing {
    ghost form = { spec.ring };

    fn from_json(alloc: Global, value: &Tree) -> Result<KeyRing, ReadFault> {
        let listed: Items<ListedKey> = read_members(alloc, value)?;
        let keys = listed
            .into_vec()
            .into_iter()
            .filter_map(|listed| listed.key)
            .collect(alloc)?;
        Ok(KeyRing { keys })
    }
}

/// A member of an object of keys: the key, if it is usable.
#[derive(Drop)]
struct ListedKey {
    key: Option<Key>,
}

impl Model for ListedKey {
    ghost use Rattle.std.specs.Prelude.{Option};
    ghost use Rattle.keys.specs.declared.key.Key as listed;

    ghost Value = { Option listed.Key };

    ghost view = { λ a. a.key };
}

impl FromMember for ListedKey {
    ghost member_form = { spec.listed_key };

    fn from_member(alloc: Global, name: &str, value: &Tree) -> Result<ListedKey, ReadFault> {
        if !value.is_object() {
            return Err(ReadFault::Malformed);
        }
        let key = usable_key(alloc, name, value)?;
        Ok(ListedKey { key })
    }
}
