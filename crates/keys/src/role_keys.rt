//! The keys that a role lists, and its threshold.

ghost use Rattle.std.specs.Prelude.{◌≡◌, ℕ, List, IfOk, bytes_eq};
ghost use Rattle.std.specs.List.{list_any};
ghost use Rattle.serde_json.specs.View.{view};
ghost use Rattle.keys.specs.Keys as spec;

use cjson::form::{FromJson, if_formed, needed_member};
use cjson::list::Items;
use cjson::number::Positive;
use cjson::text::Text;
use cjson::{NoMemory, ReadFault, Tree, tree_from};
use serde_json::Value;
use std::alloc::Global;
use std::collections::BTreeSet;

/// The keys that a role lists, by their ids, and how many of them must sign (TUF 1.0 section 4.3).
pub struct RoleKeys {
    /// The listed ids, as the file lists them: some may be repeated or unknown.
    pub ids: Items<Text>,
    /// How many keys must sign.
    pub threshold: Positive,
}

impl Drop for RoleKeys {
    fn drop(self) {
        let RoleKeys { ids, threshold } = self;
    }
}

impl RoleKeys {
    /// Reads the object of a role. Returns None if `keyids` isn't a list of texts or `threshold`
    /// isn't a whole number from 1 to 9223372036854775807. Ignores other members. Fails only if out
    /// of memory.
    pub fn read(alloc: Global, value: &Value) -> Result<Option<RoleKeys>, NoMemory>
        ensures read { IfOk result (λ o. o ≡ spec.role_keys (view value.now)) }
    {
        let tree = tree_from(alloc, value)?;
        if_formed(RoleKeys::from_json(alloc, &tree))
    }

    /// Returns the set of the listed ids, in which a look-up takes a few comparisons. Fails only if
    /// out of memory.
    pub fn id_set(&self, alloc: Global) -> Result<BTreeSet<&str>, NoMemory>
        ensures ids { IfOk result (λ s. (id : List ℕ)
            → spec.has_id s id ≡ list_any (bytes_eq id) self.now.ids) }
    {
        let mut ids: BTreeSet<&str> = BTreeSet::new(alloc);
        for id in self.ids.as_slice() {
            ids.insert(id.as_str())?;
        }
        Ok(ids)
    }
}

impl FromJson for RoleKeys {
    ghost form = { spec.role_keys };

    fn from_json(alloc: Global, value: &Tree) -> Result<RoleKeys, ReadFault> {
        let ids = needed_member(alloc, value, "keyids")?;
        let threshold = needed_member(alloc, value, "threshold")?;
        Ok(RoleKeys { ids, threshold })
    }
}
