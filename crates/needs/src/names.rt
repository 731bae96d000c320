//! The names of a folder.

ghost use Rattle.std.specs.Prelude.{◌≡◌, ℕ, List, IfOk, OnOk, bytes_eq, map, string_bytes};
ghost use Rattle.std.specs.List.{list_any};
ghost use Rattle.needs.specs.Glue.{Puts};
ghost use Rattle.needs.specs.Needs.{is_in};

use std::alloc::{AllocError, Global};
use std::collections::BTreeMap;

/// Returns a map with these names, for [`needs`](crate::needs). Fails only if out of memory.
pub fn names_of(alloc: Global, names: Vec<String>) -> Result<BTreeMap<String, ()>, AllocError>
    ensures names { IfOk result (λ all. (name : List ℕ) → is_in all name
        ≡ list_any (λ other. bytes_eq other name) (map string_bytes names.items)) }
{
    let mut all = BTreeMap::new(alloc);
    for name in names {
        put(&mut all, name)?;
    }
    Ok(all)
}

/// Adds a name.
#[tactic(auto, using(std::proofs::lemmas::Map::Text::text_keys))]
pub(crate) fn put(names: &mut BTreeMap<String, ()>, name: String) -> Result<(), AllocError>
    ensures { OnOk result (Puts (string_bytes name) names.old names.new) }
{
    names.insert(name, ())?;
    Ok(())
}
