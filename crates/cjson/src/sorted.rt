//! Members in the order of their names.

ghost use Rattle.std.specs.Prelude.{◌≡◌, length, option_map, IfOk};
ghost use Rattle.std.specs.List.Sorted.{IsStrictlySortedBy};
ghost use Rattle.std.specs.Map.{keys_of};
ghost use Rattle.std.specs.String.{string_cmp};
ghost use Rattle.cjson.specs.Names.{named};

use std::alloc::{AllocError, Global};
use std::collections::BTreeMap;
use std::marker::Model;

/// Members in the order of their names' bytes, each name once, in one block of memory.
#[derive(Drop)]
pub struct Sorted<T> {
    entries: Vec<(String, T)>,
}

impl<T> Model for Sorted<T> {
    ghost use Rattle.std.specs.Prelude.{List, String};
    ghost use Rattle.std.specs.declared.alloc.Global.{Global};
    ghost use Rattle.std.specs.List.Sorted.{IsStrictlySortedBy};
    ghost use Rattle.std.specs.Map.{keys_of};
    ghost use Rattle.std.specs.String.{string_cmp};
    ghost use Rattle.std.specs.Coded.{coded_list, coded×};
    ghost use Rattle.cjson.specs.Names.{name_code};

    ghost Value = { List (String Global × T) };

    ghost coded = { coded_list (coded× name_code T.code) };

    ghost view = { λ a. a.entries.items };

    ghost invariant = { λ a. IsStrictlySortedBy string_cmp (keys_of a.entries.items) };
}

impl<T> Sorted<T> {
    /// Returns the members as a slice, in order.
    pub fn as_slice(&self) -> &[(String, T)]
        ensures value { result.now ≡ self.now }
        ensures ordered { IsStrictlySortedBy string_cmp (keys_of self.now) }
    {
        self.entries.as_slice()
    }

    /// Returns the number of members.
    pub fn len(&self) -> usize
        ensures value { result ≡ length self.now }
    {
        self.entries.len()
    }

    /// Returns the member of that name, if there is one.
    pub fn get(&self, name: &str) -> Option<&T>
        ensures value { option_map (λ v. v.now) result ≡ named name.now self.now }
    {
        find(self.entries.as_slice(), name)
    }
}

impl<T: Drop> Sorted<T> {
    /// Returns the members of a map, in as much memory as they need.
    #[inline(never)]
    pub fn from_map(alloc: Global, map: BTreeMap<String, T>) -> Result<Sorted<T>, AllocError>
        ensures value { IfOk result (λ s. s ≡ map.entries) }
    {
        let mut entries = Vec::with_capacity(alloc, map.len())?;
        for entry in map {
            entries.push(entry)?;
        }
        Ok(Sorted { entries })
    }

    /// Returns the member of that name, if there is one, and drops the others.
    pub fn take(self, name: &str) -> Option<T>
        ensures value { result ≡ named name.now self }
    {
        let Sorted { entries } = self;
        for (found, value) in entries {
            if name == found.as_str() {
                return Some(value);
            }
        }
        None
    }
}

fn find<'a, T>(entries: &'a [(String, T)], name: &str) -> Option<&'a T>
    ensures { option_map (λ v. v.now) result ≡ named name.now entries.now }
{
    for entry in entries {
        if name == entry.0.as_str() {
            return Some(&entry.1);
        }
    }
    None
}
