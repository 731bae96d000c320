//! Trees of JSON.

ghost use Rattle.std.specs.Prelude.{◌≡◌, is_some, option_map, option_and_then};
ghost use Rattle.serde_json.specs.Find.{get, as_bool, as_number, as_str, as_array, as_object};
ghost use Rattle.serde_json.specs.Find.{as_u64};

mod copy;
mod numeral;
mod read;

use crate::sorted::Sorted;
pub use copy::tree_from;
pub use read::read_tree;
use serde_json::Number;

/// A value of JSON, which owns its texts. The members of an object are in one block of memory, so
/// that an object with a few members takes a few times their length.
#[derive(Drop)]
pub enum Tree {
    /// `null`.
    Null,
    /// `true` or `false`.
    Bool(bool),
    /// A number.
    Number(Number),
    /// A text.
    String(String),
    /// A list.
    Array(Vec<Tree>),
    /// An object.
    Object(Sorted<Tree>),
}

impl Tree {
    ghost use Rattle.serde_json.specs.View.{number_view};
    ghost use Rattle.cjson.specs.Tree.{view, items_view, members_view};

    /// Returns the member of that name, if this is an object that has one.
    pub fn get(&self, name: &str) -> Option<&Tree>
        ensures value { option_map (λ v. view v.now) result ≡ get name.now (view self.now) }
    {
        match self {
            Tree::Object(members) => members.get(name),
            _ => None,
        }
    }

    /// Returns the members of an object.
    pub fn as_object(&self) -> Option<&Sorted<Tree>>
        ensures value { option_map (λ m. members_view m.now) result ≡ as_object (view self.now) }
    {
        if let Tree::Object(members) = self {
            Some(members)
        } else {
            None
        }
    }

    /// Returns whether this is an object.
    pub fn is_object(&self) -> bool
        ensures value { result ≡ is_some (as_object (view self.now)) }
    {
        self.as_object().is_some()
    }

    /// Returns the items of a list.
    pub fn as_array(&self) -> Option<&Vec<Tree>>
        ensures value { option_map (λ v. items_view v.now.items) result
            ≡ as_array (view self.now) }
    {
        if let Tree::Array(items) = self {
            Some(items)
        } else {
            None
        }
    }

    /// Returns a text.
    pub fn as_str(&self) -> Option<&str>
        ensures value { option_map (λ s. s.now) result ≡ as_str (view self.now) }
    {
        if let Tree::String(text) = self {
            Some(text.as_str())
        } else {
            None
        }
    }

    /// Returns whether this is a text.
    pub fn is_string(&self) -> bool
        ensures value { result ≡ is_some (as_str (view self.now)) }
    {
        self.as_str().is_some()
    }

    /// Returns a number.
    pub fn as_number(&self) -> Option<&Number>
        ensures value { option_map (λ n. number_view n.now) result ≡ as_number (view self.now) }
    {
        if let Tree::Number(number) = self {
            Some(number)
        } else {
            None
        }
    }

    /// Returns a whole number that isn't below zero.
    pub fn as_u64(&self) -> Option<u64>
        ensures value { result ≡ option_and_then as_u64 (as_number (view self.now)) }
    {
        match self.as_number() {
            Some(number) => number.as_u64(),
            None => None,
        }
    }

    /// Returns `true` or `false`.
    pub fn as_bool(&self) -> Option<bool>
        ensures value { result ≡ as_bool (view self.now) }
    {
        if let Tree::Bool(b) = self {
            Some(*b)
        } else {
            None
        }
    }
}
