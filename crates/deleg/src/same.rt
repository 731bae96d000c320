//! Delegations that require one file, signed by the same keys.

ghost use Rattle.std.specs.Prelude.{◌≡◌, IsTrue};
ghost use Rattle.deleg.specs.Cache.{RequireTheSame};
ghost use Rattle.deleg.specs.Search.{edge_of};

use crate::edge::Edge;
use cjson::text::Text;
use keys::{Key, RoleKeys};

/// Returns whether both lead to a role of one name, have the same keys, and require the same of
/// them.
pub fn is_same(one: &Edge, other: &Edge) -> bool
    ensures { IsTrue result → RequireTheSame (edge_of one.now) (edge_of other.now) }
{
    one.name == other.name
        && are_same_role_keys(one.keys, other.keys)
        && are_same_keys(one.ring.keys(), other.ring.keys())
}

fn are_same_role_keys(one: &RoleKeys, other: &RoleKeys) -> bool
    ensures { IsTrue result → one.now ≡ other.now }
{
    one.threshold == other.threshold && are_same_texts(one.ids.as_slice(), other.ids.as_slice())
}

fn are_same_texts(one: &[Text], other: &[Text]) -> bool
    ensures { IsTrue result → one.now ≡ other.now }
{
    let mut left = one;
    let mut right = other;
    while let Some((text, after)) = left.split_first() {
        let Some((wanted, beyond)) = right.split_first() else {
            return false;
        };
        if text.as_str() != wanted.as_str() {
            return false;
        }
        left = after;
        right = beyond;
    }
    right.is_empty()
}

fn are_same_keys(one: &[Key], other: &[Key]) -> bool
    ensures { IsTrue result → one.now ≡ other.now }
{
    let mut left = one;
    let mut right = other;
    while let Some((key, after)) = left.split_first() {
        let Some((wanted, beyond)) = right.split_first() else {
            return false;
        };
        if !is_same_key(key, wanted) {
            return false;
        }
        left = after;
        right = beyond;
    }
    right.is_empty()
}

fn is_same_key(one: &Key, other: &Key) -> bool
    ensures { IsTrue result → one.now ≡ other.now }
{
    one.public == other.public && one.id.as_str() == other.id.as_str()
}
