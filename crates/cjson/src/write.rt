//! Canonical texts.

ghost use Rattle.std.specs.Prelude.{◌≡◌, ◌≢◌, [], ◌∷◌, ◌++◌, Some, None, true, false, decimal};
ghost use Rattle.std.specs.Prelude.{OnOk, IfOk, IsUtf8};
ghost use Rattle.std.specs.Fmt.{signed_decimal};
ghost use Rattle.serde_json.specs.Data.{Data, boolean};
ghost use Rattle.serde_json.specs.View as data_of;
ghost use Rattle.serde_json.specs.View.{number_view};
ghost use Rattle.cjson.specs.Tree.{view, items_view, members_view};
ghost use Rattle.cjson.specs.Canon.{canon, text, number_text, escaped, quoted, comma_if};
ghost use Rattle.cjson.specs.Canon.{items_text, members_text, is_whole, has_whole_numbers};
ghost use Rattle.cjson.specs.Canon.{items_are_whole, members_are_whole, is_ordered};
ghost use Rattle.cjson.specs.Canon.{items_are_ordered, members_are_ordered};

use crate::fault::Canon;
use crate::sorted::Sorted;
use crate::tree::{Tree, tree_from};
use serde_json::{Number, Value};
use std::alloc::{AllocError, Global};

/// Returns the canonical text of a value (OLPC Canonical JSON; TUF 1.0 section 4.1).
///
/// There is no white space, and members are in the order of their keys' bytes. In a text only `"`
/// and `\` are escaped, each by a `\`; all other characters are written as they are, control
/// characters too. The result is UTF-8 of any length, and no other value has the same.
///
/// Fails with `Float` if a number of the value isn't whole, or is below -2^63 or above 2^64 -
/// 1, or with `NoMemory`. A number written as `1.0`, `1e2` or `-0` isn't read as a whole number.
pub fn canonical(alloc: Global, value: &Value) -> Result<Vec<u8>, Canon>
    ensures ok { IfOk result (λ bytes. canon (data_of.view value.now) ≡ Some bytes.items) }
    ensures float { result ≡ Err Canon.Float → canon (data_of.view value.now) ≡ None }
    ensures not_whole { result ≡ Err Canon.Float
        → has_whole_numbers (data_of.view value.now) ≡ false }
    ensures utf8 { IfOk result (λ bytes. IsUtf8 bytes.items) }

    // No other value has this text.
    ensures unique { IfOk result (λ bytes. (d : Data)
        → canon d ≡ Some bytes.items → d ≡ data_of.view value.now) }
{
    let tree = tree_from(alloc, value)?;
    canonical_text(alloc, &tree)
}

/// Returns the canonical text of a tree, as [`canonical`] returns that of a value.
#[tactic(auto, using(crate::proofs::Unique::canon_unique))]
pub fn canonical_text(alloc: Global, tree: &Tree) -> Result<Vec<u8>, Canon>
    ensures ok { IfOk result (λ bytes. canon (view tree.now) ≡ Some bytes.items) }
    ensures float { result ≡ Err Canon.Float → canon (view tree.now) ≡ None }
    ensures not_whole { result ≡ Err Canon.Float
        → has_whole_numbers (view tree.now) ≡ false }
    ensures utf8 { IfOk result (λ bytes. IsUtf8 bytes.items) }

    // No other tree has this text.
    ensures unique { IfOk result (λ bytes. (d : Data)
        → canon d ≡ Some bytes.items → d ≡ view tree.now) }
{
    let mut out = Vec::new(alloc);
    write(tree, &mut out)?;
    Ok(out)
}

#[cycle(write)]
fn write(value: &Tree, out: &mut Vec<u8>) -> Result<(), Canon>
    ensures text { OnOk result (out.new.items ≡ out.old.items ++ text (view value.now)) }
    ensures utf8 { OnOk result (IsUtf8 out.old.items → IsUtf8 out.new.items) }
    ensures whole { OnOk result (has_whole_numbers (view value.now) ≡ true) }
    ensures ordered { OnOk result (is_ordered (view value.now) ≡ true) }
    ensures float { result ≡ Err Canon.Float
        → has_whole_numbers (view value.now) ≡ false }
{
    match value {
        Tree::Null => Ok(out.extend_from_slice(b"null")?),
        Tree::Bool(b) => write_bool(*b, out),
        Tree::Number(n) => write_number(n, out),
        Tree::String(s) => Ok(write_text(s.as_str(), out)?),
        Tree::Array(items) => write_items(items, out),
        Tree::Object(members) => write_members(members, out),
    }
}

#[cycle(write)]
fn write_items(items: &Vec<Tree>, out: &mut Vec<u8>) -> Result<(), Canon>
    ensures text { OnOk result
        (out.new.items ≡ out.old.items ++ 91 ∷ items_text false (items_view items.now.items)) }
    ensures utf8 { OnOk result (IsUtf8 out.old.items → IsUtf8 out.new.items) }
    ensures whole { OnOk result (items_are_whole (items_view items.now.items) ≡ true) }
    ensures ordered { OnOk result (items_are_ordered (items_view items.now.items) ≡ true) }
    ensures float { result ≡ Err Canon.Float
        → items_are_whole (items_view items.now.items) ≡ false }
{
    out.push(b'[')?;
    let mut later = false;
    for item in items {
        write_comma(later, out)?;
        write(item, out)?;
        later = true;
    }
    out.push(b']')?;
    Ok(())
}

#[cycle(write)]
fn write_members(members: &Sorted<Tree>, out: &mut Vec<u8>) -> Result<(), Canon>
    ensures text { OnOk result
        (out.new.items
        ≡ out.old.items ++ 123 ∷ members_text false (members_view members.now)) }
    ensures utf8 { OnOk result (IsUtf8 out.old.items → IsUtf8 out.new.items) }
    ensures whole { OnOk result (members_are_whole (members_view members.now) ≡ true) }
    ensures ordered { OnOk result (members_are_ordered (members_view members.now)
        ≡ true) }
    ensures float { result ≡ Err Canon.Float
        → members_are_whole (members_view members.now) ≡ false }
{
    out.push(b'{')?;
    let mut later = false;
    for (key, member) in members.as_slice() {
        write_key(later, key.as_str(), out)?;
        write(member, out)?;
        later = true;
    }
    out.push(b'}')?;
    Ok(())
}

/// Writes what comes before a member's value.
fn write_key(later: bool, key: &str, out: &mut Vec<u8>) -> Result<(), AllocError>
    ensures { OnOk result
        (out.new.items ≡ out.old.items ++ (comma_if later ++ (quoted key.now ++ 58 ∷ []))) }
{
    write_comma(later, out)?;
    write_text(key, out)?;
    out.push(b':')?;
    Ok(())
}

fn write_comma(later: bool, out: &mut Vec<u8>) -> Result<(), AllocError>
    ensures { OnOk result (out.new.items ≡ out.old.items ++ comma_if later) }
{
    if later {
        out.push(b',')?;
    }
    Ok(())
}

fn write_bool(b: bool, out: &mut Vec<u8>) -> Result<(), Canon>
    ensures text { OnOk result (out.new.items ≡ out.old.items ++ text (boolean b)) }
    ensures float { result ≢ Err Canon.Float }
{
    let word: &[u8] = if b { b"true" } else { b"false" };
    Ok(out.extend_from_slice(word)?)
}

fn write_number(n: &Number, out: &mut Vec<u8>) -> Result<(), Canon>
    ensures text { OnOk result (out.new.items
        ≡ out.old.items ++ number_text (number_view n.now)) }
    ensures whole { OnOk result (is_whole (number_view n.now) ≡ true) }
    ensures float { result ≡ Err Canon.Float → is_whole (number_view n.now) ≡ false }
{
    let mut digits = itoa::Buffer::new();
    if let Some(whole) = n.as_u64() {
        out.extend_from_slice(digits.format(whole).as_bytes())?;
    } else if let Some(below_zero) = n.as_i64() {
        out.extend_from_slice(digits.format(below_zero).as_bytes())?;
    } else {
        return Err(Canon::Float);
    }
    Ok(())
}

fn write_text(text: &str, out: &mut Vec<u8>) -> Result<(), AllocError>
    ensures { OnOk result (out.new.items ≡ out.old.items ++ quoted text.now) }
{
    out.push(b'"')?;
    for byte in text.as_bytes() {
        if *byte == b'"' || *byte == b'\\' {
            out.push(b'\\')?;
        }
        out.push(*byte)?;
    }
    out.push(b'"')?;
    Ok(())
}
