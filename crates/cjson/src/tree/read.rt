//! Bytes as a tree of JSON, in one pass over the tokens.

ghost use Rattle.std.specs.Prelude.{◌≡◌, ◌<◌, ◌∷◌, ◌++◌, [], length, Some, None, Err, IfOk, OnOk};
ghost use Rattle.std.specs.Prelude.{string_bytes};
ghost use Rattle.json.specs.Json.{value, items, members};
ghost use Rattle.serde_json.specs.Data.{no_members, put};
ghost use Rattle.serde_json.specs.Read.{of_json, of_items, of_members, converted};
ghost use Rattle.serde_json.specs.Read.{read as read_text};
ghost use Rattle.cjson.specs.Document.{tree_of};
ghost use Rattle.cjson.specs.Form.{ReadsAs};
ghost use Rattle.cjson.specs.Tree.{view, items_view, members_view};

use crate::fault::ReadFault;
use crate::sorted::Sorted;
use crate::tree::Tree;
use crate::tree::numeral::number_in;
use json::{Reader, Scratch, Token};
use std::alloc::{AllocError, Global};
use std::collections::BTreeMap;

const MAX_DEPTH: usize = 127;

/// Reads bytes that are JSON in UTF-8, of at most 127 levels. If two members of an object have one
/// name, the last one counts. Fails with `Malformed` for other bytes, or with `NoMemory`.
pub fn read_tree(alloc: Global, bytes: &[u8]) -> Result<Tree, ReadFault>
    ensures tree { ReadsAs (tree_of bytes.now) result view }
{
    match simdutf8::compat::from_utf8(bytes) {
        Ok(text) => read_whole(alloc, text),
        Err(_) => Err(ReadFault::Malformed),
    }
}

fn read_whole(alloc: Global, text: &str) -> Result<Tree, ReadFault>
    ensures ok { IfOk result (λ v. read_text text.now ≡ Some (view v)) }
    ensures err { result ≡ Err ReadFault.Malformed → read_text text.now ≡ None }
{
    let mut scratch = Scratch::new(alloc);
    let mut reader = Reader::new(text, &mut scratch)?;
    let tree = read(alloc, &mut reader, MAX_DEPTH)?;
    if reader.next().is_some() {
        return Err(ReadFault::Malformed);
    }
    Ok(tree)
}

#[cycle(read)]
#[inline(always)]
fn read(alloc: Global, reader: &mut Reader<'_>, depth: usize) -> Result<Tree, ReadFault>
    ensures ok { IfOk result
        (λ v. converted of_json (value depth reader.old) ≡ Some (view v, reader.new)) }
    ensures shorter { OnOk result (length reader.new < length reader.old) }
    ensures err { result ≡ Err ReadFault.Malformed
        → converted of_json (value depth reader.old) ≡ None }
{
    let token = reader.next().ok_or(ReadFault::Malformed)?;
    match token {
        Token::String(text) => Ok(Tree::String(String::from_str(alloc, text)?)),
        Token::Number(text) => match number_in(text) {
            Some(number) => Ok(Tree::Number(number)),
            None => Err(ReadFault::Malformed),
        },
        Token::Bool(b) => Ok(Tree::Bool(b)),
        Token::Null => Ok(Tree::Null),
        Token::EndObject | Token::EndArray | Token::Key(_) | Token::Bad => {
            Err(ReadFault::Malformed)
        }
        Token::BeginArray => {
            if depth == 0 {
                return Err(ReadFault::Malformed);
            }
            Ok(Tree::Array(read_items(alloc, reader, depth - 1)?))
        }
        Token::BeginObject => {
            if depth == 0 {
                return Err(ReadFault::Malformed);
            }
            Ok(Tree::Object(read_members(alloc, reader, depth - 1)?))
        }
    }
}

#[cycle(read)]
#[inline(never)]
fn read_items(alloc: Global, reader: &mut Reader<'_>, depth: usize) -> Result<Vec<Tree>, ReadFault>
    ensures ok { IfOk result
        (λ v. converted of_items (items (value depth) (length reader.old) reader.old)
        ≡ Some (items_view v.items, reader.new)) }
    ensures shorter { OnOk result (length reader.new < length reader.old) }
    ensures err { result ≡ Err ReadFault.Malformed
        → converted of_items (items (value depth) (length reader.old) reader.old) ≡ None }
{
    let mut found = Vec::new(alloc);
    'items: while !reader.take_end_array() {
        let item = read(alloc, reader, depth)?;
        push_item(&mut found, item)?;
    }
    found.shrink_to_fit();
    Ok(found)
}

/// Adds an item. The first one has room for itself alone, since a list of one item is then as long
/// as it stays.
#[inline(never)]
fn push_item(found: &mut Vec<Tree>, item: Tree) -> Result<(), AllocError>
    ensures { OnOk result (found.new.items ≡ found.old.items ++ item ∷ []) }
{
    if found.is_empty() {
        found.reserve_exact(1)?;
    }
    found.push(item)?;
    Ok(())
}

#[cycle(read)]
#[inline(never)]
fn read_members(
    alloc: Global,
    reader: &mut Reader<'_>,
    depth: usize,
) -> Result<Sorted<Tree>, ReadFault>
    ensures ok { IfOk result
        (λ m. converted (λ ms. of_members ms no_members)
        (members (value depth) (length reader.old) reader.old)
        ≡ Some (members_view m, reader.new)) }
    ensures shorter { OnOk result (length reader.new < length reader.old) }
    ensures err { result ≡ Err ReadFault.Malformed
        → converted (λ ms. of_members ms no_members)
        (members (value depth) (length reader.old) reader.old) ≡ None }
{
    let mut found = BTreeMap::new(alloc);
    'members: while let Some(name) = reader.next_key()? {
        let key = String::from_str(alloc, name)?;
        let member = read(alloc, reader, depth)?;
        put_member(&mut found, key, member)?;
    }
    Ok(Sorted::from_map(alloc, found)?)
}

/// Puts a member among those before it. Kept out of `read_members`, whose frame is on the stack
/// once for each level.
#[inline(never)]
pub fn put_member(
    found: &mut BTreeMap<String, Tree>,
    name: String,
    member: Tree,
) -> Result<(), AllocError>
    ensures { OnOk result (members_view found.new.entries
        ≡ put (string_bytes name) (view member) (members_view found.old.entries)) }
{
    drop(found.insert(name, member)?);
    Ok(())
}
