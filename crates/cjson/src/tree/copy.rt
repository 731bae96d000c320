//! A value of `serde_json` as a tree.

ghost use Rattle.std.specs.Prelude.{◌≡◌, IfOk};
ghost use Rattle.serde_json.specs.View as data_of;
ghost use Rattle.cjson.specs.Tree.{view, items_view, members_view};

use crate::sorted::Sorted;
use crate::tree::Tree;
use crate::tree::read::put_member;
use serde_json::{Map, Value};
use std::alloc::{AllocError, Global};
use std::collections::BTreeMap;

/// Returns a tree of the same data as the value.
pub fn tree_from(alloc: Global, value: &Value) -> Result<Tree, AllocError>
    ensures value { IfOk result (λ tree. view tree ≡ data_of.view value.now) }
{
    copy(alloc, value)
}

#[cycle(copy)]
fn copy(alloc: Global, value: &Value) -> Result<Tree, AllocError>
    ensures { IfOk result (λ tree. view tree ≡ data_of.view value.now) }
{
    match value {
        Value::Null => Ok(Tree::Null),
        Value::Bool(b) => Ok(Tree::Bool(*b)),
        Value::Number(n) => Ok(Tree::Number(*n)),
        Value::String(text) => Ok(Tree::String(text.clone()?)),
        Value::Array(items) => Ok(Tree::Array(copy_items(alloc, items)?)),
        Value::Object(members) => Ok(Tree::Object(copy_members(alloc, members)?)),
    }
}

#[cycle(copy)]
fn copy_items(alloc: Global, items: &Vec<Value>) -> Result<Vec<Tree>, AllocError>
    ensures { IfOk result (λ v. items_view v.items ≡ data_of.items_view items.now.items) }
{
    let mut copies = Vec::with_capacity(alloc, items.len())?;
    for item in items {
        copies.push(copy(alloc, item)?)?;
    }
    Ok(copies)
}

#[cycle(copy)]
fn copy_members(alloc: Global, members: &Map<String, Value>) -> Result<Sorted<Tree>, AllocError>
    ensures { IfOk result (λ m. members_view m ≡ data_of.members_view members.now.entries) }
{
    let mut copies = BTreeMap::new(alloc);
    for (key, member) in members.iter() {
        let name = key.clone()?;
        put_member(&mut copies, name, copy(alloc, member)?)?;
    }
    Sorted::from_map(alloc, copies)
}
