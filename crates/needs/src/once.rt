//! Files in the order in which they were looked up, each once.

ghost use Rattle.std.specs.Prelude.{◌≡◌, [], IfOk, OnOk, Some, fold, map, string_bytes};
ghost use Rattle.needs.specs.Glue.{IsOnce};
ghost use Rattle.needs.specs.Glue as glue;
ghost use Rattle.needs.specs.Needs as spec;
ghost use Rattle.needs.specs.Needs.{is_in};

use crate::names::put;
use crate::need::Need;
use cjson::NoMemory;
use std::alloc::{AllocError, Global};
use std::collections::BTreeMap;

/// The files so far, and for each its name and whether it is optional.
#[derive(Drop)]
pub struct Once {
    pub needs: Vec<Need>,
    pub keys: BTreeMap<String, ()>,
}

/// Returns no files yet.
pub(crate) fn nothing(alloc: Global) -> Once
    ensures once { IsOnce result }
    ensures none { result.needs.items ≡ [] }
{
    Once {
        needs: Vec::new(alloc),
        keys: BTreeMap::new(alloc),
    }
}

/// Adds the file, unless it is there.
pub(crate) fn note(alloc: Global, once: &mut Once, need: Option<Need>) -> Result<(), NoMemory>
    requires { IsOnce once.old }
    ensures noted { OnOk result (once.new.needs.items ≡ spec.noted once.old.needs.items need) }
    ensures once { OnOk result (IsOnce once.new) }
{
    match need {
        Some(need) => note_need(alloc, once, need),
        None => Ok(()),
    }
}

/// Adds each of the files, unless it is there.
pub(crate) fn note_all(alloc: Global, once: &mut Once, needs: Vec<Need>) -> Result<(), NoMemory>
    requires { IsOnce once.old }
    ensures noted { OnOk result (once.new.needs.items
        ≡ fold spec.noted once.old.needs.items (map Some needs.items)) }
    ensures once { OnOk result (IsOnce once.new) }
{
    for need in needs {
        note_need(alloc, once, need)?;
    }
    Ok(())
}

fn note_need(alloc: Global, once: &mut Once, need: Need) -> Result<(), NoMemory>
    requires { IsOnce once.old }
    ensures noted { OnOk result
        (once.new.needs.items ≡ spec.noted once.old.needs.items (Some need)) }
    ensures once { OnOk result (IsOnce once.new) }
{
    let key = key(alloc, need.optional, need.name.as_str())?;
    if once.keys.contains_key(key.as_str()) {
        return Ok(());
    }
    put(&mut once.keys, key)?;
    once.needs.push(need)?;
    Ok(())
}

/// Returns the name with a mark for whether the file is optional.
fn key(alloc: Global, optional: bool, name: &str) -> Result<String, AllocError>
    ensures { IfOk result (λ key. string_bytes key ≡ glue.key optional name.now) }
{
    let mut key = String::from_str(alloc, if optional { "?" } else { "!" })?;
    key.push_str(name)?;
    Ok(key)
}
