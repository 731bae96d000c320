//! Keys, their ids, and roles.

use crate::plain::{value_of, yes_or_no};
use anyhow::Result;
use keys::{KeyRing, RoleKeys, key_id};
use lms::Public;
use sessions::Step;
use std::alloc::Global;

/// Returns the id of a key object, or why it has none.
pub fn id(alloc: Global, step: &Step) -> Result<String> {
    let key = value_of(alloc, step.text_behind(0))?;
    Ok(match key_id(alloc, &key) {
        Ok(id) => format!(in alloc; "{id}\n")?,
        Err(fault) => format!(in alloc; "{fault:?}\n")?,
    })
}

/// Returns the usable keys of an object of keys.
pub fn ring(alloc: Global, step: &Step) -> Result<String> {
    let value = value_of(alloc, step.text_behind(0))?;
    match KeyRing::read(alloc, &value)? {
        Some(ring) => keys_of(alloc, &ring),
        None => Ok(String::from_str(alloc, "none\n")?),
    }
}

/// Returns the number of keys, and the id and the public value of each.
pub fn keys_of(alloc: Global, ring: &KeyRing) -> Result<String> {
    let mut text = format!(in alloc; "keys {}\n", ring.keys().len())?;
    for key in ring.keys() {
        let public = hex::encode(alloc, *key.public.bytes())?;
        writeln!(text, "key {} {public}", key.id.as_str())?;
    }
    Ok(text)
}

/// Returns the threshold and the ids of a role.
pub fn role(alloc: Global, step: &Step) -> Result<String> {
    let value = value_of(alloc, step.text_behind(0))?;
    let mut text = String::new(alloc);
    match RoleKeys::read(alloc, &value)? {
        Some(role) => push_role(&mut text, &role)?,
        None => text.push_str("none\n")?,
    }
    Ok(text)
}

/// Adds the threshold and the ids of a role.
pub fn push_role(text: &mut String, role: &RoleKeys) -> Result<()> {
    write!(text, "{} of", role.threshold.get())?;
    for id in role.ids.as_slice() {
        write!(text, " {:?}", id.as_str())?;
    }
    text.push('\n')?;
    Ok(())
}

/// Returns the bytes of a supported public key, and whether they are read as the same key.
pub fn public_key(alloc: Global, step: &Step) -> Result<String> {
    let bytes = hex::decode(alloc, step.word(0)?)?;
    let Some(public) = Public::read(&bytes) else {
        return Ok(String::from_str(alloc, "none\n")?);
    };
    let digits = hex::encode(alloc, *public.bytes())?;
    let again = yes_or_no(Public::read(public.bytes()) == Some(public));
    Ok(format!(in alloc; "{digits}\nread again: {again}\n")?)
}
