//! Unsigned files, made of valid ones by a change.

use crate::layers::Layers;
use anyhow::{Context, Result, bail};
use std::alloc::Global;

/// Returns the `signed` of the valid file of a kind.
pub fn good(layers: &Layers<'_>, kind: &str) -> Result<String> {
    let file = format!(in layers.alloc; "cases/{kind}.json")?;
    let text = layers.text(file.as_str())?;
    Ok(String::from_str(layers.alloc, text.as_str().trim_end())?)
}

/// Returns the text with the new part in place of the old, which is there once.
pub fn changed(alloc: Global, text: &str, old: &str, new: &str) -> Result<String> {
    let (before, after) = text.split_once(old).context("no place for the change")?;
    if after.split_once(old).is_some() {
        bail!("two places for the change");
    }
    Ok(format!(in alloc; "{before}{new}{after}")?)
}

/// Returns a file with this `signed` and no signature.
pub fn file(alloc: Global, signed: &str) -> Result<Vec<u8>> {
    Ok(format!(in alloc; "{{\"signatures\":[],\"signed\":{signed}}}")?.into_bytes())
}
