//! Files with one part changed.

use crate::shell::Shell;
use anyhow::{Context, Result, bail};
use cjson::{Doc, canonical, signed_bytes};
use lms::Height;
use seals::{Signer, seal, secret};
use serde_json::Value;
use sessions::{Output, Step, script_of};
use std::alloc::Global;
use std::fs;

/// Puts a text in place of another, where this is first in the file. The first line is the old
/// text, in which `...` matches as little as possible, and the others are the new one, in the form
/// of a script's lines. With the byte of a key, makes the change in what the file signs, which the
/// key then signs under the id of the first signature that was there.
pub fn change<T>(shell: &Shell<'_, T>, step: &Step) -> Result<Output> {
    let (name, key) = (step.word(0)?, step.words().get(1));
    let (old, new) = step
        .script
        .split_first()
        .context("no text that is to be changed")?;
    let new = script_of(shell.rt, shell.alloc, new)?;
    let new = new.as_str().strip_suffix("\n").unwrap_or("");
    let file = fs::read(shell.rt, name)?;
    let bytes = with_change(shell.alloc, file.as_slice(), key, old.as_str(), new)?;
    fs::write(shell.rt, name, bytes.as_slice())?;
    Ok(Output::nothing(shell.alloc))
}

fn with_change(
    alloc: Global,
    file: &[u8],
    key: Option<&String>,
    old: &str,
    new: &str,
) -> Result<Vec<u8>> {
    match key {
        None => changed(alloc, file, old, new),
        Some(key) => signed_anew(alloc, file, key.as_str(), old, new),
    }
}

/// Returns the file with the new part in place of the old in what it signs, signed by the key.
fn signed_anew(alloc: Global, file: &[u8], key: &str, old: &str, new: &str) -> Result<Vec<u8>> {
    let doc = signed_bytes(alloc, file)?;
    let signer = signer_of(alloc, &doc, key)?;
    let text = changed(alloc, doc.bytes(), old, new)?;
    sealed(alloc, text.as_slice(), signer)
}

/// Returns the key of that byte, under the id of the document's first entry.
fn signer_of(alloc: Global, doc: &Doc, key: &str) -> Result<Signer> {
    let first = doc.entries().first().context("no entry")?;
    let secret = secret(alloc, key.parse::<u8>()?, Height::H5)?;
    Ok(Signer {
        id: String::from_str(alloc, first.keyid.as_str())?,
        secret,
    })
}

/// Returns the text with the new part in place of the old.
fn changed(alloc: Global, text: &[u8], old: &str, new: &str) -> Result<Vec<u8>> {
    let (from, to) = old.split_once("...").unwrap_or((old, ""));
    let text = std::str::from_utf8(text)?;
    let (before, rest) = text.split_once(from).context("the old text isn't there")?;
    let (_, after) = rest.split_once(to).context("the old text has no end")?;
    let text = format!(in alloc; "{before}{new}{after}")?;
    Ok(Vec::from_slice(alloc, text.as_bytes())?)
}

/// Returns the file that signs that text.
fn sealed(alloc: Global, text: &[u8], signer: Signer) -> Result<Vec<u8>> {
    let Value::Object(members) = Value::from_slice(alloc, text)? else {
        bail!("no object");
    };
    let value = Value::Object(members);
    let Ok(_) = canonical(alloc, &value) else {
        bail!("no canonical text");
    };
    Ok(seal(alloc, &value, &mut [signer], &[0])?)
}
