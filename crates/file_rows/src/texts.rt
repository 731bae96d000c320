//! Canonical texts and documents.

use crate::plain::{push_plain, value_of};
use anyhow::{Context, Result, ensure};
use cjson::{Doc, Tree, canonical, signed_bytes};
use serde_json::Value;
use sessions::{Step, joined};
use std::alloc::Global;

/// Returns the canonical text of a value, or why it has none.
pub fn canonical_text(alloc: Global, step: &Step) -> Result<String> {
    let value = value_of(alloc, step.text_behind(0))?;
    let mut text = String::new(alloc);
    match canonical(alloc, &value) {
        Ok(bytes) => push_plain(&mut text, &bytes)?,
        Err(fault) => write!(text, "{fault:?}")?,
    }
    text.push('\n')?;
    Ok(text)
}

/// Reads the lines as a document, or returns their first fault.
pub fn document(alloc: Global, step: &Step) -> Result<String> {
    let file = joined(alloc, step.script.as_slice())?;
    read(alloc, file.as_bytes())
}

/// Reads the bytes that hexadecimal digits encode as a document, or returns their first fault.
pub fn document_hex(alloc: Global, step: &Step) -> Result<String> {
    let file = hex::decode(alloc, step.word(0)?)?;
    read(alloc, &file)
}

fn read(alloc: Global, file: &[u8]) -> Result<String> {
    let mut text = String::new(alloc);
    match signed_bytes(alloc, file) {
        Ok(doc) => push_document(alloc, &mut text, file, &doc)?,
        Err(fault) => writeln!(text, "{fault:?}")?,
    }
    Ok(text)
}

/// Adds what a document signs, its tree, and the entries.
fn push_document(alloc: Global, text: &mut String, file: &[u8], doc: &Doc) -> Result<()> {
    text.push_str("signed ")?;
    push_plain(text, doc.bytes())?;
    let value = Value::from_slice(alloc, file)?;
    let signed = value.get("signed").context("nothing signed")?;
    push_tree(alloc, text, signed, doc.tree())?;
    for entry in doc.entries() {
        writeln!(
            text,
            "entry {:?} {:?}",
            entry.keyid.as_str(),
            entry.sig.as_str()
        )?;
    }
    Ok(())
}

/// Adds the tree as `serde_json` prints its value, whose tree it has to be: then both have one
/// canonical text.
fn push_tree(alloc: Global, text: &mut String, value: &Value, tree: &Tree) -> Result<()> {
    let same_text = canonical(alloc, value)? == cjson::canonical_text(alloc, tree)?;
    ensure!(same_text, "the value has another tree");
    writeln!(text, "\ntree {}", value.to_string(alloc)?)?;
    Ok(())
}

/// Returns how many bytes are signed of a file with that many nested lists.
pub fn nests(alloc: Global, step: &Step) -> Result<String> {
    let file = nested(alloc, step.word(0)?.parse::<u32>()?)?;
    Ok(match signed_bytes(alloc, file.as_bytes()) {
        Ok(doc) => format!(in alloc; "{} bytes\n", doc.bytes().len())?,
        Err(fault) => format!(in alloc; "{fault:?}\n")?,
    })
}

fn nested(alloc: Global, lists: u32) -> Result<String> {
    let mut file = String::from_str(alloc, "{\"signatures\":[],\"signed\":{\"a\":")?;
    push_often(&mut file, '[', lists)?;
    push_often(&mut file, ']', lists)?;
    file.push_str("}}")?;
    Ok(file)
}

fn push_often(text: &mut String, mark: char, times: u32) -> Result<()> {
    for _ in 0..times {
        text.push(mark)?;
    }
    Ok(())
}
