//! Trusted states, their texts, and texts that are refused.

use crate::layers::Layers;
use crate::plain::yes_or_no;
use anyhow::{Context, Result};
use meta::Header;
use rolechain::{StateFault, Trusted};
use sessions::Step;
use std::alloc::Global;

/// Returns the state of a root, whether the root has the file's bytes, and the state's text.
pub fn trust(layers: &Layers<'_>, step: &Step) -> Result<String> {
    let bytes = layers.bytes(step.word(0)?)?;
    match Trusted::from_root(layers.alloc, &bytes) {
        Ok(trusted) => begun(layers.alloc, &trusted, &bytes),
        Err(fault) => refused(layers.alloc, fault),
    }
}

fn begun(alloc: Global, trusted: &Trusted, root: &[u8]) -> Result<String> {
    let mut text = about(alloc, trusted)?;
    let same = yes_or_no(trusted.root().bytes() == root);
    let written = trusted.to_text(alloc)?;
    let written = std::str::from_utf8(&written)?;
    writeln!(text, "same bytes: {same}\n{written}")?;
    Ok(text)
}

/// Returns the state whose text has the members, each given as `NAME=FILE`.
pub fn state(layers: &Layers<'_>, step: &Step) -> Result<String> {
    let mut text = String::from_str(layers.alloc, "{")?;
    let mut comma = "";
    for member in step.words() {
        push_member(layers, &mut text, comma, member.as_str())?;
        comma = ",";
    }
    text.push('}')?;
    read(layers.alloc, text.as_str())
}

fn push_member(layers: &Layers<'_>, text: &mut String, comma: &str, member: &str) -> Result<()> {
    let (name, file) = member.split_once("=").context("no member")?;
    let digits = digits(layers, file)?;
    write!(text, "{comma}\"{name}\":\"{digits}\"")?;
    Ok(())
}

fn digits(layers: &Layers<'_>, name: &str) -> Result<String> {
    let bytes = layers.bytes(name)?;
    Ok(hex::encode(layers.alloc, bytes.as_slice())?)
}

/// Returns the state of the text after the command's name.
pub fn state_text(alloc: Global, step: &Step) -> Result<String> {
    read(alloc, step.text_behind(0))
}

/// Returns the state of a text.
fn read(alloc: Global, text: &str) -> Result<String> {
    match Trusted::from_text(alloc, text.as_bytes()) {
        Ok(trusted) => copied(alloc, &trusted, text),
        Err(fault) => refused(alloc, fault),
    }
}

/// Returns the lines of a copy of the state, and whether it writes the text.
fn copied(alloc: Global, trusted: &Trusted, text: &str) -> Result<String> {
    let copy = trusted.copy()?;
    let mut lines = about(alloc, &copy)?;
    let written = copy.to_text(alloc)?;
    let is_same = written.as_slice() == text.as_bytes();
    writeln!(lines, "same text: {}", yes_or_no(is_same))?;
    Ok(lines)
}

fn refused(alloc: Global, fault: StateFault) -> Result<String> {
    Ok(format!(in alloc; "{fault:?}\n")?)
}

/// Returns the versions of the files that are trusted, and whether they are ready for a search.
fn about(alloc: Global, trusted: &Trusted) -> Result<String> {
    let mut text = format!(in alloc; "root {}\n", trusted.root_version())?;
    let timestamp = trusted.timestamp().map(|file| file.reading().header());
    push_version(&mut text, "timestamp", timestamp)?;
    let snapshot = trusted.snapshot().map(|file| file.reading().header());
    push_version(&mut text, "snapshot", snapshot)?;
    let targets = trusted.targets().map(|file| file.reading().header());
    push_version(&mut text, "targets", targets)?;
    writeln!(text, "ready: {}", yes_or_no(trusted.is_ready()))?;
    Ok(text)
}

fn push_version(text: &mut String, kind: &str, header: Option<&Header>) -> Result<()> {
    match header {
        Some(header) => Ok(writeln!(text, "{kind} {}", header.version.get())?),
        None => Ok(()),
    }
}
