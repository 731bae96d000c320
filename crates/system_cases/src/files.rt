//! The commands that write state files, and print the members of states and digests of files.

use crate::shell::Shell;
use anyhow::{Context, Result};
use folder::{Depth, Disk, load};
use sessions::{Output, Step};
use sha2::{Digest, Sha256};
use std::alloc::Global;
use std::collections::BTreeMap;
use std::fs;

/// Writes a state file with the members `NAME=FILE`, in this order.
pub fn state<T>(shell: &Shell<'_, T>, step: &Step) -> Result<Output> {
    let mut text = String::from_str(shell.alloc, "{")?;
    let mut comma = "";
    for member in step.words_behind(1) {
        push_member(shell, &mut text, comma, member.as_str())?;
        comma = ",";
    }
    text.push('}')?;
    fs::write(shell.rt, step.word(0)?, text.as_str())?;
    Ok(Output::nothing(shell.alloc))
}

fn push_member<T>(
    shell: &Shell<'_, T>,
    text: &mut String,
    comma: &str,
    member: &str,
) -> Result<()> {
    let (key, file) = member.split_once("=").context("no member")?;
    let bytes = fs::read(shell.rt, file)?;
    let digits = hex::encode(shell.alloc, bytes.as_slice())?;
    Ok(write!(text, "{comma}\"{key}\":\"{digits}\"")?)
}

/// Returns the names of a state file's members, in its order.
pub fn keeps<T>(shell: &Shell<'_, T>, step: &Step) -> Result<Output> {
    let text = fs::read_to_string(shell.rt, step.word(0)?)?;
    let mut line = String::new(shell.alloc);
    for (place, part) in text.as_str().split("\"").enumerate() {
        if place % 4 == 1 {
            push_name(&mut line, part)?;
        }
    }
    line.push('\n')?;
    Ok(Output::printed(shell.alloc, line))
}

/// Adds a name after the others.
fn push_name(line: &mut String, name: &str) -> Result<()> {
    if !line.is_empty() {
        line.push(' ')?;
    }
    Ok(line.push_str(name)?)
}

/// Returns the name and the SHA-256 of each file that was made, in the order of the names' bytes.
pub fn digests<T>(shell: &Shell<'_, T>) -> Result<Output> {
    let mut text = String::new(shell.alloc);
    for name in ["metadata", "targets"] {
        let path = String::from_str(shell.alloc, name)?;
        let files = load(shell.alloc, &mut Disk::new(shell.rt, path, Depth::Below))?;
        push_digests(shell.alloc, &mut text, name, &files)?;
    }
    Ok(Output::printed(shell.alloc, text))
}

fn push_digests(
    alloc: Global,
    text: &mut String,
    folder: &str,
    files: &BTreeMap<String, Vec<u8>>,
) -> Result<()> {
    for (name, bytes) in files.iter() {
        let digest: [u8; 32] = Sha256::digest(bytes.as_slice());
        let digits = hex::encode(alloc, digest)?;
        writeln!(text, "{folder}/{name} {digits}")?;
    }
    Ok(())
}
