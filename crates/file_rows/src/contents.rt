//! Lengths and digests that are listed of the bytes `abc`.

use crate::layers::Layers;
use crate::signed::{changed, file, good};
use anyhow::{Context, Result};
use keys::Direct;
use meta::{Fault, Part, Reading, Targets, Timestamp};
use sessions::Step;
use std::alloc::Global;

fn shown(alloc: Global, fault: Option<Fault>) -> Result<String> {
    match fault {
        None => Ok(String::from_str(alloc, "good\n")?),
        Some(fault) => Ok(format!(in alloc; "{fault:?}\n")?),
    }
}

/// Returns the limit of the first word, or none for `-`.
fn limit_of(step: &Step) -> Result<Option<u64>> {
    match step.word(0)? {
        "-" => Ok(None),
        limit => Ok(Some(limit.parse::<u64>()?)),
    }
}

/// Returns the valid file of a kind with the new part in place of the old.
fn file_with<A: Reading + Drop>(
    layers: &Layers<'_>,
    kind: &str,
    old: &str,
    new: &str,
) -> Result<Part<A>> {
    let signed = good(layers, kind)?;
    let signed = changed(layers.alloc, signed.as_str(), old, new)?;
    read(layers.alloc, signed.as_str())
}

fn read<A: Reading + Drop>(alloc: Global, signed: &str) -> Result<Part<A>> {
    Ok(Part::read(alloc, file(alloc, signed)?)?)
}

/// Checks a listing with the members, and returns the result.
pub fn check_listing(layers: &Layers<'_>, step: &Step) -> Result<String> {
    let members = step.text_behind(1);
    let new = format!(in layers.alloc; "\"snapshot.json\":{{\"version\":1,{members}}},\"x\":{{")?;
    let part: Part<Timestamp> = file_with(
        layers,
        "timestamp",
        "\"snapshot.json\":{",
        new.as_str(),
    )?;
    let listing = part.reading().snapshot();
    let fault = listing.check("snapshot.json", b"abc", limit_of(step)?, &mut Direct)?;
    shown(layers.alloc, fault)
}

/// Checks a target with the members, and returns the result.
pub fn check_target(layers: &Layers<'_>, step: &Step) -> Result<String> {
    let members = step.text_behind(1);
    let new = format!(in layers.alloc; "\"a\":{{{members}}},\"c/abc.txt\":{{")?;
    let part: Part<Targets> = file_with(layers, "targets", "\"c/abc.txt\":{", new.as_str())?;
    let target = part.reading().targets().first().context("no target")?;
    let fault = target.check("abc.txt", b"abc", limit_of(step)?, &mut Direct)?;
    shown(layers.alloc, fault)
}
