//! Patterns and prefixes of paths, names of files, and lines that name them.

use crate::plain::{output, yes_or_no};
use anyhow::Result;
use cjson::form::FromJson;
use cjson::tree_from;
use deleg::{bin_name, matches, prefix_matches};
use folder::path_below;
use meta::Bins;
use meta::names::{digest_name, role_name, root_name, version_name};
use serde_json::json;
use sessions::Step;
use std::alloc::Global;

/// Returns whether a pattern matches a path.
pub fn pattern(alloc: Global, step: &Step) -> Result<String> {
    output(alloc, matches(step.word(0)?, step.word(1)?))
}

/// Returns whether a path's digest begins with a prefix of hexadecimal digits.
pub fn prefix(alloc: Global, step: &Step) -> Result<String> {
    output(alloc, prefix_matches(step.word(0)?, step.word(1)?))
}

/// Returns the name of the path's bin, for a number of bits.
pub fn bin(alloc: Global, step: &Step) -> Result<String> {
    let bins = bins(alloc, step.word(0)?.parse::<u64>()?, step.word(1)?)?;
    line(alloc, bin_name(alloc, &bins, step.word(2)?)?)
}

fn bins(alloc: Global, bits: u64, prefix: &str) -> Result<Bins> {
    let value = json!(in alloc; {
        "bit_length": bits,
        "keyids": [],
        "name_prefix": prefix,
        "threshold": 1
    })?;
    Ok(Bins::from_json(alloc, &tree_from(alloc, &value)?)?)
}

fn line(alloc: Global, name: String) -> Result<String> {
    Ok(format!(in alloc; "{name}\n")?)
}

/// Returns the name of the root of a version.
pub fn root(alloc: Global, step: &Step) -> Result<String> {
    line(alloc, root_name(alloc, step.word(0)?.parse::<u64>()?)?)
}

/// Returns the name under which a role is listed.
pub fn role(alloc: Global, step: &Step) -> Result<String> {
    line(alloc, role_name(alloc, step.word(0)?)?)
}

/// Returns the path of a name below a folder.
pub fn below(alloc: Global, step: &Step) -> Result<String> {
    line(alloc, path_below(alloc, step.word(0)?, step.word(1)?)?)
}

/// Returns the name of a file of a version, under consistent snapshots or not.
pub fn versioned_name(alloc: Global, step: &Step) -> Result<String> {
    let is_consistent = step.word(0)? == "consistent";
    let version = step.word(1)?.parse::<u64>()?;
    line(
        alloc,
        version_name(alloc, is_consistent, version, step.word(2)?)?,
    )
}

/// Returns the name of a target's file by the bytes of a digest.
pub fn hashed_name(alloc: Global, step: &Step) -> Result<String> {
    let digest = hex::decode(alloc, step.word(0)?)?;
    line(alloc, digest_name(alloc, digest.as_slice(), step.word(1)?)?)
}

/// Returns whether that many stars match that many characters, then with another character after
/// the stars, and then with it after both.
pub fn stars(alloc: Global, step: &Step) -> Result<String> {
    let count = step.word(0)?.parse::<u32>()?;
    let mut pattern = repeated(alloc, '*', count)?;
    let mut path = repeated(alloc, 'a', count)?;
    let both = yes_or_no(matches(pattern.as_str(), path.as_str()));
    pattern.push('b')?;
    let one = yes_or_no(matches(pattern.as_str(), path.as_str()));
    path.push('b')?;
    let again = yes_or_no(matches(pattern.as_str(), path.as_str()));
    Ok(format!(in alloc; "{both} {one} {again}\n")?)
}

fn repeated(alloc: Global, mark: char, count: u32) -> Result<String> {
    let mut text = String::new(alloc);
    for _ in 0..count {
        text.push(mark)?;
    }
    Ok(text)
}
