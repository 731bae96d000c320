//! The lines of a script.

use crate::refusal::Refusal;
use crate::words::Words;
use std::alloc::Global;

/// The key bytes of a role, and how many of the keys must sign.
#[derive(Drop)]
pub struct Quorum {
    /// How many of the keys must sign.
    pub threshold: u64,
    /// The key bytes.
    pub keys: Vec<u8>,
}

/// Which digests of a target are listed.
#[derive(Clone, Copy, PartialEq, Eq)]
pub enum Digests {
    Sha256,
    Sha512,
    Both,
}

/// `target ROLE PATH HEX HASHES`, which makes and lists a target.
#[derive(Drop)]
pub struct TargetLine<'a> {
    /// The role that lists the target.
    pub role: &'a str,
    /// The target's path.
    pub path: &'a str,
    /// The target's bytes.
    pub bytes: Vec<u8>,
    /// The digests that are listed.
    pub digests: Digests,
}

/// `delegate FROM TO T KEYS END KIND LIST`, which adds a delegation.
#[derive(Drop)]
pub struct DelegateLine<'a> {
    /// The role that delegates.
    pub from: &'a str,
    /// The role that is delegated to.
    pub to: &'a str,
    /// The keys of the role that is delegated to.
    pub quorum: Quorum,
    /// Whether the delegation is terminating.
    pub terminating: bool,
    /// Whether the list contains patterns of paths, and not prefixes of their digests.
    pub by_paths: bool,
    /// Patterns or prefixes, joined by `,`.
    pub list: &'a str,
}

/// `succinct FROM T KEYS BITS PREFIX`, which delegates to hash bins.
#[derive(Drop)]
pub struct SuccinctLine<'a> {
    /// The role that delegates.
    pub from: &'a str,
    /// The keys of the bins.
    pub quorum: Quorum,
    /// Number of bits of a digest that determine the bin, 1 to 32.
    pub bits: u32,
    /// The prefix of the bins' names.
    pub prefix: &'a str,
}

/// `write ROLE VERSION KEYS`, which makes a metadata file.
#[derive(Drop)]
pub struct WriteLine<'a> {
    /// The role whose file is made.
    pub role: &'a str,
    /// The version of the file.
    pub version: u64,
    /// The key bytes of the keys that sign.
    pub keys: Vec<u8>,
}

/// Reads `T KEYS`.
pub fn read_quorum(alloc: Global, words: &mut Words<'_>) -> Result<Quorum, Refusal> {
    Ok(Quorum {
        threshold: words.whole()?,
        keys: words.keys(alloc)?,
    })
}

/// Reads the rest of a `target` line.
pub fn read_target<'a>(alloc: Global, words: &mut Words<'a>) -> Result<TargetLine<'a>, Refusal> {
    Ok(TargetLine {
        role: words.word()?,
        path: words.path()?,
        bytes: words.bytes(alloc)?,
        digests: read_digests(words)?,
    })
}

fn read_digests(words: &mut Words<'_>) -> Result<Digests, Refusal> {
    match words.word()? {
        "sha256" => Ok(Digests::Sha256),
        "sha512" => Ok(Digests::Sha512),
        "both" => Ok(Digests::Both),
        _ => Err(Refusal::Line),
    }
}

/// Reads the rest of a `delegate` line.
pub fn read_delegate<'a>(
    alloc: Global,
    words: &mut Words<'a>,
) -> Result<DelegateLine<'a>, Refusal> {
    Ok(DelegateLine {
        from: words.word()?,
        to: words.role()?,
        quorum: read_quorum(alloc, words)?,
        terminating: words.choice("stop", "go")?,
        by_paths: words.choice("paths", "prefixes")?,
        list: words.word()?,
    })
}

/// Reads the rest of a `succinct` line.
pub fn read_succinct<'a>(
    alloc: Global,
    words: &mut Words<'a>,
) -> Result<SuccinctLine<'a>, Refusal> {
    Ok(SuccinctLine {
        from: words.word()?,
        quorum: read_quorum(alloc, words)?,
        bits: words.bits()?,
        prefix: words.role()?,
    })
}

/// Reads the rest of a `write` line.
pub fn read_write<'a>(alloc: Global, words: &mut Words<'a>) -> Result<WriteLine<'a>, Refusal> {
    Ok(WriteLine {
        role: words.word()?,
        version: words.whole()?,
        keys: words.keys(alloc)?,
    })
}
