//! The system of a session.

use anyhow::Result;
use std::alloc::Global;

/// The moment of the verifications without `--now`.
pub const NOW: &str = "2026-01-01T00:00:00Z";

/// The system as a session sees it.
#[derive(Drop)]
pub struct Shell<'a, T> {
    pub rt: &'a HostRuntime,
    pub threads: &'a T,
    pub alloc: Global,
}

/// Adds an argument.
pub fn push_word(alloc: Global, words: &mut Vec<String>, word: &str) -> Result<()> {
    Ok(words.push(String::from_str(alloc, word)?)?)
}

/// Adds further arguments.
pub fn push_words(words: &mut Vec<String>, more: &[String]) -> Result<()> {
    for word in more {
        words.push(word.clone()?)?;
    }
    Ok(())
}
