//! The parts that are timed.

use crate::trouble::Trouble;
use cjson::{canonical_text, read_tree};
use deleg::matches;
use lms::{Height, Public, Secret, verify};
use std::alloc::Global;
use std::rt::Clock;
use std::time::Instant;

/// Number of signatures that are verified.
const VERIFICATIONS: u64 = 500;

/// The steps of the chains that a key of height 5 has: 32 leaves of 34 chains of 255 steps.
const STEPS_OF_A_KEY: u64 = 32 * 34 * 255;

/// A digest of no file.
const DIGEST: &str = "0123456789abcdef0123456789abcdef0123456789abcdef0123456789abcdef";

/// Number of members of the tree whose text is made.
const MEMBERS: u64 = 50_000;

/// Number of characters of the pattern and of the path.
const CHARACTERS: u32 = 5000;

/// Number of times that the tree's text is made.
const TEXTS: u64 = 10;

/// Returns how many signatures over messages of 1,000 bytes are verified in a second.
pub fn verifications<R: Clock>(rt: &R, alloc: Global) -> Result<u64, Trouble> {
    let message = [7; 1000];
    let mut secret = Secret::new(alloc, [1; 16], [2; 32], Height::H5)?;
    let signature = secret.sign(&message)?;
    let public = secret.public();
    let start = Instant::now(rt)?;
    let valid = valid_times(&public, &message, signature.as_slice());
    let took = nanoseconds(rt, start)?;
    if valid != VERIFICATIONS {
        return Err(Trouble::Part);
    }
    Ok(per_second(VERIFICATIONS, took))
}

fn valid_times(public: &Public, message: &[u8], signature: &[u8]) -> u64 {
    let mut valid: u64 = 0;
    for _ in 0..VERIFICATIONS {
        if verify(public, message, signature) {
            valid = valid.wrapping_add(1);
        }
    }
    valid
}

/// Returns how many nanoseconds a step of a chain takes, measured when a key is made.
pub fn chain_step<R: Clock>(rt: &R, alloc: Global) -> Result<u64, Trouble> {
    let start = Instant::now(rt)?;
    let _secret = Secret::new(alloc, [1; 16], [2; 32], Height::H5)?;
    let took = nanoseconds(rt, start)?;
    Ok(took / STEPS_OF_A_KEY)
}

/// Returns how many millions of bytes of canonical text are made in a second.
pub fn canonical_speed<R: Clock>(rt: &R, alloc: Global) -> Result<u64, Trouble> {
    let json = large_object(alloc)?;
    let tree = read_tree(alloc, json.as_bytes())?;
    let start = Instant::now(rt)?;
    let mut written: u64 = 0;
    for _ in 0..TEXTS {
        let text = canonical_text(alloc, &tree)?;
        written = written.wrapping_add(text.len() as u64);
    }
    let took = nanoseconds(rt, start)?;
    Ok(per_second(written, took) / 1_000_000)
}

/// Returns how many microseconds it takes to match a pattern of 5,000 times `*` and then `b` with
/// 5,000 times `a`.
pub fn pattern_time<R: Clock>(rt: &R, alloc: Global) -> Result<u64, Trouble> {
    let mut pattern = repeated(alloc, '*')?;
    pattern.push('b')?;
    let path = repeated(alloc, 'a')?;
    let start = Instant::now(rt)?;
    let matched = matches(pattern.as_str(), path.as_str());
    let took = nanoseconds(rt, start)?;
    if matched {
        return Err(Trouble::Part);
    }
    Ok(took / 1000)
}

fn repeated(alloc: Global, c: char) -> Result<String, Trouble> {
    let mut text = String::new(alloc);
    for _ in 0..CHARACTERS {
        text.push(c)?;
    }
    Ok(text)
}

/// Returns a list of targets as JSON.
fn large_object(alloc: Global) -> Result<String, Trouble> {
    let mut json = String::new(alloc);
    json.push('{')?;
    for i in 0..MEMBERS {
        if i > 0 {
            json.push(',')?;
        }
        writeln!(
            json,
            "\"folder/file-{i}.tar.gz\":{{\"hashes\":{{\"sha256\":\"{DIGEST}\"}},\"length\":{i}}}"
        )?;
    }
    json.push('}')?;
    Ok(json)
}

/// Returns the nanoseconds since `start`.
pub(crate) fn nanoseconds<R: Clock>(rt: &R, start: Instant) -> Result<u64, Trouble> {
    let took = start.elapsed(rt)?;
    Ok(u64::try_from(took.as_nanos()).unwrap_or(u64::MAX))
}

fn per_second(count: u64, nanoseconds: u64) -> u64 {
    count.saturating_mul(1_000_000_000) / nanoseconds.max(1)
}
