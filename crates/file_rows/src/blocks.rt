//! SHA-256 in lanes.

use crate::plain::yes_or_no;
use anyhow::{Result, bail};
use lanes::{chain_step, digest, digest_words, prefix_words};
use sessions::Step;
use sha2::{Digest, Sha256};
use std::alloc::Global;
use std::simd::prelude::*;

/// Returns the digests of four messages, each with whether the plain program returns the same.
pub fn digests(alloc: Global, step: &Step) -> Result<String> {
    let messages = [
        message(alloc, step, 0)?,
        message(alloc, step, 1)?,
        message(alloc, step, 2)?,
        message(alloc, step, 3)?,
    ];
    let digests = in_lanes(&messages);
    let mut text = String::new(alloc);
    for (message, digest) in messages.iter().zip(digests.iter()) {
        push_digest(alloc, &mut text, message, digest)?;
    }
    Ok(text)
}

fn push_digest(
    alloc: Global,
    text: &mut String,
    message: &[u8; 55],
    digest: &[u8; 32],
) -> Result<()> {
    let plain: [u8; 32] = Sha256::digest(message);
    let same = yes_or_no(plain == *digest);
    let digest = hex::encode(alloc, digest)?;
    writeln!(text, "{digest} {same}")?;
    Ok(())
}

/// Returns the message of 55 bytes that the word of that place encodes in hexadecimal digits.
fn message(alloc: Global, step: &Step, place: usize) -> Result<[u8; 55]> {
    let bytes = hex::decode(alloc, step.word(place)?)?;
    if bytes.len() != 55 {
        bail!("no message of 55 bytes");
    }
    let mut message = [0u8; 55];
    message.copy_from_slice(&bytes);
    Ok(message)
}

/// Returns the digests of four messages, computed in four lanes.
fn in_lanes(messages: &[[u8; 55]; 4]) -> [[u8; 32]; 4] {
    let [a, b, c, d] = messages;
    let prefixes = prefix_words(&[front(a), front(b), front(c), front(d)]);
    let counters = u32x4::from_array([
        u32::from(a[22]),
        u32::from(b[22]),
        u32::from(c[22]),
        u32::from(d[22]),
    ]);
    let values = digest_words(&[back(a), back(b), back(c), back(d)]);
    let words = chain_step(&prefixes, counters, &values);
    [
        digest(&words, 0),
        digest(&words, 1),
        digest(&words, 2),
        digest(&words, 3),
    ]
}

/// Returns the first 22 bytes.
fn front(message: &[u8; 55]) -> [u8; 22] {
    let mut front = [0u8; 22];
    front.copy_from_slice(&message[..22]);
    front
}

/// Returns the last 32 bytes.
fn back(message: &[u8; 55]) -> [u8; 32] {
    let mut back = [0u8; 32];
    back.copy_from_slice(&message[23..]);
    back
}
