//! Runs that are cut off at each of their calls.

use crate::memory::Memory;
use leaves::{Key, Logged, create, sign};
use lms::{Height, Secret, Width};
use std::alloc::Global;
use std::test::Fail;

/// The calls of a run that creates the file and signs a message, which is 13.
const CALLS: u32 = 13;

pub fn key_of(alloc: Global) -> Result<Secret, Fail> {
    Ok(Secret::of(alloc, [3; 16], [7; 32], Width::W4, Height::H5)?)
}

/// Returns the leaf of a signature (RFC 8554 section 5.4).
pub fn leaf(sig: &[u8]) -> Option<u32> {
    match sig {
        [a, b, c, d, ..] => Some(u32::from_be_bytes([*a, *b, *c, *d])),
        _ => None,
    }
}

/// Creates the file and signs a message, with so many calls that succeed.
fn run(alloc: Global, key: &mut Secret, mut memory: Memory, calls: u32) -> Result<Memory, Fail> {
    memory.calls = calls;
    let messages = vec![in alloc; b"one".to_vec(alloc)?]?;
    let public = Key::public(key);
    let mut disk = Logged::new(alloc, memory);
    let _ = create(alloc, &mut disk, &public);
    let _ = sign(alloc, &mut disk, key, &messages);
    Ok(disk.into_calls())
}

/// Ends a run at each of its calls, whether that takes effect or not, on one device.
fn history(alloc: Global, loses_power: bool) -> Result<Memory, Fail> {
    let mut key = key_of(alloc)?;
    let mut memory = Memory::new(alloc);
    for calls in 0..=CALLS {
        memory.takes_effect = calls % 2 == 0;
        memory = run(alloc, &mut key, memory, calls)?;
        if loses_power {
            memory.lose_power()?;
        }
    }
    Ok(memory)
}

/// Returns whether the leaves of the signatures ascend.
fn ascend(memory: &Memory) -> bool {
    let mut last: Option<u32> = None;
    for sig in &memory.given {
        let now = leaf(sig);
        if now <= last {
            return false;
        }
        last = now;
    }
    true
}

#[test]
fn each_leaf_once_if_calls_fail(rt: HostRuntime) -> Result<(), Fail> {
    let memory = history(rt.alloc(), false)?;
    assert!(rt; memory.given.len() >= 4);
    assert!(rt; ascend(&memory));
    Ok(())
}

#[test]
fn each_leaf_once_if_power_fails(rt: HostRuntime) -> Result<(), Fail> {
    let memory = history(rt.alloc(), true)?;
    assert!(rt; memory.given.len() >= 4);
    assert!(rt; ascend(&memory));
    Ok(())
}
