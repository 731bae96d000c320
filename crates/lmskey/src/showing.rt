//! What is known of a key.

use crate::fault::RunFault;
use crate::printing::{leaf_count, put, put_key};
use crate::run::{Run, public_of};
use leaves::{Disk, LeavesFault, Logged, reserved_of};
use lms::Public;
use std::io::Write;

/// Prints the line of the key, how many of its leaves are reserved and how many are left.
pub fn show<W: Write>(run: &Run<'_>, out: &mut W) -> Result<(), RunFault> {
    let disk = run.lock(Vec::new(run.alloc))?;
    let public = public_of(&disk);
    let mut disk = Logged::new(run.alloc, disk);
    put_key(run.alloc, &public, out)?;
    let reserved = number_in(run, &mut disk, &public)?;
    let left = leaf_count(&public).saturating_sub(reserved);
    let line = format!(in run.alloc; "reserved {reserved}\nleft {left}\n")?;
    put(out, line.as_str())
}

/// Returns the number in the leaves file.
fn number_in<D: Disk>(run: &Run<'_>, disk: &mut D, public: &Public) -> Result<u32, RunFault> {
    match disk.read(run.alloc) {
        Ok(Some(text)) => match reserved_of(&text, public) {
            Some(number) => Ok(number),
            None => Err(RunFault::Leaves(LeavesFault::Foreign)),
        },
        Ok(None) => Err(RunFault::Leaves(LeavesFault::Missing)),
        Err(_) => Err(RunFault::Leaves(LeavesFault::Disk)),
    }
}
