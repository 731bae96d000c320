//! Leaves files that are made again from a log.

ghost use Rattle.std.specs.Prelude.{IfNone, IfSome};
ghost use Rattle.lmskey.specs.Records.{AreWithin, HasOther, count_of};

use crate::fault::{RunFault, of_io};
use crate::printing::put;
use crate::run::{Run, public_of};
use keyfiles::read_plain;
use leaves::{Logged, reserved_of, restore};
use lms::Public;
use std::io::Write;

/// The bytes of the longest log that is read.
const LOG_MOST: u64 = 64_000_000;

/// Stores that the leaves are reserved that the leaves file or the log has, and `gap` more, and
/// prints how many.
pub fn restore_leaves<W: Write>(run: &Run<'_>, gap: u32, out: &mut W) -> Result<(), RunFault> {
    let disk = run.lock(Vec::new(run.alloc))?;
    let public = public_of(&disk);
    let mut disk = Logged::new(run.alloc, disk);
    let known = last_in_log(run, &public)?;
    let reserved = restore(run.alloc, &mut disk, &public, known, gap)?;
    let line = format!(in run.alloc; "reserved {reserved}\n")?;
    put(out, line.as_str())
}

/// Returns the greatest number that a record of the log has, or 0 if there is no log.
fn last_in_log(run: &Run<'_>, public: &Public) -> Result<u32, RunFault> {
    let Some(path) = &run.log else {
        return Ok(0);
    };
    let log = match read_plain(run.rt, run.alloc, path.as_str(), LOG_MOST) {
        Ok(log) => log,
        Err(error) => return Err(of_io(&error, RunFault::Log)),
    };
    greatest(&log, public).ok_or(RunFault::Log)
}

/// Returns the greatest number of the records, of 60 bytes each, or None if one isn't of this key.
/// What is left at the end is no record.
fn greatest(log: &[u8], public: &Public) -> Option<u32>
    ensures most { IfSome result (λ n. AreWithin public.now log.now n (count_of log.now)) }
    ensures other { IfNone result (HasOther public.now log.now) }
{
    let mut greatest = 0u32;
    'records: for k in 0..log.len() / 60 {
        greatest = greatest.max(reserved_of(&log[60 * k..60 * k + 60], public)?);
    }
    Some(greatest)
}
