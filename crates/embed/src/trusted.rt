//! What a state trusts, and until when.

ghost use Rattle.std.specs.Prelude.{◌≡◌, IfErr, IfOk, map};
ghost use Rattle.embed.specs.Jobs as jobs;
ghost use Rattle.embed.specs.Trusted as spec;
ghost use Rattle.rolechain.specs.Headers.{headers};

use crate::fault::JobFault;
use cycle::{Step, Trusted};
use meta::Header;
use moment::Moment;
use rolechain::headers;
use std::alloc::Global;

const SECONDS_OF_DAY: i64 = 86_400;

/// A file that a state trusts.
#[repr(C)]
#[derive(Clone, Copy)]
pub struct TrustedRow {
    /// The version of the file, or 0 if no such file is trusted.
    pub version: u64,
    /// The moment at which it expires, in seconds after 1970-01-01T00:00:00Z, below 0 before that;
    /// 0 if no such file is trusted.
    pub expires: i64,
    /// Zeros.
    pub reserved: [u64; 2],
}

/// Returns what the text of a state trusts: the root, the timestamp, the snapshot and the top-level
/// targets file, in this order. Fails with `State` if it is no text of a state, or with `Memory`.
pub fn show(alloc: Global, state: &[u8]) -> Result<[TrustedRow; 4], JobFault>
    ensures shown { IfOk result (spec.AreTrusted state.now) }
    ensures errors { IfErr result (jobs.IsNoStateText state.now) }
{
    let trusted = Trusted::from_text(alloc, state)?;
    Ok(rows_of(&trusted))
}

fn rows_of(trusted: &Trusted) -> [TrustedRow; 4]
    ensures { result ≡ map spec.row_of (headers trusted.now) }
{
    let [root, timestamp, snapshot, targets] = headers(trusted);
    [
        row_of(&root),
        row_of(&timestamp),
        row_of(&snapshot),
        row_of(&targets),
    ]
}

fn row_of(file: &(Step, Option<Header>)) -> TrustedRow
    ensures { result ≡ spec.row_of file.now }
{
    match file.1 {
        Some(header) => TrustedRow {
            version: header.version.get(),
            expires: seconds_of(header.expires),
            reserved: [0; 2],
        },
        None => TrustedRow {
            version: 0,
            expires: 0,
            reserved: [0; 2],
        },
    }
}

fn seconds_of(moment: Moment) -> i64
    ensures { result ≡ spec.seconds_of moment }
{
    i64::from(moment.day()) * SECONDS_OF_DAY + i64::from(moment.second())
}
