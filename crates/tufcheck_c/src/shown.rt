//! What a state trusts, and until when.

ghost use Rattle.std.specs.Prelude.{◌≡◌, ◌≢◌, pos};
ghost use Rattle.embed.specs.declared.fault.JobFault.{JobFault};
ghost use Rattle.tufcheck_c.specs.Answers as spec;

use crate::room::{NO_SIZE, number_of};
use embed::{TrustedRow, show};
use std::alloc::Global;
use std::mem::size_of;

/// The size of [`Shown`] in bytes.
const SHOWN_SIZE: usize = 136;

const _: () = prove!(size_of::<Shown>() == SHOWN_SIZE);

/// The caller's room for what a state trusts.
#[repr(C)]
pub struct Shown {
    /// The size of this struct in bytes, 136.
    pub size: usize,
    /// A row for the root, the timestamp, the snapshot and the top-level targets file each.
    pub rows: [TrustedRow; 4],
}

/// Writes to `shown` what the text of a state trusts, and when each file expires. Returns 0, or the
/// number of an error: -1 out of memory, -2 no text of a state, -7 another size of `shown`; then it
/// is unchanged.
#[unsafe(no_mangle)]
pub extern "C" fn tufcheck_show(alloc: Global, state: &[u8], shown: &mut Shown) -> i32
    ensures shown { result ≡ pos 0 → spec.AreTrusted state.now shown.new.rows }
    ensures errors { (f : JobFault) → result ≡ spec.number_of f → spec.IsNoStateText state.now f }
    ensures other_size { shown.old.size ≢ 136 → result ≡ spec.no_size }
    ensures size_error { result ≡ spec.no_size → shown.old.size ≢ 136 }
    ensures unchanged_on_error { spec.IfError result (shown.new ≡ shown.old) }
    ensures same_size { shown.new.size ≡ shown.old.size }
    ensures status_range { spec.IsResult 0 result }
    ensures no_room_needed { result ≢ spec.no_room }
{
    if shown.size != SHOWN_SIZE {
        return NO_SIZE;
    }
    match show(alloc, state) {
        Ok(rows) => {
            shown.rows = rows;
            0
        }
        Err(fault) => number_of(fault),
    }
}
