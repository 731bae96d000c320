//! The state of a first root.

ghost use Rattle.std.specs.Prelude.{◌≡◌, ◌≤◌, length, pos, take};
ghost use Rattle.embed.specs.declared.fault.JobFault.{JobFault};
ghost use Rattle.tufcheck_c.specs.Answers as spec;

use crate::room::{NO_ROOM, number_of, put};
use embed::{JobFault, first_state};
use std::alloc::Global;

/// Writes the text of the state of a first root, which the caller trusts, to `state`, and its
/// length to `len`. Returns 0, or the number of an error: -1 out of memory, -2 not a root file, -6
/// too little room; then `len` is the length of the text. On any error `state` is unchanged.
#[unsafe(no_mangle)]
pub extern "C" fn tufcheck_first(
    alloc: Global,
    root: &[u8],
    state: &mut [u8],
    len: &mut usize,
) -> i32
    ensures first { result ≡ pos 0 → spec.IsFirst root.now (take len.new state.new) }
    ensures errors { (f : JobFault) → result ≡ spec.number_of f → spec.IsNoRoot root.now f }
    ensures room_needed { result ≡ spec.no_room
        → spec.IsFirstShort root.now state.new len.new }
    ensures bounded { result ≡ pos 0 → len.new ≤ length state.new }
    ensures unchanged_on_error { spec.IfError result (state.new ≡ state.old) }
    ensures same_len { (f : JobFault) → result ≡ spec.number_of f → len.new ≡ len.old }
    ensures status_range { spec.IsResult 0 result }
{
    match first_state(alloc, root) {
        Ok(text) => {
            *len = text.len();
            if text.len() > state.len() {
                return NO_ROOM;
            }
            put(state, text.as_slice());
            0
        }
        Err(fault) => number_of(fault),
    }
}
