//! The files that a caller has to fetch next.

ghost use Rattle.std.specs.Prelude.{◌≡◌, ◌≤◌, ◌⊎◌, false, pos, true};
ghost use Rattle.embed.specs.declared.fault.JobFault.{JobFault};
ghost use Rattle.tufcheck_c.specs.Answers as spec;

use crate::room::{NO_ROOM, NO_SIZE, number_of, put};
use crate::sized::{SizedJob, is_sized};
use embed::{JobFault, Missing, NeedRow, Summary, next};
use std::alloc::Global;
use std::mem::size_of;

/// The size of [`Needs`] in bytes.
const NEEDS_SIZE: usize = 120;

const _: () = prove!(size_of::<Needs>() == NEEDS_SIZE);

/// The caller's rooms for the files to fetch, and the summary.
#[repr(C)]
pub struct Needs<'a> {
    /// The size of this struct in bytes, 120.
    pub size: usize,
    /// Room for a row for each file.
    pub rows: &'a mut [NeedRow],
    /// Room for the names that the rows cite.
    pub names: &'a mut [u8],
    /// How the cycle ended, and how much is in each room.
    pub summary: Summary,
}

/// Does the job as [`tufcheck_verify`](crate::tufcheck_verify) does, and writes the files that it
/// looked up and found absent to `needs`, each with the maximum number of its bytes. Returns 1 if
/// some file isn't optional, else 2 if the cycle stopped, else 0, or the number of an error, as
/// there. On any error the rooms are unchanged.
#[unsafe(no_mangle)]
pub extern "C" fn tufcheck_next(alloc: Global, job: &SizedJob, needs: &mut Needs) -> i32
    ensures next { spec.IfStatus result (λ status. spec.IsNeeded job.now.job status needs.new) }
    ensures errors { (f : JobFault) → result ≡ spec.number_of f → spec.HasCause job.now.job f }
    ensures room_needed { result ≡ spec.no_room → spec.IsNeedsShort job.now.job needs.new }
    ensures bounded { spec.IfStatus result (λ _. spec.has_needs_room needs.new ≡ true) }
    ensures unchanged_on_error { spec.IfError result (spec.KeepsNeeds needs.old needs.new) }
    ensures same_summary { (f : JobFault) → result ≡ spec.number_of f
        → needs.new.summary ≡ needs.old.summary }
    ensures other_size { spec.is_sized job.now needs.old.size 120 ≡ false → result ≡ spec.no_size }
    ensures size_error { result ≡ spec.no_size → spec.is_sized job.now needs.old.size 120 ≡ false }
    ensures same_at_other_size { result ≡ spec.no_size
        → needs.new.summary ≡ needs.old.summary }
    ensures same_rooms { spec.SameNeeds needs.old needs.new }
    ensures status_range { spec.IsResult 2 result }
{
    if !is_sized(job, needs.size, NEEDS_SIZE) {
        return NO_SIZE;
    }
    match next(alloc, &job.job) {
        Ok(missing) => write(needs, &missing),
        Err(fault) => number_of(fault),
    }
}

/// Writes the files to the rooms, if they are large enough.
fn write(needs: &mut Needs, missing: &Missing) -> i32
    requires counts { spec.AreNeeds missing.now.summary missing.now.rows.items
        missing.now.names.items }
    requires range { missing.now.status ≤ 2 }
    ensures written { spec.IfStatus result
        (λ status. spec.AreWritten missing.now status needs.new) }
    ensures summary { needs.new.summary ≡ missing.now.summary }
    ensures bounded { spec.IfStatus result (λ _. spec.has_needs_room needs.new ≡ true) }
    ensures cases { (result ≡ pos missing.now.status)
        ⊎ ((result ≡ spec.no_room) × (spec.has_needs_room needs.new ≡ false)) }
    ensures unchanged { spec.IfError result (spec.KeepsNeeds needs.old needs.new) }
    ensures same_rooms { spec.SameNeeds needs.old needs.new }
{
    needs.summary = missing.summary;
    if !has_room(needs) {
        return NO_ROOM;
    }
    put(needs.rows, missing.rows.as_slice());
    put(needs.names, missing.names.as_slice());
    i32::from(missing.status)
}

/// Returns whether there is room for as much as the summary counts.
fn has_room(needs: &Needs) -> bool
    ensures { result ≡ spec.has_needs_room needs.now }
{
    let summary = &needs.summary;
    summary.verdict_count <= needs.rows.len() && summary.name_len <= needs.names.len()
}
