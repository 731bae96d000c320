//! What roles list of the wanted paths of a job.

ghost use Rattle.std.specs.Prelude.{◌≡◌, ◌≤◌, ◌⊎◌, false, pos, true};
ghost use Rattle.embed.specs.declared.fault.JobFault.{JobFault};
ghost use Rattle.tufcheck_c.specs.Answers as spec;

use crate::room::{NO_ROOM, NO_SIZE, number_of, put};
use crate::sized::{SizedJob, is_sized};
use embed::{JobFault, ListedRow, Listing, Summary, list};
use std::alloc::Global;
use std::mem::size_of;

/// The size of [`Listed`] in bytes.
const LISTED_SIZE: usize = 136;

const _: () = prove!(size_of::<Listed>() == LISTED_SIZE);

/// The caller's rooms for what is listed, and the summary.
#[repr(C)]
pub struct Listed<'a> {
    /// The size of this struct in bytes, 136.
    pub size: usize,
    /// Room for the text of the new state.
    pub state: &'a mut [u8],
    /// Room for a row for each wanted path.
    pub rows: &'a mut [ListedRow],
    /// Room for the names that the rows cite.
    pub names: &'a mut [u8],
    /// How the cycle ended, and how much is in each room.
    pub summary: Summary,
}

/// Does the job as [`tufcheck_verify`](crate::tufcheck_verify) does, but reads none of its target
/// files, and writes what roles list of the wanted paths to `listed`. Returns 0 if the cycle is
/// ready and all paths are listed, 1 if it is ready and some path isn't, 2 if it stopped, or the
/// number of an error, as there. On any error the rooms are unchanged.
#[unsafe(no_mangle)]
pub extern "C" fn tufcheck_list(alloc: Global, job: &SizedJob, listed: &mut Listed) -> i32
    ensures listed { spec.IfStatus result (λ status. spec.IsListed job.now.job status listed.new) }
    ensures errors { (f : JobFault) → result ≡ spec.number_of f → spec.HasCause job.now.job f }
    ensures room_needed { result ≡ spec.no_room → spec.IsListedShort job.now.job listed.new }
    ensures bounded { spec.IfStatus result (λ _. spec.has_listed_room listed.new ≡ true) }
    ensures unchanged_on_error { spec.IfError result (spec.KeepsListed listed.old listed.new) }
    ensures same_summary { (f : JobFault) → result ≡ spec.number_of f
        → listed.new.summary ≡ listed.old.summary }
    ensures other_size { spec.is_sized job.now listed.old.size 136 ≡ false → result ≡ spec.no_size }
    ensures size_error { result ≡ spec.no_size → spec.is_sized job.now listed.old.size 136 ≡ false }
    ensures same_at_other_size { result ≡ spec.no_size
        → listed.new.summary ≡ listed.old.summary }
    ensures same_rooms { spec.SameListed listed.old listed.new }
    ensures status_range { spec.IsResult 2 result }
{
    if !is_sized(job, listed.size, LISTED_SIZE) {
        return NO_SIZE;
    }
    match list(alloc, &job.job) {
        Ok(listing) => write(listed, &listing),
        Err(fault) => number_of(fault),
    }
}

/// Writes the listing to the rooms, if they are large enough.
fn write(listed: &mut Listed, listing: &Listing) -> i32
    requires counts { spec.AreListed listing.now.summary listing.now.state.items
        listing.now.rows.items listing.now.names.items }
    requires range { listing.now.status ≤ 2 }
    ensures written { spec.IfStatus result (λ status. spec.IsPut listing.now status listed.new) }
    ensures summary { listed.new.summary ≡ listing.now.summary }
    ensures bounded { spec.IfStatus result (λ _. spec.has_listed_room listed.new ≡ true) }
    ensures cases { (result ≡ pos listing.now.status)
        ⊎ ((result ≡ spec.no_room) × (spec.has_listed_room listed.new ≡ false)) }
    ensures unchanged { spec.IfError result (spec.KeepsListed listed.old listed.new) }
    ensures same_rooms { spec.SameListed listed.old listed.new }
{
    listed.summary = listing.summary;
    if !has_room(listed) {
        return NO_ROOM;
    }
    put(listed.state, listing.state.as_slice());
    put(listed.rows, listing.rows.as_slice());
    put(listed.names, listing.names.as_slice());
    i32::from(listing.status)
}

/// Returns whether there is room for as much as the summary counts.
fn has_room(listed: &Listed) -> bool
    ensures { result ≡ spec.has_listed_room listed.now }
{
    let summary = &listed.summary;
    summary.state_len <= listed.state.len()
        && summary.verdict_count <= listed.rows.len()
        && summary.name_len <= listed.names.len()
}
