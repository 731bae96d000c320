//! The verification of a job.

ghost use Rattle.std.specs.Prelude.{◌≡◌, ◌≤◌, ◌⊎◌, false, pos, true};
ghost use Rattle.embed.specs.declared.fault.JobFault.{JobFault};
ghost use Rattle.tufcheck_c.specs.Answers as spec;

use crate::room::{NO_ROOM, NO_SIZE, number_of, put};
use crate::sized::{SizedJob, is_sized};
use embed::{JobFault, RoleRow, Summary, VerdictRow, Verification, verify};
use std::alloc::Global;
use std::mem::size_of;

/// The size of [`Answer`] in bytes.
const ANSWER_SIZE: usize = 152;

const _: () = prove!(size_of::<Answer>() == ANSWER_SIZE);

/// The caller's rooms for the outcome, and the summary.
#[repr(C)]
pub struct Answer<'a> {
    /// The size of this struct in bytes, 152.
    pub size: usize,
    /// Room for the text of the new state.
    pub state: &'a mut [u8],
    /// Room for a row for each wanted path.
    pub verdicts: &'a mut [VerdictRow],
    /// Room for a row for each accepted role.
    pub roles: &'a mut [RoleRow],
    /// Room for the names that the rows cite.
    pub names: &'a mut [u8],
    /// How the cycle ended, and how much is in each room.
    pub summary: Summary,
}

/// Verifies the job: runs one cycle of the client workflow on its files, and writes the outcome to
/// `answer`. Returns 0 if the cycle is ready and all wanted targets are accepted, 1 if it is ready
/// and some target is refused, 2 if it stopped, or the number of an error: -1 out of memory, -2 not
/// a state, -3 a name or path that is not UTF-8, -4 a moment past the year 9999, -5 a limit that is
/// not 1 to 256, -6 too little room; then the summary counts how much is needed; -7 another size of
/// the job or the answer than that of this version. On any error the rooms are unchanged.
#[unsafe(no_mangle)]
pub extern "C" fn tufcheck_verify(alloc: Global, job: &SizedJob, answer: &mut Answer) -> i32
    ensures verified { spec.IfStatus result
        (λ status. spec.IsAnswered job.now.job status answer.new) }
    ensures errors { (f : JobFault) → result ≡ spec.number_of f → spec.HasCause job.now.job f }
    ensures room_needed { result ≡ spec.no_room → spec.IsShort job.now.job answer.new }
    ensures bounded { spec.IfStatus result (λ _. spec.has_room answer.new ≡ true) }
    ensures unchanged_on_error { spec.IfError result (spec.KeepsRooms answer.old answer.new) }
    ensures same_summary { (f : JobFault) → result ≡ spec.number_of f
        → answer.new.summary ≡ answer.old.summary }
    ensures other_size { spec.is_sized job.now answer.old.size 152 ≡ false → result ≡ spec.no_size }
    ensures size_error { result ≡ spec.no_size → spec.is_sized job.now answer.old.size 152 ≡ false }
    ensures same_at_other_size { result ≡ spec.no_size
        → answer.new.summary ≡ answer.old.summary }
    ensures same_rooms { spec.SameRooms answer.old answer.new }
    ensures status_range { spec.IsResult 2 result }
{
    if !is_sized(job, answer.size, ANSWER_SIZE) {
        return NO_SIZE;
    }
    match verify(alloc, &job.job) {
        Ok(verification) => write(answer, &verification),
        Err(fault) => number_of(fault),
    }
}

/// Writes the verification to the rooms, if they are large enough.
fn write(answer: &mut Answer, verification: &Verification) -> i32
    requires counts { spec.AreCounted verification.now.summary verification.now.state.items
        verification.now.verdicts.items verification.now.roles.items
        verification.now.names.items }
    requires range { verification.now.status ≤ 2 }
    ensures written { spec.IfStatus result
        (λ status. spec.IsWritten verification.now status answer.new) }
    ensures summary { answer.new.summary ≡ verification.now.summary }
    ensures bounded { spec.IfStatus result (λ _. spec.has_room answer.new ≡ true) }
    ensures cases { (result ≡ pos verification.now.status)
        ⊎ ((result ≡ spec.no_room) × (spec.has_room answer.new ≡ false)) }
    ensures unchanged { spec.IfError result (spec.KeepsRooms answer.old answer.new) }
    ensures same_rooms { spec.SameRooms answer.old answer.new }
{
    answer.summary = verification.summary;
    if !has_room(answer) {
        return NO_ROOM;
    }
    put(answer.state, verification.state.as_slice());
    put(answer.verdicts, verification.verdicts.as_slice());
    put(answer.roles, verification.roles.as_slice());
    put(answer.names, verification.names.as_slice());
    i32::from(verification.status)
}

/// Returns whether there is room for as much as the summary counts.
fn has_room(answer: &Answer) -> bool
    ensures { result ≡ spec.has_room answer.now }
{
    let summary = &answer.summary;
    summary.state_len <= answer.state.len()
        && summary.verdict_count <= answer.verdicts.len()
        && summary.role_count <= answer.roles.len()
        && summary.name_len <= answer.names.len()
}
