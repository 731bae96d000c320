//! The sizes of the caller's structs, by which a later version of the library can tell them apart.

ghost use Rattle.std.specs.Prelude.{◌≡◌};
ghost use Rattle.tufcheck_c.specs.Answers as spec;

use embed::Job;
use std::mem::size_of;

/// The size of [`SizedJob`] in bytes.
const JOB_SIZE: usize = 104;

const _: () = prove!(size_of::<SizedJob>() == JOB_SIZE);

/// The input of a call.
#[repr(C)]
#[derive(Clone, Copy)]
pub struct SizedJob<'a> {
    /// The size of this struct in bytes, 104.
    pub size: usize,
    /// The input.
    pub job: Job<'a>,
}

/// Returns whether the job has the size of this version, and an answer has its own.
pub(crate) fn is_sized(job: &SizedJob, size: usize, own: usize) -> bool
    ensures { result ≡ spec.is_sized job.now size own }
{
    job.size == JOB_SIZE && size == own
}
