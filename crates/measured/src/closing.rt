//! The end of a course, by the target files of a folder.

ghost use Rattle.std.specs.Prelude.{◌≡◌, true, All, IfErr, IfOk, map, string_bytes};
ghost use Rattle.folder.specs.Folders.{HasFailed, IsSameFolder};
ghost use Rattle.folder.specs.declared.files.LoadFault.TheVariants as fault;
ghost use Rattle.measured.specs.Closed.{IsClosed, IsMeasured};
ghost use Rattle.measured.specs.Known.{IsCovered};

use crate::early::{Readers, read_early};
use crate::known::{Known, named};
use crate::reading::{note_all, read_all};
use crate::store::Measured;
use cjson::NoMemory;
use cycle::{Course, Outcome};
use folder::{Folder, LoadFault};
use std::alloc::Global;
use std::thread::Threads;

/// Measures the target files that the searches of a course found, in a folder that has these names.
/// Each is read once, in pieces, no further than the greatest length that is listed of it and one
/// byte. No other file is opened. Several files are digested side by side by each of the threads.
/// Fails if the folder fails, or if out of memory.
#[tactic(auto, using(folder::proofs::Sameness::sameness))]
pub fn measure<R: Threads + Sync, F: Folder + Sync>(
    readers: &Readers<'_, R>,
    alloc: Global,
    course: &Course,
    folder: &mut F,
    names: Vec<String>,
) -> Result<Known, LoadFault>
    requires listed { (F.gives folder.old).lists (map string_bytes names.items) ≡ true }
    ensures measured { IfOk result
        (IsMeasured (F.gives folder.old).lists (F.gives folder.old).holds course.now) }
    ensures failed { IfErr result (λ e. e ≡ fault.Folder
        → HasFailed (F.gives folder.old) (F.gives folder.new)) }
    ensures same { IsSameFolder (F.gives folder.old) (F.gives folder.new) }
{
    let consistent = course.has_consistent_names();
    let searches = course.searches();
    let mut known = named(alloc, names)?;
    note_all(alloc, searches, consistent, &mut known)?;
    read_early(readers, alloc, folder, &mut known)?;
    read_all(alloc, folder, searches, consistent, &mut known)?;
    Ok(known)
}

/// Ends a course by what is known of the target files that its searches found. Returns the outcome
/// for all target files that have these names and begin with the bytes that were read, whatever
/// follows them. Fails only if out of memory.
pub fn close(alloc: Global, course: Course, known: &Known) -> Result<Outcome, NoMemory>
    requires covered { All (IsCovered known.now course.trusted.root.reading.consistent)
        course.searches }
    ensures outcome { IfOk result (IsClosed course known.now) }
    ensures state { IfOk result (λ o. o.trusted ≡ course.trusted) }
{
    course.close(alloc, &Measured { alloc, known })
}
