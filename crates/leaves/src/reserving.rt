//! How many leaves are reserved.

ghost use Rattle.std.specs.Prelude.{◌≡◌, ◌+◌, ◌<◌, ◌≤◌, ℕ, List, Some, None, true, IfOk, OnOk};
ghost use Rattle.leaves.specs.Disk.{IsQuiet, Passes};
ghost use Rattle.leaves.specs.Runs.{IsReserved, IsRun};
ghost use Rattle.leaves.specs.Reserved.{HasReserved, IsReserving};
ghost use Rattle.leaves.specs.Reserved.{MayBeForeign, MayBeOwn, MayHaveFewer};

use crate::disk::Disk;
use crate::fault::LeavesFault;
use crate::text::{reserved_of, text_of};
use lms::Public;
use std::alloc::Global;

/// Stores that no leaf of the key is reserved. Fails with `Exists` if there is a file, with `Disk`,
/// or with `NoMemory`.
pub fn create<D: Disk>(alloc: Global, disk: &mut D, public: &Public) -> Result<(), LeavesFault>
    ensures any_moment { Passes (D.moment disk.old) (D.moment disk.new) (D.left_at disk.old)
        (D.left_at disk.new) (IsRun public.now) }
    ensures stored { OnOk result
        (HasReserved public.now 0 (D.left_at disk.new (D.moment disk.new))) }
    ensures missing { OnOk result
        ((D.left_at disk.old (D.moment disk.old)).may_leave None ≡ true) }
    ensures exists { result ≡ Err LeavesFault.Exists → (text : List ℕ)
        × ((D.left_at disk.old (D.moment disk.old)).may_leave (Some text) ≡ true) }
{
    let text = text_of(alloc, public, 0)?;
    match disk.read(alloc) {
        Ok(None) => {}
        Ok(Some(_text)) => return Err(LeavesFault::Exists),
        Err(_) => return Err(LeavesFault::Disk),
    }
    match disk.store(&text) {
        Ok(()) => Ok(()),
        Err(_) => Err(LeavesFault::Disk),
    }
}

/// Reserves `count` leaves of the key, of which `leaves` is the number, and returns the first of
/// them.
pub(crate) fn reserve<D: Disk>(
    alloc: Global,
    disk: &mut D,
    public: &Public,
    leaves: u32,
    count: usize,
) -> Result<u32, LeavesFault>
    ensures any_moment { Passes (D.moment disk.old) (D.moment disk.new) (D.left_at disk.old)
        (D.left_at disk.new) (IsRun public.now) }
    ensures reserved { IfOk result (λ first. IsReserving public.now first (first + count)
        (D.left_at disk.old (D.moment disk.old)) (D.left_at disk.new (D.moment disk.new))) }
    ensures given { OnOk result ((D.left_at disk.new (D.moment disk.new)).given
        ≡ (D.left_at disk.old (D.moment disk.old)).given) }
    ensures within { IfOk result (λ first. first + count ≤ leaves) }
    ensures missing { result ≡ Err LeavesFault.Missing
        → (D.left_at disk.old (D.moment disk.old)).may_leave None ≡ true }
    ensures foreign { result ≡ Err LeavesFault.Foreign
        → MayBeForeign public.now (D.left_at disk.old (D.moment disk.old)) }
    ensures used { result ≡ Err LeavesFault.Used
        → MayHaveFewer public.now leaves count (D.left_at disk.old (D.moment disk.old)) }
{
    let first = match disk.read(alloc) {
        Ok(Some(text)) => match reserved_of(&text, public) {
            Some(first) => first,
            None => return Err(LeavesFault::Foreign),
        },
        Ok(None) => return Err(LeavesFault::Missing),
        Err(_) => return Err(LeavesFault::Disk),
    };
    if first > leaves || count > (leaves - first) as usize {
        return Err(LeavesFault::Used);
    }
    let text = text_of(alloc, public, first + count as u32)?;
    match disk.store(&text) {
        Ok(()) => Ok(first),
        Err(_) => Err(LeavesFault::Disk),
    }
}

/// Returns how many leaves the file has reserved, or 0 if it is missing.
fn bound<D: Disk>(alloc: Global, disk: &mut D, public: &Public) -> Result<u32, LeavesFault>
    ensures time { Passes (D.moment disk.old) (D.moment disk.new) (D.left_at disk.old)
        (D.left_at disk.new) IsQuiet }
    ensures bound { IfOk result (λ n. (q : ℕ)
        → IsReserved public.now (D.left_at disk.old (D.moment disk.old)) q → q < n) }
    ensures own { OnOk result (MayBeOwn public.now (D.left_at disk.old (D.moment disk.old))) }
    ensures foreign { result ≡ Err LeavesFault.Foreign
        → MayBeForeign public.now (D.left_at disk.old (D.moment disk.old)) }
{
    match disk.read(alloc) {
        Ok(Some(text)) => match reserved_of(&text, public) {
            Some(n) => Ok(n),
            None => Err(LeavesFault::Foreign),
        },
        Ok(None) => Ok(0),
        Err(_) => Err(LeavesFault::Disk),
    }
}

/// Stores that `gap` leaves more are reserved than the file has and than `known`, as a log knows
/// it, and returns how many. A file that is missing has none. Only a `known` that is no less than
/// what a lost file had makes up for it.
///
/// Fails with `Foreign`, with `Used` if the number is past 2^32, with `Disk`, or with `NoMemory`.
pub fn restore<D: Disk>(
    alloc: Global,
    disk: &mut D,
    public: &Public,
    known: u32,
    gap: u32,
) -> Result<u32, LeavesFault>
    ensures any_moment { Passes (D.moment disk.old) (D.moment disk.new) (D.left_at disk.old)
        (D.left_at disk.new) (IsRun public.now) }
    ensures stored { IfOk result
        (λ n. HasReserved public.now n (D.left_at disk.new (D.moment disk.new))) }
    ensures known { IfOk result (λ n. known + gap ≤ n) }
    ensures file { IfOk result (λ n. (q : ℕ)
        → IsReserved public.now (D.left_at disk.old (D.moment disk.old)) q → q + gap < n) }
    ensures own { OnOk result (MayBeOwn public.now (D.left_at disk.old (D.moment disk.old))) }
    ensures foreign { result ≡ Err LeavesFault.Foreign
        → MayBeForeign public.now (D.left_at disk.old (D.moment disk.old)) }
{
    let first = bound(alloc, disk, public)?;
    let Some(end) = first.max(known).checked_add(gap) else {
        return Err(LeavesFault::Used);
    };
    let text = text_of(alloc, public, end)?;
    match disk.store(&text) {
        Ok(()) => Ok(end),
        Err(_) => Err(LeavesFault::Disk),
    }
}
