//! What each export does with the caller's rooms, and the numbers of faults.

ghost use Rattle.std.specs.Prelude.{◌≡◌, ◌≤◌, length, take};
ghost use Rattle.tufcheck_c.specs.Answers as spec;

use embed::JobFault;

/// Some room is too small.
pub(crate) const NO_ROOM: i32 = -6;

/// A struct of the caller has another size than that of this version.
pub(crate) const NO_SIZE: i32 = -7;

/// Copies the items to the front of the room.
pub(crate) fn put<T: Copy>(room: &mut [T], items: &[T])
    requires { length items.now ≤ length room.old }
    ensures front { take (length items.now) room.new ≡ items.now }
    ensures len { length room.new ≡ length room.old }
{
    let (front, _) = room.split_at_mut(items.len());
    front.copy_from_slice(items);
}

/// Returns the number of a fault, -1 to -5.
pub(crate) fn number_of(fault: JobFault) -> i32
    ensures { result ≡ spec.number_of fault }
{
    match fault {
        JobFault::Memory => -1,
        JobFault::State => -2,
        JobFault::Name => -3,
        JobFault::Moment => -4,
        JobFault::Limit => -5,
    }
}
