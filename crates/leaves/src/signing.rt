//! Leaves are reserved, and only then used.

ghost use Rattle.std.specs.Prelude.{◌≡◌, ◌≢◌, ◌+◌, ◌≤◌, ◌++◌, ℕ, List, [], ◌∷◌};
ghost use Rattle.std.specs.Prelude.{None, true, IsTrue, IfErr, OnOk, length};
ghost use Rattle.lms.specs.Lms.{is_valid};
ghost use Rattle.leaves.specs.Disk.{Passes};
ghost use Rattle.leaves.specs.Runs.{IsRun};
ghost use Rattle.leaves.specs.Reserved.{HasSigned, IsSpending, MayBeForeign, MayHaveFewer};
ghost use Rattle.leaves.specs.Reserved.{IsLate, Reserves};

use crate::disk::Disk;
use crate::fault::LeavesFault;
use crate::key::{Key, KeyFault};
use crate::reserving::reserve;
use std::alloc::Global;

/// Returns why nothing was signed.
fn fault_of(fault: KeyFault) -> LeavesFault
    ensures late { IsLate result }
{
    match fault {
        KeyFault::Used | KeyFault::Damaged => LeavesFault::Key,
        KeyFault::NoMemory => LeavesFault::NoMemory,
    }
}

/// Signs by the next leaf, and hands the signature out.
fn sign_next<D: Disk, K: Key>(disk: &mut D, key: &mut K, message: &[u8]) -> Result<(), LeavesFault>
    ensures any_moment { Passes (D.moment disk.old) (D.moment disk.new) (D.left_at disk.old)
        (D.left_at disk.new) (IsSpending (K.next key.old) 1) }
    ensures signed { OnOk result ((sig : List ℕ)
        × IsTrue (is_valid (K.public key.old) message.now sig)
        × ((D.left_at disk.new (D.moment disk.new)).given
        ≡ (D.left_at disk.old (D.moment disk.old)).given ++ sig ∷ [])) }
    ensures next { OnOk result (K.next key.new ≡ K.next key.old + 1) }
    ensures public { K.public key.new ≡ K.public key.old }
    ensures late { IfErr result IsLate }
{
    match key.sign(message) {
        Ok(sig) => match disk.hand(&sig) {
            Ok(()) => Ok(()),
            Err(_) => Err(LeavesFault::Output),
        },
        Err(fault) => Err(fault_of(fault)),
    }
}

/// Signs each message by a leaf of its own, and hands the signatures out.
fn sign_each<D: Disk, K: Key>(
    disk: &mut D,
    key: &mut K,
    messages: &[Vec<u8>],
) -> Result<(), LeavesFault>
    ensures any_moment { Passes (D.moment disk.old) (D.moment disk.new) (D.left_at disk.old)
        (D.left_at disk.new) (IsSpending (K.next key.old) (length messages.now)) }
    ensures signed { OnOk result (HasSigned (K.public key.old) messages.now
        (D.left_at disk.old (D.moment disk.old)) (D.left_at disk.new (D.moment disk.new))) }
    ensures late { IfErr result IsLate }
{
    'messages: for message in messages {
        sign_next(disk, key, message)?;
    }
    Ok(())
}

/// Gives up the leaves before the first.
fn skip<K: Key>(key: &mut K, first: u32) -> Result<(), LeavesFault>
    ensures skipped { OnOk result (K.next key.new ≡ first) }
    ensures public { K.public key.new ≡ K.public key.old }
    ensures late { IfErr result IsLate }
{
    match key.skip_to(first) {
        Ok(()) => Ok(()),
        Err(fault) => Err(fault_of(fault)),
    }
}

/// Signs the messages, each by a leaf of its own, and hands the signatures out in order. The leaves
/// are reserved first: at whatever moment the process is cut off, no leaf is used again. On success
/// exactly as many more leaves are reserved as there are messages.
///
/// Fails with `Missing`, `Foreign` or `Used` before anything is stored, or with `Key`, `Disk`,
/// `Output` or `NoMemory`: then some first signatures may have been handed out, and leaves are
/// lost.
pub fn sign<D: Disk, K: Key>(
    alloc: Global,
    disk: &mut D,
    key: &mut K,
    messages: &[Vec<u8>],
) -> Result<(), LeavesFault>
    ensures any_moment { Passes (D.moment disk.old) (D.moment disk.new) (D.left_at disk.old)
        (D.left_at disk.new) (IsRun (K.public key.old)) }
    ensures signed { OnOk result (HasSigned (K.public key.old) messages.now
        (D.left_at disk.old (D.moment disk.old)) (D.left_at disk.new (D.moment disk.new))) }
    ensures reserved { OnOk result (Reserves (K.public key.old) (K.leaves key.old)
        (length messages.now) (D.left_at disk.old (D.moment disk.old))
        (D.left_at disk.new (D.moment disk.new))) }
    ensures missing { result ≡ Err LeavesFault.Missing
        → (D.left_at disk.old (D.moment disk.old)).may_leave None ≡ true }
    ensures foreign { result ≡ Err LeavesFault.Foreign
        → MayBeForeign (K.public key.old) (D.left_at disk.old (D.moment disk.old)) }
    ensures used { result ≡ Err LeavesFault.Used → MayHaveFewer (K.public key.old)
        (K.leaves key.old) (length messages.now) (D.left_at disk.old (D.moment disk.old)) }
{
    let public = key.public();
    let leaves = key.leaf_count();
    let first = reserve(alloc, disk, &public, leaves, messages.len())?;
    skip(key, first)?;
    sign_each(disk, key, messages)
}
