//! The leaves file and the writer.

ghost use Rattle.std.specs.Prelude.{◌≡◌, ℕ, ◌++◌, [], ◌∷◌, true, IfOk, OnOk, option_map};
ghost use Rattle.leaves.specs.Disk.{Left, Passes, IsQuiet, IsStoring, IsHanding, LeavesOnly};

use std::alloc::Global;
use std::io;

/// A leaves file that is locked, so that no other run changes it, and a writer of signatures. A
/// clause `time` says what a crash at each moment of the call leaves.
pub trait Disk {
    /// The moment, as a number that doesn't fall.
    ghost moment: { Self → ℕ };

    /// What a crash at that moment left, or would have left.
    ghost left_at: { Self → ℕ → Left };

    /// Reads the file, or returns None if it is missing.
    fn read(&mut self, alloc: Global) -> io::Result<Option<Vec<u8>>>
        ensures read { IfOk result (λ file. (left_at self.old (moment self.old)).may_leave
            (option_map (λ v. v.items) file) ≡ true) }
        ensures time { Passes (moment self.old) (moment self.new) (left_at self.old)
            (left_at self.new) IsQuiet };

    /// Stores the text as the file, in place of what it held, and flushes it to the device.
    fn store(&mut self, text: &[u8]) -> io::Result<()>
        ensures stored { OnOk result (LeavesOnly (left_at self.new (moment self.new)) text.now) }
        ensures time { Passes (moment self.old) (moment self.new) (left_at self.old)
            (left_at self.new) (IsStoring text.now) };

    /// Hands out a signature.
    fn hand(&mut self, sig: &[u8]) -> io::Result<()>
        ensures handed { OnOk result ((left_at self.new (moment self.new)).given
            ≡ (left_at self.old (moment self.old)).given ++ sig.now ∷ []) }
        ensures time { Passes (moment self.old) (moment self.new) (left_at self.old)
            (left_at self.new) (IsHanding sig.now) };
}
