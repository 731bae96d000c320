//! A file that is replaced as a whole.

ghost use Rattle.std.specs.Prelude.{◌≡◌, List, ℕ, Bool, true, false, OnErr, OnOk};

use std::io;

/// The place of a file, and a temporary file beside it that may take its place.
pub trait Place {
    /// Whether the place may hold the bytes.
    ghost holds: { Self → List ℕ → Bool };

    /// Whether the temporary file may hold the bytes.
    ghost beside: { Self → List ℕ → Bool };

    /// Whether a temporary file may be left.
    ghost is_left: { Self → Bool };

    /// Whether the temporary file was flushed to the device.
    ghost is_flushed: { Self → Bool };

    /// Whether the file that takes the place has to be locked.
    ghost needs_lock: { Self → Bool };

    /// Whether the file at the place is locked.
    ghost is_locked: { Self → Bool };

    /// Whether the temporary file is locked.
    ghost is_locked_beside: { Self → Bool };

    /// Writes the bytes to a new temporary file beside the place, and flushes it to the device. It
    /// is locked, if it has to be.
    fn write_beside(&mut self, bytes: &[u8]) -> io::Result<()>
        ensures place { holds self.new ≡ holds self.old }
        ensures beside { OnOk result (beside self.new bytes.now ≡ true) }
        ensures flushed { OnOk result (is_flushed self.new ≡ true) }
        ensures locked { OnOk result (needs_lock self.old ≡ true
            → is_locked_beside self.new ≡ true) };

    /// Moves the temporary file to the place, in one step.
    fn take_over(&mut self) -> io::Result<()>
        requires flushed { is_flushed self.old ≡ true }
        ensures moved { OnOk result (holds self.new ≡ beside self.old) }
        ensures locked { OnOk result (is_locked self.new ≡ is_locked_beside self.old) }
        ensures gone { OnOk result (is_left self.new ≡ false) }
        ensures refused { OnErr result (holds self.new ≡ holds self.old) };

    /// Removes the temporary file, if there is one.
    fn clear_beside(&mut self)
        ensures place { holds self.new ≡ holds self.old }
        ensures gone { is_left self.new ≡ false };
}

/// Replaces what the place holds by the bytes. On error it holds what it held. No temporary file is
/// left, whether it succeeds or fails.
pub fn replace<P: Place>(place: &mut P, bytes: &[u8]) -> io::Result<()>
    ensures kept { OnOk result (P.holds place.new bytes.now ≡ true) }
    ensures locked { OnOk result (P.needs_lock place.old ≡ true
        → P.is_locked place.new ≡ true) }
    ensures refused { OnErr result (P.holds place.new ≡ P.holds place.old) }
    ensures nothing_left { P.is_left place.new ≡ false }
{
    let done = put(place, bytes);
    if done.is_err() {
        place.clear_beside();
    }
    done
}

/// Writes the temporary file, and then moves it.
fn put<P: Place>(place: &mut P, bytes: &[u8]) -> io::Result<()>
    ensures kept { OnOk result (P.holds place.new bytes.now ≡ true) }
    ensures locked { OnOk result (P.needs_lock place.old ≡ true
        → P.is_locked place.new ≡ true) }
    ensures refused { OnErr result (P.holds place.new ≡ P.holds place.old) }
    ensures gone { OnOk result (P.is_left place.new ≡ false) }
{
    place.write_beside(bytes)?;
    place.take_over()
}
