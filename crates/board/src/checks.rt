//! The checks that a board decides.

ghost use Rattle.std.specs.Prelude.{◌≡◌, ◌≤◌, ◌<◌, Bool, List, length, IfOk};
ghost use Rattle.board.specs.Board.{truth};

use cjson::NoMemory;

/// Maximum number of checks of a board.
pub const MOST_CHECKS: usize = 4096;

/// A list of checks, each of which is true or false for good.
pub trait Checks {
    ghost truths: { Self → List Bool };

    /// Returns the number of checks, at most 4,096.
    fn count(&self) -> usize
        ensures count { result ≡ length (truths self.now) }
        ensures most { result ≤ MOST_CHECKS };

    /// Returns whether check `j` is true; the first is check 0. Fails only if out of memory, and
    /// can then be called again.
    fn decide(&self, j: usize) -> Result<bool, NoMemory>
        requires check { j < length (truths self.now) }
        ensures truth { IfOk result (λ b. b ≡ truth (truths self.now) j) };
}
