//! The theorem on any number of runs.

ghost use Rattle.std.specs.Prelude.{ℕ, List};
ghost use Rattle.leaves.specs.Runs.{Left, Run, AreRuns, IsSafe, left_by, signatures};

/// States that whatever the runs are, and whenever each of them is cut off, the signatures that
/// they handed out are by different leaves, and each leaf is reserved by whatever the last crash
/// may have left. It computes nothing.
pub fn never_twice()
    ensures safe { (public : List ℕ) (first : Left) (runs : List Run) → AreRuns public first runs
        → IsSafe public (left_by first runs) (signatures runs) }
{}
