//! The stages of a run at which checks are counted.

use crate::counts::Progress;
use crate::ground::Ground;
use crew::Gate;
use cycle::Watch;

/// Counts nothing: a check that a worker has decided counts when the sequential run takes it over.
impl<'a, G: Ground> Gate for Progress<'a, G> {
    fn begin(&self) {}

    fn enter(&self, _j: usize) {}

    fn leave(&self, _j: usize) {}

    fn end(&self) {}
}

/// Counts the checks of the sequential run.
impl<'a, G: Ground> Watch for Progress<'a, G> {
    fn checked(&self) {
        self.count_check();
    }
}
