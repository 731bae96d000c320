//! Watching the checks of a run.

use cjson::NoMemory;
use crew::Open;
use keys::{Ask, Judge};

/// Watches the checks of the sequential run. No contract depends on it.
pub trait Watch {
    /// Learns that the sequential run has decided a check.
    fn checked(&self);
}

impl Watch for Open {
    fn checked(&self) {}
}

/// A judge whose checks are watched.
#[derive(Drop)]
pub(crate) struct Watched<'a, J, N> {
    /// The judge.
    pub judge: J,
    /// The watch.
    pub watch: &'a N,
}

impl<J: Judge, N: Watch> Judge for Watched<'_, J, N> {
    fn valid(&mut self, ask: &Ask) -> Result<bool, NoMemory> {
        let verdict = self.judge.valid(ask);
        self.watch.checked();
        verdict
    }
}
