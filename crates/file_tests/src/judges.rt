//! A judge that is out of memory once.

use cjson::NoMemory;
use keys::{Ask, Direct, Judge};

/// The plain judge, which counts its checks and is out of memory at one of them.
#[derive(Drop)]
pub struct Counting {
    /// Number of checks.
    pub checks: u32,
    /// The check that is out of memory, from 1.
    pub refused_at: u32,
}

impl Judge for Counting {
    fn valid(&mut self, ask: &Ask) -> Result<bool, NoMemory> {
        self.checks = self.checks.saturating_add(1);
        if self.checks == self.refused_at {
            return Err(NoMemory);
        }
        Direct.valid(ask)
    }
}
