//! The bound on the time for reading files and matching wanted paths in advance.

use deleg::{Edge, HashedPath, matches};
use meta::{HashPrefix, PathPattern, Paths};

/// Maximum number of steps of a run, each of about a nanosecond.
const MOST_STEPS: u64 = 100_000_000;

/// The steps to read a JSON value. A value of few bytes costs far more than its bytes.
const VALUE: u64 = 200;

/// The steps to look at a delegation.
const LOOK: u64 = 50;

/// The steps to follow a delegation.
const FOLLOW: u64 = 500;

/// The steps to compare a prefix.
const PREFIX: u64 = 10;

/// The steps that are left. The files that are read in advance are unverified, so they must not
/// determine how long that takes.
#[derive(Drop)]
pub(crate) struct Steps {
    left: u64,
}

impl Steps {
    /// Returns the steps of a run.
    pub fn new() -> Steps {
        Steps { left: MOST_STEPS }
    }

    /// Returns whether no steps are left.
    pub fn are_spent(&self) -> bool {
        self.left == 0
    }

    /// Spends this number of steps and returns true, or spends all and returns false.
    fn spend(&mut self, steps: u64) -> bool {
        let enough = steps <= self.left;
        self.left = self.left.saturating_sub(steps);
        enough
    }

    /// Spends the steps of the values that a file of these bytes has at most and returns true, or
    /// spends all and returns false.
    pub fn read(&mut self, bytes: &[u8]) -> bool {
        let values = bytes.iter().filter(|byte| begins_value(**byte)).count();
        self.spend((values as u64).saturating_mul(VALUE))
    }

    /// Spends the steps to follow a delegation.
    pub fn follow(&mut self) {
        self.spend(FOLLOW);
    }

    /// Returns whether the delegation is for the path. Returns false if too few steps are left.
    pub fn is_for(&mut self, edge: &Edge, path: &HashedPath) -> bool {
        if !self.spend(LOOK) {
            return false;
        }
        match edge.paths {
            None => true,
            Some(Paths::Patterns(patterns)) => self.is_any_match(patterns.as_slice(), path),
            Some(Paths::Prefixes(prefixes)) => self.is_any_prefix(prefixes.as_slice(), path),
        }
    }

    fn is_any_match(&mut self, patterns: &[PathPattern], path: &HashedPath) -> bool {
        for pattern in patterns {
            if !self.spend(steps_of(pattern.as_str(), path.as_str())) {
                return false;
            }
            if matches(pattern.as_str(), path.as_str()) {
                return true;
            }
        }
        false
    }

    fn is_any_prefix(&mut self, prefixes: &[HashPrefix], path: &HashedPath) -> bool {
        for prefix in prefixes {
            if !self.spend(PREFIX) {
                return false;
            }
            if path.begins_with(prefix.digits()) {
                return true;
            }
        }
        false
    }
}

/// Returns whether a value may begin after this byte.
fn begins_value(byte: u8) -> bool {
    matches!(byte, b'[' | b'{' | b',')
}

/// Returns the steps of a pattern: the characters before its first `*` are compared once, and those
/// after it at most once at each place of the path.
fn steps_of(pattern: &str, path: &str) -> u64 {
    let whole = pattern.len() as u64;
    let after = match pattern.find('*') {
        Some(place) => whole.saturating_sub(place as u64),
        None => 0,
    };
    after
        .saturating_mul(path.len() as u64)
        .saturating_add(whole)
        .saturating_add(PREFIX)
}
