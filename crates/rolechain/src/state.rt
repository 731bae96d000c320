//! The trusted state.

ghost use Rattle.std.specs.Prelude.{◌≡◌, IfOk, option_map};
ghost use Rattle.rolechain.specs.Advance as spec;

use crate::rotation::is_rotated;
use cjson::NoMemory;
use meta::{Part, Reading, Root, Snapshot, Targets, Timestamp};
use std::marker::Model;

/// What is trusted: a root file and, if trusted, a timestamp, a snapshot and a top-level targets
/// file (TUF 1.0 section 5). Each is the reading of its bytes, which are within the limit of its
/// kind.
pub struct Trusted {
    /// The root file.
    pub(crate) root: Part<Root>,
    /// The timestamp file, if one is trusted.
    pub(crate) timestamp: Option<Part<Timestamp>>,
    /// The snapshot file, if one is trusted.
    pub(crate) snapshot: Option<Part<Snapshot>>,
    /// The top-level targets file, if one is trusted.
    pub(crate) targets: Option<Part<Targets>>,
}

impl Drop for Trusted {
    fn drop(self) {
        let Trusted {
            root,
            timestamp,
            snapshot,
            targets,
        } = self;
    }
}

impl Model for Trusted {
    ghost use Rattle.rolechain.specs.Advance as spec;

    ghost Value = { spec.State };

    ghost view = { λ t. record {
      root = t.root;
      timestamp = t.timestamp;
      snapshot = t.snapshot;
      targets = t.targets;
    } };

    ghost use Rattle.rolechain.specs.Kept.{AreRead};

    ghost invariant = { λ t. AreRead (record {
      root = t.root;
      timestamp = t.timestamp;
      snapshot = t.snapshot;
      targets = t.targets;
    }) };
}

impl Trusted {
    /// Returns the state of these files.
    pub(crate) fn of(
        root: Part<Root>,
        timestamp: Option<Part<Timestamp>>,
        snapshot: Option<Part<Snapshot>>,
        targets: Option<Part<Targets>>,
    ) -> Trusted
        ensures { result ≡ record {
          root = root;
          timestamp = timestamp;
          snapshot = snapshot;
          targets = targets;
        } }
    {
        Trusted {
            root,
            timestamp,
            snapshot,
            targets,
        }
    }

    /// Returns the root file.
    pub fn root(&self) -> &Part<Root>
        ensures value { result.now ≡ self.now.root }
    {
        &self.root
    }

    /// Returns the timestamp file, if one is trusted.
    pub fn timestamp(&self) -> Option<&Part<Timestamp>>
        ensures value { option_map (λ p. p.now) result ≡ self.now.timestamp }
    {
        self.timestamp.as_ref()
    }

    /// Returns the snapshot file, if one is trusted.
    pub fn snapshot(&self) -> Option<&Part<Snapshot>>
        ensures value { option_map (λ p. p.now) result ≡ self.now.snapshot }
    {
        self.snapshot.as_ref()
    }

    /// Returns the top-level targets file, if one is trusted.
    pub fn targets(&self) -> Option<&Part<Targets>>
        ensures value { option_map (λ p. p.now) result ≡ self.now.targets }
    {
        self.targets.as_ref()
    }

    /// Returns whether all four files are there.
    pub fn is_ready(&self) -> bool
        ensures test { result ≡ spec.is_ready self.now }
    {
        self.timestamp.is_some() && self.snapshot.is_some() && self.targets.is_some()
    }

    /// Returns an equal state, which shares its files with this one. Fails only with `NoMemory`.
    pub fn copy(&self) -> Result<Trusted, NoMemory>
        ensures equal { IfOk result (λ t. t ≡ self.now) }
    {
        Ok(Trusted {
            root: self.root.copy()?,
            timestamp: copy_of(&self.timestamp)?,
            snapshot: copy_of(&self.snapshot)?,
            targets: copy_of(&self.targets)?,
        })
    }

    /// Returns the version of the root.
    pub fn root_version(&self) -> u64
        ensures value { result ≡ self.now.root.reading.header.version }
    {
        self.root.reading().header().version.get()
    }

    /// Trusts the next root. If keys were rotated, drops the timestamp and the snapshot.
    pub(crate) fn trust_root(&mut self, next: Part<Root>)
        ensures { self.new ≡ spec.with_root self.old next }
    {
        if is_rotated(self.root.reading(), next.reading()) {
            self.timestamp = None;
            self.snapshot = None;
        }
        self.root = next;
    }
}

fn copy_of<A: Reading + Drop>(part: &Option<Part<A>>) -> Result<Option<Part<A>>, NoMemory>
    ensures { IfOk result (λ p. p ≡ part.now) }
{
    match part {
        Some(part) => Ok(Some(part.copy()?)),
        None => Ok(None),
    }
}
