//! Root files.

ghost use Rattle.std.specs.Prelude.{◌≡◌};
ghost use Rattle.cjson.specs.Tree.{view};
ghost use Rattle.meta.specs.Metadata as spec;
ghost use Rattle.meta.specs.Content.{root_limit};
ghost use Rattle.cjson.specs.Form.{Reads};

use crate::delegation::flag;
use crate::header::{Header, read_header};
use crate::part::Reading;
use cjson::form::needed_member;
use cjson::{Doc, ReadFault, Tree};
use keys::{KeyRing, RoleKeys};
use std::alloc::Global;
use std::marker::Model;

/// The contents of a root file (TUF 1.0 section 4.3).
pub struct Root {
    header: Header,
    ring: KeyRing,
    root: RoleKeys,
    timestamp: RoleKeys,
    snapshot: RoleKeys,
    targets: RoleKeys,
    consistent: bool,
}

impl Drop for Root {
    fn drop(self) {
        let Root {
            header,
            ring,
            root,
            timestamp,
            snapshot,
            targets,
            consistent,
        } = self;
    }
}

impl Model for Root {
    ghost use Rattle.meta.specs.Metadata as spec;

    ghost Value = { spec.Root };

    ghost view = { λ a. record {
      header = a.header;
      ring = a.ring;
      root = a.root;
      timestamp = a.timestamp;
      snapshot = a.snapshot;
      targets = a.targets;
      consistent = a.consistent;
    } };
}

impl Root {
    /// Returns the version and the expiry.
    pub fn header(&self) -> &Header
        ensures value { result.now ≡ self.now.header }
    {
        &self.header
    }

    /// Returns the usable keys.
    pub fn ring(&self) -> &KeyRing
        ensures value { result.now ≡ self.now.ring }
    {
        &self.ring
    }

    /// Returns the keys of the root role.
    pub fn root(&self) -> &RoleKeys
        ensures value { result.now ≡ self.now.root }
    {
        &self.root
    }

    /// Returns the keys of the timestamp role.
    pub fn timestamp(&self) -> &RoleKeys
        ensures value { result.now ≡ self.now.timestamp }
    {
        &self.timestamp
    }

    /// Returns the keys of the snapshot role.
    pub fn snapshot(&self) -> &RoleKeys
        ensures value { result.now ≡ self.now.snapshot }
    {
        &self.snapshot
    }

    /// Returns the keys of the top-level targets role.
    pub fn targets(&self) -> &RoleKeys
        ensures value { result.now ≡ self.now.targets }
    {
        &self.targets
    }

    /// Returns whether file names include versions and digests (consistent snapshots).
    pub fn consistent(&self) -> bool
        ensures value { result ≡ self.now.consistent }
    {
        self.consistent
    }
}

impl Reading for Root {
    ghost form = { spec.root };

    ghost limit = { root_limit };

    fn read(alloc: Global, doc: &Doc) -> Result<Root, ReadFault> {
        let value = doc.tree();
        Ok(Root {
            header: read_header(alloc, "root", value)?,
            ring: needed_member(alloc, value, "keys")?,
            root: role_of(alloc, value, "root")?,
            timestamp: role_of(alloc, value, "timestamp")?,
            snapshot: role_of(alloc, value, "snapshot")?,
            targets: role_of(alloc, value, "targets")?,
            consistent: flag(alloc, value, "consistent_snapshot")?,
        })
    }

    fn limit() -> u64 {
        512_000
    }
}

fn role_of(alloc: Global, value: &Tree, name: &str) -> Result<RoleKeys, ReadFault>
    ensures { Reads (spec.role_of name.now (view value.now)) result }
{
    let roles = value.get("roles").ok_or(ReadFault::Malformed)?;
    needed_member(alloc, roles, name)
}
