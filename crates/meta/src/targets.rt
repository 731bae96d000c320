//! Targets files, top-level and delegated.

ghost use Rattle.std.specs.Prelude.{◌≡◌, IfOk, Some, bytes_eq, find, option_map};
ghost use Rattle.meta.specs.Content.{content, fault_of, targets_limit};
ghost use Rattle.meta.specs.Metadata as spec;

use crate::catalog::{Catalog, HasName};
use crate::content::{Content, fault_of};
use crate::delegations::Delegations;
use crate::fault::Fault;
use crate::hashes::Hashes;
use crate::header::{Header, read_header};
use crate::part::Reading;
use cjson::form::{needed_member, optional_member};
use cjson::members::{FromMember, read_members};
use cjson::number::Length;
use cjson::text::Text;
use cjson::{Doc, NoMemory, ReadFault, Tree};
use keys::Judge;
use std::alloc::Global;
use std::marker::Model;

/// A listed target (TUF 1.0 section 4.5).
pub struct Target {
    /// The target's path.
    pub path: Text,
    /// The file's length in bytes.
    pub length: Length,
    /// The file's digests.
    pub hashes: Hashes,
}

impl Drop for Target {
    fn drop(self) {
        let Target {
            path,
            length,
            hashes,
        } = self;
    }
}

impl Target {
    /// Returns an equal target. Fails only if out of memory.
    pub fn copy(&self, alloc: Global) -> Result<Target, NoMemory>
        ensures equal { IfOk result (λ t. t ≡ self.now) }
    {
        let path = Text::new(String::from_str(alloc, self.path.as_str())?);
        Ok(Target {
            path,
            length: self.length,
            hashes: self.hashes,
        })
    }

    /// Checks that the bytes of a file of that name are within the limit and have the listed length
    /// and digests (TUF 1.0 section 5.7). Returns the first of these checks that fails, or None.
    /// Fails only if out of memory.
    pub fn check<J: Judge>(
        &self,
        file: &str,
        bytes: &[u8],
        limit: Option<u64>,
        judge: &mut J,
    ) -> Result<Option<Fault>, NoMemory>
        ensures fault { IfOk result (λ f. f ≡ fault_of
            (content limit (Some self.now.length) (Some self.now.hashes) bytes.now)) }
    {
        let listed = Content {
            limit,
            length: Some(self.length),
            hashes: Some(self.hashes),
        };
        fault_of(listed.check(file, bytes, judge))
    }
}

impl HasName for Target {
    ghost name_of = { λ t. t.path };

    fn name(&self) -> &str {
        self.path.as_str()
    }
}

impl FromMember for Target {
    ghost member_form = { spec.target };

    fn from_member(alloc: Global, name: &str, value: &Tree) -> Result<Target, ReadFault> {
        Ok(Target {
            length: needed_member(alloc, value, "length")?,
            hashes: needed_member(alloc, value, "hashes")?,
            path: Text::new(String::from_str(alloc, name)?),
        })
    }
}

/// The contents of a targets file (TUF 1.0 section 4.5).
pub struct Targets {
    header: Header,
    targets: Catalog<Target>,
    delegations: Option<Delegations>,
}

impl Drop for Targets {
    fn drop(self) {
        let Targets {
            header,
            targets,
            delegations,
        } = self;
    }
}

impl Model for Targets {
    ghost use Rattle.meta.specs.Metadata as spec;

    ghost Value = { spec.Targets };

    ghost view = { λ a. record {
      header = a.header;
      targets = a.targets;
      delegations = a.delegations;
    } };
}

impl Targets {
    /// Returns the version and the expiry.
    pub fn header(&self) -> &Header
        ensures value { result.now ≡ self.now.header }
    {
        &self.header
    }

    /// Returns the listed targets, in byte order of their paths.
    pub fn targets(&self) -> &[Target]
        ensures value { result.now ≡ self.now.targets }
    {
        self.targets.as_slice()
    }

    /// Finds the listed target of this path, the first one if there are several.
    pub fn find(&self, path: &str) -> Option<&Target>
        ensures found { option_map (λ t. t.now) result
            ≡ find (λ t. bytes_eq t.path path.now) self.now.targets }
    {
        self.targets.find(path)
    }

    /// Returns the delegations, if the file has any.
    pub fn delegations(&self) -> Option<&Delegations>
        ensures value { option_map (λ d. d.now) result ≡ self.now.delegations }
    {
        self.delegations.as_ref()
    }
}

impl Reading for Targets {
    ghost form = { spec.targets };

    ghost limit = { targets_limit };

    fn read(alloc: Global, doc: &Doc) -> Result<Targets, ReadFault> {
        let value = doc.tree();
        let header = read_header(alloc, "targets", value)?;
        let listed = value.get("targets").ok_or(ReadFault::Malformed)?;
        let targets = Catalog::new(read_members(alloc, listed)?);
        let delegations = optional_member(alloc, value, "delegations")?;
        Ok(Targets {
            header,
            targets,
            delegations,
        })
    }

    fn limit() -> u64 {
        5_000_000
    }
}
