//! The delegations of a targets file.

ghost use Rattle.meta.specs.Metadata as spec;

use crate::delegation::Delegation;
use cjson::form::{FromJson, needed_member, optional_member};
use cjson::list::Items;
use cjson::number::Within;
use cjson::text::Text;
use cjson::{ReadFault, Tree};
use keys::{KeyRing, RoleKeys};
use std::alloc::Global;

/// Succinct roles, which are hash bins (this project's profile): a role for each value of the first
/// `bits` bits of a path's SHA-256 digest.
pub struct Bins {
    /// The keys that must sign a bin's file, and how many.
    pub keys: RoleKeys,
    /// Number of bits of a digest that determine the bin, 1 to 32.
    pub bits: Within<1, 32>,
    /// The prefix of the bins' names.
    pub prefix: Text,
}

impl Drop for Bins {
    fn drop(self) {
        let Bins { keys, bits, prefix } = self;
    }
}

/// The roles that a targets file delegates to.
pub enum Roles {
    /// The listed roles, in order.
    Listed(Items<Delegation>),
    /// Hash bins.
    Binned(Bins),
}

impl Drop for Roles {
    fn drop(self) {
        match self {
            Roles::Listed(part) => {}
            Roles::Binned(part) => {}
        }
    }
}

/// The delegations of a targets file (TUF 1.0 section 4.5).
pub struct Delegations {
    /// The keys of the file, for the roles that it delegates to.
    pub ring: KeyRing,
    /// The roles that it delegates to.
    pub roles: Roles,
}

impl Drop for Delegations {
    fn drop(self) {
        let Delegations { ring, roles } = self;
    }
}

impl FromJson for Bins {
    ghost form = { spec.bins };

    fn from_json(alloc: Global, value: &Tree) -> Result<Bins, ReadFault> {
        Ok(Bins {
            keys: RoleKeys::from_json(alloc, value)?,
            bits: needed_member(alloc, value, "bit_length")?,
            prefix: needed_member(alloc, value, "name_prefix")?,
        })
    }
}

impl FromJson for Roles {
    ghost form = { spec.roles };

    fn from_json(alloc: Global, value: &Tree) -> Result<Roles, ReadFault> {
        let listed = optional_member(alloc, value, "roles")?;
        let bins = optional_member(alloc, value, "succinct_roles")?;
        match (listed, bins) {
            (Some(found), None) => Ok(Roles::Listed(found)),
            (None, Some(found)) => Ok(Roles::Binned(found)),
            _ => Err(ReadFault::Malformed),
        }
    }
}

impl FromJson for Delegations {
    ghost form = { spec.delegations };

    fn from_json(alloc: Global, value: &Tree) -> Result<Delegations, ReadFault> {
        Ok(Delegations {
            ring: needed_member(alloc, value, "keys")?,
            roles: Roles::from_json(alloc, value)?,
        })
    }
}
