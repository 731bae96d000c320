//! Listed digests.

ghost use Rattle.std.specs.Prelude.{◌≡◌, is_some};
ghost use Rattle.serde_json.specs.Find.{as_str};
ghost use Rattle.cjson.specs.Tree.{view, members_view};
ghost use Rattle.cjson.specs.Form as form_of;
ghost use Rattle.meta.specs.Metadata as spec;

use cjson::form::{FromJson, optional_member};
use cjson::{ReadFault, Tree};
use std::alloc::Global;

/// The listed digests of the known algorithms (TUF 1.0 section 4.4).
#[derive(Clone, Copy)]
pub struct Hashes {
    /// The SHA-256 digest, if it is listed.
    pub sha256: Option<[u8; 32]>,
    /// The SHA-512 digest, if it is listed.
    pub sha512: Option<[u8; 64]>,
}

impl FromJson for Hashes {
    ghost form = { spec.hashes };

    fn from_json(alloc: Global, value: &Tree) -> Result<Hashes, ReadFault> {
        let found = value.as_object().ok_or(ReadFault::Malformed)?;
        if !has_only_texts(found.as_slice()) {
            return Err(ReadFault::Malformed);
        }
        let sha256 = optional_member(alloc, value, "sha256")?;
        let sha512 = optional_member(alloc, value, "sha512")?;
        Ok(Hashes { sha256, sha512 })
    }
}

fn has_only_texts(members: &[(String, Tree)]) -> bool
    ensures { result
        ≡ form_of.all_members (λ value. is_some (as_str value))
        (members_view members.now) }
{
    for (_, value) in members {
        if !value.is_string() {
            return false;
        }
    }
    true
}
