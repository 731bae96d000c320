//! The listing of one file by another.

ghost use Rattle.std.specs.Prelude.{◌≡◌, IfOk};
ghost use Rattle.meta.specs.Content.{content, fault_of};
ghost use Rattle.meta.specs.Metadata as spec;

use crate::content::{Content, fault_of};
use crate::fault::Fault;
use crate::hashes::Hashes;
use cjson::form::{FromJson, needed_member, optional_member};
use cjson::number::{Length, Positive};
use cjson::{NoMemory, ReadFault, Tree};
use keys::Judge;
use std::alloc::Global;

/// The listing of a file by another (TUF 1.0 section 4.4).
#[derive(Clone, Copy)]
pub struct Listing {
    /// The version of the file.
    pub version: Positive,
    /// The length in bytes, if it is listed.
    pub length: Option<Length>,
    /// The digests, if they are listed.
    pub hashes: Option<Hashes>,
}

impl Listing {
    /// Checks that the bytes of a file of that name are within the limit and have the listed length
    /// and digests (TUF 1.0 sections 5.5 to 5.7). Returns the first of these checks that fails, or
    /// None. Fails only if out of memory.
    pub fn check<J: Judge>(
        &self,
        file: &str,
        bytes: &[u8],
        limit: Option<u64>,
        judge: &mut J,
    ) -> Result<Option<Fault>, NoMemory>
        ensures fault { IfOk result (λ f. f
            ≡ fault_of (content limit self.now.length self.now.hashes bytes.now)) }
    {
        let listed = Content {
            limit,
            length: self.length,
            hashes: self.hashes,
        };
        fault_of(listed.check(file, bytes, judge))
    }
}

impl FromJson for Listing {
    ghost form = { spec.listing };

    fn from_json(alloc: Global, value: &Tree) -> Result<Listing, ReadFault> {
        Ok(Listing {
            version: needed_member(alloc, value, "version")?,
            length: optional_member(alloc, value, "length")?,
            hashes: optional_member(alloc, value, "hashes")?,
        })
    }
}
