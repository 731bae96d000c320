//! Snapshot files.

ghost use Rattle.std.specs.Prelude.{◌≡◌, bytes_eq, find, option_map};
ghost use Rattle.meta.specs.Metadata as spec;
ghost use Rattle.meta.specs.Content.{snapshot_limit};

use crate::catalog::{Catalog, HasName};
use crate::header::{Header, read_header};
use crate::listing::Listing;
use crate::part::Reading;
use cjson::form::FromJson;
use cjson::members::{FromMember, read_members};
use cjson::text::Text;
use cjson::{Doc, ReadFault, Tree};
use std::alloc::Global;
use std::marker::Model;

/// A file's name with its listing (TUF 1.0 section 4.4).
pub struct Named {
    /// The name of the file, without its version.
    pub name: Text,
    /// The listing of the file.
    pub listing: Listing,
}

impl Drop for Named {
    fn drop(self) {
        let Named { name, listing } = self;
    }
}

impl HasName for Named {
    ghost name_of = { λ n. n.name };

    fn name(&self) -> &str {
        self.name.as_str()
    }
}

impl FromMember for Named {
    ghost member_form = { spec.named };

    fn from_member(alloc: Global, name: &str, value: &Tree) -> Result<Named, ReadFault> {
        let listing = Listing::from_json(alloc, value)?;
        let name = Text::new(String::from_str(alloc, name)?);
        Ok(Named { name, listing })
    }
}

/// The contents of a snapshot file (TUF 1.0 section 4.4).
pub struct Snapshot {
    header: Header,
    files: Catalog<Named>,
}

impl Drop for Snapshot {
    fn drop(self) {
        let Snapshot { header, files } = self;
    }
}

impl Model for Snapshot {
    ghost use Rattle.meta.specs.Metadata as spec;

    ghost Value = { spec.Snapshot };

    ghost view = { λ a. record { header = a.header; files = a.files } };
}

impl Snapshot {
    /// Returns the version and the expiry.
    pub fn header(&self) -> &Header
        ensures value { result.now ≡ self.now.header }
    {
        &self.header
    }

    /// Returns the listed files, in byte order of their names.
    pub fn files(&self) -> &[Named]
        ensures value { result.now ≡ self.now.files }
    {
        self.files.as_slice()
    }

    /// Finds the listed file of this name, the first one if there are several.
    pub fn find(&self, name: &str) -> Option<&Named>
        ensures found { option_map (λ n. n.now) result
            ≡ find (λ n. bytes_eq n.name name.now) self.now.files }
    {
        self.files.find(name)
    }
}

impl Reading for Snapshot {
    ghost form = { spec.snapshot };

    ghost limit = { snapshot_limit };

    fn read(alloc: Global, doc: &Doc) -> Result<Snapshot, ReadFault> {
        let value = doc.tree();
        let header = read_header(alloc, "snapshot", value)?;
        let meta = value.get("meta").ok_or(ReadFault::Malformed)?;
        let files = read_members(alloc, meta)?;
        let files = Catalog::new(files);
        Ok(Snapshot { header, files })
    }

    fn limit() -> u64 {
        2_000_000
    }
}
