//! Timestamp files.

ghost use Rattle.std.specs.Prelude.{◌≡◌};
ghost use Rattle.meta.specs.Metadata as spec;
ghost use Rattle.meta.specs.Content.{timestamp_limit};

use crate::header::{Header, read_header};
use crate::listing::Listing;
use crate::part::Reading;
use cjson::form::needed_member;
use cjson::{Doc, ReadFault};
use std::alloc::Global;
use std::marker::Model;

/// The contents of a timestamp file (TUF 1.0 section 4.6).
#[derive(Drop)]
pub struct Timestamp {
    header: Header,
    snapshot: Listing,
}

impl Model for Timestamp {
    ghost use Rattle.meta.specs.Metadata as spec;

    ghost Value = { spec.Timestamp };

    ghost view = { λ a. record { header = a.header; snapshot = a.snapshot } };
}

impl Timestamp {
    /// Returns the version and the expiry.
    pub fn header(&self) -> &Header
        ensures value { result.now ≡ self.now.header }
    {
        &self.header
    }

    /// Returns the listing of the snapshot file.
    pub fn snapshot(&self) -> &Listing
        ensures value { result.now ≡ self.now.snapshot }
    {
        &self.snapshot
    }
}

impl Reading for Timestamp {
    ghost form = { spec.timestamp };

    ghost limit = { timestamp_limit };

    fn read(alloc: Global, doc: &Doc) -> Result<Timestamp, ReadFault> {
        let value = doc.tree();
        let header = read_header(alloc, "timestamp", value)?;
        let meta = value.get("meta").ok_or(ReadFault::Malformed)?;
        let snapshot = needed_member(alloc, meta, "snapshot.json")?;
        Ok(Timestamp { header, snapshot })
    }

    fn limit() -> u64 {
        16_384
    }
}
