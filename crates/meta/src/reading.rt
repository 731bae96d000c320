//! The readings of the four kinds of metadata file.

ghost use Rattle.cjson.specs.Document.{doc_of};
ghost use Rattle.cjson.specs.Form.{Reads};
ghost use Rattle.meta.specs.Metadata as spec;

use crate::part::Reading;
use crate::root::Root;
use crate::snapshot::Snapshot;
use crate::targets::Targets;
use crate::timestamp::Timestamp;
use cjson::{Doc, ReadFault};
use std::alloc::Global;

/// Reads the document as a root file (TUF 1.0 section 4.3). Fails with `Malformed`, or with
/// `NoMemory`.
pub fn read_root(alloc: Global, doc: &Doc) -> Result<Root, ReadFault>
    ensures read { Reads (spec.root (doc_of doc.now).signed) result }
{
    Root::read(alloc, doc)
}

/// Reads the document as a timestamp file (TUF 1.0 section 4.6). Fails with `Malformed`, or with
/// `NoMemory`.
pub fn read_timestamp(alloc: Global, doc: &Doc) -> Result<Timestamp, ReadFault>
    ensures read { Reads (spec.timestamp (doc_of doc.now).signed) result }
{
    Timestamp::read(alloc, doc)
}

/// Reads the document as a snapshot file (TUF 1.0 section 4.4). Fails with `Malformed`, or with
/// `NoMemory`.
pub fn read_snapshot(alloc: Global, doc: &Doc) -> Result<Snapshot, ReadFault>
    ensures read { Reads (spec.snapshot (doc_of doc.now).signed) result }
{
    Snapshot::read(alloc, doc)
}

/// Reads the document as a targets file, top-level or delegated (TUF 1.0 section 4.5). Fails with
/// `Malformed`, or with `NoMemory`.
pub fn read_targets(alloc: Global, doc: &Doc) -> Result<Targets, ReadFault>
    ensures read { Reads (spec.targets (doc_of doc.now).signed) result }
{
    Targets::read(alloc, doc)
}
