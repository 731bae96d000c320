//! The members that all kinds of metadata have.

ghost use Rattle.std.specs.Prelude.{◌≡◌, codes};
ghost use Rattle.cjson.specs.Tree.{view};
ghost use Rattle.cjson.specs.Form as form_of;
ghost use Rattle.meta.specs.Metadata as spec;

use cjson::form::needed_member;
use cjson::number::Positive;
use cjson::text::is_text;
use cjson::{ReadFault, Tree};
use moment::Moment;
use std::alloc::Global;

/// What all kinds of metadata have (TUF 1.0 section 4.3).
#[derive(Clone, Copy)]
pub struct Header {
    /// The version.
    pub version: Positive,
    /// The first moment at which the file is expired.
    pub expires: Moment,
}

/// Reads the members that all kinds have, of a file of this kind.
pub(crate) fn read_header(alloc: Global, kind: &str, value: &Tree) -> Result<Header, ReadFault>
    ensures { form_of.Reads (spec.header kind.now (view value.now)) result }
{
    if !is_text(value, "_type", kind) || !is_of_version_one(value) {
        return Err(ReadFault::Malformed);
    }
    let version = needed_member(alloc, value, "version")?;
    let expires = expires(value).ok_or(ReadFault::Malformed)?;
    Ok(Header { version, expires })
}

fn is_of_version_one(value: &Tree) -> bool
    ensures { result
        ≡ form_of.has_text (codes "spec_version") (spec.begins_with (codes "1."))
        (view value.now) }
{
    let found = value.get("spec_version").and_then(Tree::as_str);
    found.is_some_and(|found| found.as_bytes().starts_with(b"1."))
}

fn expires(value: &Tree) -> Option<Moment>
    ensures { result ≡ form_of.needed (codes "expires") spec.moment_text (view value.now) }
{
    Moment::read(value.get("expires")?.as_str()?)
}
