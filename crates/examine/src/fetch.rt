//! A file from the repository, with the checks that apply to every kind of file.

ghost use Rattle.std.specs.Prelude.{◌≡◌, ◌≤◌, length, Some};
ghost use Rattle.meta.specs.Content.{Answers};
ghost use Rattle.examine.specs.Checks as spec;
ghost use Rattle.examine.specs.Checks.{candidate_of, expectation, file_in};

use crate::context::Context;
use crate::expectation::{Expectation, Listed};
use cjson::Doc;
use keys::{Judge, enough};
use meta::{Content, Fault, Part, Reading, Stop, read_document, refuse_if};
use std::alloc::Global;

/// A file that was read, and its document.
#[derive(Drop)]
pub(crate) struct Candidate<A: Reading> {
    /// The file.
    pub part: Part<A>,
    /// Its document.
    pub doc: Doc,
}

/// Returns the expected file from the repository, signed as expected: checks 1 to 7.
pub(crate) fn fetch_signed<A: Reading + Drop, J: Judge>(
    context: &Context,
    expect: &Expectation,
    judge: &mut J,
) -> Result<Candidate<A>, Stop>
    ensures { Answers (spec.signed_candidate A.form A.limit (expectation expect.now)
        (file_in context.now.files.now)) result candidate_of }
{
    refuse_if(matches!(expect.listed, Listed::Absent), Fault::NotListed)?;
    let bytes = context.files.get(expect.name).ok_or(Fault::Missing)?;
    content_of(&expect.listed, A::limit()).check(expect.name, bytes.as_slice(), judge)?;
    let found = read_candidate(context.alloc, bytes.as_slice())?;
    let is_signed = enough(
        context.alloc,
        &found.doc,
        expect.name,
        expect.ring,
        expect.role,
        judge,
    )?;
    refuse_if(!is_signed, Fault::Unsigned)?;
    Ok(found)
}

/// Reads the bytes of a file, which are within the limit of its kind.
fn read_candidate<A: Reading + Drop>(alloc: Global, bytes: &[u8]) -> Result<Candidate<A>, Stop>
    requires limit { length bytes.now ≤ A.limit }
    ensures { Answers (spec.read_candidate A.form bytes.now) result candidate_of }
{
    let doc = read_document(alloc, bytes)?;
    let reading = A::read(alloc, &doc)?;
    let part = Part::new(alloc, Vec::from_slice(alloc, bytes)?, reading)?;
    Ok(Candidate { part, doc })
}

/// Returns what the file's bytes must meet: the limit of its kind, and its listing.
fn content_of(listed: &Listed, limit: u64) -> Content
    ensures { result ≡ record {
      limit = Some limit;
      length = spec.listed_length listed.now;
      hashes = spec.listed_hashes listed.now;
    } }
{
    let (length, hashes) = match listed {
        Listed::As(listing) => (listing.length, listing.hashes),
        _ => (None, None),
    };
    Content {
        limit: Some(limit),
        length,
        hashes,
    }
}

/// Returns the listed version of a file.
pub(crate) fn listed_version(listed: &Listed) -> Option<u64>
    ensures { result ≡ spec.listed_version listed.now }
{
    match listed {
        Listed::As(listing) => Some(listing.version.get()),
        _ => None,
    }
}
