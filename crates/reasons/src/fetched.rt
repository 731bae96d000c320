//! A file from the repository, with the checks that apply to every kind of file.

ghost use Rattle.std.specs.Prelude.{◌≡◌, ◌≤◌, length, Err};
ghost use Rattle.cjson.specs.Document.{doc_of, document};
ghost use Rattle.cjson.specs.Tree.{view};
ghost use Rattle.examine.specs.Checks.{expectation, file_in, listed_length, listed_hashes};
ghost use Rattle.reasons.specs.declared.reason.Ended.TheVariants as ended;
ghost use Rattle.reasons.specs.declared.reason.Reason.TheVariants as reason;
ghost use Rattle.reasons.specs.Reasons as spec;
ghost use Rattle.reasons.specs.Reasons.{Explains, candidate_of};

use crate::content::{hash_check, length_check, limit_check};
use crate::reason::{Ended, Malformation, Reason};
use crate::signed::signed_check;
use cjson::number::Length;
use cjson::{Doc, DocFault, Tree, signed_bytes};
use examine::{Context, Expectation, Listed};
use meta::{Hashes, Part, Reading};
use signing::Required;
use std::alloc::Global;

/// A file that was read, and its document.
#[derive(Drop)]
pub(crate) struct Candidate<A: Reading> {
    /// The file.
    pub part: Part<A>,
    /// Its document.
    pub doc: Doc,
}

/// Returns the expected file from the repository, signed as expected. `keys` is the object of keys
/// of the file that delegates to it.
pub(crate) fn fetch<A: Reading + Drop>(
    context: &Context,
    expect: &Expectation,
    keys: &Tree,
) -> Result<Candidate<A>, Ended>
    ensures { Explains (spec.signed_candidate A.form A.limit (expectation expect.now)
        (view keys.now) (file_in context.now.files.now)) result candidate_of }
{
    if matches!(expect.listed, Listed::Absent) {
        return Err(Ended::Refused(Reason::NotListed));
    }
    let bytes = context.files.get(expect.name).ok_or(Reason::Missing)?;
    content_check(&expect.listed, A::limit(), bytes.as_slice())?;
    let found = read_check(context.alloc, bytes.as_slice())?;
    let by = Required {
        keys,
        ring: expect.ring,
        role: expect.role,
    };
    signed_check(context.alloc, &found.doc, &by)?;
    Ok(found)
}

/// Checks the limit of the file's kind, and its listed length and digests.
fn content_check(listed: &Listed, limit: u64, bytes: &[u8]) -> Result<(), Reason>
    ensures { result
        ≡ spec.content_check limit (listed_length listed.now) (listed_hashes listed.now) bytes.now }
{
    limit_check(limit, bytes)?;
    length_check(listed_length(listed), bytes)?;
    hash_check(listed_hashes(listed), bytes)
}

fn listed_length(listed: &Listed) -> Option<Length>
    ensures { result ≡ listed_length listed.now }
{
    match listed {
        Listed::As(listing) => listing.length,
        _ => None,
    }
}

fn listed_hashes(listed: &Listed) -> Option<Hashes>
    ensures { result ≡ listed_hashes listed.now }
{
    match listed {
        Listed::As(listing) => listing.hashes,
        _ => None,
    }
}

/// Reads the bytes of a file, which are within the limit of its kind.
fn read_check<A: Reading + Drop>(alloc: Global, bytes: &[u8]) -> Result<Candidate<A>, Ended>
    requires limit { length bytes.now ≤ A.limit }
    ensures { Explains (spec.read_check A.form bytes.now) result candidate_of }
{
    let doc = read_document(alloc, bytes)?;
    let reading = A::read(alloc, &doc)?;
    let part = Part::new(alloc, Vec::from_slice(alloc, bytes)?, reading)?;
    Ok(Candidate { part, doc })
}

fn read_document(alloc: Global, bytes: &[u8]) -> Result<Doc, Ended>
    ensures { Explains (spec.or_malformed (document bytes.now)) result doc_of }
{
    match signed_bytes(alloc, bytes) {
        Ok(doc) => Ok(doc),
        Err(DocFault::NoMemory) => Err(Ended::NoMemory),
        Err(DocFault::NotJson) => refused(Malformation::NotJson),
        Err(DocFault::NotObject) => refused(Malformation::NotObject),
        Err(DocFault::Float) => refused(Malformation::Float),
        Err(DocFault::BadSignatures) => refused(Malformation::BadSignatures),
    }
}

fn refused(why: Malformation) -> Result<Doc, Ended>
    ensures { result ≡ Err (ended.Refused (reason.Malformed why)) }
{
    Err(Ended::Refused(Reason::Malformed(why)))
}
