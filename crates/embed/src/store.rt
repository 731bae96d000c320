//! The check of a target's file, by its bytes or by its length and digests.

ghost use Rattle.std.specs.Prelude.{◌≡◌, ◌||◌, IfOk, None, Some, option_map};
ghost use Rattle.meta.specs.Content.{Answers, content, has_no_known_hash};
ghost use Rattle.embed.specs.Inputs.{given_by, held_in};
ghost use Rattle.embed.specs.Jobs as spec;
ghost use Rattle.embed.specs.Jobs.{measure_in};

use crate::held::Held;
use crate::job::Digests;
use cycle::Store;
use keys::Judge;
use meta::names::digest_name;
use meta::{Fault, Stop, Target, refuse_if};
use std::alloc::{AllocError, Global};
use std::collections::BTreeMap;

/// The target files of a job.
#[derive(Clone, Copy)]
pub(crate) struct HeldFiles<'m, 'a> {
    /// The allocator.
    pub alloc: Global,
    /// The files, by name.
    pub files: &'m BTreeMap<String, Held<'a>>,
}

impl Store for HeldFiles<'_, '_> {
    ghost may_give = { λ s checks. checks ≡ spec.given_checked (held_in s.files.now) };

    ghost knows = { λ _ _ _. Unit {0} };

    fn check<J: Judge>(
        &self,
        consistent: bool,
        target: &Target,
        judge: &mut J,
    ) -> Result<(), Stop> {
        match held_of(self.alloc, self.files, consistent, target)? {
            None => Err(Stop::Refused(Fault::Missing)),
            Some(Held::Bytes(_, bytes)) => check_bytes(target, bytes, judge),
            Some(Held::Digests(_, digests)) => Ok(check_digests(target, digests)?),
        }
    }
}

/// Returns what is held under the first of the target's names that is there: its path, or under
/// consistent snapshots the names under its sha256 and its sha512 digest, each if it is listed (TUF
/// 1.0 section 5.7). Fails only if out of memory.
pub(crate) fn held_of<'a>(
    alloc: Global,
    files: &BTreeMap<String, Held<'a>>,
    consistent: bool,
    target: &Target,
) -> Result<Option<Held<'a>>, AllocError>
    ensures { IfOk result (λ o. option_map given_by o
        ≡ spec.given_for (held_in files.now) consistent target.now) }
{
    if !consistent {
        return Ok(held_at(files, target.path.as_str()));
    }
    if let Some(digest) = &target.hashes.sha256 {
        let name = digest_name(alloc, digest, target.path.as_str())?;
        if let Some(held) = held_at(files, name.as_str()) {
            return Ok(Some(held));
        }
    }
    let Some(digest) = &target.hashes.sha512 else {
        return Ok(None);
    };
    let name = digest_name(alloc, digest, target.path.as_str())?;
    Ok(held_at(files, name.as_str()))
}

/// Returns what is held of the file of that name.
fn held_at<'a>(files: &BTreeMap<String, Held<'a>>, name: &str) -> Option<Held<'a>>
    ensures { option_map given_by result ≡ held_in files.now name.now }
{
    Some(*files.get(name)?)
}

/// Checks that the bytes have the target's length and digests. Fails with the first fault, or if
/// out of memory.
fn check_bytes<J: Judge>(target: &Target, bytes: &[u8], judge: &mut J) -> Result<(), Stop>
    ensures { Answers (content None (Some target.now.length) (Some target.now.hashes) bytes.now)
        result (λ x. x) }
{
    match target.check(target.path.as_str(), bytes, None, judge)? {
        None => Ok(()),
        Some(fault) => Err(Stop::Refused(fault)),
    }
}

/// Checks that these are the target's length and digests. Fails with the first fault.
fn check_digests(target: &Target, digests: &Digests) -> Result<(), Fault>
    ensures { result ≡ spec.measured_content target.now (measure_in digests.now) }
{
    refuse_if(target.length.get() != digests.length, Fault::LengthWrong)?;
    refuse_if(has_wrong_hash(target, digests), Fault::HashWrong)?;
    refuse_if(has_no_known_hash(target), Fault::NoKnownHash)
}

fn has_wrong_hash(target: &Target, digests: &Digests) -> bool
    ensures { result ≡ (spec.differs_from target.now.hashes.sha256 (measure_in digests.now).sha256
        || spec.differs_from target.now.hashes.sha512 (measure_in digests.now).sha512) }
{
    let sha256 = target.hashes.sha256.as_ref().map(|d| d.as_slice());
    let sha512 = target.hashes.sha512.as_ref().map(|d| d.as_slice());
    is_other(sha256, digests.has_sha256, digests.sha256.as_slice())
        || is_other(sha512, digests.has_sha512, digests.sha512.as_slice())
}

/// Returns whether a digest is listed that differs from the given one, or that isn't given.
fn is_other(listed: Option<&[u8]>, has: u8, given: &[u8]) -> bool
    ensures { result ≡ spec.differs_from (option_map (λ d. d.now) listed.entry)
        (spec.given_digest has given.now) }
{
    match listed {
        Some(listed) => has == 0 || listed != given,
        None => false,
    }
}

fn has_no_known_hash(target: &Target) -> bool
    ensures { result ≡ has_no_known_hash target.now.hashes }
{
    target.hashes.sha256.is_none() && target.hashes.sha512.is_none()
}
