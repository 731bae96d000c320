//! The checks of length and digests.

ghost use Rattle.std.specs.Prelude.{◌≡◌, ⊤, IfOk, Result, option_map};
ghost use Rattle.cjson.specs.Document.{refuse_if};
ghost use Rattle.keys.specs.Keys.{digest_by};
ghost use Rattle.meta.specs.Content as spec;

use crate::fault::{Fault, Stop};
use crate::hashes::Hashes;
use cjson::NoMemory;
use cjson::number::Length;
use keys::{Algorithm, Ask, DigestAsk, Judge};

/// The size limit, length and digests that a file must meet.
#[derive(Clone, Copy)]
pub struct Content {
    /// Maximum number of bytes, if there is a limit.
    pub limit: Option<u64>,
    /// The length in bytes, if it is listed.
    pub length: Option<Length>,
    /// The digests, if they are listed.
    pub hashes: Option<Hashes>,
}

impl Content {
    /// Checks that the bytes of a file of that name are within the limit and have the listed length
    /// and digests (TUF 1.0 sections 5.3 to 5.7). Fails with the first of these checks that fails,
    /// or if out of memory.
    pub fn check<J: Judge>(&self, file: &str, bytes: &[u8], judge: &mut J) -> Result<(), Stop>
        ensures answer { spec.Answers
            (spec.content self.now.limit self.now.length self.now.hashes bytes.now)
            result (λ x. x) }
    {
        refuse_if(is_too_long(self.limit, bytes), Fault::TooLong)?;
        refuse_if(is_length_wrong(self.length, bytes), Fault::LengthWrong)?;
        let Some(hashes) = self.hashes else {
            return Ok(());
        };
        refuse_if(
            is_hash_wrong(&hashes, file, bytes, judge)?,
            Fault::HashWrong,
        )?;
        refuse_if(has_no_known_hash(&hashes), Fault::NoKnownHash)?;
        Ok(())
    }
}

/// Returns the fault with which checks ended, or None if they all passed. Fails only if out of
/// memory.
pub(crate) fn fault_of(checked: Result<(), Stop>) -> Result<Option<Fault>, NoMemory>
    ensures { (should : Result ⊤ spec.Fault) → spec.Answers should checked (λ x. x)
        → IfOk result (λ f. f ≡ spec.fault_of should) }
{
    match checked {
        Ok(()) => Ok(None),
        Err(Stop::Refused(fault)) => Ok(Some(fault)),
        Err(Stop::NoMemory) => Err(NoMemory),
    }
}

/// Fails with the fault if `fails`.
pub fn refuse_if(fails: bool, fault: Fault) -> Result<(), Fault>
    ensures refused { result ≡ refuse_if fails fault }
{
    if fails { Err(fault) } else { Ok(()) }
}

fn is_too_long(limit: Option<u64>, bytes: &[u8]) -> bool
    ensures { result ≡ spec.is_too_long limit bytes.now }
{
    limit.is_some_and(|limit| bytes.len() as u64 > limit)
}

fn is_length_wrong(length: Option<Length>, bytes: &[u8]) -> bool
    ensures { result ≡ spec.is_length_wrong length bytes.now }
{
    length.is_some_and(|length| length.get() != bytes.len() as u64)
}

fn has_no_known_hash(hashes: &Hashes) -> bool
    ensures { result ≡ spec.has_no_known_hash hashes.now }
{
    hashes.sha256.is_none() && hashes.sha512.is_none()
}

fn is_hash_wrong<J: Judge>(
    hashes: &Hashes,
    file: &str,
    bytes: &[u8],
    judge: &mut J,
) -> Result<bool, NoMemory>
    ensures { IfOk result (λ b. b ≡ spec.is_hash_wrong hashes.now bytes.now) }
{
    let sha256 = hashes.sha256.as_ref().map(|digest| digest.as_slice());
    let sha512 = hashes.sha512.as_ref().map(|digest| digest.as_slice());
    Ok(
        differs(Algorithm::Sha256, file, bytes, sha256, judge)?
            || differs(Algorithm::Sha512, file, bytes, sha512, judge)?,
    )
}

/// Returns whether a digest is listed that differs from that of the bytes.
fn differs<J: Judge>(
    algorithm: Algorithm,
    file: &str,
    bytes: &[u8],
    listed: Option<&[u8]>,
    judge: &mut J,
) -> Result<bool, NoMemory>
    ensures { IfOk result (λ b. b
        ≡ spec.differs (option_map (λ d. d.now) listed.entry) (digest_by algorithm bytes.now)) }
{
    let Some(digest) = listed else {
        return Ok(false);
    };
    let ask = DigestAsk {
        file,
        algorithm,
        bytes,
        digest,
    };
    Ok(!judge.valid(&Ask::Digest(ask))?)
}
