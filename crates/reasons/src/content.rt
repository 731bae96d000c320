//! The checks of length and digests.

ghost use Rattle.std.specs.Prelude.{◌≡◌, Some};
ghost use Rattle.keys.specs.Keys.{digest_by};
ghost use Rattle.keys.specs.declared.judge.Algorithm.TheVariants as algorithm;
ghost use Rattle.meta.specs.Content as content;
ghost use Rattle.reasons.specs.Reasons as spec;

use crate::reason::{Differing, Reason, Sha256Pair, Sha512Pair};
use cjson::number::Length;
use meta::Hashes;
use sha2::{Digest, Sha256, Sha512};

/// Checks that the bytes are within the limit.
pub(crate) fn limit_check(most: u64, bytes: &[u8]) -> Result<(), Reason>
    ensures { result ≡ spec.limit_check most bytes.now }
{
    if bytes.len() as u64 > most {
        return Err(Reason::TooLong(bytes.len() as u64, most));
    }
    Ok(())
}

/// Checks that the bytes have the listed length, if one is listed.
pub(crate) fn length_check(listed: Option<Length>, bytes: &[u8]) -> Result<(), Reason>
    ensures { result ≡ spec.length_check listed bytes.now }
{
    let Some(listed) = listed else {
        return Ok(());
    };
    size_check(listed.get(), bytes.len() as u64)
}

/// Checks that a file has the listed length.
pub(crate) fn size_check(listed: u64, found: u64) -> Result<(), Reason>
    ensures { result ≡ spec.size_check listed found }
{
    if listed != found {
        return Err(Reason::LengthWrong(found, listed));
    }
    Ok(())
}

/// Checks that the bytes have the listed digests, if some are listed.
pub(crate) fn hash_check(listed: Option<Hashes>, bytes: &[u8]) -> Result<(), Reason>
    ensures { result ≡ spec.hash_check listed bytes.now }
{
    let Some(hashes) = listed else {
        return Ok(());
    };
    digest_check(&hashes, differing(&hashes, bytes))
}

/// Checks that no digest differs from the listed one, and that one of a known algorithm is listed.
pub(crate) fn digest_check(hashes: &Hashes, found: Differing) -> Result<(), Reason>
    ensures { result ≡ spec.digest_check hashes.now found }
{
    if has_difference(&found) {
        return Err(Reason::HashWrong(found));
    }
    if has_no_known_hash(hashes) {
        return Err(Reason::NoKnownHash);
    }
    Ok(())
}

fn differing(hashes: &Hashes, bytes: &[u8]) -> Differing
    ensures { result ≡ spec.differing hashes.now bytes.now }
{
    Differing {
        sha256: sha256_differing(hashes.sha256, bytes),
        sha512: sha512_differing(hashes.sha512, bytes),
    }
}

fn sha256_differing(listed: Option<[u8; 32]>, bytes: &[u8]) -> Option<Sha256Pair>
    ensures { result ≡ spec.sha256_pair listed (digest_by algorithm.Sha256 bytes.now) }
{
    sha256_pair(listed?, Sha256::digest(bytes))
}

/// Returns the listed digest and the one that was found, if they differ.
pub(crate) fn sha256_pair(listed: [u8; 32], found: [u8; 32]) -> Option<Sha256Pair>
    ensures { result ≡ spec.sha256_pair (Some listed) found }
{
    if listed.as_slice() == found.as_slice() {
        return None;
    }
    Some(Sha256Pair { found, listed })
}

fn sha512_differing(listed: Option<[u8; 64]>, bytes: &[u8]) -> Option<Sha512Pair>
    ensures { result ≡ spec.sha512_pair listed (digest_by algorithm.Sha512 bytes.now) }
{
    sha512_pair(listed?, Sha512::digest(bytes))
}

/// Returns the listed digest and the one that was found, if they differ.
pub(crate) fn sha512_pair(listed: [u8; 64], found: [u8; 64]) -> Option<Sha512Pair>
    ensures { result ≡ spec.sha512_pair (Some listed) found }
{
    if listed.as_slice() == found.as_slice() {
        return None;
    }
    Some(Sha512Pair { found, listed })
}

fn has_difference(found: &Differing) -> bool
    ensures { result ≡ spec.has_difference found.now }
{
    found.sha256.is_some() || found.sha512.is_some()
}

fn has_no_known_hash(hashes: &Hashes) -> bool
    ensures { result ≡ content.has_no_known_hash hashes.now }
{
    hashes.sha256.is_none() && hashes.sha512.is_none()
}
