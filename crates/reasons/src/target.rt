//! Why a target's file is refused.

ghost use Rattle.std.specs.Prelude.{◌≡◌, Option, List, ℕ, option_map};
ghost use Rattle.reasons.specs.Reasons.{fault_in, fault_of, reason_in};
ghost use Rattle.reasons.specs.Targets as spec;

use crate::content::{digest_check, sha256_pair, sha512_pair, size_check};
use crate::reason::{Differing, Reason, Sha256Pair, Sha512Pair};
use folder::Measure;
use meta::{Hashes, Target};

/// Returns why a target's file is refused (TUF 1.0 section 5.7), by its measure if it is there, or
/// None if it isn't. No file is read.
pub fn why_target_refused(target: &Target, found: Option<&Measure>) -> Option<Reason>
    ensures value { result ≡ reason_in
        (spec.target_check target.now (option_map (λ m. m.now) found.entry)) }

    // If the measure is the file's, there is a reason exactly if the workflow has a fault, and it
    // is of that fault.
    ensures fault { (file : Option (List ℕ))
        → spec.IsFound target.now (option_map (λ m. m.now) found.entry) file
        → option_map fault_of result ≡ fault_in (spec.checked target.now file) }
{
    reason_in(target_check(target, found))
}

fn reason_in(checked: Result<(), Reason>) -> Option<Reason>
    ensures { result ≡ reason_in checked }
{
    match checked {
        Ok(()) => None,
        Err(reason) => Some(reason),
    }
}

fn target_check(target: &Target, found: Option<&Measure>) -> Result<(), Reason>
    ensures { result ≡ spec.target_check target.now (option_map (λ m. m.now) found.entry) }
{
    let Some(measure) = found else {
        return Err(Reason::Missing);
    };
    size_check(target.length.get(), measure.length)?;
    digest_check(&target.hashes, differing_from(&target.hashes, measure))
}

fn differing_from(hashes: &Hashes, measure: &Measure) -> Differing
    ensures { result ≡ spec.differing_from hashes.now measure.now }
{
    Differing {
        sha256: sha256_measured(hashes.sha256, measure.sha256),
        sha512: sha512_measured(hashes.sha512, measure.sha512),
    }
}

fn sha256_measured(listed: Option<[u8; 32]>, found: Option<[u8; 32]>) -> Option<Sha256Pair>
    ensures { result ≡ spec.sha256_measured listed found }
{
    sha256_pair(listed?, found?)
}

fn sha512_measured(listed: Option<[u8; 64]>, found: Option<[u8; 64]>) -> Option<Sha512Pair>
    ensures { result ≡ spec.sha512_measured listed found }
{
    sha512_pair(listed?, found?)
}
