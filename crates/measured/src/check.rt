//! A measure beside what is listed.

ghost use Rattle.std.specs.Prelude.{◌≡◌, option_map};
ghost use Rattle.meta.specs.Content.{has_no_known_hash};
ghost use Rattle.measured.specs.Known as spec;

use folder::Measure;
use meta::{Fault, Target, refuse_if};

/// Checks that a file of that measure has the target's length and digests; the first check that
/// fails is the fault (TUF 1.0 section 5.7).
pub(crate) fn check_measure(target: &Target, measure: &Measure) -> Result<(), Fault>
    ensures { result ≡ spec.measured_content target.now measure.now }
{
    refuse_if(target.length.get() != measure.length, Fault::LengthWrong)?;
    refuse_if(has_wrong_hash(target, measure), Fault::HashWrong)?;
    refuse_if(has_no_known_hash(target), Fault::NoKnownHash)
}

fn has_wrong_hash(target: &Target, measure: &Measure) -> bool
    ensures { result ≡ spec.has_wrong_hash target.now.hashes measure.now }
{
    let hashes = &target.hashes;
    differs_from(
        hashes.sha256.as_ref().map(|d| d.as_slice()),
        measure.sha256.as_ref().map(|d| d.as_slice()),
    ) || differs_from(
        hashes.sha512.as_ref().map(|d| d.as_slice()),
        measure.sha512.as_ref().map(|d| d.as_slice()),
    )
}

/// Returns whether a digest is listed, and the measure has another one or none.
fn differs_from(listed: Option<&[u8]>, found: Option<&[u8]>) -> bool
    ensures { result ≡ spec.differs_from (option_map (λ d. d.now) listed.entry)
        (option_map (λ d. d.now) found.entry) }
{
    match (listed, found) {
        (Some(listed), Some(found)) => listed != found,
        (Some(_), None) => true,
        (None, _) => false,
    }
}

fn has_no_known_hash(target: &Target) -> bool
    ensures { result ≡ has_no_known_hash target.now.hashes }
{
    target.hashes.sha256.is_none() && target.hashes.sha512.is_none()
}
