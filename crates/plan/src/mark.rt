//! The key of a check in a plan's index.

ghost use Rattle.std.specs.Prelude.{◌≡◌, ◌∷◌, ◌++◌};
ghost use Rattle.std.specs.Int.{w64, to_be_bytes};
ghost use Rattle.sha2.specs.Sha256.{sha256};
ghost use Rattle.plan.specs.Questions as spec;

use keys::{Algorithm, Ask};
use lms::Public;
use sha2::{Digest, Sha256};

/// Returns the check's key in the index.
pub(crate) fn mark(ask: &Ask) -> [u8; 32]
    ensures { result ≡ spec.mark (spec.question_of ask.now) }
{
    match ask {
        Ask::Signature(ask) => signature_mark(ask.file, ask.place, ask.public),
        Ask::Digest(ask) => digest_mark(ask.file, ask.algorithm, ask.digest),
    }
}

fn signature_mark(file: &str, place: usize, public: &Public) -> [u8; 32]
    ensures { result ≡ sha256 (((0 ∷ to_be_bytes w64 place) ++ public.now) ++ file.now) }
{
    let mut hasher = Sha256::new();
    hasher.update(&[0u8]);
    hasher.update(&(place as u64).to_be_bytes());
    hasher.update(public.bytes());
    hasher.update(file.as_bytes());
    hasher.finalize()
}

fn digest_mark(file: &str, algorithm: Algorithm, digest: &[u8]) -> [u8; 32]
    ensures { result ≡ sha256 ((spec.tag algorithm ∷ digest.now) ++ file.now) }
{
    let mut hasher = Sha256::new();
    hasher.update(&[tag(algorithm)]);
    hasher.update(digest);
    hasher.update(file.as_bytes());
    hasher.finalize()
}

fn tag(algorithm: Algorithm) -> u8
    ensures { result ≡ spec.tag algorithm }
{
    match algorithm {
        Algorithm::Sha256 => 1,
        Algorithm::Sha512 => 2,
    }
}
