//! The judge that computes every check.

ghost use Rattle.std.specs.Prelude.{◌≡◌, Ok, bytes_eq};
ghost use Rattle.keys.specs.Keys.{is_signed_by, truth, digest_by};

use crate::judge::{Algorithm, Ask, Judge};
use cjson::NoMemory;
use lms::{MOST_SIGNATURE, Public, verify};
use sha2::{Digest, Sha256, Sha512};

/// The plain judge, which computes each check. Does not allocate and never fails.
#[derive(Clone, Copy, Debug)]
pub struct Direct;

impl Judge for Direct {
    fn valid(&mut self, ask: &Ask) -> Result<bool, NoMemory>
        ensures always { result ≡ Ok (truth ask.now) }
    {
        Ok(match ask {
            Ask::Signature(ask) => is_signed_by(ask.public, ask.message, ask.sig),
            Ask::Digest(ask) => is_digest(ask.algorithm, ask.bytes, ask.digest),
        })
    }
}

/// Returns whether the text is the hexadecimal of a signature of the message that is valid by RFC
/// 8554 section 5.4.2. Does not allocate.
#[tactic(auto, using(crate::proofs::Decoded::long_is_unsigned))]
pub fn is_signed_by(public: &Public, message: &[u8], sig: &str) -> bool
    ensures valid { result ≡ is_signed_by public.now message.now sig.now }
{
    let length = sig.len() / 2;
    if length > MOST_SIGNATURE {
        return false;
    }
    let mut room = [0u8; MOST_SIGNATURE];
    let bytes = &mut room[..length];
    match hex::decode_to_slice(sig, bytes) {
        Ok(()) => verify(public, message, bytes),
        Err(_) => false,
    }
}

fn is_digest(algorithm: Algorithm, bytes: &[u8], digest: &[u8]) -> bool
    ensures { result ≡ (bytes_eq digest.now (digest_by algorithm bytes.now)) }
{
    match algorithm {
        Algorithm::Sha256 => {
            let found: [u8; 32] = Sha256::digest(bytes);
            digest == found.as_slice()
        }
        Algorithm::Sha512 => {
            let found: [u8; 64] = Sha512::digest(bytes);
            digest == found.as_slice()
        }
    }
}
