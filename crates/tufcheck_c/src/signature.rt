//! The check of an LMS signature.

ghost use Rattle.std.specs.Prelude.{◌≡◌, ◌↔◌, IsTrue, if◌then◌else◌, pos};
ghost use Rattle.lms.specs.Lms.{IsValid, is_valid};

use lms::{Public, verify};

/// Returns 1 if `signature` is a valid LMS signature of `message` for the public key of these 56
/// bytes (RFC 8554 section 5.4.2), else 0, also if the bytes are no key of a supported kind. Does
/// not allocate.
#[unsafe(no_mangle)]
pub extern "C" fn tufcheck_lms_verify(key: &[u8], message: &[u8], signature: &[u8]) -> i32
    ensures value { result ≡ (if is_valid key.now message.now signature.now
        then pos 1 else pos 0) }
    ensures valid { result ≡ pos 1 ↔ IsValid key.now message.now signature.now }
{
    i32::from(is_valid(key, message, signature))
}

fn is_valid(key: &[u8], message: &[u8], signature: &[u8]) -> bool
    ensures value { result ≡ is_valid key.now message.now signature.now }
    ensures valid { IsTrue result ↔ IsValid key.now message.now signature.now }
{
    match Public::read(key) {
        Some(key) => verify(&key, message, signature),
        None => false,
    }
}
