//! Bytes that a file has as they are, or as hexadecimal digits.

ghost use Rattle.std.specs.Prelude.{◌≡◌, ◌≤◌, IfOk, length, take};
ghost use Rattle.std.specs.Int.{w32, from_be_bytes};
ghost use Rattle.signing.specs.Octets as spec;

use hex::FromHexError;
use std::alloc::{AllocError, Global};

/// Returns the bytes that the file writes as hexadecimal digits of either case, whatever blanks and
/// line feeds are among them, or the file's own bytes if it has anything else. Fails only if out of
/// memory.
pub(crate) fn octets(alloc: Global, file: &[u8]) -> Result<Vec<u8>, AllocError>
    ensures value { IfOk result (λ bytes. bytes.items ≡ spec.octets file.now) }
{
    let digits = digits_in(alloc, file)?;
    match hex::decode(alloc, digits.as_slice()) {
        Ok(bytes) => Ok(bytes),
        Err(FromHexError::OutOfMemory) => Err(AllocError),
        Err(_) => Vec::from_slice(alloc, file),
    }
}

/// Returns the bytes that aren't blank.
fn digits_in(alloc: Global, file: &[u8]) -> Result<Vec<u8>, AllocError>
    ensures { IfOk result (λ bytes. bytes.items ≡ spec.digits_in file.now) }
{
    let mut digits = Vec::with_capacity(alloc, file.len())?;
    for &byte in file {
        if !is_blank(byte) {
            digits.push(byte)?;
        }
    }
    Ok(digits)
}

fn is_blank(byte: u8) -> bool
    ensures { result ≡ spec.is_blank byte }
{
    byte == b' ' || byte == b'\t' || byte == b'\n' || byte == b'\r'
}

/// Returns the number of the first four bytes, the most significant first.
pub(crate) fn first_number(bytes: &[u8]) -> u32
    requires { 4 ≤ length bytes.now }
    ensures { result ≡ spec.first_number bytes.now }
{
    u32::from_be_bytes([bytes[0], bytes[1], bytes[2], bytes[3]])
}
