//! Why a signature isn't valid.

ghost use Rattle.std.specs.Prelude.{◌≡◌, ◌&&◌, ◌+◌, ◌*◌, ◌≤◌, Some, IfOk, bytes_eq, length};
ghost use Rattle.std.specs.Prelude.{option_map};
ghost use Rattle.hex.specs.Hex.{decode_of};
ghost use Rattle.cjson.specs.Form.{ok};
ghost use Rattle.lms.specs.Lms.{chain_count, public_kind, signature_length};
ghost use Rattle.signing.specs.Invalids as spec;

use crate::fault::Invalid;
use crate::kind::{KeyKind, kind_of, leaf_count};
use crate::octets::first_number;
use cjson::NoMemory;
use hex::FromHexError;
use lms::{Public, Width};
use std::alloc::Global;

/// Returns the first check that the bytes of a signature that isn't valid fail (RFC 8554 section
/// 5.4.2).
pub(crate) fn reason_of(public: &Public, sig: &[u8]) -> Invalid
    ensures value { result ≡ spec.reason public.now sig.now }
{
    let kind = kind_of(public);
    reason_for(kind, public, sig)
}

/// Returns the first check that the bytes fail, for a key of the kind.
fn reason_for(kind: KeyKind, public: &Public, sig: &[u8]) -> Invalid
    requires { public_kind public.now
        ≡ Some (record { width = kind.width; height = kind.height }) }
    ensures { result ≡ spec.reason_for
        (Some (record { width = kind.width; height = kind.height })) public.now sig.now }
{
    let due = public.signature_len();
    if sig.len() != due {
        return Invalid::Length(sig.len(), due);
    }
    if !has_codes(kind.width, public, sig) {
        return Invalid::Kind;
    }
    let leaf = first_number(sig);
    if leaf >= leaf_count(kind.height) {
        return Invalid::Leaf(leaf);
    }
    Invalid::Root
}

/// Returns whether the type codes of the signature are the key's.
fn has_codes(width: Width, public: &Public, sig: &[u8]) -> bool
    requires { 44 + 32 * chain_count width ≤ length sig.now }
    ensures { result ≡ spec.has_codes width public.now sig.now }
{
    let behind = match width {
        Width::W4 => 2184,
        Width::W8 => 1128,
    };
    let codes = public.bytes();
    sig[4..8] == codes[4..8] && sig[behind..behind + 4] == codes[..4]
}

/// Returns the bytes that a text encodes in hexadecimal, or None if it isn't hexadecimal. Fails
/// only if out of memory.
pub(crate) fn decoded(alloc: Global, text: &str) -> Result<Option<Vec<u8>>, NoMemory>
    ensures value { IfOk result (λ o. option_map (λ bytes. bytes.items) o
        ≡ ok (decode_of text.now)) }
{
    match hex::decode(alloc, text) {
        Ok(bytes) => Ok(Some(bytes)),
        Err(FromHexError::OutOfMemory) => Err(NoMemory),
        Err(_) => Ok(None),
    }
}

/// Returns the leaf of a signature, its first four bytes. It is 0 if there are fewer.
pub(crate) fn leaf_in(sig: &[u8]) -> u32
    ensures value { result ≡ spec.leaf_in sig.now }
{
    if sig.len() < 4 {
        return 0;
    }
    first_number(sig)
}
