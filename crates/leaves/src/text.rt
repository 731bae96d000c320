//! The text of the leaves file.

ghost use Rattle.std.specs.Prelude.{◌≡◌, Some, IfOk};
ghost use Rattle.leaves.specs.Leaves.{reserved_of};

use lms::Public;
use std::alloc::{AllocError, Global};

/// Returns the text of a file that has `n` leaves reserved. Fails only if out of memory.
pub(crate) fn text_of(alloc: Global, public: &Public, n: u32) -> Result<Vec<u8>, AllocError>
    ensures reads { IfOk result (λ text. reserved_of public.now text.items ≡ Some n) }
{
    let mut text = Vec::with_capacity(alloc, 60)?;
    text.extend_from_slice(public.bytes())?;
    text.extend_from_slice(&n.to_be_bytes())?;
    Ok(text)
}

/// Returns how many leaves of the key the text of a leaves file has reserved: 56 bytes of the
/// public key (RFC 8554 section 5.3), and the number in four. Returns None if it isn't one of this
/// key.
#[tactic(auto, unfolding(crate::specs::Leaves::reserved_of))]
pub fn reserved_of(text: &[u8], public: &Public) -> Option<u32>
    ensures reserved { result ≡ reserved_of public.now text.now }
{
    if text.len() != 60 {
        return None;
    }
    let (key, number) = text.split_at(56);
    if key != public.bytes().as_slice() {
        return None;
    }
    Some(u32::from_be_bytes([number[0], number[1], number[2], number[3]]))
}
