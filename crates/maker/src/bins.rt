//! The names of hash bins.

use std::alloc::{AllocError, Global};

/// Bins that a `succinct` line has made. The first `bits` bits of a digest determine the bin, and
/// the bins' names begin with the prefix.
#[derive(Drop)]
pub struct Bins {
    bits: u32,
    prefix: String,
}

impl Bins {
    /// Returns the bins with this prefix. Fails only if out of memory.
    pub fn new(alloc: Global, bits: u32, prefix: &str) -> Result<Bins, AllocError> {
        let prefix = String::from_str(alloc, prefix)?;
        Ok(Bins { bits, prefix })
    }

    /// Returns whether this is the name of one of the bins: the prefix, `-`, and its number in
    /// lower-case hexadecimal, with as many digits as the greatest one has.
    pub fn has(&self, name: &str) -> bool {
        let Some((prefix, digits)) = name.rsplit_once('-') else {
            return false;
        };
        let width = self.bits.div_ceil(4) as usize;
        if prefix != self.prefix.as_str() || digits.len() != width {
            return false;
        }
        let is_lower = digits
            .bytes()
            .all(|digit| matches!(digit, b'0'..=b'9' | b'a'..=b'f'));
        let number = u64::from_str_radix(digits, 16).ok();
        is_lower && number.is_some_and(|number| number.checked_shr(self.bits).unwrap_or(0) == 0)
    }
}
