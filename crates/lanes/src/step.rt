//! Hashes of several messages of 55 bytes: a prefix of 22, a counter and a digest.

ghost use Rattle.std.specs.Prelude.{◌≡◌, ℕ, ◌<◌, ◌≤◌, ◌+◌, ◌*◌, ◌%◌, ◌^◌, List, ◌∷◌, ◌++◌, length};
ghost use Rattle.std.specs.Prelude.{slice_index};
ghost use Rattle.std.specs.Int.{w32, to_be_bytes};
ghost use Rattle.sha2.specs.Sha256.{initial_hash_256, padded_message, sha256};
ghost use Rattle.lanes.specs.Lanes.{IsAt, IsBlock, IsPrefix, IsRow, digest_in, joined, lane};

use crate::arrays::{eight, four, sixteen};
use crate::block::compress;
use crate::consts::H256_256;
use std::simd::prelude::*;

/// The first byte of the padding, as a word.
const END: u32 = 0x8000_0000;

/// The bits of 55 bytes.
const LENGTH: u32 = 440;

#[inline(always)]
fn join_words<const N: usize>(high: Simd<u32, N>, low: Simd<u32, N>) -> Simd<u32, N>
    ensures { (i : ℕ) → IsAt N i result
        (joined (slice_index high.entry i) (slice_index low.entry i)) }
{
    (high << 8) + (low >> 24)
}

/// Returns the word of the last two bytes of the prefix, the counter and the first byte of the
/// digest.
#[inline(always)]
fn counter_word<const N: usize>(
    end: Simd<u32, N>,
    j: Simd<u32, N>,
    low: Simd<u32, N>,
) -> Simd<u32, N>
    ensures size { length result ≡ N }
    ensures lanes { (i : ℕ) → i < N → let e = slice_index end.entry i in
        let n = slice_index j.entry i in e % 2 ^ 16 ≡ 0 → n < 256 → IsAt N i result
        (e + n * 256 + slice_index (to_be_bytes w32 (slice_index low.entry i)) 0) }
{
    end + (j << 8) + (low >> 24)
}

#[inline(always)]
fn block_words<const N: usize>(
    prefix: &[Simd<u32, N>; 6],
    j: Simd<u32, N>,
    value: &[Simd<u32, N>; 8],
) -> [Simd<u32, N>; 16]
    requires prefix { IsRow N 6 prefix.now }
    requires value { IsRow N 8 value.now }
    ensures row { IsRow N 16 result }
    ensures block { (i : ℕ) (p : List ℕ) → i < N → slice_index j.entry i < 256
        → IsPrefix (lane i prefix.now) p
        → IsBlock (lane i result)
        (padded_message (p ++ slice_index j.entry i ∷ digest_in i value.now)) }
{
    sixteen(
        eight(
            four(prefix[0], prefix[1], prefix[2], prefix[3]),
            four(
                prefix[4],
                counter_word(prefix[5], j, value[0]),
                join_words(value[0], value[1]),
                join_words(value[1], value[2]),
            ),
        ),
        eight(
            four(
                join_words(value[2], value[3]),
                join_words(value[3], value[4]),
                join_words(value[4], value[5]),
                join_words(value[5], value[6]),
            ),
            four(
                join_words(value[6], value[7]),
                join_words(value[7], Simd::splat(END)),
                Simd::splat(0),
                Simd::splat(LENGTH),
            ),
        ),
    )
}

#[inline(always)]
pub(crate) fn initial<const N: usize>() -> [Simd<u32, N>; 8]
    ensures row { IsRow N 8 result }
    ensures lanes { (i : ℕ) → i < N → lane i result ≡ initial_hash_256 }
{
    eight(
        four(
            Simd::splat(H256_256[0]),
            Simd::splat(H256_256[1]),
            Simd::splat(H256_256[2]),
            Simd::splat(H256_256[3]),
        ),
        four(
            Simd::splat(H256_256[4]),
            Simd::splat(H256_256[5]),
            Simd::splat(H256_256[6]),
            Simd::splat(H256_256[7]),
        ),
    )
}

/// Returns the digests of several messages (FIPS 180-4 section 6.2) as a row. The message of a lane
/// is a prefix of 22 bytes, the byte in that lane of `j`, and a digest.
pub fn chain_step<const N: usize>(
    prefix: &[Simd<u32, N>; 6],
    j: Simd<u32, N>,
    value: &[Simd<u32, N>; 8],
) -> [Simd<u32, N>; 8]
    requires lanes { N ≤ 64 }
    requires prefix { IsRow N 6 prefix.now }
    requires value { IsRow N 8 value.now }
    ensures row { IsRow N 8 result }
    ensures lanes { (i : ℕ) (p : List ℕ) → i < N → slice_index j.entry i < 256
        → IsPrefix (lane i prefix.now) p
        → digest_in i result ≡ sha256 (p ++ slice_index j.entry i ∷ digest_in i value.now) }
{
    compress(initial(), block_words(prefix, j, value))
}
