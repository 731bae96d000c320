//! Conversions between texts and the words of several of them.

ghost use Rattle.std.specs.Prelude.{◌≡◌, ◌≢◌, ℕ, ◌<◌, ◌≤◌, ◌+◌, ◌*◌, [], length};
ghost use Rattle.std.specs.Prelude.{slice_index, slice_index_or};
ghost use Rattle.sha2.specs.Sha256.{word_at};
ghost use Rattle.lanes.specs.Lanes.{IsDigest, IsPrefix, IsRow, digest_in, lane};

use crate::arrays::{eight, four, six, three};
use std::simd::prelude::*;

#[inline(always)]
pub(crate) fn word(text: &[u8], at: usize) -> u32
    requires { at + 4 ≤ length text.now }
    ensures { result ≡ word_at text.now at }
{
    u32::from_be_bytes([text[at], text[at + 1], text[at + 2], text[at + 3]])
}

fn digest_word(digest: &[u8; 32], k: usize) -> u32
    requires { k < 8 }
    ensures digest { IsDigest digest.now }
    ensures word { result ≡ word_at digest.now (4 * k) }
{
    word(digest, 4 * k)
}

/// Returns word `k` of the prefix. The last word ends in two bytes 0.
fn prefix_word(text: &[u8; 22], k: usize) -> u32
    requires { k < 6 }
    ensures size { length text.now ≡ 22 }
    ensures word { result ≡ word_at text.now (4 * k) }
{
    if k == 5 {
        u32::from_be_bytes([text[20], text[21], 0, 0])
    } else {
        word(text, 4 * k)
    }
}

/// Returns word `k` of each digest.
fn digest_column<const N: usize>(digests: &[[u8; 32]; N], k: usize) -> Simd<u32, N>
    requires { k < 8 }
    ensures size { length result ≡ N }
    ensures digests { (i : ℕ) → i < N → IsDigest (slice_index_or digests.now i []) }
    ensures words { (i : ℕ) → i < N
        → slice_index result i ≡ word_at (slice_index_or digests.now i []) (4 * k) }
{
    let mut column = [0u32; N];
    'lanes: for i in 0..N {
        column[i] = digest_word(&digests[i], k);
    }
    Simd::from_array(column)
}

/// Returns word `k` of each prefix.
fn prefix_column<const N: usize>(texts: &[[u8; 22]; N], k: usize) -> Simd<u32, N>
    requires { k < 6 }
    ensures size { length result ≡ N }
    ensures texts { (i : ℕ) → i < N → length (slice_index_or texts.now i []) ≡ 22 }
    ensures words { (i : ℕ) → i < N
        → slice_index result i ≡ word_at (slice_index_or texts.now i []) (4 * k) }
{
    let mut column = [0u32; N];
    'lanes: for i in 0..N {
        column[i] = prefix_word(&texts[i], k);
    }
    Simd::from_array(column)
}

/// Returns the row of `N` digests: lane `i` has the eight words of digest `i`.
pub fn digest_words<const N: usize>(digests: &[[u8; 32]; N]) -> [Simd<u32, N>; 8]
    ensures row { IsRow N 8 result }
    ensures lanes { (i : ℕ) → i < N
        → digest_in i result ≡ slice_index_or digests.now i [] }
{
    eight(
        four(
            digest_column(digests, 0),
            digest_column(digests, 1),
            digest_column(digests, 2),
            digest_column(digests, 3),
        ),
        four(
            digest_column(digests, 4),
            digest_column(digests, 5),
            digest_column(digests, 6),
            digest_column(digests, 7),
        ),
    )
}

/// Returns the row of `N` prefixes: lane `i` has the six words of prefix `i`, the last of which
/// ends in two bytes 0.
pub fn prefix_words<const N: usize>(texts: &[[u8; 22]; N]) -> [Simd<u32, N>; 6]
    ensures row { IsRow N 6 result }
    ensures lanes { (i : ℕ) → i < N
        → IsPrefix (lane i result) (slice_index_or texts.now i []) }
{
    six(
        three(
            prefix_column(texts, 0),
            prefix_column(texts, 1),
            prefix_column(texts, 2),
        ),
        three(
            prefix_column(texts, 3),
            prefix_column(texts, 4),
            prefix_column(texts, 5),
        ),
    )
}

/// Returns the digest whose words are in lane `i`.
pub fn digest<const N: usize>(words: &[Simd<u32, N>; 8], i: usize) -> [u8; 32]
    requires row { IsRow N 8 words.now }
    requires lane { i < N }
    ensures value { result ≡ digest_in i words.now }
{
    let mut out = [0u8; 32];
    'words: for k in 0..8 {
        let word = words[k].to_array()[i];
        out[4 * k..4 * k + 4].copy_from_slice(&word.to_be_bytes());
    }
    out
}

/// Returns the vector with another word in lane `i`.
#[inline(always)]
pub(crate) fn with_lane<const N: usize>(x: Simd<u32, N>, i: usize, word: u32) -> Simd<u32, N>
    requires { i < N }
    ensures size { length result ≡ N }
    ensures lane { slice_index result i ≡ word }
    ensures others { (j : ℕ) → j ≢ i → slice_index result j ≡ slice_index x.entry j }
{
    let mut lanes = x.to_array();
    lanes[i] = word;
    Simd::from_array(lanes)
}

/// Puts a digest into lane `i` of a row of digests. The other lanes are unchanged.
pub fn put_digest<const N: usize>(words: &mut [Simd<u32, N>; 8], i: usize, digest: &[u8; 32])
    requires row { IsRow N 8 words.old }
    requires lane { i < N }
    ensures row { IsRow N 8 words.new }
    ensures lane { digest_in i words.new ≡ digest.now }
    ensures others { (j : ℕ) → j ≢ i → lane j words.new ≡ lane j words.old }
{
    'words: for k in 0..8 {
        words[k] = with_lane(words[k], i, digest_word(digest, k));
    }
}

/// Puts a prefix into lane `i` of a row of prefixes. The other lanes are unchanged.
pub fn put_prefix<const N: usize>(words: &mut [Simd<u32, N>; 6], i: usize, text: &[u8; 22])
    requires row { IsRow N 6 words.old }
    requires lane { i < N }
    ensures row { IsRow N 6 words.new }
    ensures lane { IsPrefix (lane i words.new) text.now }
    ensures others { (j : ℕ) → j ≢ i → lane j words.new ≡ lane j words.old }
{
    'words: for k in 0..6 {
        words[k] = with_lane(words[k], i, prefix_word(text, k));
    }
}
