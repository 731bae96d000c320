//! Several messages, block after block.

ghost use Rattle.std.specs.Prelude.{◌≡◌, ◌≢◌, ◌≤◌, ◌<◌, ◌+◌, ◌-◌, ◌*◌, ◌%◌, ◌^◌, ◌++◌, ◌∷◌};
ghost use Rattle.std.specs.Prelude.{ℕ, List, All};
ghost use Rattle.std.specs.Prelude.{IfOk, length, take, drop, slice_index, slice_index_or, vec_len};
ghost use Rattle.std.specs.Prelude.{replicate};
ghost use Rattle.std.specs.Int.{w64, to_be_bytes};
ghost use Rattle.sha2.specs.Sha256.{hash_after, initial_hash_256, padded_message, word_at};
ghost use Rattle.lanes.specs.Lanes.{IsBlock, IsRow, lane};
ghost use Rattle.lanes.specs.Pending.{IsAfter, IsPending, Reaches};

use crate::arrays::{eight, four, sixteen};
use crate::block::compress;
use crate::bytes::{with_lane, word};
use crate::consts::H256_256;
use std::alloc::{AllocError, Global};
use std::simd::prelude::*;

/// Number of bytes of a message that a lane is given at once, except at its end: whole blocks.
pub const PIECE: usize = 32_768;

/// Number of bytes of a lane's room: a piece, and a block for the padding after it.
const ROOM: usize = PIECE + 64;

/// Number of blocks in a lane's room.
const MOST_BLOCKS: usize = ROOM / 64;

/// The start of the padding: a bit 1, then zeros (FIPS 180-4 section 5.1.1).
const PADDING: [u8; 64] = [
    0x80, 0, 0, 0, 0, 0, 0, 0, 0, 0, 0, 0, 0, 0, 0, 0, 0, 0, 0, 0, 0, 0, 0, 0, 0, 0, 0, 0, 0, 0, 0,
    0, 0, 0, 0, 0, 0, 0, 0, 0, 0, 0, 0, 0, 0, 0, 0, 0, 0, 0, 0, 0, 0, 0, 0, 0, 0, 0, 0, 0, 0, 0, 0,
    0,
];

/// The room of a lane, and the blocks there that the lane has still to take: `left` of them, from
/// byte `at` on.
#[derive(Drop)]
pub struct Pending {
    pub bytes: Vec<u8>,
    pub at: usize,
    pub left: usize,
}

impl Pending {
    /// Returns a room with no blocks. Fails only if out of memory.
    pub fn new(alloc: Global) -> Result<Pending, AllocError>
        ensures { IfOk result IsPending }
    {
        Ok(Pending {
            bytes: Vec::from_elem(alloc, 0u8, ROOM)?,
            at: 0,
            left: 0,
        })
    }

    /// Makes all of the room blocks to take, for a lane whose value is of no interest.
    pub fn idle(&mut self)
        requires { IsPending self.old }
        ensures { IsPending self.new }
    {
        self.at = 0;
        self.left = MOST_BLOCKS;
    }

    /// Makes the first `PIECE` bytes of the room the next blocks.
    pub fn put_piece(&mut self)
        requires { IsPending self.old }
        ensures pending { IsPending self.new }
        ensures reaches { (hash m : List ℕ) → length m % 64 ≡ 0 → IsAfter hash m
            → Reaches hash self.new (m ++ take PIECE self.old.bytes.items) }
    {
        self.at = 0;
        self.left = PIECE / 64;
    }

    /// Makes the first `used` bytes of the room, with the padding of a message of `total` bytes
    /// that ends there, the next blocks.
    pub fn put_end(&mut self, used: usize, total: u64)
        requires pending { IsPending self.old }
        requires used { used < PIECE }
        ensures pending { IsPending self.new }
        ensures reaches { (hash m : List ℕ) → length m % 64 ≡ 0 → length m + used ≡ total
            → IsAfter hash m
            → Reaches hash self.new (padded_message (m ++ take used self.old.bytes.items)) }
    {
        self.at = 0;
        self.left = pad(self.bytes.as_mut_slice(), used, total);
    }
}

/// Puts the padding of a message of `total` bytes after the first `used` bytes, with which it ends.
/// Returns the number of their blocks.
fn pad(bytes: &mut [u8], used: usize, total: u64) -> usize
    requires size { length bytes.old ≡ ROOM }
    requires used { used < PIECE }
    ensures within { 64 * result ≤ ROOM }
    ensures blocks { (hash m : List ℕ) → length m % 64 ≡ 0 → length m + used ≡ total
        → IsAfter hash m → IsAfter (hash_after hash bytes.new result)
        (padded_message (m ++ take used bytes.old)) }
{
    let zeros = (119 - used % 64) % 64;
    put(bytes, used, &PADDING[..zeros + 1]);
    put(
        bytes,
        used + zeros + 1,
        &total.wrapping_mul(8).to_be_bytes(),
    );
    (used + zeros + 9) / 64
}

/// Puts a text into the bytes, from byte `at` on.
fn put(bytes: &mut [u8], at: usize, text: &[u8])
    requires { at + length text.now ≤ length bytes.old }
    ensures { bytes.new ≡ take at bytes.old ++ text.now
        ++ drop (at + length text.now) bytes.old }
{
    bytes[at..at + text.len()].copy_from_slice(text);
}

/// Returns word `k` of a block of each message: for a lane, of that which begins `offset` bytes
/// after the lane's next block.
#[inline(always)]
fn block_column<const N: usize>(pending: &[Pending], offset: usize, k: usize) -> Simd<u32, N>
    requires lanes { length pending.now ≡ N }
    requires word { k < 16 }
    requires blocks { All (λ p. p.at + offset + 64 ≤ vec_len p.bytes) pending.now }
    ensures size { length result ≡ N }
    ensures words { (i : ℕ) (d : Pending) → i < N → let p = slice_index_or pending.now i d in
        slice_index result i ≡ word_at p.bytes.items (p.at + offset + 4 * k) }
{
    let mut column = [0u32; N];
    'lanes: for i in 0..N {
        let lane = &pending[i];
        column[i] = word(lane.bytes.as_slice(), lane.at + offset + 4 * k);
    }
    Simd::from_array(column)
}

/// Returns the row of a block of each message.
#[inline(always)]
fn block_words<const N: usize>(pending: &[Pending], offset: usize) -> [Simd<u32, N>; 16]
    requires lanes { length pending.now ≡ N }
    requires blocks { All (λ p. p.at + offset + 64 ≤ vec_len p.bytes) pending.now }
    ensures row { IsRow N 16 result }
    ensures blocks { (i : ℕ) (d : Pending) → i < N → let p = slice_index_or pending.now i d in
        IsBlock (lane i result) (take 64 (drop (p.at + offset) p.bytes.items)) }
{
    sixteen(
        eight(
            four(
                block_column(pending, offset, 0),
                block_column(pending, offset, 1),
                block_column(pending, offset, 2),
                block_column(pending, offset, 3),
            ),
            four(
                block_column(pending, offset, 4),
                block_column(pending, offset, 5),
                block_column(pending, offset, 6),
                block_column(pending, offset, 7),
            ),
        ),
        eight(
            four(
                block_column(pending, offset, 8),
                block_column(pending, offset, 9),
                block_column(pending, offset, 10),
                block_column(pending, offset, 11),
            ),
            four(
                block_column(pending, offset, 12),
                block_column(pending, offset, 13),
                block_column(pending, offset, 14),
                block_column(pending, offset, 15),
            ),
        ),
    )
}

/// Returns the hash values after `count` blocks more of each message (FIPS 180-4 section 6.2.2).
fn compress_blocks<const N: usize>(
    start: [Simd<u32, N>; 8],
    pending: &[Pending],
    count: usize,
) -> [Simd<u32, N>; 8]
    requires most { N ≤ 64 }
    requires row { IsRow N 8 start }
    requires lanes { length pending.now ≡ N }
    requires count { count ≤ MOST_BLOCKS }
    requires blocks { All (λ p. p.at + 64 * count ≤ vec_len p.bytes) pending.now }
    ensures row { IsRow N 8 result }
    ensures hashes { (i : ℕ) (d : Pending) → i < N → let p = slice_index_or pending.now i d in
        lane i result ≡ hash_after (lane i start.entry) (drop p.at p.bytes.items) count }
{
    let mut state = start;
    'blocks: for n in 0..count {
        state = compress(state, block_words(pending, 64 * n));
    }
    state
}

/// Returns the number of blocks that each lane has left at least.
fn least_left(pending: &[Pending]) -> usize
    ensures most { result ≤ MOST_BLOCKS }
    ensures least { All (λ p. result ≤ p.left) pending.now }
{
    let mut least = MOST_BLOCKS;
    'lanes: for i in 0..pending.len() {
        least = pending[i].left.min(least);
    }
    least
}

/// Counts `count` blocks as taken in each lane.
fn advance(pending: &mut [Pending], count: usize)
    requires pending { All IsPending pending.old }
    requires count { count ≤ MOST_BLOCKS }
    requires left { All (λ p. count ≤ p.left) pending.old }
    ensures pending { All IsPending pending.new }
    ensures lanes { (i : ℕ) (d : Pending) → i < length pending.old
        → let p = slice_index_or pending.old i d in slice_index_or pending.new i d
        ≡ record p { at = p.at + 64 * count; left = p.left - count } }
{
    'lanes: for i in 0..pending.len() {
        pending[i].at += 64 * count;
        pending[i].left -= count;
    }
}

/// Takes that number of blocks in each lane that the lane with the fewest has left.
pub fn take_blocks<const N: usize>(state: &mut [Simd<u32, N>; 8], pending: &mut [Pending])
    requires most { N ≤ 64 }
    requires row { IsRow N 8 state.old }
    requires lanes { length pending.old ≡ N }
    requires pending { All IsPending pending.old }
    ensures row { IsRow N 8 state.new }
    ensures pending { All IsPending pending.new }
    ensures reaches { (i : ℕ) (d : Pending) (m : List ℕ) → i < N
        → Reaches (lane i state.old) (slice_index_or pending.old i d) m
        → Reaches (lane i state.new) (slice_index_or pending.new i d) m }
{
    let count = least_left(pending);
    *state = compress_blocks(*state, pending, count);
    advance(pending, count);
}

/// Puts the hash value of no bytes into lane `i` (FIPS 180-4 section 5.3.3). The other lanes are
/// unchanged.
pub fn begin<const N: usize>(state: &mut [Simd<u32, N>; 8], i: usize)
    requires row { IsRow N 8 state.old }
    requires lane { i < N }
    ensures row { IsRow N 8 state.new }
    ensures lane { lane i state.new ≡ initial_hash_256 }
    ensures others { (j : ℕ) → j ≢ i → lane j state.new ≡ lane j state.old }
{
    'words: for k in 0..8 {
        state[k] = with_lane(state[k], i, H256_256[k]);
    }
}
