//! The functions of words (FIPS 180-4, 4.1.2), in several lanes.

ghost use Rattle.std.specs.Prelude.{ℕ, ◌<◌, slice_index};
ghost use Rattle.sha2.specs.Sha256.{add32, big_sigma0, big_sigma1, ch, maj, small_sigma0};
ghost use Rattle.sha2.specs.Sha256.{small_sigma1};
ghost use Rattle.lanes.specs.Lanes.{IsAt};

use std::simd::prelude::*;

#[inline(always)]
pub(crate) fn ch<const N: usize>(x: Simd<u32, N>, y: Simd<u32, N>, z: Simd<u32, N>) -> Simd<u32, N>
    ensures { (i : ℕ) → IsAt N i result
        (ch (slice_index x.entry i) (slice_index y.entry i) (slice_index z.entry i)) }
{
    (x & y) ^ (!x & z)
}

#[inline(always)]
pub(crate) fn maj<const N: usize>(x: Simd<u32, N>, y: Simd<u32, N>, z: Simd<u32, N>) -> Simd<u32, N>
    ensures { (i : ℕ) → IsAt N i result
        (maj (slice_index x.entry i) (slice_index y.entry i) (slice_index z.entry i)) }
{
    y ^ ((x ^ y) & (y ^ z))
}

/// Returns the upper-case sigma 0 of each lane's word. This function and the three below are three
/// rotations or shifts under `^`. Their shifts are inside one another, which takes fewer copies of
/// `x`, and the machine has no rotation of lanes.
#[inline(always)]
pub(crate) fn big_sigma0<const N: usize>(x: Simd<u32, N>) -> Simd<u32, N>
    ensures { (i : ℕ) → IsAt N i result (big_sigma0 (slice_index x.entry i)) }
{
    (((((x >> 9) ^ x) >> 11) ^ x) >> 2) ^ (((((x << 11) ^ x) << 9) ^ x) << 10)
}

#[inline(always)]
pub(crate) fn big_sigma1<const N: usize>(x: Simd<u32, N>) -> Simd<u32, N>
    ensures { (i : ℕ) → IsAt N i result (big_sigma1 (slice_index x.entry i)) }
{
    (((((x >> 14) ^ x) >> 5) ^ x) >> 6) ^ (((((x << 5) ^ x) << 14) ^ x) << 7)
}

#[inline(always)]
pub(crate) fn small_sigma0<const N: usize>(x: Simd<u32, N>) -> Simd<u32, N>
    ensures { (i : ℕ) → IsAt N i result (small_sigma0 (slice_index x.entry i)) }
{
    (((((x >> 11) ^ x) >> 4) ^ x) >> 3) ^ (((x << 11) ^ x) << 14)
}

#[inline(always)]
pub(crate) fn small_sigma1<const N: usize>(x: Simd<u32, N>) -> Simd<u32, N>
    ensures { (i : ℕ) → IsAt N i result (small_sigma1 (slice_index x.entry i)) }
{
    (((((x >> 2) ^ x) >> 7) ^ x) >> 10) ^ (((x << 2) ^ x) << 13)
}

/// Returns the part of T 1 of a round that depends on the state alone (FIPS 180-4 section 6.2.2,
/// step 3).
#[inline(always)]
pub(crate) fn mixed<const N: usize>(
    e: Simd<u32, N>,
    f: Simd<u32, N>,
    g: Simd<u32, N>,
    h: Simd<u32, N>,
) -> Simd<u32, N>
    ensures { (i : ℕ) → IsAt N i result (add32
        (add32 (slice_index h.entry i) (big_sigma1 (slice_index e.entry i)))
        (ch (slice_index e.entry i) (slice_index f.entry i) (slice_index g.entry i))) }
{
    h + big_sigma1(e) + ch(e, f, g)
}

/// Returns T 2 of a round (FIPS 180-4 section 6.2.2, step 3).
#[inline(always)]
pub(crate) fn temp2<const N: usize>(
    a: Simd<u32, N>,
    b: Simd<u32, N>,
    c: Simd<u32, N>,
) -> Simd<u32, N>
    ensures { (i : ℕ) → IsAt N i result (add32 (big_sigma0 (slice_index a.entry i))
        (maj (slice_index a.entry i) (slice_index b.entry i) (slice_index c.entry i))) }
{
    big_sigma0(a) + maj(a, b, c)
}
