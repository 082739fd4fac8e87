//! The sum by pairs: sixteen bytes at a time, as two little-endian numbers of 64 bits.
//!
//! Which byte of a word is the high one doesn't matter while words are added, only at the end (RFC 1071, section 2).

ghost use Rattle.std.specs.Prelude.{◌≡◌, ℕ, ◌+◌, ◌*◌, ◌/◌, ◌%◌, ◌^◌, ◌<◌, ◌≤◌, List, length};
ghost use Rattle.std.specs.Simd.Lanes.{chunk, digits_l, number_l};
ghost use Rattle.inet_sum.specs.Sum.{folded, fold_of as fold_of_bytes};

use std::simd::prelude::*;

/// How many bytes are added at a time.
pub(crate) const STEP: usize = 16;

/// A number that has the fold of the bytes.
#[inline(always)]
pub(crate) fn pairs_sum(bytes: &[u8]) -> u64
    requires few { length bytes.now < 2 ^ 32 }
    requires whole { length bytes.now % 16 ≡ 0 }
    ensures fold { folded result ≡ fold_of_bytes bytes.now }
    ensures small { result < 2 ^ 26 }
{
    let half = u64x2::splat(32);
    let mut totals = u64x2::splat(0);
    let mut highs = u64x2::splat(0);
    for i in 0..bytes.len() / STEP {
        let pair = pair_at(bytes, STEP * i);
        totals = totals + pair;
        highs = highs + (pair >> half);
    }
    // The totals wrap. Less the high halves they are what the low halves add to, which fits 64 bits, so no carry is
    // lost.
    let lows = totals - (highs << half);
    turned((lows + highs).reduce_sum())
}

/// The two numbers in sixteen bytes.
#[inline(always)]
fn pair_at(bytes: &[u8], at: usize) -> u64x2
    requires inside { at + 16 ≤ length bytes.now }
    ensures pair { result ≡ digits_l (2 ^ 64) 2 (number_l 256 (chunk at 16 bytes.now)) }
{
    u64x2::from_le_bytes(u8x16::from_slice(&bytes[at..]))
}

/// A small number that has the fold of this one with the bytes of each word in the other order.
#[inline(always)]
pub(crate) fn turned(sum: u64) -> u64
    ensures fold { folded result ≡ folded (256 * sum) }
    ensures small { result < 2 ^ 26 }
{
    // 2^32 and 2^16 leave 1 by 65535, so the parts of a number leave together what it does.
    let parts = sum % (1 << 32) + sum / (1 << 32);
    256 * (parts % (1 << 16) + parts / (1 << 16))
}
