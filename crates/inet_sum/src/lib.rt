//! The Internet sum: the one's complement sum of 16-bit words that IPv4, TCP and UDP carry (RFC 1071, section 1; RFC
//! 791, section 3.1; RFC 9293, section 3.1; RFC 768).
//!
//! [`fold_of`] gives the sum of bytes folded into 16 bits, and [`checksum`] and [`udp_checksum`] what stands in a
//! header (clauses `fold` and `checksum`). Bytes that come in pieces are summed by a [`Partial`], however they were
//! cut, at odd places too: its clauses speak of every list of bytes that it stands for. The definition in `specs/` has
//! one division in place of the carries.
//!
//! ```
//! let mut sum = Partial::new();
//! sum.add(&[0x00, 0x01, 0xf2]);
//! sum.add(&[0x03, 0xf4, 0xf5, 0xf6, 0xf7]);
//! let field = sum.checksum(); // 0x220d
//! ```
//!
//! Tests: `header_tests`, module `checksums`.
//!
//! Why so:
//!
//! - **Lists of 128 bytes and more are summed by pairs of numbers**, sixteen bytes a step, and shorter ones by the
//!   plain loop alone, which is done before pairs are set up and added together. Both totals of 64 bits wrap; beside
//!   them the high halves are added, which tells the low halves from the total, so no carry is lost. Adding both halves
//!   apart takes a third longer, words swapped into big-endian numbers nearly twice as long, and numbers of 128 bits in
//!   the place of pairs a seventh longer, each at 1,460 bytes. The loop over pairs isn't inlined: where the compiler
//!   knows the length it unrolls it less.
//! - **The plain loop adds little-endian numbers of 64 bits**, each with the carry of the sum before at its low end:
//!   two instructions for eight bytes. 65535 divides 2^64 - 1, so a carry leaves what it left, and the bytes' order is
//!   turned once, at the end. Each is read at once (`byteorder`): put together from bytes it is taken apart again where
//!   the same bytes are read for another reason.
//! - **A right sum is told without its value** ([`is_full`]): the words with the sum among them have the fold 65535.
#![tactic(auto)]

ghost use Rattle.std.specs.Prelude.{◌≡◌, ◌==◌, ℕ, ◌+◌, ◌*◌, ◌/◌, ◌%◌, ◌^◌, ◌<◌, ◌≤◌, List, [], ◌∷◌, ◌++◌, length, drop};
ghost use Rattle.inet_sum.specs.Words.{number_of, word_of, IsAround};
ghost use Rattle.inet_sum.specs.Sum.{word_sum, folded, fold_of as fold_of_bytes, checksum_of, not_zero as not_zero_of};
ghost use Rattle.inet_sum.specs.Sum.{udp_checksum_of, joined_fold};

mod pairs;
pub mod partial;

use byteorder::{BigEndian, ByteOrder, LittleEndian};
use pairs::{STEP, pairs_sum, turned};
pub use partial::Partial;

/// The fold of the bytes: 0 where their big-endian words add to 0, and else the number from 1 to 65535 that leaves the
/// same remainder by 65535. An odd last byte counts as the high byte of a word.
pub fn fold_of(bytes: &[u8]) -> u16
    requires few { length bytes.now < 2 ^ 32 }
    ensures fold { result ≡ fold_of_bytes bytes.now }
{
    fold_number(unfolded(bytes))
}

/// Lists that are shorter are summed by the plain loop alone, which is done before both totals are added up.
const SHORT: usize = 128;

/// A number that has the fold of the bytes: a sum of many pieces folds once, at its end.
#[inline(always)]
pub fn unfolded(bytes: &[u8]) -> u64
    requires few { length bytes.now < 2 ^ 32 }
    ensures fold { folded result ≡ fold_of_bytes bytes.now }
    ensures small { result ≤ 2 ^ 30 * length bytes.now }
{
    if bytes.len() < SHORT {
        words_sum(bytes)
    } else {
        long_sum(bytes)
    }
}

/// The sum by pairs, and by the plain loop for the rest alone. It isn't inlined, since at a length that the compiler
/// knows it takes less of the loop's turns together, which is slower.
#[inline(never)]
fn long_sum(bytes: &[u8]) -> u64
    requires long { 16 ≤ length bytes.now }
    requires few { length bytes.now < 2 ^ 32 }
    ensures fold { folded result ≡ fold_of_bytes bytes.now }
    ensures small { result ≤ 2 ^ 30 * length bytes.now }
{
    let (front, rest) = bytes.split_at(bytes.len() / STEP * STEP);
    pairs_sum(front) + words_sum(rest)
}

/// The sum of the 64-bit numbers in the bytes, and of the words of those behind them.
#[inline(always)]
fn words_sum(bytes: &[u8]) -> u64
    requires few { length bytes.now < 2 ^ 32 }
    ensures fold { folded result ≡ fold_of_bytes bytes.now }
    ensures small { result ≤ 2 ^ 30 * length bytes.now }
{
    let words = bytes.len() / 8;
    let mut sum: u64 = 0;
    for i in 0..words {
        let word = word_at(bytes, 8 * i);
        sum = around(sum, word);
    }
    turned(sum) + rest_sum(&bytes[8 * words..])
}

/// The sum of two numbers, with the carry added at the low end: 65535 divides 2^64 - 1, so both leave the same.
#[inline(always)]
fn around(sum: u64, word: u64) -> u64
    ensures kept { IsAround sum word result }
{
    let (low, is_carried) = sum.overflowing_add(word);
    if is_carried { low + 1 } else { low }
}

/// The little-endian number in eight bytes, read at once.
#[inline(always)]
fn word_at(bytes: &[u8], at: usize) -> u64
    requires inside { at + 8 ≤ length bytes.now }
    ensures value { result ≡ word_of (drop at bytes.now) }
{
    LittleEndian::read_u64(&bytes[at..])
}

/// A number with the fold of at most seven bytes.
#[inline(always)]
fn rest_sum(bytes: &[u8]) -> u64
    requires short { length bytes.now ≤ 7 }
    ensures fold { folded result ≡ fold_of_bytes bytes.now }
    ensures small { result ≤ 2 ^ 30 * length bytes.now }
{
    if bytes.len() < 4 {
        return short_sum(bytes);
    }
    // A number of 32 bits leaves the same remainder by 65535 as its two halves together.
    u64::from(quad(bytes)) + short_sum(&bytes[4..])
}

/// The fold of a number: 0 of 0, and else the number from 1 to 65535 that leaves the same remainder by 65535.
pub fn fold_number(number: u64) -> u16
    ensures fold { result ≡ folded number }
{
    if number == 0 {
        0
    } else {
        ((number - 1) % 65535 + 1) as u16
    }
}

/// Whether a number has the fold 65535, as all words together have of which one is their right sum: one division, and
/// none where it isn't a multiple.
#[inline(always)]
pub fn is_full(number: u64) -> bool
    ensures full { result ≡ (folded number == 65535) }
{
    number != 0 && number % 65535 == 0
}

/// The big-endian number in the first four bytes, read at once.
#[inline(always)]
fn quad(bytes: &[u8]) -> u32
    requires there { 4 ≤ length bytes.now }
    ensures value { result ≡ number_of bytes.now }
{
    BigEndian::read_u32(bytes)
}

/// What the words of at most three bytes add to.
#[inline(always)]
fn short_sum(bytes: &[u8]) -> u64
    requires short { length bytes.now ≤ 3 }
    ensures sum { result ≡ word_sum bytes.now }
    ensures small { result ≤ 2 ^ 16 * length bytes.now }
{
    match bytes {
        [] => 0,
        [high] => 256 * u64::from(*high),
        [high, low] => 256 * u64::from(*high) + u64::from(*low),
        [high, low, next, ..] => 256 * u64::from(*high) + u64::from(*low) + 256 * u64::from(*next),
    }
}

/// The Internet checksum of the bytes, as it stands in an IPv4 or TCP header.
pub fn checksum(bytes: &[u8]) -> u16
    requires few { length bytes.now < 2 ^ 32 }
    ensures checksum { result ≡ checksum_of bytes.now }
{
    65535 - fold_of(bytes)
}

/// The Internet checksum of the bytes as it stands in a UDP header, where 0 is sent as 65535 (RFC 768).
pub fn udp_checksum(bytes: &[u8]) -> u16
    requires few { length bytes.now < 2 ^ 32 }
    ensures checksum { result ≡ udp_checksum_of bytes.now }
{
    not_zero(checksum(bytes))
}

/// A UDP sum of 0 is sent as 65535 (RFC 768).
pub fn not_zero(sum: u16) -> u16
    ensures sum { result ≡ not_zero_of sum }
{
    if sum == 0 { 65535 } else { sum }
}
