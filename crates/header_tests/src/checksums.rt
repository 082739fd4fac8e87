//! Sums from RFC 1071, section 3, and at the ends of the range; the lanes beside a sum word by word.
ghost use Rattle.std.specs.Prelude.{◌<◌, ◌^◌, vec_len};

use crate::seeing::assert_same;
use inet_sum::{Partial, checksum, fold_of, udp_checksum};
use std::alloc::Global;
use std::process::Abort;

static WORDS: [u8; 8] = [0x00, 0x01, 0xf2, 0x03, 0xf4, 0xf5, 0xf6, 0xf7];

#[test]
fn sums_of_whole_lists(rt: HostRuntime) {
    let sums = [
        fold_of(&WORDS),
        checksum(&WORDS),
        checksum(&[]),
        checksum(&[0xff, 0xff]),
        checksum(&[0x01]),
        udp_checksum(&[0xff, 0xff]),
        udp_checksum(&WORDS),
    ];
    assert_same(
        &rt,
        &sums,
        &[0xddf2, 0x220d, 0xffff, 0x0000, 0xfeff, 0xffff, 0x220d],
    );
}

/// 257 words of 1212, of which one is 3412, and 5600; the sum was computed by a separate program.
#[test]
fn a_sum_of_many_words(rt: HostRuntime) {
    let mut bytes = [0x12; 515];
    bytes[256] = 0x34;
    bytes[514] = 0x56;
    assert_same(&rt, &fold_of(&bytes), &0x9c24);
}

#[test]
fn sums_of_pieces(rt: HostRuntime) {
    let mut sum = Partial::new();
    sum.add(&WORDS[..1]);
    sum.add(&WORDS[1..4]);
    let mut rest = Partial::new();
    rest.add(&WORDS[4..]);
    let all = sum.joined(rest);
    sum.add_number(0xf4f5);
    sum.add_number(0xf6f7);
    assert_same(
        &rt,
        &(all.len(), all.fold(), all.checksum(), sum.checksum()),
        &(8, 0xddf2, 0x220d, 0x220d),
    );
}

// Bytes ff, some more than a million.
fn all_ones(rt: &impl Abort, alloc: Global, count: usize) -> Vec<u8>
    requires few { count < 2 ^ 20 }
    ensures few { vec_len result < 2 ^ 20 }
{
    vec![in alloc; 0xff; count].expect(rt, "no memory")
}

fn sum_in_pieces(bytes: &[u8], size: usize) -> Partial
    requires some { 0 < size }
{
    let mut sum = Partial::new();
    for piece in bytes.chunks(size) {
        // Here all lists are short enough for the sum.
        if sum.len() < 1 << 20 && piece.len() < 1 << 20 {
            sum.add(piece);
        }
    }
    sum
}

/// Length and checksum of the sum in pieces of this size.
fn in_pieces(bytes: &[u8], size: usize) -> (u32, u16)
    requires some { 0 < size }
{
    let sum = sum_in_pieces(bytes, size);
    (sum.len(), sum.checksum())
}

/// 500,000 words of ffff leave nothing, and the last byte is the word ff00, whose complement is 00ff.
#[test]
fn a_million_and_one_bytes_ff(rt: HostRuntime) {
    let bytes = all_ones(&rt, rt.alloc(), 1_000_001);
    let sums = [
        in_pieces(&bytes, 63),
        in_pieces(&bytes, 64),
        in_pieces(&bytes, 65),
    ];
    assert_same(
        &rt,
        &(bytes.len(), checksum(&bytes), sums),
        &(1_000_001, 0x00ff, [(1_000_001, 0x00ff); 3]),
    );
}

/// Word by word, the carries added at once (RFC 1071, section 1).
fn slow_fold(bytes: &[u8]) -> u16 {
    let mut sum = 0u32;
    for (i, byte) in bytes.iter().enumerate() {
        let weight = if i % 2 == 0 { 256 } else { 1 };
        sum = sum.wrapping_add(weight * u32::from(*byte));
        if sum > 65535 {
            sum -= 65535;
        }
    }
    (sum % (1 << 16)) as u16
}

/// The length and the place of the first bytes with another sum than word by word.
fn first_other(buffer: &[u8; 320]) -> Option<(usize, usize)> {
    for length in 0..301 {
        for at in 0..16 {
            let bytes = &buffer[at..at + length];
            if fold_of(bytes) != slow_fold(bytes) {
                return Some((length, at));
            }
        }
    }
    None
}

#[test]
fn every_length_at_every_place(rt: HostRuntime) {
    let mut buffer = [0u8; 320];
    let mut state = 1u32;
    for byte in &mut buffer {
        state = state.wrapping_mul(1_664_525).wrapping_add(1_013_904_223);
        *byte = (state >> 24) as u8;
    }
    assert_same(&rt, &first_other(&buffer), &None);
}
