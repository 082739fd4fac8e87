//! Offload headers that no lawful record has, in both versions.
use super::cutting::{buffer, cut, headers, merged};
use crate::seeing::assert_same;
use pcap_io::{AnyHead, OffHead, OffHead2};
use std::alloc::Global;
use std::process::Abort;
use worked_captures::MERGED;

// Whether a record of these bytes is taken, whose record header says that its frame had so many.
fn is_taken(rt: &impl Abort, alloc: Global, head: &AnyHead, frame: &[u8], original: u32) -> bool {
    assert!(rt; original <= 2_147_483_648 && frame.len() <= 262_200);
    let skb = buffer(rt, alloc, frame, 200, 1984);
    cut(rt, alloc, head, skb, original + head.size()).is_some()
}

// Kind, n, m, modes, lane, the frame's original length, and a place of the frame where these bits are turned.
type Row = (u8, u16, u16, u8, u8, u32, usize, u8);

static REFUSED: [Row; 17] = [
    (3, 2, 4, 0, 0, 60, 0, 0),
    (1, 2, 4, 0, 64, 60, 0, 0),
    (1, 1, 4, 0, 0, 60, 0, 0),
    (1, 3, 4, 0, 0, 60, 0, 0),
    (1, 2, 0, 0, 0, 60, 0, 0),
    (1, 2, 2, 0, 0, 60, 0, 0),
    (1, 2, 6, 0, 0, 60, 0, 0),
    (1, 2, 4, 2, 0, 60, 0, 0),
    (1, 2, 4, 4, 0, 60, 0, 0),
    (1, 2, 4, 0, 0, 59, 0, 0),
    (1, 2, 4, 0, 0, 60, 17, 1),
    (1, 2, 4, 0, 0, 60, 51, 1),
    (1, 2, 4, 0, 0, 60, 59, 1),
    (1, 2, 4, 0, 0, 60, 12, 1),
    (0, 1, 0, 0, 64, 60, 0, 0),
    (0, 2, 0, 0, 0, 60, 0, 0),
    (2, 0, 0, 0, 8, 60, 0, 0),
];

// Whether a record of a row is taken, in each version.
fn are_taken(rt: &impl Abort, alloc: Global, row: &Row) -> (bool, bool) {
    let (kind, n, m, modes, lane, original, place, bits) = *row;
    let mut frame = MERGED;
    if place < 60 {
        frame[place] ^= bits;
    }
    let [first, second] = headers(kind, n, m, modes, lane);
    (
        is_taken(rt, alloc, &first, &frame, original),
        is_taken(rt, alloc, &second, &frame, original),
    )
}

// Kind, n, m, modes and lane of the first row that is taken, in either version.
fn first_taken(rt: &impl Abort, alloc: Global) -> Option<(u8, u16, u16, u8, u8)> {
    for row in &REFUSED {
        if are_taken(rt, alloc, row) != (false, false) {
            return Some((row.0, row.1, row.2, row.3, row.4));
        }
    }
    None
}

#[test]
fn hostile_records_are_refused(rt: HostRuntime) {
    assert_same(&rt, &first_taken(&rt, rt.alloc()), &None);
}

// Whether a record that says this version is taken, with a header of each.
fn are_taken_as(rt: &impl Abort, alloc: Global, version: u8) -> (bool, bool) {
    let [first, second] = headers(1, 2, 4, 0, 0);
    let (AnyHead::V1(first), AnyHead::V2(second)) = (first, second) else {
        panic!(rt; "no headers of both versions");
    };
    let first = AnyHead::V1(OffHead { version, ..first });
    let second = AnyHead::V2(OffHead2 { version, ..second });
    (
        is_taken(rt, alloc, &first, &MERGED, 60),
        is_taken(rt, alloc, &second, &MERGED, 60),
    )
}

#[test]
fn other_versions_are_refused(rt: HostRuntime) {
    let alloc = rt.alloc();
    let taken = [
        are_taken_as(&rt, alloc, 0),
        are_taken_as(&rt, alloc, 1),
        are_taken_as(&rt, alloc, 2),
        are_taken_as(&rt, alloc, 3),
        are_taken_as(&rt, alloc, 255),
    ];
    let none = (false, false);
    assert_same(
        &rt,
        &taken,
        &[none, (true, false), (false, true), none, none],
    );
}

// n and m, whose products are 2^32 and more. In 32 bits the second and the third would fit the payload of six bytes.
static WIDE: [(u32, u32); 6] = [
    (4_294_967_295, 4_294_967_295),
    (65_537, 65_536),
    (536_870_913, 8),
    (2, 4_294_967_295),
    (4_294_967_295, 1),
    (65_538, 4),
];

// The first of them that is taken.
fn first_wide(rt: &impl Abort, alloc: Global) -> Option<(u32, u32)> {
    for (n, m) in &WIDE {
        if is_taken(rt, alloc, &merged(*n, *m, 0), &MERGED, 60) {
            return Some((*n, *m));
        }
    }
    None
}

#[test]
fn numbers_of_32_bits_are_refused(rt: HostRuntime) {
    assert_same(&rt, &first_wide(&rt, rt.alloc()), &None);
}

// Whether a single record is taken as long as may be, longer, with as long an original length as may be, with a longer
// one, and with none.
fn are_taken_at_limits(rt: &impl Abort, alloc: Global, head: &AnyHead, bytes: &[u8]) -> [bool; 5] {
    assert!(rt; bytes.len() == 262_145);
    [
        is_taken(rt, alloc, head, &bytes[1..], 262_144),
        is_taken(rt, alloc, head, bytes, 262_145),
        is_taken(rt, alloc, head, &MERGED, 2_147_483_647),
        is_taken(rt, alloc, head, &MERGED, 2_147_483_648),
        is_taken(rt, alloc, head, &MERGED, 0),
    ]
}

// A frame has at most 262,144 bytes, and its original length is at most 2^31 - 1.
#[test]
fn single_records_at_the_limits(rt: HostRuntime) {
    let alloc = rt.alloc();
    let bytes = vec![in alloc; 0u8; 262_145].expect(&rt, "no memory");
    let [first, second] = headers(0, 1, 0, 0, 63);
    let are_taken = [
        are_taken_at_limits(&rt, alloc, &first, &bytes),
        are_taken_at_limits(&rt, alloc, &second, &bytes),
    ];
    // An original length below that of the header.
    let [_, second] = headers(0, 1, 0, 0, 0);
    let skb = buffer(&rt, alloc, &MERGED, 60, 1);
    let is_refused = cut(&rt, alloc, &second, skb, 15).is_none();
    assert_same(
        &rt,
        &(are_taken, is_refused),
        &([[true, false, true, false, true]; 2], true),
    );
}
