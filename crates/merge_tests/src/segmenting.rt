//! Records of each kind, cut: by the bytes of the segments, which come from outside, and by what comes home.
ghost use Rattle.std.specs.Prelude.{◌≤◌};

pub mod cutting;
mod frames;
mod hostile;
mod layers;

use crate::home::home_of;
use crate::seeing::assert_same;
use cutting::{Given, buffer, counted, cut_whole, digest, headers, merged};
use frags::{Outcomes, PieceBuilder};
use frames::{
    NESTED_500, PLAIN_2194, PLAIN_65495, PLAIN_SEGMENTS, TAGGED_500, TUNNEL, TUNNEL_SEGMENTS,
};
use pcap_io::AnyHead;
use raw_block::{FULL, Released, Sole};
use skb::{Returned, Skb};
use std::alloc::Global;
use std::process::Abort;
use worked_captures::MERGED;

// Whether all frames were given, and so many blocks came home.
fn is_whole(given: &Given, frames: usize, blocks: usize) -> bool {
    given.is_done && given.weights.len() == frames && given.blocks == blocks
}

// Whether a record is cut into these frames, so many, with as many blocks home.
fn is_cut<A: Abort>(
    rt: &A,
    alloc: Global,
    head: &AnyHead,
    skb: Skb,
    bytes: &[u8],
    whole: (usize, usize),
) -> bool {
    let given = cut_whole(rt, alloc, head, skb).expect(rt, "lawful");
    given.bytes.as_slice() == bytes && is_whole(&given, whole.0, whole.1)
}

// The same by the digest of all frames.
fn is_cut_to<A: Abort>(
    rt: &A,
    alloc: Global,
    head: &AnyHead,
    skb: Skb,
    sum: u32,
    whole: (usize, usize),
) -> bool {
    let given = cut_whole(rt, alloc, head, skb).expect(rt, "lawful");
    digest(given.bytes.as_slice()) == sum && is_whole(&given, whole.0, whole.1)
}

#[test]
fn worked_records_are_cut(rt: HostRuntime) {
    let alloc = rt.alloc();
    let plain = buffer(&rt, alloc, &MERGED, 60, 1);
    let tunnel = buffer(&rt, alloc, &TUNNEL, 109, 1);
    let are_cut = [
        is_cut(&rt, alloc, &merged(2, 4, 0), plain, &PLAIN_SEGMENTS, (2, 3)),
        is_cut(
            &rt,
            alloc,
            &merged(2, 3, 1),
            tunnel,
            &TUNNEL_SEGMENTS,
            (2, 3),
        ),
    ];
    assert_same(&rt, &are_cut, &[true; 2]);
}

// Kind, n, m, modes, lane; how many frames are given, how many bytes in all, and the bytes 18 and 19 and 38 to 41 of
// the second: its identification and sequence number.
type Taken = (u8, u16, u16, u8, u8, usize, usize, [u8; 6]);

static TAKEN: [Taken; 6] = [
    (1, 2, 4, 0, 63, 2, 114, [0, 0x65, 0, 0, 3, 0xec]),
    (1, 2, 5, 0, 0, 2, 114, [0, 0x65, 0, 0, 3, 0xed]),
    (1, 2, 3, 0, 0, 2, 114, [0, 0x65, 0, 0, 3, 0xeb]),
    (1, 2, 4, 1, 0, 2, 114, [0, 0x64, 0, 0, 3, 0xec]),
    (0, 1, 0, 0, 63, 1, 60, [0; 6]),
    (2, 0, 0, 0, 7, 0, 0, [0; 6]),
];

// Whether these are the frames that a row says.
fn are_said(bytes: &[u8], m: u16, frames: usize, size: usize, second: &[u8; 6]) -> bool {
    if bytes.len() != size {
        return false;
    }
    if frames == 1 {
        return bytes == MERGED.as_slice();
    }
    if frames == 0 || size != 114 || m > 5 {
        return frames == 0;
    }
    let at = 54 + usize::from(m);
    bytes[at + 18..at + 20] == second[..2] && bytes[at + 38..at + 42] == second[2..]
}

// Whether the worked record is cut as a row says, with this header.
fn is_cut_so<A: Abort>(rt: &A, alloc: Global, head: &AnyHead, row: &Taken) -> bool {
    let (_, _, m, _, _, frames, size, second) = *row;
    let skb = buffer(rt, alloc, &MERGED, 60, 1);
    let given = cut_whole(rt, alloc, head, skb).expect(rt, "lawful");
    frames <= 2
        && is_whole(&given, frames, 1 + frames)
        && are_said(given.bytes.as_slice(), m, frames, size, &second)
}

// Kind, n, m and modes of the first row by which it is cut otherwise, with a header of either version.
fn first_other<A: Abort>(rt: &A, alloc: Global) -> Option<(u8, u16, u16, u8)> {
    for row in &TAKEN {
        let (kind, n, m, modes, lane, _, _, _) = *row;
        let [first, second] = headers(kind, n, m, modes, lane);
        if !is_cut_so(rt, alloc, &first, row) || !is_cut_so(rt, alloc, &second, row) {
            return Some((kind, n, m, modes));
        }
    }
    None
}

#[test]
fn each_kind_is_cut_in_both_versions(rt: HostRuntime) {
    assert_same(&rt, &first_other(&rt, rt.alloc()), &None);
}

// m, n, how many bytes the head has and each piece, the blocks, and the digest of all frames. From segment 65 on sums
// aren't kept.
type Row = (u32, u32, usize, usize, usize, u32);

static TAGGED: [Row; 3] = [
    (7, 72, 200, 33, 86, 2_051_142_430),
    (250, 2, 622, 1, 3, 355_341_419),
    (499, 2, 300, 200, 5, 2_352_762_784),
];

static NESTED: [Row; 3] = [
    (7, 72, 200, 33, 89, 2_783_449_920),
    (100, 5, 200, 200, 9, 3_270_548_043),
    (201, 3, 700, 1, 4, 4_206_346_562),
];

fn check_rows<A: Abort>(rt: &A, alloc: Global, frame: &[u8], rows: &[Row; 3]) {
    for (m, n, of_head, of_piece, blocks, sum) in rows {
        assert!(rt; *of_head <= 1984 && 0 < *of_piece && *of_piece <= 1984);
        let skb = buffer(rt, alloc, frame, *of_head, *of_piece);
        let whole = (*n as usize, *blocks);
        assert!(rt; is_cut_to(rt, alloc, &merged(*n, *m, 0), skb, *sum, whole));
    }
}

#[test]
fn frames_in_pieces_are_cut(rt: HostRuntime) {
    let alloc = rt.alloc();
    let tagged = counted(&rt, alloc, &TAGGED_500, 500);
    check_rows(&rt, alloc, tagged.as_slice(), &TAGGED);
    let nested = counted(&rt, alloc, &NESTED_500, 500);
    check_rows(&rt, alloc, nested.as_slice(), &NESTED);
}

// The first 200 bytes, or all of fewer, are brought into a fresh head.
fn pull_headers<A: Abort>(rt: &A, alloc: Global, skb: &mut Skb, out: &mut Outcomes) {
    let spare = Sole::new(alloc).expect(rt, "no memory");
    assert!(rt; skb.count() <= out.spare());
    match skb.pull_up(skb.len().min(200), spare, out) {
        Ok(Returned::Gave(Released::Left(receipt))) => out.keep_receipt(receipt),
        Ok(Returned::Gave(Released::Last(block))) => out.keep_sole(block),
        Ok(Returned::Unused(spare)) => out.keep_sole(spare),
        Err((_, spare)) => out.keep_sole(spare),
    }
}

#[test]
fn frames_whose_headers_lie_in_pieces_are_cut_once_pulled_up(rt: HostRuntime) {
    let alloc = rt.alloc();
    let mut out = Outcomes::new(alloc);
    assert!(rt; out.reserve(40).is_ok());
    let mut plain = buffer(&rt, alloc, &MERGED, 0, 7);
    pull_headers(&rt, alloc, &mut plain, &mut out);
    let frame = counted(&rt, alloc, &NESTED_500, 500);
    let mut nested = buffer(&rt, alloc, frame.as_slice(), 20, 33);
    pull_headers(&rt, alloc, &mut nested, &mut out);
    let are_cut = [
        is_cut(&rt, alloc, &merged(2, 4, 0), plain, &PLAIN_SEGMENTS, (2, 3)),
        is_cut_to(
            &rt,
            alloc,
            &merged(5, 100, 0),
            nested,
            3_270_548_043,
            (5, 22),
        ),
    ];
    assert_same(&rt, &(are_cut, home_of(out)), &([true; 2], 16));
}

// This frame: 200 bytes in the head, and 2,048 in a part that weighs no more, as little as `start` takes.
fn thin<A: Abort>(rt: &A, alloc: Global, frame: &[u8], out: &mut Outcomes) -> Skb
    requires places { 1 ≤ out.old.spare }
{
    assert!(rt; frame.len() == 2248);
    let (first, behind) = frame.split_at(200);
    let mut head = Sole::new(alloc).expect(rt, "no memory");
    head.range_mut(64, 264).copy_from_slice(first);
    let mut block = Sole::new(alloc).expect(rt, "no memory");
    block.bytes_mut().copy_from_slice(behind);
    let mut heavy = block.share();
    assert!(rt; heavy.weight() > 2048);
    let light = heavy.split(2048);
    out.give_back(heavy);
    let mut pieces = PieceBuilder::with_room(alloc, 1).expect(rt, "no memory");
    assert!(rt; pieces.room() > 0);
    pieces.push(light, 0, 2048);
    Skb::new(head, 64, 264, pieces.finish())
}

// The weight of each of the 146 bytes of payload that lie in the head, as they are cut off.
fn is_of_head(weights: &[u64]) -> bool {
    let mut left = FULL - FULL / 4096;
    for (i, weight) in weights.iter().enumerate() {
        let gift = if i == 145 { left } else { left / 4096 };
        if *weight != gift {
            return false;
        }
        left -= gift;
    }
    true
}

// Whether 2,194 frames weigh this: those of the head as they are cut off, and those of the part 1 each.
fn are_weights(weights: &[u64]) -> bool {
    if weights.len() != 2194 {
        return false;
    }
    let (of_head, of_part) = weights.split_at(146);
    for weight in of_part {
        if *weight != 1 {
            return false;
        }
    }
    is_of_head(of_head)
}

#[test]
fn a_part_no_heavier_than_its_bytes_is_cut_everywhere(rt: HostRuntime) {
    let alloc = rt.alloc();
    let mut out = Outcomes::new(alloc);
    assert!(rt; out.reserve(1).is_ok());
    let frame = counted(&rt, alloc, &PLAIN_2194, 2194);
    let skb = thin(&rt, alloc, frame.as_slice(), &mut out);
    let given = cut_whole(&rt, alloc, &merged(2194, 1, 0), skb).expect(&rt, "lawful");
    let sum = digest(given.bytes.as_slice());
    let are_so = is_whole(&given, 2194, 2196) && are_weights(given.weights.as_slice());
    assert_same(&rt, &(home_of(out), sum, are_so), &(0, 3_625_064_795, true));
}

#[test]
fn a_frame_as_long_as_may_be_is_cut_byte_by_byte(rt: HostRuntime) {
    let alloc = rt.alloc();
    let frame = counted(&rt, alloc, &PLAIN_65495, 65_495);
    let skb = buffer(&rt, alloc, frame.as_slice(), 1984, 1984);
    let head = merged(65_495, 1, 1);
    assert!(rt; is_cut_to(&rt, alloc, &head, skb, 1_200_039_238, (65_495, 65_529)));
}
