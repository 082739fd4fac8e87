//! Datagrams, frames in GRE tunnels, and the longest frame over IPv6, cut again. The digests come from a program that
//! was written from the formats alone.
use super::cutting::{buffer, counted, cut_whole, digest, merged};
use super::frames::{DATAGRAM_1200, GRE_2000, IP6_262070, UNSUMMED_1200};
use super::is_whole;
use std::alloc::Global;
use std::process::Abort;

// n, m, modes, the blocks, and the digest of all frames.
type Row = (u32, u32, u8, usize, u32);

fn check_rows<A: Abort>(rt: &A, alloc: Global, headers: &[u8], size: usize, rows: &[Row]) {
    let frame = counted(rt, alloc, headers, size);
    for (n, m, modes, blocks, sum) in rows {
        let skb = buffer(rt, alloc, frame.as_slice(), 200, 1984);
        let given = cut_whole(rt, alloc, &merged(*n, *m, *modes), skb).expect(rt, "lawful");
        assert!(rt;
            is_whole(&given, *n as usize, *blocks) && digest(given.bytes.as_slice()) == *sum
        );
    }
}

/// A datagram's own lengths and identifications; and a sum that is left out stays out.
#[test]
fn datagrams(rt: HostRuntime) {
    let alloc = rt.alloc();
    let rows = [(3, 500, 0, 5, 2_878_327_780), (3, 500, 1, 5, 2_344_885_572)];
    check_rows(&rt, alloc, &DATAGRAM_1200, 1200, &rows);
    let rows = [(2, 1_199, 0, 4, 48_891_414)];
    check_rows(&rt, alloc, &UNSUMMED_1200, 1200, &rows);
}

#[test]
fn frames_in_gre(rt: HostRuntime) {
    let rows = [
        (2, 1_000, 0, 4, 3_985_082_449),
        (3, 999, 2, 5, 2_258_230_922),
        (20, 100, 1, 22, 3_979_306_221),
    ];
    check_rows(&rt, rt.alloc(), &GRE_2000, 2000, &rows);
}

/// Payload lengths of at most 65,535 are said, greater ones are 0.
#[test]
fn the_longest_frame(rt: HostRuntime) {
    let rows = [
        (5, 52_414, 0, 139, 836_059_224),
        (2, 131_035, 0, 136, 3_192_997_153),
        (2, 262_069, 0, 136, 3_196_084_339),
    ];
    check_rows(&rt, rt.alloc(), &IP6_262070, 262_070, &rows);
}
