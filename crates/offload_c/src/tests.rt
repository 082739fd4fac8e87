//! The exports, called as C calls them.
use crate::{
    MergeOptions, offload_merge, offload_merge_bound, offload_queue, offload_queue_rss,
    offload_segment, offload_segment_bound,
};
use std::mem::size_of;
use std::test::Fail;
use worked_captures::{MERGED_CAPTURE, MERGED_CAPTURE_2};

// The key of Microsoft's suite of tests for receive side scaling, and what of it is hashed to 51ccc178: TCP from
// 66.9.149.187, port 2794, to 161.142.100.80, port 1766.
const HASH_KEY: [u8; 40] = [
    0x6d, 0x5a, 0x56, 0xda, 0x25, 0x5b, 0x0e, 0xc2, 0x41, 0x67, 0x25, 0x3d, 0x43, 0xa3, 0x8f, 0xb0,
    0xd0, 0xca, 0x2b, 0xcb, 0xae, 0x7b, 0x30, 0xb4, 0x77, 0xcb, 0x2d, 0xa3, 0x80, 0x30, 0xf2, 0x0c,
    0x6a, 0x42, 0xb7, 0x3b, 0xbe, 0xac, 0x01, 0xfa,
];

const HASHED: [u8; 54] = [
    0x02, 0x00, 0x00, 0x00, 0x00, 0x02, 0x02, 0x00, 0x00, 0x00, 0x00, 0x01, 0x08, 0x00, 0x45, 0x00,
    0x00, 0x28, 0x00, 0x00, 0x40, 0x00, 0x40, 0x06, 0x00, 0x00, 0x42, 0x09, 0x95, 0xbb, 0xa1, 0x8e,
    0x64, 0x50, 0x0a, 0xea, 0x06, 0xe6, 0x00, 0x00, 0x00, 0x00, 0x00, 0x00, 0x00, 0x00, 0x50, 0x10,
    0x00, 0x00, 0x00, 0x00, 0x00, 0x00,
];

// Rounds of so many records over so many blocks, in one queue, with no tap.
fn plain(budget: u32, blocks: u32) -> MergeOptions<'static> {
    MergeOptions {
        size: size_of::<MergeOptions<'_>>(),
        budget,
        blocks,
        queues: 1,
        taps: 0,
        snap: 64,
        segs: 4096,
        filter: &[],
        rss_key: &[],
        rss_table: &[],
    }
}

#[test]
fn a_record_is_cut_and_merged_again(rt: HostRuntime) -> Result<(), Fail> {
    let mut packets = [0x55; 180];
    let mut count = 0;
    let cut = offload_segment(rt.alloc(), 3, &MERGED_CAPTURE, &mut packets, &mut count);
    assert_eq!(rt; (cut, count), (0, 170));
    assert_eq!(rt; &packets[169..172], [0x66, 0x55, 0x55].as_slice());
    let mut merged = [0; 116];
    let code = offload_merge(
        rt.alloc(),
        &plain(64, 6),
        &packets[..170],
        &mut merged,
        &mut count,
    );
    assert_eq!(rt; (code, count), (0, 116));
    assert_eq!(rt; merged.as_slice(), MERGED_CAPTURE_2.as_slice());
    Ok(())
}

#[test]
fn each_other_answer(rt: HostRuntime) -> Result<(), Fail> {
    let alloc = rt.alloc();
    let mut output = [0x55; 200];
    let mut count = 0;
    let usage = offload_segment(alloc, 65537, &MERGED_CAPTURE, &mut output, &mut count);
    assert_eq!(rt; (usage, count), (2, 0));
    let malformed = offload_segment(alloc, 3, &MERGED_CAPTURE[..111], &mut output, &mut count);
    assert_eq!(rt; (malformed, count), (3, 24));
    let empty = offload_segment(alloc, 2, &MERGED_CAPTURE, &mut output, &mut count);
    assert_eq!(rt; (empty, count), (4, 24));
    let mut brief = [0x55; 169];
    let short = offload_segment(alloc, 3, &MERGED_CAPTURE, &mut brief, &mut count);
    assert_eq!(rt; (short, count), (9, 170));
    assert_eq!(rt; brief.as_slice(), [0x55; 169].as_slice());
    assert_eq!(rt;
        offload_merge(
            alloc,
            &plain(4097, 6),
            &MERGED_CAPTURE,
            &mut output,
            &mut count
        ),
        2
    );
    assert_eq!(rt;
        offload_merge(
            alloc,
            &plain(64, 6),
            &MERGED_CAPTURE,
            &mut output,
            &mut count
        ),
        3
    );
    assert_eq!(rt;
        (
            offload_queue(&MERGED_CAPTURE, 8),
            offload_queue(&MERGED_CAPTURE, 0)
        ),
        (0, 0)
    );
    Ok(())
}

// A record without bytes is the one that wants all the room of the bound.
#[test]
fn a_bound_that_is_reached(rt: HostRuntime) -> Result<(), Fail> {
    let mut capture = [0; 40];
    capture[..24].copy_from_slice(&MERGED_CAPTURE[..24]);
    capture[20] = 1;
    let bound = offload_merge_bound(40, usize::MAX, 0, 64);
    assert_eq!(rt; (bound, offload_merge_bound(1000, 2, 0, 64)), (56, 1032));
    let mut output = [0; 56];
    let mut count = 0;
    assert_eq!(rt;
        offload_merge(rt.alloc(), &plain(1, 3), &capture, &mut output, &mut count),
        0
    );
    assert_eq!(rt; count, bound);
    assert_eq!(rt;
        (
            offload_segment_bound(112, 2),
            offload_segment_bound(usize::MAX, 9)
        ),
        (544, usize::MAX)
    );
    Ok(())
}

// Two taps of two bytes read the first four of each frame, behind the merged record, or of three that a filter shows.
#[test]
fn taps_write_windows(rt: HostRuntime) -> Result<(), Fail> {
    let alloc = rt.alloc();
    let mut packets = [0; 170];
    let mut count = 0;
    assert_eq!(rt;
        offload_segment(alloc, 3, &MERGED_CAPTURE, &mut packets, &mut count),
        0
    );
    let mut options = plain(64, 6);
    options.taps = 2;
    options.snap = 2;
    let mut output = [0; 400];
    assert_eq!(rt;
        offload_merge(alloc, &options, &packets, &mut output, &mut count),
        0
    );
    assert_eq!(rt; (count, offload_merge_bound(170, 2, 2, 2)), (252, 338));
    let first = [2, 2, 0, 0, 0, 0, 0, 0, 0, 0, 0, 0, 0, 0, 0, 0, 2, 0];
    assert_eq!(rt; &output[132..150], first.as_slice());
    let last = [2, 2, 0, 1, 0, 0, 0, 0, 0, 0, 0, 0, 0, 0, 0, 1, 0, 0];
    assert_eq!(rt; &output[234..252], last.as_slice());
    options.filter = b"1,6 0 0 3";
    assert_eq!(rt;
        offload_merge(alloc, &options, &packets, &mut output, &mut count),
        0
    );
    assert_eq!(rt; count, 250);
    Ok(())
}

// The queue stands in the fourth byte of the offload header.
#[test]
fn a_hash_tells_the_queue(rt: HostRuntime) -> Result<(), Fail> {
    assert_eq!(rt;
        (
            offload_queue_rss(&HASHED, &HASH_KEY, &[], 4),
            offload_queue_rss(&HASHED, &HASH_KEY, &[], 7),
            offload_queue_rss(&HASHED, &HASH_KEY, &[2, 1], 3),
            offload_queue_rss(&HASHED, &HASH_KEY, &[3], 3)
        ),
        (0, 1, 2, 3)
    );
    let mut packets = [0; 170];
    let mut merged = [0; 116];
    let mut count = 0;
    assert_eq!(rt;
        offload_segment(rt.alloc(), 3, &MERGED_CAPTURE, &mut packets, &mut count),
        0
    );
    let mut options = plain(64, 6);
    options.queues = 4;
    options.rss_key = &HASH_KEY;
    options.rss_table = &[3];
    assert_eq!(rt;
        offload_merge(rt.alloc(), &options, &packets, &mut merged, &mut count),
        0
    );
    assert_eq!(rt; &merged[40..44], [2, 1, 0, 3].as_slice());
    Ok(())
}
