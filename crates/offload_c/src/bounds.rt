//! How long an output is at most: whoever makes room for that is never told that there is none.
ghost use Rattle.std.specs.Prelude.{◌≡◌, ◌-◌, ◌^◌, min};
ghost use Rattle.offload_c.specs.Bounds.{MergedFits, SegmentedFits, merge_bound, segment_bound};

use pcap_io::OFF_HEAD2_LEN;

// A file header, the header of a record, and that with the offload header behind it.
const FILE_HEAD: usize = 24;

const RECORD_HEAD: usize = 16;

const BOTH_HEADS: usize = RECORD_HEAD + OFF_HEAD2_LEN;

/// What merging writes of a capture, over any number of blocks, queues and taps, has no more bytes than `merge_bound`
/// of its length and of a number of records that it doesn't exceed.
pub fn merged_fits()
    ensures law { MergedFits }
{}

/// What segmenting writes of a capture has no more bytes than `segment_bound` of its length and of a number of packets
/// that its records don't exceed.
pub fn segmented_fits()
    ensures law { SegmentedFits }
{}

/// The most bytes that [`crate::offload_merge`] writes of a capture of `capture_length` bytes that has at most
/// `records` records: an offload header of 16 bytes more for each of them, and for each tap a window of at most `snap`
/// bytes behind 32, all windows no more than the capture. No more records are counted than there is room for, so a
/// number that isn't known may be any large one.
#[unsafe(no_mangle)]
pub extern "C" fn offload_merge_bound(
    capture_length: usize,
    records: usize,
    taps: u32,
    snap: u32,
) -> usize
    ensures bound { result ≡ min (merge_bound capture_length records taps snap) (2 ^ 64 - 1) }
{
    let most = records.min(capture_length.saturating_sub(FILE_HEAD) / RECORD_HEAD) as u128;
    let windows = most * (u128::from(taps) * u128::from(snap));
    let headers = most * (OFF_HEAD2_LEN as u128 + BOTH_HEADS as u128 * u128::from(taps));
    let all = capture_length as u128 + headers + windows.min(capture_length as u128);
    all.min(usize::MAX as u128) as usize
}

/// The most bytes that [`crate::offload_segment`] writes of a capture of `capture_length` bytes whose records stand for
/// at most `packets` packets: 216 more for each of them, its record's header and a frame's. No record stands for more
/// packets than it has bytes, so a number that isn't known may be any large one.
#[unsafe(no_mangle)]
pub extern "C" fn offload_segment_bound(capture_length: usize, packets: usize) -> usize
    ensures bound { result ≡ min (segment_bound capture_length packets) (2 ^ 64 - 1) }
{
    let most = packets.min(capture_length);
    capture_length.saturating_add(most.saturating_mul(216))
}
