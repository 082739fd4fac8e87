//! The test of a whole record.

ghost use Rattle.std.specs.Prelude.{◌≡◌, ℕ, ◌+◌, ◌≤◌, ◌++◌, List, length, true, Some};
ghost use Rattle.pcap_io.specs.Capture.{packet};
ghost use Rattle.pcap_io.specs.Headers.{head_size};
ghost use Rattle.frame_layout.specs.Headers.{AtHeaders, size};
ghost use Rattle.frame_layout.specs.Segment.{IsSegOf};
ghost use Rattle.offload_model.specs.Tests.{is_lawful_single, is_lawful_window, is_opened_by};
ghost use Rattle.segment_rule.specs.Segmentations.{HasNumbersOf, IsJudged, is_filled as is_filled_by, is_merged_head};

use crate::modes::are_modes_lawful;
use crate::segmentation::Segmentation;
use frame_layout::Seg;
use pcap_io::{AnyHead, FRAME_LIMIT, OffHead2};

/// The record isn't lawful.
#[derive(Clone, Copy, Debug, PartialEq, Eq)]
pub struct BadOffload;

/// Whether a record may begin with the header, which has this original length, and behind its header a frame of `len`
/// bytes: its version is 1 or 2, and the frame is no longer than one of a capture.
pub fn is_opened(head: &AnyHead, len: u32, original: u32) -> bool
    ensures opened { result ≡ is_opened_by head.now (head_size head.now + len) original }
{
    let size = u64::from(head.size());
    let all = size + u64::from(len);
    let original = u64::from(original);
    head.says_version()
        && (size <= all
            && (all <= size + u64::from(FRAME_LIMIT)
                && (size <= original && original < size + (1 << 31))))
}

/// Whether the header is a single packet's.
pub fn is_single(head: &OffHead2) -> bool
    ensures single { result ≡ is_lawful_single head.now }
{
    head.kind == 0 && (head.n == 1 && (head.m == 0 && (head.modes == 0 && head.lane <= 63)))
}

/// Whether the header is a tap window's.
pub fn is_window(head: &OffHead2) -> bool
    ensures window { result ≡ is_lawful_window head.now }
{
    head.kind == 2 && (head.n == 0 && (head.m == 0 && (head.modes == 0 && head.lane <= 7)))
}

/// Whether the header is a merged frame's, as far as it says so itself.
pub fn is_merged(head: &OffHead2) -> bool
    ensures merged { result ≡ is_merged_head head.now }
{
    head.kind == 1 && head.lane <= 63
}

/// Whether n segments of m bytes each but the last hold the payload, and fewer don't.
fn is_filled(n: u32, m: u32, payload: u32) -> bool
    ensures filled { result ≡ is_filled_by n m payload }
{
    if n < 2 {
        return false;
    }
    let (n, m) = (u64::from(n), u64::from(m));
    m >= 1 && ((n - 1) * m < u64::from(payload) && u64::from(payload) <= n * m)
}

/// How a candidate is segmented as its offload header says, whose first bytes are `front`, at least all headers.
///
/// None where the header's numbers don't suit it: fewer than n segments of m bytes hold its payload or more are wanted,
/// n is below 2, or the modes have a bit for another header than IPv4's with "don't fragment".
pub fn segmentation_of(head: &OffHead2, front: &[u8], seg: Seg) -> Option<Segmentation>
    requires merged { is_merged_head head.now ≡ true }
    requires there { AtHeaders (λ layer at. at + size layer ≤ length front.now) seg.layout.headers }
    ensures judged { (original : ℕ) (rest : List ℕ)
        → IsSegOf (front.now ++ rest) original (Some seg)
        → IsJudged head.now (packet 0 0 0 original (front.now ++ rest)) result }
{
    if !is_filled(head.n, head.m, seg.payload_len) {
        return None;
    }
    if !are_modes_lawful(front, seg.layout.headers(), head.modes) {
        return None;
    }
    Some(with_numbers(head, seg))
}

/// The segmentation with the header's numbers.
fn with_numbers(head: &OffHead2, seg: Seg) -> Segmentation
    ensures numbers { HasNumbersOf head.now result }
    ensures layout { result.layout ≡ seg.layout }
{
    Segmentation {
        layout: seg.layout,
        n: head.n,
        m: head.m,
        modes: head.modes,
    }
}
