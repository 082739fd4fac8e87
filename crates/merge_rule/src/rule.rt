//! Whether a frame continues a run, and what the run comes to with it, by first bytes and lengths.
ghost use Rattle.std.specs.Prelude.{◌≡◌, ◌==◌, ◌&&◌, ◌+◌, ◌<◌, ◌≤◌, ◌^◌, ℕ, List, Some, length};
ghost use Rattle.std.specs.Bool.{Decides};
ghost use Rattle.frame_layout.specs.Headers.{all_headers, ip_count};
ghost use Rattle.offload_model.specs.Tests.{is_ack_alone as is_ack_alone_of};
ghost use Rattle.merge_rule.specs.Next.{AreInside, HasHead, IsNext, IsNextBy};
ghost use Rattle.merge_rule.specs.Plain.{AreHeadersNext};
ghost use Rattle.merge_rule.specs.Runs.{IsPlaced, IsFirstProgress, IsNextProgress, AreNextModes};

use crate::alike::are_alike;
use crate::next::{are_next, are_next_ids, is_ack_alone, modes_of};
use crate::plain::{are_plain_next, are_plain6_next};
use frame_layout::{Header, Layout};
use pcap_io::FRAME_LIMIT;

/// What a run has come to.
#[derive(Clone, Copy)]
pub struct Progress {
    /// The length of its merged frame, in bytes: the headers once and all payloads.
    pub total: usize,
    /// Whether it may take one more packet.
    pub is_open: bool,
    /// A bit for each IP header, the lowest for the first, set where that is IPv4 and its identification stays.
    pub modes: u8,
}

/// What the rule asks of the headers. Most packets have those that lie at fixed places.
fn are_headers_next(
    layout: &Layout,
    first: &[u8],
    next: &[u8],
    further: u32,
    total: usize,
    count: usize,
    modes: u8,
) -> bool
    requires placed { IsPlaced layout.now }
    requires first { layout.now.payload_at ≤ length first.now }
    requires next { layout.now.payload_at ≤ length next.now }
    ensures next { Decides result (AreHeadersNext first.now next.now layout.now.payload_at further total count modes
        layout.now.headers) }
{
    let end = layout.payload_at();
    if layout.is_plain() {
        return are_plain_next(first, next, end, further, total, count, modes);
    }
    if layout.is_plain6() {
        return are_plain6_next(first, next, end, further, total, count, modes);
    }
    let headers = layout.headers();
    are_alike(first, next, headers, end)
        && are_next(first, next, further, total, headers)
        && are_next_ids(first, next, count, modes, headers)
}

/// The rule, of first bytes and lengths.
fn continues(
    layout: &Layout,
    first: &[u8],
    first_len: usize,
    count: usize,
    progress: &Progress,
    next: &[u8],
    next_len: usize,
) -> bool
    requires placed { IsPlaced layout.now }
    requires first { layout.now.payload_at ≤ length first.now }
    requires next { layout.now.payload_at ≤ next_len → layout.now.payload_at ≤ length next.now }
    requires behind { layout.now.payload_at ≤ progress.now.total }
    requires total { progress.now.total < 2 ^ 31 }
    requires few { next_len < 2 ^ 31 }
    ensures next { Decides result (IsNextBy layout.now first.now first_len count progress.now.total progress.now.modes
        next.now next_len) }
{
    let at = layout.payload_at();
    if next_len > first_len || next_len < at {
        return false;
    }
    let further = (progress.total - at) as u32;
    let total = progress.total + (next_len - at);
    total <= FRAME_LIMIT as usize
        && are_headers_next(layout, first, next, further, total, count, progress.modes)
}

/// Whether a frame of `next_len` bytes that begins with `next` continues an open run of `count` packets, the first of
/// which has `first_len` bytes and begins with `first`. The headers are among these first bytes.
pub fn is_next(
    layout: &Layout,
    first: &[u8],
    first_len: usize,
    count: usize,
    progress: &Progress,
    next: &[u8],
    next_len: usize,
) -> bool
    requires placed { IsPlaced layout.now }
    requires first { layout.now.payload_at ≤ length first.now }
    requires next { layout.now.payload_at ≤ next_len → layout.now.payload_at ≤ length next.now }
    requires behind { layout.now.payload_at ≤ progress.now.total }
    requires total { progress.now.total < 2 ^ 31 }
    requires few { next_len < 2 ^ 31 }
    ensures next { (f g : List ℕ) → HasHead first.now first_len f → HasHead next.now next_len g
        → Decides result (IsNext layout.now f count progress.now.total progress.now.modes g) }
{
    continues(layout, first, first_len, count, progress, next, next_len)
}

/// Whether there may be a packet behind a frame that begins with `next`, in a run whose first packet has `first_len`
/// bytes.
#[inline(always)]
fn stays_open(first_len: usize, next: &[u8], next_len: usize, layout: &Layout) -> bool
    requires there { AreInside (length next.now) layout.now.headers }
    ensures open { result
        ≡ (next_len == first_len && all_headers (is_ack_alone_of next.now) layout.now.headers) }
{
    next_len == first_len && is_ack_alone(next, layout)
}

/// A bit for each IP header whose identification stays. The second packet settles them.
#[inline(always)]
fn next_modes(first: &[u8], next: &[u8], headers: &[Header], more: usize, modes: u8) -> u8
    requires first { AreInside (length first.now) headers.now }
    requires next { AreInside (length next.now) headers.now }
    requires few { ip_count headers.now ≤ 2 }
    ensures modes { AreNextModes first.now more next.now headers.now modes result }
{
    if more == 0 {
        return modes_of(first, next, headers);
    }
    modes
}

/// What a run of one packet has come to, which has `first_len` bytes and begins with `first`.
pub fn first_progress(layout: &Layout, first: &[u8], first_len: usize) -> Progress
    requires placed { IsPlaced layout.now }
    requires first { layout.now.payload_at ≤ length first.now }
    ensures progress { (f : List ℕ) → HasHead first.now first_len f → IsFirstProgress (Some layout.now) f result }
{
    Progress {
        is_open: is_ack_alone(first, layout),
        total: first_len,
        modes: 0,
    }
}

/// What a run comes to with one more packet, which it takes. `more` packets follow its first so far.
#[inline(always)]
pub fn next_progress(
    layout: &Layout,
    first: &[u8],
    first_len: usize,
    more: usize,
    progress: &Progress,
    next: &[u8],
    next_len: usize,
) -> Progress
    requires placed { IsPlaced layout.now }
    requires first { layout.now.payload_at ≤ length first.now }
    requires next { layout.now.payload_at ≤ length next.now }
    requires there { layout.now.payload_at ≤ next_len }
    requires total { progress.now.total + next_len < 2 ^ 32 }
    ensures progress { (f g : List ℕ) → HasHead first.now first_len f → HasHead next.now next_len g
        → IsNextProgress (Some layout.now) f more g progress.now result }
{
    Progress {
        is_open: stays_open(first_len, next, next_len, layout),
        total: progress.total + (next_len - layout.payload_at()),
        modes: next_modes(first, next, layout.headers(), more, progress.modes),
    }
}
