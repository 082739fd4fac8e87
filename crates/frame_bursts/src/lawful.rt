//! What a burst has to be.
ghost use Rattle.std.specs.Prelude.{◌≡◌, ℕ, ◌+◌, ◌<◌, ◌≤◌, length, map, take, slice_index_or};
ghost use Rattle.std.specs.Bool.{Decides};
ghost use Rattle.offload_model.specs.Captured.{AreCaptured, IsCaptured};
ghost use Rattle.frame_runs.specs.Frames.{AreBytes};
ghost use Rattle.frame_runs.specs.declared.lent.Lent.{Lent as LentOf};
ghost use Rattle.frame_bursts.specs.Burst.{AreLawful, AreFrames};
ghost use Rattle.frame_bursts.specs.Links.{framed, in_frame};

use crate::link::Link;
use frame_runs::Lent;
use offload_model::Limits;

/// What no frame is longer than, in bytes.
const MOST_FRAME: usize = 262_144;

/// What an original length is less than: 2^31.
const ORIGINALS: u32 = 0x8000_0000;

/// A frame of a list.
#[inline(always)]
pub(crate) fn frame_at<'a>(frames: &[Lent<'a>], k: usize) -> Lent<'a>
    requires below { k < length frames.now }
    ensures frame { (d : LentOf) → result ≡ slice_index_or frames.now k d }
{
    frames[k]
}

/// How many bytes a frame has, and that they are bytes.
fn len_in_bytes(bytes: &[u8]) -> usize
    ensures len { result ≡ length bytes.now }
    ensures in_bytes { AreBytes bytes.now }
{
    bytes.len()
}

/// How many bytes of a frame's Ethernet header a packet hasn't.
fn missing(link: Link) -> u8
    ensures missing { (n : ℕ) → in_frame link n ≡ n + result }
    ensures few { result ≤ 14 }
{
    match link {
        Link::Ethernet => 0,
        Link::RawIp => 14,
    }
}

/// Whether a packet is merged as a frame that a capture may have.
fn is_captured(link: Link, packet: &Lent<'_>) -> bool
    ensures captured { Decides result (IsCaptured (framed link packet.now)) }
{
    let missing = missing(link);
    let len = len_in_bytes(packet.bytes);
    if len > MOST_FRAME - missing as usize {
        return false;
    }
    if packet.original >= ORIGINALS - missing as u32 {
        return false;
    }
    true
}

/// Whether each packet is merged as a frame that a capture may have, and their numbers rise, where the first `from` are
/// known to be such.
pub(crate) fn are_frames(link: Link, frames: &[Lent<'_>], from: usize) -> bool
    requires known { AreCaptured (take from (map (framed link) frames.now)) }
    ensures frames { Decides result (AreFrames link frames.now) }
{
    for i in from..frames.len() {
        let frame = frame_at(frames, i);
        if !is_captured(link, &frame) {
            return false;
        }
        if i > 0 {
            let before = frame_at(frames, i - 1);
            if before.number >= frame.number {
                return false;
            }
        }
    }
    true
}

/// Whether a burst may be merged into runs within limits.
pub(crate) fn are_lawful(link: Link, limits: Limits, frames: &[Lent<'_>]) -> bool
    ensures lawful { Decides result (AreLawful link limits frames.now) }
{
    (1..=4096).contains(&limits.segs) && frames.len() <= 65_535 && are_frames(link, frames, 0)
}
