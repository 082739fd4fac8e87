//! Why a frame can't be merged.
ghost use Rattle.std.specs.Prelude.{◌≡◌, ◌↔◌, ◌<◌, ◌^◌, ℕ, true, Some, length};
ghost use Rattle.frame_causes.specs.Causes.{cause_of, layout_cause};
ghost use Rattle.frame_causes.specs.declared.cause.Cause.TheVariants.{Mergeable};
ghost use Rattle.frame_layout.specs.Candidate.{IsCandidate};
ghost use Rattle.frame_layout.specs.Shape.{Layout as LayoutOf, shape_of};
ghost use Rattle.net_bytes.specs.Bytes.{byte};

use crate::cause::Cause;
use crate::flags::are_flags_plain;
use crate::network::shape_cause;
use frame_layout::{Layout, candidate, shape};
use inet_sum::Partial;
use wire_fill::are_lengths_right;

/// What a slice holds are bytes.
pub(crate) fn in_bytes(bytes: &[u8]) -> &[u8]
    ensures same { result.now ≡ bytes.now }
    ensures in_bytes { (k : ℕ) → byte result.now k < 256 }
{
    bytes
}

/// Whether a frame may be merged, of which all is known but its sums.
fn is_candidate(frame: &[u8]) -> bool
    requires few { length frame.now < 2 ^ 32 }
    ensures candidate { (result ≡ true) ↔ ((layout : LayoutOf) × ((shape_of frame.now ≡ Some layout)
        × IsCandidate frame.now (length frame.now) layout)) }
{
    let front = in_bytes(frame);
    let len = front.len() as u32;
    match candidate(front, &Partial::new(), len, len) {
        Some(_) => true,
        None => false,
    }
}

/// Why a frame of this layout, which was captured whole, can't be merged.
fn layout_why(frame: &[u8], layout: &Layout) -> Cause
    requires shape { shape_of frame.now ≡ Some layout.now }
    requires few { length frame.now < 2 ^ 32 }
    ensures cause { result ≡ layout_cause frame.now layout.now }
{
    let headers = layout.headers();
    if !are_lengths_right(frame, frame.len(), headers) {
        return Cause::Length;
    }
    if !are_flags_plain(frame, headers) {
        return Cause::Flags;
    }
    if frame.len() <= layout.payload_at() {
        return Cause::Empty;
    }
    if !is_candidate(frame) {
        return Cause::Sum;
    }
    Cause::Mergeable
}

/// Why a frame that had `original` bytes before it was captured can't be merged: the first condition that fails.
pub fn why(frame: &[u8], original: u32) -> Cause
    ensures cause { result ≡ cause_of frame.now original }
    ensures candidate { (result ≡ Mergeable) ↔ ((layout : LayoutOf) × ((shape_of frame.now ≡ Some layout)
        × IsCandidate frame.now original layout)) }
{
    if frame.len() != original as usize {
        return Cause::Cut;
    }
    match shape(frame) {
        Some(layout) => layout_why(frame, &layout),
        None => shape_cause(frame),
    }
}
