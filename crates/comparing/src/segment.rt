//! Segments of a merged frame, compared with packets: nothing is cut and no payload is copied.
ghost use Rattle.std.specs.Prelude.{◌≡◌, ◌+◌, ◌<◌, ◌≤◌, ℕ, List, Decides, length};
ghost use Rattle.skb.specs.SkbState.{buffer_bytes};
ghost use Rattle.segment_rule.specs.Segmentations.{segment_at};
ghost use Rattle.comparing.specs.Segments.{IsCutTo};

use crate::payload::Payload;
use crate::same::is_frame;
use segment_rule::Segmentation;
use skb::FRONT;
use taps::TapClone;

/// Whether segment `i` is the packet of a clone, in bytes and in original length. `headers` are those of the merged
/// frame, and `payload` is what isn't cut of its payload, of which the segment's is passed.
pub(crate) fn is_segment(
    cut: &Segmentation,
    headers: &[u8],
    payload: &mut Payload<'_>,
    i: u32,
    clone: &TapClone,
) -> bool
    requires there { i < cut.now.n }
    requires low { length headers.now ≤ 200 }
    requires of { (f : List ℕ) × IsCutTo cut.now f headers.now i payload.old }
    ensures same { (f : List ℕ) → IsCutTo cut.now f headers.now i payload.old
        → Decides result ((clone.now.original ≡ length (segment_at cut.now f i))
        × (buffer_bytes clone.now.skb ≡ segment_at cut.now f i)) }
    ensures next { (f : List ℕ) → IsCutTo cut.now f headers.now i payload.old
        → IsCutTo cut.now f headers.now (i + 1) payload.new }
{
    let n = (cut.m as usize).min(payload.len());
    let own = payload.again();
    let sum = payload.sum_next(n);
    let mut front = [0u8; FRONT];
    let header = &mut front[..headers.len()];
    header.copy_from_slice(headers);
    cut.put_headers(header, i, sum);
    if clone.original as usize != header.len() + n {
        return false;
    }
    is_frame(&clone.skb, header, &own, n)
}
