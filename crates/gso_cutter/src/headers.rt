//! A segment's headers, in the block of a spare.

ghost use Rattle.std.specs.Prelude.{◌≡◌, ◌+◌, ◌*◌, ◌<◌, ◌≤◌, ◌^◌, ◌++◌, ℕ, List, length, take};
ghost use Rattle.skb.specs.Fronts.{front_of};
ghost use Rattle.inet_sum.specs.Stands.{StandsFor};
ghost use Rattle.frame_layout.specs.Headers.{AtHeaders, AreLaid};
ghost use Rattle.offload_model.specs.Mergeable.{IsLengthInRange};
ghost use Rattle.segment_rule.specs.Segmentations.{segment_from};

use inet_sum::Partial;
use raw_block::Sole;
use segment_rule::Segmentation;
use skb::HEADROOM;

/// The headers of segment `i` stand in a block behind its headroom, made from the merged frame's.
pub(crate) fn put_headers(
    block: &mut Sole,
    head: &[u8],
    cut: &Segmentation,
    i: u32,
    payload: Partial,
)
    requires there { i < cut.now.n }
    requires laid { AreLaid 0 cut.now.layout.headers cut.now.layout.payload_at }
    requires low { cut.now.layout.payload_at ≤ 200 }
    requires inside { cut.now.layout.payload_at ≤ length head.now }
    requires ranges { AtHeaders (IsLengthInRange (cut.now.layout.payload_at + payload.len)) cut.now.layout.headers }
    requires few { cut.now.layout.payload_at + payload.len < 2 ^ 31 }
    requires near { i * cut.now.m < 2 ^ 32 }
    ensures segment { (bytes : List ℕ)
        → StandsFor payload bytes
        → front_of block.new cut.now.layout.payload_at ++ bytes
        ≡ segment_from cut.now i (take cut.now.layout.payload_at head.now ++ bytes) }
    ensures size { length block.new.bytes ≡ 2048 }
    ensures mark { block.new.mark ≡ block.old.mark }
    ensures block { block.new.block ≡ block.old.block }
{
    let at = cut.layout.payload_at();
    let _ = block.bytes();
    let range = block.range_mut(HEADROOM, HEADROOM + at);
    range.copy_from_slice(&head[..at]);
    cut.put_headers(range, i, payload);
}
