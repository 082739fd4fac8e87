//! Runs compared with the packets of their flow.
ghost use Rattle.std.specs.Prelude.{◌≡◌, ◌+◌, ◌<◌, ◌≤◌, ◌^◌, ◌∷◌, [], ℕ, Option, List, length, map};
ghost use Rattle.std.specs.List.{AllByRecursion};
ghost use Rattle.pcap_io.specs.Capture.{Packet};
ghost use Rattle.skb.specs.Checksum.{AreBytes};
ghost use Rattle.offload_model.specs.Merged.{merged_of};
ghost use Rattle.segment_rule.specs.Segmentations.{segments_at};
ghost use Rattle.frame_runs.specs.Engine.{KnowsSome, Knows};
ghost use Rattle.frame_runs.specs.MergedRun.{headers_size};
ghost use Rattle.gro.specs.Slots.{packet_of as packet_in, IsHeld};
ghost use Rattle.taps.specs.Clones.{packet_of};
ghost use Rattle.check_totals.specs.Returned.{packets_in, is_same as is_same_packet};
ghost use Rattle.comparing.specs.Chain.{IsChain, IsOwn, Counts};
ghost use Rattle.comparing.specs.Segments.{IsCutTo, IsCutOf};
ghost use Rattle.comparing.specs.Items.{item_at, IsToCompare};

use crate::payload::Payload;
use crate::same::is_same;
use crate::segment::is_segment;
use frame_layout::shape;
use frame_runs::Run;
use gro::Slot;
use segment_rule::Segmentation;
use skb::FRONT;
use taps::TapClone;

// How the merged frame of a run of several packets is cut. Its layout is the first packet's.
fn cut_of(run: &Run, first: &Slot) -> Segmentation
    requires slot { IsHeld first.now }
    requires run { KnowsSome run.now (packet_in first.now) }
    requires several { 1 ≤ run.now.more }
    ensures cut { (rest : List Packet) → Knows run.now (packet_in first.now) rest
        → AllByRecursion (λ p. AreBytes p.frame) (packet_in first.now ∷ rest)
        → IsCutOf result (merged_of (packet_in first.now ∷ rest)) }
    ensures place { result.layout.payload_at ≡ headers_size run.now }
    ensures low { result.layout.payload_at ≤ 200 }
{
    let Some(layout) = shape(first.skb.head()) else {
        unreachable!()
    };
    let head = run.head(0, first);
    Segmentation {
        layout,
        n: head.n,
        m: head.m,
        modes: head.modes,
    }
}

// In how many places the segments of a merged frame are the flow's packets from a place on. `headers` are the frame's,
// and `payload` is its payload.
fn count_segments(
    cut: &Segmentation,
    headers: &[u8],
    payload: &Payload<'_>,
    kept: &[TapClone],
    kept_next: &[usize],
    at: &mut usize,
) -> u64
    requires low { length headers.now ≤ 200 }
    requires of { (f : List ℕ) × IsCutTo cut.now f headers.now 0 payload.now }
    requires chain { IsChain (map packet_of kept.now) kept_next.now }
    ensures counts { (f : List ℕ) → IsCutTo cut.now f headers.now 0 payload.now
        → (q : Option (List ℕ)) (p : Packet) → p.frame ≡ f → IsOwn (map packet_of kept.now) q at.old
        → Counts (map packet_of kept.now) q at.old (segments_at cut.now p) at.new result }
    ensures few { result < 2 ^ 32 }
{
    let mut payload = payload.again();
    let mut count = 0u64;
    for i in 0..cut.n {
        if *at >= kept.len() {
            return count;
        }
        let is_same = is_segment(cut, headers, &mut payload, i, &kept[*at]);
        count += u64::from(is_same);
        *at = kept_next[*at];
    }
    count
}

// In how many places the segments of what several packets come to are the flow's packets from a place on.
fn count_merged(
    packets: &[Slot],
    next: &[u32],
    run: &Run,
    kept: &[TapClone],
    kept_next: &[usize],
    at: &mut usize,
) -> u64
    requires run { IsToCompare packets.now next.now run.now }
    requires several { 1 ≤ run.now.more }
    requires chain { IsChain (map packet_of kept.now) kept_next.now }
    ensures counts { (q : Option (List ℕ)) → IsOwn (map packet_of kept.now) q at.old
        → Counts (map packet_of kept.now) q at.old (packets_in (item_at packets.now next.now run.now)) at.new result }
    ensures few { result < 2 ^ 32 }
{
    let first = &packets[run.first as usize];
    let cut = cut_of(run, first);
    let place = cut.layout.payload_at();
    let mut front = [0u8; FRONT];
    let headers = &mut front[..place];
    run.put_headers(first, headers);
    let payload = Payload::of_run(packets, next, run);
    count_segments(&cut, headers, &payload, kept, kept_next, at)
}

// Whether a packet is the one of a clone.
fn is_packet(packet: &Slot, clone: &TapClone) -> bool
    ensures same { result ≡ is_same_packet (packet_in packet.now) (packet_of clone.now) }
{
    if packet.original != clone.original {
        return false;
    }
    is_same(&packet.skb, &clone.skb)
}

// Whether a packet is the flow's packet at a place.
fn count_packet(packet: &Slot, kept: &[TapClone], kept_next: &[usize], at: &mut usize) -> u64
    requires chain { IsChain (map packet_of kept.now) kept_next.now }
    ensures counts { (q : Option (List ℕ)) → IsOwn (map packet_of kept.now) q at.old
        → Counts (map packet_of kept.now) q at.old (packet_in packet.now ∷ []) at.new result }
    ensures few { result ≤ 1 }
{
    if *at >= kept.len() {
        return 0;
    }
    let is_same = is_packet(packet, &kept[*at]);
    *at = kept_next[*at];
    u64::from(is_same)
}

/// In how many places the packets that a run comes to stand for are the flow's packets from a place on, which goes on
/// behind them: a packet that is alone for itself, and a merged frame for its segments.
pub(crate) fn count_packets(
    packets: &[Slot],
    next: &[u32],
    run: &Run,
    kept: &[TapClone],
    kept_next: &[usize],
    at: &mut usize,
) -> u64
    requires run { IsToCompare packets.now next.now run.now }
    requires chain { IsChain (map packet_of kept.now) kept_next.now }
    ensures counts { (q : Option (List ℕ)) → IsOwn (map packet_of kept.now) q at.old
        → Counts (map packet_of kept.now) q at.old (packets_in (item_at packets.now next.now run.now)) at.new result }
    ensures few { result < 2 ^ 32 }
{
    if run.more == 0 {
        return count_packet(&packets[run.first as usize], kept, kept_next, at);
    }
    count_merged(packets, next, run, kept, kept_next, at)
}
