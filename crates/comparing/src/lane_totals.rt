//! All lanes of a round.
ghost use Rattle.std.specs.Prelude.{◌≡◌, ◌<◌, ◌^◌, ℕ, List, Option, length, map, IfOk, IfSome};
ghost use Rattle.std.specs.List.{AllByRecursion};
ghost use Rattle.offload_model.specs.Captured.{AreCaptured};
ghost use Rattle.offload_model.specs.Written.{Options, shown_of};
ghost use Rattle.taps.specs.Clones.{packet_of};
ghost use Rattle.lanes.specs.Work.{AreMerged, AreWatched, merged_in};
ghost use Rattle.comparing.specs.Compared.{compared_lanes, AreShortTaps};
ghost use Rattle.check_totals.specs.Counts.{round_totals};
ghost use Rattle.comparing.specs.KeptFlows.{AreFlows};
ghost use Rattle.check_totals.specs.Returned.{Lefts, flows_of, behind_items};
ghost use Rattle.comparing.specs.Items.{AreLeft, MayCompare, totals_by, totals_of_items};
ghost use Rattle.comparing.specs.Texts.{text_bytes, IsShort, tap_totals_of, totals_of_texts};

use crate::items::check_items;
use crate::kept_flows::KeptFlows;
use check_totals::{QueueTotals, TapTotals, Totals};
use lanes::{Lanes, QueueLane, TapLane};
use std::alloc::{AllocError, Global};
use taps::{TapClone, TapTexts};

// The totals of a queue.
fn check_queue(lane: &QueueLane, kept: &[TapClone], flows: &mut KeptFlows) -> QueueTotals
    requires lane { MayCompare lane.now }
    requires flows { AreFlows (map packet_of kept.now) flows.old }
    ensures flows { AreFlows (map packet_of kept.now) flows.new }
    ensures totals { (left : Lefts) → AreLeft (map packet_of kept.now) flows.old left
        → (result ≡ totals_of_items left (merged_in lane.now))
        × AreLeft (map packet_of kept.now) flows.new (behind_items left (merged_in lane.now)) }
{
    let engine = &lane.engine;
    check_items(
        lane.packets.slots(),
        &engine.next,
        &engine.runs,
        kept,
        flows,
    )
}

// The totals of all queues.
fn check_queues(
    alloc: Global,
    lanes: &[QueueLane],
    kept: &[TapClone],
    flows: &mut KeptFlows,
) -> Result<Vec<QueueTotals>, AllocError>
    requires lanes { AllByRecursion MayCompare lanes.now }
    requires flows { AreFlows (map packet_of kept.now) flows.old }
    requires left { AreLeft (map packet_of kept.now) flows.old (flows_of (map packet_of kept.now)) }
    ensures totals { IfOk result (λ totals. totals.items
        ≡ totals_by (flows_of (map packet_of kept.now)) (map merged_in lanes.now)) }
{
    let mut totals = Vec::with_capacity(alloc, lanes.len())?;
    for i in 0..lanes.len() {
        totals.push_reserved(check_queue(&lanes[i], kept, flows));
    }
    Ok(totals)
}

// How many windows a tap has read, and their bytes.
fn count_texts(texts: &TapTexts) -> TapTotals
    requires few { text_bytes texts.now < 2 ^ 62 }
    ensures totals { result ≡ tap_totals_of texts.now }
{
    let mut bytes = 0u64;
    for i in 0..texts.len() {
        bytes += texts.get(i).bytes.len() as u64;
    }
    TapTotals {
        windows: texts.len() as u64,
        bytes,
    }
}

// The totals of a tap.
fn check_tap(lane: &TapLane) -> TapTotals
    requires short { IfSome lane.now.texts IsShort }
    ensures totals { result ≡ totals_of_texts lane.now.texts }
{
    match &lane.texts {
        Some(texts) => count_texts(texts),
        None => TapTotals {
            windows: 0,
            bytes: 0,
        },
    }
}

// The totals of all taps.
fn check_taps(alloc: Global, lanes: &[TapLane]) -> Result<Vec<TapTotals>, AllocError>
    requires short { AreShortTaps lanes.now }
    ensures totals { IfOk result (λ totals. totals.items ≡ map (λ l. totals_of_texts l.texts) lanes.now) }
{
    let mut totals = Vec::with_capacity(alloc, lanes.len())?;
    for i in 0..lanes.len() {
        totals.push_reserved(check_tap(&lanes[i]));
    }
    Ok(totals)
}

/// Compares what the lanes of a round came to with the packets that went in, of which `kept` are clones.
///
/// The packets that a run stands for, its own or the segments of its merged frame, are compared one by one with the
/// packets of its flow in their places, byte for byte and in original length: the frame is cut by its headers and by
/// the places of its payloads alone, so no buffer changes and no payload is copied. `AllocError` where there is no
/// memory for the totals or for the places of the flows.
pub fn check_lanes(alloc: Global, lanes: &Lanes, kept: &[TapClone]) -> Result<Totals, AllocError>
    requires lanes { AllByRecursion MayCompare lanes.now.queues.items }
    requires short { AreShortTaps lanes.now.taps.items }
    ensures compared { IfOk result (λ totals. totals ≡ compared_lanes lanes.now (map packet_of kept.now)) }
    ensures totals { (o : Options) → AreCaptured (map packet_of kept.now)
        → ((key : Option (List ℕ)) → o.spread key < o.queues)
        → o.queues ≡ length lanes.now.queues.items → o.taps ≡ length lanes.now.taps.items
        → AreMerged o.segs o.spread (length lanes.now.queues.items) (map packet_of kept.now) lanes.now.queues.items
        → AreWatched o.snap (length lanes.now.taps.items)
        (map (shown_of o.filter) (map packet_of kept.now)) lanes.now.taps.items
        → IfOk result (λ totals. totals ≡ round_totals o (map packet_of kept.now)) }
{
    let mut flows = KeptFlows::of(alloc, kept)?;
    let queues = check_queues(alloc, &lanes.queues, kept, &mut flows)?;
    let taps = check_taps(alloc, &lanes.taps)?;
    Ok(Totals { queues, taps })
}
