//! The work of a round, over all its lanes.
ghost use Rattle.std.specs.Prelude.{◌≡◌, ℕ, ◌+◌, ◌≤◌, true, List, [], length, map, All, OnOk, OnErr, MatchResult};
ghost use Rattle.std.specs.Prelude.{Bool, IsSome};
ghost use Rattle.frags.specs.Account.{Keeps, KeepsBlocks, both};
ghost use Rattle.std.specs.List.{filter};
ghost use Rattle.offload_model.specs.Rounds.{is_queued};
ghost use Rattle.offload_model.specs.Written.{round_records};
ghost use Rattle.gro.specs.declared.slot.Slot.{Slot as Held};
ghost use Rattle.gro.specs.Slots.{packet_of, of_packets, counts_of, weighed_slots};
ghost use Rattle.gro.specs.Slots.{AreAlone, AreHeld, AreShared, WeighAtLeast};
ghost use Rattle.block_pool.specs.Giving.{LeavesNone, MayGive};
ghost use Rattle.lanes.specs.Clones.{weight_after};
ghost use Rattle.lanes.specs.Filling.{AreReady, CanFill};
ghost use Rattle.lanes.specs.Lanes.{of_lanes, counts_of_queues, weighed_queues};
ghost use Rattle.lanes.specs.Lanes.{AreIdle, IsIdleTap, IsMerged, IsTapReady};
ghost use Rattle.lanes.specs.Packets.{RiseFrom};
ghost use Rattle.lanes.specs.Sharing.{EachFrom};
ghost use Rattle.lanes.specs.Soles.{AreOfPackets, HaveNoSoles};
ghost use Rattle.lanes.specs.Work.{spread_of, options_by, shown_by, IsPlan, IsToWork, AreFilled, AreMerged};
ghost use Rattle.lanes.specs.Work.{AreWatched, Did, Fills, IsDone, IsRefused, IsUncloned, MayWatch, lane_records};

use crate::fill::{give_all_up, open_lanes, serve_taps};
use crate::lane::{Lanes, TapLane};
use crate::plan::LanePlan;
use crate::share::share_out;
use crate::soles::check_soles;
use crate::works::Works;
use block_pool::Giver;
use gro::Packets;
use std::alloc::{AllocError, Global};

// The lanes get what they have to do: first the taps, then the packets, and memory for each. Where memory is refused,
// what isn't in `packets` any more is in the lanes.
fn fill<W: Works>(
    works: &W,
    alloc: Global,
    plan: &LanePlan,
    shared: bool,
    packets: &mut Packets,
    lanes: &mut Lanes,
) -> Result<(), AllocError>
    requires may { CanFill shared plan.now packets.old.items lanes.old }
    ensures fills { Fills shared plan.now packets.old.items packets.new.items lanes.new }
    ensures ready { All IsTapReady lanes.new.taps.items }
    ensures queues { OnOk result (EachFrom (IsToWork (spread_of plan.now) (map packet_of packets.old.items)) 0
        lanes.new.queues.items) }
    ensures taps { OnOk result (EachFrom (MayWatch shared plan.now (map packet_of packets.old.items)) 0
        lanes.new.taps.items) }
    ensures size { OnOk result ((length lanes.new.queues.items ≡ plan.now.queues)
        × (length lanes.new.taps.items ≡ plan.now.taps)) }
    ensures all { OnOk result (packets.new.items ≡ []) }
{
    open_lanes(alloc, plan, lanes)?;
    serve_taps(works, plan, shared, &mut lanes.taps, packets)?;
    share_out(packets, plan, &mut lanes.queues)
}

// Whether each tap has read its windows.
fn are_read(lanes: &[TapLane]) -> bool
    ensures read { result ≡ true → All (λ t. IsSome t.texts) lanes.now }
{
    for lane in lanes {
        if lane.texts.is_none() {
            return false;
        }
    }
    true
}

// The lanes get what they have to do. Where memory is refused they have no clones, and no tap has a Sole.
fn begin<W: Works>(
    works: &W,
    alloc: Global,
    plan: &LanePlan,
    shared: bool,
    packets: &mut Packets,
    lanes: &mut Lanes,
) -> Result<(), AllocError>
    requires may { CanFill shared plan.now packets.old.items lanes.old }
    ensures filled { OnOk result (AreFilled shared plan.now packets.old.items lanes.new) }
    ensures ready { OnOk result (AreReady lanes.new) }
    ensures all { OnOk result (packets.new.items ≡ []) }
    ensures refused { OnErr result (IsRefused shared plan.now packets.old.items packets.new.items lanes.new) }
    ensures no_soles { OnErr result (HaveNoSoles lanes.new.taps.items) }
{
    match fill(works, alloc, plan, shared, packets, lanes) {
        Ok(()) => Ok(()),
        Err(error) => {
            give_all_up(&mut lanes.taps);
            check_soles(packets, lanes);
            Err(error)
        }
    }
}

// What the lanes say after their work: all of it is done, or a tap was refused memory. No tap has a Sole.
fn finish(packets: &mut Packets, lanes: &mut Lanes) -> Result<(), AllocError>
    requires theirs { AreOfPackets packets.old.items lanes.old }
    ensures ended { (shared : Bool) (plan : LanePlan) (old : List Held) (before : Lanes)
        → AreFilled shared plan old before → Did plan before lanes.old
        → MatchResult result (λ _. IsDone shared plan old lanes.new) (λ _. IsRefused shared plan old [] lanes.new) }
    ensures no_soles { HaveNoSoles lanes.new.taps.items }
    ensures packets { packets.new ≡ packets.old }
{
    check_soles(packets, lanes);
    if are_read(&lanes.taps) {
        Ok(())
    } else {
        Err(AllocError)
    }
}

/// The work of a round in lanes that are idle, by whoever works them. Each packet goes to the queue of its flow; where
/// there is one queue their list is the lane's. Before any worker starts each tap that others read for is given a
/// clone of every packet, where their heads are shared; else it reads each where it lies, and no block is shared for
/// it. Each worker and each tap passes the gate at point 0 before its work and at point 1 after it. One clone of each
/// packet may have been kept before, by [`keep_packets`](crate::keep_packets). What lies in the giver's list is no
/// block of the packets: it may go back to its pool as soon as a lane is worked, and what doesn't stays there. By who
/// gives (`Works::gives`) all of it goes back, unless a put finds no place.
///
/// For want of memory what isn't in `packets` any more is in the lanes. Where they are as many as the plan has, their
/// memory serves.
pub fn work_packets<W: Works>(
    works: &mut W,
    alloc: Global,
    packets: &mut Packets,
    plan: &LanePlan,
    shared: bool,
    lanes: &mut Lanes,
    giver: &mut Option<Giver>,
) -> Result<(), AllocError>
    requires plan { IsPlan plan.now }
    requires held { AreHeld packets.old.items }
    requires shared { shared ≡ true → 1 ≤ plan.now.taps → AreShared packets.old.items }
    requires weighs { WeighAtLeast (weight_after 1) packets.old.items }
    requires rising { RiseFrom 0 (map packet_of packets.old.items) }
    requires few { counts_of packets.old.items ≤ 65536 }
    requires idle { AreIdle lanes.old }
    ensures lanes { OnOk result (AreMerged plan.now.segs (spread_of plan.now) plan.now.queues
        (map packet_of packets.old.items) lanes.new.queues.items) }
    ensures windows { OnOk result (AreWatched plan.now.snap plan.now.taps
        (shown_by plan.now (map packet_of packets.old.items)) lanes.new.taps.items) }
    ensures records { OnOk result ((budget : ℕ) → lane_records lanes.new
        ≡ round_records (options_by plan.now budget) (map packet_of packets.old.items)) }
    ensures merged { OnOk result (All IsMerged lanes.new.queues.items) }
    ensures packets { OnOk result (EachFrom (λ q l. map packet_of l.packets.items
        ≡ filter (is_queued (spread_of plan.now) q) (map packet_of packets.old.items)) 0 lanes.new.queues.items) }
    ensures all { OnOk result (packets.new.items ≡ []) }
    ensures kept { Keeps (of_packets packets.old.items) (both (of_packets packets.new.items) (of_lanes lanes.new)) }
    ensures blocks { KeepsBlocks (of_packets packets.old.items)
        (both (of_packets packets.new.items) (of_lanes lanes.new)) }
    ensures count { counts_of packets.new.items + counts_of_queues lanes.new.queues.items
        ≡ counts_of packets.old.items }
    ensures named { (h : ℕ → ℕ) → weighed_slots h packets.new.items + weighed_queues h lanes.new.queues.items
        ≡ weighed_slots h packets.old.items }
    ensures alone { IsUncloned shared plan.now → AreAlone packets.old.items
        → AreAlone packets.new.items × All (λ l. AreAlone l.packets.items) lanes.new.queues.items }
    ensures idle { IsUncloned shared plan.now → All IsIdleTap lanes.new.taps.items }
    ensures clones { All (λ t. t.clones.items ≡ []) lanes.new.taps.items }
    ensures no_soles { HaveNoSoles lanes.new.taps.items }
    ensures gave { MayGive giver.old giver.new }
    ensures none_left { W.gives ≡ true → OnOk result (LeavesNone giver.old giver.new) }
{
    begin(works, alloc, plan, shared, packets, lanes)?;
    works.run_lanes(plan, lanes, giver);
    finish(packets, lanes)
}
