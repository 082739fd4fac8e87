//! Lanes before their work: memory first, then clones for the taps. The packets go to the queues last, by `share`.
ghost use Rattle.std.specs.Prelude.{◌≡◌, ◌+◌, ◌<◌, ◌≤◌, ◌⊎◌, None, List, [], length, map, All, OnOk, true, false};
ghost use Rattle.frags.specs.Account.{Keeps, KeepsBlocks, both};
ghost use Rattle.gro.specs.declared.slot.Slot.{Slot as Held};
ghost use Rattle.gro.specs.Slots.{packet_of, of_packets, counts_of, AreHeld, AreShared, WeighAtLeast};
ghost use Rattle.offload_model.specs.Rounds.{Spread};
ghost use Rattle.lanes.specs.Clones.{weight_after, AreAfter, AreSame};
ghost use Rattle.lanes.specs.Filling.{CanServe, Serves};
ghost use Rattle.lanes.specs.Lanes.{of_tap, of_taps, AreIdle, IsIdleQueue, IsIdleTap, IsTapReady};
ghost use Rattle.lanes.specs.Sharing.{EachFrom, IsSharing};
ghost use Rattle.lanes.specs.Taps.{HasClones};
ghost use Rattle.lanes.specs.Work.{IsPlan, MayWatch};

use crate::clones::clone_all;
use crate::free::{free_queues, free_taps};
use crate::lane::{Lanes, QueueLane, TapLane};
use crate::plan::LanePlan;
use crate::read::{read_tap, read_taps};
use crate::works::Works;
use core::mem::replace;
use gro::Packets;
use std::alloc::{AllocError, Global};

// The blocks and parts of all packets.
fn weigh(packets: &Packets) -> usize
    requires few { counts_of packets.now.items ≤ 65536 }
    ensures count { result ≡ counts_of packets.now.items }
{
    let mut count = 0usize;
    for slot in packets.slots() {
        count += slot.skb.count();
    }
    count
}

// As many idle lanes as there are queues: those that are kept, or new ones.
fn fit_queues(alloc: Global, queues: u32, lanes: &mut Vec<QueueLane>) -> Result<(), AllocError>
    requires idle { All IsIdleQueue lanes.old.items }
    ensures idle { All IsIdleQueue lanes.new.items }
    ensures size { OnOk result (length lanes.new.items ≡ queues) }
{
    if lanes.len() == queues as usize {
        return Ok(());
    }
    let mut fitting = Vec::with_capacity(alloc, queues as usize)?;
    for queue in 0..queues {
        fitting.push_reserved(QueueLane::new(alloc, queue));
    }
    free_queues(replace(lanes, fitting));
    Ok(())
}

// The same of taps.
fn fit_taps(alloc: Global, taps: u32, lanes: &mut Vec<TapLane>) -> Result<(), AllocError>
    requires idle { All IsIdleTap lanes.old.items }
    ensures idle { All IsIdleTap lanes.new.items }
    ensures size { OnOk result (length lanes.new.items ≡ taps) }
{
    if lanes.len() == taps as usize {
        return Ok(());
    }
    let mut fitting = Vec::with_capacity(alloc, taps as usize)?;
    for tap in 0..taps {
        fitting.push_reserved(TapLane::new(alloc, tap));
    }
    free_taps(replace(lanes, fitting));
    Ok(())
}

// The lane of a queue begins: none of its packets has come.
fn begin_queue(lane: &mut QueueLane, queue: u32)
    requires idle { IsIdleQueue lane.old }
    ensures idle { IsIdleQueue lane.new }
    ensures begun { (n : Spread) (all : List Held) → IsSharing n all all queue lane.new }
{
    lane.queue = queue;
}

fn begin_queues(lanes: &mut [QueueLane])
    requires few { length lanes.old ≤ 64 }
    requires idle { All IsIdleQueue lanes.old }
    ensures idle { All IsIdleQueue lanes.new }
    ensures open { (n : Spread) (all : List Held) → EachFrom (IsSharing n all all) 0 lanes.new }
    ensures size { length lanes.new ≡ length lanes.old }
{
    for i in 0..lanes.len() {
        begin_queue(&mut lanes[i], i as u32);
    }
}

/// Idle lanes for the queues and taps of a plan. Those of the queues begin.
pub(crate) fn open_lanes(
    alloc: Global,
    plan: &LanePlan,
    lanes: &mut Lanes,
) -> Result<(), AllocError>
    requires plan { IsPlan plan.now }
    requires idle { AreIdle lanes.old }
    ensures idle { AreIdle lanes.new }
    ensures open { OnOk result ((n : Spread) (all : List Held)
        → EachFrom (IsSharing n all all) 0 lanes.new.queues.items) }
    ensures size { OnOk result ((length lanes.new.queues.items ≡ plan.now.queues)
        × (length lanes.new.taps.items ≡ plan.now.taps)) }
{
    fit_queues(alloc, plan.queues, &mut lanes.queues)?;
    fit_taps(alloc, plan.taps, &mut lanes.taps)?;
    begin_queues(&mut lanes.queues);
    Ok(())
}

// The lane of a tap begins: it has read nothing. The windows of the round before are its memory.
pub(crate) fn begin_tap(lane: &mut TapLane, tap: u32)
    ensures tap { lane.new.tap ≡ tap }
    ensures unread { lane.new.texts ≡ None }
    ensures clones { lane.new.clones ≡ lane.old.clones }
    ensures outcomes { lane.new.outcomes ≡ lane.old.outcomes }
{
    lane.tap = tap;
    if let Some(texts) = replace(&mut lane.texts, None) {
        lane.memory = texts;
    }
}

// A tap gets a clone of each packet; all packets have `count` blocks and parts. Where memory is refused it has the
// clones that were made.
fn fill_tap(
    lane: &mut TapLane,
    tap: u32,
    count: usize,
    packets: &mut Packets,
) -> Result<(), AllocError>
    requires few { tap < 8 }
    requires idle { IsIdleTap lane.old }
    requires held { AreHeld packets.old.items }
    requires shared { AreShared packets.old.items }
    requires weigh { WeighAtLeast (weight_after (tap + 1)) packets.old.items }
    requires count { count ≡ counts_of packets.old.items }
    ensures after { AreAfter (tap + 2) packets.old.items packets.new.items }
    ensures kept { Keeps (of_packets packets.old.items) (both (of_packets packets.new.items) (of_tap lane.new)) }
    ensures blocks { KeepsBlocks (of_packets packets.old.items)
        (both (of_packets packets.new.items) (of_tap lane.new)) }
    ensures ready { IsTapReady lane.new }
    ensures clones { OnOk result (HasClones (map packet_of packets.old.items) tap lane.new) }
{
    begin_tap(lane, tap);
    lane.outcomes.reserve(count)?;
    lane.clones.reserve(packets.len())?;
    clone_all(packets, tap + 1, &mut lane.clones)
}

// A tap that others read for gets clones, and another one reads the packets where they lie.
fn serve_tap<W: Works>(
    works: &W,
    plan: &LanePlan,
    beside: bool,
    lane: &mut TapLane,
    tap: u32,
    count: usize,
    packets: &mut Packets,
) -> Result<(), AllocError>
    requires few { tap < 8 }
    requires idle { IsIdleTap lane.old }
    requires held { AreHeld packets.old.items }
    requires shared { AreShared packets.old.items }
    requires weigh { WeighAtLeast (weight_after (tap + 1)) packets.old.items }
    requires count { count ≡ counts_of packets.old.items }
    ensures after { AreAfter (tap + 2) packets.old.items packets.new.items }
    ensures kept { Keeps (of_packets packets.old.items) (both (of_packets packets.new.items) (of_tap lane.new)) }
    ensures blocks { KeepsBlocks (of_packets packets.old.items)
        (both (of_packets packets.new.items) (of_tap lane.new)) }
    ensures ready { IsTapReady lane.new }
    ensures served { OnOk result (MayWatch true plan.now (map packet_of packets.old.items) tap lane.new) }
{
    if beside {
        return fill_tap(lane, tap, count, packets);
    }
    read_tap(works, plan, tap, lane, packets)
}

// Each tap is served; all packets have `count` blocks and parts. Where memory is refused the lanes have the clones that
// were made.
fn fill_taps<W: Works>(
    works: &W,
    plan: &LanePlan,
    lanes: &mut [TapLane],
    count: usize,
    packets: &mut Packets,
) -> Result<(), AllocError>
    requires may { CanServe lanes.old packets.old.items }
    requires shared { AreShared packets.old.items }
    requires count { count ≡ counts_of packets.old.items }
    ensures after { AreAfter 9 packets.old.items packets.new.items }
    ensures serves { Serves true plan.now packets.old.items packets.new.items lanes.old lanes.new result }
{
    let beside = !works.reads_here(packets);
    for i in 0..lanes.len() {
        let tap = i as u32;
        serve_tap(works, plan, beside, &mut lanes[i], tap, count, packets)?;
    }
    Ok(())
}

// Taps are served where heads are shared. Where there is no tap nothing is counted and nothing is asked of the packets:
// they stay as they are.
fn clone_for_taps<W: Works>(
    works: &W,
    plan: &LanePlan,
    lanes: &mut [TapLane],
    packets: &mut Packets,
) -> Result<(), AllocError>
    requires may { CanServe lanes.old packets.old.items }
    requires shared { 1 ≤ length lanes.old → AreShared packets.old.items }
    requires counts { counts_of packets.old.items ≤ 65536 }
    ensures same { AreSame packets.old.items packets.new.items }
    ensures stay { length lanes.old ≡ 0 → packets.new.items ≡ packets.old.items }
    ensures serves { Serves true plan.now packets.old.items packets.new.items lanes.old lanes.new result }
{
    if lanes.is_empty() {
        return Ok(());
    }
    let count = weigh(packets);
    fill_taps(works, plan, lanes, count, packets)
}

/// A tap gets a clone of each packet where their heads are shared and others read for it. Else it reads each where it
/// lies, and where no head is shared packets stay as they are.
pub(crate) fn serve_taps<W: Works>(
    works: &W,
    plan: &LanePlan,
    shared: bool,
    lanes: &mut [TapLane],
    packets: &mut Packets,
) -> Result<(), AllocError>
    requires may { CanServe lanes.old packets.old.items }
    requires shared { shared ≡ true → 1 ≤ length lanes.old → AreShared packets.old.items }
    requires counts { counts_of packets.old.items ≤ 65536 }
    ensures same { AreSame packets.old.items packets.new.items }
    ensures stay { (shared ≡ false) ⊎ (length lanes.old ≡ 0) → packets.new.items ≡ packets.old.items }
    ensures idle { shared ≡ false → All IsIdleTap lanes.new }
    ensures serves { Serves shared plan.now packets.old.items packets.new.items lanes.old lanes.new result }
{
    if shared {
        return clone_for_taps(works, plan, lanes, packets);
    }
    read_taps(works, plan, lanes, packets)
}

// The clones of a tap that won't read them are given back.
fn give_up(lane: &mut TapLane)
    requires ready { IsTapReady lane.old }
    ensures kept { Keeps (of_tap lane.old) (of_tap lane.new) }
    ensures blocks { KeepsBlocks (of_tap lane.old) (of_tap lane.new) }
    ensures none { lane.new.clones.items ≡ [] }
    ensures idle { IsIdleTap lane.old → IsIdleTap lane.new }
{
    while let Some(clone) = lane.clones.pop() {
        clone.release(&mut lane.outcomes);
    }
}

/// The clones of all taps are given back. Where there are none lanes stay idle.
pub(crate) fn give_all_up(lanes: &mut [TapLane])
    requires ready { All IsTapReady lanes.old }
    ensures kept { Keeps (of_taps lanes.old) (of_taps lanes.new) }
    ensures blocks { KeepsBlocks (of_taps lanes.old) (of_taps lanes.new) }
    ensures none { All (λ l. l.clones.items ≡ []) lanes.new }
    ensures idle { All IsIdleTap lanes.old → All IsIdleTap lanes.new }
{
    for i in 0..lanes.len() {
        give_up(&mut lanes[i]);
    }
}
