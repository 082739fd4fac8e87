//! Taps read packets where they lie, before any goes to its queue: nobody else is to hold a block then.
ghost use Rattle.std.specs.Prelude.{◌≡◌, ◌≤◌, All, IfOk, OnOk, length, map, option_map};
ghost use Rattle.gro.specs.Slots.{packet_of};
ghost use Rattle.lanes.specs.Lanes.{IsIdleTap};
ghost use Rattle.lanes.specs.Sharing.{EachFrom};
ghost use Rattle.lanes.specs.Taps.{shown_slot};
ghost use Rattle.lanes.specs.Work.{shown_by, IsWatched};
ghost use Rattle.taps.specs.Shown.{lent_packet};
ghost use Rattle.taps.specs.Texts.{texts_of};

use crate::fill::begin_tap;
use crate::lane::TapLane;
use crate::plan::LanePlan;
use crate::shared::program_in;
use crate::works::Works;
use core::mem::replace;
use gro::{Packets, Slot};
use std::alloc::AllocError;
use tap_filter::Program;
use taps::{TapPacket, TapTexts};

// A packet, as a tap reads it.
fn lend(slot: &Slot) -> TapPacket<'_>
    ensures same { lent_packet result ≡ packet_of slot.now }
{
    TapPacket {
        skb: &slot.skb,
        sec: slot.sec,
        frac: slot.frac,
        original: slot.original,
        number: slot.number,
    }
}

// The windows that a tap reads of packets, in memory of others.
fn read_packets(
    memory: TapTexts,
    tap: u32,
    snap: u32,
    filter: Option<&Program>,
    packets: &[Slot],
) -> Result<TapTexts, AllocError>
    ensures texts { IfOk result (λ texts. texts
        ≡ texts_of snap tap (map (shown_slot (option_map (λ p. p.now) filter.entry)) packets.now)) }
{
    let mut texts = memory;
    texts.clear();
    for slot in packets {
        texts.read(tap, snap, filter, &lend(slot))?;
    }
    Ok(texts)
}

/// A tap reads its windows of packets, and passes the gate before it and after it.
pub(crate) fn read_tap<W: Works>(
    works: &W,
    plan: &LanePlan,
    tap: u32,
    lane: &mut TapLane,
    packets: &Packets,
) -> Result<(), AllocError>
    requires idle { IsIdleTap lane.old }
    ensures idle { IsIdleTap lane.new }
    ensures read { OnOk result
        (IsWatched plan.now.snap (shown_by plan.now (map packet_of packets.now.items)) tap lane.new) }
{
    begin_tap(lane, tap);
    works.pass(tap, 0);
    let none = TapTexts::new(packets.allocator());
    let memory = replace(&mut lane.memory, none);
    let texts = read_packets(
        memory,
        tap,
        plan.snap,
        program_in(&plan.filter),
        packets.slots(),
    );
    works.pass(tap, 1);
    lane.texts = Some(texts?);
    Ok(())
}

/// Each tap reads its windows of packets.
pub(crate) fn read_taps<W: Works>(
    works: &W,
    plan: &LanePlan,
    lanes: &mut [TapLane],
    packets: &Packets,
) -> Result<(), AllocError>
    requires few { length lanes.old ≤ 8 }
    requires idle { All IsIdleTap lanes.old }
    ensures idle { All IsIdleTap lanes.new }
    ensures read { OnOk result
        (EachFrom (IsWatched plan.now.snap (shown_by plan.now (map packet_of packets.now.items))) 0 lanes.new) }
    ensures size { length lanes.new ≡ length lanes.old }
{
    for i in 0..lanes.len() {
        read_tap(works, plan, i as u32, &mut lanes[i], packets)?;
    }
    Ok(())
}
