//! The packets of two flows in turn, and what comes home of lanes.
ghost use Rattle.std.specs.Prelude.{◌≡◌, ◌≤◌, map};
ghost use Rattle.block_weight.specs.WeightRule.{full_weight};
ghost use Rattle.skb.specs.SkbState.{buffer_least, IsAlone};
ghost use Rattle.gro.specs.Slots.{packet_of, count_of, counts_of, IsHeld, AreAlone, AreHeld, AreShared, WeighAtLeast};
ghost use Rattle.lanes.specs.Clones.{weight_after};
ghost use Rattle.lanes.specs.Packets.{RiseFrom};

use super::frames::IN_TURN;
use frags::{Outcomes, Pieces};
use gro::{Packets, Slot};
use lanes::{Lanes, QueueLane, TapLane};
use raw_block::Sole;
use skb::Skb;
use std::alloc::Global;
use std::process::Abort;
use taps::TapClone;

// A packet in a block that nobody else holds.
fn packet(rt: &impl Abort, alloc: Global, number: u32, frame: &[u8]) -> Slot
    ensures held { IsHeld result }
    ensures alone { IsAlone result.skb }
    ensures whole { full_weight ≤ buffer_least result.skb }
    ensures weighs { weight_after 1 ≤ buffer_least result.skb }
    ensures count { count_of result ≡ 1 }
    ensures number { result.number ≡ number }
{
    let block = Sole::new(alloc).expect(rt, "block");
    let mut skb = Skb::new(block, 64, 64, Pieces::new(alloc));
    skb.put_tail(frame).expect(rt, "room");
    let len = skb.len();
    assert!(rt; len <= 2000 && skb.head().len() == len && skb.head_is_sole());
    assert!(rt; skb.least_weight() == 1 << 62 && skb.count() == 1);
    Slot {
        skb,
        sec: 1,
        frac: 2,
        original: len as u32,
        number,
    }
}

/// The packets of both flows, numbered from 0, each in a block of its own that nobody else holds.
pub(crate) fn unshared(rt: &impl Abort, alloc: Global) -> Packets
    ensures held { AreHeld result.items }
    ensures alone { AreAlone result.items }
    ensures weighs { WeighAtLeast (weight_after 1) result.items }
    ensures rising { RiseFrom 0 (map packet_of result.items) }
    ensures few { counts_of result.items ≤ 8 }
{
    let mut packets = Packets::with_capacity(alloc, 8).expect(rt, "places");
    let mut number = 8u32;
    while 0 < number {
        number -= 1;
        let frame = &IN_TURN[number as usize];
        packets.push(packet(rt, alloc, number, frame));
    }
    packets.reverse();
    packets
}

/// The same packets with heads that are parts of the whole weight, as taps want them.
pub(crate) fn in_turn(rt: &impl Abort, alloc: Global) -> Packets
    ensures held { AreHeld result.items }
    ensures shared { AreShared result.items }
    ensures whole { WeighAtLeast full_weight result.items }
    ensures weighs { WeighAtLeast (weight_after 1) result.items }
    ensures rising { RiseFrom 0 (map packet_of result.items) }
    ensures few { counts_of result.items ≤ 8 }
{
    let mut packets = unshared(rt, alloc);
    packets.share_heads();
    packets
}

// The blocks among what was given back.
fn home(mut outcomes: Outcomes) -> usize {
    let mut blocks = 0usize;
    while let Some(_sole) = outcomes.pop_sole() {
        blocks = blocks.wrapping_add(1);
    }
    outcomes.settle();
    blocks
}

fn home_of_buffer(rt: &impl Abort, skb: Skb) -> usize {
    let mut outcomes = Outcomes::new(skb.allocator());
    outcomes.reserve(skb.count()).expect(rt, "places");
    skb.release(&mut outcomes);
    home(outcomes)
}

fn home_of_packet(rt: &impl Abort, packet: Slot) -> usize {
    let Slot {
        skb,
        sec: _,
        frac: _,
        original: _,
        number: _,
    } = packet;
    home_of_buffer(rt, skb)
}

fn home_of_packets(rt: &impl Abort, packets: Packets) -> usize {
    let mut packets = packets;
    let mut blocks = 0usize;
    while let Some(packet) = packets.pop() {
        blocks = blocks.wrapping_add(home_of_packet(rt, packet));
    }
    packets.discard();
    blocks
}

fn home_of_queue(rt: &impl Abort, lane: QueueLane) -> usize {
    let QueueLane {
        queue: _,
        packets,
        engine: _engine,
    } = lane;
    home_of_packets(rt, packets)
}

fn home_of_tap(rt: &impl Abort, lane: TapLane) -> usize {
    let TapLane {
        tap: _,
        clones,
        texts: _,
        memory: _,
        outcomes,
    } = lane;
    assert!(rt; clones.is_empty());
    clones.destroy_empty();
    home(outcomes)
}

/// All blocks of the lanes come home: so many.
pub(crate) fn all_home(rt: &impl Abort, lanes: Lanes) -> usize {
    let Lanes {
        mut queues,
        mut taps,
    } = lanes;
    let mut blocks = 0usize;
    while let Some(lane) = queues.pop() {
        blocks = blocks.wrapping_add(home_of_queue(rt, lane));
    }
    while let Some(lane) = taps.pop() {
        blocks = blocks.wrapping_add(home_of_tap(rt, lane));
    }
    queues.destroy_empty();
    taps.destroy_empty();
    blocks
}

/// The same of packets that aren't in lanes, and of lanes.
pub(crate) fn rest_home(rt: &impl Abort, packets: Packets, lanes: Lanes) -> usize {
    home_of_packets(rt, packets).wrapping_add(all_home(rt, lanes))
}

// Whether a clone is that of the packet with this number.
fn is_clone_of(clone: &TapClone, number: usize) -> bool {
    match IN_TURN.get(number) {
        Some(frame) => clone.number as usize == number && clone.skb.head() == frame.as_slice(),
        None => false,
    }
}

fn home_of_clone(rt: &impl Abort, clone: TapClone) -> usize {
    let TapClone {
        skb,
        sec: _,
        frac: _,
        original: _,
        number: _,
    } = clone;
    home_of_buffer(rt, skb)
}

/// The same of clones that were kept, which are those of both flows' packets.
pub(crate) fn kept_home(rt: &impl Abort, kept: Vec<TapClone>) -> usize {
    let mut kept = kept;
    let mut blocks = 0usize;
    while let Some(clone) = kept.pop() {
        assert!(rt; is_clone_of(&clone, kept.len()));
        blocks = blocks.wrapping_add(home_of_clone(rt, clone));
    }
    kept.destroy_empty();
    blocks
}
