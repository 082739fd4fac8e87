//! Brings the blocks of a round home.
ghost use Rattle.std.specs.Prelude.{◌≡◌, ℕ, ◌+◌, ◌≤◌, [], length, All};
ghost use Rattle.block_pool.specs.PoolState.{home, weighed};
ghost use Rattle.frags.specs.Account.{both, of_outcomes};
ghost use Rattle.skb.specs.SkbState.{of_buffer};
ghost use Rattle.gro.specs.Slots.{of_packet, of_packets, count_of, counts_of, weighed_slots, AreAlone};
ghost use Rattle.lanes.specs.Lanes.{counts_of_queues, weighed_queues, AreIdle, IsIdleTap};
ghost use Rattle.rounds.specs.Held.{blocks_in};
ghost use Rattle.rounds.specs.Lanes.{of_work, count_of_work, AreSpent};
ghost use Rattle.rounds.specs.Marks.{by_marks, IsNamed, IsRound, nothing};
ghost use Rattle.rounds.specs.Out.{IsOut};
ghost use Rattle.frags.specs.OutcomesState.{IsBare};
ghost use Rattle.rounds.specs.Table.{AllOpen, Comes, MayCome};
ghost use Rattle.reading.specs.Home.{Adds};

use crate::lane_home::{bring_clones, bring_lanes, bring_queues_alone};
use crate::mark_table::{MarkState, reopen, sweep};
use block_pool::Pool;
use frags::Outcomes;
use gro::{Packets, Slot};
use lanes::Lanes;
use reading::bring_blocks;
use skb::Skb;
use taps::TapClone;

/// A buffer is given back, and its blocks go home.
pub(crate) fn bring_buffer(pool: &mut Pool, places: &mut [MarkState], out: &mut Outcomes, skb: Skb)
    requires may { MayCome (of_buffer skb) pool.old places.old }
    requires bare { IsBare out.old }
    requires spare { blocks_in skb ≤ out.old.spare }
    ensures comes { Comes (of_buffer skb) nothing pool.old places.old pool.new places.new }
    ensures bare { IsBare out.new }
    ensures spare { out.old.spare ≤ out.new.spare + blocks_in skb }
{
    skb.release(out);
    sweep(pool, places, out);
}

/// A packet is given back.
pub(crate) fn bring_packet(
    pool: &mut Pool,
    places: &mut [MarkState],
    out: &mut Outcomes,
    packet: Slot,
)
    requires may { MayCome (of_packet packet) pool.old places.old }
    requires bare { IsBare out.old }
    requires spare { count_of packet ≤ out.old.spare }
    ensures comes { Comes (of_packet packet) nothing pool.old places.old pool.new places.new }
    ensures bare { IsBare out.new }
    ensures spare { out.old.spare ≤ out.new.spare + count_of packet }
{
    let Slot {
        skb,
        sec: _,
        frac: _,
        original: _,
        number: _,
    } = packet;
    bring_buffer(pool, places, out, skb);
}

/// All packets are given back, and their memory stays.
pub(crate) fn bring_packets(
    pool: &mut Pool,
    places: &mut [MarkState],
    out: &mut Outcomes,
    packets: &mut Packets,
)
    requires may { MayCome (of_packets packets.old.items) pool.old places.old }
    requires bare { IsBare out.old }
    requires spare { counts_of packets.old.items ≤ out.old.spare }
    ensures comes { Comes (of_packets packets.old.items) nothing pool.old places.old pool.new places.new }
    ensures bare { IsBare out.new }
    ensures spare { out.old.spare ≤ out.new.spare + counts_of packets.old.items }
    ensures none { packets.new.items ≡ [] }
{
    while let Some(packet) = packets.pop() {
        bring_packet(pool, places, out, packet);
    }
}

// What a round came to is given back: lanes, and clones that were kept.
fn bring_work(
    pool: &mut Pool,
    places: &mut [MarkState],
    out: &mut Outcomes,
    lanes: &mut Lanes,
    clones: Vec<TapClone>,
)
    requires may { MayCome (of_work lanes.old clones.items) pool.old places.old }
    requires bare { IsBare out.old }
    requires spare { count_of_work lanes.old clones.items ≤ out.old.spare }
    requires spent { AreSpent lanes.old.taps.items }
    ensures comes { Comes (of_work lanes.old clones.items) nothing pool.old places.old pool.new places.new }
    ensures bare { IsBare out.new }
    ensures spare { out.old.spare ≤ out.new.spare + count_of_work lanes.old clones.items }
    ensures idle { AreIdle lanes.new }
{
    bring_lanes(pool, places, out, lanes);
    bring_clones(pool, places, out, clones);
}

// All that is left of a round comes home to a table with a place for each of its blocks.
fn bring_all(
    pool: &mut Pool,
    places: &mut [MarkState],
    out: &mut Outcomes,
    packets: &mut Packets,
    lanes: &mut Lanes,
    clones: Vec<TapClone>,
)
    requires round { IsRound (length places.old) (both (of_outcomes out.old)
        (both (of_packets packets.old.items) (of_work lanes.old clones.items))) }
    requires room { home pool.old + length places.old ≤ pool.old.made }
    requires open { AllOpen places.old }
    requires spare { counts_of packets.old.items + count_of_work lanes.old clones.items ≤ out.old.spare }
    requires spent { AreSpent lanes.old.taps.items }
    ensures home { home pool.new ≡ home pool.old + length places.old }
    ensures named { (names h : ℕ → ℕ) → IsNamed names (both (of_outcomes out.old)
        (both (of_packets packets.old.items) (of_work lanes.old clones.items)))
        → weighed h pool.new.blocks ≡ weighed h pool.old.blocks + by_marks (λ m. h (names m)) 0 (length places.old) }
    ensures made { (pool.new.made ≡ pool.old.made) × (pool.new.taken ≡ pool.old.taken) }
    ensures open { AllOpen places.new }
    ensures size { length places.new ≡ length places.old }
    ensures bare { IsBare out.new }
    ensures spare { out.old.spare ≤ out.new.spare + (counts_of packets.old.items
        + count_of_work lanes.old clones.items) }
    ensures none { packets.new.items ≡ [] }
    ensures idle { AreIdle lanes.new }
{
    sweep(pool, places, out);
    bring_packets(pool, places, out, packets);
    bring_work(pool, places, out, lanes, clones);
    reopen(places);
}

// All blocks of a round go home, `blocks` of them, by their marks: what was given back so far, the packets that are in
// no lane, what the lanes hold, and the clones that were kept. The lanes are idle then.
fn bring_round(
    pool: &mut Pool,
    table: &mut [MarkState],
    blocks: u32,
    out: &mut Outcomes,
    packets: &mut Packets,
    lanes: &mut Lanes,
    clones: Vec<TapClone>,
)
    requires round { IsRound blocks (both (of_outcomes out.old)
        (both (of_packets packets.old.items) (of_work lanes.old clones.items))) }
    requires few { blocks ≤ length table.old }
    requires room { home pool.old + blocks ≤ pool.old.made }
    requires open { AllOpen table.old }
    requires spare { counts_of packets.old.items + count_of_work lanes.old clones.items ≤ out.old.spare }
    requires spent { AreSpent lanes.old.taps.items }
    ensures home { home pool.new ≡ home pool.old + blocks }
    ensures named { (names h : ℕ → ℕ) → IsNamed names (both (of_outcomes out.old)
        (both (of_packets packets.old.items) (of_work lanes.old clones.items)))
        → weighed h pool.new.blocks ≡ weighed h pool.old.blocks + by_marks (λ m. h (names m)) 0 blocks }
    ensures made { (pool.new.made ≡ pool.old.made) × (pool.new.taken ≡ pool.old.taken) }
    ensures open { AllOpen table.new }
    ensures size { length table.new ≡ length table.old }
    ensures bare { IsBare out.new }
    ensures spare { out.old.spare ≤ out.new.spare + (counts_of packets.old.items
        + count_of_work lanes.old clones.items) }
    ensures none { packets.new.items ≡ [] }
    ensures idle { AreIdle lanes.new }
{
    let (places, _) = table.split_at_mut(blocks as usize);
    bring_all(pool, places, out, packets, lanes, clones);
}

/// Packets whose blocks nobody else holds go home, and their memory stays.
pub(crate) fn bring_alone(pool: &mut Pool, packets: &mut Packets)
    requires alone { AreAlone packets.old.items }
    requires room { home pool.old + counts_of packets.old.items ≤ pool.old.made }
    ensures adds { Adds (counts_of packets.old.items) (λ h. weighed_slots h packets.old.items) pool.old pool.new }
    ensures none { packets.new.items ≡ [] }
    ensures memory { packets.old.room + length packets.old.items ≤ packets.new.room }
{
    while let Some(packet) = packets.pop() {
        let Slot {
            skb,
            sec: _,
            frac: _,
            original: _,
            number: _,
        } = packet;
        bring_blocks(pool, skb);
    }
}

// The same of a whole round, of which nobody keeps clones and taps hold nothing.
fn bring_round_alone(
    pool: &mut Pool,
    packets: &mut Packets,
    lanes: &mut Lanes,
    clones: Vec<TapClone>,
)
    requires packets { AreAlone packets.old.items }
    requires queues { All (λ l. AreAlone l.packets.items) lanes.old.queues.items }
    requires room { home pool.old + (counts_of packets.old.items + counts_of_queues lanes.old.queues.items)
        ≤ pool.old.made }
    requires none { clones.items ≡ [] }
    requires idle { All IsIdleTap lanes.old.taps.items }
    ensures adds { Adds (counts_of packets.old.items + counts_of_queues lanes.old.queues.items)
        (λ h. weighed_slots h packets.old.items + weighed_queues h lanes.old.queues.items) pool.old pool.new }
    ensures none { packets.new.items ≡ [] }
    ensures idle { AreIdle lanes.new }
{
    bring_alone(pool, packets);
    bring_queues_alone(pool, &mut lanes.queues);
    clones.destroy_empty();
}

/// All blocks of a round but its spares go home, `blocks` of them, at whichever point it is ended or given up: by their
/// marks where others may hold some, and else by count alone. The lanes are idle then.
pub(crate) fn bring_out(
    shared: bool,
    pool: &mut Pool,
    table: &mut [MarkState],
    blocks: u32,
    out: &mut Outcomes,
    packets: &mut Packets,
    lanes: &mut Lanes,
    clones: Vec<TapClone>,
)
    requires out { IsOut shared blocks packets.old.items lanes.old clones.items }
    requires bare { IsBare out.old }
    requires few { blocks ≤ length table.old }
    requires room { home pool.old + blocks ≤ pool.old.made }
    requires open { AllOpen table.old }
    requires spare { blocks + blocks ≤ out.old.spare }
    ensures adds { Adds blocks (λ h. weighed_slots h packets.old.items + weighed_queues h lanes.old.queues.items)
        pool.old pool.new }
    ensures open { AllOpen table.new }
    ensures size { length table.new ≡ length table.old }
    ensures bare { IsBare out.new }
    ensures spare { out.old.spare ≤ out.new.spare + (blocks + blocks) }
    ensures none { packets.new.items ≡ [] }
    ensures idle { AreIdle lanes.new }
{
    if shared {
        bring_round(pool, table, blocks, out, packets, lanes, clones)
    } else {
        bring_round_alone(pool, packets, lanes, clones)
    }
}
