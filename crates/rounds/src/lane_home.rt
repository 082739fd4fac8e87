//! Brings home what the lanes of a round hold.
ghost use Rattle.std.specs.Prelude.{◌≡◌, ◌+◌, ◌≤◌, [], All, length};
ghost use Rattle.block_pool.specs.PoolState.{home};
ghost use Rattle.gro.specs.Slots.{weighed_slots, AreAlone};
ghost use Rattle.taps.specs.Clones.{blocks_of, of_clones};
ghost use Rattle.lanes.specs.Lanes.{of_queue, of_queues, of_tap, of_taps, of_lanes, count_of_queue};
ghost use Rattle.lanes.specs.Lanes.{counts_of_queues, weighed_queues, AreIdle, IsIdleQueue, IsIdleTap};
ghost use Rattle.rounds.specs.Lanes.{AreSpent};
ghost use Rattle.rounds.specs.Marks.{nothing};
ghost use Rattle.frags.specs.OutcomesState.{IsBare};
ghost use Rattle.rounds.specs.Table.{Comes, MayCome};
ghost use Rattle.reading.specs.Home.{Adds};

use crate::mark_table::{MarkState, sweep};
use crate::round_home::{bring_alone, bring_buffer, bring_packets};
use block_pool::Pool;
use frags::Outcomes;
use lanes::{Lanes, QueueLane, TapLane};
use taps::TapClone;

// What a queue's lane holds.
fn bring_queue(pool: &mut Pool, places: &mut [MarkState], out: &mut Outcomes, lane: &mut QueueLane)
    requires may { MayCome (of_queue lane.old) pool.old places.old }
    requires bare { IsBare out.old }
    requires spare { count_of_queue lane.old ≤ out.old.spare }
    ensures comes { Comes (of_queue lane.old) nothing pool.old places.old pool.new places.new }
    ensures bare { IsBare out.new }
    ensures spare { out.old.spare ≤ out.new.spare + count_of_queue lane.old }
    ensures idle { IsIdleQueue lane.new }
{
    bring_packets(pool, places, out, &mut lane.packets);
}

fn bring_queues(
    pool: &mut Pool,
    places: &mut [MarkState],
    out: &mut Outcomes,
    lanes: &mut [QueueLane],
)
    requires may { MayCome (of_queues lanes.old) pool.old places.old }
    requires bare { IsBare out.old }
    requires spare { counts_of_queues lanes.old ≤ out.old.spare }
    ensures comes { Comes (of_queues lanes.old) nothing pool.old places.old pool.new places.new }
    ensures bare { IsBare out.new }
    ensures spare { out.old.spare ≤ out.new.spare + counts_of_queues lanes.old }
    ensures idle { All IsIdleQueue lanes.new }
    ensures size { length lanes.new ≡ length lanes.old }
{
    for i in 0..lanes.len() {
        bring_queue(pool, places, out, &mut lanes[i]);
    }
}

// What a tap's lane holds, once its clones are read.
fn bring_tap(pool: &mut Pool, places: &mut [MarkState], lane: &mut TapLane)
    requires may { MayCome (of_tap lane.old) pool.old places.old }
    requires spent { lane.old.clones.items ≡ [] }
    ensures comes { Comes (of_tap lane.old) nothing pool.old places.old pool.new places.new }
    ensures idle { IsIdleTap lane.new }
{
    sweep(pool, places, &mut lane.outcomes);
}

fn bring_taps(pool: &mut Pool, places: &mut [MarkState], lanes: &mut [TapLane])
    requires may { MayCome (of_taps lanes.old) pool.old places.old }
    requires spent { AreSpent lanes.old }
    ensures comes { Comes (of_taps lanes.old) nothing pool.old places.old pool.new places.new }
    ensures idle { All IsIdleTap lanes.new }
    ensures size { length lanes.new ≡ length lanes.old }
{
    for i in 0..lanes.len() {
        bring_tap(pool, places, &mut lanes[i]);
    }
}

/// What all lanes hold is given back, and they are idle. The taps have read their clones.
pub(crate) fn bring_lanes(
    pool: &mut Pool,
    places: &mut [MarkState],
    out: &mut Outcomes,
    lanes: &mut Lanes,
)
    requires may { MayCome (of_lanes lanes.old) pool.old places.old }
    requires bare { IsBare out.old }
    requires spare { counts_of_queues lanes.old.queues.items ≤ out.old.spare }
    requires spent { AreSpent lanes.old.taps.items }
    ensures comes { Comes (of_lanes lanes.old) nothing pool.old places.old pool.new places.new }
    ensures bare { IsBare out.new }
    ensures spare { out.old.spare ≤ out.new.spare + counts_of_queues lanes.old.queues.items }
    ensures idle { AreIdle lanes.new }
{
    bring_queues(pool, places, out, &mut lanes.queues);
    bring_taps(pool, places, &mut lanes.taps);
}

// What a queue's lane holds, where nobody else holds a block of it.
fn bring_queue_alone(pool: &mut Pool, lane: &mut QueueLane)
    requires alone { AreAlone lane.old.packets.items }
    requires room { home pool.old + count_of_queue lane.old ≤ pool.old.made }
    ensures adds { Adds (count_of_queue lane.old) (λ h. weighed_slots h lane.old.packets.items) pool.old pool.new }
    ensures idle { IsIdleQueue lane.new }
{
    bring_alone(pool, &mut lane.packets);
}

/// What queues hold goes home where nobody else holds a block of it, and their lanes are idle.
pub(crate) fn bring_queues_alone(pool: &mut Pool, lanes: &mut [QueueLane])
    requires alone { All (λ l. AreAlone l.packets.items) lanes.old }
    requires room { home pool.old + counts_of_queues lanes.old ≤ pool.old.made }
    ensures adds { Adds (counts_of_queues lanes.old) (λ h. weighed_queues h lanes.old) pool.old pool.new }
    ensures idle { All IsIdleQueue lanes.new }
    ensures size { length lanes.new ≡ length lanes.old }
{
    for i in 0..lanes.len() {
        bring_queue_alone(pool, &mut lanes[i]);
    }
}

/// Clones that were kept are given back.
pub(crate) fn bring_clones(
    pool: &mut Pool,
    places: &mut [MarkState],
    out: &mut Outcomes,
    clones: Vec<TapClone>,
)
    requires may { MayCome (of_clones clones.items) pool.old places.old }
    requires bare { IsBare out.old }
    requires spare { blocks_of clones.items ≤ out.old.spare }
    ensures comes { Comes (of_clones clones.items) nothing pool.old places.old pool.new places.new }
    ensures bare { IsBare out.new }
    ensures spare { out.old.spare ≤ out.new.spare + blocks_of clones.items }
{
    let mut clones = clones;
    while let Some(clone) = clones.pop() {
        let TapClone {
            skb,
            sec: _,
            frac: _,
            original: _,
            number: _,
        } = clone;
        bring_buffer(pool, places, out, skb);
    }
    clones.destroy_empty();
}
