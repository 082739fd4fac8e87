//! The work of the lanes.
ghost use Rattle.std.specs.Prelude.{◌≤◌, length, All, option_map};
ghost use Rattle.block_pool.specs.Giving.{LeavesNone, MayGive};
ghost use Rattle.lanes.specs.Filling.{AreReady};
ghost use Rattle.lanes.specs.Lanes.{DidQueue, DidTap, EachQueueDid, EachTapDid, IsFilled, IsTapReady, ReadsTap};
ghost use Rattle.lanes.specs.Work.{Did};

use crate::giving::give_back;
use crate::lane::{Lanes, QueueLane, TapLane};
use crate::plan::LanePlan;
use crate::shared::program_in;
use block_pool::Giver;
use core::mem::replace;
use off_io::{Gate, Who};
use offload_model::Limits;
use std::sync::Wait;
use tap_filter::Program;
use taps::{TapTexts, read_clones};

/// A queue's worker: its packets are merged where they lie, which takes no memory and can't be refused. The gate is
/// passed at point 0 before the work and at point 1 after it.
pub fn work<G: Gate>(gate: &G, segs: u32, lane: &mut QueueLane)
    requires filled { IsFilled lane.old }
    ensures did { DidQueue segs lane.old lane.new }
{
    let who = Who::Worker(lane.queue);
    gate.pass(who, 0);
    let limits = Limits::up_to(segs);
    lane.engine.merge(lane.packets.slots(), limits);
    gate.pass(who, 1);
}

// A tap reads its clones.
fn read<G: Gate>(gate: &G, snap: u32, filter: Option<&Program>, lane: &mut TapLane)
    requires ready { IsTapReady lane.old }
    ensures did { ReadsTap (option_map (λ p. p.now) filter.entry) snap lane.old lane.new }
{
    let none = TapTexts::new(*lane.clones.allocator());
    let memory = replace(&mut lane.memory, none);
    let texts = read_clones(
        gate,
        lane.tap,
        snap,
        filter,
        &mut lane.clones,
        &mut lane.outcomes,
        memory,
    );
    lane.texts = texts.ok();
}

/// A tap's task, unless it has read. It passes the gate at the same points.
pub fn watch<G: Gate>(gate: &G, snap: u32, filter: Option<&Program>, lane: &mut TapLane)
    requires ready { IsTapReady lane.old }
    ensures did { DidTap (option_map (λ p. p.now) filter.entry) snap lane.old lane.new }
{
    if lane.texts.is_none() {
        read(gate, snap, filter, lane);
    }
}

// The queues' workers, one after another.
fn work_in_turn<G: Gate>(gate: &G, plan: &LanePlan, queues: &mut [QueueLane])
    requires filled { All IsFilled queues.old }
    ensures did { EachQueueDid plan.now.segs queues.old queues.new }
{
    for i in 0..queues.len() {
        work(gate, plan.segs, &mut queues[i]);
    }
}

// The taps' tasks, one after another.
fn watch_in_turn<G: Gate>(gate: &G, plan: &LanePlan, taps: &mut [TapLane])
    requires ready { All IsTapReady taps.old }
    ensures did { EachTapDid plan.now.filter plan.now.snap taps.old taps.new }
{
    for i in 0..taps.len() {
        watch(gate, plan.snap, program_in(&plan.filter), &mut taps[i]);
    }
}

/// All lanes in the thread that calls, queue after queue and then tap after tap.
pub(crate) fn run_in_turn<G: Gate>(gate: &G, plan: &LanePlan, lanes: &mut Lanes)
    requires ready { AreReady lanes.old }
    ensures did { Did plan.now lanes.old lanes.new }
{
    work_in_turn(gate, plan, &mut lanes.queues);
    watch_in_turn(gate, plan, &mut lanes.taps);
}

// A queue's worker. Where it had packets the list goes back behind it, if it still lies there.
fn work_giving<G: Gate, R: Wait>(
    gate: &G,
    rt: &R,
    segs: u32,
    lane: &mut QueueLane,
    giver: &mut Option<Giver>,
)
    requires filled { IsFilled lane.old }
    ensures did { DidQueue segs lane.old lane.new }
    ensures gave { MayGive giver.old giver.new }
    ensures none_left { 1 ≤ length lane.old.packets.items → LeavesNone giver.old giver.new }
{
    work(gate, segs, lane);
    if lane.packets.len() > 0 {
        give_back(rt, giver);
    }
}

// The queues' workers, one after another. Behind the first one that had packets the list goes back.
fn work_and_give<G: Gate, R: Wait>(
    gate: &G,
    rt: &R,
    plan: &LanePlan,
    queues: &mut [QueueLane],
    giver: &mut Option<Giver>,
)
    requires filled { All IsFilled queues.old }
    ensures did { EachQueueDid plan.now.segs queues.old queues.new }
    ensures gave { MayGive giver.old giver.new }
{
    for at in 0..queues.len() {
        work_giving(gate, rt, plan.segs, &mut queues[at], giver);
    }
}

/// All lanes in the thread that calls, where others take lists beside it.
pub fn run_and_give<G: Gate, R: Wait>(
    gate: &G,
    rt: &R,
    plan: &LanePlan,
    lanes: &mut Lanes,
    giver: &mut Option<Giver>,
)
    requires ready { AreReady lanes.old }
    ensures did { Did plan.now lanes.old lanes.new }
    ensures gave { MayGive giver.old giver.new }
    ensures none_left { LeavesNone giver.old giver.new }
{
    work_and_give(gate, rt, plan, &mut lanes.queues, giver);
    // Where no queue had packets the list still lies there.
    give_back(rt, giver);
    watch_in_turn(gate, plan, &mut lanes.taps);
}
