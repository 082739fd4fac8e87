//! Lanes go away as tasks, and come back to their places.
ghost use Rattle.std.specs.Prelude.{◌≡◌, ◌+◌, ◌≤◌, [], length, max, ℕ, List, All, IfSome, MatchOption, Option};
ghost use Rattle.std.specs.List.{AllByRecursion};
ghost use Rattle.std.specs.VecDeque.{deque_len, deque_capacity};
ghost use Rattle.errands.specs.Answers.{EachDid};
ghost use Rattle.block_pool.specs.Giving.{GiverState};
ghost use Rattle.lanes.specs.Filling.{AreReady};
ghost use Rattle.lane_crew.specs.Givers.{back_of, carried, returned, Carries, Divided, HaveShares, MayJoin};
ghost use Rattle.lane_crew.specs.Givers.{MayReturn, Rejoined};
ghost use Rattle.lanes.specs.Lanes.{IsFilled, IsTapReady};
ghost use Rattle.lane_crew.specs.Tasks.{DidLane, SentQueues, SentTaps, Away, HasPlace, IsPlaced, IsPut};
ghost use Rattle.lanes.specs.Work.{Did};

use crate::carrying::take_back;
use crate::loads::SpareLoads;
use crate::tasks::{LaneDone, LaneJob, LaneTask, QueueTask, WatchTask};
use block_pool::Giver;
use core::mem::swap;
use errands::Job;
use lanes::{LanePlan, Lanes, QueueLane, TapLane, have_short_frames, program_in, watch, work};
use off_io::Gate;
use std::collections::VecDeque;
use std::sync::Wait;

// How many lanes have something to do.
fn count_at_work(lanes: &Lanes) -> usize {
    let mut count = 0usize;
    for lane in &lanes.queues {
        if !lane.packets.is_empty() {
            count = count.saturating_add(1);
        }
    }
    for lane in &lanes.taps {
        if !lane.clones.is_empty() {
            count = count.saturating_add(1);
        }
    }
    count
}

/// How many lanes have something to do that is worth another thread's while: none where frames are short.
pub(crate) fn count_to_share(lanes: &Lanes) -> usize {
    if have_short_frames(lanes) {
        return 0;
    }
    count_at_work(lanes)
}

// The queues that have packets go away as tasks, each with its part of the list. The others are worked here.
fn send_queues<G: Gate>(
    gate: &G,
    segs: u32,
    queues: &mut [QueueLane],
    at_work: usize,
    spare: &mut SpareLoads,
    tasks: &mut VecDeque<LaneTask>,
    giver: &mut Option<Giver>,
)
    requires filled { All IsFilled queues.old }
    requires room { deque_len tasks.old + length queues.old ≤ deque_capacity tasks.old }
    ensures sent { SentQueues segs (length queues.old) queues.old queues.new tasks.old.items tasks.new.items }
    ensures carried { (old : Option GiverState) → Divided old giver.old (carried tasks.old.items)
        → Divided old giver.new (carried tasks.new.items) }
    ensures shares { (n : ℕ) → max 1 at_work ≤ n → HaveShares n giver.old tasks.old.items
        → HaveShares n giver.new tasks.new.items }
    ensures few { deque_len tasks.new ≤ deque_len tasks.old + length queues.old }
    ensures room { deque_capacity tasks.new ≡ deque_capacity tasks.old }
{
    for at in 0..queues.len() {
        let among = at_work.saturating_sub(tasks.len());
        match spare.load_queue(&queues[at], giver, among) {
            Some(load) => {
                let task = QueueTask::send(load, at, &mut queues[at], segs);
                tasks.push_back_reserved(LaneTask::Queue(task));
            }
            None => work(gate, segs, &mut queues[at]),
        }
    }
}

// The taps that have clones go away as tasks, each with its part of the list. The others are worked here.
fn send_taps<G: Gate>(
    gate: &G,
    plan: &LanePlan,
    taps: &mut [TapLane],
    at_work: usize,
    spare: &mut SpareLoads,
    tasks: &mut VecDeque<LaneTask>,
    giver: &mut Option<Giver>,
)
    requires ready { All IsTapReady taps.old }
    requires room { deque_len tasks.old + length taps.old ≤ deque_capacity tasks.old }
    ensures shares { (n : ℕ) → max 1 at_work ≤ n → HaveShares n giver.old tasks.old.items
        → HaveShares n giver.new tasks.new.items }
    ensures sent { SentTaps plan.now (length taps.old) taps.old taps.new tasks.old.items tasks.new.items }
    ensures carried { (old : Option GiverState) → Divided old giver.old (carried tasks.old.items)
        → Divided old giver.new (carried tasks.new.items) }
{
    for at in 0..taps.len() {
        let among = at_work.saturating_sub(tasks.len());
        match spare.load_tap(&taps[at], plan, giver, among) {
            Some(load) => {
                let task = WatchTask::send(load, at, &mut taps[at], plan.snap);
                tasks.push_back_reserved(LaneTask::Tap(task));
            }
            None => watch(gate, plan.snap, program_in(&plan.filter), &mut taps[at]),
        }
    }
}

/// The lanes that have something to do go away as tasks, and the list is divided among them: each carries at least what
/// stays at hand of it, evenly divided among all lanes, or no part of the pass is left. The others are worked here.
pub(crate) fn send_all<G: Gate>(
    gate: &G,
    plan: &LanePlan,
    lanes: &mut Lanes,
    spare: &mut SpareLoads,
    tasks: &mut VecDeque<LaneTask>,
    giver: &mut Option<Giver>,
)
    requires ready { AreReady lanes.old }
    requires none { tasks.old.items ≡ [] }
    requires room { length lanes.old.queues.items + length lanes.old.taps.items ≤ deque_capacity tasks.old }
    ensures away { Away plan.now lanes.old lanes.new tasks.new.items }
    ensures divided { Divided giver.old giver.new (carried tasks.new.items) }
    ensures shares { HaveShares (max 1 (length lanes.old.queues.items + length lanes.old.taps.items)) giver.new
        tasks.new.items }
{
    let all = lanes.queues.len().saturating_add(lanes.taps.len());
    let at_work = count_at_work(lanes).min(all);
    send_queues(
        gate,
        plan.segs,
        &mut lanes.queues,
        at_work,
        spare,
        tasks,
        giver,
    );
    send_taps(gate, plan, &mut lanes.taps, at_work, spare, tasks, giver);
}

// A lane comes back to its place, and what its task carried.
fn put_back<R: Wait>(
    rt: &R,
    lanes: &mut Lanes,
    done: LaneDone,
    spare: &mut SpareLoads,
    giver: &mut Option<Giver>,
)
    requires place { HasPlace lanes.old done }
    requires may { MayJoin giver.old (back_of done) }
    ensures put { IsPut done lanes.old lanes.new }
    ensures taken { Rejoined giver.old (back_of done) giver.new }
{
    match done {
        LaneDone::Queue(done) => {
            let mut load = done.open();
            swap(&mut lanes.queues[load.at], &mut load.lane);
            take_back(rt, giver, load.giver.take());
            spare.put_queue(load);
        }
        LaneDone::Tap(done) => {
            let mut load = done.open();
            swap(&mut lanes.taps[load.at], &mut load.lane);
            take_back(rt, giver, load.giver.take());
            spare.put_tap(load);
        }
    }
}

/// All lanes come back.
pub(crate) fn bring_back<R: Wait>(
    rt: &R,
    lanes: &mut Lanes,
    spare: &mut SpareLoads,
    done: &mut VecDeque<LaneDone>,
    giver: &mut Option<Giver>,
)
    requires places { AllByRecursion (HasPlace lanes.old) done.old.items }
    requires may { MayReturn giver.old (returned done.old.items) }
    ensures did { (plan : LanePlan) (old : Lanes) (ts : List LaneTask)
        → EachDid DidLane ts done.old.items → Away plan old lanes.old ts → Did plan old lanes.new }
    ensures back { (old : Option GiverState) → Divided old giver.old (returned done.old.items)
        → Divided old giver.new [] }
    ensures none { done.new.items ≡ [] }
{
    while let Some(answer) = done.pop_front() {
        put_back(rt, lanes, answer, spare, giver);
    }
}

/// All lanes that are away are worked here, where nobody else takes them.
pub(crate) fn work_here<G: Gate, R: Wait>(
    gate: &G,
    rt: &R,
    lanes: &mut Lanes,
    spare: &mut SpareLoads,
    tasks: &mut VecDeque<LaneTask>,
    giver: &mut Option<Giver>,
)
    requires places { AllByRecursion (IsPlaced lanes.old) tasks.old.items }
    requires may { MayReturn giver.old (carried tasks.old.items) }
    ensures did { (plan : LanePlan) (old : Lanes) → Away plan old lanes.old tasks.old.items → Did plan old lanes.new }
    ensures back { (old : Option GiverState) → Divided old giver.old (carried tasks.old.items)
        → Divided old giver.new [] }
    ensures none { tasks.new.items ≡ [] }
{
    let job = LaneJob { gate, rt };
    while let Some(task) = tasks.pop_front() {
        put_back(rt, lanes, job.run(task), spare, giver);
    }
}
