//! Lanes as tasks: what goes to whoever runs them, and what comes back.
ghost use Rattle.std.specs.Prelude.{◌≡◌};
ghost use Rattle.block_pool.specs.Giving.{LeavesNone, MayGive};
ghost use Rattle.lanes.specs.Lanes.{DidQueue, DidTap, IsFilled, IsTapReady};
ghost use Rattle.lane_crew.specs.Loads.{queue_load, tap_load};

use crate::loads::{QueueLoad, TapLoad};
use core::mem::{size_of, swap};
use errands::Job;
use lanes::{QueueLane, TapLane, give_back, program_in, watch, work};
use off_io::Gate;
use std::marker::Model;
use std::sync::Wait;

/// A queue's lane with what it has to do, and what gives blocks back once that is done.
#[derive(Drop)]
pub struct QueueTask {
    load: Box<QueueLoad>,
}

impl Model for QueueTask {
    ghost use Rattle.lane_crew.specs.declared.loads.QueueLoad.{QueueLoad};
    ghost use Rattle.lanes.specs.Lanes.{IsFilled};

    ghost Value = { QueueLoad };

    ghost view = { λ t. t.load.value };

    ghost invariant = { λ t. IsFilled t.load.value.lane };
}

/// A tap's lane with the clones that it has to read, and what gives blocks back once they are read.
#[derive(Drop)]
pub struct WatchTask {
    load: Box<TapLoad>,
}

impl Model for WatchTask {
    ghost use Rattle.lane_crew.specs.declared.loads.TapLoad.{TapLoad};
    ghost use Rattle.lanes.specs.Lanes.{IsTapReady};

    ghost Value = { TapLoad };

    ghost view = { λ t. t.load.value };

    ghost invariant = { λ t. IsTapReady t.load.value.lane };
}

/// A queue's lane once its work is done.
#[derive(Drop)]
pub struct QueueDone {
    load: Box<QueueLoad>,
}

impl Model for QueueDone {
    ghost use Rattle.lane_crew.specs.declared.loads.QueueLoad.{QueueLoad};

    ghost Value = { QueueLoad };

    ghost view = { λ d. d.load.value };
}

/// A tap's lane once its clones are read.
#[derive(Drop)]
pub struct TapDone {
    load: Box<TapLoad>,
}

impl Model for TapDone {
    ghost use Rattle.lane_crew.specs.declared.loads.TapLoad.{TapLoad};

    ghost Value = { TapLoad };

    ghost view = { λ d. d.load.value };
}

/// What one lane has to do.
#[derive(Drop)]
pub enum LaneTask {
    Queue(QueueTask),
    Tap(WatchTask),
}

/// What one lane has done.
#[derive(Drop)]
pub enum LaneDone {
    Queue(QueueDone),
    Tap(TapDone),
}

// What goes over the desk is an address and which it is.
const _: () = prove!(size_of::<LaneTask>() <= 16 && size_of::<LaneDone>() <= 16);

impl QueueTask {
    /// The lane leaves its place with a load. What stays there is what the load had.
    pub(crate) fn send(
        load: Box<QueueLoad>,
        at: usize,
        lane: &mut QueueLane,
        segs: u32,
    ) -> QueueTask
        requires filled { IsFilled lane.old }
        ensures same { result ≡ queue_load at lane.old segs load.value.giver }
    {
        let mut load = load;
        load.at = at;
        load.segs = segs;
        swap(&mut load.lane, lane);
        QueueTask { load }
    }

    fn run<G: Gate, R: Wait>(self, gate: &G, rt: &R) -> QueueDone
        ensures at { result.at ≡ self.at }
        ensures did { DidQueue self.segs self.lane result.lane }
        ensures gave { MayGive self.giver result.giver }
        ensures none_left { LeavesNone self.giver result.giver }
    {
        let QueueTask { mut load } = self;
        let own = &mut *load;
        work(gate, own.segs, &mut own.lane);
        give_back(rt, &mut own.giver);
        QueueDone { load }
    }
}

impl WatchTask {
    /// The lane leaves its place with a load. What stays there is what the load had.
    pub(crate) fn send(load: Box<TapLoad>, at: usize, lane: &mut TapLane, snap: u32) -> WatchTask
        requires ready { IsTapReady lane.old }
        ensures same { result ≡ tap_load at lane.old snap load.value.filter load.value.giver }
    {
        let mut load = load;
        load.at = at;
        load.snap = snap;
        swap(&mut load.lane, lane);
        WatchTask { load }
    }

    fn run<G: Gate, R: Wait>(self, gate: &G, rt: &R) -> TapDone
        ensures at { result.at ≡ self.at }
        ensures did { DidTap self.filter self.snap self.lane result.lane }
        ensures gave { MayGive self.giver result.giver }
        ensures none_left { LeavesNone self.giver result.giver }
    {
        let WatchTask { mut load } = self;
        let own = &mut *load;
        watch(gate, own.snap, program_in(&own.filter), &mut own.lane);
        give_back(rt, &mut own.giver);
        TapDone { load }
    }
}

impl QueueDone {
    pub(crate) fn open(self) -> Box<QueueLoad>
        ensures same { result.value ≡ self }
    {
        let QueueDone { load } = self;
        load
    }
}

impl TapDone {
    pub(crate) fn open(self) -> Box<TapLoad>
        ensures same { result.value ≡ self }
    {
        let TapDone { load } = self;
        load
    }
}

/// What is done of a round's tasks. Each lane passes the gate at point 0 before its work and at point 1 after it. Its
/// task then gives back what it carries.
#[derive(Drop)]
pub struct LaneJob<'g, G, R> {
    pub gate: &'g G,
    /// By which each task gives its list of blocks back.
    pub rt: &'g R,
}

impl<G: Gate, R: Wait> Job<LaneTask, LaneDone> for LaneJob<'_, G, R> {
    ghost use Rattle.lane_crew.specs.Tasks.{DidLane};

    ghost did = { DidLane };

    fn run(&self, task: LaneTask) -> LaneDone {
        match task {
            LaneTask::Queue(task) => LaneDone::Queue(task.run(self.gate, self.rt)),
            LaneTask::Tap(task) => LaneDone::Tap(task.run(self.gate, self.rt)),
        }
    }
}
