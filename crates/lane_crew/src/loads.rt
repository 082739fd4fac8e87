//! What tasks carry, in boxes that serve from round to round.
ghost use Rattle.std.specs.Prelude.{◌≡◌, MatchOption, max, IfSome};
ghost use Rattle.lane_crew.specs.Givers.{Carries};

use crate::carrying::carry;
use block_pool::Giver;
use lanes::{LanePlan, QueueLane, SharedProgram, TapLane, free_queue, free_tap, share_in};
use std::alloc::{AllocError, Global};

/// What a queue's task carries, in a box that serves from round to round. What it has between two tasks is of no
/// account. One that is dropped frees its blocks.
pub struct QueueLoad {
    /// The lane's place among the queues.
    pub(crate) at: usize,
    /// With the packets that it is to merge, and then their runs.
    pub(crate) lane: QueueLane,
    /// How many packets a run may have.
    pub(crate) segs: u32,
    /// With this lane's part of the list that goes back, and then with what found no place; None where it got none.
    pub(crate) giver: Option<Giver>,
}

/// The same of a tap's task.
pub struct TapLoad {
    /// The lane's place among the taps.
    pub(crate) at: usize,
    /// With the clones that it is to read, and then the windows and what the clones left.
    pub(crate) lane: TapLane,
    /// The bytes of a window.
    pub(crate) snap: u32,
    /// What is shown of each packet: as many bytes as its value. All where there is none.
    pub(crate) filter: Option<SharedProgram>,
    /// With this lane's part of the list that goes back, and then with what found no place; None where it got none.
    pub(crate) giver: Option<Giver>,
}

/// Boxes that no task has: as many as lanes once went away together.
#[derive(Drop)]
pub(crate) struct SpareLoads {
    queues: Vec<Box<QueueLoad>>,
    taps: Vec<Box<TapLoad>>,
}

impl Drop for QueueLoad {
    fn drop(self) {
        let QueueLoad {
            at: _,
            lane,
            segs: _,
            giver: _giver,
        } = self;
        free_queue(lane);
    }
}

impl Drop for TapLoad {
    fn drop(self) {
        let TapLoad {
            at: _,
            lane,
            snap: _,
            filter: _filter,
            giver: _giver,
        } = self;
        free_tap(lane);
    }
}

impl QueueLoad {
    /// One that carries an idle lane.
    pub(crate) fn make(alloc: Global) -> Result<Box<QueueLoad>, AllocError> {
        let idle = QueueLoad {
            at: 0,
            lane: QueueLane::new(alloc, 0),
            segs: 0,
            giver: None,
        };
        Ok(Box::new(alloc, idle)?)
    }
}

impl TapLoad {
    /// One that carries an idle lane.
    pub(crate) fn make(alloc: Global) -> Result<Box<TapLoad>, AllocError> {
        let idle = TapLoad {
            at: 0,
            lane: TapLane::new(alloc, 0),
            snap: 0,
            filter: None,
            giver: None,
        };
        Ok(Box::new(alloc, idle)?)
    }
}

impl SpareLoads {
    /// None yet.
    pub(crate) fn new(alloc: Global) -> SpareLoads {
        SpareLoads {
            queues: Vec::new(alloc),
            taps: Vec::new(alloc),
        }
    }

    fn take_queue(&mut self) -> Option<Box<QueueLoad>> {
        match self.queues.pop() {
            Some(load) => Some(load),
            None => QueueLoad::make(*self.queues.allocator()).ok(),
        }
    }

    fn take_tap(&mut self) -> Option<Box<TapLoad>> {
        match self.taps.pop() {
            Some(load) => Some(load),
            None => TapLoad::make(*self.taps.allocator()).ok(),
        }
    }

    /// A load comes back. Without memory for its place it is freed.
    pub(crate) fn put_queue(&mut self, load: Box<QueueLoad>) {
        let _ = self.queues.push(load);
    }

    /// The same of a tap's.
    pub(crate) fn put_tap(&mut self, load: Box<TapLoad>) {
        let _ = self.taps.push(load);
    }

    /// For a queue's task, with its part of the list. None where there is nothing to merge, or no memory: then it is no
    /// task.
    pub(crate) fn load_queue(
        &mut self,
        lane: &QueueLane,
        giver: &mut Option<Giver>,
        among: usize,
    ) -> Option<Box<QueueLoad>>
        ensures carried { MatchOption result (giver.new ≡ giver.old)
            (λ load. Carries (max 1 among) giver.old giver.new load.value.giver) }
    {
        if lane.packets.is_empty() {
            return None;
        }
        let mut load = self.take_queue()?;
        load.giver = carry(giver, among).ok()?;
        Some(load)
    }

    /// For a tap's task, with the filter and its part of the list. None where there is nothing to read, or no memory.
    pub(crate) fn load_tap(
        &mut self,
        lane: &TapLane,
        plan: &LanePlan,
        giver: &mut Option<Giver>,
        among: usize,
    ) -> Option<Box<TapLoad>>
        ensures same { IfSome result (λ load. load.value.filter ≡ plan.now.filter) }
        ensures carried { MatchOption result (giver.new ≡ giver.old)
            (λ load. Carries (max 1 among) giver.old giver.new load.value.giver) }
    {
        if lane.clones.is_empty() {
            return None;
        }
        let mut load = self.take_tap()?;
        load.filter = share_in(&plan.filter).ok()?;
        load.giver = carry(giver, among).ok()?;
        Some(load)
    }
}
