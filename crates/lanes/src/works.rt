//! Who works the lanes of a round: the thread that calls, or all who run tasks.
ghost use Rattle.std.specs.Prelude.{◌≡◌, true, All, Bool};
ghost use Rattle.block_pool.specs.Giving.{LeavesNone, MayGive};
ghost use Rattle.lanes.specs.Lanes.{IsFilled, IsTapReady};
ghost use Rattle.lanes.specs.Work.{Did};

use crate::lane::Lanes;
use crate::plan::LanePlan;
use crate::working::{run_and_give, run_in_turn};
use block_pool::Giver;
use gro::Packets;
use off_io::{Gate, Who};
use std::sync::Wait;

/// Who works the lanes of a round.
pub trait Works {
    /// Whether blocks go back while lanes are worked.
    ghost gives: { Bool };

    /// Whether taps best read these packets where they lie, in the thread that calls, and not as lanes of their own.
    fn reads_here(&self, packets: &Packets) -> bool;

    /// A tap's task passes the gate, as lanes do: at point 0 before its work and at point 1 after it.
    fn pass(&self, tap: u32, point: u32);

    /// Each lane does what it has to do, in whichever order. What lies in the giver's list may go back to its pool
    /// meanwhile; where `gives` says that it does, no block is left there, unless a put found no place.
    fn run_lanes(&mut self, plan: &LanePlan, lanes: &mut Lanes, giver: &mut Option<Giver>)
        requires queues { All IsFilled lanes.old.queues.items }
        requires taps { All IsTapReady lanes.old.taps.items }
        ensures did { Did plan.now lanes.old lanes.new }
        ensures gave { MayGive giver.old giver.new }
        ensures none_left { gives ≡ true → LeavesNone giver.old giver.new };
}

/// The thread that calls, with no handle of threads: one lane after another. It gives nothing back.
#[derive(Drop)]
pub struct Alone<'a, G> {
    /// Each lane passes it at point 0 before its work and at point 1 after it.
    pub gate: &'a G,
}

impl<G: Gate> Works for Alone<'_, G> {
    ghost use Rattle.std.specs.Prelude.{false};

    ghost gives = { false };

    fn reads_here(&self, _packets: &Packets) -> bool {
        true
    }

    fn pass(&self, tap: u32, point: u32) {
        self.gate.pass(Who::Tap(tap), point);
    }

    fn run_lanes(&mut self, plan: &LanePlan, lanes: &mut Lanes, _giver: &mut Option<Giver>) {
        run_in_turn(self.gate, plan, lanes);
    }
}

/// The thread that calls, where others take lists beside it: one lane after another. Once the first queue's lane that
/// had packets is worked the list goes back.
#[derive(Drop)]
pub struct Beside<'a, G, R> {
    /// Each lane passes it at point 0 before its work and at point 1 after it.
    pub gate: &'a G,
    /// By which the list goes back.
    pub rt: &'a R,
}

impl<G: Gate, R: Wait> Works for Beside<'_, G, R> {
    ghost gives = { true };

    fn reads_here(&self, _packets: &Packets) -> bool {
        true
    }

    fn pass(&self, tap: u32, point: u32) {
        self.gate.pass(Who::Tap(tap), point);
    }

    fn run_lanes(&mut self, plan: &LanePlan, lanes: &mut Lanes, giver: &mut Option<Giver>) {
        run_and_give(self.gate, self.rt, plan, lanes, giver);
    }
}
