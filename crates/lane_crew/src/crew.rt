//! All who run a round's tasks, as one who works its lanes.
ghost use Rattle.std.specs.Prelude.{◌≡◌, ◌+◌, ◌-◌, ◌≤◌, max, [], length, All, IfOk};
ghost use Rattle.std.specs.VecDeque.{deque_capacity};
ghost use Rattle.block_pool.specs.Giving.{MayGive};
ghost use Rattle.lane_crew.specs.Desks.{IsOpenDesk};
ghost use Rattle.lanes.specs.Filling.{AreReady};
ghost use Rattle.lanes.specs.Work.{Did};

use crate::away::{bring_back, count_to_share, send_all, work_here};
use crate::loads::SpareLoads;
use crate::tasks::{LaneDone, LaneJob, LaneTask};
use block_pool::Giver;
use crossbeam_queue::ArrayQueue;
use errands::{Asker, Crew, DeskName, DoesTasks, Errands, Job, Parkers, Reply, Runner, serve};
use gro::Packets;
use lanes::{FrameLengths, LanePlan, Lanes, SOME_PACKETS, Works, give_back, run_and_give};
use off_io::{Gate, Who};
use std::alloc::{AllocError, Global};
use std::collections::VecDeque;
use std::marker::Model;
use std::sync::Wait;
use std::thread;
use std::thread::{Threads, for_each_mut};

/// The lanes of a round, at most: 64 queues and 8 taps.
pub const LANES: usize = 72;

/// Of more packets the first ones have left the cache by the time that the next tap would read them.
const MANY_PACKETS: usize = 256;

/// A desk for the tasks of lanes, before the call that names it: who asks, who runs tasks, and who wakes whom.
#[derive(Drop)]
pub struct LaneDesk {
    /// Where lanes wait as tasks, at most 72.
    pub errands: Errands<LaneTask>,
    /// The only one that asks there.
    pub asker: Asker<LaneTask>,
    /// Runs tasks for who asks, while it waits.
    pub own: Runner<LaneTask>,
    /// Those beside it.
    pub runners: Vec<Runner<LaneTask>>,
    /// By which who asks and who run tasks wake each other.
    pub parkers: Parkers,
}

/// How many run tasks beside who asks, so that as many lanes are at work as there are processors for, of which the side
/// that reads has one; one at least, so that two lanes may wait for each other.
pub fn count_runners(rt: &impl Threads, lanes: u32) -> u32
    ensures some { 1 ≤ result }
    ensures few { result ≤ max 1 (lanes - 1) }
{
    let threads = match thread::available_parallelism(rt) {
        Ok(count) => count.get().saturating_sub(1).min(lanes as usize) as u32,
        Err(_) => 1,
    };
    threads.saturating_sub(1).max(1)
}

/// A desk with so many who run tasks beside who asks.
pub fn open_desk(alloc: Global, runners: u32) -> Result<LaneDesk, AllocError>
    ensures open { IfOk result IsOpenDesk }
    ensures count { IfOk result (λ desk. length desk.runners.items ≡ runners) }
{
    let (errands, mut asker) = Errands::open(alloc, LANES)?;
    let beside = errands.enlist_all(alloc, &mut asker, runners)?;
    let own = errands.enlist(&mut asker);
    let parkers = Parkers::make(alloc, runners)?;
    Ok(LaneDesk {
        errands,
        asker,
        own,
        runners: beside,
        parkers,
    })
}

/// Who asks at a desk, with all who run its tasks. While it waits it runs tasks itself, so it needs no one else.
/// Places for a round are reserved before.
#[derive(Drop)]
pub struct LaneCrew<'a, 'g, G: Gate, N: DeskName, R: Wait> {
    /// The tasks of lanes go by it, where two or more have something to do.
    crew: Crew<'a, LaneTask, LaneDone, LaneJob<'g, G, R>, N, R>,
    /// For lanes that this thread works without a task.
    gate: &'g G,
    /// By which this thread gives lists of blocks back.
    rt: &'g R,
    // Both are empty between rounds.
    tasks: VecDeque<LaneTask>,
    done: VecDeque<LaneDone>,
    // Between rounds all loads are here.
    spare: SpareLoads,
}

impl<'a, 'g, G: Gate, N: DeskName, R: Wait> Model for LaneCrew<'a, 'g, G, N, R> {
    ghost use Rattle.std.specs.Prelude.{◌≡◌, []};
    ghost use Rattle.atomic_table.specs.Seated.{TableId};

    ghost Value = { TableId };

    ghost view = { λ c. c.crew };

    ghost invariant = { λ c. (c.tasks.items ≡ []) × (c.done.items ≡ []) };
}

impl<'a, 'g, G: Gate, N: DeskName, R: Wait> LaneCrew<'a, 'g, G, N, R> {
    /// The crew of a desk at which nothing was asked yet.
    pub fn new(
        rt: &'a R,
        alloc: Global,
        errands: &'a Errands<LaneTask>,
        replies: &'a ArrayQueue<Reply<LaneTask, LaneDone, LaneJob<'g, G, R>, N>>,
        job: &'a LaneJob<'g, G, R>,
        parkers: &'a Parkers,
        asker: Asker<LaneTask>,
        own: Runner<LaneTask>,
    ) -> Result<LaneCrew<'a, 'g, G, N, R>, AllocError>
        requires own { (asker.desk ≡ errands.now) × (own ≡ errands.now) × (errands.now ≡ N.desk) }
        requires none { asker.log ≡ [] }
        ensures own { IfOk result (λ crew. crew ≡ N.desk) }
    {
        let places = Vec::with_capacity(alloc, LANES)?;
        let tasks = VecDeque::with_capacity(alloc, LANES)?;
        let done = VecDeque::with_capacity(alloc, LANES)?;
        Ok(LaneCrew {
            crew: Crew::new(rt, errands, replies, job, parkers, asker, own, places),
            gate: job.gate,
            rt: job.rt,
            tasks,
            done,
            spare: SpareLoads::new(alloc),
        })
    }
}

// The lanes that have something to do go to the desk as tasks, and come back.
fn run_by_tasks<G: Gate, N: DeskName, R: Wait>(
    crew: &mut Crew<'_, LaneTask, LaneDone, LaneJob<'_, G, R>, N, R>,
    gate: &G,
    rt: &R,
    plan: &LanePlan,
    lanes: &mut Lanes,
    spare: &mut SpareLoads,
    tasks: &mut VecDeque<LaneTask>,
    done: &mut VecDeque<LaneDone>,
    giver: &mut Option<Giver>,
)
    requires ready { AreReady lanes.old }
    requires none { (tasks.old.items ≡ []) × (done.old.items ≡ []) }
    requires room { length lanes.old.queues.items + length lanes.old.taps.items ≤ deque_capacity tasks.old }
    ensures did { Did plan.now lanes.old lanes.new }
    ensures gave { MayGive giver.old giver.new }
    ensures none { (tasks.new.items ≡ []) × (done.new.items ≡ []) }
{
    send_all(gate, plan, lanes, spare, tasks, giver);
    match crew.do_tasks(tasks, done) {
        Ok(()) => bring_back(rt, lanes, spare, done, giver),
        Err(_) => work_here(gate, rt, lanes, spare, tasks, giver),
    }
}

impl<G: Gate, N: DeskName, R: Wait> Works for LaneCrew<'_, '_, G, N, R> {
    ghost use Rattle.std.specs.Prelude.{true};

    ghost gives = { true };

    // A window takes less time to read here than a clone takes to make and to give back, as long as the packets lie in
    // the cache. Of few packets nobody can tell, and lanes of short frames are all worked here.
    fn reads_here(&self, packets: &Packets) -> bool {
        let mut lengths = FrameLengths::new();
        lengths.add(packets);
        lengths.are_short() || (SOME_PACKETS..=MANY_PACKETS).contains(&packets.len())
    }

    fn pass(&self, tap: u32, point: u32) {
        self.gate.pass(Who::Tap(tap), point);
    }

    fn run_lanes(&mut self, plan: &LanePlan, lanes: &mut Lanes, giver: &mut Option<Giver>) {
        let count = lanes.queues.len().saturating_add(lanes.taps.len());
        if count > self.tasks.capacity() || count_to_share(lanes) < 2 {
            run_and_give(self.gate, self.rt, plan, lanes, giver);
        } else {
            run_by_tasks(
                &mut self.crew,
                self.gate,
                self.rt,
                plan,
                lanes,
                &mut self.spare,
                &mut self.tasks,
                &mut self.done,
                giver,
            );
            // What no task carried, or came back with one.
            give_back(self.rt, giver);
        }
    }
}

/// All who run tasks beside who asks, each in a thread of its own, until the run is over.
pub fn serve_lanes<
    J: Job<LaneTask, LaneDone> + Send + Sync,
    N: DeskName + Send + Sync,
    R: Threads + Wait + Sync,
>(
    rt: &R,
    errands: &Errands<LaneTask>,
    runners: &mut [Runner<LaneTask>],
    replies: &ArrayQueue<Reply<LaneTask, LaneDone, J, N>>,
    job: &J,
    parkers: &Parkers,
)
    requires own { errands.now ≡ N.desk }
    requires runners { All (λ r. r ≡ errands.now) runners.old }
{
    let count = runners.len();
    if count == 0 {
        return;
    }
    for_each_mut(
        rt,
        runners,
        count,
        &|index, runner| { serve(rt, errands, runner, replies, job, parkers, index) },
    );
}
