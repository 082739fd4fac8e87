//! Lanes by a crew, which lives for many rounds: with nobody beside who asks, and with some.
ghost use Rattle.std.specs.Prelude.{◌≡◌, ◌≤◌, [], All};
ghost use Rattle.lanes.specs.Work.{IsPlan};

use super::packets::all_home;
use super::turns::{are_two_and_two, lanes_of};
use crate::plans::{chosen, plain};
use crossbeam_queue::ArrayQueue;
use errands::{Asker, DeskName, Errands, Job, Parkers, Reply, Runner};
use lane_crew::{LANES, LaneCrew, LaneDesk, LaneDone, LaneJob, LaneTask, open_desk, serve_lanes};
use lanes::{LanePlan, Works};
use off_io::{Gate, Meeting, NoGate, Who};
use std::alloc::Global;
use std::marker::Brand;
use std::process::Abort;
use std::sync::Wait;
use std::thread::{Threads, join_mut};

// The blocks of so many rounds that came home.
fn rounds_by<R: Abort, W: Works>(
    rt: &R,
    alloc: Global,
    plan: &LanePlan,
    works: &mut W,
    rounds: u32,
) -> usize
    requires plan { IsPlan plan.now }
{
    let mut blocks = 0usize;
    for _ in 0..rounds {
        let lanes = lanes_of(rt, alloc, plan, works);
        if (plan.queues, plan.taps, plan.snap) == (2, 2, 64) {
            assert!(rt; are_two_and_two(&lanes));
        }
        blocks = blocks.wrapping_add(all_home(rt, lanes));
    }
    blocks
}

// The same beside all who run tasks.
fn beside<
    'a,
    J: Job<LaneTask, LaneDone> + Send + Sync,
    N: DeskName + Send + Sync,
    R: Threads + Wait + Abort + Sync,
    W: Works,
>(
    rt: &'a R,
    alloc: Global,
    plan: &'a LanePlan,
    errands: &'a Errands<LaneTask>,
    replies: &'a ArrayQueue<Reply<LaneTask, LaneDone, J, N>>,
    job: &'a J,
    parkers: &'a Parkers,
    runners: &'a mut [Runner<LaneTask>],
    works: &'a mut W,
    rounds: u32,
) -> usize
    requires plan { IsPlan plan.now }
    requires own { errands.now ≡ N.desk }
    requires runners { All (λ r. r ≡ errands.now) runners.old }
{
    let ((), blocks) = join_mut(
        rt,
        &mut ||
            requires own { errands.now ≡ N.desk }
            requires runners { All (λ r. r ≡ errands.now) runners.now }
        { serve_lanes(rt, errands, runners, replies, job, parkers) },
        &mut || -> usize
            requires plan { IsPlan plan.now }
        {
            let blocks = rounds_by(rt, alloc, plan, works, rounds);
            parkers.close();
            blocks
        },
    );
    blocks
}

fn by_crew_named<N: DeskName + Send + Sync, R: Threads + Wait + Abort + Sync, G: Gate + Sync>(
    rt: &R,
    alloc: Global,
    plan: &LanePlan,
    gate: &G,
    errands: &Errands<LaneTask>,
    asker: Asker<LaneTask>,
    own: Runner<LaneTask>,
    parkers: &Parkers,
    runners: &mut [Runner<LaneTask>],
    rounds: u32,
) -> usize
    requires plan { IsPlan plan.now }
    requires own { (asker.desk ≡ errands.now) × (own ≡ errands.now) × (errands.now ≡ N.desk) }
    requires none { asker.log ≡ [] }
    requires runners { All (λ r. r ≡ errands.now) runners.old }
{
    let job = LaneJob { gate, rt };
    let replies = ArrayQueue::new(alloc, LANES).expect(rt, "no memory");
    let crew = LaneCrew::new(rt, alloc, errands, &replies, &job, parkers, asker, own);
    let mut crew = crew.expect(rt, "no memory");
    beside::<LaneJob<'_, G, R>, N, R, LaneCrew<'_, '_, G, N, R>>(
        rt, alloc, plan, errands, &replies, &job, parkers, runners, &mut crew, rounds,
    )
}

// The blocks of so many rounds, by a crew with so many beside who asks.
fn by_crew<R: Threads + Wait + Abort + Sync, G: Gate + Sync>(
    rt: &R,
    alloc: Global,
    plan: &LanePlan,
    gate: &G,
    beside_it: u32,
    rounds: u32,
) -> usize
    requires plan { IsPlan plan.now }
{
    let LaneDesk {
        errands,
        asker,
        own,
        mut runners,
        parkers,
    } = open_desk(alloc, beside_it).expect(rt, "no memory");
    by_crew_named::<Brand, R, G>(
        rt,
        alloc,
        plan,
        gate,
        &errands,
        asker,
        own,
        &parkers,
        &mut runners,
        rounds,
    )
}

/// With nobody beside who asks, and with one and five: each round's lanes are those of one thread.
#[test]
fn rounds_by_crews(rt: HostRuntime) {
    let alloc = rt.alloc();
    let plan = plain(2, 2, 64);
    let blocks = [
        by_crew(&rt, alloc, &plan, &NoGate, 0, 100),
        by_crew(&rt, alloc, &plan, &NoGate, 1, 1_000),
        by_crew(&rt, alloc, &plan, &NoGate, 5, 1_000),
    ];
    assert_eq!(rt; blocks, [800, 8_000, 8_000]);
}

/// One lane alone, which is no task; 72 lanes, of which most have nothing to do; and taps that share a filter.
#[test]
fn few_lanes_and_many(rt: HostRuntime) {
    let alloc = rt.alloc();
    let shown = chosen(&rt, alloc, 4, 4096, "1,6 0 0 40");
    let blocks = [
        by_crew(&rt, alloc, &plain(1, 0, 64), &NoGate, 1, 10),
        by_crew(&rt, alloc, &plain(64, 8, 40), &NoGate, 3, 10),
        by_crew(&rt, alloc, &shown, &NoGate, 3, 10),
    ];
    assert_eq!(rt; blocks, [80; 3]);
}

// The blocks of a round of these queues and taps, with one beside who asks, and how many of two of its tasks have seen
// the other.
fn seen<R: Threads + Wait + Abort + Sync>(
    rt: &R,
    alloc: Global,
    lanes: (u32, u32),
    one: Who,
    other: Who,
) -> (usize, u32)
    requires queues { (1 ≤ lanes.0) × (lanes.0 ≤ 64) }
    requires taps { lanes.1 ≤ 8 }
{
    let plan = plain(lanes.0, lanes.1, 64);
    let meeting = Meeting::of(one, other);
    let blocks = by_crew(rt, alloc, &plan, &meeting, 1, 1);
    (blocks, meeting.met())
}

/// Tasks that wait for one another meet, whichever the lanes are: one of them is done by who asks.
#[test]
fn tasks_meet(rt: HostRuntime) {
    let alloc = rt.alloc();
    let met = [
        seen(&rt, alloc, (1, 1), Who::Worker(0), Who::Tap(0)),
        seen(&rt, alloc, (1, 2), Who::Tap(0), Who::Tap(1)),
        seen(&rt, alloc, (2, 0), Who::Worker(0), Who::Worker(1)),
        seen(&rt, alloc, (2, 2), Who::Worker(1), Who::Tap(0)),
    ];
    assert_eq!(rt; met, [(8, 2); 4]);
}
