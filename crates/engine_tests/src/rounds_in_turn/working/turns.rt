//! What the lanes of two flows in turn come to.
ghost use Rattle.std.specs.Prelude.{◌≡◌, ◌<◌, ◌≤◌, true, length, map, All};
ghost use Rattle.gro.specs.Slots.{packet_of, counts_of, AreHeld, AreShared, WeighAtLeast};
ghost use Rattle.lanes.specs.Clones.{weight_after};
ghost use Rattle.lanes.specs.Lanes.{IsMerged};
ghost use Rattle.lanes.specs.Packets.{RiseFrom};
ghost use Rattle.lanes.specs.Work.{IsPlan};

use super::frames::IN_TURN;
use super::packets::{all_home, in_turn, kept_home, unshared};
use crate::plans::{chosen, plain};
use block_pool::Giver;
use gro::Packets;
use lanes::{Alone, LanePlan, Lanes, QueueLane, TapLane, Works, keep_packets, work_packets};
use off_io::{Gate, NoGate, Who};
use std::alloc::Global;
use std::process::Abort;
use std::sync::atomic::{AtomicU32, Ordering};

// Number, packets and first payload of what a run comes to.
type Said = (u32, u32, u32);

// The lanes of these packets after their work.
fn worked<W: Works>(
    rt: &impl Abort,
    alloc: Global,
    packets: Packets,
    plan: &LanePlan,
    shared: bool,
    works: &mut W,
) -> Lanes
    requires plan { IsPlan plan.now }
    requires held { AreHeld packets.items }
    requires shared { shared ≡ true → 1 ≤ plan.now.taps → AreShared packets.items }
    requires weighs { WeighAtLeast (weight_after 1) packets.items }
    requires rising { RiseFrom 0 (map packet_of packets.items) }
    requires few { counts_of packets.items ≤ 65536 }
    ensures merged { All IsMerged result.queues.items }
{
    let mut packets = packets;
    let mut lanes = Lanes::new(alloc);
    work_packets(
        works,
        alloc,
        &mut packets,
        plan,
        shared,
        &mut lanes,
        &mut None,
    )
    .expect(rt, "there is memory");
    packets.discard();
    lanes
}

/// The lanes of both flows after their work.
pub(crate) fn lanes_of<W: Works>(
    rt: &impl Abort,
    alloc: Global,
    plan: &LanePlan,
    works: &mut W,
) -> Lanes
    requires plan { IsPlan plan.now }
    ensures merged { All IsMerged result.queues.items }
{
    worked(rt, alloc, in_turn(rt, alloc), plan, true, works)
}

// The same by the thread that calls.
fn alone(rt: &impl Abort, alloc: Global, plan: &LanePlan) -> Lanes
    requires plan { IsPlan plan.now }
    ensures merged { All IsMerged result.queues.items }
{
    lanes_of(rt, alloc, plan, &mut Alone { gate: &NoGate })
}

// What the run at a place comes to, by the offload header of its record.
fn said(lane: &QueueLane, place: usize) -> Said
    requires merged { IsMerged lane.now }
    requires inside { place < length lane.now.engine.runs.items }
{
    let slots = lane.packets.slots();
    let run = &lane.engine.runs[place];
    let first = &slots[run.first as usize];
    let head = run.head(0, first);
    (head.number, head.n, head.m)
}

// Whether the runs of a lane come to these rows.
fn has_runs(lane: &QueueLane, rows: &[Said]) -> bool
    requires merged { IsMerged lane.now }
{
    if lane.engine.runs.len() != rows.len() {
        return false;
    }
    for i in 0..rows.len() {
        if said(lane, i) != rows[i] {
            return false;
        }
    }
    true
}

// The same of the queue with this number.
fn says(lanes: &Lanes, queue: usize, rows: &[Said]) -> bool
    requires merged { All IsMerged lanes.now.queues.items }
{
    queue < lanes.queues.len() && has_runs(&lanes.queues[queue], rows)
}

// Whether a tap has read these bytes of each packet, and what it gave back left no Sole.
fn has_windows(lane: &TapLane, from: usize, to: usize) -> bool
    requires within { (from ≤ to) × (to ≤ 70) }
{
    let Some(texts) = lane.texts.as_ref() else {
        return false;
    };
    if texts.len() != 8 {
        return false;
    }
    for i in 0..8 {
        let text = texts.get(i);
        if (text.number as usize, text.bytes) != (i, &IN_TURN[i][from..to]) {
            return false;
        }
    }
    lane.outcomes.has_no_sole()
}

// The same of the tap with this number.
fn has_read(lanes: &Lanes, tap: usize, from: usize, to: usize) -> bool
    requires within { (from ≤ to) × (to ≤ 70) }
{
    tap < lanes.taps.len() && has_windows(&lanes.taps[tap], from, to)
}

// How many windows a tap has, and whether it has none.
fn windows(lanes: &Lanes, tap: usize) -> Option<(usize, bool)> {
    let texts = lanes.taps.get(tap)?.texts.as_ref()?;
    Some((texts.len(), texts.is_empty()))
}

// How many queues and taps there are.
fn sizes(lanes: &Lanes) -> (usize, usize) {
    (lanes.queues.len(), lanes.taps.len())
}

/// A queue for each flow, and two taps of 64 bytes: the second one's windows are the ends of the packets.
pub(crate) fn are_two_and_two(lanes: &Lanes) -> bool
    requires merged { All IsMerged lanes.now.queues.items }
{
    let are_so = [
        says(lanes, 0, &[(0, 4, 16)]),
        says(lanes, 1, &[(1, 4, 16)]),
        has_read(lanes, 0, 0, 64),
        has_read(lanes, 1, 64, 70),
    ];
    (sizes(lanes), are_so) == ((2, 2), [true; 4])
}

#[test]
fn two_queues_and_two_taps(rt: HostRuntime) {
    let lanes = alone(&rt, rt.alloc(), &plain(2, 2, 64));
    let are_right = are_two_and_two(&lanes);
    assert_eq!(rt; (are_right, all_home(&rt, lanes)), (true, 8));
}

/// Both flows in one queue, and no tap.
#[test]
fn one_queue(rt: HostRuntime) {
    let lanes = alone(&rt, rt.alloc(), &plain(1, 0, 64));
    let seen = (sizes(&lanes), says(&lanes, 0, &[(0, 4, 16), (1, 4, 16)]));
    assert_eq!(rt; (seen, all_home(&rt, lanes)), (((1, 0), true), 8));
}

/// The most queues and taps that there may be: two queues have a flow each, and six taps find all windows empty.
#[test]
fn many_lanes(rt: HostRuntime) {
    let lanes = alone(&rt, rt.alloc(), &plain(64, 8, 40));
    let are_so = [
        says(&lanes, 0, &[]),
        says(&lanes, 44, &[(0, 4, 16)]),
        says(&lanes, 45, &[(1, 4, 16)]),
        has_read(&lanes, 1, 40, 70),
    ];
    let seen = (sizes(&lanes), are_so, windows(&lanes, 7));
    assert_eq!(rt;
        (seen, all_home(&rt, lanes)),
        (((64, 8), [true; 4], Some((0, true))), 8)
    );
}

/// By the hash the flows have other queues of four, and the same runs. Runs are of two packets, and two taps of 32
/// bytes are shown 40.
#[test]
fn by_choice(rt: HostRuntime) {
    let alloc = rt.alloc();
    let lanes = alone(&rt, alloc, &chosen(&rt, alloc, 4, 4096, "1,6 0 0 40"));
    let are_so = [
        says(&lanes, 0, &[(1, 4, 16)]),
        says(&lanes, 1, &[(0, 4, 16)]),
        has_read(&lanes, 0, 0, 32),
        has_read(&lanes, 1, 32, 40),
    ];
    let seen = (sizes(&lanes), are_so);
    assert_eq!(rt; (seen, all_home(&rt, lanes)), (((4, 2), [true; 4]), 8));
}

static RUNS_OF_TWO: [Said; 4] = [(0, 2, 16), (1, 2, 16), (4, 2, 16), (5, 2, 16)];

/// Runs of at most two packets; and what a filter shows nothing of has no windows.
#[test]
fn runs_of_two(rt: HostRuntime) {
    let alloc = rt.alloc();
    let lanes = alone(&rt, alloc, &chosen(&rt, alloc, 1, 2, "1,6 0 0 0"));
    let seen = (
        sizes(&lanes),
        says(&lanes, 0, &RUNS_OF_TWO),
        windows(&lanes, 0),
    );
    assert_eq!(rt;
        (seen, all_home(&rt, lanes)),
        (((1, 2), true, Some((0, true))), 8)
    );
}

// Whether nobody else holds the head of a packet in these lanes.
fn are_unshared(lanes: &Lanes) -> bool {
    for lane in &lanes.queues {
        for slot in lane.packets.slots() {
            if !slot.skb.head_is_sole() {
                return false;
            }
        }
    }
    true
}

// Packets of which nobody shares a block, over so many queues and no tap: whether they come out as such, and the blocks
// that come home.
fn unshared_by(rt: &impl Abort, alloc: Global, queues: u32) -> (bool, usize)
    requires queues { (1 ≤ queues) × (queues ≤ 64) }
{
    let plan = plain(queues, 0, 64);
    let packets = unshared(rt, alloc);
    let lanes = worked(
        rt,
        alloc,
        packets,
        &plan,
        true,
        &mut Alone { gate: &NoGate },
    );
    (are_unshared(&lanes), all_home(rt, lanes))
}

/// Without taps nobody shares a block in the lanes, whether their list is one lane's or is spread.
#[test]
fn unshared_without_taps(rt: HostRuntime) {
    let alloc = rt.alloc();
    assert_eq!(rt;
        [unshared_by(&rt, alloc, 1), unshared_by(&rt, alloc, 2)],
        [(true, 8); 2]
    );
}

// How often it was passed.
#[derive(Drop)]
struct Count {
    passes: AtomicU32,
}

impl Gate for Count {
    fn pass(&self, _: Who, _: u32) {
        self.passes.fetch_add(1, Ordering::SeqCst);
    }
}

/// Taps read packets where they lie: nobody shares a block in the lanes, and each lane passes the gate twice.
#[test]
fn read_where_they_lie(rt: HostRuntime) {
    let alloc = rt.alloc();
    let gate = Count {
        passes: AtomicU32::new(0),
    };
    let lanes = worked(
        &rt,
        alloc,
        unshared(&rt, alloc),
        &plain(2, 2, 64),
        false,
        &mut Alone { gate: &gate },
    );
    let passes = gate.passes.load(Ordering::SeqCst);
    let seen = (are_two_and_two(&lanes), are_unshared(&lanes), passes);
    assert_eq!(rt; (seen, all_home(&rt, lanes)), ((true, true, 8), 8));
}

// Works as one thread does, though others are said to read for taps.
#[derive(Drop)]
struct OthersRead<'a, G> {
    own: Alone<'a, G>,
}

impl<G: Gate> Works for OthersRead<'_, G> {
    ghost use Rattle.std.specs.Prelude.{false};

    ghost gives = { false };

    fn reads_here(&self, _packets: &Packets) -> bool {
        false
    }

    fn pass(&self, tap: u32, point: u32) {
        self.own.pass(tap, point);
    }

    fn run_lanes(&mut self, plan: &LanePlan, lanes: &mut Lanes, giver: &mut Option<Giver>) {
        self.own.run_lanes(plan, lanes, giver);
    }
}

/// Of two taps each has a clone of each packet, and reads it behind the queues.
#[test]
fn clones_in_turn(rt: HostRuntime) {
    let alloc = rt.alloc();
    let gate = Count {
        passes: AtomicU32::new(0),
    };
    let lanes = worked(
        &rt,
        alloc,
        in_turn(&rt, alloc),
        &plain(2, 2, 64),
        true,
        &mut OthersRead {
            own: Alone { gate: &gate },
        },
    );
    let passes = gate.passes.load(Ordering::SeqCst);
    let seen = (are_two_and_two(&lanes), passes);
    assert_eq!(rt; (seen, all_home(&rt, lanes)), ((true, 8), 8));
}

/// All lanes in one thread, each passing the gate twice, over packets of which a clone is kept: each is cloned nine
/// times.
#[test]
fn kept_and_alone(rt: HostRuntime) {
    let alloc = rt.alloc();
    let mut packets = in_turn(&rt, alloc);
    let mut kept = Vec::new(alloc);
    keep_packets(&mut packets, &mut kept).expect(&rt, "there is memory");
    let gate = Count {
        passes: AtomicU32::new(0),
    };
    let plan = plain(2, 8, 64);
    let lanes = worked(&rt, alloc, packets, &plan, true, &mut Alone { gate: &gate });
    let are_so = [
        says(&lanes, 0, &[(0, 4, 16)]),
        says(&lanes, 1, &[(1, 4, 16)]),
        has_read(&lanes, 1, 64, 70),
    ];
    let counts = (kept.len(), gate.passes.load(Ordering::SeqCst));
    let seen = (sizes(&lanes), are_so, counts);
    let blocks = all_home(&rt, lanes);
    let home = kept_home(&rt, kept).wrapping_add(blocks);
    assert_eq!(rt; (seen, home), (((2, 8), [true; 3], (8, 20)), 8));
}
