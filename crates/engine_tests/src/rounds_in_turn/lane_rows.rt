//! Rounds that are worked over queues and taps, with threads and without. The expected bytes were computed by a
//! separate program.
ghost use Rattle.std.specs.Prelude.{◌≡◌, ◌+◌, ◌≤◌, length};
ghost use Rattle.lanes.specs.Work.{IsPlan};

use crate::byte_lists::hash;
use crate::plans::{chosen, plain};
use crate::rounds_in_turn::captures::{feed_of, merge, reader_of, written};
use crate::rounds_in_turn::working::frames::IN_TURN;
use crate::rounds_in_turn::writing::FILE;
use lanes::{Alone, LanePlan};
use off_io::{Feed, MemSink, MemSource, NoGate};
use pcap_io::Link;
use pipeline::merge_beside;
use rounds::{MergeEnd, RoundRead, Rounds, Worked};
use std::alloc::{AllocError, Global};
use std::process::Abort;
use std::sync::Wait;
use std::thread::Threads;
use worked_captures::{BY_QUEUE, FILE_HEADER, TWO_FLOWS, TWO_RECORDS, WITH_WINDOWS, WRITTEN};

// The same as `merge`, by threads.
fn merge_by_threads<R: Threads + Wait + Abort + Sync>(
    rt: &R,
    alloc: Global,
    rounds: &mut Rounds,
    feed: &mut Feed<MemSource>,
    sink: &mut MemSink,
) -> MergeEnd
    requires home { length rounds.old.stock ≡ rounds.old.blocks }
{
    let mut reader = reader_of(rt, feed, Link::Ethernet);
    let file = reader.file();
    merge_beside(rt, alloc, rounds, &mut reader, &file, sink, &NoGate)
}

// Merged over fifteen blocks, by threads or not: how it ended, the blocks that are home, and what was written.
fn merged<R: Threads + Wait + Abort + Sync>(
    rt: &R,
    alloc: Global,
    capture: &[u8],
    budget: u32,
    plan: LanePlan,
    keep: bool,
    threads: bool,
) -> (MergeEnd, u32, Vec<u8>)
    requires budget { (1 ≤ budget) × (budget ≤ 4096) }
    requires plan { IsPlan plan }
{
    let mut feed = feed_of(rt, alloc, capture, 4096, &[]);
    let mut sink = MemSink::new(alloc, 64, Vec::new(alloc));
    let mut rounds = Rounds::make(alloc, 15, budget, plan, keep).expect(rt, "no memory");
    let end = if threads {
        merge_by_threads(rt, alloc, &mut rounds, &mut feed, &mut sink)
    } else {
        merge(rt, &mut rounds, &mut feed, &mut sink)
    };
    (end, rounds.home(), written(rt, alloc, &sink))
}

// Whether merging ended well, with all blocks home, and this was written.
fn is_done(merged: (MergeEnd, u32, Vec<u8>), bytes: &[u8]) -> bool {
    let (end, home, written) = merged;
    (end, home, written.as_slice()) == (MergeEnd::Done, 15, bytes)
}

#[test]
fn records_stand_by_queue(rt: HostRuntime) {
    let alloc = rt.alloc();
    let beside = merged(&rt, alloc, &TWO_FLOWS, 4, plain(2, 0, 64), false, true);
    let here = merged(&rt, alloc, &TWO_FLOWS, 4, plain(2, 0, 64), false, false);
    assert_eq!(rt;
        [is_done(beside, &BY_QUEUE), is_done(here, &BY_QUEUE)],
        [true; 2]
    );
}

#[test]
fn windows_stand_behind_by_tap(rt: HostRuntime) {
    let alloc = rt.alloc();
    let beside = merged(&rt, alloc, &TWO_RECORDS, 2, plain(1, 2, 1), false, true);
    let here = merged(&rt, alloc, &TWO_RECORDS, 2, plain(1, 2, 1), false, false);
    assert_eq!(rt;
        [is_done(beside, &WITH_WINDOWS), is_done(here, &WITH_WINDOWS)],
        [true; 2]
    );
}

#[test]
fn clones_that_are_kept_change_nothing(rt: HostRuntime) {
    let kept = merged(&rt, rt.alloc(), &TWO_FLOWS, 4, plain(2, 0, 64), true, true);
    assert!(rt; is_done(kept, &BY_QUEUE));
}

// The packets of two flows in turn, each in a second of its own.
fn in_turn(alloc: Global) -> Result<Vec<u8>, AllocError> {
    let mut capture = FILE_HEADER.to_vec(alloc)?;
    for second in 0..8u32 {
        let [a, b, c, d] = second.to_le_bytes();
        capture.extend_from_slice(&[a, b, c, d, 0, 0, 0, 0, 70, 0, 0, 0, 70, 0, 0, 0])?;
        capture.extend_from_slice(&IN_TURN[second as usize])?;
    }
    Ok(capture)
}

// Rounds of five: runs of two packets at most, in queues by a hash, and two taps that a filter shows 40 bytes. What is
// written was hashed by a separate program, whose output it is.
#[test]
fn runs_and_windows_by_choice(rt: HostRuntime) {
    let alloc = rt.alloc();
    let capture = in_turn(alloc).expect(&rt, "no memory");
    let plan = chosen(&rt, alloc, 4, 2, "1,6 0 0 40");
    let (end, home, written) = merged(&rt, alloc, &capture, 5, plan, false, true);
    assert_eq!(rt;
        (end, home, written.len(), hash(&written)),
        (MergeEnd::Done, 15, 1390, 1447372596)
    );
}

// Rounds of two over six blocks.
fn rounds_by(rt: &impl Abort, alloc: Global, plan: LanePlan) -> Rounds
    requires plan { IsPlan plan }
    ensures home { (length result.stock ≡ 6) × (result.blocks ≡ 6) }
{
    Rounds::make(alloc, 6, 2, plan, false).expect(rt, "no memory")
}

// The two records of a capture, read and worked.
fn worked_in(rt: &impl Abort, alloc: Global, rounds: &mut Rounds) -> Worked
    requires home { length rounds.old.stock ≡ rounds.old.blocks }
    ensures out { length rounds.new.stock + result.blocks ≡ rounds.old.blocks }
    ensures blocks { rounds.new.blocks ≡ rounds.old.blocks }
{
    let mut feed = feed_of(rt, alloc, &TWO_RECORDS, 24, &[]);
    let mut reader = reader_of(rt, &mut feed, Link::Ethernet);
    let RoundRead { round, end: _ } = rounds.read_round(&mut reader);
    let worked = rounds.work_round(&mut Alone { gate: &NoGate }, round);
    worked.expect(rt, "no memory")
}

// What is written of them.
fn written_in(rt: &impl Abort, alloc: Global, rounds: &mut Rounds) -> Vec<u8>
    requires home { length rounds.old.stock ≡ rounds.old.blocks }
{
    let mut sink = MemSink::new(alloc, 64, Vec::new(alloc));
    let worked = worked_in(rt, alloc, rounds);
    rounds
        .write_round(&worked, &FILE, &mut sink)
        .expect(rt, "all is written");
    rounds.end_round(worked);
    written(rt, alloc, &sink)
}

/// Rounds that end each other's round have lanes of another plan for the next one, and write what they would have.
#[test]
fn lanes_of_another_plan(rt: HostRuntime) {
    let alloc = rt.alloc();
    let mut one = rounds_by(&rt, alloc, plain(1, 0, 64));
    let mut other = rounds_by(&rt, alloc, plain(1, 2, 1));
    let of_one = worked_in(&rt, alloc, &mut one);
    let of_other = worked_in(&rt, alloc, &mut other);
    assert_eq!(rt; (one.home(), other.home()), (0, 0));
    one.end_round(of_other);
    other.end_round(of_one);
    let home = (one.home(), other.home());
    let by_one = written_in(&rt, alloc, &mut one);
    let by_other = written_in(&rt, alloc, &mut other);
    assert_eq!(rt;
        (home, by_one.as_slice(), by_other.as_slice()),
        ((6, 6), WRITTEN.as_slice(), WITH_WINDOWS.as_slice())
    );
}
