//! Reading beside the work is paused behind a record's header where the blocks that it needs are those of the only
//! round that is out, and goes on once that round has ended. What comes of it is what comes over many blocks.
//!
//! The queue holds each round for a while before its work, and two taps give both spares of its record meanwhile. Where
//! there are blocks for another record only once the round has ended, the reader then finds neither list nor block.

use crate::reading_beside::checks::{Checked, checked};
use crate::reading_beside::memory::{How, capture, reads_beside, rounds_of, sink_of, source_of};
use checking::CheckEnd;
use off_io::{Feed, Gate, MemSource, Who};
use pcap_io::{CaptureReader, Link};
use pipeline::merge_beside;
use rounds::MergeEnd;
use std::alloc::Global;
use std::process::Abort;
use std::sync::Wait;
use std::thread::{Threads, yield_now};

// As many blocks as each record needs, which is alone in its round, with two taps.
const FEWEST: How = How {
    blocks: 3,
    budget: 1,
    queues: 1,
    taps: 2,
};

const MANY: How = How {
    blocks: 8384,
    ..FEWEST
};

// The file header takes a read, and a record two: the body of the second one.
const BODY_OF_THE_SECOND: u64 = 4;

// The queue gives way to other threads this often.
const TURNS: u32 = 2_000;

// So often it is tried until reading is paused.
const TRIES: u32 = 100;

// The queue is held, and taps aren't. Two spares are too few for three lanes: those of the taps have them, which go
// last.
#[derive(Drop)]
struct Held;

impl Gate for Held {
    fn pass(&self, who: Who, point: u32) {
        if point != 0 || who != Who::Worker(0) {
            return;
        }
        for _ in 0..TURNS {
            yield_now();
        }
    }
}

// Four packets of one segment each, from a source that fails at these of its calls.
fn four_packets(rt: &impl Abort, alloc: Global, fails: &[u64]) -> MemSource {
    source_of(rt, alloc, &capture(rt, alloc, 1), fails)
}

// Merged to a sink that fails at these of its calls: how it ended, what was written, and how often reading was paused.
// All blocks are home.
fn merged(
    rt: &(impl Threads + Wait + Abort + Sync),
    alloc: Global,
    how: How,
    reads: &[u64],
    writes: &[u64],
) -> (MergeEnd, Vec<u8>, u64) {
    let mut feed = Feed {
        inner: four_packets(rt, alloc, reads),
    };
    let Ok(mut reader) = CaptureReader::start(&mut feed, Link::Ethernet) else {
        panic!(rt; "the file header is lawful");
    };
    let file = reader.file();
    let mut sink = sink_of(rt, alloc, 4096, writes);
    let mut rounds = rounds_of(rt, alloc, how, 64);
    let end = merge_beside(rt, alloc, &mut rounds, &mut reader, &file, &mut sink, &Held);
    assert!(rt; rounds.home() == how.blocks);
    let written = sink.bytes().to_vec(alloc).expect(rt, "no memory");
    (end, written, rounds.pauses())
}

// Over many blocks merging ends in this way and never pauses. Over the fewest it ends and writes so too, again and
// again until reading was paused: who is first, reader or queue, isn't the same each time.
fn pauses_and_ends_so(
    rt: &(impl Threads + Wait + Abort + Sync),
    alloc: Global,
    reads: &[u64],
    writes: &[u64],
    wanted: MergeEnd,
) -> bool {
    let (end, output, pauses) = merged(rt, alloc, MANY, reads, writes);
    if end != wanted || pauses != 0 {
        return false;
    }
    for _ in 0..TRIES {
        let (end, written, pauses) = merged(rt, alloc, FEWEST, reads, writes);
        if end != wanted || written.as_slice() != output.as_slice() {
            return false;
        }
        if pauses > 0 || !reads_beside(rt) {
            return true;
        }
    }
    false
}

fn checked_over(rt: &(impl Threads + Wait + Abort + Sync), alloc: Global, how: How) -> Checked {
    let source = four_packets(rt, alloc, &[]);
    checked(rt, alloc, how, source, &Held)
}

// The same of checking, which ends well, with all blocks home.
fn checking_pauses(rt: &(impl Threads + Wait + Abort + Sync), alloc: Global) -> bool {
    let (end, wanted, home, pauses) = checked_over(rt, alloc, MANY);
    if end != CheckEnd::Done || home != MANY.blocks || pauses != 0 {
        return false;
    }
    for _ in 0..TRIES {
        let (end, lines, home, pauses) = checked_over(rt, alloc, FEWEST);
        if end != CheckEnd::Done || home != FEWEST.blocks || lines.as_slice() != wanted.as_slice() {
            return false;
        }
        if pauses > 0 || !reads_beside(rt) {
            return true;
        }
    }
    false
}

#[test]
fn checking_pauses_over_the_fewest_blocks(rt: HostRuntime) {
    assert!(rt; checking_pauses(&rt, rt.alloc()));
}

#[test]
fn merging_pauses_over_the_fewest_blocks(rt: HostRuntime) {
    assert!(rt; pauses_and_ends_so(&rt, rt.alloc(), &[], &[], MergeEnd::Done));
}

// The body of the record whose header was kept can't be read; or the first round can't be written. What is written is
// what is over many blocks, from such a source and to such a sink.
#[test]
fn source_and_sink_fail_with_a_paused_round(rt: HostRuntime) {
    let (alloc, reads) = (rt.alloc(), [BODY_OF_THE_SECOND]);
    let end_so = [
        pauses_and_ends_so(&rt, alloc, &reads, &[], MergeEnd::ReadFault),
        pauses_and_ends_so(&rt, alloc, &[], &[1], MergeEnd::WriteFault),
    ];
    assert_eq!(rt; end_so, [true; 2]);
}
