//! Two sides write what one writes, end as it does, and all blocks are home, also with those who run lanes beside them.
//! Where there is one processor alone there are no two sides, and these tests say nothing of them; who run lanes are
//! there all the same.

use crate::byte_lists::joined;
use crate::reading_beside::halting::{Dice, Halting, HaltingGate};
use crate::reading_beside::memory::{
    How, capture, large_record, reads_beside, rounds_of, sink_of, source_of,
};
use lanes::Alone;
use off_io::{Failed, Feed, Gate, Meeting, MemSource, NoGate, Sink, Source, Who};
use pcap_io::{CaptureReader, Link};
use pipeline::merge_beside;
use rounds::MergeEnd;
use std::alloc::Global;
use std::process::Abort;
use std::sync::Wait;
use std::thread::Threads;
use worked_captures::TWO_FLOWS;

// As many blocks as each record needs, which is alone in its round.
const FEWEST: How = How {
    blocks: 3,
    budget: 1,
    queues: 1,
    taps: 0,
};

// Rounds of three records, by seven lanes, over as many blocks as each round needs.
const CREWED: How = How {
    blocks: 9,
    budget: 3,
    queues: 4,
    taps: 3,
};

// How merging ended, the blocks that are home and those that were taken.
type Ended = (MergeEnd, u32, u64);

// Merges from the source into the sink by two sides, or in one thread.
fn merged<S: Source + Send + Drop, K: Sink, G: Gate + Sync>(
    rt: &(impl Threads + Wait + Abort + Sync),
    alloc: Global,
    how: How,
    source: S,
    sink: &mut K,
    gate: &G,
    beside: bool,
) -> Ended {
    let mut feed = Feed { inner: source };
    let Ok(mut reader) = CaptureReader::start(&mut feed, Link::Ethernet) else {
        panic!(rt; "the file header is lawful");
    };
    let file = reader.file();
    let mut rounds = rounds_of(rt, alloc, how, 64);
    let end = if beside {
        merge_beside(rt, alloc, &mut rounds, &mut reader, &file, sink, gate)
    } else {
        rounds.merge_all(&mut Alone { gate }, &mut reader, &file, sink)
    };
    (end, rounds.home(), rounds.taken())
}

// What became of the spares of four records that are merged by two sides.
fn spares_of(
    rt: &(impl Threads + Wait + Abort + Sync),
    alloc: Global,
    how: How,
) -> (u64, u64, u64) {
    let mut feed = Feed {
        inner: source_of(rt, alloc, &capture(rt, alloc, 1), &[]),
    };
    let Ok(mut reader) = CaptureReader::start(&mut feed, Link::Ethernet) else {
        panic!(rt; "the file header is lawful");
    };
    let file = reader.file();
    let mut rounds = rounds_of(rt, alloc, how, 64);
    let mut sink = sink_of(rt, alloc, 4096, &[]);
    let _ = merge_beside(
        rt,
        alloc,
        &mut rounds,
        &mut reader,
        &file,
        &mut sink,
        &NoGate,
    );
    let spares = rounds.spares();
    (spares.lent, spares.given, spares.refused)
}

// Two of each record: in one thread, and with those who run lanes, where the last round isn't full.
#[test]
fn spares_go_back_while_their_round_is_worked(rt: HostRuntime) {
    let alloc = rt.alloc();
    let (one, crewed) = if reads_beside(&rt) { (8, 6) } else { (0, 0) };
    let seen = (spares_of(&rt, alloc, FEWEST), spares_of(&rt, alloc, CREWED));
    assert!(rt; seen == ((one, one, 0), (crewed, crewed, 0)));
}

// Both ways write the same, and end in the same way, with all blocks home.
fn same_both_ways(
    rt: &(impl Threads + Wait + Abort + Sync),
    alloc: Global,
    how: How,
    input: &[u8],
) -> MergeEnd {
    let source = source_of(rt, alloc, input, &[]);
    let mut one = sink_of(rt, alloc, 64, &[]);
    let want = merged(rt, alloc, how, source, &mut one, &NoGate, false);
    let source = source_of(rt, alloc, input, &[]);
    let mut two = sink_of(rt, alloc, 64, &[]);
    let got = merged(rt, alloc, how, source, &mut two, &NoGate, true);
    assert!(rt; got == want && want.1 == how.blocks);
    assert!(rt; one.bytes() == two.bytes() && one.is_flushed() == two.is_flushed());
    got.0
}

// Rounds of one to three records, by one queue or two, with a tap or none, over the fewest blocks or over many.
fn case(number: u32) -> How {
    let budget = number / 8 % 3 + 1;
    How {
        blocks: 3 * budget + 200 * (number % 2),
        budget,
        queues: number / 4 % 2 + 1,
        taps: number / 2 % 2,
    }
}

#[test]
fn two_sides_write_what_one_writes(rt: HostRuntime) {
    let alloc = rt.alloc();
    let input = capture(&rt, alloc, 2);
    for number in 0..24u32 {
        let end = same_both_ways(&rt, alloc, case(number), &input);
        assert!(rt; end == MergeEnd::Done);
    }
}

// A capture that is cut off within its last record, and one of which a record, behind 16 others, needs more blocks than
// there are.
#[test]
fn two_sides_end_as_one_does(rt: HostRuntime) {
    let alloc = rt.alloc();
    let mut short = capture(&rt, alloc, 4);
    let large = joined(
        &rt,
        alloc,
        &[&short, &large_record(&rt, alloc, &short), &TWO_FLOWS[24..]],
    );
    let _ = short.pop();
    let cut = same_both_ways(&rt, alloc, FEWEST, &short);
    let exceeding = same_both_ways(&rt, alloc, FEWEST, &large);
    assert!(rt;
        matches!(cut, MergeEnd::Malformed(_))
            && matches!(exceeding, MergeEnd::PoolEmpty { round: 16, need: _ })
    );
}

// Merges by two sides that halt, each of them by its own numbers: as in one thread, from a source and to a sink that
// fail at these of their calls, if any. Blocks that were taken for rounds that nobody worked count too, so behind a
// failed write there may be more.
fn halting_ends_as(
    rt: &(impl Threads + Wait + Abort + Sync),
    alloc: Global,
    how: How,
    input: &[u8],
    fails: (&[u64], &[u64]),
    seed: u32,
) -> MergeEnd {
    let (reads, writes) = fails;
    let source = source_of(rt, alloc, input, reads);
    let mut one = sink_of(rt, alloc, 4096, writes);
    let want = merged(rt, alloc, how, source, &mut one, &NoGate, false);
    let source = Halting {
        inner: source_of(rt, alloc, input, reads),
        dice: Dice::new(seed),
    };
    let mut two = Halting {
        inner: sink_of(rt, alloc, 4096, writes),
        dice: Dice::new(seed.wrapping_add(1)),
    };
    let gate = HaltingGate::new(seed.wrapping_add(2));
    let got = merged(rt, alloc, how, source, &mut two, &gate, true);
    let two = two.inner;
    assert!(rt; got.0 == want.0 && got.1 == want.1 && want.1 == how.blocks);
    assert!(rt; got.2 == want.2 || (!writes.is_empty() && got.2 > want.2));
    assert!(rt; one.bytes() == two.bytes() && one.is_flushed() == two.is_flushed());
    got.0
}

// Each round waits for the blocks of the one before, and both sides stop at ever other places.
#[test]
fn ten_thousand_rounds_over_the_fewest_blocks(rt: HostRuntime) {
    let alloc = rt.alloc();
    let input = capture(&rt, alloc, 2500);
    let end = halting_ends_as(&rt, alloc, FEWEST, &input, (&[], &[]), 20);
    assert_eq!(rt; end, MergeEnd::Done);
}

// The same in rounds of two records, whose lanes give lists while the next round is read into them.
#[test]
fn ten_thousand_rounds_of_two_over_six_blocks(rt: HostRuntime) {
    let alloc = rt.alloc();
    let input = capture(&rt, alloc, 5000);
    let how = How {
        blocks: 6,
        budget: 2,
        queues: 1,
        taps: 0,
    };
    let end = halting_ends_as(&rt, alloc, how, &input, (&[], &[]), 21);
    assert_eq!(rt; end, MergeEnd::Done);
}

// Rounds of so many records at most, over as many queues.
fn by_lanes(
    rt: &(impl Threads + Wait + Abort + Sync),
    alloc: Global,
    input: &[u8],
    budget: u32,
) -> MergeEnd {
    let how = How {
        blocks: budget.saturating_mul(3),
        budget,
        queues: budget,
        taps: 2,
    };
    halting_ends_as(rt, alloc, how, input, (&[], &[]), budget)
}

// Rounds of one record, which have one task of a queue and one of each tap, and of more.
#[test]
fn thousands_of_rounds_by_lanes(rt: HostRuntime) {
    let alloc = rt.alloc();
    let input = capture(&rt, alloc, 500);
    let ends = [
        by_lanes(&rt, alloc, &input, 1),
        by_lanes(&rt, alloc, &input, 2),
        by_lanes(&rt, alloc, &input, 3),
    ];
    assert_eq!(rt; ends, [MergeEnd::Done; 3]);
}

// Whether a call that fails is to be one of the source or of the sink.
#[derive(Clone, Copy)]
enum Side {
    Source,
    Sink,
}

// How many of eight runs end so, in each of which one call fails, from this one on.
fn fails_so(
    rt: &(impl Threads + Wait + Abort + Sync),
    alloc: Global,
    how: How,
    side: Side,
    first: u32,
    end: MergeEnd,
) -> u32 {
    let input = capture(rt, alloc, 50);
    let mut count = 0u32;
    for seed in first..first.saturating_add(8) {
        let call = [u64::from(seed)];
        let fails: (&[u64], &[u64]) = match side {
            Side::Source => (&call, &[]),
            Side::Sink => (&[], &call),
        };
        if halting_ends_as(rt, alloc, how, &input, fails, seed) == end {
            count = count.saturating_add(1);
        }
    }
    count
}

// The file header takes a read, and each record two.
#[test]
fn a_source_fails_in_the_middle(rt: HostRuntime) {
    let (alloc, end) = (rt.alloc(), MergeEnd::ReadFault);
    let failed = [
        fails_so(&rt, alloc, FEWEST, Side::Source, 197, end),
        fails_so(&rt, alloc, CREWED, Side::Source, 197, end),
    ];
    assert_eq!(rt; failed, [8; 2]);
}

#[test]
fn a_sink_fails_in_the_middle(rt: HostRuntime) {
    let (alloc, end) = (rt.alloc(), MergeEnd::WriteFault);
    let failed = [
        fails_so(&rt, alloc, FEWEST, Side::Sink, 97, end),
        fails_so(&rt, alloc, CREWED, Side::Sink, 97, end),
    ];
    assert_eq!(rt; failed, [8; 2]);
}

// How merging ends, and how often a lane saw another one that waits for it. Each passes in each round, also in the one
// behind the four records, which has none.
fn met(
    rt: &(impl Threads + Wait + Abort + Sync),
    alloc: Global,
    how: How,
    one: Who,
    other: Who,
) -> (MergeEnd, u32) {
    let source = source_of(rt, alloc, &capture(rt, alloc, 1), &[]);
    let mut sink = sink_of(rt, alloc, 4096, &[]);
    let meeting = Meeting::of(one, other);
    let (end, _, _) = merged(rt, alloc, how, source, &mut sink, &meeting, true);
    (end, meeting.met())
}

const BY_FOUR: How = How {
    blocks: 12,
    budget: 4,
    queues: 2,
    taps: 2,
};

const BY_THREE: How = How {
    blocks: 3,
    budget: 1,
    queues: 1,
    taps: 2,
};

// On one processor too: two lanes with something to do have two threads.
#[test]
fn lanes_meet(rt: HostRuntime) {
    let alloc = rt.alloc();
    let (first, last) = (Who::Worker(0), Who::Tap(1));
    let seen = [
        met(&rt, alloc, BY_FOUR, first, Who::Worker(1)),
        met(&rt, alloc, BY_FOUR, Who::Worker(1), Who::Tap(0)),
        met(&rt, alloc, BY_THREE, first, last),
        met(&rt, alloc, BY_THREE, Who::Tap(0), last),
    ];
    let done = MergeEnd::Done;
    assert_eq!(rt; seen, [(done, 4), (done, 4), (done, 10), (done, 10)]);
}

// The file header takes a read, and a record two: the first read past the first record.
pub(crate) const PAST_THE_FIRST: u32 = 3;

// Of the third record the body.
const BODY_OF_THE_THIRD: u32 = 6;

// A source passes as a worker that isn't there.
pub(crate) const READER: Who = Who::Worker(9);

// Passes a gate before its read of this number.
#[derive(Drop)]
pub(crate) struct Passing<'a> {
    pub(crate) source: MemSource,
    pub(crate) reads: u32,
    pub(crate) at: u32,
    pub(crate) gate: &'a Meeting,
}

impl Source for Passing<'_> {
    ghost use Rattle.std.specs.Prelude.{Some};

    ghost left = { λ s. Some s.source.rest };

    ghost faults = { λ s. s.source.faults };

    fn read(&mut self, into: &mut [u8]) -> Result<usize, Failed> {
        if self.reads == self.at {
            self.gate.pass(READER, 0);
        }
        self.reads = self.reads.saturating_add(1);
        self.source.read(into)
    }
}

// How merging ends where a lane waits for the reader, and the reader for it at its read of this number; the blocks that
// are home, and how often one saw the other.
fn met_by_reader(
    rt: &(impl Threads + Wait + Abort + Sync),
    alloc: Global,
    how: How,
    lane: Who,
    at: u32,
) -> (MergeEnd, u32, u32) {
    let gate = Meeting::of(lane, READER);
    let source = Passing {
        source: source_of(rt, alloc, &capture(rt, alloc, 1), &[]),
        reads: 0,
        at,
        gate: &gate,
    };
    let mut sink = sink_of(rt, alloc, 4096, &[]);
    let (end, home, _) = merged(rt, alloc, how, source, &mut sink, &gate, true);
    (end, home, gate.met())
}

// Where there is a second processor, and blocks for another record, the second round is read while the first one is
// worked: the worker waits before its work for the reader, and the reader for the worker, and each sees the other. In
// the four rounds behind, of which the last has no record, the worker waits for nobody any more.
#[test]
fn the_second_round_is_read_beside_the_first(rt: HostRuntime) {
    let how = How {
        blocks: 400,
        ..FEWEST
    };
    let (end, home, met) = met_by_reader(&rt, rt.alloc(), how, Who::Worker(0), PAST_THE_FIRST);
    assert_eq!(rt; (end, home), (MergeEnd::Done, 400));
    assert!(rt; met == 6 || !reads_beside(&rt));
}

// There are as many blocks as one round needs, so of the next one a record can be read only into blocks that lanes of
// the first give back. A tap waits before its work for the reader to be at the body of that record, so that round isn't
// over; the reader waits there for the tap, and each sees the other. In the two rounds behind, of which the last has no
// record, the tap waits for nobody any more. If blocks came home at the end of a round alone, the tap would have waited
// in vain in the first.
#[test]
fn a_record_is_read_into_what_lanes_give_back(rt: HostRuntime) {
    let how = How {
        blocks: 6,
        budget: 2,
        ..BY_FOUR
    };
    let (end, home, met) = met_by_reader(&rt, rt.alloc(), how, Who::Tap(1), BODY_OF_THE_THIRD);
    assert_eq!(rt; (end, home), (MergeEnd::Done, 6));
    assert!(rt; met == 4 || !reads_beside(&rt));
}
