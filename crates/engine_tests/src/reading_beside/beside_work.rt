//! Rounds that are driven one by one, each next one read beside the work.
ghost use Rattle.std.specs.Prelude.{◌≡◌, ◌+◌, length};
ghost use Rattle.pcap_io.specs.declared.heads.Link.TheVariants.{Ethernet};
ghost use Rattle.pcap_io.specs.Places.{IsReady};
ghost use Rattle.pcap_io.specs.Readers.{place_of};

use crate::byte_lists::joined;
use crate::reading_beside::memory::{How, large_record, rounds_of, source_of};
use ahead::{ReadAhead, read_rest, work_and_read};
use lanes::{Alone, Beside, Works};
use off_io::{Failed, Feed, Gate, Meeting, MemSink, MemSource, NoGate, Source, Who};
use pcap_io::{CaptureReader, FileHead, Link};
use rounds::{MergeEnd, RoundEnd, RoundRead, Rounds, Step};
use std::alloc::Global;
use std::process::Abort;
use std::sync::Wait;
use std::thread::Threads;
use worked_captures::{BY_QUEUE, TWO_FLOWS, TWO_RECORDS, WITH_WINDOWS, WRITTEN};

// A full round is worked and written while the next one is read, and where that pauses it is read to its end. Any other
// is handed on. How many reads paused, and the blocks that these had taken by then.
fn turn<R: Threads + Wait + Abort + Sync, W: Works, S: Source + Send>(
    rt: &R,
    works: &mut W,
    rounds: &mut Rounds,
    read: RoundRead,
    reader: &mut CaptureReader<'_, S>,
    file: &FileHead,
    sink: &mut MemSink,
    pauses: &mut (u32, u64),
) -> RoundRead
    requires ready { read.end ≡ RoundEnd.Full → IsReady (place_of reader.old)
        × ((place_of reader.old).link ≡ Ethernet) }
    requires out { length rounds.old.stock + read.round.blocks ≡ rounds.old.blocks }
    ensures ready { result.end ≡ RoundEnd.Full → IsReady (place_of reader.new)
        × ((place_of reader.new).link ≡ Ethernet) }
    ensures out { length rounds.new.stock + result.round.blocks ≡ rounds.new.blocks }
{
    let RoundRead { round, end } = read;
    match end {
        RoundEnd::Full => {}
        _ => return RoundRead { round, end },
    }
    let (worked, next) = work_and_read(rounds, rt, works, round, reader);
    let worked = match worked {
        Ok(worked) => worked,
        Err(_) => panic!(rt; "no memory"),
    };
    let written = rounds.write_round(&worked, file, sink);
    rounds.end_round(worked);
    assert!(rt; written.is_ok());
    match next {
        ReadAhead::Read(read) => read,
        ReadAhead::Paused(paused) => {
            pauses.0 = pauses.0.wrapping_add(1);
            pauses.1 = pauses.1.wrapping_add(paused.empty().takes());
            read_rest(rounds, paused, reader)
        }
    }
}

fn two_turns<R: Threads + Wait + Abort + Sync, W: Works, S: Source + Send>(
    rt: &R,
    works: &mut W,
    rounds: &mut Rounds,
    read: RoundRead,
    reader: &mut CaptureReader<'_, S>,
    file: &FileHead,
    sink: &mut MemSink,
    pauses: &mut (u32, u64),
) -> RoundRead
    requires ready { read.end ≡ RoundEnd.Full → IsReady (place_of reader.old)
        × ((place_of reader.old).link ≡ Ethernet) }
    requires out { length rounds.old.stock + read.round.blocks ≡ rounds.old.blocks }
    ensures ready { result.end ≡ RoundEnd.Full → IsReady (place_of reader.new)
        × ((place_of reader.new).link ≡ Ethernet) }
    ensures out { length rounds.new.stock + result.round.blocks ≡ rounds.new.blocks }
{
    let next = turn(rt, works, rounds, read, reader, file, sink, pauses);
    turn(rt, works, rounds, next, reader, file, sink, pauses)
}

// How merging ended, what was written, how many reads paused and the blocks that these had taken by then, and the
// blocks that are home.
type Seen = (Step, Vec<u8>, (u32, u64), u32);

// Up to five rounds of a capture. Each pause is a take that found no list.
fn driven<R: Threads + Wait + Abort + Sync, W: Works, S: Source + Send + Drop>(
    rt: &R,
    alloc: Global,
    works: &mut W,
    source: S,
    how: How,
) -> Seen {
    let mut feed = Feed { inner: source };
    let Ok(mut reader) = CaptureReader::start(&mut feed, Link::Ethernet) else {
        panic!(rt; "the file header is lawful");
    };
    let file = reader.file();
    let mut sink = MemSink::new(alloc, 64, Vec::new(alloc));
    let mut rounds = rounds_of(rt, alloc, how, 1);
    let mut pauses = (0, 0);
    let first = rounds.read_round(&mut reader);
    let third = two_turns(
        rt,
        works,
        &mut rounds,
        first,
        &mut reader,
        &file,
        &mut sink,
        &mut pauses,
    );
    let last = two_turns(
        rt,
        works,
        &mut rounds,
        third,
        &mut reader,
        &file,
        &mut sink,
        &mut pauses,
    );
    let step = rounds.put_read(works, last, &file, &mut sink, 4);
    assert!(rt; rounds.empties() == pauses.0 as u64);
    let written = sink.bytes().to_vec(alloc).expect(rt, "no memory");
    (step, written, pauses, rounds.home())
}

// The same of these bytes, from a source that fails at these of its calls.
fn of_bytes<R: Threads + Wait + Abort + Sync>(
    rt: &R,
    alloc: Global,
    bytes: &[u8],
    fails: &[u64],
    how: How,
) -> Seen {
    let source = source_of(rt, alloc, bytes, fails);
    driven(rt, alloc, &mut Alone { gate: &NoGate }, source, how)
}

// How merging is to end, and how many reads pause, and the blocks that these have taken by then.
type Want = (Step, (u32, u64));

// Whether it ended so, this was written, and all blocks are home.
fn is_as_wanted(seen: &Seen, want: Want, output: &[u8], how: How) -> bool {
    let (step, written, pauses, home) = seen;
    (*step, *pauses) == want && written.as_slice() == output && *home == how.blocks
}

// Whether merging these bytes ends so, and this is written.
fn ends_so<R: Threads + Wait + Abort + Sync>(
    rt: &R,
    alloc: Global,
    bytes: &[u8],
    how: How,
    want: Want,
    output: &[u8],
) -> bool {
    is_as_wanted(&of_bytes(rt, alloc, bytes, &[], how), want, output, how)
}

const BY_FLOW: How = How {
    blocks: 24,
    budget: 4,
    queues: 2,
    taps: 0,
};

const EACH_ALONE: How = How {
    blocks: 3,
    budget: 1,
    queues: 1,
    taps: 0,
};

const DONE: Step = Step::Ends(MergeEnd::Done);

const READ_FAULT: Step = Step::Ends(MergeEnd::ReadFault);

// Over as many blocks as two rounds need. Behind the first there is none, which wants no blocks.
#[test]
fn a_round_beside_none_is_written_as_ever(rt: HostRuntime) {
    let want = (DONE, (0, 0));
    assert!(rt; ends_so(&rt, rt.alloc(), &TWO_FLOWS, BY_FLOW, want, &BY_QUEUE));
}

// The second read pauses before its first record, and behind the second round there is none.
#[test]
fn blocks_of_one_record_suffice(rt: HostRuntime) {
    let want = (DONE, (1, 0));
    assert!(rt; ends_so(&rt, rt.alloc(), &TWO_RECORDS, EACH_ALONE, want, &WRITTEN));
}

// Rounds of two records, over blocks enough.
const AMPLE: How = How {
    blocks: 8384,
    budget: 2,
    ..BY_FLOW
};

// Two rounds of two records, worked by whoever gives nothing back. The read of the second pauses behind the header of
// its first record, and, where there are three blocks more, of its second one. What is written is the same as where it
// doesn't pause.
#[test]
fn a_header_that_was_kept_is_gone_on_behind(rt: HostRuntime) {
    let alloc = rt.alloc();
    let seen = of_bytes(&rt, alloc, &TWO_FLOWS, &[], AMPLE);
    let output = seen.1.as_slice();
    let first = How { blocks: 6, ..AMPLE };
    let second = How { blocks: 9, ..AMPLE };
    let end_so = [
        is_as_wanted(&seen, (DONE, (0, 0)), output, AMPLE),
        ends_so(&rt, alloc, &TWO_FLOWS, first, (DONE, (1, 0)), output),
        ends_so(&rt, alloc, &TWO_FLOWS, second, (DONE, (1, 3)), output),
    ];
    assert_eq!(rt; end_so, [true; 3]);
}

// The windows of two taps.
#[test]
fn windows_are_written_as_ever(rt: HostRuntime) {
    let how = How {
        blocks: 6,
        budget: 2,
        queues: 1,
        taps: 2,
    };
    let want = (DONE, (0, 0));
    assert!(rt; ends_so(&rt, rt.alloc(), &TWO_RECORDS, how, want, &WITH_WINDOWS));
}

const MANY: How = How {
    blocks: 200,
    ..EACH_ALONE
};

// The source fails in the read beside, and in the rest of a round that paused.
#[test]
fn ends_of_a_read_beside(rt: HostRuntime) {
    let alloc = rt.alloc();
    let seen = of_bytes(&rt, alloc, &TWO_RECORDS, &[4], MANY);
    let paused = of_bytes(&rt, alloc, &TWO_RECORDS, &[4], EACH_ALONE);
    let end_so = [
        is_as_wanted(&seen, (READ_FAULT, (0, 0)), &WRITTEN[..33], MANY),
        is_as_wanted(&paused, (READ_FAULT, (1, 0)), &WRITTEN[..33], EACH_ALONE),
    ];
    assert_eq!(rt; end_so, [true; 2]);
}

// Whether a capture that is cut off is refused once its first record is written, after so many pauses.
fn is_refused<R: Threads + Wait + Abort + Sync>(
    rt: &R,
    alloc: Global,
    bytes: &[u8],
    pauses: u32,
) -> bool {
    let seen = of_bytes(rt, alloc, bytes, &[], EACH_ALONE);
    let step = seen.0;
    matches!(step, Step::Ends(MergeEnd::Malformed(_)))
        && is_as_wanted(&seen, (step, (pauses, 0)), &WRITTEN[..33], EACH_ALONE)
}

// A capture that is cut off within the header of its last record, or within its body, of which a rest is read.
#[test]
fn a_rest_that_is_refused(rt: HostRuntime) {
    let alloc = rt.alloc();
    let are_refused = [
        is_refused(&rt, alloc, &TWO_RECORDS[..42], 0),
        is_refused(&rt, alloc, &TWO_RECORDS[..58], 1),
    ];
    assert_eq!(rt; are_refused, [true; 2]);
}

// Whether a round exceeds the blocks is told by all of them, and not by those that the round beside it has: the last
// record needs five.
#[test]
fn lent_blocks_count(rt: HostRuntime) {
    let alloc = rt.alloc();
    let large = large_record(&rt, alloc, &TWO_RECORDS);
    let bytes = joined(&rt, alloc, &[&TWO_RECORDS, &large]);
    let enough = How {
        blocks: 5,
        ..EACH_ALONE
    };
    let (step, _, pauses, home) = of_bytes(&rt, alloc, &bytes, &[], enough);
    assert_eq!(rt; (step, pauses, home), (DONE, (2, 0), 5));
    let fewer = How {
        blocks: 4,
        ..EACH_ALONE
    };
    let exceeds = Step::Ends(MergeEnd::PoolEmpty { round: 4, need: 5 });
    assert!(rt; ends_so(&rt, alloc, &bytes, fewer, (exceeds, (1, 0)), &WRITTEN));
}

// The reader's part of the meeting.
const READER: Who = Who::Tap(0);

// A source at whose read of this number the reader meets another.
#[derive(Drop)]
struct Met<'a> {
    source: MemSource,
    reads: u32,
    at: u32,
    meeting: &'a Meeting,
}

impl Source for Met<'_> {
    ghost use Rattle.std.specs.Prelude.{Some};

    ghost left = { λ s. Some s.source.rest };

    ghost faults = { λ s. s.source.faults };

    fn read(&mut self, into: &mut [u8]) -> Result<usize, Failed> {
        self.reads = self.reads.wrapping_add(1);
        if self.reads == self.at {
            self.meeting.pass(READER, 0);
        }
        self.source.read(into)
    }
}

// The first read gives the file header, and a record takes two: the fourth is the first one beside the work. Both meet
// beside the first round; before the second one, and the empty one behind it, the worker finds the reader's sign again.
// If they took turns, the one that comes first would wait in vain.
#[test]
fn reader_and_worker_meet(rt: HostRuntime) {
    let alloc = rt.alloc();
    let meeting = Meeting::of(Who::Worker(0), READER);
    let source = Met {
        source: source_of(&rt, alloc, &TWO_RECORDS, &[]),
        reads: 0,
        at: 4,
        meeting: &meeting,
    };
    let (step, written, _, _) = driven(&rt, alloc, &mut Alone { gate: &meeting }, source, MANY);
    assert!(rt; step == DONE && written.as_slice() == WRITTEN.as_slice());
    assert_eq!(rt; meeting.met(), 4);
}

// There are as many blocks as the first round has. Its second queue's worker waits for the reader to be at the header
// of the third record, behind which the capture ends; by then the first queue's spares were given. So the reader finds
// a list, and doesn't pause. Before the second round the worker finds the reader's sign again.
#[test]
fn a_record_is_read_into_a_list_that_was_given(rt: HostRuntime) {
    let alloc = rt.alloc();
    let bytes = &TWO_FLOWS[..282];
    let seen = of_bytes(&rt, alloc, bytes, &[], AMPLE);
    let output = seen.1.as_slice();
    assert!(rt; is_as_wanted(&seen, (DONE, (0, 0)), output, AMPLE));
    let meeting = Meeting::of(Who::Worker(1), READER);
    let source = Met {
        source: source_of(&rt, alloc, bytes, &[]),
        reads: 0,
        at: 6,
        meeting: &meeting,
    };
    let mut works = Beside {
        gate: &meeting,
        rt: &rt,
    };
    let how = How { blocks: 6, ..AMPLE };
    let beside = driven(&rt, alloc, &mut works, source, how);
    assert!(rt; is_as_wanted(&beside, (DONE, (0, 0)), output, how));
    assert_eq!(rt; meeting.met(), 3);
}
