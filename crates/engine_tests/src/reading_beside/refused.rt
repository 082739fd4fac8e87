//! Rounds that are driven one by one, each next one read beside the work, where memory may be refused: whatever call
//! was refused, a prefix is written of what is written with ample memory, and all blocks are home.
ghost use Rattle.std.specs.Prelude.{◌≡◌, ◌+◌, IfNone, IfSome, length};
ghost use Rattle.pcap_io.specs.declared.heads.Link.TheVariants.{Ethernet};
ghost use Rattle.pcap_io.specs.Places.{IsReady};
ghost use Rattle.pcap_io.specs.Readers.{place_of};

use crate::plans::plain;
use ahead::{ReadAhead, read_rest, work_and_read};
use lanes::Alone;
use off_io::{Feed, MemSink, NoGate, Source, SureSource};
use pcap_io::{CaptureReader, FileHead, Link};
use rounds::{MergeEnd, RoundEnd, RoundRead, Rounds, Step};
use std::alloc::{AllocError, Global};
use std::process::Abort;
use std::sync::Wait;
use std::thread::Threads;
use worked_captures::{BY_QUEUE, TWO_FLOWS};

// As many as the first round needs, so the read of the next one pauses.
const BLOCKS: u32 = 12;

const BUDGET: u32 = 4;

// Four packets, and the first one again.
fn five_packets(alloc: Global) -> Result<Vec<u8>, AllocError> {
    let mut bytes = TWO_FLOWS.to_vec(alloc)?;
    bytes.extend_from_slice(&TWO_FLOWS[24..110])?;
    Ok(bytes)
}

fn source(rt: &impl Abort, alloc: Global) -> SureSource {
    match five_packets(alloc) {
        Ok(bytes) => SureSource::new(bytes),
        Err(_) => SureSource::new(five_packets(alloc).expect(rt, "memory")),
    }
}

fn two_queues(rt: &impl Abort, alloc: Global) -> Rounds
    ensures home { length result.stock ≡ result.blocks }
{
    match Rounds::make(alloc, BLOCKS, BUDGET, plain(2, 0, 1), false) {
        Ok(rounds) => rounds,
        Err(_) => Rounds::make(alloc, BLOCKS, BUDGET, plain(2, 0, 1), false).expect(rt, "memory"),
    }
}

// A full round is worked and written while the next one is read, and where that pauses it is read to its end. Any other
// is handed on. Where a round isn't worked or written all that was read goes home.
fn turn<R: Threads + Wait + Sync, S: Source + Send>(
    rt: &R,
    rounds: &mut Rounds,
    read: RoundRead,
    reader: &mut CaptureReader<'_, S>,
    file: &FileHead,
    sink: &mut MemSink,
) -> Option<RoundRead>
    requires ready { read.end ≡ RoundEnd.Full → IsReady (place_of reader.old)
        × ((place_of reader.old).link ≡ Ethernet) }
    requires out { length rounds.old.stock + read.round.blocks ≡ rounds.old.blocks }
    ensures ready { IfSome result (λ next. next.end ≡ RoundEnd.Full
        → IsReady (place_of reader.new) × ((place_of reader.new).link ≡ Ethernet)) }
    ensures out { IfSome result (λ next. length rounds.new.stock + next.round.blocks ≡ rounds.new.blocks) }
    ensures home { IfNone result (length rounds.new.stock ≡ rounds.new.blocks) }
{
    let RoundRead { round, end } = read;
    if end != RoundEnd::Full {
        return Some(RoundRead { round, end });
    }
    let (worked, next) = work_and_read(rounds, rt, &mut Alone { gate: &NoGate }, round, reader);
    let is_written = match worked {
        Ok(worked) => {
            let written = rounds.write_round(&worked, file, sink);
            rounds.end_round(worked);
            written.is_ok()
        }
        Err(_) => false,
    };
    match next {
        ReadAhead::Read(RoundRead { round, end }) => {
            if is_written {
                return Some(RoundRead { round, end });
            }
            rounds.drop_round(round);
        }
        ReadAhead::Paused(paused) => {
            if is_written {
                return Some(read_rest(rounds, paused, reader));
            }
            rounds.drop_round(paused.into_round());
        }
    }
    None
}

// Whether what was written of a round and the end behind it is right, and the blocks that are home.
fn driven<R: Threads + Wait + Sync + Abort>(rt: &R, alloc: Global) -> (bool, u32) {
    let mut feed = Feed {
        inner: source(rt, alloc),
    };
    let Ok(mut reader) = CaptureReader::start(&mut feed, Link::Ethernet) else {
        panic!(rt; "the file header is lawful");
    };
    let file = reader.file();
    let mut sink = MemSink::new(alloc, 64, Vec::new(alloc));
    let mut rounds = two_queues(rt, alloc);
    let first = rounds.read_round(&mut reader);
    let last = turn(rt, &mut rounds, first, &mut reader, &file, &mut sink);
    let is_done = match last {
        Some(read) => {
            let step = rounds.put_read(&mut Alone { gate: &NoGate }, read, &file, &mut sink, 1);
            step == Step::Ends(MergeEnd::Done)
        }
        None => false,
    };
    let written = sink.bytes();
    // Of the second round one packet of 70 bytes, as a record.
    let is_front = BY_QUEUE.as_slice().starts_with(written) || written.starts_with(&BY_QUEUE);
    let is_right = is_front && (!is_done || written.len() == BY_QUEUE.len() + 102);
    (is_right, rounds.home())
}

#[test]
fn rounds_end_well_where_memory_is_refused(rt: HostRuntime) {
    assert_eq!(rt; driven(&rt, rt.alloc()), (true, BLOCKS));
}
