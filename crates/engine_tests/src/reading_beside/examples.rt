//! The example of each first page, as it stands there, and what it comes to.
use crate::plans::plain;
use crate::reading_beside::compared::{clone_of, packet, spend_all};
use ahead::{ReadAhead, work_and_read};
use check_totals::{Totals, write_totals};
use checking::{CheckEnd, check_round};
use checking_beside::check_beside;
use comparing::{KeptFlows, check_items};
use frame_runs::Engine;
use gro::Packets;
use lanes::Alone;
use off_io::{Feed, MemSink, MemSource, NoGate};
use offload_model::Limits;
use pcap_io::{CaptureReader, Link};
use pipeline::merge_beside;
use rounds::{MergeEnd, RoundEnd, RoundRead, Rounds};
use std::alloc::Global;
use std::process::Abort;
use std::test::Fail;
use worked_captures::{FIRST, SECOND, TWO_FLOWS};

#[test]
fn example_of_ahead(rt: HostRuntime) -> Result<(), Fail> {
    let alloc = rt.alloc();
    let mut feed = Feed {
        inner: MemSource::new(TWO_FLOWS.to_vec(alloc)?, 4096, Vec::new(alloc)),
    };
    let mut reader = CaptureReader::start(&mut feed, Link::Ethernet)?;
    let mut rounds = Rounds::make(alloc, 12, 1, plain(4, 1, 64), false)?;
    let mut works = Alone { gate: &NoGate };
    let RoundRead { round, end } = rounds.read_round(&mut reader);
    if end != RoundEnd::Full {
        rounds.drop_round(round);
        panic!(rt; "the first round is full");
    }
    let (worked, next) = work_and_read(&mut rounds, &rt, &mut works, round, &mut reader);
    if let Ok(worked) = worked {
        rounds.end_round(worked);
    }
    match next {
        ReadAhead::Read(RoundRead { round, end: _ }) => rounds.drop_round(round),
        ReadAhead::Paused(paused) => rounds.drop_round(paused.into_round()),
    }
    assert_eq!(rt; rounds.home(), 12);
    Ok(())
}

#[test]
fn example_of_pipeline(rt: HostRuntime) -> Result<(), Fail> {
    let alloc = rt.alloc();
    let mut feed = Feed {
        inner: MemSource::new(TWO_FLOWS.to_vec(alloc)?, 4096, Vec::new(alloc)),
    };
    let mut reader = CaptureReader::start(&mut feed, Link::Ethernet)?;
    let file = reader.file();
    let mut sink = MemSink::new(alloc, 4096, Vec::new(alloc));
    let mut rounds = Rounds::make(alloc, 12, 1, plain(4, 1, 64), false)?;
    let end = merge_beside(
        &rt,
        alloc,
        &mut rounds,
        &mut reader,
        &file,
        &mut sink,
        &NoGate,
    );
    assert_eq!(rt; (end, rounds.home()), (MergeEnd::Done, 12));
    Ok(())
}

#[test]
fn example_of_checking(rt: HostRuntime) -> Result<(), Fail> {
    let alloc = rt.alloc();
    let mut feed = Feed {
        inner: MemSource::new(TWO_FLOWS.to_vec(alloc)?, 4096, Vec::new(alloc)),
    };
    let mut reader = CaptureReader::start(&mut feed, Link::Ethernet)?;
    let mut rounds = Rounds::make(alloc, 12, 4, plain(2, 2, 64), true)?;
    let mut sink = MemSink::new(alloc, 4096, Vec::new(alloc));
    let mut works = Alone { gate: &NoGate };
    let RoundRead { round, end } = rounds.read_round(&mut reader);
    let worked = rounds.work_round(&mut works, round)?;
    let totals = check_round(&rounds, &worked);
    rounds.end_round(worked);
    write_totals(&mut sink, &totals?)?;
    let want = "queue 0: records 2 items 1 merged 1 returned 2\n\
        queue 1: records 2 items 1 merged 1 returned 2\n\
        tap 0: windows 4 bytes 256\n\
        tap 1: windows 4 bytes 24\n\
        total: records 4 items 2 merged 2 returned 4\n";
    assert_eq!(rt;
        (end, rounds.home(), sink.bytes()),
        (RoundEnd::Full, 12, want.as_bytes())
    );
    Ok(())
}

#[test]
fn example_of_checking_beside(rt: HostRuntime) -> Result<(), Fail> {
    let alloc = rt.alloc();
    let mut feed = Feed {
        inner: MemSource::new(TWO_FLOWS.to_vec(alloc)?, 4096, Vec::new(alloc)),
    };
    let mut reader = CaptureReader::start(&mut feed, Link::Ethernet)?;
    let mut rounds = Rounds::make(alloc, 12, 4, plain(2, 2, 64), true)?;
    let mut totals = Totals::make(alloc, 2, 2)?;
    let end = check_beside(&rt, alloc, &mut rounds, &mut reader, &mut totals, &NoGate);
    assert_eq!(rt; (end, rounds.home()), (CheckEnd::Done, 12));
    Ok(())
}

// In how many places the segments of what two packets come to are these packets, of which the first one is right.
fn example_of_comparing(rt: &impl Abort, alloc: Global, second: &[u8], original: u32) -> u64 {
    let mut packets = Packets::with_capacity(alloc, 2).expect(rt, "places");
    packets.push(packet(rt, alloc, &FIRST, 0));
    packets.push(packet(rt, alloc, &SECOND, 1));
    let mut engine = Engine::make(alloc, 2).expect(rt, "places");
    let slots = packets.slots();
    engine.merge(slots, Limits::up_to(2));
    assert!(rt; engine.runs.len() == 1);
    let mut kept = Vec::with_capacity(alloc, 2).expect(rt, "places");
    kept.push_reserved(clone_of(rt, alloc, &FIRST, 58, 0));
    kept.push_reserved(clone_of(rt, alloc, second, original, 1));
    let mut flows = KeptFlows::of(alloc, &kept).expect(rt, "places");
    let totals = check_items(slots, &engine.next, &engine.runs, &kept, &mut flows);
    let returned = totals.returned;
    packets.free();
    spend_all(rt, kept);
    returned
}

// One of them has another byte, another length, or is the other one. The bytes come from a program that was written
// from the formats alone.
#[test]
fn segments_are_compared(rt: HostRuntime) {
    let alloc = rt.alloc();
    let mut other = SECOND;
    other[55] = 0x67;
    let same = example_of_comparing(&rt, alloc, &SECOND, 56);
    let byte = example_of_comparing(&rt, alloc, &other, 56);
    let length = example_of_comparing(&rt, alloc, &SECOND, 57);
    let first = example_of_comparing(&rt, alloc, &FIRST, 58);
    assert_eq!(rt; (same, byte, length, first), (2, 1, 1, 1));
}
