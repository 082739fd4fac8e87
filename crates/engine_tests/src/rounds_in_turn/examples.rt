//! The example of each first page, as it stands there, and what it comes to.
use crate::rounds_in_turn::captures::{feed_of, reader_of};
use crate::rounds_in_turn::working::packets::{all_home, in_turn, rest_home};
use crate::rounds_in_turn::writing::{FILE, all_go_home, frame, one_item};
use block_pool::Pool;
use block_supply::{AllHome, RECORD_BLOCKS};
use frame_layout::Choice;
use gro::Packets;
use lane_crew::{count_runners, open_desk};
use lanes::{Alone, LanePlan, Lanes, work_packets};
use off_io::{MemSink, NoGate};
use pcap_io::Link;
use reading::read_record;
use records::{Time, write_record};
use rounds::{MergeEnd, Rounds};
use segmenting::{Moved, SegmentRun};
use std::collections::VecDeque;
use std::test::Fail;
use worked_captures::{MERGED_CAPTURE, TWO_FLOWS};

#[test]
fn example_of_reading(rt: HostRuntime) -> Result<(), Fail> {
    let alloc = rt.alloc();
    let mut feed = feed_of(&rt, alloc, &TWO_FLOWS, 4096, &[]);
    let mut reader = reader_of(&rt, &mut feed, Link::Ethernet);
    let mut pool = Pool::make(alloc, 12)?;
    let mut spares = Pool::empty(alloc, 2)?;
    let mut hold = VecDeque::with_capacity(alloc, RECORD_BLOCKS)?;
    let mut packets = Packets::with_capacity(alloc, 1)?;
    let mut kept = None;
    let read = read_record(
        alloc,
        &mut pool,
        &mut hold,
        &mut spares,
        &mut reader,
        &mut AllHome::new(),
        &mut kept,
        &mut [],
        0,
        0,
        &mut packets,
    );
    let blocks = (pool.home(), spares.home(), packets.free());
    let is_read = matches!(read, Ok((24, 3))) && kept.is_none();
    assert_eq!(rt; (is_read, blocks), (true, (9, 2, 1)));
    Ok(())
}

#[test]
fn example_of_records(rt: HostRuntime) {
    let alloc = rt.alloc();
    let (file, original) = (FILE, 9);
    let time = Time { sec: 1, frac: 2 };
    let mut sink = MemSink::new(alloc, 64, Vec::new(alloc));
    let segment = frame(&rt, alloc);
    assert!(rt; segment.len() == 5);
    let written = write_record(&mut sink, &file, time, original, None, &segment);
    assert_eq!(rt; (written, sink.bytes().len()), (Ok(()), 21));
    segment.free();
}

#[test]
fn example_of_lanes(rt: HostRuntime) {
    let alloc = rt.alloc();
    let mut packets = in_turn(&rt, alloc);
    let plan = LanePlan {
        queues: 4,
        taps: 1,
        snap: 64,
        choice: Choice::Fold,
        segs: 4096,
        filter: None,
    };
    let mut works = Alone { gate: &NoGate };
    let mut lanes = Lanes::new(alloc);
    let blocks = match work_packets(
        &mut works,
        alloc,
        &mut packets,
        &plan,
        true, // heads are shared, so the tap gets clones
        &mut lanes,
        &mut None,
    ) {
        Ok(()) => {
            packets.discard();
            all_home(&rt, lanes) // once what they came to is written
        }
        Err(_) => rest_home(&rt, packets, lanes),
    };
    assert_eq!(rt; blocks, 8);
}

#[test]
fn example_of_lane_crew(rt: HostRuntime) -> Result<(), Fail> {
    let alloc = rt.alloc();
    let desk = open_desk(alloc, count_runners(&rt, 6))?;
    assert!(rt; (1..=5).contains(&desk.runners.len()));
    Ok(())
}

#[test]
fn example_of_rounds(rt: HostRuntime) -> Result<(), Fail> {
    let alloc = rt.alloc();
    let blocks = 12;
    let mut feed = feed_of(&rt, alloc, &TWO_FLOWS, 4096, &[]);
    let mut reader = reader_of(&rt, &mut feed, Link::Ethernet);
    let file = reader.file();
    let mut sink = MemSink::new(alloc, 4096, Vec::new(alloc));
    let plan = LanePlan {
        queues: 4,
        taps: 1,
        snap: 64,
        choice: Choice::Fold,
        segs: 4096,
        filter: None,
    };
    let mut rounds = Rounds::make(alloc, blocks, 64, plan, false)?;
    let end = rounds.merge_all(&mut Alone { gate: &NoGate }, &mut reader, &file, &mut sink);
    assert_eq!(rt; (end, rounds.home()), (MergeEnd::Done, 12));
    Ok(())
}

#[test]
fn example_of_segmenting(rt: HostRuntime) -> Result<(), Fail> {
    let alloc = rt.alloc();
    let mut feed = feed_of(&rt, alloc, &MERGED_CAPTURE, 4096, &[]);
    let mut reader = reader_of(&rt, &mut feed, Link::Offload);
    let mut sink = MemSink::new(alloc, 4096, Vec::new(alloc));
    let mut run = SegmentRun::make(alloc, 8)?;
    let moved = run.next(&mut reader, &mut sink);
    assert_eq!(rt;
        (moved, run.home(), sink.bytes().len()),
        (Ok(Moved::One), 8, 146)
    );
    Ok(())
}
