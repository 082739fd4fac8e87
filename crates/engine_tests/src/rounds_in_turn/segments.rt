//! Records are segmented, and all blocks are home again.
ghost use Rattle.std.specs.Prelude.{◌≤◌, length};

use crate::byte_lists::joined;
use crate::rounds_in_turn::captures::{feed_of, reader_of};
use off_io::MemSink;
use pcap_io::{CapFault, CapKind, Link};
use segmenting::{Moved, SegFault, SegmentRun};
use std::alloc::Global;
use std::process::Abort;
use worked_captures::{MERGED_CAPTURE, MERGED_CAPTURE_2};

// The two behind their record headers, both with the time of the first.
static PACKETS: [u8; 146] = [
    0x01, 0x00, 0x00, 0x00, 0x00, 0x00, 0x00, 0x00, 0x3a, 0x00, 0x00, 0x00, 0x3a, 0x00, 0x00, 0x00,
    0x02, 0x00, 0x00, 0x00, 0x00, 0x02, 0x02, 0x00, 0x00, 0x00, 0x00, 0x01, 0x08, 0x00, 0x45, 0x00,
    0x00, 0x2c, 0x00, 0x64, 0x40, 0x00, 0x40, 0x06, 0x26, 0x66, 0x0a, 0x00, 0x00, 0x01, 0x0a, 0x00,
    0x00, 0x02, 0x9c, 0x40, 0x13, 0x89, 0x00, 0x00, 0x03, 0xe8, 0x00, 0x00, 0x00, 0x01, 0x50, 0x10,
    0x01, 0x00, 0x22, 0x55, 0x00, 0x00, 0x61, 0x62, 0x63, 0x64, 0x01, 0x00, 0x00, 0x00, 0x00, 0x00,
    0x00, 0x00, 0x38, 0x00, 0x00, 0x00, 0x38, 0x00, 0x00, 0x00, 0x02, 0x00, 0x00, 0x00, 0x00, 0x02,
    0x02, 0x00, 0x00, 0x00, 0x00, 0x01, 0x08, 0x00, 0x45, 0x00, 0x00, 0x2a, 0x00, 0x65, 0x40, 0x00,
    0x40, 0x06, 0x26, 0x67, 0x0a, 0x00, 0x00, 0x01, 0x0a, 0x00, 0x00, 0x02, 0x9c, 0x40, 0x13, 0x89,
    0x00, 0x00, 0x03, 0xec, 0x00, 0x00, 0x00, 0x01, 0x50, 0x18, 0x01, 0x00, 0x81, 0xab, 0x00, 0x00,
    0x65, 0x66,
];

// A record that was segmented, and the call behind it, which is none where the first one failed: the blocks that are
// home after each, and what was written.
#[derive(Drop)]
struct Ended {
    first: Result<Moved, SegFault>,
    second: Result<Moved, SegFault>,
    home: (u32, u32),
    sink: MemSink,
}

// Whether both calls ended so, with so many blocks home after each, and this was written.
fn is_ended(ended: &Ended, calls: [Result<Moved, SegFault>; 2], home: u32, bytes: &[u8]) -> bool {
    [ended.first, ended.second] == calls
        && ended.home == (home, home)
        && ended.sink.bytes() == bytes
}

// Segments the first records of a capture, where these calls of the sink fail.
fn segmented(rt: &impl Abort, alloc: Global, blocks: u32, capture: &[u8], fails: &[u64]) -> Ended
    requires blocks { (1 ≤ blocks) × (blocks ≤ 65536) }
{
    let mut feed = feed_of(rt, alloc, capture, 4096, &[]);
    let mut reader = reader_of(rt, &mut feed, Link::Offload);
    let fails = fails.to_vec(alloc).expect(rt, "no memory");
    let mut sink = MemSink::new(alloc, 4096, fails);
    let mut run = SegmentRun::make(alloc, blocks).expect(rt, "no memory");
    let first = run.next(&mut reader, &mut sink);
    let home = run.home();
    let second = match first {
        Ok(Moved::One) => run.next(&mut reader, &mut sink),
        _ => first,
    };
    Ended {
        first,
        second,
        home: (home, run.home()),
        sink,
    }
}

// Whether the worked record is cut over so many blocks.
fn is_worked(rt: &impl Abort, alloc: Global, blocks: u32) -> bool
    requires blocks { (1 ≤ blocks) × (blocks ≤ 65536) }
{
    let ended = segmented(rt, alloc, blocks, &MERGED_CAPTURE, &[]);
    is_ended(&ended, [Ok(Moved::One), Ok(Moved::End)], blocks, &PACKETS)
}

#[test]
fn the_worked_record(rt: HostRuntime) {
    let alloc = rt.alloc();
    let worked = [
        is_worked(&rt, alloc, 3),
        is_worked(&rt, alloc, 4),
        is_worked(&rt, alloc, 200),
    ];
    assert_eq!(rt; worked, [true; 3]);
}

// Whether two captures in one are cut into the packets of both.
fn are_both_cut(rt: &impl Abort, alloc: Global, first: &[u8], second: &[u8]) -> bool
    requires header { 24 ≤ length second.now }
{
    let both = joined(rt, alloc, &[first, &second[24..]]);
    let ended = segmented(rt, alloc, 3, &both, &[]);
    let twice = joined(rt, alloc, &[&PACKETS, &PACKETS]);
    is_ended(&ended, [Ok(Moved::One); 2], 3, &twice)
}

// Offload headers of both versions in one capture, in either order.
#[test]
fn versions_are_mixed(rt: HostRuntime) {
    let alloc = rt.alloc();
    let cut = [
        are_both_cut(&rt, alloc, &MERGED_CAPTURE, &MERGED_CAPTURE_2),
        are_both_cut(&rt, alloc, &MERGED_CAPTURE_2, &MERGED_CAPTURE),
    ];
    assert_eq!(rt; cut, [true; 2]);
}

#[test]
fn more_than_there_are_blocks(rt: HostRuntime) {
    let ended = segmented(&rt, rt.alloc(), 2, &MERGED_CAPTURE, &[]);
    assert!(rt; is_ended(&ended, [Err(SegFault::PoolEmpty { need: 3 }); 2], 2, &[]));
}

// A capture, and other bytes at a place of it.
type Row = (&'static [u8], usize, &'static [u8]);

// Other bytes in the record behind a header of version 1: of no version, and of version 2, which has other fields
// there. And behind one of version 2: captured lengths of 12 to 15, which hold no such header, and the greatest n, m
// and both.
static UNLAWFUL: [Row; 10] = [
    (&MERGED_CAPTURE, 40, &[0]),
    (&MERGED_CAPTURE, 40, &[3]),
    (&MERGED_CAPTURE, 40, &[2]),
    (&MERGED_CAPTURE_2, 32, &[12]),
    (&MERGED_CAPTURE_2, 32, &[13]),
    (&MERGED_CAPTURE_2, 32, &[14]),
    (&MERGED_CAPTURE_2, 32, &[15]),
    (&MERGED_CAPTURE_2, 44, &[0xff; 4]),
    (&MERGED_CAPTURE_2, 48, &[0xff; 4]),
    (&MERGED_CAPTURE_2, 44, &[0xff; 8]),
];

// The capture of a row.
fn capture_of(rt: &impl Abort, alloc: Global, row: &Row) -> Vec<u8> {
    let (capture, place, with) = *row;
    let mut bytes = capture.to_vec(alloc).expect(rt, "no memory");
    for (byte, other) in bytes.iter_mut().skip(place).zip(with) {
        *byte = *other;
    }
    bytes
}

// Whether the first record of a row is refused, all blocks are home, and nothing is written.
fn is_refused(rt: &impl Abort, alloc: Global, row: &Row) -> bool {
    let fault = CapFault {
        kind: CapKind::BadOffload,
        offset: 24,
        number: 0,
    };
    let ended = segmented(rt, alloc, 3, &capture_of(rt, alloc, row), &[]);
    is_ended(&ended, [Err(SegFault::Malformed(fault)); 2], 3, &[])
}

fn first_taken(rt: &impl Abort, alloc: Global, rows: &[Row]) -> Option<usize> {
    for i in 0..rows.len() {
        if !is_refused(rt, alloc, &rows[i]) {
            return Some(i);
        }
    }
    None
}

#[test]
fn records_that_are_not_lawful(rt: HostRuntime) {
    assert_eq!(rt; first_taken(&rt, rt.alloc(), &UNLAWFUL), None);
}

// Whether all that is written where a call of the sink fails are the first bytes of both packets, so many.
fn is_cut_off(rt: &impl Abort, alloc: Global, call: u64, size: usize) -> bool
    requires within { size ≤ 146 }
{
    let ended = segmented(rt, alloc, 3, &MERGED_CAPTURE, &[call]);
    is_ended(&ended, [Err(SegFault::WriteFault); 2], 3, &PACKETS[..size])
}

// Each record is two writes: its header with those of the frame, and its payload.
#[test]
fn a_sink_that_fails(rt: HostRuntime) {
    let alloc = rt.alloc();
    let cut = [
        is_cut_off(&rt, alloc, 0, 0),
        is_cut_off(&rt, alloc, 1, 70),
        is_cut_off(&rt, alloc, 2, 74),
        is_cut_off(&rt, alloc, 3, 144),
    ];
    assert_eq!(rt; cut, [true; 4]);
}
