//! Two segments over IPv6 that merge into a frame whose length still fits the payload length field, and into one whose
//! length doesn't: there the field is 0. Headers and hashes were computed by a separate program.

use crate::byte_lists::hash;
use crate::plans::plain;
use crate::rounds_in_turn::captures::{feed_of, merge, push_record, reader_of, written};
use off_io::MemSink;
use pcap_io::Link;
use rounds::{MergeEnd, Rounds};
use segmenting::{Moved, SegmentRun};
use std::alloc::{AllocError, Global};
use std::process::Abort;
use worked_captures::FILE_HEADER;

// Ethernet, IPv6 and TCP (RFC 8200, section 3; RFC 9293, section 3.1) of a segment with 32,758 bytes. Byte k is k
// modulo 251.
static FIRST: [u8; 74] = [
    0x02, 0x00, 0x00, 0x00, 0x01, 0x02, 0x02, 0x00, 0x00, 0x00, 0x02, 0x02, 0x86, 0xdd, 0x60, 0x00,
    0x00, 0x00, 0x80, 0x0a, 0x06, 0x40, 0x20, 0x01, 0x0d, 0xb8, 0x00, 0x00, 0x00, 0x00, 0x00, 0x00,
    0x00, 0x00, 0x00, 0x00, 0x00, 0x01, 0x20, 0x01, 0x0d, 0xb8, 0x00, 0x00, 0x00, 0x00, 0x00, 0x00,
    0x00, 0x00, 0x00, 0x00, 0x01, 0x02, 0x9c, 0x40, 0x13, 0x89, 0x00, 0x00, 0x03, 0xe8, 0x00, 0x00,
    0x00, 0x01, 0x50, 0x10, 0x04, 0x00, 0xbf, 0x1a, 0x00, 0x00,
];

// The next segment: its headers and its payload's length. And what both merge into: the payload length field of the
// frame, and the size and the hash of the record.
struct Row {
    headers: [u8; 74],
    payload: u32,
    length: [u8; 2],
    size: usize,
    hash: u32,
}

static FITS: Row = Row {
    headers: [
        0x02, 0x00, 0x00, 0x00, 0x01, 0x02, 0x02, 0x00, 0x00, 0x00, 0x02, 0x02, 0x86, 0xdd, 0x60,
        0x00, 0x00, 0x00, 0x80, 0x09, 0x06, 0x40, 0x20, 0x01, 0x0d, 0xb8, 0x00, 0x00, 0x00, 0x00,
        0x00, 0x00, 0x00, 0x00, 0x00, 0x00, 0x00, 0x01, 0x20, 0x01, 0x0d, 0xb8, 0x00, 0x00, 0x00,
        0x00, 0x00, 0x00, 0x00, 0x00, 0x00, 0x00, 0x01, 0x02, 0x9c, 0x40, 0x13, 0x89, 0x00, 0x00,
        0x83, 0xde, 0x00, 0x00, 0x00, 0x01, 0x50, 0x10, 0x04, 0x00, 0x3f, 0xa4, 0x00, 0x00,
    ],
    payload: 32_757,
    length: [0xff, 0xff],
    size: 65_621,
    hash: 1_217_775_339,
};

static EXCEEDS: Row = Row {
    headers: [
        0x02, 0x00, 0x00, 0x00, 0x01, 0x02, 0x02, 0x00, 0x00, 0x00, 0x02, 0x02, 0x86, 0xdd, 0x60,
        0x00, 0x00, 0x00, 0x80, 0x0a, 0x06, 0x40, 0x20, 0x01, 0x0d, 0xb8, 0x00, 0x00, 0x00, 0x00,
        0x00, 0x00, 0x00, 0x00, 0x00, 0x00, 0x00, 0x01, 0x20, 0x01, 0x0d, 0xb8, 0x00, 0x00, 0x00,
        0x00, 0x00, 0x00, 0x00, 0x00, 0x00, 0x00, 0x01, 0x02, 0x9c, 0x40, 0x13, 0x89, 0x00, 0x00,
        0x83, 0xde, 0x00, 0x00, 0x00, 0x01, 0x50, 0x10, 0x04, 0x00, 0x3f, 0x24, 0x00, 0x00,
    ],
    payload: 32_758,
    length: [0, 0],
    size: 65_622,
    hash: 2_749_579_379,
};

// The capture of both segments.
fn capture_of(alloc: Global, row: &Row) -> Result<Vec<u8>, AllocError> {
    let mut capture = FILE_HEADER.to_vec(alloc)?;
    push_record(&mut capture, &FIRST, 32_758)?;
    push_record(&mut capture, &row.headers, row.payload)?;
    Ok(capture)
}

fn merged(rt: &impl Abort, alloc: Global, capture: &[u8]) -> (MergeEnd, Vec<u8>) {
    let mut feed = feed_of(rt, alloc, capture, 65_536, &[]);
    let mut sink = MemSink::new(alloc, 65_536, Vec::new(alloc));
    let mut rounds = Rounds::make(alloc, 40, 2, plain(1, 0, 64), false).expect(rt, "no memory");
    let end = merge(rt, &mut rounds, &mut feed, &mut sink);
    (end, written(rt, alloc, &sink))
}

// The capture of a record that was written.
fn capture_with(alloc: Global, record: &[u8]) -> Result<Vec<u8>, AllocError> {
    let mut capture = FILE_HEADER.to_vec(alloc)?;
    capture[20] = 147;
    capture.extend_from_slice(record)?;
    Ok(capture)
}

// The records that are cut of one.
fn cut(rt: &impl Abort, alloc: Global, record: &[u8]) -> (bool, Vec<u8>) {
    let capture = capture_with(alloc, record).expect(rt, "no memory");
    let mut feed = feed_of(rt, alloc, &capture, 65_536, &[]);
    let mut reader = reader_of(rt, &mut feed, Link::Offload);
    let mut sink = MemSink::new(alloc, 65_536, Vec::new(alloc));
    let mut run = SegmentRun::make(alloc, 40).expect(rt, "no memory");
    let moved = run.next(&mut reader, &mut sink);
    (moved == Ok(Moved::One), written(rt, alloc, &sink))
}

// How merging both segments ended, the size and the hash of the record that it wrote, whether its payload length field
// is the row's, and whether both came back when it was cut.
fn there_and_back(rt: &impl Abort, alloc: Global, row: &Row) -> (MergeEnd, usize, u32, bool, bool) {
    let capture = capture_of(alloc, row).expect(rt, "no memory");
    let (end, record) = merged(rt, alloc, &capture);
    let (is_cut, records) = cut(rt, alloc, &record);
    let has_length = record.get(50..52) == Some(row.length.as_slice());
    let is_back = is_cut && capture.get(24..) == Some(records.as_slice());
    (end, record.len(), hash(&record), has_length, is_back)
}

#[test]
fn a_payload_length_that_fits_the_field(rt: HostRuntime) {
    assert_eq!(rt;
        there_and_back(&rt, rt.alloc(), &FITS),
        (MergeEnd::Done, FITS.size, FITS.hash, true, true)
    );
}

#[test]
fn a_payload_length_that_does_not_fit(rt: HostRuntime) {
    assert_eq!(rt;
        there_and_back(&rt, rt.alloc(), &EXCEEDS),
        (MergeEnd::Done, EXCEEDS.size, EXCEEDS.hash, true, true)
    );
}
