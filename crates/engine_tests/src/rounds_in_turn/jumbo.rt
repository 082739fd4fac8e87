//! Rounds of records that fill several blocks each, over one queue and three, with taps and without, and with clones
//! that are kept: what is written, and that all blocks are home after each round. Headers, sizes and hashes were
//! computed by a separate program.
ghost use Rattle.std.specs.Prelude.{◌≡◌, ◌≤◌, IfOk, length};

use crate::byte_lists::hash;
use crate::plans::plain;
use crate::rounds_in_turn::captures::push_record;
use lanes::Alone;
use off_io::{Feed, MemSink, MemSource, NoGate};
use pcap_io::{CaptureReader, Link};
use rounds::{RoundRead, Rounds};
use std::alloc::{AllocError, Global};
use worked_captures::FILE_HEADER;

// Ethernet, IPv4 and TCP of three flows, of each two segments with 8,946 bytes, of which byte k is k modulo 251.
static HEADERS: [[u8; 54]; 6] = [
    [
        0x02, 0x00, 0x00, 0x00, 0x00, 0x02, 0x02, 0x00, 0x00, 0x00, 0x00, 0x01, 0x08, 0x00, 0x45,
        0x00, 0x23, 0x1a, 0x00, 0x64, 0x40, 0x00, 0x40, 0x06, 0x03, 0x78, 0x0a, 0x00, 0x00, 0x01,
        0x0a, 0x00, 0x00, 0x02, 0x9c, 0x40, 0x13, 0x89, 0x00, 0x00, 0x03, 0xe8, 0x00, 0x00, 0x00,
        0x01, 0x50, 0x10, 0x01, 0x00, 0x3c, 0xd3, 0x00, 0x00,
    ],
    [
        0x02, 0x00, 0x00, 0x00, 0x00, 0x02, 0x02, 0x00, 0x00, 0x00, 0x00, 0x01, 0x08, 0x00, 0x45,
        0x00, 0x23, 0x1a, 0x00, 0x64, 0x40, 0x00, 0x40, 0x06, 0x03, 0x78, 0x0a, 0x00, 0x00, 0x01,
        0x0a, 0x00, 0x00, 0x02, 0x9c, 0x41, 0x13, 0x89, 0x00, 0x00, 0x03, 0xe8, 0x00, 0x00, 0x00,
        0x01, 0x50, 0x10, 0x01, 0x00, 0x3c, 0xd2, 0x00, 0x00,
    ],
    [
        0x02, 0x00, 0x00, 0x00, 0x00, 0x02, 0x02, 0x00, 0x00, 0x00, 0x00, 0x01, 0x08, 0x00, 0x45,
        0x00, 0x23, 0x1a, 0x00, 0x64, 0x40, 0x00, 0x40, 0x06, 0x03, 0x78, 0x0a, 0x00, 0x00, 0x01,
        0x0a, 0x00, 0x00, 0x02, 0x9c, 0x42, 0x13, 0x89, 0x00, 0x00, 0x03, 0xe8, 0x00, 0x00, 0x00,
        0x01, 0x50, 0x10, 0x01, 0x00, 0x3c, 0xd1, 0x00, 0x00,
    ],
    [
        0x02, 0x00, 0x00, 0x00, 0x00, 0x02, 0x02, 0x00, 0x00, 0x00, 0x00, 0x01, 0x08, 0x00, 0x45,
        0x00, 0x23, 0x1a, 0x00, 0x65, 0x40, 0x00, 0x40, 0x06, 0x03, 0x77, 0x0a, 0x00, 0x00, 0x01,
        0x0a, 0x00, 0x00, 0x02, 0x9c, 0x40, 0x13, 0x89, 0x00, 0x00, 0x26, 0xda, 0x00, 0x00, 0x00,
        0x01, 0x50, 0x10, 0x01, 0x00, 0x19, 0xe1, 0x00, 0x00,
    ],
    [
        0x02, 0x00, 0x00, 0x00, 0x00, 0x02, 0x02, 0x00, 0x00, 0x00, 0x00, 0x01, 0x08, 0x00, 0x45,
        0x00, 0x23, 0x1a, 0x00, 0x65, 0x40, 0x00, 0x40, 0x06, 0x03, 0x77, 0x0a, 0x00, 0x00, 0x01,
        0x0a, 0x00, 0x00, 0x02, 0x9c, 0x41, 0x13, 0x89, 0x00, 0x00, 0x26, 0xda, 0x00, 0x00, 0x00,
        0x01, 0x50, 0x10, 0x01, 0x00, 0x19, 0xe0, 0x00, 0x00,
    ],
    [
        0x02, 0x00, 0x00, 0x00, 0x00, 0x02, 0x02, 0x00, 0x00, 0x00, 0x00, 0x01, 0x08, 0x00, 0x45,
        0x00, 0x23, 0x1a, 0x00, 0x65, 0x40, 0x00, 0x40, 0x06, 0x03, 0x77, 0x0a, 0x00, 0x00, 0x01,
        0x0a, 0x00, 0x00, 0x02, 0x9c, 0x42, 0x13, 0x89, 0x00, 0x00, 0x26, 0xda, 0x00, 0x00, 0x00,
        0x01, 0x50, 0x10, 0x01, 0x00, 0x19, 0xdf, 0x00, 0x00,
    ],
];

// Each record fills five blocks and has two more: all six want 42.
const BLOCKS: u32 = 44;

// The capture of all segments.
fn capture(alloc: Global) -> Result<Vec<u8>, AllocError> {
    let mut capture = FILE_HEADER.to_vec(alloc)?;
    for headers in &HEADERS {
        push_record(&mut capture, headers, 8_946)?;
    }
    Ok(capture)
}

// How rounds are worked, and what is written of the capture then: its size and its hash.
#[derive(Clone, Copy)]
struct Row {
    queues: u32,
    taps: u32,
    keep: bool,
    size: usize,
    hash: u32,
}

const ONE_QUEUE: Row = Row {
    queues: 1,
    taps: 0,
    keep: false,
    size: 53_934,
    hash: 555_588_875,
};

// Each flow has a queue of its own.
const THREE_QUEUES: Row = Row {
    queues: 3,
    hash: 392_275_406,
    ..ONE_QUEUE
};

const ONE_AND_TAPS: Row = Row {
    taps: 2,
    size: 55_086,
    hash: 844_395_099,
    ..ONE_QUEUE
};

const THREE_AND_TAPS: Row = Row {
    queues: 3,
    hash: 3_591_359_262,
    ..ONE_AND_TAPS
};

const THREE_AND_CLONES: Row = Row {
    keep: true,
    ..THREE_QUEUES
};

const ALL_BESIDE_ONE: Row = Row {
    keep: true,
    ..ONE_AND_TAPS
};

// The capture is a round: the blocks that are home while it is out, and what is written of it. None where memory was
// refused or a record is.
fn turn(alloc: Global, rounds: &mut Rounds, capture: &[u8]) -> Option<(u32, MemSink)>
    requires home { length rounds.old.stock ≡ rounds.old.blocks }
    ensures home { length rounds.new.stock ≡ rounds.new.blocks }
{
    let Ok(bytes) = capture.to_vec(alloc) else {
        return None;
    };
    let mut feed = Feed {
        inner: MemSource::new(bytes, 4096, Vec::new(alloc)),
    };
    let Ok(mut reader) = CaptureReader::start(&mut feed, Link::Ethernet) else {
        return None;
    };
    let file = reader.file();
    let mut sink = MemSink::new(alloc, 4096, Vec::new(alloc));
    let RoundRead { round, end: _ } = rounds.read_round(&mut reader);
    let home = rounds.home();
    let Ok(worked) = rounds.work_round(&mut Alone { gate: &NoGate }, round) else {
        return None;
    };
    let written = rounds.write_round(&worked, &file, &mut sink);
    rounds.end_round(worked);
    match written {
        Ok(()) => Some((home, sink)),
        Err(_) => None,
    }
}

// Rounds as a row says.
fn rounds_of(alloc: Global, row: Row) -> Result<Rounds, AllocError>
    requires queues { (1 ≤ row.queues) × (row.queues ≤ 64) }
    requires taps { row.taps ≤ 8 }
    ensures home { IfOk result (λ rounds. length rounds.stock ≡ rounds.blocks) }
{
    let plan = plain(row.queues, row.taps, 64);
    Rounds::make(alloc, BLOCKS, 6, plan, row.keep)
}

// Whether a turn left all blocks but those of the round home, and wrote what the row says.
fn is_as_said(row: Row, turn: &Option<(u32, MemSink)>) -> bool {
    match turn {
        Some((home, sink)) => {
            let bytes = sink.bytes();
            (*home, bytes.len(), hash(bytes)) == (2, row.size, row.hash)
        }
        None => false,
    }
}

// Whether two rounds, one after the other, are as a row says, and all blocks are home after each.
fn is_right(alloc: Global, row: Row) -> Result<bool, AllocError>
    requires queues { (1 ≤ row.queues) × (row.queues ≤ 64) }
    requires taps { row.taps ≤ 8 }
{
    let capture = capture(alloc)?;
    let mut rounds = rounds_of(alloc, row)?;
    let first = turn(alloc, &mut rounds, &capture);
    let after = rounds.home();
    let second = turn(alloc, &mut rounds, &capture);
    let are_home = after == BLOCKS && rounds.home() == BLOCKS;
    Ok(are_home && is_as_said(row, &first) && is_as_said(row, &second))
}

#[test]
fn records_of_several_blocks(rt: HostRuntime) {
    let alloc = rt.alloc();
    let right = [
        is_right(alloc, ONE_QUEUE),
        is_right(alloc, THREE_QUEUES),
        is_right(alloc, ONE_AND_TAPS),
        is_right(alloc, THREE_AND_TAPS),
        is_right(alloc, THREE_AND_CLONES),
        is_right(alloc, ALL_BESIDE_ONE),
    ];
    assert_eq!(rt; right, [Ok(true); 6]);
}

// The blocks that are home after two rounds, of which one may be refused memory.
fn home_after(alloc: Global, row: Row) -> Result<u32, AllocError>
    requires queues { (1 ≤ row.queues) × (row.queues ≤ 64) }
    requires taps { row.taps ≤ 8 }
{
    let capture = capture(alloc)?;
    let mut rounds = rounds_of(alloc, row)?;
    let _ = turn(alloc, &mut rounds, &capture);
    let after = rounds.home();
    let _ = turn(alloc, &mut rounds, &capture);
    Ok(after.min(rounds.home()))
}

/// Whichever growth of memory is refused.
#[test]
fn blocks_come_home_where_memory_is_refused(rt: HostRuntime) {
    let alloc = rt.alloc();
    let home = [
        home_after(alloc, ONE_QUEUE).unwrap_or(BLOCKS),
        home_after(alloc, THREE_QUEUES).unwrap_or(BLOCKS),
        home_after(alloc, ONE_AND_TAPS).unwrap_or(BLOCKS),
        home_after(alloc, THREE_AND_TAPS).unwrap_or(BLOCKS),
        home_after(alloc, THREE_AND_CLONES).unwrap_or(BLOCKS),
        home_after(alloc, ALL_BESIDE_ONE).unwrap_or(BLOCKS),
    ];
    assert_eq!(rt; home, [BLOCKS; 6]);
}
