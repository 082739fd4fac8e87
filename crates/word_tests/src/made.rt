//! Generated captures against those of a program that was written from the description alone.
//!
//! Whole captures are compared by their lengths and their hashes (FNV-1a of 64 bits).

ghost use Rattle.std.specs.Prelude.{◌<◌};

use crate::seeing::assert_same;
use cap_make::{MadeSource, made_reads_back, make_capture};
use off_io::{Feed, MemSink, Source, SureSink, WriteFault};
use pcap_io::{CaptureReader, Link};
use std::alloc::Global;
use std::process::Abort;

// Seed, number of records, length, hash.
static CAPTURES: [(u64, u32, usize, u64); 8] = [
    (0, 0, 24, 0x4cba59b623d94d76),
    (0, 1, 1344, 0x240aa0eca2b1d430),
    (1, 1, 1314, 0xf082cff7bf900aa1),
    (1, 2, 2584, 0x820ff3161ec96166),
    (1, 40, 47902, 0x4638032441e45d38),
    (1, 999, 1168456, 0xd5d7eb55954212cf),
    (18446744073709551615, 40, 48572, 0x1702879bad0fa228),
    (7, 1100, 1289688, 0x17c511d1cd8cc7c9),
];

const HASH_OF_NOTHING: u64 = 0xcbf29ce484222325;

fn hash(before: u64, bytes: &[u8]) -> u64 {
    let mut hash = before;
    for byte in bytes {
        hash = (hash ^ u64::from(*byte)).wrapping_mul(0x100000001b3);
    }
    hash
}

// What making a capture answers, and the length and the hash of what is written, where these calls fail.
fn written(
    rt: &impl Abort,
    alloc: Global,
    seed: u64,
    count: u32,
    fails: &[u64],
) -> (Result<(), WriteFault>, usize, u64) {
    let fails = fails.to_vec(alloc).expect(rt, "no memory");
    let mut sink = MemSink::new(alloc, 65536, fails);
    let result = make_capture(seed, count, &mut sink);
    let bytes = sink.bytes();
    (result, bytes.len(), hash(HASH_OF_NOTHING, bytes))
}

// Seed and number of records of the first capture that is made otherwise.
fn first_other(rt: &impl Abort, alloc: Global) -> Option<(u64, u32)> {
    for (seed, count, len, want) in &CAPTURES {
        if written(rt, alloc, *seed, *count, &[]) != (Ok(()), *len, *want) {
            return Some((*seed, *count));
        }
    }
    None
}

#[test]
fn captures_are_those_of_the_description(rt: HostRuntime) {
    let result = make_capture(3, 2000, &mut SureSink::new());
    assert_same(
        &rt,
        &(first_other(&rt, rt.alloc()), result),
        &(None, Ok(())),
    );
    made_reads_back();
}

// Reads all, at most `step` bytes at a call, and answers how many there were and their hash.
fn drained(source: &mut MadeSource, step: usize) -> (usize, u64) {
    let mut buffer = [0; 5000];
    let step = step.min(5000);
    let mut len: usize = 0;
    let mut sum = HASH_OF_NOTHING;
    for _ in 0..2000000 {
        match source.read(&mut buffer[..step]) {
            Ok(0) | Err(_) => break,
            Ok(count) => {
                len = len.saturating_add(count);
                sum = hash(sum, &buffer[..count]);
            }
        }
    }
    (len, sum)
}

// Whether a source gives this at such a size, and nothing behind it.
fn is_given(seed: u64, count: u32, step: usize, want: (usize, u64)) -> bool {
    let mut source = MadeSource::new(seed, count);
    drained(&mut source, step) == want && source.read(&mut [0; 4]) == Ok(0)
}

// Seed, number of records and size at which the first source gives other bytes.
fn first_other_source() -> Option<(u64, u32, usize)> {
    for (seed, count, len, want) in &CAPTURES {
        for step in [1, 7, 1319, 5000] {
            if !is_given(*seed, *count, step, (*len, *want)) {
                return Some((*seed, *count, step));
            }
        }
    }
    None
}

#[test]
fn sources_give_the_same_at_any_size(rt: HostRuntime) {
    assert_same(&rt, &first_other_source(), &None);
}

// How many records a reader finds, and how many bytes the last one has. None where the file header isn't lawful, or a
// body not whole.
fn counted(seed: u64, count: u32) -> Option<(u32, u32)> {
    let mut feed = Feed {
        inner: MadeSource::new(seed, count),
    };
    let mut reader = match CaptureReader::start(&mut feed, Link::Ethernet) {
        Ok(reader) => reader,
        Err(_) => return None,
    };
    let mut records: u32 = 0;
    let mut last = 0;
    let mut body = [0; 1304];
    for _ in 0..1000 {
        let Ok(Some(head)) = reader.next_head() else {
            break;
        };
        let len = head.captured as usize;
        if len > body.len() || reader.read_body(&mut body[..len]).is_err() {
            return None;
        }
        records = records.saturating_add(1);
        last = head.captured;
    }
    Some((records, last))
}

// How many records a reader finds.
fn records(seed: u64, count: u32) -> Option<u32> {
    match counted(seed, count) {
        Some((records, _)) => Some(records),
        None => None,
    }
}

#[test]
fn captures_read_to_their_ends(rt: HostRuntime) {
    // Record 0 of seed 0 is in a tunnel, with a full payload.
    assert_same(
        &rt,
        &(
            [counted(0, 1), counted(1, 0)],
            [records(1, 2), records(1, 999)],
        ),
        &([Some((1, 1304)), Some((0, 0))], [Some(2), Some(999)]),
    );
}

// What making a capture of 40 records answers where this call fails, and how many bytes are written.
fn front(rt: &impl Abort, alloc: Global, fails: u64) -> (Result<(), WriteFault>, usize) {
    let (result, len, _) = written(rt, alloc, 1, 40, &[fails]);
    (result, len)
}

#[test]
fn a_fault_leaves_a_front(rt: HostRuntime) {
    let alloc = rt.alloc();
    // Call 0 writes the file header, and each later one a record.
    let fronts = [
        front(&rt, alloc, 0),
        front(&rt, alloc, 1),
        front(&rt, alloc, 2),
    ];
    let failed = Err(WriteFault);
    assert_same(&rt, &fronts, &[(failed, 0), (failed, 24), (failed, 1314)]);
}
