//! Each call of the outside fails in turn, at several steps: what was written before, the status and the line of the
//! log.
//!
//! How many calls there are follows from the formats by hand. The bytes come from a program that was written from the
//! format alone.

use crate::byte_lists::hash;
use crate::lines::{CAPTURE, MERGE, SINGLES, is_as_wanted, is_cut_off, run_line};
use crate::row_frames::{Frame, NEXT, PLAIN, capture_of, first};
use offload_run::Status;
use std::alloc::Global;
use std::process::Abort;
use std::sync::Wait;
use std::thread::Threads;
use worked_captures::{MERGED_CAPTURE, MERGED_CAPTURE_2};

// One TCP segment of each of three flows.
const THREE_FLOWS: [u8; 241] = [
    0xd4, 0xc3, 0xb2, 0xa1, 0x02, 0x00, 0x04, 0x00, 0x00, 0x00, 0x00, 0x00, 0x00, 0x00, 0x00, 0x00,
    0x00, 0x00, 0x04, 0x00, 0x01, 0x00, 0x00, 0x00, 0x01, 0x00, 0x00, 0x00, 0x00, 0x00, 0x00, 0x00,
    0x3a, 0x00, 0x00, 0x00, 0x3a, 0x00, 0x00, 0x00, 0x02, 0x00, 0x00, 0x00, 0x00, 0x02, 0x02, 0x00,
    0x00, 0x00, 0x00, 0x01, 0x08, 0x00, 0x45, 0x00, 0x00, 0x2c, 0x00, 0x64, 0x40, 0x00, 0x40, 0x06,
    0x26, 0x66, 0x0a, 0x00, 0x00, 0x01, 0x0a, 0x00, 0x00, 0x02, 0x9c, 0x40, 0x13, 0x89, 0x00, 0x00,
    0x03, 0xe8, 0x00, 0x00, 0x00, 0x01, 0x50, 0x10, 0x01, 0x00, 0x22, 0x55, 0x00, 0x00, 0x61, 0x62,
    0x63, 0x64, 0x01, 0x00, 0x00, 0x00, 0x05, 0x00, 0x00, 0x00, 0x38, 0x00, 0x00, 0x00, 0x38, 0x00,
    0x00, 0x00, 0x02, 0x00, 0x00, 0x00, 0x00, 0x02, 0x02, 0x00, 0x00, 0x00, 0x00, 0x01, 0x08, 0x00,
    0x45, 0x00, 0x00, 0x2a, 0x00, 0xc8, 0x40, 0x00, 0x40, 0x06, 0x26, 0x04, 0x0a, 0x00, 0x00, 0x01,
    0x0a, 0x00, 0x00, 0x02, 0x9c, 0x41, 0x13, 0x89, 0x00, 0x00, 0x07, 0xd0, 0x00, 0x00, 0x00, 0x01,
    0x50, 0x18, 0x01, 0x00, 0x7d, 0xc6, 0x00, 0x00, 0x65, 0x66, 0x01, 0x00, 0x00, 0x00, 0x0a, 0x00,
    0x00, 0x00, 0x37, 0x00, 0x00, 0x00, 0x37, 0x00, 0x00, 0x00, 0x02, 0x00, 0x00, 0x00, 0x00, 0x02,
    0x02, 0x00, 0x00, 0x00, 0x00, 0x01, 0x08, 0x00, 0x45, 0x00, 0x00, 0x29, 0x01, 0x2c, 0x40, 0x00,
    0x40, 0x06, 0x25, 0xa1, 0x0a, 0x00, 0x00, 0x01, 0x0a, 0x00, 0x00, 0x02, 0x9c, 0x42, 0x13, 0x89,
    0x00, 0x00, 0x0b, 0xb8, 0x00, 0x00, 0x00, 0x01, 0x50, 0x10, 0x01, 0x00, 0x78, 0x4c, 0x00, 0x00,
    0x67,
];

// The three as singles.
const THREE_SINGLES: [u8; 289] = [
    0xd4, 0xc3, 0xb2, 0xa1, 0x02, 0x00, 0x04, 0x00, 0x00, 0x00, 0x00, 0x00, 0x00, 0x00, 0x00, 0x00,
    0x10, 0x00, 0x04, 0x00, 0x93, 0x00, 0x00, 0x00, 0x01, 0x00, 0x00, 0x00, 0x00, 0x00, 0x00, 0x00,
    0x4a, 0x00, 0x00, 0x00, 0x4a, 0x00, 0x00, 0x00, 0x02, 0x00, 0x00, 0x00, 0x00, 0x00, 0x00, 0x01,
    0x00, 0x00, 0x00, 0x00, 0x00, 0x00, 0x00, 0x00, 0x02, 0x00, 0x00, 0x00, 0x00, 0x02, 0x02, 0x00,
    0x00, 0x00, 0x00, 0x01, 0x08, 0x00, 0x45, 0x00, 0x00, 0x2c, 0x00, 0x64, 0x40, 0x00, 0x40, 0x06,
    0x26, 0x66, 0x0a, 0x00, 0x00, 0x01, 0x0a, 0x00, 0x00, 0x02, 0x9c, 0x40, 0x13, 0x89, 0x00, 0x00,
    0x03, 0xe8, 0x00, 0x00, 0x00, 0x01, 0x50, 0x10, 0x01, 0x00, 0x22, 0x55, 0x00, 0x00, 0x61, 0x62,
    0x63, 0x64, 0x01, 0x00, 0x00, 0x00, 0x05, 0x00, 0x00, 0x00, 0x48, 0x00, 0x00, 0x00, 0x48, 0x00,
    0x00, 0x00, 0x02, 0x00, 0x00, 0x00, 0x00, 0x00, 0x00, 0x01, 0x00, 0x00, 0x00, 0x00, 0x00, 0x00,
    0x00, 0x01, 0x02, 0x00, 0x00, 0x00, 0x00, 0x02, 0x02, 0x00, 0x00, 0x00, 0x00, 0x01, 0x08, 0x00,
    0x45, 0x00, 0x00, 0x2a, 0x00, 0xc8, 0x40, 0x00, 0x40, 0x06, 0x26, 0x04, 0x0a, 0x00, 0x00, 0x01,
    0x0a, 0x00, 0x00, 0x02, 0x9c, 0x41, 0x13, 0x89, 0x00, 0x00, 0x07, 0xd0, 0x00, 0x00, 0x00, 0x01,
    0x50, 0x18, 0x01, 0x00, 0x7d, 0xc6, 0x00, 0x00, 0x65, 0x66, 0x01, 0x00, 0x00, 0x00, 0x0a, 0x00,
    0x00, 0x00, 0x47, 0x00, 0x00, 0x00, 0x47, 0x00, 0x00, 0x00, 0x02, 0x00, 0x00, 0x00, 0x00, 0x00,
    0x00, 0x01, 0x00, 0x00, 0x00, 0x00, 0x00, 0x00, 0x00, 0x02, 0x02, 0x00, 0x00, 0x00, 0x00, 0x02,
    0x02, 0x00, 0x00, 0x00, 0x00, 0x01, 0x08, 0x00, 0x45, 0x00, 0x00, 0x29, 0x01, 0x2c, 0x40, 0x00,
    0x40, 0x06, 0x25, 0xa1, 0x0a, 0x00, 0x00, 0x01, 0x0a, 0x00, 0x00, 0x02, 0x9c, 0x42, 0x13, 0x89,
    0x00, 0x00, 0x0b, 0xb8, 0x00, 0x00, 0x00, 0x01, 0x50, 0x10, 0x01, 0x00, 0x78, 0x4c, 0x00, 0x00,
    0x67,
];

// The step, how many reads the file header, each record and the end take, and how many writes and flushes all of it.
type Calls = (usize, [u64; 5], u64);

// A line of words, its input, and what it writes where no call fails.
#[derive(Clone, Copy)]
pub struct Whole<'a> {
    pub line: &'a str,
    pub input: &'a [u8],
    pub output: &'a [u8],
}

// The first read that fails and isn't answered by what is written then (`fronts`, of the parts of `reads`).
fn first_wrong_read(
    rt: &(impl Threads + Wait + Abort + Sync),
    alloc: Global,
    whole: Whole,
    step: usize,
    reads: &[u64; 5],
    fronts: [&[u8]; 5],
) -> Option<u64> {
    let mut call = 0u64;
    for (count, front) in reads.iter().zip(fronts) {
        for _ in 0..*count {
            let ended = run_line(rt, alloc, whole.line, whole.input, step, &[call], &[]);
            let want = (Status::ReadFault, "read fault\n", front.len());
            if !is_as_wanted(&ended, want, front) {
                return Some(call);
            }
            call = call.saturating_add(1);
        }
    }
    None
}

// The first write or flush that fails and isn't answered by a prefix of the output, the whole of it where the flush
// fails.
fn first_wrong_write(
    rt: &(impl Threads + Wait + Abort + Sync),
    alloc: Global,
    whole: Whole,
    step: usize,
    writes: u64,
) -> Option<u64> {
    for call in 0..writes {
        let ended = run_line(rt, alloc, whole.line, whole.input, step, &[], &[call]);
        let len = ended.sink.bytes().len();
        let is_last = call.saturating_add(1) == writes;
        let has_len = if is_last {
            len == whole.output.len()
        } else {
            step > 1 || len as u64 == call
        };
        if !has_len || !is_cut_off(&ended, whole.output) {
            return Some(call);
        }
    }
    None
}

// Whether a run ends well whose failing calls lie behind the last ones.
fn ends_well(
    rt: &(impl Threads + Wait + Abort + Sync),
    alloc: Global,
    whole: Whole,
    step: usize,
    reads: &[u64; 5],
    writes: u64,
) -> bool {
    let mut count = 0u64;
    for own in reads {
        count = count.saturating_add(*own);
    }
    let (input, output) = (whole.input, whole.output);
    let ended = run_line(rt, alloc, whole.line, input, step, &[count], &[writes]);
    is_as_wanted(&ended, (Status::Ok, "", output.len()), output)
}

// Whether each read that fails is answered once the `fronts` are written, each write and flush by a prefix of the
// output, and whether a run ends well whose failing calls lie behind the last ones. Else the step, and the first call
// that is answered otherwise.
fn first_wrong_call(
    rt: &(impl Threads + Wait + Abort + Sync),
    alloc: Global,
    whole: Whole,
    calls: &[Calls],
    fronts: [&[u8]; 5],
) -> Option<(usize, u64)> {
    for (step, reads, writes) in calls {
        if let Some(call) = first_wrong_read(rt, alloc, whole, *step, reads, fronts) {
            return Some((*step, call));
        }
        if let Some(call) = first_wrong_write(rt, alloc, whole, *step, *writes) {
            return Some((*step, call));
        }
        if !ends_well(rt, alloc, whole, *step, reads, *writes) {
            return Some((*step, *writes));
        }
    }
    None
}

// How many calls of the sink are made by a run that is to end so while the sink takes all, if each of them that fails
// is answered instead: by a write fault, with a prefix of the output. These reads fail.
pub fn writes_answered_first(
    rt: &(impl Threads + Wait + Abort + Sync),
    alloc: Global,
    whole: Whole,
    step: usize,
    reads: &[u64],
    want: (Status, &'static str),
) -> Option<u64> {
    let (status, line) = want;
    for call in 0..1000 {
        let ended = run_line(rt, alloc, whole.line, whole.input, step, reads, &[call]);
        if ended.status != Status::WriteFault {
            let is_whole = is_as_wanted(&ended, (status, line, whole.output.len()), whole.output);
            return if is_whole { Some(call) } else { None };
        }
        if !is_cut_off(&ended, whole.output) {
            return None;
        }
    }
    None
}

// The first bytes of an output, so many each, and all of it.
fn fronts(output: &[u8], lengths: [usize; 4]) -> [&[u8]; 5] {
    [
        first(output, lengths[0]),
        first(output, lengths[1]),
        first(output, lengths[2]),
        first(output, lengths[3]),
        output,
    ]
}

// Three packets, each alone.
static THREE_CALLS: [Calls; 3] = [
    (1, [24, 74, 72, 71, 1], 290),
    (7, [4, 12, 11, 11, 1], 45),
    (64, [1, 2, 2, 2, 1], 8),
];

#[test]
fn each_call_of_merge_fails_in_turn(rt: HostRuntime) {
    let whole = Whole {
        line: MERGE,
        input: &THREE_FLOWS,
        output: &THREE_SINGLES,
    };
    let fronts = fronts(&THREE_SINGLES, [0, 24, 114, 202]);
    let wrong = first_wrong_call(&rt, rt.alloc(), whole, &THREE_CALLS, fronts);
    assert_eq!(rt; wrong, None);
}

// Whether a read that fails is answered by the write before it, which fails too: that of record 0.
fn is_cut_at_a_record(
    rt: &(impl Threads + Wait + Abort + Sync),
    alloc: Global,
    line: &str,
) -> bool {
    let ended = run_line(rt, alloc, line, &THREE_FLOWS, 64, &[4], &[2]);
    ended.sink.bytes().len() == 56 && is_cut_off(&ended, &THREE_SINGLES)
}

// The body of record 1 can't be read, and the sink fails at the record before.
#[test]
fn a_write_fails_before_a_read_that_fails(rt: HostRuntime) {
    let alloc = rt.alloc();
    let are_cut = [
        is_cut_at_a_record(&rt, alloc, MERGE),
        is_cut_at_a_record(&rt, alloc, "offload merge --budget 1"),
    ];
    assert_eq!(rt; are_cut, [true; 2]);
}

// Two packets in rounds of their own.
static SINGLE_CALLS: [Calls; 3] = [
    (1, [24, 74, 72, 1, 0], 203),
    (7, [4, 12, 11, 1, 0], 32),
    (64, [1, 2, 2, 1, 0], 6),
];

#[test]
fn each_call_of_two_rounds_fails_in_turn(rt: HostRuntime) {
    let whole = Whole {
        line: "offload merge --budget 1 --blocks 12",
        input: &CAPTURE,
        output: &SINGLES,
    };
    let fronts = fronts(&SINGLES, [0, 24, 114, 202]);
    let wrong = first_wrong_call(&rt, rt.alloc(), whole, &SINGLE_CALLS, fronts);
    assert_eq!(rt; wrong, None);
}

// Segments of 100, 60 and 100 bytes of one flow, of which the first two are merged.
static MERGED_CALLS: [Calls; 3] = [
    (1, [24, 170, 130, 170, 1], 457),
    (7, [4, 25, 20, 25, 1], 69),
    (64, [1, 4, 3, 4, 1], 11),
];

static THREE_SEGMENTS: [Frame; 3] = [
    PLAIN,
    Frame {
        payload: 60,
        ..NEXT
    },
    Frame {
        id: 102,
        seq: 1160,
        ..PLAIN
    },
];

#[test]
fn each_call_within_a_merged_record_fails_in_turn(rt: HostRuntime) {
    let alloc = rt.alloc();
    let input = capture_of(&rt, alloc, &THREE_SEGMENTS);
    let merged = run_line(&rt, alloc, MERGE, &input, 4096, &[], &[]);
    let output = merged.sink.bytes();
    // Of the first packet alone, which is a single where the second one can't be read.
    let alone = run_line(&rt, alloc, MERGE, first(&input, 194), 4096, &[], &[]);
    let single = alone.sink.bytes();
    // The hash is that of `contrib/by_definition`.
    assert_eq!(rt;
        (output.len(), hash(output), single.len()),
        (456, 2033450527, 210)
    );
    let whole = Whole {
        line: MERGE,
        input: &input,
        output,
    };
    let mut fronts = fronts(output, [0, 24, 0, 270]);
    fronts[2] = single;
    let wrong = first_wrong_call(&rt, alloc, whole, &MERGED_CALLS, fronts);
    assert_eq!(rt; wrong, None);
}

// What segmenting gives of a merged capture of two packets: both have the time of the first.
pub fn packets() -> [u8; 170] {
    let mut bytes = CAPTURE;
    bytes[102] = 0;
    bytes
}

// The first wrong call where that capture is segmented.
fn first_wrong_call_of_segment(
    rt: &(impl Threads + Wait + Abort + Sync),
    alloc: Global,
    input: &[u8],
    calls: &[Calls],
) -> Option<(usize, u64)> {
    let output = packets();
    let whole = Whole {
        line: "offload segment --blocks 12",
        input,
        output: &output,
    };
    first_wrong_call(rt, alloc, whole, calls, fronts(&output, [0, 24, 170, 170]))
}

// The one record of a merged capture, with an offload header of version 1.
static SEGMENT_CALLS: [Calls; 3] = [
    (1, [24, 88, 1, 0, 0], 171),
    (7, [4, 14, 1, 0, 0], 27),
    (64, [1, 3, 1, 0, 0], 8),
];

#[test]
fn each_call_of_segment_fails_in_turn(rt: HostRuntime) {
    let wrong = first_wrong_call_of_segment(&rt, rt.alloc(), &MERGED_CAPTURE, &SEGMENT_CALLS);
    assert_eq!(rt; wrong, None);
}

// The same record with an offload header of version 2, of whose 16 bytes the last four are read with the frame.
static SEGMENT_CALLS_2: [Calls; 3] = [
    (1, [24, 92, 1, 0, 0], 171),
    (7, [4, 15, 1, 0, 0], 27),
    (64, [1, 3, 1, 0, 0], 8),
];

#[test]
fn each_call_of_segment_of_version_2_fails_in_turn(rt: HostRuntime) {
    let wrong = first_wrong_call_of_segment(&rt, rt.alloc(), &MERGED_CAPTURE_2, &SEGMENT_CALLS_2);
    assert_eq!(rt; wrong, None);
}
