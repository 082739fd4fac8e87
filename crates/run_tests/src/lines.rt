//! `merge` over sources, sinks and logs in memory: outputs, refusals, and each call of the outside failing in turn.
//!
//! The bytes come from a program that was written from the format alone.

use crate::byte_lists::hash;
use off_io::{Gate, MemSink, MemSource, NoGate};
use offload_run::{Engine, Status, run};
use pcap_io::{CapFault, CapKind};
use std::alloc::{AllocError, Global};
use std::process::Abort;
use std::sync::Wait;
use std::thread::Threads;
use worked_captures::MERGED_CAPTURE_2;

// Two TCP segments, little-endian microseconds.
pub const CAPTURE: [u8; 170] = [
    0xd4, 0xc3, 0xb2, 0xa1, 0x02, 0x00, 0x04, 0x00, 0x00, 0x00, 0x00, 0x00, 0x00, 0x00, 0x00, 0x00,
    0x00, 0x00, 0x04, 0x00, 0x01, 0x00, 0x00, 0x00, 0x01, 0x00, 0x00, 0x00, 0x00, 0x00, 0x00, 0x00,
    0x3a, 0x00, 0x00, 0x00, 0x3a, 0x00, 0x00, 0x00, 0x02, 0x00, 0x00, 0x00, 0x00, 0x02, 0x02, 0x00,
    0x00, 0x00, 0x00, 0x01, 0x08, 0x00, 0x45, 0x00, 0x00, 0x2c, 0x00, 0x64, 0x40, 0x00, 0x40, 0x06,
    0x26, 0x66, 0x0a, 0x00, 0x00, 0x01, 0x0a, 0x00, 0x00, 0x02, 0x9c, 0x40, 0x13, 0x89, 0x00, 0x00,
    0x03, 0xe8, 0x00, 0x00, 0x00, 0x01, 0x50, 0x10, 0x01, 0x00, 0x22, 0x55, 0x00, 0x00, 0x61, 0x62,
    0x63, 0x64, 0x01, 0x00, 0x00, 0x00, 0x05, 0x00, 0x00, 0x00, 0x38, 0x00, 0x00, 0x00, 0x38, 0x00,
    0x00, 0x00, 0x02, 0x00, 0x00, 0x00, 0x00, 0x02, 0x02, 0x00, 0x00, 0x00, 0x00, 0x01, 0x08, 0x00,
    0x45, 0x00, 0x00, 0x2a, 0x00, 0x65, 0x40, 0x00, 0x40, 0x06, 0x26, 0x67, 0x0a, 0x00, 0x00, 0x01,
    0x0a, 0x00, 0x00, 0x02, 0x9c, 0x40, 0x13, 0x89, 0x00, 0x00, 0x03, 0xec, 0x00, 0x00, 0x00, 0x01,
    0x50, 0x18, 0x01, 0x00, 0x81, 0xab, 0x00, 0x00, 0x65, 0x66,
];

// Both as singles.
pub const SINGLES: [u8; 202] = [
    0xd4, 0xc3, 0xb2, 0xa1, 0x02, 0x00, 0x04, 0x00, 0x00, 0x00, 0x00, 0x00, 0x00, 0x00, 0x00, 0x00,
    0x10, 0x00, 0x04, 0x00, 0x93, 0x00, 0x00, 0x00, 0x01, 0x00, 0x00, 0x00, 0x00, 0x00, 0x00, 0x00,
    0x4a, 0x00, 0x00, 0x00, 0x4a, 0x00, 0x00, 0x00, 0x02, 0x00, 0x00, 0x00, 0x00, 0x00, 0x00, 0x01,
    0x00, 0x00, 0x00, 0x00, 0x00, 0x00, 0x00, 0x00, 0x02, 0x00, 0x00, 0x00, 0x00, 0x02, 0x02, 0x00,
    0x00, 0x00, 0x00, 0x01, 0x08, 0x00, 0x45, 0x00, 0x00, 0x2c, 0x00, 0x64, 0x40, 0x00, 0x40, 0x06,
    0x26, 0x66, 0x0a, 0x00, 0x00, 0x01, 0x0a, 0x00, 0x00, 0x02, 0x9c, 0x40, 0x13, 0x89, 0x00, 0x00,
    0x03, 0xe8, 0x00, 0x00, 0x00, 0x01, 0x50, 0x10, 0x01, 0x00, 0x22, 0x55, 0x00, 0x00, 0x61, 0x62,
    0x63, 0x64, 0x01, 0x00, 0x00, 0x00, 0x05, 0x00, 0x00, 0x00, 0x48, 0x00, 0x00, 0x00, 0x48, 0x00,
    0x00, 0x00, 0x02, 0x00, 0x00, 0x00, 0x00, 0x00, 0x00, 0x01, 0x00, 0x00, 0x00, 0x00, 0x00, 0x00,
    0x00, 0x01, 0x02, 0x00, 0x00, 0x00, 0x00, 0x02, 0x02, 0x00, 0x00, 0x00, 0x00, 0x01, 0x08, 0x00,
    0x45, 0x00, 0x00, 0x2a, 0x00, 0x65, 0x40, 0x00, 0x40, 0x06, 0x26, 0x67, 0x0a, 0x00, 0x00, 0x01,
    0x0a, 0x00, 0x00, 0x02, 0x9c, 0x40, 0x13, 0x89, 0x00, 0x00, 0x03, 0xec, 0x00, 0x00, 0x00, 0x01,
    0x50, 0x18, 0x01, 0x00, 0x81, 0xab, 0x00, 0x00, 0x65, 0x66,
];

// A record of 3 bytes, 5 on the wire; big-endian nanoseconds, with zone and sigfigs.
const BIG_NANOS: [u8; 43] = [
    0xa1, 0xb2, 0x3c, 0x4d, 0x00, 0x02, 0x00, 0x04, 0x00, 0x00, 0x00, 0x07, 0x00, 0x00, 0x00, 0x09,
    0x00, 0x00, 0xff, 0xff, 0x00, 0x00, 0x00, 0x01, 0x00, 0x00, 0x00, 0x01, 0x00, 0x00, 0x00, 0x02,
    0x00, 0x00, 0x00, 0x03, 0x00, 0x00, 0x00, 0x05, 0xaa, 0xbb, 0xcc,
];

const BIG_NANOS_SINGLE: [u8; 59] = [
    0xa1, 0xb2, 0x3c, 0x4d, 0x00, 0x02, 0x00, 0x04, 0x00, 0x00, 0x00, 0x07, 0x00, 0x00, 0x00, 0x09,
    0x00, 0x04, 0x00, 0x10, 0x00, 0x00, 0x00, 0x93, 0x00, 0x00, 0x00, 0x01, 0x00, 0x00, 0x00, 0x02,
    0x00, 0x00, 0x00, 0x13, 0x00, 0x00, 0x00, 0x15, 0x02, 0x00, 0x00, 0x00, 0x00, 0x00, 0x00, 0x01,
    0x00, 0x00, 0x00, 0x00, 0x00, 0x00, 0x00, 0x00, 0xaa, 0xbb, 0xcc,
];

// A record of no byte.
const NO_BYTES: [u8; 40] = [
    0xd4, 0xc3, 0xb2, 0xa1, 0x02, 0x00, 0x04, 0x00, 0x00, 0x00, 0x00, 0x00, 0x00, 0x00, 0x00, 0x00,
    0x00, 0x00, 0x04, 0x00, 0x01, 0x00, 0x00, 0x00, 0x03, 0x00, 0x00, 0x00, 0x04, 0x00, 0x00, 0x00,
    0x00, 0x00, 0x00, 0x00, 0x00, 0x00, 0x00, 0x00,
];

const NO_BYTES_SINGLE: [u8; 56] = [
    0xd4, 0xc3, 0xb2, 0xa1, 0x02, 0x00, 0x04, 0x00, 0x00, 0x00, 0x00, 0x00, 0x00, 0x00, 0x00, 0x00,
    0x10, 0x00, 0x04, 0x00, 0x93, 0x00, 0x00, 0x00, 0x03, 0x00, 0x00, 0x00, 0x04, 0x00, 0x00, 0x00,
    0x10, 0x00, 0x00, 0x00, 0x10, 0x00, 0x00, 0x00, 0x02, 0x00, 0x00, 0x00, 0x00, 0x00, 0x00, 0x01,
    0x00, 0x00, 0x00, 0x00, 0x00, 0x00, 0x00, 0x00,
];

// A word of a line, in which ~ stands for a space.
fn word_of(rt: &impl Abort, alloc: Global, text: &str) -> String {
    let mut word = String::new(alloc);
    for c in text.chars() {
        let c = if c == '~' { ' ' } else { c };
        word.push(c).expect(rt, "no memory");
    }
    word
}

// The words of a line, one space between two of them, and ~ for one within a word; at a space at the end the last word
// is empty.
pub fn words(rt: &impl Abort, alloc: Global, line: &str) -> Vec<String> {
    let mut words = Vec::new(alloc);
    for word in line.split(' ') {
        let word = word_of(rt, alloc, word);
        words.push(word).expect(rt, "no memory");
    }
    words
}

// What a run ends with.
#[derive(Drop)]
pub struct Ended {
    pub status: Status,
    pub sink: MemSink,
    pub log: MemSink,
    pub engine: Option<Engine>,
}

// Runs a line of words, where each call takes at most `step` bytes and these calls fail. Where there is no memory for
// that the test ends.
pub fn run_line(
    rt: &(impl Threads + Wait + Abort + Sync),
    alloc: Global,
    line: &str,
    bytes: &[u8],
    step: usize,
    source_fails: &[u64],
    sink_fails: &[u64],
) -> Ended {
    let fails = (source_fails, sink_fails);
    run_gated(rt, alloc, line, bytes, step, fails, &NoGate)
}

// The same, where tasks pass this gate.
pub fn run_gated<R: Threads + Wait + Abort + Sync, G: Gate + Sync>(
    rt: &R,
    alloc: Global,
    line: &str,
    bytes: &[u8],
    step: usize,
    fails: (&[u64], &[u64]),
    gate: &G,
) -> Ended {
    let step = step.max(1);
    let words = words(rt, alloc, line);
    let bytes = bytes.to_vec(alloc).expect(rt, "no memory");
    let source_fails = fails.0.to_vec(alloc).expect(rt, "no memory");
    let sink_fails = fails.1.to_vec(alloc).expect(rt, "no memory");
    let mut source = MemSource::new(bytes, step, source_fails);
    let mut sink = MemSink::new(alloc, step, sink_fails);
    let mut log = MemSink::new(alloc, step, Vec::new(alloc));
    let mut engine = None;
    let status = run(
        rt,
        alloc,
        &words,
        &mut source,
        &mut sink,
        &mut log,
        gate,
        &mut engine,
    );
    Ended {
        status,
        sink,
        log,
        engine,
    }
}

// How a run is to end: its status, the line of the log, and how many bytes are written.
pub type Want = (Status, &'static str, usize);

// Whether a run ended so, with a prefix of this output, and flushed.
pub fn is_as_wanted(ended: &Ended, want: Want, output: &[u8]) -> bool {
    let (status, line, len) = want;
    ended.status == status
        && ended.log.bytes() == line.as_bytes()
        && ended.sink.bytes().len() == len
        && output.starts_with(ended.sink.bytes())
        && ended.sink.is_flushed()
}

// Whether a run ended by a write that failed, with a prefix of this output.
pub fn is_cut_off(ended: &Ended, output: &[u8]) -> bool {
    ended.status == Status::WriteFault
        && ended.log.bytes() == b"write fault\n".as_slice()
        && output.starts_with(ended.sink.bytes())
}

// Whether a line ends so at each of these steps, with a prefix of this output, where no call fails.
pub fn ends_so(
    rt: &(impl Threads + Wait + Abort + Sync),
    alloc: Global,
    line: &str,
    input: &[u8],
    steps: &[usize],
    want: Want,
    output: &[u8],
) -> bool {
    for step in steps {
        let ended = run_line(rt, alloc, line, input, *step, &[], &[]);
        if !is_as_wanted(&ended, want, output) {
            return false;
        }
    }
    true
}

// As many blocks as 64 frames of 1,568 bytes need.
pub const MERGE: &str = "offload merge --blocks 192";

pub fn refused(kind: CapKind, offset: u64, number: u64) -> Status {
    Status::Malformed(CapFault {
        kind,
        offset,
        number,
    })
}

// Why a capture is refused: what is wrong, where, in which record, and the line of the log.
pub type Refusal = (CapKind, u64, u64, &'static str);

// A run that is refused so, once so much is written.
pub fn refusal(of: &Refusal, written: usize) -> Want {
    let (kind, offset, number, line) = *of;
    (refused(kind, offset, number), line, written)
}

pub const SHORT_HEADER: Refusal = (
    CapKind::ShortHeader,
    0,
    0,
    "malformed: ShortHeader at 0 in record 0\n",
);

const BAD_MAGIC: Refusal = (
    CapKind::BadMagic,
    0,
    0,
    "malformed: BadMagic at 0 in record 0\n",
);

const BAD_VERSION: Refusal = (
    CapKind::BadVersion,
    4,
    0,
    "malformed: BadVersion at 4 in record 0\n",
);

const BAD_LINK_TYPE: Refusal = (
    CapKind::BadLinkType,
    20,
    0,
    "malformed: BadLinkType at 20 in record 0\n",
);

// Of record 1 of the capture.
pub const SHORT_RECORD_HEADER: Refusal = (
    CapKind::ShortRecordHeader,
    98,
    1,
    "malformed: ShortRecordHeader at 98 in record 1\n",
);

pub const SHORT_RECORD: Refusal = (
    CapKind::ShortRecord,
    98,
    1,
    "malformed: ShortRecord at 98 in record 1\n",
);

const TOO_LONG: Refusal = (
    CapKind::TooLong,
    98,
    1,
    "malformed: TooLong at 98 in record 1\n",
);

const BAD_ORIGINAL: Refusal = (
    CapKind::BadOriginal,
    98,
    1,
    "malformed: BadOriginal at 98 in record 1\n",
);

const STEPS: [usize; 4] = [1, 7, 64, 4096];

// Whether merging ends well at each step, and writes this.
fn writes(
    rt: &(impl Threads + Wait + Abort + Sync),
    alloc: Global,
    input: &[u8],
    output: &[u8],
) -> bool {
    let want = (Status::Ok, "", output.len());
    ends_so(rt, alloc, MERGE, input, &STEPS, want, output)
}

// Whether merging is refused so at each step, once so much is written of the singles.
fn refuses(
    rt: &(impl Threads + Wait + Abort + Sync),
    alloc: Global,
    input: &[u8],
    of: &Refusal,
    written: usize,
) -> bool {
    let want = refusal(of, written);
    ends_so(rt, alloc, MERGE, input, &STEPS, want, &SINGLES)
}

#[test]
fn outputs_and_refusals(rt: HostRuntime) {
    let alloc = rt.alloc();
    let are_written = [
        writes(&rt, alloc, &CAPTURE, &MERGED_CAPTURE_2),
        writes(&rt, alloc, &BIG_NANOS, &BIG_NANOS_SINGLE),
        writes(&rt, alloc, &NO_BYTES, &NO_BYTES_SINGLE),
        writes(&rt, alloc, &CAPTURE[..24], &MERGED_CAPTURE_2[..24]),
    ];
    let are_refused = [
        refuses(&rt, alloc, &CAPTURE[..0], &SHORT_HEADER, 0),
        refuses(&rt, alloc, &CAPTURE[..23], &SHORT_HEADER, 0),
        refuses(&rt, alloc, &SINGLES, &BAD_LINK_TYPE, 0),
        refuses(&rt, alloc, &CAPTURE[24..], &BAD_MAGIC, 0),
        refuses(&rt, alloc, &CAPTURE[..103], &SHORT_RECORD_HEADER, 114),
        refuses(&rt, alloc, &CAPTURE[..124], &SHORT_RECORD, 114),
    ];
    assert_eq!(rt; (are_written, are_refused), ([true; 4], [true; 6]));
}

// A byte of the capture is changed: its place, the new byte, the refusal, and how much is written.
static FIELDS: [(usize, u8, Refusal, usize); 5] = [
    (3, 0x00, BAD_MAGIC, 0),
    (6, 0x03, BAD_VERSION, 0),
    (23, 0x04, BAD_LINK_TYPE, 0),
    (109, 0x01, TOO_LONG, 114),
    (113, 0x80, BAD_ORIGINAL, 114),
];

// The first place where another byte isn't refused so.
fn first_taken(rt: &(impl Threads + Wait + Abort + Sync), alloc: Global) -> Option<usize> {
    for (at, byte, of, written) in &FIELDS {
        let mut input = CAPTURE;
        if *at < 170 {
            input[*at] = *byte;
        }
        let want = refusal(of, *written);
        if !ends_so(rt, alloc, MERGE, &input, &[64], want, &SINGLES) {
            return Some(*at);
        }
    }
    None
}

#[test]
fn fields_out_of_range(rt: HostRuntime) {
    assert_eq!(rt; first_taken(&rt, rt.alloc()), None);
}

const USAGE: &str = "usage: offload merge, segment, check or make, with options\n";

// A line, the code that it ends with, what it writes of the capture, and what the log says.
static LINES: [(&str, u8, &[u8], &str); 7] = [
    ("offload merge --budget 1", 0, &SINGLES, ""),
    ("offload merge --budget=4096", 0, &MERGED_CAPTURE_2, ""),
    ("offload", 2, &[], USAGE),
    ("offload --help", 2, &[], USAGE),
    ("offload Merge", 2, &[], USAGE),
    ("offload merge merge", 2, &[], USAGE),
    ("offload merge --budget 0", 2, &[], USAGE),
];

// Whether a line ends with this code, and these are its output and its log.
fn line_ends_so(
    rt: &(impl Threads + Wait + Abort + Sync),
    alloc: Global,
    line: &str,
    code: u8,
    output: &[u8],
    logged: &str,
) -> bool {
    let ended = run_line(rt, alloc, line, &CAPTURE, 64, &[], &[]);
    ended.status.code() == code
        && ended.sink.bytes() == output
        && ended.log.bytes() == logged.as_bytes()
}

// The first line that ends otherwise.
fn first_other_line(
    rt: &(impl Threads + Wait + Abort + Sync),
    alloc: Global,
) -> Option<&'static str> {
    for (line, code, output, logged) in &LINES {
        if !line_ends_so(rt, alloc, line, *code, output, logged) {
            return Some(line);
        }
    }
    None
}

#[test]
fn lines_of_words(rt: HostRuntime) {
    assert_eq!(rt; first_other_line(&rt, rt.alloc()), None);
}

// A line, and the length and the hash of the capture that it makes.
static MADE: [(&str, usize, u32); 4] = [
    ("offload make --seed 0 --count 0", 24, 2459910643),
    ("offload make --seed 0 --count 1", 1344, 4245813587),
    ("offload make --count 40", 47902, 1836684797),
    ("offload make", 1169776, 3027703749),
];

// The first line that makes another one.
fn first_other_made(
    rt: &(impl Threads + Wait + Abort + Sync),
    alloc: Global,
) -> Option<&'static str> {
    for (line, len, want) in &MADE {
        // A read would fail, and none is made.
        let ended = run_line(rt, alloc, line, &CAPTURE, 4096, &[0], &[]);
        let made = ended.sink.bytes();
        if !is_as_wanted(&ended, (Status::Ok, "", *len), made) || hash(made) != *want {
            return Some(line);
        }
    }
    None
}

#[test]
fn captures_are_made(rt: HostRuntime) {
    assert_eq!(rt; first_other_made(&rt, rt.alloc()), None);
}

// How much is written of a capture of two records where this write fails.
fn made_before(
    rt: &(impl Threads + Wait + Abort + Sync),
    alloc: Global,
    call: u64,
) -> Option<usize> {
    let line = "offload make --count 2";
    let ended = run_line(rt, alloc, line, &[], 4096, &[], &[call]);
    let front = ended.sink.bytes();
    if is_cut_off(&ended, front) {
        Some(front.len())
    } else {
        None
    }
}

// The file header, two records and the flush.
#[test]
fn each_write_of_a_made_capture_fails(rt: HostRuntime) {
    let alloc = rt.alloc();
    let fronts = [
        made_before(&rt, alloc, 0),
        made_before(&rt, alloc, 1),
        made_before(&rt, alloc, 2),
        made_before(&rt, alloc, 3),
    ];
    assert_eq!(rt; fronts, [Some(0), Some(24), Some(1314), Some(2584)]);
}

// All segments together have as many bytes as the capture that they were merged from.
#[test]
fn a_made_capture_comes_back(rt: HostRuntime) {
    let alloc = rt.alloc();
    let made = run_line(&rt, alloc, "offload make --count 40", &[], 4096, &[], &[]);
    let made = made.sink.bytes();
    let merged = run_line(&rt, alloc, MERGE, made, 4096, &[], &[]);
    let between = merged.sink.bytes();
    let cut = run_line(&rt, alloc, "offload segment", between, 4096, &[], &[]);
    assert_eq!(rt;
        (merged.status, cut.status, cut.sink.bytes().len()),
        (Status::Ok, Status::Ok, made.len())
    );
    assert!(rt; between.len() < made.len());
}
