//! Captures that end early, records that were edited by hand and an outside that fails, as rows of a run: how it ends,
//! the line of the log, and how much is written.
//!
//! The numbers follow from the formats by hand: a file header of 24 bytes, a record header of 16, an offload header of
//! 12 in version 1 and of 16 in version 2.

use crate::byte_lists::{hash, joined};
use crate::failing::{Whole, packets, writes_answered_first};
use crate::lines::{
    CAPTURE, Refusal, SHORT_HEADER, SHORT_RECORD, SHORT_RECORD_HEADER, SINGLES, Want, ends_so,
    is_as_wanted, refusal, refused, run_line,
};
use crate::queues::{TWO_QUEUES, in_turn, written_of};
use crate::row_frames::{first, record_header};
use offload_run::Status;
use pcap_io::CapKind;
use std::alloc::Global;
use std::process::Abort;
use std::sync::Wait;
use std::thread::Threads;
use worked_captures::{FILE_HEADER, MERGED_CAPTURE, MERGED_CAPTURE_2};

// With blocks enough for four short frames.
const MERGE: &str = "offload merge --blocks 12";

const SEGMENT: &str = "offload segment --blocks 12";

const FIRST_HEADER_SHORT: Refusal = (
    CapKind::ShortRecordHeader,
    24,
    0,
    "malformed: ShortRecordHeader at 24 in record 0\n",
);

const FIRST_SHORT: Refusal = (
    CapKind::ShortRecord,
    24,
    0,
    "malformed: ShortRecord at 24 in record 0\n",
);

const BAD_OFFLOAD: Refusal = (
    CapKind::BadOffload,
    24,
    0,
    "malformed: BadOffload at 24 in record 0\n",
);

const BAD_ORIGINAL: Refusal = (
    CapKind::BadOriginal,
    24,
    0,
    "malformed: BadOriginal at 24 in record 0\n",
);

const TOO_LONG: Refusal = (
    CapKind::TooLong,
    24,
    0,
    "malformed: TooLong at 24 in record 0\n",
);

// The want of the first bytes of a capture whose first record ends at `first`, behind which `one` bytes are written.
fn want_of_cut(len: usize, first: usize, one: usize) -> Want {
    if len < 24 {
        return refusal(&SHORT_HEADER, 0);
    }
    if len == 24 || len == first {
        return (Status::Ok, "", if len == 24 { 24 } else { one });
    }
    if len < 40 {
        return refusal(&FIRST_HEADER_SHORT, 24);
    }
    if len < first {
        return refusal(&FIRST_SHORT, 24);
    }
    if len < 114 {
        return refusal(&SHORT_RECORD_HEADER, one);
    }
    refusal(&SHORT_RECORD, one)
}

// The first of these lengths at which a capture that is cut off there ends otherwise.
fn first_other_cut(
    rt: &(impl Threads + Wait + Abort + Sync),
    alloc: Global,
    whole: Whole,
    lengths: usize,
    places: (usize, usize),
) -> Option<usize> {
    for len in 0..lengths {
        let want = want_of_cut(len, places.0, places.1);
        let cut = first(whole.input, len);
        if !ends_so(rt, alloc, whole.line, cut, &[64], want, whole.output) {
            return Some(len);
        }
    }
    None
}

#[test]
fn captures_cut_at_each_place(rt: HostRuntime) {
    let alloc = rt.alloc();
    let packets = packets();
    let plain = Whole {
        line: MERGE,
        input: &CAPTURE,
        output: &SINGLES,
    };
    let one = Whole {
        line: SEGMENT,
        input: &MERGED_CAPTURE,
        output: &packets,
    };
    let two = Whole {
        input: &MERGED_CAPTURE_2,
        ..one
    };
    let others = [
        first_other_cut(&rt, alloc, plain, 170, (98, 114)),
        first_other_cut(&rt, alloc, one, 113, (112, 170)),
        first_other_cut(&rt, alloc, two, 117, (116, 170)),
    ];
    assert_eq!(rt; others, [None; 3]);
}

// The first eight bytes of an offload header of version 1 (version, kind, n, m, modes, where) in the place of those of
// the merged record, which are 1, 1, 2, 4, 0 and 0 and have six bytes of payload behind them.
static REFUSED: [[u8; 8]; 16] = [
    [0, 1, 0, 2, 0, 4, 0, 0],
    [3, 1, 0, 2, 0, 4, 0, 0],
    [1, 3, 0, 2, 0, 4, 0, 0],
    [1, 1, 0, 2, 0, 4, 0, 64],
    [1, 1, 0, 1, 0, 4, 0, 0],
    [1, 1, 0, 3, 0, 4, 0, 0],
    [1, 1, 255, 255, 0, 4, 0, 0],
    [1, 1, 0, 2, 0, 0, 0, 0],
    [1, 1, 0, 2, 0, 2, 0, 0],
    [1, 1, 0, 2, 0, 6, 0, 0],
    [1, 1, 0, 2, 255, 4, 0, 0],
    [1, 1, 0, 2, 0, 4, 2, 0],
    [1, 1, 0, 2, 0, 4, 4, 0],
    [1, 0, 0, 1, 0, 0, 0, 64],
    [1, 0, 0, 2, 0, 0, 0, 0],
    [1, 2, 0, 0, 0, 0, 0, 8],
];

// The first twelve bytes of one of version 2 (version, kind, modes, where, n, m) in the place of 2, 1, 0, 0, 2 and 4.
// The product of the ninth's n and m is 8 in 32 bits.
static REFUSED_2: [[u8; 12]; 17] = [
    [0, 1, 0, 0, 0, 0, 0, 2, 0, 0, 0, 4],
    [3, 1, 0, 0, 0, 0, 0, 2, 0, 0, 0, 4],
    [2, 3, 0, 0, 0, 0, 0, 2, 0, 0, 0, 4],
    [2, 1, 0, 64, 0, 0, 0, 2, 0, 0, 0, 4],
    [2, 1, 0, 0, 0, 0, 0, 1, 0, 0, 0, 4],
    [2, 1, 0, 0, 0, 0, 0, 3, 0, 0, 0, 4],
    [2, 1, 0, 0, 0, 1, 0, 2, 0, 0, 0, 4],
    [2, 1, 0, 0, 255, 255, 255, 255, 0, 0, 0, 4],
    [2, 1, 0, 0, 64, 0, 0, 2, 0, 0, 0, 4],
    [2, 1, 0, 0, 0, 0, 0, 2, 0, 0, 0, 0],
    [2, 1, 0, 0, 0, 0, 0, 2, 0, 0, 0, 2],
    [2, 1, 0, 0, 0, 0, 0, 2, 0, 0, 0, 6],
    [2, 1, 0, 0, 0, 0, 0, 2, 255, 255, 255, 255],
    [2, 1, 2, 0, 0, 0, 0, 2, 0, 0, 0, 4],
    [2, 0, 0, 64, 0, 0, 0, 1, 0, 0, 0, 0],
    [2, 0, 0, 0, 0, 0, 0, 2, 0, 0, 0, 0],
    [2, 2, 0, 8, 0, 0, 0, 0, 0, 0, 0, 0],
];

// Those that are taken, of both versions, how much is written, and its hash by `contrib/by_definition`.
static TAKEN: [([u8; 8], [u8; 12], usize, u32); 6] = [
    (
        [1, 1, 0, 2, 0, 4, 0, 63],
        [2, 1, 0, 63, 0, 0, 0, 2, 0, 0, 0, 4],
        170,
        2226559973,
    ),
    (
        [1, 1, 0, 2, 0, 5, 0, 0],
        [2, 1, 0, 0, 0, 0, 0, 2, 0, 0, 0, 5],
        170,
        3048609287,
    ),
    (
        [1, 1, 0, 2, 0, 3, 0, 0],
        [2, 1, 0, 0, 0, 0, 0, 2, 0, 0, 0, 3],
        170,
        292049363,
    ),
    (
        [1, 1, 0, 2, 0, 4, 1, 0],
        [2, 1, 1, 0, 0, 0, 0, 2, 0, 0, 0, 4],
        170,
        2247594149,
    ),
    (
        [1, 0, 0, 1, 0, 0, 0, 0],
        [2, 0, 0, 0, 0, 0, 0, 1, 0, 0, 0, 0],
        100,
        1886162403,
    ),
    (
        [1, 2, 0, 0, 0, 0, 0, 7],
        [2, 2, 0, 7, 0, 0, 0, 0, 0, 0, 0, 0],
        24,
        2459910643,
    ),
];

fn with_head(head: &[u8; 8]) -> [u8; 112] {
    let mut bytes = MERGED_CAPTURE;
    bytes[40..48].copy_from_slice(head);
    bytes
}

fn with_head_2(head: &[u8; 12]) -> [u8; 116] {
    let mut bytes = MERGED_CAPTURE_2;
    bytes[40..52].copy_from_slice(head);
    bytes
}

// Whether segmenting refuses the one record.
fn is_refused(
    rt: &(impl Threads + Wait + Abort + Sync),
    alloc: Global,
    input: &[u8],
    of: &Refusal,
) -> bool {
    let want = refusal(of, 24);
    ends_so(rt, alloc, SEGMENT, input, &[64], want, &CAPTURE)
}

// Whether segmenting writes so much, with this hash.
fn is_taken(
    rt: &(impl Threads + Wait + Abort + Sync),
    alloc: Global,
    input: &[u8],
    len: usize,
    hashed: u32,
) -> bool {
    let ended = run_line(rt, alloc, SEGMENT, input, 64, &[], &[]);
    let output = ended.sink.bytes();
    is_as_wanted(&ended, (Status::Ok, "", len), output) && hash(output) == hashed
}

// The first head of version 1 that should be refused, and isn't.
fn first_taken(rt: &(impl Threads + Wait + Abort + Sync), alloc: Global) -> Option<[u8; 8]> {
    for head in &REFUSED {
        if !is_refused(rt, alloc, &with_head(head), &BAD_OFFLOAD) {
            return Some(*head);
        }
    }
    None
}

// The same of version 2.
fn first_taken_2(rt: &(impl Threads + Wait + Abort + Sync), alloc: Global) -> Option<[u8; 12]> {
    for head in &REFUSED_2 {
        if !is_refused(rt, alloc, &with_head_2(head), &BAD_OFFLOAD) {
            return Some(*head);
        }
    }
    None
}

// The first head that should be taken, of version 1, if it isn't in both versions.
fn first_refused(rt: &(impl Threads + Wait + Abort + Sync), alloc: Global) -> Option<[u8; 8]> {
    for (head, head_2, len, hashed) in &TAKEN {
        let is_one = is_taken(rt, alloc, &with_head(head), *len, *hashed);
        if !is_one || !is_taken(rt, alloc, &with_head_2(head_2), *len, *hashed) {
            return Some(*head);
        }
    }
    None
}

#[test]
fn offload_headers_edited_by_hand(rt: HostRuntime) {
    let alloc = rt.alloc();
    let first = (first_taken(&rt, alloc), first_taken_2(&rt, alloc));
    assert_eq!(rt; (first, first_refused(&rt, alloc)), ((None, None), None));
}

// Whether a capture of one record, of so many bytes, ends so: an offload header of a single packet, and a frame of
// zeros.
fn single_ends_so(
    rt: &(impl Threads + Wait + Abort + Sync),
    alloc: Global,
    head: &[u8],
    captured: u32,
    want: Want,
) -> bool {
    let mut file = FILE_HEADER;
    file[20] = 147;
    let left = (captured as usize).saturating_sub(head.len());
    let frame = vec![in alloc; 0u8; left].expect(rt, "no memory");
    let header = record_header(0, 0, captured);
    let input = joined(rt, alloc, &[&file, &header, head, &frame]);
    let ended = run_line(rt, alloc, "offload segment", &input, 65536, &[], &[]);
    is_as_wanted(&ended, want, ended.sink.bytes())
}

// A frame has at most 262,144 bytes, whatever the version of the offload header before it.
#[test]
fn the_longest_records(rt: HostRuntime) {
    let alloc = rt.alloc();
    let one = [1, 0, 0, 1, 0, 0, 0, 0, 0, 0, 0, 0];
    let two = [2, 0, 0, 0, 0, 0, 0, 1, 0, 0, 0, 0, 0, 0, 0, 0];
    let good = (Status::Ok, "", 262184);
    let bad = refusal(&BAD_OFFLOAD, 24);
    let too_long = refusal(&TOO_LONG, 24);
    let are_so = [
        single_ends_so(&rt, alloc, &one, 262156, good),
        single_ends_so(&rt, alloc, &one, 262157, bad),
        single_ends_so(&rt, alloc, &one, 262160, bad),
        single_ends_so(&rt, alloc, &one, 262161, too_long),
        single_ends_so(&rt, alloc, &two, 262160, good),
        single_ends_so(&rt, alloc, &two, 262161, too_long),
    ];
    assert_eq!(rt; are_so, [true; 6]);
}

// Two bytes of a merged capture, each by its place, and why it is refused then.
static EDITS: [(usize, u8, usize, u8, Refusal); 8] = [
    // The original length; one bit of the IPv4 total length, and of the TCP sum.
    (36, 71, 37, 0, BAD_OFFLOAD),
    (69, 0x2f, 68, 0, BAD_OFFLOAD),
    (103, 0xe5, 102, 0xbc, BAD_OFFLOAD),
    // A captured length of 11, and then an original one of 12 and of 11.
    (32, 11, 36, 12, BAD_OFFLOAD),
    (32, 11, 36, 11, BAD_ORIGINAL),
    // An original length above what there may be for a header of version 1, and for any; a captured one for any.
    (39, 0x80, 36, 12, BAD_OFFLOAD),
    (39, 0x80, 36, 16, BAD_ORIGINAL),
    (34, 4, 32, 17, TOO_LONG),
];

// The merged capture with other bytes at two places.
fn with_bytes(at: usize, byte: u8, next_at: usize, next: u8) -> [u8; 112] {
    let mut input = MERGED_CAPTURE;
    if at < 112 {
        input[at] = byte;
    }
    if next_at < 112 {
        input[next_at] = next;
    }
    input
}

// The first edit, by its first place and byte, that isn't refused so.
fn first_other_edit(
    rt: &(impl Threads + Wait + Abort + Sync),
    alloc: Global,
) -> Option<(usize, u8)> {
    for (a, byte, b, next, of) in &EDITS {
        if !is_refused(rt, alloc, &with_bytes(*a, *byte, *b, *next), of) {
            return Some((*a, *byte));
        }
    }
    None
}

#[test]
fn lengths_and_sums_edited_by_hand(rt: HostRuntime) {
    let alloc = rt.alloc();
    assert_eq!(rt; first_other_edit(&rt, alloc), None);
    // A packet whose IPv4 total length is two more than there is stays by itself.
    let (mut input, mut output) = (CAPTURE, SINGLES);
    input[57] = 0x2e;
    output[73] = 0x2e;
    let want = (Status::Ok, "", 202);
    assert!(rt; ends_so(&rt, alloc, MERGE, &input, &[64], want, &output));
}

// Whether a record of so many bytes whose offload header says version 2 is refused.
fn is_refused_at(rt: &(impl Threads + Wait + Abort + Sync), alloc: Global, captured: u8) -> bool {
    let mut input = MERGED_CAPTURE_2;
    input[32] = captured;
    input[36] = captured;
    is_refused(rt, alloc, &input, &BAD_OFFLOAD)
}

// A record whose offload header says version 2 and that has 12 to 15 bytes.
#[test]
fn records_shorter_than_their_header(rt: HostRuntime) {
    let alloc = rt.alloc();
    let are_refused = [
        is_refused_at(&rt, alloc, 12),
        is_refused_at(&rt, alloc, 13),
        is_refused_at(&rt, alloc, 14),
        is_refused_at(&rt, alloc, 15),
    ];
    assert_eq!(rt; are_refused, [true; 4]);
}

// The step, reads of record 1, and how many writes and flushes the file header and record 0 take.
static CALLS_BEFORE: [(usize, &[u64], u64); 3] = [
    (1, &[98, 114, 169], 115),
    (7, &[16, 17, 18, 19, 20, 21, 22, 23, 24, 25, 26], 19),
    (64, &[3, 4], 4),
];

// How many calls of the sink are made before one of these reads of record 1 is answered, or before the capture's end in
// it is where no read fails.
fn writes_before(
    rt: &(impl Threads + Wait + Abort + Sync),
    alloc: Global,
    line: &str,
    step: usize,
    reads: &[u64],
) -> Option<u64> {
    let (len, want) = if reads.is_empty() {
        let (status, line, _) = refusal(&SHORT_RECORD, 114);
        (160, (status, line))
    } else {
        (170, (Status::ReadFault, "read fault\n"))
    };
    let whole = Whole {
        line,
        input: first(&CAPTURE, len),
        output: first(&SINGLES, 114),
    };
    writes_answered_first(rt, alloc, whole, step, reads, want)
}

// The first step, and read if any, with another number of calls before.
fn first_other_before(
    rt: &(impl Threads + Wait + Abort + Sync),
    alloc: Global,
    line: &str,
) -> Option<(usize, Option<u64>)> {
    for (step, reads, writes) in &CALLS_BEFORE {
        if writes_before(rt, alloc, line, *step, &[]) != Some(*writes) {
            return Some((*step, None));
        }
        for read in *reads {
            if writes_before(rt, alloc, line, *step, &[*read]) != Some(*writes) {
                return Some((*step, Some(*read)));
            }
        }
    }
    None
}

// The source fails in record 1, or the capture ends there, and the sink fails as what lies before is written.
#[test]
fn the_sink_fails_before_record_1(rt: HostRuntime) {
    let alloc = rt.alloc();
    let others = [
        first_other_before(&rt, alloc, MERGE),
        first_other_before(&rt, alloc, "offload merge --budget 1 --blocks 12"),
    ];
    assert_eq!(rt; others, [None; 2]);
}

// The first of four reads of a record of two queues, behind so many packets, with another number of calls before.
fn first_other_behind(
    rt: &(impl Threads + Wait + Abort + Sync),
    alloc: Global,
    packets: u16,
    reads: u64,
    writes: u64,
) -> Option<u64> {
    let input = in_turn(rt, alloc, 8);
    let output = written_of(rt, alloc, packets);
    let whole = Whole {
        line: TWO_QUEUES,
        input: &input,
        output: &output,
    };
    let want = (Status::ReadFault, "read fault\n");
    for read in reads..reads.saturating_add(4) {
        if writes_answered_first(rt, alloc, whole, 64, &[read], want) != Some(writes) {
            return Some(read);
        }
    }
    None
}

// The same over two queues, where the packets before are a part of the first round, and of the second one.
#[test]
fn the_sink_fails_before_a_record_of_two_queues(rt: HostRuntime) {
    let alloc = rt.alloc();
    let others = [
        first_other_behind(&rt, alloc, 1, 5, 6),
        first_other_behind(&rt, alloc, 3, 13, 12),
        first_other_behind(&rt, alloc, 6, 25, 22),
    ];
    assert_eq!(rt; others, [None; 3]);
}
