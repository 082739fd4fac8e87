//! The lines that `check` writes.

use crate::byte_lists::joined;
use crate::lines::{CAPTURE, run_line};
use crate::queues::{KEY, in_turn, pair};
use crate::row_frames::{first, segments};
use offload_run::Status;
use pcap_io::{CapFault, CapKind};
use std::alloc::Global;
use std::process::Abort;
use std::sync::Wait;
use std::thread::Threads;

const BOTH: &str = "queue 0: records 2 items 1 merged 1 returned 2\n\
    total: records 2 items 1 merged 1 returned 2\n";

// Each packet in a round of its own.
const APART: &str = "queue 0: records 2 items 2 merged 0 returned 2\n\
    total: records 2 items 2 merged 0 returned 2\n";

const FIRST: &str = "queue 0: records 1 items 1 merged 0 returned 1\n\
    total: records 1 items 1 merged 0 returned 1\n";

const NONE: &str = "queue 0: records 0 items 0 merged 0 returned 0\n\
    total: records 0 items 0 merged 0 returned 0\n";

// By queues and taps, in two rounds.
const LANES: &str = "queue 0: records 4 items 2 merged 2 returned 4\n\
    queue 1: records 4 items 2 merged 2 returned 4\n\
    tap 0: windows 8 bytes 512\n\
    tap 1: windows 8 bytes 512\n\
    total: records 8 items 4 merged 4 returned 8\n";

// Of a queue that no packet goes to, and of taps whose second windows are shorter.
const IDLE: &str = "queue 0: records 2 items 1 merged 1 returned 2\n\
    queue 1: records 0 items 0 merged 0 returned 0\n\
    tap 0: windows 2 bytes 128\n\
    tap 1: windows 2 bytes 72\n\
    total: records 2 items 1 merged 1 returned 2\n";

// Of taps that are shown 40 bytes of each packet.
const SHOWN: &str = "queue 0: records 2 items 1 merged 1 returned 2\n\
    tap 0: windows 2 bytes 80\n\
    tap 1: windows 0 bytes 0\n\
    total: records 2 items 1 merged 1 returned 2\n";

// Of a table that has the second queue alone.
const SECOND: &str = "queue 0: records 0 items 0 merged 0 returned 0\n\
    queue 1: records 2 items 1 merged 1 returned 2\n\
    total: records 2 items 1 merged 1 returned 2\n";

// Of a generated capture: a source that fails at its first call is never asked.
const MADE: &str = "made: records 1 bytes 1344\n\
    queue 0: records 1 items 1 merged 0 returned 1\n\
    total: records 1 items 1 merged 0 returned 1\n";

// What a line checks.
#[derive(Clone, Copy)]
enum Input {
    Nothing,
    Capture,
    // Its first bytes, so many.
    Cut(usize),
    // Eight packets of two flows in turn.
    Turns,
    // Two packets of 100 bytes.
    Pair,
    // Two of 1,514 bytes, which need three blocks each.
    Full,
}

fn bytes_of(rt: &impl Abort, alloc: Global, input: Input) -> Vec<u8> {
    match input {
        Input::Nothing => Vec::new(alloc),
        Input::Capture => joined(rt, alloc, &[&CAPTURE]),
        Input::Cut(len) => joined(rt, alloc, &[first(&CAPTURE, len)]),
        Input::Turns => in_turn(rt, alloc, 8),
        Input::Pair => pair(rt, alloc, 4),
        Input::Full => segments(rt, alloc, 4, 2),
    }
}

// How a line is to end, and what it writes.
type Want = (Status, &'static str);

const REFUSED: Want = (
    Status::Malformed(CapFault {
        kind: CapKind::ShortHeader,
        offset: 0,
        number: 0,
    }),
    "",
);

const CUT_SHORT: Want = (
    Status::Malformed(CapFault {
        kind: CapKind::ShortRecord,
        offset: 98,
        number: 1,
    }),
    FIRST,
);

const EMPTY: Want = (
    Status::PoolEmpty {
        round: 0,
        need: 6,
        blocks: 3,
    },
    NONE,
);

const LANES_LINE: &str = "offload check --queues 2 --taps 2 --snap 64 --budget 4";

const SHOWN_LINE: &str = "offload check --taps 2 --snap 64 --filter 1,6~0~0~40";

// A line, what it checks, the reads that fail, and its want.
static ROWS: [(&str, Input, &[u64], Want); 11] = [
    (
        "offload check --count 5",
        Input::Capture,
        &[],
        (Status::Ok, BOTH),
    ),
    (
        "offload check --blocks 3 --budget 1",
        Input::Capture,
        &[],
        (Status::Ok, APART),
    ),
    (LANES_LINE, Input::Turns, &[], (Status::Ok, LANES)),
    (LANES_LINE, Input::Pair, &[], (Status::Ok, IDLE)),
    (SHOWN_LINE, Input::Pair, &[], (Status::Ok, SHOWN)),
    (
        "offload check --segs 1",
        Input::Pair,
        &[],
        (Status::Ok, APART),
    ),
    (
        "offload check --seed 0 --count 1",
        Input::Capture,
        &[0],
        (Status::Ok, MADE),
    ),
    (
        "offload check --blocks 3 --budget 2",
        Input::Full,
        &[],
        EMPTY,
    ),
    ("offload check", Input::Cut(160), &[], CUT_SHORT),
    (
        "offload check",
        Input::Capture,
        &[3],
        (Status::ReadFault, FIRST),
    ),
    ("offload check", Input::Nothing, &[], REFUSED),
];

// Whether a line ends and writes so.
fn is_so(
    rt: &(impl Threads + Wait + Abort + Sync),
    alloc: Global,
    line: &str,
    input: Input,
    fails: &[u64],
    want: Want,
) -> bool {
    let bytes = bytes_of(rt, alloc, input);
    let ended = run_line(rt, alloc, line, &bytes, 4096, fails, &[]);
    ended.status == want.0 && ended.sink.bytes() == want.1.as_bytes()
}

// The first line that ends or writes otherwise, and what it writes by its want.
fn first_other(
    rt: &(impl Threads + Wait + Abort + Sync),
    alloc: Global,
) -> Option<(&'static str, &'static str)> {
    for (line, input, fails, want) in &ROWS {
        if !is_so(rt, alloc, line, *input, fails, *want) {
            return Some((line, want.1));
        }
    }
    None
}

#[test]
fn lines_by_row(rt: HostRuntime) {
    let alloc = rt.alloc();
    assert_eq!(rt; first_other(&rt, alloc), None);
    let second = format!(in alloc; "offload check --queues 2 --rss {KEY} --table 1").expect(
        &rt,
        "no memory",
    );
    let want = (Status::Ok, SECOND);
    assert!(rt; is_so(&rt, alloc, &second, Input::Pair, &[], want));
}
