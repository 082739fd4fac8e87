//! Queues and taps: their records, each call of the outside failing in turn, and tasks that wait for one another.

use crate::failing::{Whole, writes_answered_first};
use crate::lines::{is_as_wanted, run_gated, run_line};
use crate::row_frames::{Frame, NEXT, PLAIN, capture_of};
use crate::rows::{Said, has_lengths, is_said};
use off_io::{Meeting, Who};
use offload_run::Status;
use std::alloc::Global;
use std::process::Abort;
use std::sync::Wait;
use std::thread::Threads;

pub const TWO_QUEUES: &str = "offload merge --queues 2 --budget 4";

/// The key with which the Toeplitz hash is shown in most descriptions.
pub const KEY: &str =
    "6d5a56da255b0ec24167253d43a38fb0d0ca2bcbae7b30b477cb2da38030f20c6a42b73bbeac01fa";

// A capture of the first packets of two flows in turn, of which the first one has queue 0 of two.
pub fn in_turn(rt: &impl Abort, alloc: Global, count: u16) -> Vec<u8> {
    let mut frames = Vec::new(alloc);
    for i in 0..count.min(8) {
        let frame = Frame {
            port: 40000 + i % 2,
            id: 100 + i / 2,
            seq: 1000 + 100 * u32::from(i / 2),
            ..PLAIN
        };
        frames.push(frame).expect(rt, "no memory");
    }
    capture_of(rt, alloc, &frames)
}

// Whether a line goes well and writes these records.
pub fn line_says(
    rt: &(impl Threads + Wait + Abort + Sync),
    alloc: Global,
    line: &str,
    input: &[u8],
    want: &[Said],
) -> bool {
    is_said(&run_line(rt, alloc, line, input, 65536, &[], &[]), want)
}

// Of two flows in rounds of four packets, all of which are merged.
static IN_FOURS: [Said; 4] = [
    (0, 2, 100, 0, 254),
    (1, 2, 100, 0, 254),
    (4, 2, 100, 0, 254),
    (5, 2, 100, 0, 254),
];

static IN_THREES: [Said; 6] = [
    (0, 2, 100, 0, 254),
    (1, 1, 0, 0, 154),
    (4, 1, 0, 0, 154),
    (3, 2, 100, 0, 254),
    (6, 1, 0, 0, 154),
    (7, 1, 0, 0, 154),
];

// Number and packets of each record, queue by queue in each round.
#[test]
fn two_queues(rt: HostRuntime) {
    let alloc = rt.alloc();
    let input = in_turn(&rt, alloc, 8);
    let threes = "offload merge --queues 2 --budget 3";
    let are_said = [
        line_says(&rt, alloc, TWO_QUEUES, &input, &IN_FOURS),
        line_says(&rt, alloc, threes, &input, &IN_THREES),
    ];
    assert_eq!(rt; are_said, [true; 2]);
}

// What is written of the first packets, where no call fails.
pub fn written_of(rt: &(impl Threads + Wait + Abort + Sync), alloc: Global, count: u16) -> Vec<u8> {
    let input = in_turn(rt, alloc, count);
    let ended = run_line(rt, alloc, TWO_QUEUES, &input, 4096, &[], &[]);
    ended.sink.bytes().to_vec(alloc).expect(rt, "no memory")
}

// The first read that fails and isn't answered once the packets before are written as two queues have them. The file
// header takes a read, each of eight records four, and the end one.
fn first_other_read(
    rt: &(impl Threads + Wait + Abort + Sync),
    alloc: Global,
    input: &[u8],
) -> Option<u64> {
    for read in 0..33u64 {
        let want = written_of(rt, alloc, (read / 4) as u16);
        let ended = run_line(rt, alloc, TWO_QUEUES, input, 64, &[read + 1], &[]);
        let fault = (Status::ReadFault, "read fault\n", want.len());
        if !is_as_wanted(&ended, fault, &want) {
            return Some(read);
        }
    }
    None
}

#[test]
fn each_read_fails_over_two_queues(rt: HostRuntime) {
    let alloc = rt.alloc();
    let input = in_turn(&rt, alloc, 8);
    let behind = run_line(&rt, alloc, TWO_QUEUES, &input, 64, &[34], &[]);
    assert_eq!(rt;
        (first_other_read(&rt, alloc, &input), behind.status),
        (None, Status::Ok)
    );
}

// At each write or flush that fails, of more than 20, a prefix of the output is in the sink.
#[test]
fn each_write_fails_over_two_queues(rt: HostRuntime) {
    let alloc = rt.alloc();
    let input = in_turn(&rt, alloc, 8);
    let output = written_of(&rt, alloc, 8);
    let whole = Whole {
        line: TWO_QUEUES,
        input: &input,
        output: &output,
    };
    let calls = writes_answered_first(&rt, alloc, whole, 64, &[], (Status::Ok, ""));
    assert!(rt; calls.unwrap_or(0) > 20);
}

// Two packets of 100 bytes over this version of IP, which are merged. Over IPv6 they have 120.
pub fn pair(rt: &impl Abort, alloc: Global, ip: u8) -> Vec<u8> {
    let first = Frame {
        ip,
        payload: 46,
        ..PLAIN
    };
    let second = Frame {
        ip,
        payload: 46,
        seq: 1046,
        ..NEXT
    };
    capture_of(rt, alloc, &[first, second])
}

// Whether a line goes well and writes records of these numbers and captured lengths.
pub fn line_has_lengths(
    rt: &(impl Threads + Wait + Abort + Sync),
    alloc: Global,
    line: &str,
    input: &[u8],
    want: &[(u32, u32)],
) -> bool {
    let ended = run_line(rt, alloc, line, input, 4096, &[], &[]);
    ended.status == Status::Ok && has_lengths(ended.sink.bytes(), want)
}

// The merged packets, and two windows of each tap.
#[test]
fn two_taps(rt: HostRuntime) {
    let alloc = rt.alloc();
    let input = pair(&rt, alloc, 4);
    let line = "offload merge --taps 2 --snap 64";
    let want = [(0, 162), (0, 80), (1, 80), (0, 52), (1, 52)];
    assert!(rt; line_has_lengths(&rt, alloc, line, &input, &want));
}

// How a line ends where two tasks wait for each other, and how often they met.
fn met(
    rt: &(impl Threads + Wait + Abort + Sync),
    alloc: Global,
    line: &str,
    one: Who,
    other: Who,
) -> (Status, u32) {
    let input = in_turn(rt, alloc, 2);
    let meeting = Meeting::of(one, other);
    let ended = run_gated(rt, alloc, line, &input, 4096, (&[], &[]), &meeting);
    (ended.status, meeting.met())
}

// Each of two tasks sees that the other one has begun.
#[test]
fn tasks_meet(rt: HostRuntime) {
    let alloc = rt.alloc();
    let (workers, taps) = ([Who::Worker(0), Who::Worker(1)], [Who::Tap(0), Who::Tap(1)]);
    let seen = [
        met(&rt, alloc, "offload merge --taps 1", workers[0], taps[0]),
        met(&rt, alloc, "offload merge --taps 2", taps[0], taps[1]),
        met(
            &rt,
            alloc,
            "offload merge --queues 2",
            workers[0],
            workers[1],
        ),
    ];
    assert_eq!(rt; seen, [(Status::Ok, 2); 3]);
}
