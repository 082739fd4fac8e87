//! Pools that just suffice, and pools with a block too few.

use crate::lines::{Ended, Want, is_as_wanted, run_line};
use crate::row_frames::{flows, record_header, segments};
use offload_run::{Engine, Status};
use std::alloc::Global;
use std::process::Abort;
use std::sync::Wait;
use std::thread::Threads;
use worked_captures::FILE_HEADER;

// A capture of a link type whose only record is cut short behind its header.
fn begun(link: u8, len: u32) -> [u8; 40] {
    let mut bytes = [0; 40];
    bytes[..24].copy_from_slice(&FILE_HEADER);
    bytes[20] = link;
    bytes[24..].copy_from_slice(&record_header(0, 0, len));
    bytes
}

// Whether such a capture is refused by this line of the log, behind the file header.
fn is_judged(
    rt: &(impl Threads + Wait + Abort + Sync),
    alloc: Global,
    line: &str,
    record: (u8, u32),
    log: &str,
) -> bool {
    let input = begun(record.0, record.1);
    let ended = run_line(rt, alloc, line, &input, 4096, &[], &[]);
    ended.log.bytes() == log.as_bytes() && ended.sink.bytes().len() == 24
}

// A record that is cut short and too big for the pool is refused for its size; that of 65,495 segments needs 35 blocks.
#[test]
fn records_are_judged_by_their_headers(rt: HostRuntime) {
    let alloc = rt.alloc();
    let (plain, merged) = ((1, 1514), (147, 65561));
    let short = "malformed: ShortRecord at 24 in record 0\n";
    let of_two = "pool empty: round 0 needs 3 of 2 blocks\n";
    let of_many = "pool empty: round 0 needs 35 of 34 blocks\n";
    let are_judged = [
        is_judged(&rt, alloc, "offload merge --blocks 2", plain, of_two),
        is_judged(&rt, alloc, "offload merge --blocks 3", plain, short),
        is_judged(&rt, alloc, "offload segment --blocks 34", merged, of_many),
        is_judged(&rt, alloc, "offload segment --blocks 35", merged, short),
    ];
    assert_eq!(rt; are_judged, [true; 4]);
}

// How a pool ends that has three blocks where more are needed, with its line, once the file header is written.
fn empty(need: u32, line: &'static str) -> Want {
    let status = Status::PoolEmpty {
        round: 0,
        need,
        blocks: 3,
    };
    (status, line, 24)
}

// Whether this line ends so.
fn ends_so(
    rt: &(impl Threads + Wait + Abort + Sync),
    alloc: Global,
    line: &str,
    input: &[u8],
    want: Want,
) -> bool {
    let ended = run_line(rt, alloc, line, input, 4096, &[], &[]);
    is_as_wanted(&ended, want, ended.sink.bytes())
}

// Each frame of 1,514 bytes needs three blocks; their merged frame of 2,962 bytes needs four.
#[test]
fn pools_with_a_block_too_few(rt: HostRuntime) {
    let alloc = rt.alloc();
    let (two, four) = (segments(&rt, alloc, 4, 2), segments(&rt, alloc, 4, 4));
    let merged = run_line(&rt, alloc, "offload merge", &two, 4096, &[], &[]);
    let merged = merged.sink.bytes();
    let lines = [
        "offload merge --blocks 3 --budget 2",
        "offload merge --blocks 6 --budget 2",
        "offload segment --blocks 3",
        "offload segment --blocks 4",
    ];
    let needs_six = empty(6, "pool empty: round 0 needs 6 of 3 blocks\n");
    let needs_four = empty(4, "pool empty: round 0 needs 4 of 3 blocks\n");
    let end_so = [
        ends_so(&rt, alloc, lines[0], &two, needs_six),
        ends_so(&rt, alloc, lines[1], &four, (Status::Ok, "", 6012)),
        ends_so(&rt, alloc, lines[2], merged, needs_four),
        ends_so(&rt, alloc, lines[3], merged, (Status::Ok, "", 3084)),
    ];
    assert_eq!(rt; end_so, [true; 4]);
}

// How many blocks are home, and how many were taken.
fn told_by(ended: &Ended) -> (u32, u64) {
    match &ended.engine {
        Some(Engine::Merge(rounds)) => (rounds.home(), rounds.taken()),
        Some(Engine::Segment(run)) => (run.home(), run.taken()),
        None => (0, 0),
    }
}

#[test]
fn engines_tell_their_blocks(rt: HostRuntime) {
    let alloc = rt.alloc();
    let two = segments(&rt, alloc, 4, 2);
    let line = "offload merge --blocks 7";
    let merged = run_line(&rt, alloc, line, &two, 4096, &[], &[]);
    let between = merged.sink.bytes();
    let line = "offload segment --blocks 7";
    let cut = run_line(&rt, alloc, line, between, 4096, &[], &[]);
    let line = "offload make --count 1";
    let made = run_line(&rt, alloc, line, &[], 4096, &[], &[]);
    let told = [told_by(&merged), told_by(&cut), told_by(&made)];
    assert_eq!(rt; told, [(7, 6), (7, 4), (0, 0)]);
}

// How a line ends, how much it writes, and what its engine tells.
fn served(
    rt: &(impl Threads + Wait + Abort + Sync),
    alloc: Global,
    line: &str,
    input: &[u8],
) -> (Status, usize, (u32, u64)) {
    let ended = run_line(rt, alloc, line, input, 4096, &[], &[]);
    (ended.status, ended.sink.bytes().len(), told_by(&ended))
}

// 200 segments in rounds of two, and 20,000 rounds of one packet, with the fewest blocks.
#[test]
fn the_fewest_blocks_serve_every_round(rt: HostRuntime) {
    let alloc = rt.alloc();
    let input = segments(&rt, alloc, 4, 200);
    let pairs = served(&rt, alloc, "offload merge --blocks 6 --budget 2", &input);
    let input = flows(&rt, alloc, 20000);
    let singles = served(&rt, alloc, "offload merge --blocks 3 --budget 1", &input);
    assert_eq!(rt;
        [pairs, singles],
        [
            (Status::Ok, 299424, (6, 600)),
            (Status::Ok, 1740024, (3, 60000)),
        ]
    );
}
