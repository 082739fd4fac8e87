//! What `--segs`, `--filter`, `--rss` and `--table` change.
//!
//! The numbers were worked out by hand; the queues of flows under a hash are those of `contrib/by_definition`.

use crate::lines::run_line;
use crate::queues::{KEY, in_turn, line_has_lengths, line_says, pair};
use crate::row_frames::segments;
use crate::rows::{Said, has_lanes, is_said};
use std::alloc::Global;
use std::process::Abort;
use std::sync::Wait;
use std::thread::Threads;

static IN_SEVENTEENS: [Said; 4] = [
    (0, 17, 1448, 0, 24682),
    (17, 17, 1448, 0, 24682),
    (34, 17, 1448, 0, 24682),
    (51, 13, 1448, 0, 18890),
];

static FULL_AND_REST: [Said; 2] = [(0, 45, 1448, 0, 65226), (45, 19, 1448, 0, 27578)];

static EACH_ALONE: [Said; 2] = [(0, 1, 0, 0, 1514), (1, 1, 0, 0, 1514)];

#[test]
fn runs_of_so_many_packets_at_most(rt: HostRuntime) {
    let alloc = rt.alloc();
    let round = segments(&rt, alloc, 4, 64);
    let two = segments(&rt, alloc, 4, 2);
    let are_said = [
        line_says(
            &rt,
            alloc,
            "offload merge --segs 17",
            &round,
            &IN_SEVENTEENS,
        ),
        line_says(
            &rt,
            alloc,
            "offload merge --segs 46",
            &round,
            &FULL_AND_REST,
        ),
        line_says(&rt, alloc, "offload merge --segs 1", &two, &EACH_ALONE),
    ];
    assert_eq!(rt; are_said, [true; 3]);
}

const TCP_OVER_IP4: &str = "4,48~0~0~23,21~0~1~6,6~0~0~262144,6~0~0~0";

// A filter, and number and captured length of what is written of two packets over IPv4.
static FILTERS: [(&str, &[(u32, u32)]); 5] = [
    (
        TCP_OVER_IP4,
        &[(0, 162), (0, 80), (1, 80), (0, 52), (1, 52)],
    ),
    ("1,6~0~0~40", &[(0, 162), (0, 56), (1, 56)]),
    ("1,6~0~0~64", &[(0, 162), (0, 80), (1, 80)]),
    (
        "1,6~0~0~65",
        &[(0, 162), (0, 80), (1, 80), (0, 17), (1, 17)],
    ),
    ("1,6~0~0~0", &[(0, 162)]),
];

// Whether that is written by two taps under this filter.
fn is_shown(
    rt: &(impl Threads + Wait + Abort + Sync),
    alloc: Global,
    filter: &str,
    input: &[u8],
    want: &[(u32, u32)],
) -> bool {
    let line = format!(in alloc; "offload merge --taps 2 --snap 64 --filter {filter}").expect(
        rt,
        "no memory",
    );
    line_has_lengths(rt, alloc, &line, input, want)
}

// The first filter under which another thing is written.
fn first_other_filter(
    rt: &(impl Threads + Wait + Abort + Sync),
    alloc: Global,
) -> Option<&'static str> {
    let input = pair(rt, alloc, 4);
    for (filter, want) in &FILTERS {
        if !is_shown(rt, alloc, filter, &input, want) {
            return Some(filter);
        }
    }
    None
}

// Two packets of 100 bytes over IPv4, and of 120 over IPv6, and what two taps see of them: a merged packet, and
// windows.
#[test]
fn taps_are_shown_what_a_filter_says(rt: HostRuntime) {
    let alloc = rt.alloc();
    assert_eq!(rt; first_other_filter(&rt, alloc), None);
    let input = pair(&rt, alloc, 6);
    assert!(rt; is_shown(&rt, alloc, TCP_OVER_IP4, &input, &[(0, 182)]));
}

// Options beside a hash, and queue and number of each record.
static TABLES: [(&str, [u8; 4], [u32; 4]); 4] = [
    ("--table 1", [1, 1, 1, 1], [0, 1, 4, 5]),
    ("--table 1,0", [0, 1, 0, 1], [0, 1, 4, 5]),
    ("--table 0,1", [0, 1, 0, 1], [1, 0, 5, 4]),
    ("--snap 64", [0, 1, 0, 1], [1, 0, 5, 4]),
];

// The first options by which another thing is written of packets of two flows in turn.
fn first_other_table(
    rt: &(impl Threads + Wait + Abort + Sync),
    alloc: Global,
) -> Option<&'static str> {
    let input = in_turn(rt, alloc, 8);
    for (table, lanes, numbers) in &TABLES {
        let line = format!(in alloc;
            "offload merge --queues 2 --budget 4 --rss {KEY} {table}"
        ).expect(rt, "no memory");
        let ended = run_line(rt, alloc, &line, &input, 4096, &[], &[]);
        let want = numbers.map(|number| (number, 2, 100, 0, 254));
        if !is_said(&ended, &want) || !has_lanes(ended.sink.bytes(), lanes) {
            return Some(table);
        }
    }
    None
}

// Packets of two flows in turn, in rounds of four: the queue of each record, its number, and that it has two packets.
// The hashes of the flows are 0c863309 and 9e1892d8.
#[test]
fn queues_by_a_hash_and_a_table(rt: HostRuntime) {
    assert_eq!(rt; first_other_table(&rt, rt.alloc()), None);
}
