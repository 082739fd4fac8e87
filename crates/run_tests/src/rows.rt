//! Rows of frames, and the records that `merge` writes of them: number, packets, first payload, modes and frame length,
//! and a hash of the whole output.
//!
//! The numbers were worked out by hand, and the hashes are those of `contrib/by_definition`.

use crate::byte_lists::{hash, joined};
use crate::lines::{Ended, run_line};
use crate::row_frames::{
    Frame, NEXT, PLAIN, PURE_ACK, Sum, capture_of, flows, record_header, segments,
};
use offload_run::Status;
use std::alloc::Global;
use std::process::Abort;
use std::sync::Wait;
use std::thread::Threads;
use worked_captures::FILE_HEADER;

// What a record of the output says: number, packets, first payload, modes and frame length.
pub type Said = (u32, u32, u32, u32, u32);

// What is tried, the frames, the records that `merge` writes of them, and a hash of its output.
pub type Row = (&'static str, &'static [Frame], &'static [Said], u32);

fn number_at(bytes: &[u8], places: [usize; 4]) -> u32 {
    let mut number = 0u32;
    for place in places {
        let byte = bytes.get(place).copied().unwrap_or(0);
        number = number.wrapping_mul(256).wrapping_add(u32::from(byte));
    }
    number
}

// What the record at a place says.
fn said_at(output: &[u8], at: usize) -> Said {
    let record = output.get(at..).unwrap_or(&[]);
    let none = usize::MAX;
    (
        number_at(record, [28, 29, 30, 31]),
        number_at(record, [20, 21, 22, 23]),
        number_at(record, [24, 25, 26, 27]),
        number_at(record, [none, none, none, 18]),
        number_at(record, [11, 10, 9, 8]).saturating_sub(16),
    )
}

// Where the next record begins.
fn behind(at: usize, said: Said) -> usize {
    at.saturating_add(32).saturating_add(said.4 as usize)
}

// Whether an output's records say this, one after the other, and there are no more.
pub fn says(output: &[u8], want: &[Said]) -> bool {
    let mut at = 24usize;
    for said in want {
        if said_at(output, at) != *said {
            return false;
        }
        at = behind(at, *said);
    }
    output.len() == at
}

// Whether these are number and captured length of an output's records.
pub fn has_lengths(output: &[u8], want: &[(u32, u32)]) -> bool {
    let mut at = 24usize;
    for length in want {
        let said = said_at(output, at);
        if (said.0, said.4.saturating_add(16)) != *length {
            return false;
        }
        at = behind(at, said);
    }
    output.len() == at
}

// Whether these are queue or tap of an output's records.
pub fn has_lanes(output: &[u8], want: &[u8]) -> bool {
    let mut at = 24usize;
    for lane in want {
        if output.get(at.saturating_add(19)) != Some(lane) {
            return false;
        }
        at = behind(at, said_at(output, at));
    }
    output.len() == at
}

// What `merge` does with a capture.
pub fn merged(rt: &(impl Threads + Wait + Abort + Sync), alloc: Global, input: &[u8]) -> Ended {
    run_line(rt, alloc, "offload merge", input, 65536, &[], &[])
}

// Whether a run went well and wrote these records.
pub fn is_said(ended: &Ended, want: &[Said]) -> bool {
    ended.status == Status::Ok && says(ended.sink.bytes(), want)
}

// The same of the whole output too, by its hash.
fn is_written(ended: &Ended, want: &[Said], hashed: u32) -> bool {
    is_said(ended, want) && hash(ended.sink.bytes()) == hashed
}

// The first row of whose frames other records are written.
pub fn first_other(
    rt: &(impl Threads + Wait + Abort + Sync),
    alloc: Global,
    rows: &[Row],
) -> Option<&'static str> {
    for (what, frames, want, hashed) in rows {
        let ended = merged(rt, alloc, &capture_of(rt, alloc, frames));
        if !is_written(&ended, want, *hashed) {
            return Some(what);
        }
    }
    None
}

static ROWS: [Row; 35] = [
    (
        "segments of 1,448 bytes",
        &[
            Frame {
                options: 3,
                payload: 1448,
                ..PLAIN
            },
            Frame {
                options: 3,
                seq: 2448,
                payload: 1448,
                ..NEXT
            },
        ],
        &[(0, 2, 1448, 0, 2962)],
        1057078683,
    ),
    (
        "wrapping identifications and sequences",
        &[
            Frame {
                id: 65535,
                seq: 0xffffffce,
                ..PLAIN
            },
            Frame {
                id: 0,
                seq: 50,
                ..PLAIN
            },
        ],
        &[(0, 2, 100, 0, 254)],
        36299183,
    ),
    (
        "equal identifications under DF",
        &[PLAIN, Frame { id: 100, ..NEXT }],
        &[(0, 2, 100, 1, 254)],
        2563647546,
    ),
    (
        "equal identifications without DF",
        &[
            Frame {
                has_df: false,
                ..PLAIN
            },
            Frame {
                id: 100,
                has_df: false,
                ..NEXT
            },
        ],
        &[(0, 1, 0, 0, 154), (1, 1, 0, 0, 154)],
        52968616,
    ),
    (
        "rising identifications without DF",
        &[
            Frame {
                has_df: false,
                ..PLAIN
            },
            Frame {
                has_df: false,
                ..NEXT
            },
        ],
        &[(0, 2, 100, 0, 254)],
        2271232731,
    ),
    (
        "identifications that jump",
        &[PLAIN, Frame { id: 107, ..NEXT }],
        &[(0, 1, 0, 0, 154), (1, 1, 0, 0, 154)],
        2518486089,
    ),
    (
        "a third that neither stays nor rises",
        &[PLAIN, NEXT, Frame { seq: 1200, ..NEXT }],
        &[(0, 2, 100, 0, 254), (2, 1, 0, 0, 154)],
        795788130,
    ),
    (
        "a sequence that jumps",
        &[PLAIN, Frame { seq: 1101, ..NEXT }],
        &[(0, 1, 0, 0, 154), (1, 1, 0, 0, 154)],
        2957869511,
    ),
    (
        "a TCP sum of 0",
        &[
            Frame {
                urgent: 18414,
                ..PLAIN
            },
            Frame {
                urgent: 18414,
                ..NEXT
            },
        ],
        &[(0, 2, 100, 0, 254)],
        2817485884,
    ),
    (
        "ffff for a TCP sum of 0",
        &[
            Frame {
                urgent: 18414,
                sum: Sum::Ffff,
                ..PLAIN
            },
            Frame {
                urgent: 18414,
                ..NEXT
            },
        ],
        &[(0, 1, 0, 0, 154), (1, 1, 0, 0, 154)],
        2020059944,
    ),
    (
        "no sums",
        &[
            Frame {
                sum: Sum::Unfilled,
                ..PLAIN
            },
            Frame {
                sum: Sum::Unfilled,
                ..NEXT
            },
        ],
        &[(0, 1, 0, 0, 154), (1, 1, 0, 0, 154)],
        212188866,
    ),
    (
        "a short segment in the middle",
        &[
            PLAIN,
            Frame {
                payload: 60,
                ..NEXT
            },
            Frame {
                id: 102,
                seq: 1160,
                ..NEXT
            },
        ],
        &[(0, 2, 100, 0, 214), (2, 1, 0, 0, 154)],
        2033450527,
    ),
    (
        "an odd payload",
        &[
            Frame {
                payload: 99,
                ..PLAIN
            },
            Frame {
                seq: 1099,
                payload: 99,
                ..NEXT
            },
            Frame {
                id: 102,
                seq: 1198,
                payload: 7,
                ..NEXT
            },
        ],
        &[(0, 3, 99, 0, 259)],
        217452085,
    ),
    (
        "a longer segment",
        &[
            PLAIN,
            Frame {
                payload: 101,
                ..NEXT
            },
        ],
        &[(0, 1, 0, 0, 154), (1, 1, 0, 0, 155)],
        2492284252,
    ),
    (
        "PSH first",
        &[
            Frame {
                flags: 0x18,
                ..PLAIN
            },
            NEXT,
        ],
        &[(0, 1, 0, 0, 154), (1, 1, 0, 0, 154)],
        3869209576,
    ),
    (
        "PSH and FIN last",
        &[
            PLAIN,
            Frame {
                flags: 0x19,
                ..NEXT
            },
        ],
        &[(0, 2, 100, 0, 254)],
        1570690651,
    ),
    (
        "a padded pure ACK between",
        &[PLAIN, PURE_ACK, NEXT],
        &[(0, 1, 0, 0, 154), (1, 1, 0, 0, 60), (2, 1, 0, 0, 154)],
        2110726130,
    ),
    (
        "a padded segment",
        &[PLAIN, Frame { padding: 2, ..NEXT }],
        &[(0, 1, 0, 0, 154), (1, 1, 0, 0, 156)],
        2601719396,
    ),
    (
        "SYN between",
        &[
            PLAIN,
            Frame {
                flags: 0x12,
                ..NEXT
            },
            NEXT,
        ],
        &[(0, 1, 0, 0, 154), (1, 1, 0, 0, 154), (2, 1, 0, 0, 154)],
        3355296275,
    ),
    (
        "two flows in turn",
        &[
            PLAIN,
            Frame {
                port: 40001,
                ..PLAIN
            },
            NEXT,
            Frame {
                port: 40001,
                ..NEXT
            },
        ],
        &[(0, 2, 100, 0, 254), (1, 2, 100, 0, 254)],
        3167380582,
    ),
    (
        "a tunnel without outer sums",
        &[
            Frame {
                tunnel: 4,
                payload: 1000,
                ..PLAIN
            },
            Frame {
                tunnel: 4,
                seq: 2000,
                payload: 1000,
                ..NEXT
            },
        ],
        &[(0, 2, 1000, 0, 2104)],
        1153139377,
    ),
    (
        "outer sums, the first left out",
        &[
            Frame {
                tunnel: 4,
                payload: 1000,
                ..PLAIN
            },
            Frame {
                tunnel: 4,
                has_udp_sum: true,
                seq: 2000,
                payload: 1000,
                ..NEXT
            },
        ],
        &[(0, 1, 0, 0, 1104), (1, 1, 0, 0, 1104)],
        150515065,
    ),
    (
        "outer sums",
        &[
            Frame {
                tunnel: 4,
                has_udp_sum: true,
                payload: 1000,
                ..PLAIN
            },
            Frame {
                tunnel: 4,
                has_udp_sum: true,
                seq: 2000,
                payload: 1000,
                ..NEXT
            },
        ],
        &[(0, 2, 1000, 0, 2104)],
        1202074776,
    ),
    (
        "outer identifications fixed, inner rising",
        &[
            Frame {
                tunnel: 4,
                payload: 1000,
                ..PLAIN
            },
            Frame {
                tunnel: 4,
                id: 101,
                seq: 2000,
                payload: 1000,
                ..PLAIN
            },
        ],
        &[(0, 2, 1000, 1, 2104)],
        3742163792,
    ),
    (
        "outer identifications rising, inner fixed",
        &[
            Frame {
                tunnel: 4,
                payload: 1000,
                ..PLAIN
            },
            Frame {
                tunnel: 4,
                outer_id: 8,
                seq: 2000,
                payload: 1000,
                ..PLAIN
            },
        ],
        &[(0, 2, 1000, 2, 2104)],
        2036220911,
    ),
    (
        "both fixed",
        &[
            Frame {
                tunnel: 4,
                payload: 1000,
                ..PLAIN
            },
            Frame {
                tunnel: 4,
                seq: 2000,
                payload: 1000,
                ..PLAIN
            },
        ],
        &[(0, 2, 1000, 3, 2104)],
        330278030,
    ),
    (
        "IPv4 in IPv6, fixed",
        &[
            Frame {
                tunnel: 6,
                payload: 1000,
                ..PLAIN
            },
            Frame {
                tunnel: 6,
                outer_id: 8,
                seq: 2000,
                payload: 1000,
                ..PLAIN
            },
        ],
        &[(0, 2, 1000, 2, 2124)],
        314438622,
    ),
    (
        "IPv6",
        &[Frame { ip: 6, ..PLAIN }, Frame { ip: 6, ..NEXT }],
        &[(0, 2, 100, 0, 274)],
        595168983,
    ),
    (
        "the greatest payload length of IPv6",
        &[
            Frame {
                ip: 6,
                payload: 32758,
                ..PLAIN
            },
            Frame {
                ip: 6,
                seq: 33758,
                payload: 32757,
                ..PLAIN
            },
        ],
        &[(0, 2, 32758, 0, 65589)],
        4178742562,
    ),
    (
        "a payload length of 0 where it would be 65,536",
        &[
            Frame {
                ip: 6,
                payload: 32758,
                ..PLAIN
            },
            Frame {
                ip: 6,
                seq: 33758,
                payload: 32758,
                ..PLAIN
            },
        ],
        &[(0, 2, 32758, 0, 65590)],
        50282780,
    ),
    (
        "two tags",
        &[
            Frame {
                tags: 2,
                ip: 6,
                ..PLAIN
            },
            Frame {
                tags: 2,
                ip: 6,
                ..NEXT
            },
        ],
        &[(0, 2, 100, 0, 282)],
        3961024078,
    ),
    (
        "three tags",
        &[
            Frame {
                tags: 3,
                ip: 6,
                ..PLAIN
            },
            Frame {
                tags: 3,
                ip: 6,
                ..NEXT
            },
        ],
        &[(0, 1, 0, 0, 186), (1, 1, 0, 0, 186)],
        105432192,
    ),
    (
        "other hop limits",
        &[
            Frame { ip: 6, ..PLAIN },
            Frame {
                ip: 6,
                hops: 63,
                ..NEXT
            },
        ],
        &[(0, 1, 0, 0, 174), (1, 1, 0, 0, 174)],
        3347923801,
    ),
    (
        "a tunnel in a tunnel, of no flow, between two segments",
        &[
            PLAIN,
            Frame {
                tunnel: 4,
                tunnels: 2,
                ..PLAIN
            },
            NEXT,
        ],
        &[(0, 2, 100, 0, 254), (1, 1, 0, 0, 254)],
        3296528840,
    ),
    (
        "the deepest layout",
        &[
            Frame {
                tags: 2,
                tunnel: 6,
                ip: 6,
                options: 10,
                ..PLAIN
            },
            Frame {
                tags: 2,
                tunnel: 6,
                ip: 6,
                options: 10,
                ..NEXT
            },
        ],
        &[(0, 2, 100, 0, 400)],
        1221231073,
    ),
];

#[test]
fn rows_of_frames(rt: HostRuntime) {
    assert_eq!(rt; first_other(&rt, rt.alloc(), &ROWS), None);
}

// 64 segments of 1,448 bytes: the first 45 fill an IPv4 packet of 65,212 bytes, and the others make one of 27,564.
#[test]
fn a_full_round(rt: HostRuntime) {
    let alloc = rt.alloc();
    let ended = merged(&rt, alloc, &segments(&rt, alloc, 4, 64));
    let want = [(0, 45, 1448, 0, 65226), (45, 19, 1448, 0, 27578)];
    assert!(rt; is_written(&ended, &want, 946463092));
}

// The same over IPv6, whose payload length is 0 in the merged frame of 92,758 bytes.
#[test]
fn a_full_round_over_ipv6(rt: HostRuntime) {
    let alloc = rt.alloc();
    let ended = merged(&rt, alloc, &segments(&rt, alloc, 6, 64));
    assert!(rt; is_written(&ended, &[(0, 64, 1448, 0, 92758)], 2354196861));
    let length = ended.sink.bytes().get(74..76).unwrap_or(&[]);
    assert_eq!(rt; length, [0, 0].as_slice());
}

// Whether an output's records are so many single packets of 55 bytes.
fn are_singles(output: &[u8], count: u32) -> bool {
    let mut at = 24usize;
    for number in 0..count {
        if said_at(output, at) != (number, 1, 0, 0, 55) {
            return false;
        }
        at = at.saturating_add(87);
    }
    output.len() == at
}

// 8,192 flows of one segment each.
#[test]
fn many_flows(rt: HostRuntime) {
    let alloc = rt.alloc();
    let ended = merged(&rt, alloc, &flows(&rt, alloc, 8192));
    assert!(rt; ended.status == Status::Ok && are_singles(ended.sink.bytes(), 8192));
}

// The largest frame that there may be.
#[test]
fn a_large_frame(rt: HostRuntime) {
    let alloc = rt.alloc();
    let frame = vec![in alloc; 0u8; 262144].expect(&rt, "no memory");
    let header = record_header(0, 0, 262144);
    let input = joined(&rt, alloc, &[&FILE_HEADER, &header, &frame]);
    assert!(rt; is_said(&merged(&rt, alloc, &input), &[(0, 1, 0, 0, 262144)]));
}
