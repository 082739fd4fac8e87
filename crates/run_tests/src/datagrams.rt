//! Rows of UDP datagrams and of GRE tunnels: the records that `merge` writes of them, as in [`crate::rows`], and what
//! comes back.
//!
//! The numbers were worked out by hand, and the hashes are those of `contrib/by_definition`.

use crate::lines::ends_so;
use crate::row_frames::{Frame, Gre, NEXT, PLAIN, capture_of};
use crate::rows::{Row, first_other, merged};
use offload_run::Status;
use std::alloc::Global;
use std::process::Abort;
use std::sync::Wait;
use std::thread::Threads;

const DATAGRAM: Frame = Frame {
    datagram_to: 5001,
    has_udp_sum: true,
    id: 1,
    payload: 500,
    ..PLAIN
};

// The next datagram, all of the same time.
const NEXT_DATAGRAM: Frame = Frame { id: 2, ..DATAGRAM };

const LAST_DATAGRAM: Frame = Frame {
    id: 3,
    payload: 200,
    ..DATAGRAM
};

const SHORT_DATAGRAM: Frame = Frame {
    payload: 200,
    ..DATAGRAM
};

const UNFILLED: Frame = Frame {
    has_udp_sum: false,
    ..DATAGRAM
};

const NEXT_UNFILLED: Frame = Frame { id: 2, ..UNFILLED };

// To the port that VXLAN had before its own.
const OLD_PORT: Frame = Frame {
    datagram_to: 8472,
    ..DATAGRAM
};

const NEXT_OLD_PORT: Frame = Frame { id: 2, ..OLD_PORT };

const OVER_IPV6: Frame = Frame { ip: 6, ..DATAGRAM };

const ONE_BYTE: Frame = Frame {
    payload: 1,
    ..OVER_IPV6
};

const TUNNELLED: Frame = Frame {
    tags: 2,
    tunnel: 6,
    ..OVER_IPV6
};

const IN_GRE: Frame = Frame {
    gre: Gre::Plain,
    payload: 100,
    ..OVER_IPV6
};

const NEXT_IN_GRE: Frame = Frame {
    outer_id: 8,
    ..IN_GRE
};

static DATAGRAMS: [Row; 8] = [
    (
        "of 500, 500 and 200 bytes",
        &[DATAGRAM, NEXT_DATAGRAM, LAST_DATAGRAM],
        &[(0, 3, 500, 0, 1242)],
        898_165_749,
    ),
    (
        "without sums",
        &[UNFILLED, NEXT_UNFILLED],
        &[(0, 2, 500, 0, 1042)],
        4_094_139_963,
    ),
    (
        "sums, the first left out",
        &[UNFILLED, NEXT_DATAGRAM],
        &[(0, 1, 0, 0, 542), (1, 1, 0, 0, 542)],
        2_778_540_693,
    ),
    (
        "to the old port of VXLAN",
        &[OLD_PORT, NEXT_OLD_PORT],
        &[(0, 1, 0, 0, 542), (1, 1, 0, 0, 542)],
        832_650_184,
    ),
    (
        "over IPv6, the last of one byte",
        &[OVER_IPV6, ONE_BYTE],
        &[(0, 2, 500, 0, 563)],
        938_062_736,
    ),
    (
        "the second longer",
        &[SHORT_DATAGRAM, NEXT_DATAGRAM],
        &[(0, 1, 0, 0, 242), (1, 1, 0, 0, 542)],
        1_248_809_353,
    ),
    (
        "in a tunnel",
        &[TUNNELLED, TUNNELLED],
        &[(0, 2, 500, 0, 1148)],
        2_278_878_251,
    ),
    (
        "in GRE, over IPv6",
        &[IN_GRE, NEXT_IN_GRE],
        &[(0, 2, 100, 0, 286)],
        3_152_931_361,
    ),
];

const ENCAPSULATED: Frame = Frame {
    gre: Gre::Plain,
    payload: 1000,
    ..PLAIN
};

const NEXT_ENCAPSULATED: Frame = Frame {
    gre: Gre::Plain,
    seq: 2000,
    payload: 1000,
    ..NEXT
};

const KEYED: Frame = Frame {
    gre: Gre::Keyed(7),
    ..ENCAPSULATED
};

const NEXT_KEYED: Frame = Frame {
    gre: Gre::Keyed(7),
    ..NEXT_ENCAPSULATED
};

const OTHERWISE_KEYED: Frame = Frame {
    gre: Gre::Keyed(8),
    ..NEXT_ENCAPSULATED
};

const SUMMED: Frame = Frame {
    gre: Gre::Summed,
    ..ENCAPSULATED
};

const NEXT_SUMMED: Frame = Frame {
    gre: Gre::Summed,
    ..NEXT_ENCAPSULATED
};

static TUNNELS_OF_GRE: [Row; 4] = [
    (
        "of four bytes",
        &[ENCAPSULATED, NEXT_ENCAPSULATED],
        &[(0, 2, 1000, 0, 2078)],
        2_122_868_608,
    ),
    (
        "with one key",
        &[KEYED, NEXT_KEYED],
        &[(0, 2, 1000, 0, 2082)],
        4_110_894_431,
    ),
    (
        "with two keys",
        &[KEYED, OTHERWISE_KEYED],
        &[(0, 1, 0, 0, 1082), (1, 1, 0, 0, 1082)],
        2_504_917_523,
    ),
    (
        "with a sum",
        &[SUMMED, NEXT_SUMMED],
        &[(0, 1, 0, 0, 1082), (1, 1, 0, 0, 1082)],
        40_149_508,
    ),
];

// The first row whose frames `merge` and then `segment` don't write again.
fn first_gone(
    rt: &(impl Threads + Wait + Abort + Sync),
    alloc: Global,
    rows: &[Row],
) -> Option<&'static str> {
    for (what, frames, _, _) in rows {
        let input = capture_of(rt, alloc, frames);
        let between = merged(rt, alloc, &input);
        let between = between.sink.bytes();
        let want = (Status::Ok, "", input.len());
        if !ends_so(
            rt,
            alloc,
            "offload segment",
            between,
            &[65536],
            want,
            &input,
        ) {
            return Some(what);
        }
    }
    None
}

#[test]
fn datagrams(rt: HostRuntime) {
    let alloc = rt.alloc();
    assert_eq!(rt; first_other(&rt, alloc, &DATAGRAMS), None);
    assert_eq!(rt; first_gone(&rt, alloc, &DATAGRAMS), None);
}

#[test]
fn tunnels_of_gre(rt: HostRuntime) {
    assert_eq!(rt; first_other(&rt, rt.alloc(), &TUNNELS_OF_GRE), None);
}
