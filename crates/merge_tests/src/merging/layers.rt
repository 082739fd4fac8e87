//! Datagrams (RFC 768) and frames in GRE tunnels (RFC 2784): which come to one record, and to which.
use super::frames::{
    DATAGRAM_FIRST, DATAGRAM_LAST, DATAGRAM_MERGED, DATAGRAM_NEXT, GRE_FIRST, GRE_MERGED, GRE_NEXT,
    KEYED_GRE_FIRST, KEYED_GRE_MERGED, KEYED_GRE_NEXT, TUNNELLED_DATAGRAM_FIRST,
    TUNNELLED_DATAGRAM_MERGED, TUNNELLED_DATAGRAM_NEXT,
};
use super::{Said, finished, has_parts, put, spent, table_for};
use crate::seeing::assert_same;
use gro_table::Item;
use std::alloc::Global;
use std::process::Abort;

const PAYLOAD: [u8; 1000] = [9; 1000];

const SINGLES: [Said; 2] = [(0, 1, 0, 0), (1, 1, 0, 0)];

// Packets of these headers, each with so much payload, come to items that say this, of which the first has these
// headers.
fn come_to(
    rt: &impl Abort,
    alloc: Global,
    packets: &[(&[u8], usize)],
    headers: &[u8],
    rows: &[Said],
) {
    assert!(rt; packets.len() <= 8);
    let mut table = table_for(rt, alloc, 8);
    for (number, (head, size)) in packets.iter().enumerate() {
        put(
            rt,
            alloc,
            &mut table,
            number as u32,
            head,
            &PAYLOAD[..(*size).min(1000)],
        );
    }
    let items = finished(rt, alloc, table);
    assert!(rt; is_of_headers(&items, headers));
    assert_same(rt, &spent(rt, items, rows), &(packets.len() * 3));
}

// Whether the first item has these headers.
fn is_of_headers(items: &[Item], headers: &[u8]) -> bool {
    match items.first() {
        Some(item) => has_parts(&item.skb, &[(0, headers)]),
        None => false,
    }
}

// The same of two, with as much payload each.
fn pair_comes_to(
    rt: &impl Abort,
    alloc: Global,
    pair: (&[u8], &[u8]),
    size: usize,
    headers: &[u8],
    rows: &[Said],
) {
    let (first, next) = pair;
    come_to(rt, alloc, &[(first, size), (next, size)], headers, rows);
}

// The headers with another byte at a place.
fn with<const N: usize>(headers: &[u8; N], at: usize, byte: u8) -> [u8; N] {
    let mut other = *headers;
    if at < N {
        other[at] = byte;
    }
    other
}

// The headers of a datagram without a sum.
fn unsummed(headers: &[u8; 42]) -> [u8; 42] {
    with(&with(headers, 40, 0), 41, 0)
}

// The headers of a datagram to another port.
fn to_port(headers: &[u8; 42], high: u8, low: u8) -> [u8; 42] {
    with(&with(headers, 36, high), 37, low)
}

/// All but the last have one length, which may be shorter; sums are all there or all left out.
#[test]
fn datagrams(rt: HostRuntime) {
    let alloc = rt.alloc();
    let (first, next, last) = (DATAGRAM_FIRST, DATAGRAM_NEXT, DATAGRAM_LAST);
    let rows = [(0, 3, 500, 0)];
    let summed: [(&[u8], usize); 3] = [(&first, 500), (&next, 500), (&last, 200)];
    come_to(&rt, alloc, &summed, &DATAGRAM_MERGED, &rows);
    let (bare, behind, end) = (unsummed(&first), unsummed(&next), unsummed(&last));
    let none: [(&[u8], usize); 3] = [(&bare, 500), (&behind, 500), (&end, 200)];
    come_to(&rt, alloc, &none, &unsummed(&DATAGRAM_MERGED), &rows);
    pair_comes_to(&rt, alloc, (&bare, &next), 500, &bare, &SINGLES);
    pair_comes_to(&rt, alloc, (&first, &behind), 500, &first, &SINGLES);
}

// Two datagrams to this port are alone.
fn none_merges(rt: &impl Abort, alloc: Global, high: u8, low: u8) {
    let first = to_port(&unsummed(&DATAGRAM_FIRST), high, low);
    let next = to_port(&unsummed(&DATAGRAM_NEXT), high, low);
    pair_comes_to(rt, alloc, (&first, &next), 500, &first, &SINGLES);
}

/// To the ports of tunnels no datagrams go that are merged.
#[test]
fn datagrams_to_ports_of_tunnels(rt: HostRuntime) {
    let alloc = rt.alloc();
    none_merges(&rt, alloc, 0x12, 0xb5);
    none_merges(&rt, alloc, 0x21, 0x18);
}

#[test]
fn datagrams_in_a_tunnel(rt: HostRuntime) {
    let pair: (&[u8], &[u8]) = (&TUNNELLED_DATAGRAM_FIRST, &TUNNELLED_DATAGRAM_NEXT);
    let rows = [(0, 2, 500, 0)];
    pair_comes_to(
        &rt,
        rt.alloc(),
        pair,
        500,
        &TUNNELLED_DATAGRAM_MERGED,
        &rows,
    );
}

/// The key parts tunnels, and a header with a sum is none.
#[test]
fn frames_in_gre(rt: HostRuntime) {
    let alloc = rt.alloc();
    let rows = [(0, 2, 1000, 0)];
    let (first, next) = (GRE_FIRST, GRE_NEXT);
    pair_comes_to(&rt, alloc, (&first, &next), 1000, &GRE_MERGED, &rows);
    let (summed, behind) = (with(&first, 34, 0x80), with(&next, 34, 0x80));
    pair_comes_to(&rt, alloc, (&summed, &behind), 1000, &summed, &SINGLES);
    let (first, next) = (KEYED_GRE_FIRST, KEYED_GRE_NEXT);
    pair_comes_to(&rt, alloc, (&first, &next), 1000, &KEYED_GRE_MERGED, &rows);
    let other = with(&next, 41, 8);
    pair_comes_to(&rt, alloc, (&first, &other), 1000, &first, &SINGLES);
}
