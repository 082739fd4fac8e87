//! Runs over IPv6 that come to more than 65,535 bytes, up to the longest frame (RFC 8200, section 3).
ghost use Rattle.std.specs.Prelude.{◌≤◌, length};
ghost use Rattle.gro_table.specs.Held.{IsHeld};

use super::frames::IP6;
use super::{
    Said, block, checked, checksum, finished, has_bytes, receive, spent, sum_of, table_for,
};
use crate::segmenting::cutting::buffer;
use gro_table::{Item, Packet};
use std::alloc::Global;
use std::process::Abort;

// The headers of a segment over IPv6 whose payload stands behind `before` bytes of its flow.
fn over_ip6(before: u32, payload: &[u8]) -> [u8; 74]
    requires short { length payload.now ≤ 65515 }
{
    let mut head = IP6;
    let len = payload.len() as u32 + 20;
    head[18..20].copy_from_slice(&(len as u16).to_be_bytes());
    head[58..62].copy_from_slice(&before.wrapping_add(1000).to_be_bytes());
    head[70..72].copy_from_slice(&[0, 0]);
    let pseudo = sum_of(&head[22..54]) % 65535 + 6 + len;
    let all = pseudo + sum_of(&head[54..]) % 65535 + sum_of(payload) % 65535;
    head[70..72].copy_from_slice(&checksum(all).to_be_bytes());
    head
}

// A packet of so many payload bytes 9 behind `before` bytes of its flow, in a head and pieces.
fn packet(rt: &impl Abort, alloc: Global, number: u32, before: u32, size: usize) -> Packet
    requires few { size ≤ 65515 }
    ensures held { IsHeld result }
{
    let payload = vec![in alloc; 9u8; size].expect(rt, "no memory");
    let mut frame = over_ip6(before, &payload)
        .to_vec(alloc)
        .expect(rt, "no memory");
    frame.extend_from_slice(&payload).expect(rt, "no memory");
    let packet = Packet {
        skb: buffer(rt, alloc, &frame, 200, 1984),
        spare1: block(rt, alloc),
        spare2: block(rt, alloc),
        sec: 1,
        frac: 2,
        original: frame.len() as u32,
        number,
    };
    checked(rt, packet)
}

// Payload sizes of a flow; the items that these come to; of the first item the length, the payload length field and
// the sum.
type Row<'a> = (&'a [usize], &'a [Said], usize, [u8; 4]);

// Whether the items begin with one of this length, payload length field and sum.
fn begins_with(items: &[Item], len: usize, fields: [u8; 4]) -> bool {
    match items.first() {
        Some(item) => {
            item.skb.len() == len
                && has_bytes(&item.skb, 18, &fields[..2])
                && has_bytes(&item.skb, 70, &fields[2..])
        }
        None => false,
    }
}

// Segments of these sizes, each behind those before.
fn items_of(rt: &impl Abort, alloc: Global, sizes: &[usize]) -> Vec<Item> {
    let mut table = table_for(rt, alloc, 8);
    let mut before = 0u32;
    for (number, size) in sizes.iter().enumerate() {
        assert!(rt; number < 8 && *size <= 65_515 && before <= 1_000_000);
        let packet = packet(rt, alloc, number as u32, before, *size);
        receive(rt, alloc, &mut table, packet);
        before += *size as u32;
    }
    finished(rt, alloc, table)
}

static ROWS: [Row; 4] = [
    (
        &[32_758, 32_757],
        &[(0, 2, 32_758, 0)],
        65_589,
        [0xff, 0xff, 0x75, 0xa0],
    ),
    (
        &[32_758, 32_758],
        &[(0, 2, 32_758, 0)],
        65_590,
        [0x00, 0x00, 0x75, 0x96],
    ),
    (
        &[52_414; 5],
        &[(0, 5, 52_414, 0)],
        262_144,
        [0x00, 0x00, 0xdc, 0x2f],
    ),
    (
        &[52_415; 5],
        &[(0, 4, 52_415, 0), (4, 1, 0, 0)],
        209_734,
        [0x00, 0x00, 0x8a, 0xcc],
    ),
];

/// The payload length field says up to 65,535, and 0 from there on. A frame has at most 262,144 bytes.
#[test]
fn runs_over_ip6(rt: HostRuntime) {
    for (sizes, said, len, fields) in &ROWS {
        let items = items_of(&rt, rt.alloc(), sizes);
        let is_so = begins_with(&items, *len, *fields);
        assert!(rt; spent(&rt, items, said) > 0 && is_so);
    }
}
