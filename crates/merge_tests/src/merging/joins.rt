//! The join into one buffer: bytes, heads, pieces and blocks.
use super::{
    begins_with, checked, finished, frames, freed, has_bytes, has_parts, packet, plain, put,
    put_plain, receive, spent, table_for,
};
use crate::seeing::assert_same;
use frags::Outcomes;
use gro_table::Item;
use std::alloc::Global;
use std::process::Abort;

// The bytes that count up from one.
pub(super) fn counting<const N: usize>(first: u8) -> [u8; N] {
    let mut bytes = [first; N];
    for i in 0..N {
        bytes[i] = first.wrapping_add((i % 256) as u8);
    }
    bytes
}

// The items of a packet of 160 bytes and the next one of 100, numbered 7 and 8.
fn of_two(rt: &impl Abort, alloc: Global) -> Vec<Item> {
    let mut table = table_for(rt, alloc, 2);
    put(
        rt,
        alloc,
        &mut table,
        7,
        &frames::PLAIN_FIRST,
        &counting::<160>(1),
    );
    put(
        rt,
        alloc,
        &mut table,
        8,
        &frames::PLAIN_NEXT,
        &counting::<100>(0x32),
    );
    finished(rt, alloc, table)
}

/// Payloads of 160 and 100 bytes, the second with PSH: the head has 146 bytes of the first, and two pieces the rest.
#[test]
fn two_become_one(rt: HostRuntime) {
    let (payload, other) = (counting::<160>(1), counting::<100>(0x32));
    let heads = [plain(0, 0, 0x10, &payload), plain(1, 160, 0x18, &other)];
    let items = of_two(&rt, rt.alloc());
    assert!(rt; items.len() == 1);
    let item = &items[0];
    let said = (item.original, item.sec, item.frac);
    let parts: [(usize, &[u8]); 3] = [(0, &frames::PLAIN_MERGED), (54, &payload), (214, &other)];
    let is_joined = begins_with(&items, [314, 200, 3], &parts);
    let blocks = spent(&rt, items, &[(7, 2, 160, 0)]);
    assert_same(
        &rt,
        &(heads, said, is_joined, blocks),
        &(
            [frames::PLAIN_FIRST, frames::PLAIN_NEXT],
            (314, 1, 2),
            true,
            6,
        ),
    );
}

/// Payloads of 100, 60 and 100 bytes: the second is the last of its run.
#[test]
fn a_shorter_one_ends_the_run(rt: HostRuntime) {
    let alloc = rt.alloc();
    let payload = counting::<100>(1);
    let other = counting::<60>(101);
    let mut table = table_for(&rt, alloc, 3);
    put_plain(&rt, alloc, &mut table, (0, 0, 0x10), &payload);
    put_plain(&rt, alloc, &mut table, (1, 100, 0x10), &other);
    put_plain(&rt, alloc, &mut table, (2, 160, 0x10), &payload);
    let items = finished(&rt, alloc, table);
    let parts: [(usize, &[u8]); 2] = [(54, &payload), (154, &other)];
    let is_joined = items.len() == 2 && begins_with(&items, [214, 200, 2], &parts);
    let blocks = spent(&rt, items, &[(0, 2, 100, 0), (2, 1, 0, 0)]);
    assert_same(&rt, &(is_joined, blocks), &(true, 9));
}

/// 150 payloads of one byte: 146 of them fill the head, and four stand behind it.
#[test]
fn the_head_is_filled_from_many(rt: HostRuntime) {
    let alloc = rt.alloc();
    let bytes = counting::<150>(7);
    let mut table = table_for(&rt, alloc, 150);
    for i in 0..150 {
        let payload = &bytes[i..i + 1];
        put_plain(&rt, alloc, &mut table, (i as u16, i as u32, 0x10), payload);
    }
    let items = finished(&rt, alloc, table);
    let head = plain(0, 0, 0x10, &bytes);
    let parts: [(usize, &[u8]); 2] = [(0, &head), (54, &bytes)];
    let is_joined = items.len() == 1 && begins_with(&items, [204, 200, 5], &parts);
    let blocks = spent(&rt, items, &[(0, 150, 1, 0)]);
    assert_same(&rt, &(is_joined, blocks), &(true, 450));
}

/// Headers of exactly 200 bytes, in a tunnel with an outer sum: the head has them and no payload.
#[test]
fn the_head_is_headers_alone(rt: HostRuntime) {
    let alloc = rt.alloc();
    let mut table = table_for(&rt, alloc, 2);
    put(&rt, alloc, &mut table, 0, &frames::TUNNELLED_FIRST, &[]);
    put(&rt, alloc, &mut table, 1, &frames::TUNNELLED_NEXT, &[]);
    let items = finished(&rt, alloc, table);
    let is_long = items.len() == 1 && items[0].original == 217;
    let parts: [(usize, &[u8]); 1] = [(0, &frames::TUNNELLED_MERGED)];
    let is_joined = begins_with(&items, [217, 200, 3], &parts);
    let blocks = spent(&rt, items, &[(0, 2, 11, 0)]);
    assert_same(&rt, &(is_long, is_joined, blocks), &(true, true, 6));
}

// Whether an item of both packets has a head of its own.
fn is_merged(items: &[Item]) -> bool {
    let Some(item) = items.first() else {
        return false;
    };
    let skb = &item.skb;
    let payload = counting::<160>(1);
    let parts: [(usize, &[u8]); 2] = [(0, &frames::PLAIN_MERGED), (54, &payload)];
    skb.len() == 314 && skb.head().len() == 200 && skb.head_is_sole() && has_parts(skb, &parts)
}

/// Heads that are parts while clones live: nothing is written in them, and a tap reads what arrived.
#[test]
fn clones_keep_their_bytes(rt: HostRuntime) {
    let alloc = rt.alloc();
    let payload = counting::<160>(1);
    let other = counting::<100>(0x32);
    let mut first = packet(&rt, alloc, 0, &frames::PLAIN_FIRST, &payload);
    let mut next = packet(&rt, alloc, 1, &frames::PLAIN_NEXT, &other);
    let one = first.skb.clone().expect(&rt, "a clone");
    let two = next.skb.clone().expect(&rt, "a clone");
    let mut table = table_for(&rt, alloc, 2);
    receive(&rt, alloc, &mut table, checked(&rt, first));
    receive(&rt, alloc, &mut table, checked(&rt, next));
    let items = finished(&rt, alloc, table);
    let are_so = [
        items.len() == 1 && is_merged(&items),
        has_bytes(&one, 0, &frames::PLAIN_FIRST) && has_bytes(&one, 54, &payload),
        has_bytes(&two, 0, &frames::PLAIN_NEXT) && has_bytes(&two, 54, &other),
    ];
    let blocks = [
        spent(&rt, items, &[(0, 2, 160, 0)]),
        freed(&rt, one, Outcomes::new(alloc)),
        freed(&rt, two, Outcomes::new(alloc)),
    ];
    assert_same(&rt, &(are_so, blocks), &([true; 3], [4, 1, 1]));
}
