//! Rounds of packets: which runs they come to, and that nothing is lost. Each call that is refused memory is called
//! again.
ghost use Rattle.std.specs.Prelude.{◌≡◌, ◌≤◌, [], length};

use super::{
    Said, emptied, finished, given_up, home, packet, plain, put, put_plain, put16, receive,
    reserve, spent, table_for, table_in_runs,
};
use crate::seeing::assert_same;
use gro_table::{Item, RoundTable};
use std::alloc::Global;
use std::process::Abort;

// The same headers in another flow. Both ports change, and their sum stays.
pub(super) fn in_flow(head: [u8; 54], flow: u16) -> [u8; 54] {
    let mut other = head;
    put16(&mut other, 34, 40000u16.wrapping_add(flow));
    put16(&mut other, 36, 5001u16.wrapping_sub(flow));
    other
}

/// A packet: its index, the bytes before it in its flow, its flags, its flow and its station.
pub(super) type Place = (u16, u32, u8, u16, u8);

// Its headers. Of the flow 0 and the station 1 are those of `plain`; what is hashed of a flow's key is no station's.
pub(super) fn head_of(place: &Place, payload: &[u8]) -> [u8; 54]
    requires short { length payload.now ≤ 1000 }
{
    let (index, before, flags, flow, station) = *place;
    let mut head = in_flow(plain(index, before, flags, payload), flow);
    head[11] = station;
    head
}

// Packets of one payload come to items that say this.
fn come_to(rt: &impl Abort, alloc: Global, places: &[Place], payload: &[u8], rows: &[Said])
    requires few { length places.now ≤ 128 }
    requires short { length payload.now ≤ 1000 }
{
    come_to_runs(rt, alloc, 4096, places, payload, rows);
}

// The same in runs of at most so many.
fn come_to_runs(
    rt: &impl Abort,
    alloc: Global,
    segs: u32,
    places: &[Place],
    payload: &[u8],
    rows: &[Said],
)
    requires few { length places.now ≤ 128 }
    requires short { length payload.now ≤ 1000 }
{
    let mut table = table_in_runs(rt, alloc, places.len() as u32, segs);
    for i in 0..places.len() {
        let head = head_of(&places[i], payload);
        put(rt, alloc, &mut table, i as u32, &head, payload);
    }
    assert!(rt; !table.may_receive(places.len() as u32));
    let items = finished(rt, alloc, table);
    assert_same(rt, &spent(rt, items, rows), &places.len().wrapping_mul(3));
}

// Identifications 65535 and 0, and sequence numbers from 50 below zero to 50.
static WRAPPING: [Place; 2] = [
    (65435, 0xfffffbe6, 0x10, 0, 1),
    (65436, 0xfffffc4a, 0x10, 0, 1),
];

// An identification that stays, and then rises.
static FIXED: [Place; 3] = [
    (0, 0, 0x10, 0, 1),
    (0, 100, 0x10, 0, 1),
    (1, 200, 0x10, 0, 1),
];

// PSH, which ends a run.
static PUSHED: [Place; 3] = [
    (0, 0, 0x10, 0, 1),
    (1, 100, 0x18, 0, 1),
    (2, 200, 0x10, 0, 1),
];

/// What lets a run go on, and what ends it.
#[test]
fn rows_of_packets(rt: HostRuntime) {
    let alloc = rt.alloc();
    let payload = [9; 100];
    come_to(&rt, alloc, &WRAPPING, &payload, &[(0, 2, 100, 0)]);
    let rows = [(0, 2, 100, 1), (2, 1, 0, 0)];
    come_to(&rt, alloc, &FIXED, &payload, &rows);
    let rows = [(0, 2, 100, 0), (2, 1, 0, 0)];
    come_to(&rt, alloc, &PUSHED, &payload, &rows);
}

/// Two bytes behind the payload, which no frame may have that is merged.
#[test]
fn padded(rt: HostRuntime) {
    let alloc = rt.alloc();
    let payload = [9; 100];
    let mut table = table_for(&rt, alloc, 2);
    put_plain(&rt, alloc, &mut table, (0, 0, 0x10), &payload);
    let next = plain(1, 100, 0x10, &payload[..98]);
    put(&rt, alloc, &mut table, 1, &next, &payload);
    let rows = [(0, 1, 0, 0), (1, 1, 0, 0)];
    assert_same(&rt, &spent(&rt, finished(&rt, alloc, table), &rows), &6);
}

// Flows in turn whose keys have one hash, one of which ends its run and begins another.
static OF_ONE_HASH: [Place; 8] = [
    (0, 0, 0x10, 0, 1),
    (0, 0, 0x10, 0, 7),
    (0, 0, 0x10, 0, 8),
    (1, 100, 0x18, 0, 1),
    (1, 100, 0x10, 0, 7),
    (2, 200, 0x10, 0, 1),
    (1, 100, 0x10, 0, 8),
    (3, 300, 0x10, 0, 1),
];

static SAID_OF_ONE_HASH: [Said; 4] = [
    (0, 2, 100, 0),
    (1, 2, 100, 0),
    (2, 2, 100, 0),
    (5, 2, 100, 0),
];

#[test]
fn flows_of_one_hash(rt: HostRuntime) {
    come_to(&rt, rt.alloc(), &OF_ONE_HASH, &[9; 100], &SAID_OF_ONE_HASH);
}

// Three packets of a flow that continue one another, of which the second one was captured in part, or all were.
fn none_merges(rt: &impl Abort, alloc: Global, all: bool) {
    let payload = [9; 100];
    let mut table = table_for(rt, alloc, 3);
    for i in 0..3u16 {
        let head = plain(i, i as u32 * 100, 0x10, &payload);
        let mut packet = packet(rt, alloc, i as u32, &head, &payload);
        if all || i == 1 {
            packet.original = 155;
        }
        receive(rt, alloc, &mut table, packet);
    }
    let rows = [(0, 1, 0, 0), (1, 1, 0, 0), (2, 1, 0, 0)];
    assert_same(rt, &spent(rt, finished(rt, alloc, table), &rows), &9);
}

/// A packet that was captured in part is alone, and ends its flow's run. Where no run is open it opens none that
/// another packet finds.
#[test]
fn captured_in_part(rt: HostRuntime) {
    let alloc = rt.alloc();
    none_merges(&rt, alloc, false);
    none_merges(&rt, alloc, true);
}

// The first 33 bytes of these headers, which end within the IP header.
fn within_ip(head: [u8; 54]) -> [u8; 33] {
    let mut front = [0; 33];
    for i in 0..33 {
        front[i] = head[i];
    }
    front
}

/// A frame that ends within its IP header is of no flow, and ends no run.
#[test]
fn of_no_flow(rt: HostRuntime) {
    let alloc = rt.alloc();
    let payload = [9; 100];
    let cut = within_ip(plain(1, 100, 0x10, &[]));
    let mut table = table_for(&rt, alloc, 3);
    put_plain(&rt, alloc, &mut table, (0, 0, 0x10), &payload);
    put(&rt, alloc, &mut table, 1, &cut, &[]);
    let next = plain(1, 100, 0x10, &payload);
    put(&rt, alloc, &mut table, 2, &next, &payload);
    let rows = [(0, 2, 100, 0), (1, 1, 0, 0)];
    assert_same(&rt, &spent(&rt, finished(&rt, alloc, table), &rows), &9);
}

static TWO_FLOWS: [Place; 6] = [
    (0, 0, 0x10, 0, 1),
    (0, 0, 0x10, 1, 1),
    (1, 100, 0x10, 0, 1),
    (2, 200, 0x10, 0, 1),
    (1, 100, 0x18, 1, 1),
    (3, 200, 0x10, 0, 1),
];

static SAID_OF_TWO_FLOWS: [Said; 4] = [(0, 2, 100, 0), (1, 2, 100, 0), (3, 1, 0, 0), (5, 1, 0, 0)];

/// Two flows in turn, and a pure ACK of the first, which ends its run and joins none; a packet behind it opens the next
/// run.
#[test]
fn two_flows_and_an_ack(rt: HostRuntime) {
    let alloc = rt.alloc();
    let payload = [9; 100];
    let mut table = table_for(&rt, alloc, 6);
    for i in 0..6 {
        let own: &[u8] = if i == 3 { &[] } else { &payload };
        let head = head_of(&TWO_FLOWS[i], own);
        put(&rt, alloc, &mut table, i as u32, &head, own);
    }
    let held = (table.may_receive(6), table.count());
    let items = finished(&rt, alloc, table);
    let blocks = spent(&rt, items, &SAID_OF_TWO_FLOWS);
    assert_same(&rt, &(held, blocks), &((false, 18), 18));
}

// So many flows in turn, so many packets of each: an item for each flow, in the order of the first packets.
fn flows_in_turn(rt: &impl Abort, alloc: Global, flows: u16, turns: u16)
    requires few { (flows ≤ 4096) × (turns ≤ 16) }
{
    let all = flows as u32 * turns as u32;
    let mut table = table_for(rt, alloc, all);
    for turn in 0..turns {
        for flow in 0..flows {
            let head = in_flow(plain(turn, turn as u32 * 4, 0x10, &[7; 4]), flow);
            let number = turn as u32 * flows as u32 + flow as u32;
            put(rt, alloc, &mut table, number, &head, &[7; 4]);
        }
    }
    assert!(rt; !table.may_receive(all));
    let mut items = finished(rt, alloc, table);
    let count = items.len();
    let mut others: usize = 0;
    let mut blocks: usize = 0;
    while let Some(item) = items.pop() {
        if item.number as usize != items.len() || item.n != u32::from(turns) {
            others = others.wrapping_add(1);
        }
        blocks = blocks.wrapping_add(home(rt, item));
    }
    items.destroy_empty();
    assert_same(
        rt,
        &(count, others, blocks),
        &(flows as usize, 0, (all as usize).wrapping_mul(3)),
    );
}

/// 2,048 flows in turn, two packets of each, and 4,096 packets of as many flows.
#[test]
fn many_flows_in_turn(rt: HostRuntime) {
    flows_in_turn(&rt, rt.alloc(), 2048, 2);
    flows_in_turn(&rt, rt.alloc(), 4096, 1);
}

// Two packets, of which the second has a payload that makes 0 the value of its TCP sum, and this in its place.
fn summed(rt: &impl Abort, alloc: Global, sum: u16, rows: &[Said]) {
    let payload = [9; 100];
    let mut other = payload;
    other[..2].copy_from_slice(&[0, 0]);
    let mut next = plain(1, 100, 0x10, &other);
    other[..2].copy_from_slice(&next[50..52]);
    put16(&mut next, 50, sum);
    let mut table = table_for(rt, alloc, 2);
    put_plain(rt, alloc, &mut table, (0, 0, 0x10), &payload);
    put(rt, alloc, &mut table, 1, &next, &other);
    let items = finished(rt, alloc, table);
    assert_same(rt, &spent(rt, items, rows), &6);
}

/// A packet whose TCP sum is ffff where 0 is the value is alone: no frame that is put together has such a sum.
#[test]
fn a_sum_of_ffff(rt: HostRuntime) {
    summed(&rt, rt.alloc(), 0, &[(0, 2, 100, 0)]);
    summed(&rt, rt.alloc(), 0xffff, &[(0, 1, 0, 0), (1, 1, 0, 0)]);
}

// The next round of the table: two packets of a run and one that is alone. The memory of their outcomes serves the one
// after.
fn serve(rt: &impl Abort, alloc: Global, table: &mut RoundTable)
    requires none { table.old.runs ≡ [] }
    ensures none { table.new.runs ≡ [] }
{
    started(rt, table, 3);
    put_plain(rt, alloc, table, (0, 0, 0x10), &[7; 4]);
    put_plain(rt, alloc, table, (1, 4, 0x10), &[7; 4]);
    let apart = plain(0, 0, 0x10, &[7; 5]);
    put(rt, alloc, table, 2, &apart, &[7; 5]);
    let mut items = Vec::new(alloc);
    finished_into(rt, table, &mut items);
    let count = items.len();
    let mut blocks: usize = 0;
    while let Some(item) = items.pop() {
        blocks = blocks.wrapping_add(brought(rt, table, item));
    }
    items.destroy_empty();
    assert_same(rt, &(count, blocks), &(2, 9));
}

// The table's next round. Where one call is refused memory, the next one isn't.
fn started(rt: &impl Abort, table: &mut RoundTable, limit: u32)
    requires none { table.old.runs ≡ [] }
{
    if table.start(limit).is_err() {
        table.start(limit).expect(rt, "room");
    }
}

// The table's items. Where they are refused, nothing has changed.
fn finished_into(rt: &impl Abort, table: &mut RoundTable, items: &mut Vec<Item>)
    requires empty { items.old.items ≡ [] }
    ensures none { table.new.runs ≡ [] }
{
    let before = table.count();
    match table.finish_into(items) {
        Ok(()) => {}
        Err(_) => {
            assert_same(rt, &table.count(), &before);
            table.finish_into(items).expect(rt, "items");
        }
    }
}

// How many blocks are home once an item is spent. The table keeps the memory of its outcomes.
fn brought(rt: &impl Abort, table: &mut RoundTable, item: Item) -> usize
    ensures same { table.new.runs ≡ table.old.runs }
{
    let (skb, mut outcomes) = item.into_parts();
    reserve(rt, &mut outcomes, skb.count());
    skb.release(&mut outcomes);
    let blocks = emptied(&mut outcomes);
    table.keep(outcomes);
    blocks
}

/// One table serves three rounds.
#[test]
fn a_table_lives_on(rt: HostRuntime) {
    let alloc = rt.alloc();
    let mut table = table_for(&rt, alloc, 2);
    serve(&rt, alloc, &mut table);
    serve(&rt, alloc, &mut table);
    serve(&rt, alloc, &mut table);
    table.discard();
}

// So many packets of one flow, each of `size` bytes.
fn in_order<const N: usize>(size: u32) -> [Place; N]
    requires few { size ≤ 1000 }
{
    let mut places = [(0, 0, 0x10, 0, 1); N];
    for i in 0..N {
        let index = (i % 65_536) as u16;
        places[i] = (index, u32::from(index) * size, 0x10, 0, 1);
    }
    places
}

/// 70 packets of 1,000 bytes: 65 have room in one frame's length field, and five follow.
#[test]
fn a_frame_is_full(rt: HostRuntime) {
    let rows = [(0, 65, 1000, 0), (65, 5, 1000, 0)];
    come_to(&rt, rt.alloc(), &in_order::<70>(1000), &[0xff; 1000], &rows);
}

static SAID_OF_17: [Said; 4] = [
    (0, 17, 100, 0),
    (17, 17, 100, 0),
    (34, 17, 100, 0),
    (51, 13, 100, 0),
];

/// 64 packets that would be one run, in runs of 17 and of one.
#[test]
fn runs_of_at_most_so_many(rt: HostRuntime) {
    let alloc = rt.alloc();
    let payload = [9; 100];
    let places = in_order::<64>(100);
    come_to_runs(&rt, alloc, 17, &places, &payload, &SAID_OF_17);
    let rows = [(0, 1, 0, 0), (1, 1, 0, 0)];
    come_to_runs(&rt, alloc, 1, &places[..2], &payload, &rows);
}

/// A table that is given up gives all blocks back.
#[test]
fn given_back(rt: HostRuntime) {
    let alloc = rt.alloc();
    let mut table = table_for(&rt, alloc, 2);
    for i in 0..2u32 {
        let head = plain(i as u16, i * 4, 0x10, &[1; 4]);
        put(&rt, alloc, &mut table, i, &head, &[1; 4]);
    }
    assert_same(&rt, &given_up(&rt, alloc, table), &6);
}
