//! Packets in a list in which they stay, and what their runs come to there.
ghost use Rattle.std.specs.Prelude.{◌+◌, ◌<◌, length, map};
ghost use Rattle.frame_runs.specs.Engine.{AreRuns};
ghost use Rattle.gro.specs.Slots.{packet_of, IsHeld, AreHeld};
ghost use Rattle.merge_tests.specs.Numbered.{AreNumbered};

use super::rounds::in_flow;
use super::{finished, frames, freed, freed_slot, has_bytes, plain, put, slot, spent, table_for};
use crate::seeing::assert_same;
use frags::Outcomes;
use frame_runs::Engine;
use gro::{Packets, Slot};
use gro_table::Item;
use offload_model::Limits;
use pcap_io::OffHead2;
use std::alloc::Global;
use std::process::Abort;

// One more packet in a list, with the next number.
fn append(rt: &impl Abort, packets: &mut Packets, number: u32, slot: Slot)
    requires held { IsHeld slot }
    requires numbered { AreNumbered packets.old.items number }
    ensures numbered { AreNumbered packets.new.items (number + 1) }
{
    let mut slot = slot;
    slot.number = number;
    packets.reserve(1).expect(rt, "room");
    packets.push(slot);
}

// Whether a list has packets of these numbers, in this order.
fn has_numbers(packets: &Packets, row: &[u32]) -> bool {
    let slots = packets.slots();
    if packets.len() != row.len() || slots.len() != row.len() {
        return false;
    }
    for i in 0..row.len() {
        if slots[i].number != row[i] {
            return false;
        }
    }
    true
}

// Takes the packets out, from the last one on, which have these numbers: how many blocks are home.
fn popped(rt: &impl Abort, alloc: Global, packets: Packets, row: &[u32]) -> usize {
    let mut packets = packets;
    let mut blocks = 0usize;
    let mut i = 0usize;
    while let Some(slot) = packets.pop() {
        assert!(rt; i < row.len() && slot.number == row[i]);
        i = i.wrapping_add(1);
        blocks = blocks.wrapping_add(freed_slot(rt, alloc, slot));
    }
    assert!(rt; i == row.len());
    packets.discard();
    blocks
}

/// Three packets in their order, in the reverse order, and taken out.
#[test]
fn in_order_and_in_reverse(rt: HostRuntime) {
    let alloc = rt.alloc();
    let payload = [9; 100];
    let mut packets = Packets::with_capacity(alloc, 3).expect(&rt, "list");
    let is_empty = packets.is_empty();
    for i in 0..3u32 {
        let head = plain(i as u16, i * 100, 0x10, &payload);
        let slot = slot(&rt, alloc, i, &head, &payload);
        append(&rt, &mut packets, i, slot);
    }
    let in_order = has_numbers(&packets, &[0, 1, 2]) && !packets.is_empty();
    packets.reverse();
    let in_reverse = has_numbers(&packets, &[2, 1, 0]);
    let blocks = popped(&rt, alloc, packets, &[0, 1, 2]);
    assert_same(
        &rt,
        &(is_empty, in_order, in_reverse, blocks),
        &(true, true, true, 3),
    );
}

// A list of two packets of one flow, of 160 and 100 bytes, and one of another.
fn three(rt: &impl Abort, alloc: Global) -> Packets
    ensures numbered { AreNumbered result.items 3 }
{
    let payload = super::joins::counting::<160>(1);
    let other = super::joins::counting::<100>(0x32);
    let apart = in_flow(plain(0, 0, 0x10, &payload), 1);
    let mut packets = Packets::new(alloc);
    let first = slot(rt, alloc, 0, &frames::PLAIN_FIRST, &payload);
    append(rt, &mut packets, 0, first);
    let next = slot(rt, alloc, 1, &frames::PLAIN_NEXT, &other);
    append(rt, &mut packets, 1, next);
    let last = slot(rt, alloc, 2, &apart, &payload);
    append(rt, &mut packets, 2, last);
    packets
}

// Whether a packet of a list begins with these bytes.
fn begins_so(slots: &[Slot], i: usize, bytes: &[u8; 54]) -> bool {
    match slots.get(i) {
        Some(slot) => has_bytes(&slot.skb, 0, bytes),
        None => false,
    }
}

// Which of three packets' heads are Soles.
fn sole_heads(slots: &[Slot]) -> Option<[bool; 3]> {
    if slots.len() != 3 {
        return None;
    }
    Some([
        slots[0].skb.head_is_sole(),
        slots[1].skb.head_is_sole(),
        slots[2].skb.head_is_sole(),
    ])
}

/// A clone of the second packet: its head is shared where it lies, and the others' heads aren't.
#[test]
fn cloned_where_it_lies(rt: HostRuntime) {
    let alloc = rt.alloc();
    let mut packets = three(&rt, alloc);
    assert!(rt; packets.len() == 3);
    let clone = packets.clone_at(1).expect(&rt, "a clone");
    let are_same = has_bytes(&clone, 0, &frames::PLAIN_NEXT)
        && begins_so(packets.slots(), 1, &frames::PLAIN_NEXT);
    let soles = sole_heads(packets.slots());
    let blocks = [
        popped(&rt, alloc, packets, &[2, 1, 0]),
        freed(&rt, clone, Outcomes::new(alloc)),
    ];
    assert_same(
        &rt,
        &(are_same, soles, blocks),
        &(true, Some([true, false, true]), [2, 1]),
    );
}

/// The heads are shared where they lie, with one clone's before the others': no bytes change, and all blocks come home.
#[test]
fn heads_shared(rt: HostRuntime) {
    let alloc = rt.alloc();
    let mut packets = three(&rt, alloc);
    let clone = packets.clone_at(0).expect(&rt, "a clone");
    packets.share_heads();
    let are_same = begins_so(packets.slots(), 0, &frames::PLAIN_FIRST)
        && begins_so(packets.slots(), 1, &frames::PLAIN_NEXT);
    let soles = sole_heads(packets.slots());
    let of_clone = freed(&rt, clone, Outcomes::new(alloc));
    let blocks = popped(&rt, alloc, packets, &[2, 1, 0]);
    assert_same(
        &rt,
        &(are_same, soles, of_clone, blocks),
        &(true, Some([false; 3]), 0, 3),
    );
}

// What a run of an engine comes to: its offload header where it is of queue 3, and how long its headers, its frame and
// its original frame are.
fn said_of(slots: &[Slot], engine: &Engine, i: usize) -> (OffHead2, usize, u32, u32)
    requires slots { AreHeld slots.now }
    requires runs { AreRuns (map packet_of slots.now) (length slots.now) engine.now }
    requires inside { i < length engine.now.runs.items }
{
    let run = &engine.runs[i];
    let first = &slots[run.first as usize];
    (
        run.head(3, first),
        run.headers_len(),
        run.frame_len(first),
        run.original(first),
    )
}

// Whether a run of several packets has these headers.
fn has_headers(slots: &[Slot], engine: &Engine, i: usize, wanted: &[u8]) -> bool
    requires slots { AreHeld slots.now }
    requires runs { AreRuns (map packet_of slots.now) (length slots.now) engine.now }
    requires inside { i < length engine.now.runs.items }
{
    let run = &engine.runs[i];
    let n = run.headers_len();
    if run.more == 0 || n > 200 {
        return false;
    }
    let mut row = [0u8; 200];
    let headers = &mut row[..n];
    run.put_headers(&slots[run.first as usize], headers);
    headers.starts_with(wanted) && n == wanted.len()
}

// An offload header of queue 3, in which no identification stays.
fn of_queue(kind: u8, n: u32, m: u32, number: u32) -> OffHead2 {
    OffHead2 {
        version: 2,
        kind,
        modes: 0,
        lane: 3,
        n,
        m,
        number,
    }
}

/// Two packets that are merged and one that is alone, as they lie, say what a table's items say.
#[test]
fn what_runs_come_to(rt: HostRuntime) {
    let alloc = rt.alloc();
    let packets = three(&rt, alloc);
    let mut engine = Engine::new(alloc);
    engine.start(3).expect(&rt, "room");
    let slots = packets.slots();
    engine.merge(slots, Limits::up_to(4096));
    assert!(rt; engine.runs.len() == 2);
    let merged = said_of(slots, &engine, 0);
    let (head, _, len, original) = said_of(slots, &engine, 1);
    let are_headers = has_headers(slots, &engine, 0, &frames::PLAIN_MERGED);
    let blocks = popped(&rt, alloc, packets, &[2, 1, 0]);
    assert_same(
        &rt,
        &(merged, (head, len, original), are_headers, blocks),
        &(
            (of_queue(1, 2, 160, 0), 54, 314, 314),
            (of_queue(0, 1, 0, 2), 214, 214),
            true,
            3,
        ),
    );
}

// The same of an item.
fn said_by(item: &Item) -> (OffHead2, usize, u32) {
    (item.head(3), item.skb.len(), item.original)
}

/// The same packets in a table: its items' records have these headers and lengths.
#[test]
fn what_items_say(rt: HostRuntime) {
    let alloc = rt.alloc();
    let payload = super::joins::counting::<160>(1);
    let other = super::joins::counting::<100>(0x32);
    let apart = in_flow(plain(0, 0, 0x10, &payload), 1);
    let mut table = table_for(&rt, alloc, 3);
    put(&rt, alloc, &mut table, 0, &frames::PLAIN_FIRST, &payload);
    put(&rt, alloc, &mut table, 1, &frames::PLAIN_NEXT, &other);
    put(&rt, alloc, &mut table, 2, &apart, &payload);
    let items = finished(&rt, alloc, table);
    assert!(rt; items.len() == 2);
    let said = [said_by(&items[0]), said_by(&items[1])];
    let are_headers = has_bytes(&items[0].skb, 0, &frames::PLAIN_MERGED);
    let blocks = spent(&rt, items, &[(0, 2, 160, 0), (2, 1, 0, 0)]);
    assert_same(
        &rt,
        &(said, are_headers, blocks),
        &(
            [
                (of_queue(1, 2, 160, 0), 314, 314),
                (of_queue(0, 1, 0, 2), 214, 214),
            ],
            true,
            9,
        ),
    );
}

/// A list that nobody brings home is freed with all that it has, but for a block that a clone holds; of one without
/// packets nothing is.
#[test]
fn freed_with_its_packets(rt: HostRuntime) {
    let alloc = rt.alloc();
    let mut shared = three(&rt, alloc);
    assert!(rt; shared.len() == 3);
    let clone = shared.clone_at(1).expect(&rt, "a clone");
    let blocks = [
        three(&rt, alloc).free(),
        Packets::new(alloc).free(),
        shared.free(),
        clone.free(),
    ];
    assert_same(&rt, &blocks, &[3, 0, 2, 1]);
}
