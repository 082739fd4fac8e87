//! Runs of packets in buffers, by what they come to.
ghost use Rattle.std.specs.Prelude.{◌≡◌, ◌+◌, ◌<◌, ◌≤◌, [], length};
ghost use Rattle.gro_table.specs.Held.{IsHeld};
ghost use Rattle.gro.specs.Slots.{IsHeld as IsHeldSlot};
ghost use Rattle.frags.specs.OutcomesState.{IsBare};

mod chains;
mod frames;
mod joins;
mod layers;
mod long;
mod lying;
mod rounds;

use crate::seeing::assert_same;
use frags::{Outcomes, Pieces};
use gro::Slot;
use gro_table::{Item, Packet, RoundTable};
use raw_block::Sole;
use skb::Skb;
use std::alloc::Global;
use std::process::Abort;

// The sum of bytes as words, modulo 65535.
fn sum_of(bytes: &[u8]) -> u32 {
    let mut sum: u32 = 0;
    for i in 0..bytes.len() {
        let byte = bytes[i] as u32;
        let word = if i % 2 == 0 { byte * 256 } else { byte };
        sum = sum.wrapping_add(word) % 65535;
    }
    sum
}

// The checksum of words that have this sum.
fn checksum(sum: u32) -> u16 {
    let rest = sum % 65535;
    if rest == 0 { 0 } else { (65535 - rest) as u16 }
}

fn put16(head: &mut [u8; 54], at: usize, value: u16)
    requires inside { at + 2 ≤ 54 }
{
    head[at..at + 2].copy_from_slice(&value.to_be_bytes());
}

/// The headers of packet `index` of a flow, Ethernet, IPv4 and TCP, whose payload stands behind `before` bytes of that
/// flow.
pub(crate) fn plain(index: u16, before: u32, flags: u8, payload: &[u8]) -> [u8; 54]
    requires short { length payload.now ≤ 1000 }
{
    let mut head = frames::PLAIN_FIRST;
    let long = payload.len() as u16;
    put16(&mut head, 16, 40 + long);
    put16(&mut head, 18, index.wrapping_add(100));
    put16(&mut head, 24, 0);
    head[38..42].copy_from_slice(&before.wrapping_add(1000).to_be_bytes());
    head[47] = flags;
    put16(&mut head, 50, 0);
    let own = checksum(sum_of(&head[14..34]));
    put16(&mut head, 24, own);
    let pseudo = sum_of(&head[26..34]) % 65535 + 26 + long as u32;
    let all = pseudo + sum_of(&head[34..]) % 65535 + sum_of(payload) % 65535;
    put16(&mut head, 50, checksum(all));
    head
}

// A block. Where one call is refused memory, the next one isn't.
fn block(rt: &impl Abort, alloc: Global) -> Sole {
    match Sole::new(alloc) {
        Ok(block) => block,
        Err(_) => Sole::new(alloc).expect(rt, "block"),
    }
}

/// A packet of these headers and this payload, for a list.
pub(crate) fn slot(rt: &impl Abort, alloc: Global, number: u32, head: &[u8], payload: &[u8]) -> Slot
    ensures held { IsHeldSlot result }
{
    let mut skb = Skb::new(block(rt, alloc), 64, 64, Pieces::new(alloc));
    skb.put_tail(head).expect(rt, "room");
    skb.put_tail(payload).expect(rt, "room");
    let len = skb.len();
    assert!(rt; len <= 262_144 && len.min(200) <= skb.head().len());
    Slot {
        skb,
        sec: 1,
        frac: 2,
        original: len as u32,
        number,
    }
}

/// A packet of these headers and this payload, with its spares.
pub(crate) fn packet(
    rt: &impl Abort,
    alloc: Global,
    number: u32,
    head: &[u8],
    payload: &[u8],
) -> Packet
    ensures held { IsHeld result }
{
    let Slot {
        skb,
        sec,
        frac,
        original,
        number,
    } = slot(rt, alloc, number, head, payload);
    Packet {
        skb,
        spare1: block(rt, alloc),
        spare2: block(rt, alloc),
        sec,
        frac,
        original,
        number,
    }
}

// A packet whose frame is no longer than may be, with its headers in its head.
fn checked(rt: &impl Abort, packet: Packet) -> Packet
    ensures held { IsHeld result }
{
    let len = packet.skb.len();
    assert!(rt; len <= 262_144 && len.min(200) <= packet.skb.head().len());
    packet
}

// How many blocks are home once a buffer and what stands beside it are given back.
fn freed(rt: &impl Abort, skb: Skb, mut outcomes: Outcomes) -> usize {
    reserve(rt, &mut outcomes, skb.count());
    skb.release(&mut outcomes);
    let blocks = emptied(&mut outcomes);
    outcomes.settle();
    blocks
}

/// Room for n more. Where one call is refused memory, the next one isn't.
pub(crate) fn reserve(rt: &impl Abort, outcomes: &mut Outcomes, n: usize)
    ensures room { n ≤ outcomes.new.spare }
{
    if outcomes.reserve(n).is_err() {
        outcomes.reserve(n).expect(rt, "places");
    }
}

/// The Soles that were given back are dropped, and the receipts closed: how many Soles there were.
pub(crate) fn emptied(outcomes: &mut Outcomes) -> usize
    ensures bare { IsBare outcomes.new }
{
    let mut blocks: usize = 0;
    while let Some(_sole) = outcomes.pop_sole() {
        blocks = blocks.wrapping_add(1);
    }
    while let Some(receipt) = outcomes.pop_receipt() {
        receipt.close();
    }
    blocks
}

// The same of a packet of a list.
fn freed_slot(rt: &impl Abort, alloc: Global, slot: Slot) -> usize {
    let Slot {
        skb,
        sec: _,
        frac: _,
        original: _,
        number: _,
    } = slot;
    freed(rt, skb, Outcomes::new(alloc))
}

// And of an item.
fn home(rt: &impl Abort, item: Item) -> usize {
    let (skb, outcomes) = item.into_parts();
    freed(rt, skb, outcomes)
}

fn spend(rt: &impl Abort, alloc: Global, packet: Packet) {
    let Packet {
        skb,
        spare1: _,
        spare2: _,
        sec: _,
        frac: _,
        original: _,
        number: _,
    } = packet;
    freed(rt, skb, Outcomes::new(alloc));
}

// A table for so many packets, in runs of as many.
fn table_for(rt: &impl Abort, alloc: Global, limit: u32) -> RoundTable
    ensures none { result.runs ≡ [] }
{
    table_in_runs(rt, alloc, limit, 4096)
}

// A table for so many packets, in runs of so many. Where one call is refused memory, the next one isn't.
fn table_in_runs(rt: &impl Abort, alloc: Global, limit: u32, segs: u32) -> RoundTable
    ensures none { result.runs ≡ [] }
{
    match RoundTable::make(alloc, limit, segs) {
        Ok(table) => table,
        Err(_) => RoundTable::make(alloc, limit, segs).expect(rt, "table"),
    }
}

// The table receives a packet. Where that is refused, nothing has changed.
fn receive(rt: &impl Abort, alloc: Global, table: &mut RoundTable, packet: Packet)
    requires held { IsHeld packet }
{
    let before = (table.count(), packet.number);
    assert!(rt; table.may_receive(packet.number));
    let Err((packet, _)) = table.receive(packet) else {
        return;
    };
    assert_same(rt, &(table.count(), packet.number), &before);
    assert!(rt; table.may_receive(packet.number));
    if let Err((packet, _)) = table.receive(packet) {
        spend(rt, alloc, packet);
    }
}

// A packet of these headers and this payload is received.
fn put(
    rt: &impl Abort,
    alloc: Global,
    table: &mut RoundTable,
    number: u32,
    head: &[u8],
    payload: &[u8],
) {
    receive(rt, alloc, table, packet(rt, alloc, number, head, payload));
}

// A packet of this payload is received, numbered by its index: that, the bytes before it in its flow, and its flags.
fn put_plain(
    rt: &impl Abort,
    alloc: Global,
    table: &mut RoundTable,
    place: (u16, u32, u8),
    payload: &[u8],
)
    requires short { length payload.now ≤ 1000 }
{
    let (index, before, flags) = place;
    let head = plain(index, before, flags, payload);
    put(rt, alloc, table, u32::from(index), &head, payload);
}

// How many blocks are home once a table is given up.
fn given_up(rt: &impl Abort, alloc: Global, table: RoundTable) -> usize {
    let mut outcomes = Outcomes::new(alloc);
    reserve(rt, &mut outcomes, table.count());
    table.release(&mut outcomes);
    let blocks = emptied(&mut outcomes);
    outcomes.settle();
    blocks
}

// The table's items. Where they are refused, nothing has changed.
fn finished(rt: &impl Abort, alloc: Global, table: RoundTable) -> Vec<Item> {
    let before = table.count();
    let table = match table.finish() {
        Ok(items) => return items,
        Err((table, _)) => table,
    };
    assert!(rt; table.count() == before);
    match table.finish() {
        Ok(items) => items,
        Err((table, _)) => {
            given_up(rt, alloc, table);
            Vec::new(alloc)
        }
    }
}

/// Number, packets, first payload and modes of an item.
pub(crate) type Said = (u32, u32, u32, u8);

/// The items say this: how many blocks are home once they are spent.
pub(crate) fn spent(rt: &impl Abort, items: Vec<Item>, rows: &[Said]) -> usize {
    assert_same(rt, &items.len(), &rows.len());
    let mut items = items;
    let mut blocks: usize = 0;
    let mut i = rows.len();
    while let Some(item) = items.pop() {
        i = i.wrapping_sub(1);
        if i < rows.len() {
            assert_same(rt, &(item.number, item.n, item.m, item.modes), &rows[i]);
        }
        blocks = blocks.wrapping_add(home(rt, item));
    }
    items.destroy_empty();
    blocks
}

/// Whether there is a first item, whose buffer and head are so long, in so many blocks, with these bytes at these
/// places.
pub(crate) fn begins_with(items: &[Item], lengths: [usize; 3], parts: &[(usize, &[u8])]) -> bool {
    let Some(item) = items.first() else {
        return false;
    };
    let skb = &item.skb;
    [skb.len(), skb.head().len(), skb.count()] == lengths && has_parts(skb, parts)
}

/// Whether a buffer has these bytes at these places.
pub(crate) fn has_parts(skb: &Skb, parts: &[(usize, &[u8])]) -> bool {
    for part in parts {
        let (at, bytes) = *part;
        if at >= 10_000 || bytes.len() >= 10_000 || !has_bytes(skb, at, bytes) {
            return false;
        }
    }
    true
}

// Whether a buffer has these bytes from a place on.
fn has_bytes(skb: &Skb, at: usize, bytes: &[u8]) -> bool
    requires short { (at < 10000) × (length bytes.now < 10000) }
{
    if skb.len() < at + bytes.len() {
        return false;
    }
    for i in 0..bytes.len() {
        if skb.byte_at(at + i) != bytes[i] {
            return false;
        }
    }
    true
}
