//! Records of runs, written from their packets where they lie: byte for byte, and at a sink that fails at each byte.
ghost use Rattle.std.specs.Prelude.{◌≡◌, ◌+◌, ◌<◌, ◌≤◌, ◌^◌, length, map};
ghost use Rattle.std.specs.List.{AllByRecursion};
ghost use Rattle.pcap_io.specs.Capture.{Packet as Captured};
ghost use Rattle.pcap_io.specs.Limits.{off_head2_size};
ghost use Rattle.frame_runs.specs.Engine.{AreRuns, DoRise};
ghost use Rattle.gro.specs.Slots.{packet_of, IsHeld, AreHeld};

use crate::rounds_in_turn::writing::{FILE, write_item};
use frags::{Outcomes, PieceBuilder, Pieces};
use frame_runs::Engine;
use gro::{Packets, Slot};
use gro_table::{Item, Packet, RoundTable};
use off_io::{MemSink, WriteFault};
use offload_model::Limits;
use raw_block::Sole;
use records::write_runs;
use skb::Skb;
use std::alloc::Global;
use std::process::Abort;

// Ethernet, IPv4, TCP: the headers of 300 bytes 0xff, which leave a sum as it is.
static FIRST: [u8; 54] = [
    0x02, 0x00, 0x00, 0x00, 0x00, 0x02, 0x02, 0x00, 0x00, 0x00, 0x00, 0x01, 0x08, 0x00, 0x45, 0x00,
    0x01, 0x54, 0x00, 0x64, 0x40, 0x00, 0x40, 0x06, 0x25, 0x3e, 0x0a, 0x00, 0x00, 0x01, 0x0a, 0x00,
    0x00, 0x02, 0x9c, 0x40, 0x13, 0x89, 0x00, 0x00, 0x03, 0xe8, 0x00, 0x00, 0x00, 0x01, 0x50, 0x10,
    0x01, 0x00, 0xe5, 0xf3, 0x00, 0x00,
];

// The headers of the next 200 bytes, all 0, with PSH.
static NEXT: [u8; 54] = [
    0x02, 0x00, 0x00, 0x00, 0x00, 0x02, 0x02, 0x00, 0x00, 0x00, 0x00, 0x01, 0x08, 0x00, 0x45, 0x00,
    0x00, 0xf0, 0x00, 0x65, 0x40, 0x00, 0x40, 0x06, 0x25, 0xa1, 0x0a, 0x00, 0x00, 0x01, 0x0a, 0x00,
    0x00, 0x02, 0x9c, 0x40, 0x13, 0x89, 0x00, 0x00, 0x05, 0x14, 0x00, 0x00, 0x00, 0x01, 0x50, 0x18,
    0x01, 0x00, 0xe5, 0x23, 0x00, 0x00,
];

// What stands before both payloads in the record of the run, of queue 4: its header, with a length of 570, its offload
// header, of two packets and 300 bytes, and the merged frame's headers.
static MERGED: [u8; 86] = [
    0x01, 0x00, 0x00, 0x00, 0x02, 0x00, 0x00, 0x00, 0x3a, 0x02, 0x00, 0x00, 0x3a, 0x02, 0x00, 0x00,
    0x02, 0x01, 0x00, 0x04, 0x00, 0x00, 0x00, 0x02, 0x00, 0x00, 0x01, 0x2c, 0x00, 0x00, 0x00, 0x00,
    0x02, 0x00, 0x00, 0x00, 0x00, 0x02, 0x02, 0x00, 0x00, 0x00, 0x00, 0x01, 0x08, 0x00, 0x45, 0x00,
    0x02, 0x1c, 0x00, 0x64, 0x40, 0x00, 0x40, 0x06, 0x24, 0x76, 0x0a, 0x00, 0x00, 0x01, 0x0a, 0x00,
    0x00, 0x02, 0x9c, 0x40, 0x13, 0x89, 0x00, 0x00, 0x03, 0xe8, 0x00, 0x00, 0x00, 0x01, 0x50, 0x18,
    0x01, 0x00, 0xe5, 0x23, 0x00, 0x00,
];

// The record of a packet of five bytes between the two, which is alone.
static ALONE: [u8; 37] = [
    1, 0, 0, 0, 2, 0, 0, 0, 21, 0, 0, 0, 21, 0, 0, 0, 2, 0, 0, 4, 0, 0, 0, 1, 0, 0, 0, 0, 0, 0, 0,
    1, b'a', b'b', b'c', b'd', b'e',
];

fn block(rt: &impl Abort, alloc: Global) -> Sole {
    Sole::new(alloc).expect(rt, "block")
}

// A frame of these headers and a payload of 146 bytes and more: 200 bytes of it in the head, and a piece behind them.
fn in_two(rt: &impl Abort, alloc: Global, headers: &[u8; 54], payload: &[u8]) -> Skb
    requires long { (146 < length payload.now) × (length payload.now ≤ 1000) }
{
    let mut head = block(rt, alloc);
    head.range_mut(64, 118).copy_from_slice(headers);
    let (in_head, behind) = payload.split_at(146);
    head.range_mut(118, 264).copy_from_slice(in_head);
    let mut piece = block(rt, alloc);
    let n = behind.len();
    piece.range_mut(0, n).copy_from_slice(behind);
    let mut builder = PieceBuilder::with_room(alloc, 1).expect(rt, "piece");
    builder.push(piece.share(), 0, n);
    Skb::new(head, 64, 264, builder.finish())
}

// A packet with this number.
fn packet(rt: &impl Abort, number: u32, skb: Skb) -> Slot
    ensures held { IsHeld result }
    ensures original { result.original < 2 ^ 18 }
    ensures number { result.number ≡ number }
{
    let len = skb.len();
    assert!(rt; len <= 1000 && len.min(200) <= skb.head().len());
    Slot {
        skb,
        sec: 1,
        frac: 2,
        original: len as u32,
        number,
    }
}

// Two packets that are merged, and one between them that is alone.
fn three(rt: &impl Abort, alloc: Global) -> Packets
    ensures held { AreHeld result.items }
    ensures rising { DoRise (map packet_of result.items) }
    ensures fit { AllByRecursion (λ (p : Captured). p.original + off_head2_size < 2 ^ 32) (map packet_of result.items) }
    ensures size { length result.items ≡ 3 }
{
    let mut alone = Skb::new(block(rt, alloc), 64, 64, Pieces::new(alloc));
    alone.put_tail(b"abcde").expect(rt, "room");
    let mut packets = Packets::with_capacity(alloc, 3).expect(rt, "list");
    let first = packet(rt, 0, in_two(rt, alloc, &FIRST, &[0xff; 300]));
    let second = packet(rt, 1, alone);
    let third = packet(rt, 2, in_two(rt, alloc, &NEXT, &[0; 200]));
    packets.push(first);
    packets.push(second);
    packets.push(third);
    packets
}

// What is written of them.
fn wanted(rt: &impl Abort, alloc: Global) -> Vec<u8> {
    let mut bytes = Vec::new(alloc);
    bytes.extend_from_slice(&MERGED).expect(rt, "room");
    bytes.extend_from_slice(&[0xff; 300]).expect(rt, "room");
    bytes.extend_from_slice(&[0; 200]).expect(rt, "room");
    bytes.extend_from_slice(&ALONE).expect(rt, "room");
    bytes
}

// Whether writing all runs to a sink is answered so, and this is written.
fn is_written(
    slots: &[Slot],
    engine: &Engine,
    sink: MemSink,
    wanted: (Result<(), WriteFault>, &[u8]),
) -> bool
    requires slots { AreHeld slots.now }
    requires runs { AreRuns (map packet_of slots.now) (length slots.now) engine.now }
    requires fit { AllByRecursion (λ (p : Captured). p.original + off_head2_size < 2 ^ 32) (map packet_of slots.now) }
{
    let mut sink = sink;
    let answer = write_runs(&mut sink, &FILE, 4, slots, engine);
    (answer, sink.bytes()) == wanted
}

/// The records of all runs, and a prefix of them where a byte isn't taken.
#[test]
fn runs_are_written_where_they_lie(rt: HostRuntime) {
    let alloc = rt.alloc();
    let packets = three(&rt, alloc);
    let slots = packets.slots();
    let mut engine = Engine::make(alloc, 3).expect(&rt, "engine");
    engine.merge(slots, Limits::up_to(4096));
    let bytes = wanted(&rt, alloc);
    let sink = MemSink::new(alloc, 64, Vec::new(alloc));
    assert!(rt; is_written(slots, &engine, sink, (Ok(()), &bytes)));
    for call in 0..bytes.len() {
        let fails = [call as u64].to_vec(alloc).expect(&rt, "no memory");
        let sink = MemSink::new(alloc, 1, fails);
        assert!(rt; is_written(slots, &engine, sink, (Err(WriteFault), &bytes[..call])));
    }
    packets.free();
}

// A packet with the two blocks that a table wants of each.
fn with_spares(rt: &impl Abort, alloc: Global, slot: Slot) -> Packet {
    let Slot {
        skb,
        sec,
        frac,
        original,
        number,
    } = slot;
    Packet {
        skb,
        spare1: block(rt, alloc),
        spare2: block(rt, alloc),
        sec,
        frac,
        original,
        number,
    }
}

// A table receives a packet of at most two blocks.
fn receive(rt: &impl Abort, alloc: Global, table: &mut RoundTable, slot: Slot) {
    let packet = with_spares(rt, alloc, slot);
    let len = packet.skb.len();
    assert!(rt; len <= 1000 && len.min(200) <= packet.skb.head().len());
    assert!(rt; table.may_receive(packet.number) && packet.skb.count() <= 2);
    let mut outcomes = Outcomes::with_room(alloc, 4).expect(rt, "places");
    if let Err((packet, _)) = table.receive(packet) {
        packet.release(&mut outcomes);
    }
    settle(outcomes);
}

// The items that a table makes of the same packets.
fn items_of(rt: &impl Abort, alloc: Global, packets: Packets) -> Vec<Item> {
    let mut packets = packets;
    packets.reverse();
    let mut table = RoundTable::make(alloc, 3, 4096).expect(rt, "table");
    while let Some(slot) = packets.pop() {
        receive(rt, alloc, &mut table, slot);
    }
    packets.discard();
    match table.finish() {
        Ok(items) => items,
        Err((table, _)) => {
            let mut outcomes = Outcomes::with_room(alloc, table.count()).expect(rt, "places");
            table.release(&mut outcomes);
            settle(outcomes);
            Vec::new(alloc)
        }
    }
}

// Lets go what came home.
fn settle(outcomes: Outcomes) {
    let mut outcomes = outcomes;
    'soles: while let Some(_sole) = outcomes.pop_sole() {}
    outcomes.settle();
}

// Frees the buffers of all items.
fn free_all(items: Vec<Item>) {
    let mut items = items;
    'items: while let Some(item) = items.pop() {
        let (skb, outcomes) = item.into_parts();
        skb.free();
        settle(outcomes);
    }
    items.destroy_empty();
}

/// The same bytes are written of the items that a table makes of the same packets.
#[test]
fn runs_are_written_as_their_items(rt: HostRuntime) {
    let alloc = rt.alloc();
    let items = items_of(&rt, alloc, three(&rt, alloc));
    assert!(rt; items.len() == 2);
    let mut sink = MemSink::new(alloc, 64, Vec::new(alloc));
    for item in &items {
        assert!(rt; write_item(&rt, &mut sink, item) == Ok(()));
    }
    assert!(rt; sink.bytes() == wanted(&rt, alloc).as_slice());
    free_all(items);
}
