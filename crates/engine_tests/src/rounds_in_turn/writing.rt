//! Records of a frame in two blocks, byte for byte, and at a sink whose calls fail in turn.

mod in_place;

use frags::{Outcomes, PieceBuilder};
use gro_table::Item;
use off_io::{MemSink, WriteFault};
use pcap_io::{FileHead, OffHead2, Order};
use raw_block::Sole;
use records::{Time, write_record, write_window};
use skb::Skb;
use std::alloc::Global;
use std::process::Abort;

pub(crate) const FILE: FileHead = FileHead {
    order: Order::Little,
    nanos: false,
    zone: 0,
    sigfigs: 0,
};

// An item, its frame alone, and a window of it.
static WRITTEN: [u8; 93] = [
    1, 0, 0, 0, 2, 0, 0, 0, 21, 0, 0, 0, 21, 0, 0, 0, 2, 1, 1, 4, 0, 0, 0, 2, 0, 0, 0, 3, 0, 0, 0,
    7, b'a', b'b', b'c', b'd', b'e', 1, 0, 0, 0, 2, 0, 0, 0, 5, 0, 0, 0, 9, 0, 0, 0, b'a', b'b',
    b'c', b'd', b'e', 1, 0, 0, 0, 2, 0, 0, 0, 19, 0, 0, 0, 19, 0, 0, 0, 2, 2, 0, 5, 0, 0, 0, 0, 0,
    0, 0, 0, 0, 0, 0, 7, b'a', b'b', b'c',
];

/// "abc" in the head, and "de" in a piece behind it.
pub(crate) fn frame(rt: &impl Abort, alloc: Global) -> Skb {
    let mut head = Sole::new(alloc).expect(rt, "no memory");
    head.range_mut(64, 67).copy_from_slice(b"abc");
    let mut block = Sole::new(alloc).expect(rt, "no memory");
    block.range_mut(5, 7).copy_from_slice(b"de");
    let mut builder = PieceBuilder::with_room(alloc, 1).expect(rt, "no memory");
    builder.push(block.share(), 5, 7);
    Skb::new(head, 64, 67, builder.finish())
}

/// One item, of that frame.
pub(crate) fn one_item(rt: &impl Abort, alloc: Global) -> Vec<Item> {
    let outcomes = Outcomes::with_room(alloc, 2).expect(rt, "places");
    let mut items = Vec::with_capacity(alloc, 1).expect(rt, "no memory");
    let skb = frame(rt, alloc);
    assert!(rt; skb.len() == 5 && skb.count() == 2 && items.len() < items.capacity());
    items.push_reserved(Item {
        skb,
        number: 7,
        sec: 1,
        frac: 2,
        original: 5,
        n: 2,
        m: 3,
        modes: 1,
        outcomes,
    });
    items
}

/// An item as a record of queue 4.
pub(crate) fn write_item(
    rt: &impl Abort,
    sink: &mut MemSink,
    item: &Item,
) -> Result<(), WriteFault> {
    assert!(rt; item.original < 1000 && item.skb.len() < 1000);
    let time = Time {
        sec: item.sec,
        frac: item.frac,
    };
    let head = Some(item.head(4));
    write_record(sink, &FILE, time, item.original, head, &item.skb)
}

fn write(rt: &impl Abort, sink: &mut MemSink, items: &[Item]) -> Result<(), WriteFault> {
    let time = Time { sec: 1, frac: 2 };
    for item in items {
        write_item(rt, sink, item)?;
        assert!(rt; item.skb.len() < 1000);
        write_record(sink, &FILE, time, 9, None, &item.skb)?;
    }
    let head = OffHead2 {
        version: 2,
        kind: 2,
        modes: 0,
        lane: 5,
        n: 0,
        m: 0,
        number: 7,
    };
    write_window(sink, &FILE, time, 3, Some(head), b"abc")
}

// Whether writing fails where this call of the sink does, and a prefix is written.
fn fails_at(rt: &impl Abort, alloc: Global, items: &[Item], call: u64) -> bool {
    let fails = [call].to_vec(alloc).expect(rt, "no memory");
    let mut sink = MemSink::new(alloc, 16, fails);
    write(rt, &mut sink, items) == Err(WriteFault) && WRITTEN.starts_with(sink.bytes())
}

#[test]
fn records_are_headers_and_slices(rt: HostRuntime) {
    let alloc = rt.alloc();
    let items = one_item(&rt, alloc);
    let mut sink = MemSink::new(alloc, 16, Vec::new(alloc));
    let answer = write(&rt, &mut sink, &items);
    assert_eq!(rt; (answer, sink.bytes()), (Ok(()), WRITTEN.as_slice()));
    for call in 0..9 {
        assert!(rt; fails_at(&rt, alloc, &items, call));
    }
    all_go_home(&rt, items);
}

pub(crate) fn all_go_home<A: Abort>(rt: &A, mut items: Vec<Item>) {
    'items: while let Some(item) = items.pop() {
        go_home(rt, item);
    }
    items.destroy_empty();
}

fn go_home<A: Abort>(rt: &A, item: Item) {
    let (skb, mut outcomes) = item.into_parts();
    assert!(rt; skb.count() <= outcomes.spare());
    skb.release(&mut outcomes);
    'soles: while let Some(_) = outcomes.pop_sole() {}
    outcomes.settle();
}
