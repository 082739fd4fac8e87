//! Packets and clones of given bytes, to be merged and compared, and how their blocks are given back.
ghost use Rattle.std.specs.Prelude.{◌≡◌};
ghost use Rattle.gro.specs.Slots.{IsHeld};

use frags::{Outcomes, Pieces};
use gro::Slot;
use raw_block::Sole;
use skb::Skb;
use std::alloc::Global;
use std::process::Abort;
use taps::TapClone;

// A buffer of these bytes.
fn buffer(rt: &impl Abort, alloc: Global, bytes: &[u8]) -> Skb {
    let block = Sole::new(alloc).expect(rt, "block");
    let mut skb = Skb::new(block, 64, 64, Pieces::new(alloc));
    skb.put_tail(bytes).expect(rt, "room");
    skb
}

/// A packet of these bytes.
pub(crate) fn packet(rt: &impl Abort, alloc: Global, bytes: &[u8], number: u32) -> Slot
    ensures held { IsHeld result }
    ensures number { result.number ≡ number }
{
    let skb = buffer(rt, alloc, bytes);
    let len = skb.len();
    assert!(rt; len <= 262_144);
    assert!(rt; len.min(200) <= skb.head().len());
    Slot {
        skb,
        sec: 1,
        frac: 2,
        original: len as u32,
        number,
    }
}

/// A clone of a packet of these bytes.
pub(crate) fn clone_of(
    rt: &impl Abort,
    alloc: Global,
    bytes: &[u8],
    original: u32,
    number: u32,
) -> TapClone {
    TapClone {
        skb: buffer(rt, alloc, bytes),
        sec: 1,
        frac: 2,
        original,
        number,
    }
}

// All blocks of a buffer are given back.
fn spend(rt: &impl Abort, skb: Skb) {
    let mut outcomes = Outcomes::new(skb.allocator());
    outcomes.reserve(skb.count()).expect(rt, "places");
    skb.release(&mut outcomes);
    while let Some(_sole) = outcomes.pop_sole() {}
    outcomes.settle();
}

/// All blocks of these clones are given back.
pub(crate) fn spend_all(rt: &impl Abort, kept: Vec<TapClone>) {
    let mut kept = kept;
    while let Some(clone) = kept.pop() {
        let TapClone {
            skb,
            sec: _,
            frac: _,
            original: _,
            number: _,
        } = clone;
        spend(rt, skb);
    }
    kept.destroy_empty();
}
