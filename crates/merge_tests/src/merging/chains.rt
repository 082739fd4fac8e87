//! Which packets an engine links, one behind the other.
ghost use Rattle.std.specs.Prelude.{◌+◌, ◌≤◌, length};
ghost use Rattle.gro.specs.Slots.{IsHeld};
ghost use Rattle.merge_tests.specs.Numbered.{AreNumbered};

use super::rounds::{Place, head_of};
use super::{freed_slot, plain, slot};
use frame_runs::Engine;
use gro::Slot;
use offload_model::Limits;
use std::alloc::Global;
use std::process::Abort;

// One more packet in a list, with the next number.
fn append(rt: &impl Abort, slots: &mut Vec<Slot>, number: u32, slot: Slot)
    requires held { IsHeld slot }
    requires numbered { AreNumbered slots.old.items number }
    ensures numbered { AreNumbered slots.new.items (number + 1) }
{
    let mut slot = slot;
    slot.number = number;
    slots.reserve(1).expect(rt, "room");
    slots.push_reserved(slot);
}

// Gives the buffers of packets up.
fn spent_slots(rt: &impl Abort, alloc: Global, slots: Vec<Slot>) {
    let mut slots = slots;
    while let Some(slot) = slots.pop() {
        freed_slot(rt, alloc, slot);
    }
    slots.destroy_empty();
}

// Whether the run at a place is the chain of these indices.
fn is_chain(engine: &Engine, place: usize, row: &[u32]) -> bool {
    let Some(run) = engine.runs.get(place) else {
        return false;
    };
    let mut index = run.first;
    for i in 0..row.len() {
        if i > 0 {
            let Some(next) = engine.next.get(index as usize) else {
                return false;
            };
            index = *next;
        }
        if index != row[i] {
            return false;
        }
    }
    run.more as usize + 1 == row.len() && run.last == index
}

// Whether the runs are the chains of these indices.
fn are_chains(engine: &Engine, rows: &[&[u32]]) -> bool {
    for i in 0..rows.len() {
        if !is_chain(engine, i, rows[i]) {
            return false;
        }
    }
    engine.runs.len() == rows.len()
}

// Packets of one payload, in runs of at most `segs`, come to these chains.
fn linked(
    rt: &impl Abort,
    alloc: Global,
    segs: u32,
    places: &[Place],
    payload: &[u8],
    rows: &[&[u32]],
)
    requires few { length places.now ≤ 4096 }
    requires short { length payload.now ≤ 1000 }
{
    let mut slots = Vec::new(alloc);
    for i in 0..places.len() {
        let head = head_of(&places[i], payload);
        let slot = slot(rt, alloc, i as u32, &head, payload);
        append(rt, &mut slots, i as u32, slot);
    }
    let mut engine = Engine::make(alloc, places.len() as u32).expect(rt, "engine");
    engine.merge(&slots, Limits::up_to(segs));
    assert!(rt; are_chains(&engine, rows));
    spent_slots(rt, alloc, slots);
}

static THREE_FLOWS: [Place; 6] = [
    (0, 0, 0x10, 0, 1),
    (0, 0, 0x10, 1, 1),
    (1, 100, 0x10, 0, 1),
    (0, 0, 0x10, 2, 1),
    (1, 100, 0x10, 1, 1),
    (2, 200, 0x10, 0, 1),
];

static CHAINS: [&[u32]; 3] = [&[0, 2, 5], &[1, 4], &[3]];

/// Two flows in turn, and a packet of a third among them.
#[test]
fn flows_in_turn(rt: HostRuntime) {
    linked(&rt, rt.alloc(), 4096, &THREE_FLOWS, &[9; 100], &CHAINS);
}

static TWO_FLOWS: [Place; 6] = [
    (0, 0, 0x10, 0, 1),
    (1, 100, 0x10, 0, 1),
    (0, 0, 0x10, 1, 1),
    (2, 200, 0x10, 0, 1),
    (3, 300, 0x10, 0, 1),
    (4, 400, 0x10, 0, 1),
];

static CHAINS_OF_TWO: [&[u32]; 4] = [&[0, 1], &[2], &[3, 4], &[5]];

static CHAINS_OF_THREE: [&[u32]; 3] = [&[0, 1, 3], &[2], &[4, 5]];

/// A run that has as many packets as it may is followed by another, which is linked from its own first packet on.
#[test]
fn closed_by_their_number(rt: HostRuntime) {
    let alloc = rt.alloc();
    let payload = [9; 100];
    linked(&rt, alloc, 2, &TWO_FLOWS, &payload, &CHAINS_OF_TWO);
    linked(&rt, alloc, 3, &TWO_FLOWS, &payload, &CHAINS_OF_THREE);
}

/// The same engine over one list after another: what was linked before doesn't matter.
#[test]
fn one_list_after_another(rt: HostRuntime) {
    let alloc = rt.alloc();
    let payload = [9; 100];
    let (first, next) = (plain(0, 0, 0x10, &payload), plain(1, 100, 0x10, &payload));
    let mut engine = Engine::make(alloc, 2).expect(&rt, "engine");
    for turn in 0..3u32 {
        let mut slots = Vec::new(alloc);
        append(&rt, &mut slots, 0, slot(&rt, alloc, 0, &first, &payload));
        append(&rt, &mut slots, 1, slot(&rt, alloc, 1, &next, &payload));
        engine.start(2).expect(&rt, "room");
        let segs = if turn == 1 { 1 } else { 2 };
        engine.merge(&slots, Limits::up_to(segs));
        assert!(rt; is_chain(&engine, 0, if turn == 1 { &[0] } else { &[0, 1] }));
        spent_slots(&rt, alloc, slots);
    }
}

// Whether the only run is a chain of so many packets, each behind the one before.
fn is_one_chain(engine: &Engine, n: u32) -> bool {
    let Some(run) = engine.runs.get(0) else {
        return false;
    };
    let mut index = run.first;
    for i in 0..n {
        if index != i {
            return false;
        }
        if i != run.last {
            let Some(next) = engine.next.get(index as usize) else {
                return false;
            };
            index = *next;
        }
    }
    engine.runs.len() == 1 && run.last == index && run.more.wrapping_add(1) == n
}

/// 4,096 packets of one flow are one chain.
#[test]
fn one_flow(rt: HostRuntime) {
    let alloc = rt.alloc();
    let payload = [9; 10];
    let mut slots = Vec::new(alloc);
    for i in 0..4096u32 {
        let head = plain(i as u16, i * 10, 0x10, &payload);
        append(&rt, &mut slots, i, slot(&rt, alloc, i, &head, &payload));
    }
    let mut engine = Engine::make(alloc, 4096).expect(&rt, "engine");
    engine.merge(&slots, Limits::up_to(4096));
    assert!(rt; is_one_chain(&engine, 4096));
    spent_slots(&rt, alloc, slots);
}
