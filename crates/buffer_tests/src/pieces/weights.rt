//! Weights by their numbers: what shares keep, and when nothing is left to give.
ghost use Rattle.std.specs.Prelude.{◌+◌, ◌≤◌, length};

use super::blocks::{counted, put};
use crate::memory::{block, room_for};
use crate::seeing::assert_same;
use frags::{Holder, Outcomes, Pieces, ShareFault};
use raw_block::{FULL, Part};
use std::alloc::Global;
use std::process::Abort;

// Length, pieces, first byte and least weight of the bytes 64 to 1500 of a block.
fn one_piece(rt: &impl Abort, alloc: Global) -> ((usize, usize, u8, u64), (usize, usize)) {
    let mut out = room_for(rt, alloc, 8);
    let mut pieces = Pieces::new(alloc);
    put(&mut pieces, block(rt, alloc).share(), 64, 1500, &mut out);
    assert!(rt; 0 < pieces.len());
    let first = pieces.byte_at(0);
    let seen = (pieces.len(), pieces.count(), first, pieces.least_weight());
    pieces.release(&mut out);
    (seen, counted(out))
}

#[test]
fn a_block_in_one_piece(rt: HostRuntime) {
    let alloc = rt.alloc();
    assert_same(&rt, &one_piece(&rt, alloc), &((1436, 1, 0, FULL), (1, 0)));
}

// A part of a small weight, and the rest of its block given back.
fn small_part(rt: &impl Abort, alloc: Global, weight: u64, out: &mut Outcomes) -> Part
    requires few { (1 ≤ weight) × (weight ≤ 4096) × (1 ≤ out.old.spare) }
    ensures left { out.old.spare ≤ out.new.spare + 1 }
{
    let mut block = block(rt, alloc);
    block.bytes_mut()[9] = 7;
    let mut part = block.share();
    let rest = part.split(FULL - weight);
    out.give_back(rest);
    part
}

// Whether one more share is Worn.
fn is_worn(pieces: &mut Pieces, out: &mut Outcomes) -> bool
    requires spare { length pieces.old ≤ out.old.spare }
    ensures left { (length pieces.new ≤ length pieces.old)
        × (out.old.spare ≤ out.new.spare + length pieces.old) }
{
    match pieces.share() {
        Ok(more) => {
            more.release(out);
            false
        }
        Err(fault) => matches!(fault, ShareFault::Worn),
    }
}

// The least weights of both lists of two shares, whether a third is Worn, and whether it left the bytes as they were.
fn shared_thrice(rt: &impl Abort, alloc: Global) -> ([u64; 4], bool, bool, (usize, usize)) {
    let mut out = room_for(rt, alloc, 8);
    let part = small_part(rt, alloc, 3, &mut out);
    let mut pieces = Pieces::new(alloc);
    put(&mut pieces, part, 0, 10, &mut out);
    let second = pieces.share().expect(rt, "no share");
    let first_kept = pieces.least_weight();
    let third = pieces.share().expect(rt, "no share");
    let weights = [
        first_kept,
        second.least_weight(),
        pieces.least_weight(),
        third.least_weight(),
    ];
    let worn = is_worn(&mut pieces, &mut out);
    assert!(rt; pieces.len() == 10);
    let same = pieces.byte_at(9) == 7;
    second.release(&mut out);
    third.release(&mut out);
    pieces.release(&mut out);
    (weights, worn, same, counted(out))
}

#[test]
fn a_weight_of_three_is_shared_twice(rt: HostRuntime) {
    let alloc = rt.alloc();
    let wanted = ([2, 1, 1, 1], true, true, (1, 3));
    assert_same(&rt, &shared_thrice(&rt, alloc), &wanted);
}

// Whether a piece of weight 1 is Worn where it is shared and where it is cut inside, and the lengths of both lists of a
// cut at its end.
fn of_weight_one(rt: &impl Abort, alloc: Global) -> (bool, bool, (usize, usize)) {
    let mut out = room_for(rt, alloc, 8);
    let part = small_part(rt, alloc, 1, &mut out);
    let mut pieces = Pieces::new(alloc);
    put(&mut pieces, part, 0, 10, &mut out);
    let share_worn = is_worn(&mut pieces, &mut out);
    let split_worn = match pieces.split_at(5) {
        Ok(rest) => {
            rest.release(&mut out);
            false
        }
        Err(fault) => matches!(fault, ShareFault::Worn),
    };
    let rest = pieces.split_at(10).expect(rt, "not split");
    let lengths = (pieces.len(), rest.len());
    rest.release(&mut out);
    pieces.release(&mut out);
    let _ = counted(out);
    (share_worn, split_worn, lengths)
}

#[test]
fn a_weight_of_one_is_worn_inside(rt: HostRuntime) {
    let alloc = rt.alloc();
    assert_same(&rt, &of_weight_one(&rt, alloc), &(true, true, (10, 0)));
}

// The weight that a Sole has in a list that took it and its list of pieces in, and what came back.
fn taken_in(rt: &impl Abort, alloc: Global) -> (usize, u64, (usize, usize)) {
    let mut out = room_for(rt, alloc, 8);
    let mut pieces = Pieces::new(alloc);
    let mut others = Pieces::new(alloc);
    put(&mut others, block(rt, alloc).share(), 5, 25, &mut out);
    if let Err((_holder, _others, _)) = pieces.append_all(
        Holder::Sole(block(rt, alloc)),
        0,
        10,
        others,
    ) {
        panic!(rt; "no memory");
    }
    let seen = (pieces.len(), pieces.least_weight());
    pieces.release(&mut out);
    (seen.0, seen.1, counted(out))
}

#[test]
fn a_sole_begins_a_life_where_it_is_taken_in(rt: HostRuntime) {
    let alloc = rt.alloc();
    assert_same(&rt, &taken_in(&rt, alloc), &(30, FULL, (2, 0)));
}

// The places that are left where a Sole and both parts of a block were given back, and what they left.
fn holders_given_back(rt: &impl Abort, alloc: Global) -> (usize, (usize, usize)) {
    let mut out = room_for(rt, alloc, 8);
    let mut part = block(rt, alloc).share();
    let rest = part.split(1);
    out.give_back_holder(Holder::Sole(block(rt, alloc)));
    out.give_back_holder(Holder::Part(rest));
    out.give_back_holder(Holder::Part(part));
    let spare = out.spare();
    (spare, counted(out))
}

#[test]
fn holders_leave_soles_and_receipts(rt: HostRuntime) {
    let alloc = rt.alloc();
    let (spare, left) = holders_given_back(&rt, alloc);
    assert_same(&rt, &(6 <= spare, left), &(true, (2, 1)));
}
