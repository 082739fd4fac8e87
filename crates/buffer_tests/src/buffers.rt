//! A buffer over one block, by the numbers of its room, its clone, its copy and its faults.
ghost use Rattle.std.specs.Prelude.{◌≡◌, ◌≤◌, ◌+◌, [], length};

use crate::memory::{block, room_for};
use crate::seeing::assert_same;
use frags::{Outcomes, Pieces};
use raw_block::{FULL, Released, Sole};
use skb::{CopyFault, PullFault, Returned, RoomFault, Skb, Unshared};
use std::alloc::Global;
use std::process::Abort;

// A fault's numbers, and (0, 0) for none. (1, 0) is Shared.
fn numbers(answer: Result<(), RoomFault>) -> (usize, usize) {
    match answer {
        Ok(()) => (0, 0),
        Err(RoomFault::NoRoom { have, need }) => (have, need),
        Err(RoomFault::Shared) => (1, 0),
    }
}

// What `push` answers, and the headroom after it.
fn pushed(skb: &mut Skb, bytes: &[u8]) -> ((usize, usize), usize)
    ensures rest { skb.new.rest ≡ skb.old.rest }
{
    if skb.len() > 4000 || bytes.len() > 4000 {
        return ((9, 9), 0);
    }
    let answer = skb.push(bytes);
    (numbers(answer), skb.headroom())
}

// What `put_tail` answers, and the length after it.
fn put(skb: &mut Skb, bytes: &[u8]) -> ((usize, usize), usize)
    ensures rest { skb.new.rest ≡ skb.old.rest }
{
    if skb.len() > 4000 || bytes.len() > 4000 {
        return ((9, 9), 0);
    }
    let answer = skb.put_tail(bytes);
    (numbers(answer), skb.len())
}

// Whether a push beside a clone is Shared, and one after the clone's release and an `unshare` goes; and the clone's
// weight.
fn beside_a_clone(skb: &mut Skb, spare: Sole, out: &mut Outcomes) -> (bool, bool, bool, u64)
    requires spare { (skb.old.rest ≡ []) × (2 ≤ out.old.spare) }
    ensures rest { (skb.new.rest ≡ []) × (out.old.spare ≤ out.new.spare + 1) }
{
    match skb.clone() {
        Ok(clone) => {
            let refused = pushed(skb, &[7]);
            let weight = clone.least_weight();
            clone.release(out);
            let unused = match skb.unshare(spare) {
                Unshared::Unused(_) => true,
                Unshared::Gave(released, _) => {
                    spend_released(released);
                    false
                }
            };
            let taken = pushed(skb, &[7]);
            (refused.0 == (1, 0), unused, taken.0 == (0, 0), weight)
        }
        Err(_) => (false, false, false, 0),
    }
}

// Whether more than a block has room for is too big to be pulled up.
fn too_big(skb: &mut Skb, n: usize, spare: Sole, out: &mut Outcomes) -> bool
    requires bare { skb.old.rest ≡ [] }
    ensures rest { (skb.new.rest ≡ []) × (out.old.spare ≤ out.new.spare) }
{
    match skb.pull_up(n, spare, out) {
        Ok(Returned::Unused(_)) => false,
        Ok(Returned::Gave(released)) => {
            spend_released(released);
            false
        }
        Err((fault, _)) => matches!(fault, PullFault::TooBig),
    }
}

pub(crate) fn spend_released(released: Released) {
    match released {
        Released::Last(_) => {}
        Released::Left(receipt) => receipt.close(),
    }
}

// Whether two buffers have the same bytes.
pub(crate) fn same_bytes(one: &Skb, other: &Skb) -> bool {
    let len = one.len();
    if other.len() != len {
        return false;
    }
    for i in 0..len {
        if one.byte_at(i) != other.byte_at(i) {
            return false;
        }
    }
    true
}

// What `copy` answers of a buffer of two blocks' bytes at most: the numbers of too few spares, whether the copy has the
// same bytes and shares nothing, and its headroom and blocks.
fn copied(
    skb: &Skb,
    spares: &mut Vec<Sole>,
    out: &mut Outcomes,
) -> ((usize, usize), bool, usize, usize)
    requires spare { 2 ≤ out.old.spare }
    ensures spare { out.old.spare ≤ out.new.spare + 2 }
{
    if skb.len() > 4000 {
        return ((9, 9), false, 0, 0);
    }
    match skb.copy(spares) {
        Ok(copy) => {
            let owned = copy.head_is_sole() && copy.least_weight() == FULL;
            let same = same_bytes(skb, &copy) && owned;
            let headroom = copy.headroom();
            let blocks = copy.count();
            copy.release(out);
            ((0, 0), same, headroom, blocks)
        }
        Err(CopyFault::Empty { have, need }) => ((have, need), false, 0, 0),
        Err(CopyFault::NoMemory) => ((0, 0), false, 0, 0),
    }
}

// What is seen of a buffer over one block: what pushes and puts answer, the numbers of a pull behind the end, what is
// seen beside a clone, whether too much is too big, the blocks that came home, and what copies answer.
type Seen = (
    [((usize, usize), usize); 4],
    (usize, usize),
    (bool, bool, bool, u64),
    (bool, usize),
    [((usize, usize), bool, usize, usize); 2],
);

// Of one that begins empty, from 64 to 64.
fn over_one_block(rt: &impl Abort, alloc: Global) -> Seen {
    let mut out = room_for(rt, alloc, 8);
    let mut none = Vec::new(alloc);
    let mut two = Vec::new(alloc);
    two.push(block(rt, alloc)).expect(rt, "no memory");
    two.push(block(rt, alloc)).expect(rt, "no memory");
    let mut skb = Skb::new(block(rt, alloc), 64, 64, Pieces::new(alloc));
    let answers = [
        pushed(&mut skb, &[1; 14]),
        pushed(&mut skb, &[1; 51]),
        put(&mut skb, &[2; 1984]),
        put(&mut skb, &[3; 1]),
    ];
    let short = match skb.pull(1999, &mut out) {
        Ok(()) => (0, 0),
        Err(short) => (short.have, short.need),
    };
    let too_big = too_big(&mut skb, 1985, block(rt, alloc), &mut out);
    let shared = beside_a_clone(&mut skb, block(rt, alloc), &mut out);
    let copies = [
        copied(&skb, &mut none, &mut out),
        copied(&skb, &mut two, &mut out),
    ];
    skb.release(&mut out);
    (answers, short, shared, (too_big, spend(out)), copies)
}

pub(crate) fn spend(mut out: Outcomes) -> usize {
    let mut soles = 0usize;
    while let Some(_) = out.pop_sole() {
        soles = soles.wrapping_add(1);
    }
    out.settle();
    soles
}

#[test]
fn one_block_has_room_as_its_numbers_say(rt: HostRuntime) {
    assert_same(
        &rt,
        &over_one_block(&rt, rt.alloc()),
        &(
            [((0, 0), 50), ((50, 51), 50), ((0, 0), 1998), ((0, 1), 1998)],
            (1998, 1999),
            (true, true, true, 1125899906842624),
            (true, 3),
            [((0, 2), false, 0, 0), ((0, 0), true, 64, 2)],
        ),
    );
}

// Telling a buffer's blocks from another one is for the proofs: it changes nothing.
#[test]
fn a_buffer_is_told_from_a_block(rt: HostRuntime) {
    let alloc = rt.alloc();
    let mut other = block(&rt, alloc);
    other.set_mark(7);
    let mut skb = Skb::new(block(&rt, alloc), 64, 70, Pieces::new(alloc));
    skb.differ_from(&mut other);
    let len = skb.len();
    let freed = skb.free();
    assert_same(&rt, &(len, freed, other.mark()), &(6, 1, 7));
}
