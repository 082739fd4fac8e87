//! Buffers of two blocks, by their bytes once they are cut.
ghost use Rattle.std.specs.Prelude.{◌≡◌, ◌≤◌, ◌<◌, ◌+◌, [], length};
ghost use Rattle.skb.specs.SkbState.{buffer_size};

use crate::buffers::{spend, spend_released};
use crate::memory::{block, room_for};
use crate::seeing::assert_same;
use frags::{Outcomes, PieceBuilder, Pieces, ShareFault};
use inet_sum::Partial;
use raw_block::Sole;
use skb::{Returned, Skb};
use std::alloc::Global;
use std::process::Abort;

// A block whose bytes count.
fn counting(mut block: Sole) -> Sole {
    let bytes = block.bytes_mut();
    for i in 0..bytes.len() {
        bytes[i] = (i % 251) as u8;
    }
    block
}

// 100 bytes from the place 64 of one block, and 100 from the place 200 of another behind them; and room for six.
fn two_blocks(rt: &impl Abort, alloc: Global) -> (Skb, Outcomes)
    ensures buffer { (length result.0.rest ≡ 1) × (buffer_size result.0 ≡ 200) }
    ensures room { 6 ≤ result.1.spare }
{
    let mut out = room_for(rt, alloc, 8);
    let mut skb = Skb::new(counting(block(rt, alloc)), 64, 164, Pieces::new(alloc));
    let other = Skb::new(counting(block(rt, alloc)), 200, 300, Pieces::new(alloc));
    if let Err((other, _)) = skb.attach(other, &mut out) {
        other.release(&mut out);
        panic!(rt; "no memory");
    }
    (skb, out)
}

// The byte that stands at a place of these 200.
fn expected(place: usize) -> u8
    requires near { place < 1000 }
{
    let at = if place < 100 { 64 + place } else { 100 + place };
    (at % 251) as u8
}

// Whether a buffer has the bytes from a place on.
fn has_bytes(skb: &Skb, from: usize) -> bool
    requires near { from ≤ 200 }
{
    let len = skb.len();
    if len > 200 {
        return false;
    }
    for i in 0..len {
        if skb.byte_at(i) != expected(from + i) {
            return false;
        }
    }
    true
}

// The same of pieces.
fn pieces_have_bytes(pieces: &Pieces, from: usize) -> bool
    requires near { from ≤ 200 }
{
    let len = pieces.len();
    if len > 200 {
        return false;
    }
    for i in 0..len {
        if pieces.byte_at(i) != expected(from + i) {
            return false;
        }
    }
    true
}

// Length and blocks of both buffers of a cut, whether their bytes are right, and the blocks that came home.
fn cut_at(rt: &impl Abort, alloc: Global, at: usize) -> ([usize; 4], bool, usize)
    requires near { at ≤ 200 }
{
    let (mut skb, mut out) = two_blocks(rt, alloc);
    let Ok(back) = skb.split_at(at) else {
        panic!(rt; "not cut");
    };
    let numbers = [skb.len(), skb.count(), back.len(), back.count()];
    let right = has_bytes(&skb, 0) && pieces_have_bytes(&back, at);
    back.release(&mut out);
    skb.release(&mut out);
    (numbers, right, spend(out))
}

// Length, headroom, head and blocks after the first and the last bytes are gone, whether the others are right, and the
// blocks that came home.
fn cut_off(rt: &impl Abort, alloc: Global, first: usize, last: usize) -> ([usize; 4], bool, usize)
    requires near { first ≤ 200 }
{
    let (mut skb, mut out) = two_blocks(rt, alloc);
    let pulled = skb.pull(first, &mut out).is_ok();
    let trimmed = skb.trim(last, &mut out).is_ok();
    let numbers = [skb.len(), skb.headroom(), skb.head().len(), skb.count()];
    let right = pulled && trimmed && has_bytes(&skb, first);
    skb.release(&mut out);
    (numbers, right, spend(out))
}

// Length and pieces of a list that a buffer without its first bytes was moved into, whether the bytes are right, and
// the blocks that came home.
fn moved(rt: &impl Abort, alloc: Global, first: usize) -> ([usize; 2], bool, usize)
    requires near { first ≤ 200 }
{
    let (mut skb, mut out) = two_blocks(rt, alloc);
    let _ = skb.pull(first, &mut out);
    assert!(rt; skb.len() <= 200 && skb.count() == 2 && out.spare() >= 4);
    let mut pieces = PieceBuilder::with_room(alloc, 4).expect(rt, "no room");
    skb.move_into(&mut pieces, &mut out);
    let pieces = pieces.finish();
    let numbers = [pieces.len(), pieces.count()];
    let right = pieces_have_bytes(&pieces, first);
    assert!(rt; pieces.count() <= out.spare());
    pieces.release(&mut out);
    (numbers, right, spend(out))
}

// Whether the old head was released.
fn gave(returned: Returned) -> bool {
    match returned {
        Returned::Gave(released) => {
            spend_released(released);
            true
        }
        Returned::Unused(_) => false,
    }
}

// Headroom, head and blocks after bytes were pulled up, whether a spare served for it, and whether the bytes are right.
fn pulled_up(rt: &impl Abort, alloc: Global, n: usize) -> ([usize; 3], bool, bool) {
    let (mut skb, mut out) = two_blocks(rt, alloc);
    let served = match skb.pull_up(n, block(rt, alloc), &mut out) {
        Ok(returned) => gave(returned),
        Err(_refused) => false,
    };
    let numbers = [skb.headroom(), skb.head().len(), skb.count()];
    let right = has_bytes(&skb, 0);
    skb.release(&mut out);
    let _ = spend(out);
    (numbers, served, right)
}

// The clone of a buffer, which is gone.
fn thinned(mut skb: Skb, out: &mut Outcomes) -> Skb
    requires spare { (skb.rest ≡ []) × (1 ≤ out.old.spare) }
    ensures rest { (result.rest ≡ []) × (out.old.spare ≤ out.new.spare + 1) }
{
    match skb.clone() {
        Ok(clone) => {
            skb.release(out);
            clone
        }
        Err(_) => skb,
    }
}

// The length of what is behind a cut.
fn behind(skb: &mut Skb, at: usize, out: &mut Outcomes) -> Result<usize, ShareFault>
    requires spare { (length skb.old.rest ≤ 1) × (2 ≤ out.old.spare) }
    ensures rest { (length skb.new.rest ≤ length skb.old.rest + 1) × (out.old.spare ≤ out.new.spare + 2) }
{
    let back = skb.split_at(at)?;
    let len = back.len();
    back.release(out);
    Ok(len)
}

// Of a clone's clone, six times: its weight, whether a cut inside its head is Worn, and what is behind one at its end;
// and the blocks that came home.
fn of_weight_one(rt: &impl Abort, alloc: Global) -> (u64, bool, usize, usize) {
    let mut out = room_for(rt, alloc, 13);
    let skb = Skb::new(block(rt, alloc), 0, 10, Pieces::new(alloc));
    let skb = thinned(skb, &mut out);
    let skb = thinned(skb, &mut out);
    let skb = thinned(skb, &mut out);
    let skb = thinned(skb, &mut out);
    let skb = thinned(skb, &mut out);
    let mut skb = thinned(skb, &mut out);
    let weight = skb.least_weight();
    let worn = match behind(&mut skb, 3, &mut out) {
        Ok(_) => false,
        Err(fault) => matches!(fault, ShareFault::Worn),
    };
    let end = skb.head().len();
    let after = behind(&mut skb, end, &mut out).unwrap_or(1000);
    skb.release(&mut out);
    (weight, worn, after, spend(out))
}

// Whether the sum from an odd place on is that of the bytes copied out.
fn is_summed(skb: &Skb) -> bool
    requires size { buffer_size skb.now ≡ 200 }
{
    let at = skb.head().len().min(33);
    let mut bytes = [0; 200];
    skb.copy_out(0, &mut bytes);
    let mut sum = Partial::new();
    sum.add(&bytes[at..]);
    skb.sum_from(at).fold() == sum.fold()
}

// The length of a piece, whether bytes of head and piece are summed and copied out, and whether the head's are lent for
// writing until it is shared.
fn read_and_written(rt: &impl Abort, alloc: Global) -> (usize, bool, bool) {
    let (mut skb, mut out) = two_blocks(rt, alloc);
    let piece = skb.slice(0).len();
    let mut bytes = [0; 10];
    skb.copy_out(95, &mut bytes);
    let mut copied = is_summed(&skb);
    for i in 0..10 {
        copied = copied && bytes[i] == expected(95 + i);
    }
    if let Some(head) = skb.head_mut() {
        head.fill(9);
    }
    let head = skb.head();
    let written = head.len() == 100 && head[0] == 9 && head[99] == 9;
    skb.share_head();
    assert!(rt; !skb.head_is_sole() && skb.count() <= out.spare());
    skb.release(&mut out);
    let _ = spend(out);
    (piece, copied, written)
}

// Whether a shared head is lent for writing.
fn is_lent_beside_a_clone(rt: &impl Abort, alloc: Global) -> bool {
    let mut out = room_for(rt, alloc, 2);
    let mut skb = Skb::new(block(rt, alloc), 64, 128, Pieces::new(alloc));
    let lent = match skb.clone() {
        Ok(clone) => {
            clone.release(&mut out);
            skb.head_mut().is_some()
        }
        Err(_) => true,
    };
    assert!(rt; skb.count() <= out.spare());
    skb.release(&mut out);
    let _ = spend(out);
    lent
}

#[test]
fn a_head_of_weight_one_is_not_cut(rt: HostRuntime) {
    let alloc = rt.alloc();
    assert_same(&rt, &of_weight_one(&rt, alloc), &(1, true, 0, 1));
}

#[test]
fn bytes_are_read_and_written(rt: HostRuntime) {
    let alloc = rt.alloc();
    let is_lent = is_lent_beside_a_clone(&rt, alloc);
    assert_same(
        &rt,
        &(read_and_written(&rt, alloc), is_lent),
        &((100, true, true), false),
    );
}

#[test]
fn two_blocks_are_cut_at_each_place(rt: HostRuntime) {
    let alloc = rt.alloc();
    let seen = [
        cut_at(&rt, alloc, 0),
        cut_at(&rt, alloc, 40),
        cut_at(&rt, alloc, 100),
        cut_at(&rt, alloc, 150),
        cut_at(&rt, alloc, 200),
    ];
    assert_same(
        &rt,
        &seen,
        &[
            ([0, 1, 200, 2], true, 2),
            ([40, 1, 160, 2], true, 2),
            ([100, 1, 100, 1], true, 2),
            ([150, 2, 50, 1], true, 2),
            ([200, 2, 0, 0], true, 2),
        ],
    );
}

#[test]
fn ends_are_cut_off(rt: HostRuntime) {
    let alloc = rt.alloc();
    let seen = [
        cut_off(&rt, alloc, 30, 30),
        cut_off(&rt, alloc, 120, 30),
        cut_off(&rt, alloc, 10, 150),
        cut_off(&rt, alloc, 200, 0),
    ];
    assert_same(
        &rt,
        &seen,
        &[
            ([140, 94, 70, 2], true, 2),
            ([50, 164, 0, 2], true, 2),
            ([40, 74, 40, 1], true, 2),
            ([0, 164, 0, 1], true, 2),
        ],
    );
}

#[test]
fn first_bytes_are_pulled_up(rt: HostRuntime) {
    let alloc = rt.alloc();
    let seen = [
        pulled_up(&rt, alloc, 100),
        pulled_up(&rt, alloc, 150),
        pulled_up(&rt, alloc, 200),
        pulled_up(&rt, alloc, 201),
    ];
    assert_same(
        &rt,
        &seen,
        &[
            ([64, 100, 2], false, true),
            ([64, 150, 2], true, true),
            ([64, 200, 1], true, true),
            ([64, 100, 2], false, true),
        ],
    );
}

#[test]
fn buffers_are_moved_behind_pieces(rt: HostRuntime) {
    let alloc = rt.alloc();
    assert_same(
        &rt,
        &[
            moved(&rt, alloc, 0),
            moved(&rt, alloc, 40),
            moved(&rt, alloc, 100),
        ],
        &[
            ([200, 2], true, 2),
            ([160, 2], true, 2),
            ([100, 1], true, 2),
        ],
    );
}
