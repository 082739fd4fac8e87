//! Weights, receipts and claims by their numbers, and threads that share a block.
ghost use Rattle.std.specs.Prelude.{◌≡◌, IfSome};
ghost use Rattle.raw_block.specs.Views.{Life};

use crate::memory::block;
use crate::seeing::assert_same;
use raw_block::{Claimed, FULL, Part, Receipt, Released, Sole};
use std::alloc::Global;
use std::process::Abort;
use std::thread::{Threads, join};

const QUARTER: u64 = 1 << 60;

// The receipt that a part's release leaves, if it was not the last.
fn receipt_of(part: Part) -> Option<Receipt>
    ensures life { IfSome result (λ r. r.life ≡ part.life) }
{
    match part.release() {
        Released::Last(_sole) => None,
        Released::Left(receipt) => Some(receipt),
    }
}

fn spend(part: Part) {
    match receipt_of(part) {
        Some(receipt) => receipt.close(),
        None => {}
    }
}

// What may be handed to another thread.
fn sent<T: Send>(value: T) -> T
    ensures same { result ≡ value }
{
    value
}

// Three quarters, and what is left of the part.
fn quarters(part: Part) -> (Part, Part, Part, Part)
    requires whole { part.weight ≡ 4611686018427387904 }
    ensures lives { (result.0.life ≡ part.life) × (result.1.life ≡ part.life) × (result.2.life ≡ part.life)
        × (result.3.life ≡ part.life) }
{
    let mut part = part;
    let a = part.split(QUARTER);
    let b = part.split(QUARTER);
    let c = part.split(QUARTER);
    (part, a, b, c)
}

// A share's own weight, a claim beside it, what it gives back, and the mark and a byte of the block once it is alone.
fn claimed_late(block: Sole) -> (u64, u64, u64, u32, u8) {
    let mut part = block.share();
    let other = part.split(1_125_899_906_842_624);
    let kept = part.weight();
    let byte = other.bytes()[2047];
    let (total, part) = match part.claim() {
        Claimed::Sole(_sole) => (0, None),
        Claimed::Shared(part, sight) => (sent(sight).total(), Some(part)),
    };
    let left = match receipt_of(other) {
        Some(receipt) => {
            let left = receipt.weight();
            receipt.close();
            left
        }
        None => 0,
    };
    let mark = match part {
        Some(part) => match part.claim() {
            Claimed::Sole(sole) => sole.mark(),
            Claimed::Shared(part, _sight) => {
                spend(part);
                0
            }
        },
        None => 0,
    };
    (kept, total, left, mark, byte)
}

#[test]
fn a_claim_waits_for_the_others(rt: HostRuntime) {
    let alloc = rt.alloc();
    let mut block = block(&rt, alloc);
    let fresh = block.bytes()[0];
    block.set_mark(7);
    block.bytes_mut()[2047] = 9;
    block.range_mut(2, 4)[1] = 5;
    let written = block.bytes()[3];
    let wanted = (4_610_560_118_520_545_280, FULL, 1_125_899_906_842_624, 7, 9);
    assert_same(
        &rt,
        &(fresh, written, FULL, claimed_late(block)),
        &(0, 5, 4_611_686_018_427_387_904, wanted),
    );
}

// A part and the receipt of all the rest.
fn reunited(block: Sole) -> Option<u32> {
    let mut part = block.share();
    let other = part.split(1_125_899_906_842_624);
    match other.release() {
        Released::Last(_sole) => {
            spend(part);
            None
        }
        Released::Left(receipt) => Some(part.reunite(receipt).mark()),
    }
}

// The weight of the receipts of all quarters but the last, added, and their mark.
fn added(block: Sole) -> Option<(u64, u32)> {
    let (a, b, c, d) = quarters(block.share());
    let Some(mut total) = receipt_of(a) else {
        spend(b);
        spend(c);
        spend(d);
        return None;
    };
    if let Some(receipt) = receipt_of(b) {
        total.add(receipt);
    }
    if let Some(receipt) = receipt_of(c) {
        total.add(receipt);
    }
    if let Some(receipt) = receipt_of(d) {
        total.add(receipt);
    }
    let sum = (total.weight(), total.mark());
    total.close();
    Some(sum)
}

// A block with this mark.
fn marked(rt: &impl Abort, alloc: Global, mark: u32) -> Sole {
    let mut block = block(rt, alloc);
    block.set_mark(mark);
    block
}

#[test]
fn receipts_add_up_to_the_rest(rt: HostRuntime) {
    let alloc = rt.alloc();
    let sums = (
        reunited(marked(&rt, alloc, 3)),
        added(marked(&rt, alloc, 4)),
    );
    assert_same(&rt, &sums, &(Some(3), Some((FULL - QUARTER, 4))));
}

// A closure holds only what is `Drop`, so a part goes to a thread behind a `&mut`.
fn released(slot: &mut Option<Part>) -> (Option<Sole>, Option<Receipt>)
    ensures life { IfSome slot.old (λ p. IfSome result.1 (λ r. r.life ≡ p.life)) }
{
    match slot.take() {
        Some(part) => match part.release() {
            Released::Last(sole) => (Some(sole), None),
            Released::Left(receipt) => (None, Some(receipt)),
        },
        None => (None, None),
    }
}

fn empty(slot: Option<Part>) {
    match slot {
        Some(part) => spend(part),
        None => {}
    }
}

// Receipts of one life, added.
fn both(first: Option<Receipt>, second: Option<Receipt>) -> Option<Receipt>
    requires life { IfSome first (λ r. IfSome second (λ s. s.life ≡ r.life)) }
    ensures life { (l : Life) → IfSome first (λ r. r.life ≡ l) → IfSome second (λ s. s.life ≡ l)
        → IfSome result (λ r. r.life ≡ l) }
{
    let Some(mut total) = first else {
        return second;
    };
    if let Some(receipt) = second {
        total.add(receipt);
    }
    Some(total)
}

// How many were the last, and a Sole of them.
fn counted(lasts: (u32, Option<Sole>), sole: Option<Sole>) -> (u32, Option<Sole>) {
    if sole.is_some() {
        (lasts.0.wrapping_add(1), sole)
    } else {
        lasts
    }
}

// Four quarters that are released at once: the ones that were last, and what the receipts of the others weigh together.
fn release_at_once<R: Threads + Sync>(rt: &R, block: Sole) -> (u32, Option<Sole>, u64) {
    let (a, b, c, d) = quarters(block.share());
    let mut a = Some(a);
    let mut b = Some(b);
    let mut c = Some(c);
    let mut d = Some(d);
    let (front, back) = join(
        rt,
        || join(rt, || released(&mut a), || released(&mut b)),
        || join(rt, || released(&mut c), || released(&mut d)),
    );
    empty(a);
    empty(b);
    empty(c);
    empty(d);
    let (of_a, of_b) = front;
    let (of_c, of_d) = back;
    let left = match both(both(of_a.1, of_b.1), both(of_c.1, of_d.1)) {
        Some(receipt) => {
            let weight = receipt.weight();
            receipt.close();
            weight
        }
        None => 0,
    };
    let lasts = counted(counted((0, None), of_a.0), of_b.0);
    let (count, block) = counted(counted(lasts, of_c.0), of_d.0);
    (count, block, left)
}

// What was seen of the first of 1000 turns in which not just one was the last, or the receipts weigh otherwise.
fn first_other<R: Abort + Threads + Sync>(rt: &R, block: Sole) -> Option<(u32, u64)> {
    let mut next = block;
    for _ in 0..1000u32 {
        let (count, back, left) = release_at_once(rt, next);
        if count != 1 || left != FULL - QUARTER {
            return Some((count, left));
        }
        next = back.expect(rt, "no block");
    }
    None
}

#[test]
fn one_of_four_threads_is_last(rt: HostRuntime) {
    let block = block(&rt, rt.alloc());
    assert_same(&rt, &first_other(&rt, block), &None);
}

// How often the part had other bytes than at first.
fn changes_of(part: &Part, wanted: &[u8; 2048]) -> u32 {
    let mut changes = 0u32;
    for _ in 0..10_000u32 {
        if part.bytes() != &wanted[..] {
            changes = changes.wrapping_add(1);
        }
    }
    changes
}

// Splits a part, joins the pieces or gives one back, and in the end gives the part back.
fn churn(slot: &mut Option<Part>) {
    if let Some(mut part) = slot.take() {
        for turn in 0..10_000u32 {
            if part.weight() > 1 {
                let piece = part.split(1);
                if turn % 2 == 0 {
                    part.join(piece);
                } else {
                    spend(piece);
                }
            }
        }
        spend(part);
    }
}

fn read_beside_others<R: Threads + Sync>(rt: &R, block: Sole, wanted: &[u8; 2048]) -> u32 {
    let mut part = block.share();
    let mut first = Some(part.split(QUARTER));
    let mut second = Some(part.split(QUARTER));
    let (changes, _) = join(
        rt,
        || changes_of(&part, wanted),
        || join(rt, || churn(&mut first), || churn(&mut second)),
    );
    empty(first);
    empty(second);
    spend(part);
    changes
}

#[test]
fn a_part_reads_the_same_bytes(rt: HostRuntime) {
    let alloc = rt.alloc();
    let mut block = block(&rt, alloc);
    block.bytes_mut()[9] = 6;
    let mut wanted = [0; 2048];
    wanted[9] = 6;
    assert_same(&rt, &read_beside_others(&rt, block, &wanted), &0);
}

// Telling two blocks apart is for the proofs: it changes nothing.
#[test]
fn two_blocks_are_told_apart(rt: HostRuntime) {
    let alloc = rt.alloc();
    let mut first = marked(&rt, alloc, 1);
    let mut second = block(&rt, alloc);
    second.bytes_mut()[5] = 2;
    first.differ(&mut second);
    let bytes = [first.bytes()[5], second.bytes()[5]];
    assert_same(
        &rt,
        &([first.mark(), second.mark()], bytes),
        &([1, 0], [0, 2]),
    );
}
