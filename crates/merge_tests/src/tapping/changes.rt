//! A packet that is pushed, pulled and given back while a tap reads its clone.
ghost use Rattle.std.specs.Prelude.{◌≡◌, ◌+◌, ◌≤◌, IfSome, None, length};
ghost use Rattle.taps.specs.Clones.{blocks_of};

use super::packets::{byte_of, packet};
use crate::home::home_of;
use crate::seeing::assert_same;
use frags::Outcomes;
use off_io::NoGate;
use raw_block::Sole;
use skb::{Skb, Unshared};
use std::alloc::Global;
use std::process::Abort;
use std::thread::{Threads, join_mut};
use taps::{TapClone, TapResult, TapTask};

const LEN: usize = 300;

// The packet, a block for its head, and room for what it leaves.
struct Own {
    skb: Option<Skb>,
    spare: Option<Sole>,
    out: Outcomes,
}

// The task, whose clone has all bytes in one window; and whether it read them, once it has run.
struct Tap<'a> {
    task: Option<TapTask<'a>>,
    has_read: bool,
    blocks: usize,
}

fn has_all(read: TapResult) -> (bool, usize) {
    let TapResult { texts, outcomes } = read;
    let blocks = home_of(outcomes);
    let Ok(texts) = texts else {
        return (false, blocks);
    };
    if texts.len() != 1 || texts.get(0).bytes.len() != LEN {
        return (false, blocks);
    }
    for (i, byte) in texts.get(0).bytes.iter().enumerate() {
        if *byte != byte_of(i) {
            return (false, blocks);
        }
    }
    (true, blocks)
}

fn read(tap: &mut Tap<'_>)
    requires places { IfSome tap.old.task (λ task. blocks_of task.clones.items ≤ task.outcomes.spare) }
    ensures none { tap.new.task ≡ None }
{
    if let Some(task) = tap.task.take() {
        let (has_read, blocks) = has_all(task.run(&NoGate));
        tap.has_read = has_read;
        tap.blocks = blocks;
    }
}

fn change(own: &mut Own)
    requires places { IfSome own.old.skb (λ skb. length skb.rest + 3 ≤ own.old.out.spare) }
    ensures none { own.new.skb ≡ None }
{
    if let Some(mut skb) = own.skb.take() {
        let _ = skb.pull(20, &mut own.out);
        if let Some(spare) = own.spare.take() {
            match skb.unshare(spare) {
                Unshared::Unused(spare) => own.out.keep_sole(spare),
                Unshared::Gave(released, _) => match released {
                    raw_block::Released::Last(sole) => own.out.keep_sole(sole),
                    raw_block::Released::Left(receipt) => own.out.keep_receipt(receipt),
                },
            }
        }
        if skb.len() < 4000 {
            let _ = skb.push(&[0xff; 20]);
        }
        skb.release(&mut own.out);
    }
}

fn change_beside<R: Threads + Sync>(rt: &R, tap: &mut Tap<'_>, own: &mut Own)
    requires tap { IfSome tap.old.task (λ task. blocks_of task.clones.items ≤ task.outcomes.spare) }
    requires own { IfSome own.old.skb (λ skb. length skb.rest + 3 ≤ own.old.out.spare) }
    ensures none { (tap.new.task ≡ None) × (own.new.skb ≡ None) }
{
    join_mut(
        rt,
        &mut ||
            requires places { IfSome tap.now.task (λ task. blocks_of task.clones.items ≤ task.outcomes.spare) }
            ensures none { tap.exit.now.task ≡ None }
        { read(tap) },
        &mut ||
            requires places { IfSome own.now.skb (λ skb. length skb.rest + 3 ≤ own.now.out.spare) }
            ensures none { own.exit.now.skb ≡ None }
        { change(own) },
    );
}

fn sides<'a, A: Abort>(rt: &A, alloc: Global) -> (Tap<'a>, Own)
    ensures places { (IfSome result.0.task (λ task. blocks_of task.clones.items ≤ task.outcomes.spare))
        × (IfSome result.1.skb (λ skb. length skb.rest + 3 ≤ result.1.out.spare)) }
{
    let mut skb = packet(alloc, LEN, 100, 90).expect(rt, "no memory");
    let clone = skb.clone().expect(rt, "no clone");
    let spare = Sole::new(alloc).expect(rt, "no memory");
    let mut out = Outcomes::new(alloc);
    assert!(rt; out.reserve(10).is_ok());
    assert!(rt; skb.count() < 8 && out.spare() >= 10);
    let mut outcomes = Outcomes::new(alloc);
    assert!(rt; outcomes.reserve(10).is_ok());
    let mut clones = Vec::with_capacity(alloc, 1).expect(rt, "no memory");
    assert!(rt; clones.len() < clones.capacity());
    clones.push_reserved(TapClone {
        skb: clone,
        sec: 0,
        frac: 0,
        original: 300,
        number: 0,
    });
    let task = TapTask {
        tap: 0,
        snap: 2048,
        filter: None,
        clones,
        outcomes,
    };
    assert!(rt; task.has_room());
    let tap = Tap {
        task: Some(task),
        has_read: false,
        blocks: 0,
    };
    let own = Own {
        skb: Some(skb),
        spare: Some(spare),
        out,
    };
    (tap, own)
}

// Whether the tap read the packet as it was, and the blocks that came home on both sides.
fn ended(tap: Tap<'_>, own: Own) -> (bool, usize)
    requires none { (tap.task ≡ None) × (own.skb ≡ None) }
{
    let Tap {
        task,
        has_read,
        blocks,
    } = tap;
    let Own { skb, spare: _, out } = own;
    match (task, skb) {
        (None, None) => (has_read, home_of(out).wrapping_add(blocks)),
        _ => unreachable!(),
    }
}

// The same of one turn.
fn turn<R: Abort + Threads + Sync>(rt: &R, alloc: Global) -> (bool, usize) {
    let (mut tap, mut own) = sides(rt, alloc);
    change_beside(rt, &mut tap, &mut own);
    ended(tap, own)
}

// The first of 200 turns in which the tap read otherwise, or others came home than a head, three pieces, and the spare.
fn first_other<R: Abort + Threads + Sync>(rt: &R, alloc: Global) -> Option<(bool, usize)> {
    for _ in 0..200u32 {
        let seen = turn(rt, alloc);
        if seen != (true, 5) {
            return Some(seen);
        }
    }
    None
}

#[test]
fn a_packet_that_changes_is_read_as_it_was(rt: HostRuntime) {
    assert_same(&rt, &first_other(&rt, rt.alloc()), &None);
}
