//! Readers on other threads, each with a clone, while the buffer itself is pushed, trimmed, pulled, unshared and
//! released.
ghost use Rattle.std.specs.Prelude.{◌≡◌, ◌+◌, ◌≤◌, length, IfSome, None};

use crate::buffers::spend;
use crate::memory::{block, room_for};
use crate::seeing::assert_same;
use frags::{Outcomes, Pieces};
use raw_block::{Released, Sole};
use skb::{RoomFault, Skb, Unshared};
use std::alloc::Global;
use std::process::Abort;
use std::sync::atomic::{AtomicU32, Ordering};
use std::thread::{Threads, join_mut, yield_now};

const SIZE: usize = 100;

// A clone, and room for what its release leaves.
struct Reader {
    clone: Option<Skb>,
    out: Outcomes,
}

// The buffer, a block for its head, and room for what its changes and its release leave.
struct Writer {
    skb: Option<Skb>,
    spare: Option<Sole>,
    out: Outcomes,
}

// What the three threads share: the bytes of the clones, how often they are read, and how many threads are at work.
#[derive(Drop)]
struct Meeting {
    wanted: [u8; SIZE],
    reads: u32,
    here: AtomicU32,
}

// Waits for the others, so that all work at once. Where no thread can be made there is nobody to wait for, so it gives
// up.
fn meet(meeting: &Meeting) {
    meeting.here.fetch_add(1, Ordering::SeqCst);
    for _ in 0..10_000u32 {
        if meeting.here.load(Ordering::SeqCst) >= 3 {
            return;
        }
        yield_now();
    }
}

// How often the head or the piece had other bytes than at first.
fn changes_of(skb: &Skb, meeting: &Meeting) -> u32 {
    let mut changes = 0u32;
    for _ in 0..meeting.reads {
        if skb.head() != &meeting.wanted[..] {
            changes = changes.wrapping_add(1);
        }
        if skb.count() > 1 && skb.slice(0) != &meeting.wanted[..] {
            changes = changes.wrapping_add(1);
        }
    }
    changes
}

// The changes that were seen, 1 where there was no clone.
fn read_and_release(reader: &mut Reader, meeting: &Meeting) -> u32
    requires spare { IfSome reader.old.clone (λ s. length s.rest + 1 ≤ reader.old.out.spare) }
    ensures none { reader.new.clone ≡ None }
{
    match reader.clone.take() {
        Some(skb) => {
            meet(meeting);
            let changes = changes_of(&skb, meeting);
            skb.release(&mut reader.out);
            changes
        }
        None => 1,
    }
}

fn push_one(skb: &mut Skb) -> Result<(), RoomFault>
    ensures rest { skb.new.rest ≡ skb.old.rest }
{
    if skb.len() > 4000 {
        return Err(RoomFault::NoRoom { have: 0, need: 1 });
    }
    skb.push(&[0])
}

fn own(skb: &mut Skb, spare: Sole, out: &mut Outcomes)
    requires spare { 1 ≤ out.old.spare }
    ensures rest { (skb.new.rest ≡ skb.old.rest) × (out.old.spare ≤ out.new.spare + 1) }
{
    match skb.unshare(spare) {
        Unshared::Unused(spare) => out.keep_sole(spare),
        Unshared::Gave(Released::Last(block), _) => out.keep_sole(block),
        Unshared::Gave(Released::Left(receipt), _) => out.keep_receipt(receipt),
    }
}

// Whether a push was Shared at first, and whether one went once the head was a Sole.
fn change(skb: &mut Skb, spare: Option<Sole>, out: &mut Outcomes) -> (bool, bool)
    requires spare { length skb.old.rest + 2 ≤ out.old.spare }
    ensures spare { length skb.new.rest + 1 ≤ out.new.spare }
{
    let shared = matches!(push_one(skb), Err(RoomFault::Shared));
    let _ = skb.trim(SIZE, out);
    let _ = skb.pull(20, out);
    if let Some(spare) = spare {
        own(skb, spare, out);
    }
    (shared, push_one(skb).is_ok())
}

fn change_and_release(writer: &mut Writer, meeting: &Meeting) -> (bool, bool)
    requires spare { IfSome writer.old.skb (λ s. length s.rest + 2 ≤ writer.old.out.spare) }
    ensures none { writer.new.skb ≡ None }
{
    match writer.skb.take() {
        Some(mut skb) => {
            meet(meeting);
            let went = change(&mut skb, writer.spare.take(), &mut writer.out);
            skb.release(&mut writer.out);
            went
        }
        None => (false, false),
    }
}

fn read_both<R: Threads + Sync>(
    rt: &R,
    first: &mut Reader,
    second: &mut Reader,
    meeting: &Meeting,
) -> u32
    requires first { IfSome first.old.clone (λ s. length s.rest + 1 ≤ first.old.out.spare) }
    requires second { IfSome second.old.clone (λ s. length s.rest + 1 ≤ second.old.out.spare) }
    ensures none { (first.new.clone ≡ None) × (second.new.clone ≡ None) }
{
    let (a, b) = join_mut(
        rt,
        &mut ||
            requires spare { IfSome first.now.clone (λ s. length s.rest + 1 ≤ first.now.out.spare) }
            ensures none { first.exit.now.clone ≡ None }
        { read_and_release(first, meeting) },
        &mut ||
            requires spare { IfSome second.now.clone (λ s. length s.rest + 1 ≤ second.now.out.spare) }
            ensures none { second.exit.now.clone ≡ None }
        { read_and_release(second, meeting) },
    );
    a.wrapping_add(b)
}

fn read_beside<R: Threads + Sync>(
    rt: &R,
    writer: &mut Writer,
    first: &mut Reader,
    second: &mut Reader,
    meeting: &Meeting,
) -> (u32, (bool, bool))
    requires writer { IfSome writer.old.skb (λ s. length s.rest + 2 ≤ writer.old.out.spare) }
    requires first { IfSome first.old.clone (λ s. length s.rest + 1 ≤ first.old.out.spare) }
    requires second { IfSome second.old.clone (λ s. length s.rest + 1 ≤ second.old.out.spare) }
    ensures none { (writer.new.skb ≡ None) × (first.new.clone ≡ None) × (second.new.clone ≡ None) }
{
    join_mut(
        rt,
        &mut ||
            requires spare { (IfSome first.now.clone (λ s. length s.rest + 1 ≤ first.now.out.spare))
                × (IfSome second.now.clone (λ s. length s.rest + 1 ≤ second.now.out.spare)) }
            ensures none { (first.exit.now.clone ≡ None) × (second.exit.now.clone ≡ None) }
        { read_both(rt, first, second, meeting) },
        &mut ||
            requires spare { IfSome writer.now.skb (λ s. length s.rest + 2 ≤ writer.now.out.spare) }
            ensures none { writer.exit.now.skb ≡ None }
        { change_and_release(writer, meeting) },
    )
}

fn filled(rt: &impl Abort, alloc: Global) -> Sole {
    let mut block = block(rt, alloc);
    block.bytes_mut().fill(7);
    block
}

// A head and a piece of a second block.
fn buffer_of(rt: &impl Abort, alloc: Global, out: &mut Outcomes) -> Skb
    requires spare { 2 ≤ out.old.spare }
    ensures rest { (length result.rest ≤ 1) × (out.old.spare ≤ out.new.spare + 1) }
{
    let mut skb = Skb::new(filled(rt, alloc), 64, 64 + SIZE, Pieces::new(alloc));
    let other = Skb::new(filled(rt, alloc), 0, SIZE, Pieces::new(alloc));
    if let Err((other, _)) = skb.attach(other, out) {
        other.release(out);
    }
    skb
}

fn reader_of(skb: &mut Skb, out: Outcomes) -> Reader
    requires spare { (length skb.old.rest ≤ 1) × (2 ≤ out.spare) }
    ensures same { length skb.new.rest ≡ length skb.old.rest }
    ensures ready { IfSome result.clone (λ s. length s.rest + 1 ≤ result.out.spare) }
{
    match skb.clone() {
        Ok(clone) => Reader {
            clone: Some(clone),
            out,
        },
        Err(_) => Reader { clone: None, out },
    }
}

// The blocks that came home.
fn home_of(reader: Reader) -> usize
    requires none { reader.clone ≡ None }
{
    let Reader { clone, out } = reader;
    match clone {
        Some(_skb) => unreachable!(),
        None => spend(out),
    }
}

fn home_of_writer(writer: Writer) -> usize
    requires none { writer.skb ≡ None }
{
    let Writer { skb, spare: _, out } = writer;
    match skb {
        Some(_skb) => unreachable!(),
        None => spend(out),
    }
}

// The changes that the readers saw, how the pushes went, and the blocks that came home.
fn turn<R: Abort + Threads + Sync>(
    rt: &R,
    alloc: Global,
    reads: u32,
) -> (u32, (bool, bool), usize) {
    let mut out = room_for(rt, alloc, 8);
    let mut skb = buffer_of(rt, alloc, &mut out);
    let mut first = reader_of(&mut skb, room_for(rt, alloc, 8));
    let mut second = reader_of(&mut skb, room_for(rt, alloc, 8));
    let mut writer = Writer {
        skb: Some(skb),
        spare: Some(block(rt, alloc)),
        out,
    };
    let meeting = Meeting {
        wanted: [7; SIZE],
        reads,
        here: AtomicU32::new(0),
    };
    let (changes, went) = read_beside(rt, &mut writer, &mut first, &mut second, &meeting);
    let home = home_of_writer(writer)
        .wrapping_add(home_of(first))
        .wrapping_add(home_of(second));
    (changes, went, home)
}

// The first of 1000 turns that went otherwise.
fn first_other<R: Abort + Threads + Sync>(
    rt: &R,
    alloc: Global,
) -> Option<(u32, (bool, bool), usize)> {
    // With few reads the clones are given back while `unshare` asks for the head's block, with many after it.
    for at in 0..1000u32 {
        let seen = turn(rt, alloc, at % 16);
        if seen != (0, (true, true), 3) {
            return Some(seen);
        }
    }
    None
}

#[test]
fn clones_keep_their_bytes_beside_a_writer(rt: HostRuntime) {
    assert_same(&rt, &first_other(&rt, rt.alloc()), &None);
}
