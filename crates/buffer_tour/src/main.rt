//! A tour of a packet buffer's calls, and of a merged frame that is cut into its packets: `rt run` in this folder
//! prints a line for each step.
//!
//! The buffer is over blocks of a pool, and each of them has to come home. A buffer can't be dropped, and the check
//! refuses a function that forgets one. So no function leaves by `?` with a buffer of its own in hand: it gives the
//! buffer back first.
#![tactic(auto)]

ghost use Rattle.std.specs.Prelude.{◌≡◌, ◌+◌, ◌<◌, ◌≤◌, [], length};
ghost use Rattle.skb.specs.SkbState.{buffer_size};

mod segments;

use anyhow::Error;
use block_pool::Pool;
use frags::{Outcomes, Pieces};
use raw_block::{Released, Sole};
use skb::{Returned, RoomFault, Skb, Unshared};
use std::alloc::Global;
use std::io;

const PAYLOAD: [u8; 1000] = [0x2a; 1000];

// Destination, source, and the EtherType of IPv4 (IEEE 802.3).
const ETHERNET: [u8; 14] = [2, 0, 0, 0, 0, 2, 2, 0, 0, 0, 0, 1, 8, 0];

// Prints a line for each step. The first print that fails is kept for the end.
#[derive(Drop)]
struct Lines<'a> {
    rt: &'a HostRuntime,
    printed: io::Result<()>,
}

impl Lines<'_> {
    fn show(&mut self, done: &str, skb: &Skb) {
        if self.printed.is_ok() {
            let (len, blocks) = (skb.len(), skb.count());
            let (headroom, tailroom) = (skb.headroom(), skb.tailroom());
            self.printed = println!(self.rt;
                "{done:<34} len {len:>4}, headroom {headroom:>2}, tailroom {tailroom:>4}, blocks {blocks}"
            );
        }
    }

    fn tell(&mut self, what: &str, number: u64) {
        if self.printed.is_ok() {
            self.printed = println!(self.rt; "{what:<34} {number}");
        }
    }
}

// The payload goes behind, and the header in front: neither moves the bytes that are there.
fn fill(skb: &mut Skb, lines: &mut Lines) -> Result<(), Error>
    requires empty { buffer_size skb.old ≡ 0 }
    ensures short { (skb.new.rest ≡ skb.old.rest) × (buffer_size skb.new ≤ 1014) }
{
    skb.put_tail(&PAYLOAD)?;
    lines.show("put_tail: the payload", skb);
    skb.push(&ETHERNET)?;
    lines.show("push: an Ethernet header", skb);
    Ok(())
}

// A second reader gets the same bytes, uncopied. As long as it holds them nobody may write in front of them.
fn lend(skb: &mut Skb, out: &mut Outcomes, lines: &mut Lines) -> Result<(), Error>
    requires short { (skb.old.rest ≡ []) × (buffer_size skb.old ≤ 1014) × (2 ≤ out.old.spare) }
    ensures short { (skb.new.rest ≡ []) × (buffer_size skb.new ≤ 1014) × (out.old.spare ≤ out.new.spare + 1) }
{
    let mut clone = skb.clone()?;
    lines.show("clone: for a second reader", &clone);
    match clone.pull(ETHERNET.len(), out) {
        Ok(()) => lines.show("  pull: the clone has no header", &clone),
        Err(_) => lines.show("  pull was refused: too short", &clone),
    }
    match skb.push(&[0]) {
        Err(RoomFault::Shared) => lines.show("push was refused: Shared", skb),
        Err(RoomFault::NoRoom { .. }) => lines.show("push was refused: NoRoom", skb),
        Ok(()) => lines.show("push: one byte more", skb),
    }
    clone.release(out);
    lines.show("release: the clone is given back", skb);
    Ok(())
}

// The head may be written again. Where others still held its block, its bytes would be copied into the spare.
fn own(skb: &mut Skb, spare: Sole, out: &mut Outcomes, lines: &mut Lines)
    requires room { 1 ≤ out.old.spare }
    ensures same { (skb.new.rest ≡ skb.old.rest) × (buffer_size skb.new ≡ buffer_size skb.old)
        × (out.old.spare ≤ out.new.spare + 1) }
{
    match skb.unshare(spare) {
        Unshared::Unused(spare) => out.keep_sole(spare),
        Unshared::Gave(Released::Last(block), _) => out.keep_sole(block),
        Unshared::Gave(Released::Left(receipt), _) => out.keep_receipt(receipt),
    }
    lines.show("unshare: the head is its own", skb);
}

// The other buffer's bytes follow, uncopied: its block becomes a piece.
fn lengthen(skb: &mut Skb, other: Skb, out: &mut Outcomes, lines: &mut Lines) -> Result<(), Error>
    requires blocks { (skb.old.rest ≡ []) × (other.rest ≡ []) × (other.from < other.to) }
    requires room { (buffer_size skb.old + buffer_size other ≤ 2048) × (2 ≤ out.old.spare) }
    ensures room { (length skb.new.rest ≤ 1) × (out.old.spare ≤ out.new.spare + 1) }
{
    if let Err((other, error)) = skb.attach(other, out) {
        other.release(out);
        return Err(Error::from(error));
    }
    lines.show("attach: a second buffer's bytes", skb);
    Ok(())
}

// The bytes, where they lie and copied out. The first 1,014 of them are the head's.
fn read(skb: &Skb, lines: &mut Lines) {
    if skb.count() < 2 || skb.len() < 1016 {
        return;
    }
    lines.tell("head: bytes in the head", skb.head().len() as u64);
    lines.tell(
        "slice(0): bytes in the first piece",
        skb.slice(0).len() as u64,
    );
    lines.tell("byte_at(12): of the EtherType", u64::from(skb.byte_at(12)));
    let mut bytes = [0; 4];
    skb.copy_out(1012, &mut bytes);
    lines.tell("copy_out: the payload's last byte", u64::from(bytes[1]));
    lines.tell("  and the one behind it", u64::from(bytes[2]));
    lines.tell("least_weight: the piece has all", skb.least_weight());
}

// The last bytes go, and one of the head's is written over.
fn change(skb: &mut Skb, out: &mut Outcomes, lines: &mut Lines) -> Result<(), Error>
    requires room { length skb.old.rest ≤ out.old.spare }
    ensures room { (length skb.new.rest ≤ length skb.old.rest)
        × (out.old.spare + length skb.new.rest ≤ out.new.spare + length skb.old.rest) }
{
    skb.trim(14, out)?;
    lines.show("trim: the last 14 bytes", skb);
    write_over(skb);
    if skb.len() > 5 {
        lines.tell("head_bytes_mut: byte 5 is now", u64::from(skb.byte_at(5)));
    }
    Ok(())
}

// `head_mut` lends the same bytes as an `Option`, and a caller is told less of the buffer then.
fn write_over(skb: &mut Skb)
    ensures rest { skb.new.rest ≡ skb.old.rest }
{
    if skb.head_is_sole() {
        let bytes = skb.head_bytes_mut();
        if bytes.len() > 5 {
            bytes[5] = 3;
        }
    }
}

// More of the first bytes lie in one block: the spare is the head now.
fn gather(skb: &mut Skb, spare: Sole, out: &mut Outcomes, lines: &mut Lines) -> Result<(), Error>
    requires room { length skb.old.rest + 1 ≤ out.old.spare }
    ensures room { (length skb.new.rest ≤ length skb.old.rest)
        × (out.old.spare + length skb.new.rest ≤ out.new.spare + length skb.old.rest + 1) }
{
    match skb.pull_up(1030, spare, out) {
        Ok(returned) => keep_returned(returned, out),
        Err((fault, spare)) => {
            out.keep_sole(spare);
            return Err(Error::from(fault));
        }
    }
    lines.show("pull_up: 1030 bytes in one block", skb);
    Ok(())
}

fn keep_returned(returned: Returned, out: &mut Outcomes)
    requires room { 1 ≤ out.old.spare }
    ensures room { out.old.spare ≤ out.new.spare + 1 }
{
    match returned {
        Returned::Unused(spare) => out.keep_sole(spare),
        Returned::Gave(Released::Last(block)) => out.keep_sole(block),
        Returned::Gave(Released::Left(receipt)) => out.keep_receipt(receipt),
    }
}

// The same bytes once more, in a block that nobody else holds.
fn duplicate(
    skb: &Skb,
    spares: &mut Vec<Sole>,
    out: &mut Outcomes,
    lines: &mut Lines,
) -> Result<(), Error>
    requires room { (length spares.old.items ≤ 1) × (2 ≤ out.old.spare) }
    ensures room { (length spares.new.items ≤ 1) × (out.old.spare ≤ out.new.spare + 1) }
{
    let copy = skb.copy(spares)?;
    lines.show("copy: the bytes in an own block", &copy);
    copy.release(out);
    Ok(())
}

fn duplicate_into(
    skb: &Skb,
    spare: Sole,
    alloc: Global,
    out: &mut Outcomes,
    lines: &mut Lines,
) -> Result<(), Error>
    requires room { 2 ≤ out.old.spare }
    ensures room { out.old.spare ≤ out.new.spare + 2 }
{
    let mut spares = match Vec::with_capacity(alloc, 1) {
        Ok(spares) => spares,
        Err(error) => {
            out.keep_sole(spare);
            return Err(Error::from(error));
        }
    };
    spares.push_reserved(spare);
    let copied = duplicate(skb, &mut spares, out, lines);
    if let Some(spare) = spares.pop() {
        out.keep_sole(spare);
    }
    copied
}

// The bytes from a place on move out, uncopied, and are given back.
fn divide(skb: &mut Skb, out: &mut Outcomes, lines: &mut Lines) -> Result<(), Error>
    requires room { length skb.old.rest + 1 ≤ out.old.spare }
    ensures room { out.old.spare + length skb.new.rest ≤ out.new.spare + length skb.old.rest + 1 }
{
    let back = skb.split_at(500)?;
    lines.show("split_at: the first 500 bytes stay", skb);
    lines.tell("  and so many go, in pieces", back.len() as u64);
    back.release(out);
    Ok(())
}

// What is in hand for the tour.
struct Blocks {
    head: Sole,
    spare: Sole,
    second: Sole,
    new_head: Sole,
    own: Sole,
}

fn take_blocks(pool: &mut Pool) -> Result<Blocks, Error> {
    Ok(Blocks {
        head: pool.take()?,
        spare: pool.take()?,
        second: pool.take()?,
        new_head: pool.take()?,
        own: pool.take()?,
    })
}

fn tour(pool: &mut Pool, alloc: Global, out: &mut Outcomes, lines: &mut Lines) -> Result<(), Error>
    requires room { 16 ≤ out.old.spare }
{
    let Blocks {
        head,
        spare,
        second,
        new_head,
        own: block,
    } = take_blocks(pool)?;
    let mut skb = Skb::new(head, 64, 64, Pieces::new(alloc));
    lines.show("a buffer over one block, 64 to 64", &skb);
    let filled = fill(&mut skb, lines);
    let lent = lend(&mut skb, out, lines);
    own(&mut skb, spare, out, lines);
    let other = Skb::new(second, 64, 164, Pieces::new(alloc));
    let lengthened = lengthen(&mut skb, other, out, lines);
    read(&skb, lines);
    let changed = change(&mut skb, out, lines);
    let gathered = gather(&mut skb, new_head, out, lines);
    let duplicated = duplicate_into(&skb, block, alloc, out, lines);
    let divided = divide(&mut skb, out, lines);
    skb.release(out);
    filled?;
    lent?;
    lengthened?;
    changed?;
    gathered?;
    duplicated?;
    divided
}

fn bring_home(mut out: Outcomes, pool: &mut Pool) {
    while let Some(block) = out.pop_sole() {
        if pool.home() < pool.made() {
            pool.put(block);
        }
    }
    out.settle();
}

fn main(rt: HostRuntime) -> Result<(), Error> {
    let mut pool = Pool::make(rt.alloc(), 5)?;
    let mut out = Outcomes::new(rt.alloc());
    if let Err(error) = out.reserve(16) {
        out.settle();
        return Err(Error::from(error));
    }
    let mut lines = Lines {
        rt: &rt,
        printed: Ok(()),
    };
    let toured = tour(&mut pool, rt.alloc(), &mut out, &mut lines);
    bring_home(out, &mut pool);
    let cut = segments::tour(&mut pool, rt.alloc(), &mut lines);
    lines.printed?;
    let (home, made) = (pool.home(), pool.made());
    println!(rt; "all given back: {home} of {made} blocks are home")?;
    toured?;
    cut
}
