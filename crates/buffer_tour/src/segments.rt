//! A merged frame in a buffer, cut into its packets.

ghost use Rattle.std.specs.Prelude.{◌≡◌, ◌+◌, ◌≤◌, [], min, length};
ghost use Rattle.skb.specs.SkbState.{buffer_least, buffer_size, head_size};
ghost use Rattle.gso_cutter.specs.Cutting.{count_of};

use crate::{Lines, bring_home};
use anyhow::{Error, bail};
use block_pool::Pool;
use frags::{Outcomes, Pieces};
use gso::check_super;
use gso_cutter::{Cut, Cutter};
use pcap_io::{AnyHead, OffHead2};
use raw_block::Sole;
use skb::Skb;
use std::alloc::Global;
use worked_captures::MERGED;

const HEAD: AnyHead = AnyHead::V2(OffHead2 {
    version: 2,
    kind: 1,
    modes: 0,
    lane: 0,
    n: 2,
    m: 4,
    number: 0,
});

// The merged frame in a block.
fn merged(mut block: Sole, alloc: Global) -> Skb
    ensures bare { (result.rest ≡ []) × (buffer_size result ≡ 60) }
    ensures front { min (buffer_size result) 200 ≤ head_size result }
    ensures least { 2048 ≤ buffer_least result }
{
    block.range_mut(64, 124).copy_from_slice(&MERGED);
    Skb::new(block, 64, 124, Pieces::new(alloc))
}

// The next packet is shown and given back. Where memory is refused the same packet is next.
fn give(
    cutter: &mut Cutter,
    spare: Sole,
    out: &mut Outcomes,
    lines: &mut Lines,
) -> Result<(), Error>
    requires room { count_of cutter.old + 3 ≤ out.old.spare }
    ensures room { out.old.spare + count_of cutter.new ≤ out.new.spare + count_of cutter.old + 3 }
{
    match cutter.next(spare) {
        Ok(Cut::Segment(segment)) => {
            lines.show("  next: a packet of the frame", &segment);
            segment.release(out);
            Ok(())
        }
        Ok(Cut::Done(spare)) => {
            lines.tell("  next: done, and how many it holds", cutter.count() as u64);
            out.keep_sole(spare);
            Ok(())
        }
        Err((spare, error)) => {
            out.keep_sole(spare);
            Err(Error::from(error))
        }
    }
}

fn cut(
    skb: Skb,
    spares: (Sole, Sole, Sole),
    out: &mut Outcomes,
    lines: &mut Lines,
) -> Result<(), Error>
    requires bare { (skb.rest ≡ []) × (buffer_size skb ≡ 60) × (16 ≤ out.old.spare) }
    requires front { min (buffer_size skb) 200 ≤ head_size skb }
    requires least { 2048 ≤ buffer_least skb }
{
    let (first, second, third) = spares;
    let Ok(plan) = check_super(&HEAD, &skb, 76) else {
        skb.release(out);
        out.keep_sole(first);
        out.keep_sole(second);
        out.keep_sole(third);
        bail!("the frame isn't the record's");
    };
    let mut cutter = Cutter::start(skb, plan);
    let one = give(&mut cutter, first, out, lines);
    let two = give(&mut cutter, second, out, lines);
    let done = give(&mut cutter, third, out, lines);
    cutter.release(out);
    one?;
    two?;
    done
}

/// The packets of a merged frame, each with its headers in a block of its own, and the payload where it lay.
pub fn tour(pool: &mut Pool, alloc: Global, lines: &mut Lines) -> Result<(), Error> {
    let mut out = Outcomes::new(alloc);
    if let Err(error) = out.reserve(16) {
        out.settle();
        return Err(Error::from(error));
    }
    let cut = cut_blocks(pool, alloc, &mut out, lines);
    bring_home(out, pool);
    cut
}

fn cut_blocks(
    pool: &mut Pool,
    alloc: Global,
    out: &mut Outcomes,
    lines: &mut Lines,
) -> Result<(), Error>
    requires room { 16 ≤ out.old.spare }
{
    let block = pool.take()?;
    let spares = (pool.take()?, pool.take()?, pool.take()?);
    let skb = merged(block, alloc);
    lines.show("a merged frame, of two segments", &skb);
    cut(skb, spares, out, lines)
}
