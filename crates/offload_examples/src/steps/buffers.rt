//! The calls on a packet buffer. `bench/buffer-steps` sets them beside the same turns of Rust's `bytes::Bytes` and
//! `Arc`.

ghost use Rattle.std.specs.Prelude.{◌≡◌, ◌+◌, ◌≤◌, [], length, IfOk};
ghost use Rattle.block_pool.specs.PoolState.{home};

use crate::steps::blocks::spend;
use anyhow::{Error, bail};
use block_pool::Pool;
use frags::{Outcomes, Pieces};
use raw_block::Sole;
use skb::Skb;
use std::alloc::{AllocError, Global};
use std::time::{Duration, Instant};

const HEADER: [u8; 14] = [2; 14];

// A clone takes a 4096th of a part's weight, so a part is worn after 148,398 of them.
const MOST_CLONES: u64 = 100_000;

// Room for `n` returns.
pub fn places(alloc: Global, n: usize) -> Result<Outcomes, AllocError>
    ensures room { IfOk result (λ out. (n ≤ out.spare) × (out.soles ≡ [])) }
{
    let mut out = Outcomes::new(alloc);
    match out.reserve(n) {
        Ok(()) => Ok(out),
        Err(error) => {
            out.settle();
            Err(error)
        }
    }
}

// Gives up what came back, so that its places are free again.
pub fn empty(out: &mut Outcomes)
    ensures empty { out.new.soles ≡ [] }
{
    while let Some(_) = out.pop_sole() {}
    while let Some(receipt) = out.pop_receipt() {
        receipt.close();
    }
}

// The first 1,500 bytes of a block follow.
fn add_piece(rest: &mut Pieces, block: Sole)
    ensures few { length rest.new ≤ length rest.old + 1 }
{
    if rest.len() > 65536 {
        return;
    }
    if let Err((part, _)) = rest.append(block.share(), 0, 1500) {
        spend(part);
    }
}

// A piece of each block that is home.
fn pieces_of(alloc: Global, mut pool: Pool) -> Pieces
    ensures few { length result ≤ home pool }
{
    let mut rest = Pieces::new(alloc);
    while let Ok(block) = pool.take() {
        add_piece(&mut rest, block);
    }
    rest
}

// A buffer over this many blocks, of 1,500 bytes each.
fn buffer_of(alloc: Global, blocks: u32) -> Result<Skb, Error>
    requires few { blocks ≤ 16 }
    ensures few { IfOk result (λ skb. length skb.rest + 1 ≤ 16) }
{
    let mut pool = Pool::make(alloc, blocks)?;
    let Ok(head) = pool.take() else {
        bail!("a buffer wants a block");
    };
    let rest = pieces_of(alloc, pool);
    let _ = rest.len();
    let mut skb = Skb::new(head, 1564, 1564, rest);
    fill_head(&mut skb);
    Ok(skb)
}

fn fill_head(skb: &mut Skb)
    ensures rest { length skb.new.rest ≡ length skb.old.rest }
{
    if skb.len() <= 65536 {
        let _ = skb.push(&[1; 1500]);
    }
}

// Whether a clone was made, and released.
fn clone_and_release(skb: &mut Skb, out: &mut Outcomes) -> bool
    ensures rest { length skb.new.rest ≡ length skb.old.rest }
{
    if out.spare() < skb.count() {
        return false;
    }
    match skb.clone() {
        Ok(clone) => {
            clone.release(out);
            empty(out);
            true
        }
        Err(_) => false,
    }
}

// Whether a header was put in front, and taken off again.
fn push_and_pull(skb: &mut Skb, out: &mut Outcomes) -> bool
    requires room { length skb.old.rest + 1 ≤ out.old.spare }
    ensures room { length skb.new.rest + 1 ≤ out.new.spare }
{
    if skb.len() > 65536 || skb.push(&HEADER).is_err() {
        return false;
    }
    skb.pull(HEADER.len(), out).is_ok()
}

// The clones that were made.
fn clone_often(skb: &mut Skb, turns: u64, out: &mut Outcomes) -> u64
    ensures rest { length skb.new.rest ≡ length skb.old.rest }
{
    let mut made = 0u64;
    for _ in 0..turns {
        if clone_and_release(skb, out) {
            made = made.wrapping_add(1);
        }
    }
    made
}

// The headers that were put on and taken off.
fn push_often(skb: &mut Skb, turns: u64, out: &mut Outcomes) -> u64
    requires room { length skb.old.rest + 1 ≤ out.old.spare }
    ensures room { length skb.new.rest + 1 ≤ out.new.spare }
{
    let mut made = 0u64;
    for _ in 0..turns {
        if push_and_pull(skb, out) {
            made = made.wrapping_add(1);
        }
    }
    made
}

// The buffer is made and released within the time, which is nothing beside the turns.
fn clone_batch(
    rt: &HostRuntime,
    blocks: u32,
    turns: u64,
    out: &mut Outcomes,
    home: &mut Outcomes,
) -> Result<Duration, Error>
    requires room { (blocks ≤ 16) × (16 ≤ home.old.spare) }
{
    let start = Instant::now(rt)?;
    let mut skb = buffer_of(rt.alloc(), blocks)?;
    let made = clone_often(&mut skb, turns, out);
    skb.release(home);
    let taken = start.elapsed(rt)?;
    if made != turns {
        bail!("a clone was refused");
    }
    Ok(taken)
}

fn time_clone_batch(rt: &HostRuntime, blocks: u32, turns: u64) -> Result<Duration, Error>
    requires few { blocks ≤ 16 }
{
    let mut home = places(rt.alloc(), 16)?;
    let taken = match places(rt.alloc(), 16) {
        Ok(mut out) => {
            let taken = clone_batch(rt, blocks, turns, &mut out, &mut home);
            empty(&mut out);
            out.settle();
            taken
        }
        Err(error) => Err(Error::from(error)),
    };
    empty(&mut home);
    home.settle();
    taken
}

fn time_clones(rt: &HostRuntime, blocks: u32, turns: u64) -> Result<Duration, Error>
    requires few { blocks ≤ 16 }
{
    let mut taken = Duration::ZERO;
    let mut left = turns;
    for _ in 0..turns.div_ceil(MOST_CLONES) {
        let batch = left.min(MOST_CLONES);
        taken = taken.saturating_add(time_clone_batch(rt, blocks, batch)?);
        left -= batch;
    }
    Ok(taken)
}

fn push_batch(rt: &HostRuntime, turns: u64, out: &mut Outcomes) -> Result<Duration, Error>
    requires room { 16 ≤ out.old.spare }
{
    let start = Instant::now(rt)?;
    let mut skb = buffer_of(rt.alloc(), 1)?;
    let made = push_often(&mut skb, turns, out);
    skb.release(out);
    let taken = start.elapsed(rt)?;
    if made != turns {
        bail!("a header was refused");
    }
    Ok(taken)
}

fn time_pushes(rt: &HostRuntime, turns: u64) -> Result<Duration, Error> {
    let mut out = places(rt.alloc(), 16)?;
    let taken = push_batch(rt, turns, &mut out);
    empty(&mut out);
    out.settle();
    taken
}

pub fn measure(rt: &HostRuntime, turns: u64) -> Result<(), Error> {
    let taken = time_clones(rt, 1, turns)?;
    println!(rt; "clone + release, 1 piece: {} ns", taken.as_nanos())?;
    let taken = time_clones(rt, 2, turns)?;
    println!(rt; "clone + release, 2 pieces: {} ns", taken.as_nanos())?;
    let taken = time_clones(rt, 16, turns)?;
    println!(rt; "clone + release, 16 pieces: {} ns", taken.as_nanos())?;
    let taken = time_pushes(rt, turns)?;
    println!(rt; "push + pull, 14 bytes: {} ns", taken.as_nanos())?;
    Ok(())
}
