//! Nanoseconds of the turns of pools: a block is taken and put back, with its bytes as they are or filled. A pool that
//! threads share is measured with one pass, and with four on four threads that share the turns.
ghost use Rattle.std.specs.Prelude.{◌≡◌, ◌+◌, ◌<◌, ◌≤◌, All, IfOk};
ghost use Rattle.block_pool.specs.PassState.{IsOwn, IsSame};
ghost use Rattle.block_pool.specs.PoolState.{home};

use anyhow::Error;
use block_pool::shared::Full;
use block_pool::{Pool, PoolPass, SharedPool};
use std::alloc::{AllocError, Global};
use std::rt::Clock;
use std::sync::Wait;
use std::thread;
use std::thread::Threads;
use std::time::{Duration, Instant};

const THREADS: u32 = 4;

fn take_and_put<R: Wait>(rt: &R, pool: &SharedPool, pass: &mut PoolPass)
    requires own { IsOwn pool.now pass.old }
    ensures same { IsSame pass.old pass.new }
{
    if let Ok(block) = pool.take(rt, pass) {
        match pool.put(rt, pass, block) {
            Ok(()) => {}
            Err(Full(_)) => {}
        }
    }
}

fn fill_and_put<R: Wait>(rt: &R, pool: &SharedPool, pass: &mut PoolPass, byte: u8)
    requires own { IsOwn pool.now pass.old }
    ensures same { IsSame pass.old pass.new }
{
    if let Ok(mut block) = pool.take(rt, pass) {
        block.bytes_mut().fill(byte);
        match pool.put(rt, pass, block) {
            Ok(()) => {}
            Err(Full(_)) => {}
        }
    }
}

fn turns_of<R: Wait>(rt: &R, pool: &SharedPool, pass: &mut PoolPass, turns: u64)
    requires own { IsOwn pool.now pass.old }
    ensures own { IsOwn pool.now pass.new }
{
    for _ in 0..turns {
        take_and_put(rt, pool, pass);
    }
}

fn filling_turns_of<R: Wait>(rt: &R, pool: &SharedPool, pass: &mut PoolPass, turns: u64)
    requires own { IsOwn pool.now pass.old }
    ensures own { IsOwn pool.now pass.new }
{
    for turn in 0..turns {
        fill_and_put(rt, pool, pass, (turn % 256) as u8);
    }
}

fn forked(
    alloc: Global,
    pool: &SharedPool,
    pass: &mut PoolPass,
) -> Result<Vec<PoolPass>, AllocError>
    requires own { IsOwn pool.now pass.old × (5 ≤ pass.old.parts) }
    ensures own { IfOk result (λ passes. All (IsOwn pool.now) passes.items) }
{
    let mut passes = Vec::new(alloc);
    for turn in 0..THREADS {
        prove!(turn < THREADS);
        passes.push(pool.fork(pass))?;
    }
    Ok(passes)
}

// Each pass on a thread of its own.
fn turns_of_all<R: Threads + Wait + Sync>(
    rt: &R,
    pool: &SharedPool,
    passes: &mut [PoolPass],
    turns: u64,
)
    requires own { All (IsOwn pool.now) passes.old }
{
    thread::for_each_mut(rt, passes, 4, &|_, pass| turns_of(rt, pool, pass, turns));
}

fn fill_and_put_plain(pool: &mut Pool, byte: u8)
    requires few { home pool.old ≤ pool.old.made }
    ensures same { (home pool.new ≡ home pool.old) × (pool.new.made ≡ pool.old.made) }
{
    if let Ok(mut block) = pool.take() {
        block.bytes_mut().fill(byte);
        pool.put(block);
    }
}

fn time_plain<R: Clock + AllocGlobal>(rt: &R, blocks: u32, turns: u64) -> Result<Duration, Error>
    requires few { blocks ≤ 65536 }
{
    let mut pool = Pool::make(rt.alloc(), blocks)?;
    let start = Instant::now(rt)?;
    for turn in 0..turns {
        fill_and_put_plain(&mut pool, (turn % 256) as u8);
    }
    Ok(start.elapsed(rt)?)
}

// Prints a line for each kind of turn, for a pool of that many blocks.
fn time<R: Clock + Print + AllocGlobal + Threads + Wait + Sync>(
    rt: &R,
    blocks: u32,
    turns: u64,
) -> Result<(), Error>
    requires few { (1 ≤ blocks) × (blocks ≤ 65536) }
{
    let plain = time_plain(rt, blocks, turns)?;
    println!(rt;
        "{blocks} blocks: take + fill + put of a Pool: {} ns",
        plain.as_nanos()
    )?;

    let (pool, mut pass) = SharedPool::make(rt, rt.alloc(), blocks)?;
    let start = Instant::now(rt)?;
    turns_of(rt, &pool, &mut pass, turns);
    let taken = start.elapsed(rt)?;
    println!(rt; "{blocks} blocks: take + put: {} ns", taken.as_nanos())?;

    let start = Instant::now(rt)?;
    filling_turns_of(rt, &pool, &mut pass, turns);
    let taken = start.elapsed(rt)?;
    println!(rt;
        "{blocks} blocks: take + fill + put: {} ns",
        taken.as_nanos()
    )?;

    if pass.parts() < 5 {
        return Ok(());
    }
    let mut passes = forked(rt.alloc(), &pool, &mut pass)?;
    let start = Instant::now(rt)?;
    turns_of_all(rt, &pool, passes.as_mut_slice(), turns / 4);
    let taken = start.elapsed(rt)?;
    println!(rt;
        "{blocks} blocks: take + put, four threads: {} ns",
        taken.as_nanos()
    )?;
    Ok(())
}

/// Prints the turns of pools of 192, 600 and 8,384 blocks.
pub fn measure<R: Clock + Print + AllocGlobal + Threads + Wait + Sync>(
    rt: &R,
    turns: u64,
) -> Result<(), Error> {
    time(rt, 192, turns)?;
    time(rt, 600, turns)?;
    time(rt, 8384, turns)
}
