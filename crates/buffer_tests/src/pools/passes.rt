//! Passes of a shared pool, on one thread and on several.
//!
//! - one block, one pass: it is taken and comes home, and both refusals are counted
//! - two blocks, a forked pass: it takes both and then finds none
//! - four threads take and put 100,000 times each: at the end every block is home, once
//! - a reader takes beside four threads that put
ghost use Rattle.std.specs.Prelude.{◌≡◌, ◌+◌, ◌<◌, ◌≤◌, All, IfOk};
ghost use Rattle.block_pool.specs.PassState.{IsOwn, IsSame};

use crate::seeing::assert_same;
use block_pool::shared::{Full, PoolPass, SharedPool};
use raw_block::Sole;
use std::alloc::{AllocError, Global};
use std::sync::Wait;
use std::thread;
use std::thread::Threads;

const THREADS: u32 = 4;

// The takes that were done when a take was Empty, and whether a put of a fresh block was Full.
fn one_block<R: Wait>(
    rt: &R,
    pool: &SharedPool,
    pass: &mut PoolPass,
    fresh: Sole,
) -> Option<(u64, bool)>
    requires own { IsOwn pool.now pass.old }
{
    let block = pool.take(rt, pass).ok()?;
    let empty = pool.take(rt, pass).err()?;
    pool.put(rt, pass, block).ok()?;
    let block = pool.take(rt, pass).ok()?;
    pool.put(rt, pass, block).ok()?;
    let Full(fresh) = pool.put(rt, pass, fresh).err()?;
    Some((empty.takes(), fresh.mark() == 7))
}

#[test]
fn one_block_is_taken_and_comes_home(rt: HostRuntime) {
    let (pool, mut pass) = SharedPool::make(&rt, rt.alloc(), 1).expect(&rt, "no memory");
    let mut fresh = Sole::new(rt.alloc()).expect(&rt, "no memory");
    fresh.set_mark(7);
    let sizes = (pool.made(), pass.parts());
    let seen = one_block(&rt, &pool, &mut pass, fresh);
    let counts = [pass.takes(), pass.puts(), pass.empties(), pass.fulls()];
    assert_same(
        &rt,
        &(sizes, seen, counts),
        &((1, 65_536), Some((1, true)), [2, 2, 1, 1]),
    );
}

// Takes two blocks, and the takes that were done when the third was Empty.
fn two_blocks<R: Wait>(rt: &R, pool: &SharedPool, pass: &mut PoolPass) -> Option<(Sole, Sole, u64)>
    requires own { IsOwn pool.now pass.old }
    ensures same { IsSame pass.old pass.new }
{
    let first = pool.take(rt, pass).ok()?;
    let second = pool.take(rt, pass).ok()?;
    let empty = pool.take(rt, pass).err()?;
    Some((first, second, empty.takes()))
}

// The takes that were done, once both blocks are freed.
fn takes_of(taken: Option<(Sole, Sole, u64)>) -> Option<u64> {
    match taken {
        Some((_, _, takes)) => Some(takes),
        None => None,
    }
}

// How many blocks are home, where the pass has all parts.
fn home<R: Wait>(rt: &R, pool: &SharedPool, pass: &mut PoolPass) -> Option<usize>
    requires own { IsOwn pool.now pass.old }
    ensures same { IsSame pass.old pass.new }
{
    if pass.parts() < 65_536 {
        return None;
    }
    Some(pool.home(rt, pass))
}

#[test]
fn a_forked_pass_finds_the_pool_empty(rt: HostRuntime) {
    let (pool, mut pass) = SharedPool::make(&rt, rt.alloc(), 2).expect(&rt, "no memory");
    let mut forked = pool.fork(&mut pass);
    let parts = [pass.parts(), forked.parts()];
    let taken = two_blocks(&rt, &pool, &mut forked);
    let beside = [forked.takes(), forked.empties(), pass.empties()];
    let before = home(&rt, &pool, &mut pass);
    pool.gather(&rt, forked, &mut pass);
    let gathered = (pass.parts(), pass.takes(), pass.empties());
    let homes = [before, home(&rt, &pool, &mut pass)];
    assert_same(
        &rt,
        &(parts, takes_of(taken), beside, gathered, homes),
        &(
            [65_535, 1],
            Some(2),
            [2, 1, 0],
            (65_536, 2, 1),
            [None, Some(0)],
        ),
    );
}

// Marks the blocks from 0 on, as each goes to the back.
fn mark_each<R: Wait>(rt: &R, pool: &SharedPool, pass: &mut PoolPass)
    requires own { IsOwn pool.now pass.old }
    ensures same { IsSame pass.old pass.new }
{
    for mark in 0..pool.made() {
        if let Ok(mut block) = pool.take(rt, pass) {
            block.set_mark(mark);
            if pool.put(rt, pass, block).is_err() {
                return;
            }
        }
    }
}

// The marks of the blocks that are home, sorted.
fn marks<R: Wait>(
    rt: &R,
    alloc: Global,
    pool: &SharedPool,
    pass: &mut PoolPass,
) -> Result<Vec<u32>, AllocError>
    requires own { IsOwn pool.now pass.old }
{
    let mut marks = Vec::new(alloc);
    for _ in 0..pool.made() {
        if let Ok(block) = pool.take(rt, pass) {
            marks.push(block.mark())?;
        }
    }
    marks.sort()?;
    Ok(marks)
}

fn forked(
    alloc: Global,
    pool: &SharedPool,
    pass: &mut PoolPass,
) -> Result<Vec<PoolPass>, AllocError>
    requires own { IsOwn pool.now pass.old × (5 ≤ pass.old.parts) }
    ensures own { IsOwn pool.now pass.new }
    ensures all { IfOk result (λ passes. All (IsOwn pool.now) passes.items) }
{
    let mut passes = Vec::new(alloc);
    for turn in 0..THREADS {
        prove!(turn < THREADS);
        passes.push(pool.fork(pass))?;
    }
    Ok(passes)
}

fn gather_all<R: Wait>(rt: &R, pool: &SharedPool, mut passes: Vec<PoolPass>, kept: &mut PoolPass)
    requires own { IsOwn pool.now kept.old × All (IsOwn pool.now) passes.items }
    ensures own { IsOwn pool.now kept.new }
{
    while let Some(pass) = passes.pop() {
        pool.gather(rt, pass, kept);
    }
}

// A block is taken and put back, if one is home.
fn turn<R: Wait>(rt: &R, pool: &SharedPool, pass: &mut PoolPass)
    requires own { IsOwn pool.now pass.old }
    ensures same { IsSame pass.old pass.new }
{
    if let Ok(block) = pool.take(rt, pass) {
        match pool.put(rt, pass, block) {
            Ok(()) => {}
            Err(Full(_)) => {}
        }
    }
}

fn turns<R: Wait>(rt: &R, pool: &SharedPool, pass: &mut PoolPass)
    requires own { IsOwn pool.now pass.old }
    ensures own { IsOwn pool.now pass.new }
{
    for _ in 0..100_000 {
        turn(rt, pool, pass);
    }
}

fn turns_of_all<R: Threads + Wait + Sync>(rt: &R, pool: &SharedPool, passes: &mut [PoolPass])
    requires all { All (IsOwn pool.now) passes.old }
    ensures all { All (IsOwn pool.now) passes.new }
{
    thread::for_each_mut(rt, passes, 4, &|_, pass| turns(rt, pool, pass));
}

#[test]
fn four_threads_lose_no_block(rt: HostRuntime) {
    let (pool, mut pass) = SharedPool::make(&rt, rt.alloc(), 3).expect(&rt, "no memory");
    mark_each(&rt, &pool, &mut pass);
    let mut passes = forked(rt.alloc(), &pool, &mut pass).expect(&rt, "no memory");
    turns_of_all(&rt, &pool, passes.as_mut_slice());
    gather_all(&rt, &pool, passes, &mut pass);
    let homes = home(&rt, &pool, &mut pass);
    let takes = pass.takes();
    let asked = takes.checked_add(pass.empties());
    let counts = (asked, takes == pass.puts(), pass.fulls());
    let marks = marks(&rt, rt.alloc(), &pool, &mut pass).expect(&rt, "no memory");
    assert_same(
        &rt,
        &(homes, counts, marks.as_slice()),
        &(Some(3), (Some(400_003), true, 0), [0u32, 1, 2].as_slice()),
    );
}

// A thread's pass, and the blocks that it is to put.
#[derive(Drop)]
struct Giver {
    pass: PoolPass,
    blocks: Vec<Sole>,
}

// Takes 100 blocks for a thread that is to put them.
fn with_blocks<R: Wait>(
    rt: &R,
    alloc: Global,
    pool: &SharedPool,
    pass: &mut PoolPass,
) -> Result<Giver, AllocError>
    requires own { IsOwn pool.now pass.old × (2 ≤ pass.old.parts) }
    ensures kept { IsOwn pool.now pass.new × (pass.old.parts ≤ pass.new.parts + 1) }
    ensures giver { IfOk result (λ giver. IsOwn pool.now giver.pass) }
{
    let mut blocks = Vec::new(alloc);
    for _ in 0..100 {
        if let Ok(block) = pool.take(rt, pass) {
            blocks.push(block)?;
        }
    }
    let forked = pool.fork(pass);
    Ok(Giver {
        pass: forked,
        blocks,
    })
}

fn four_givers<R: Wait>(
    rt: &R,
    alloc: Global,
    pool: &SharedPool,
    pass: &mut PoolPass,
) -> Result<Vec<Giver>, AllocError>
    requires own { IsOwn pool.now pass.old × (5 ≤ pass.old.parts) }
    ensures own { IsOwn pool.now pass.new }
    ensures all { IfOk result (λ givers. All (λ giver. IsOwn pool.now giver.pass) givers.items) }
{
    let mut givers = Vec::new(alloc);
    for turn in 0..THREADS {
        prove!(turn < THREADS);
        let one = with_blocks(rt, alloc, pool, pass)?;
        givers.push(one)?;
    }
    Ok(givers)
}

fn give<R: Wait>(rt: &R, pool: &SharedPool, giver: &mut Giver)
    requires own { IsOwn pool.now giver.old.pass }
    ensures own { IsOwn pool.now giver.new.pass }
{
    while let Some(block) = giver.blocks.pop() {
        match pool.put(rt, &mut giver.pass, block) {
            Ok(()) => {}
            Err(Full(_)) => {}
        }
    }
}

fn give_all<R: Threads + Wait + Sync>(rt: &R, pool: &SharedPool, givers: &mut [Giver])
    requires all { All (λ giver. IsOwn pool.now giver.pass) givers.old }
    ensures all { All (λ giver. IsOwn pool.now giver.pass) givers.new }
{
    thread::for_each_mut(rt, givers, 4, &|_, giver| give(rt, pool, giver));
}

// The marks of 400 blocks as they come home.
fn read_all<R: Wait>(
    rt: &R,
    alloc: Global,
    pool: &SharedPool,
    pass: &mut PoolPass,
) -> Result<Vec<u32>, AllocError>
    requires own { IsOwn pool.now pass.old }
    ensures own { IsOwn pool.now pass.new }
{
    let mut marks = Vec::with_capacity(alloc, 400)?;
    for _ in rt.forever() {
        if marks.len() >= 400 {
            break;
        }
        match pool.take(rt, pass) {
            Ok(block) => marks.push(block.mark())?,
            Err(_) => thread::yield_now(),
        }
    }
    Ok(marks)
}

fn give_and_read<R: Threads + Wait + Sync>(
    rt: &R,
    alloc: Global,
    pool: &SharedPool,
    givers: &mut [Giver],
    pass: &mut PoolPass,
) -> Result<Vec<u32>, AllocError>
    requires own { IsOwn pool.now pass.old × All (λ giver. IsOwn pool.now giver.pass) givers.old }
    ensures own { IsOwn pool.now pass.new × All (λ giver. IsOwn pool.now giver.pass) givers.new }
{
    let ((), marks) = thread::join_mut(
        rt,
        &mut ||
            requires all { All (λ giver. IsOwn pool.now giver.pass) givers.now }
            ensures all { All (λ giver. IsOwn pool.entry.now giver.pass) givers.exit.now }
        { give_all(rt, pool, givers) },
        &mut || read_all(rt, alloc, pool, pass),
    );
    marks
}

fn gather_givers<R: Wait>(rt: &R, pool: &SharedPool, mut givers: Vec<Giver>, kept: &mut PoolPass)
    requires own { IsOwn pool.now kept.old × All (λ giver. IsOwn pool.now giver.pass) givers.items }
    ensures own { IsOwn pool.now kept.new }
{
    while let Some(Giver { pass, blocks: _ }) = givers.pop() {
        pool.gather(rt, pass, kept);
    }
}

#[test]
fn a_reader_takes_what_four_threads_put(rt: HostRuntime) {
    let (pool, mut pass) = SharedPool::make(&rt, rt.alloc(), 400).expect(&rt, "no memory");
    mark_each(&rt, &pool, &mut pass);
    let mut givers = four_givers(&rt, rt.alloc(), &pool, &mut pass).expect(&rt, "no memory");
    let before = pass.takes();
    let mut marks = give_and_read(&rt, rt.alloc(), &pool, givers.as_mut_slice(), &mut pass).expect(
        &rt,
        "no memory",
    );
    gather_givers(&rt, &pool, givers, &mut pass);
    marks.sort().expect(&rt, "no memory");
    let homes = home(&rt, &pool, &mut pass);
    let counts = [before, pass.takes(), pass.puts(), pass.fulls()];
    assert_same(
        &rt,
        &(marks.iter().copied().eq(0..400), homes, counts),
        &(true, Some(0), [800, 1200, 800, 0]),
    );
}
