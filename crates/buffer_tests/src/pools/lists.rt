//! Blocks that come and go list by list.
//!
//! - one place: a list of no block isn't put, a second list is `Full`, and the blocks of the first are taken after one
//!   step
//! - two threads: lists go to and fro 100,000 times, and at the end every block is there, once
ghost use Rattle.std.specs.Prelude.{◌≡◌, ◌+◌, ◌≤◌, IfOk};
ghost use Rattle.block_pool.specs.PassState.{IsOwn, IsSame};

use crate::seeing::assert_same;
use block_pool::lists::{put_all, take_block};
use block_pool::{ListPass, ListPool, Pool};
use raw_block::Sole;
use std::sync::Wait;
use std::thread;
use std::thread::Threads;

// A block, where a place is left for an emptied list.
fn next<R: Wait>(
    rt: &R,
    pool: &ListPool,
    pass: &mut ListPass,
    hand: &mut Pool,
    spent: &mut Vec<Pool>,
) -> Option<Sole>
    requires own { IsOwn pool.now pass.old }
    ensures same { IsSame pass.old pass.new }
{
    if spent.len() >= spent.capacity() {
        return None;
    }
    take_block(rt, pool, pass, hand, spent).ok()
}

// How many blocks can be taken.
fn count_blocks<R: Wait>(
    rt: &R,
    pool: &ListPool,
    pass: &mut ListPass,
    hand: &mut Pool,
    spent: &mut Vec<Pool>,
) -> u32
    requires own { IsOwn pool.now pass.old }
    ensures same { IsSame pass.old pass.new }
{
    let mut taken = 0u32;
    for _ in 0..10 {
        if next(rt, pool, pass, hand, spent).is_none() {
            return taken;
        }
        taken = taken.saturating_add(1);
    }
    taken
}

// The blocks of a list that comes back, because it has none or the pool was full.
fn give<R: Wait>(rt: &R, pool: &ListPool, pass: &mut ListPass, list: Pool) -> Option<u32>
    requires own { IsOwn pool.now pass.old }
    ensures same { IsSame pass.old pass.new }
{
    put_all(rt, pool, pass, list).map(|back| back.home())
}

#[test]
fn a_list_comes_and_goes_by_one_step(rt: HostRuntime) {
    let (pool, mut pass) = ListPool::open(rt.alloc(), 1).expect(&rt, "no memory");
    let mut hand = Pool::empty(rt.alloc(), 1).expect(&rt, "no memory");
    let mut spent = Vec::with_capacity(rt.alloc(), 4).expect(&rt, "no memory");
    let sizes = (pool.made(), pool.places());
    let none = Pool::empty(rt.alloc(), 2).expect(&rt, "no memory");
    let three = Pool::make(rt.alloc(), 3).expect(&rt, "no memory");
    let two = Pool::make(rt.alloc(), 2).expect(&rt, "no memory");
    let given = [
        give(&rt, &pool, &mut pass, none),
        give(&rt, &pool, &mut pass, three),
        give(&rt, &pool, &mut pass, two),
    ];
    let blocks = count_blocks(&rt, &pool, &mut pass, &mut hand, &mut spent);
    let counts = [pass.takes(), pass.puts(), pass.empties(), pass.fulls()];
    assert_same(
        &rt,
        &(sizes, given, blocks, spent.len(), counts),
        &((0, 1), [Some(0), None, Some(2)], 3, 1, [1; 4]),
    );
}

// A thread's pass of the pool that its lists come from, and of the one that they go to.
#[derive(Drop)]
struct Side {
    from: ListPass,
    to: ListPass,
    blocks: u64,
}

// Takes a list, if one is home, and passes it on.
fn pass_one<R: Wait>(rt: &R, from: &ListPool, to: &ListPool, side: &mut Side)
    requires own { IsOwn from.now side.old.from × IsOwn to.now side.old.to }
    ensures own { IsOwn from.now side.new.from × IsOwn to.now side.new.to }
{
    if let Ok(list) = from.take(rt, &mut side.from) {
        let list = list.into_pool();
        side.blocks = side.blocks.saturating_add(list.home() as u64);
        let _ = put_all(rt, to, &mut side.to, list);
    }
}

fn pass_on<R: Wait>(rt: &R, from: &ListPool, to: &ListPool, side: &mut Side)
    requires own { IsOwn from.now side.old.from × IsOwn to.now side.old.to }
    ensures own { IsOwn from.now side.new.from × IsOwn to.now side.new.to }
{
    for _ in 0..100_000 {
        pass_one(rt, from, to, side);
    }
}

fn to_and_fro<R: Threads + Wait + Sync>(
    rt: &R,
    there: &ListPool,
    back: &ListPool,
    first: &mut Side,
    second: &mut Side,
)
    requires first { IsOwn there.now first.old.from × IsOwn back.now first.old.to }
    requires second { IsOwn back.now second.old.from × IsOwn there.now second.old.to }
    ensures first { IsOwn there.now first.new.from × IsOwn back.now first.new.to }
    ensures second { IsOwn back.now second.new.from × IsOwn there.now second.new.to }
{
    thread::join_mut(
        rt,
        &mut || pass_on(rt, there, back, first),
        &mut || pass_on(rt, back, there, second),
    );
}

// All blocks of the lists that are home.
fn blocks_home<R: Wait>(rt: &R, pool: &ListPool, pass: &mut ListPass) -> u32
    requires own { IsOwn pool.now pass.old }
    ensures same { IsSame pass.old pass.new }
{
    let mut count = 0u32;
    for _ in 0..8 {
        if let Ok(list) = pool.take(rt, pass) {
            count = count.saturating_add(list.into_pool().home());
        }
    }
    count
}

#[test]
fn lists_go_to_and_fro(rt: HostRuntime) {
    let (there, mut there_pass) = ListPool::open(rt.alloc(), 4).expect(&rt, "no memory");
    let (back, mut back_pass) = ListPool::open(rt.alloc(), 4).expect(&rt, "no memory");
    let three = Pool::make(rt.alloc(), 3).expect(&rt, "no memory");
    let five = Pool::make(rt.alloc(), 5).expect(&rt, "no memory");
    let given = [
        give(&rt, &there, &mut there_pass, three),
        give(&rt, &there, &mut there_pass, five),
    ];
    if there_pass.parts() < 2 || back_pass.parts() < 2 {
        return;
    }
    let mut first = Side {
        from: there.fork(&mut there_pass),
        to: back.fork(&mut back_pass),
        blocks: 0,
    };
    let mut second = Side {
        from: back_pass,
        to: there_pass,
        blocks: 0,
    };
    to_and_fro(&rt, &there, &back, &mut first, &mut second);
    let Side { from, to, blocks } = first;
    there.gather(&rt, from, &mut second.to);
    back.gather(&rt, to, &mut second.from);
    let in_there = blocks_home(&rt, &there, &mut second.to);
    let in_back = blocks_home(&rt, &back, &mut second.from);
    assert_same(
        &rt,
        &(given, blocks > 0, in_there.saturating_add(in_back)),
        &([None; 2], true, 8),
    );
}
