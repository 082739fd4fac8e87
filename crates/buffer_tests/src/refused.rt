//! Calls that are made again where they were refused memory, and then come to the same.
//!
//! - both machines over one list of events, whose holders outgrow what a list reserves first
//! - a shared pool, all of whose blocks are taken and put back
ghost use Rattle.block_pool.specs.PassState.{IsOwn};

use crate::seeing::assert_same;
use block_pool::shared::{PoolPass, SharedPool};
use ref_core::{Answer, Event, SetMachine, WeightMachine};
use std::alloc::Global;
use std::process::Abort;
use std::sync::Wait;

const BLOCKS: u32 = 3;

const HOLDERS: u32 = 20;

fn set_machine(rt: &impl Abort, alloc: Global) -> SetMachine {
    match SetMachine::make(alloc, BLOCKS) {
        Ok(machine) => machine,
        Err(_) => SetMachine::make(alloc, BLOCKS).expect(rt, "memory"),
    }
}

fn weight_machine(rt: &impl Abort, alloc: Global) -> WeightMachine {
    match WeightMachine::make(alloc, BLOCKS) {
        Ok(machine) => machine,
        Err(_) => WeightMachine::make(alloc, BLOCKS).expect(rt, "memory"),
    }
}

// What both machines answer.
fn answers_of(
    rt: &impl Abort,
    sets: &mut SetMachine,
    weights: &mut WeightMachine,
    event: Event,
) -> (Answer, Answer) {
    let by_sets = match sets.step(event) {
        Ok(answer) => answer,
        Err(_) => sets.step(event).expect(rt, "memory"),
    };
    let by_weights = match weights.step(event) {
        Ok(answer) => answer,
        Err(_) => weights.step(event).expect(rt, "memory"),
    };
    (by_sets, by_weights)
}

// Both answer so.
fn are_answered(
    rt: &impl Abort,
    sets: &mut SetMachine,
    weights: &mut WeightMachine,
    event: Event,
    answer: Answer,
) {
    assert_same(rt, &answers_of(rt, sets, weights, event), &(answer, answer));
}

#[test]
fn machines_are_asked_again(rt: HostRuntime) {
    let mut sets = set_machine(&rt, rt.alloc());
    let mut weights = weight_machine(&rt, rt.alloc());
    let take = Event::Take {
        block: 0,
        holder: 0,
    };
    are_answered(&rt, &mut sets, &mut weights, take, Answer::Done);
    for fresh in 1..HOLDERS {
        let share = Event::Share {
            holder: 0,
            fresh,
            give: 1,
        };
        are_answered(&rt, &mut sets, &mut weights, share, Answer::Done);
    }
    for holder in 1..HOLDERS {
        let back = Event::GiveBack { holder };
        are_answered(&rt, &mut sets, &mut weights, back, Answer::Left);
    }
    let back = Event::GiveBack { holder: 0 };
    are_answered(&rt, &mut sets, &mut weights, back, Answer::Last);
}

fn shared_pool<R: Abort + Wait>(rt: &R, alloc: Global) -> (SharedPool, PoolPass)
    ensures own { IsOwn result.0 result.1 }
{
    match SharedPool::make(rt, alloc, BLOCKS) {
        Ok(pool) => pool,
        Err(_) => SharedPool::make(rt, alloc, BLOCKS).expect(rt, "memory"),
    }
}

// How many blocks are taken before the pool is empty, all of which are put back.
fn taken_and_put<R: Wait>(rt: &R, pool: &SharedPool, pass: &mut PoolPass) -> Option<u64>
    requires own { IsOwn pool.now pass.old }
{
    let first = pool.take(rt, pass).ok()?;
    let second = pool.take(rt, pass).ok()?;
    let third = pool.take(rt, pass).ok()?;
    let empty = pool.take(rt, pass).err()?;
    pool.put(rt, pass, first).ok()?;
    pool.put(rt, pass, second).ok()?;
    pool.put(rt, pass, third).ok()?;
    Some(empty.takes())
}

#[test]
fn a_shared_pool_is_made_again(rt: HostRuntime) {
    let (pool, mut pass) = shared_pool(&rt, rt.alloc());
    let taken = taken_and_put(&rt, &pool, &mut pass);
    assert_same(&rt, &(taken, pass.takes(), pass.puts()), &(Some(3), 3, 3));
}
