//! Blocks that go back to others: spares while their round is worked, and what lies on a list once it was written.
ghost use Rattle.std.specs.Prelude.{◌≡◌, ℕ, ◌+◌};
ghost use Rattle.block_pool.specs.Giving.{weights_given, LeavesNone, MayGive};
ghost use Rattle.block_pool.specs.PoolState.{weighed};
ghost use Rattle.rounds.specs.Benches.{IsLent, LeavesNoSpare, Lends, Swaps};

use block_pool::{Giver, Pool};
use std::sync::Wait;

/// A list against the giver's, where there is one.
pub(crate) fn swap_list(giver: &mut Option<Giver>, list: &mut Pool)
    ensures swapped { Swaps giver.old giver.new list.old list.new }
{
    if let Some(giver) = giver {
        giver.swap(list);
    }
}

/// The blocks of a list go to whoever takes lists, by one step, where somebody gives. They stay where the pool is full.
pub fn give_list<R: Wait>(rt: &R, giver: &mut Option<Giver>, list: &mut Pool)
    requires lent { IsLent giver.old }
    ensures named { (h : ℕ → ℕ) → weighed h list.new.blocks + weights_given giver.new h
        ≡ weighed h list.old.blocks + weights_given giver.old h }
    ensures gave { Lends giver.old giver.new }
    ensures none_left { LeavesNoSpare giver.old giver.new list.new.blocks }
{
    swap_list(giver, list);
    give(rt, giver);
    swap_list(giver, list);
}

fn give<R: Wait>(rt: &R, giver: &mut Option<Giver>)
    ensures gave { MayGive giver.old giver.new }
    ensures none_left { LeavesNone giver.old giver.new }
{
    if let Some(own) = giver {
        own.give(rt);
    }
}
