//! The pool by which lists of blocks come home while the other blocks of their round are out.
ghost use Rattle.std.specs.Prelude.{◌≡◌, ℕ, ◌+◌, ◌-◌, ◌≤◌, ◌^◌, [], length, min};
ghost use Rattle.std.specs.Arc.{arc_value};
ghost use Rattle.block_pool.specs.Giving.{given_by, weights_given};
ghost use Rattle.block_pool.specs.Listed.{blocks_in};
ghost use Rattle.block_pool.specs.PassState.{IsOwn};
ghost use Rattle.block_pool.specs.PoolState.{home, weighed};
ghost use Rattle.block_supply.specs.Lists.{HasGiver, weights_listed};
ghost use Rattle.rounds.specs.Benches.{fulls_by};

use crate::intake::Intake;
use block_pool::{Giver, ListPass, ListPool};
use block_supply::Taker;
use std::sync::Wait;

// Lists that nobody took come home, by the pass that has all parts.
fn drain<R: Wait>(rt: &R, lists: &ListPool, pass: &mut ListPass, intake: &mut Intake)
    requires own { IsOwn lists.now pass.old }
    requires all { pass.old.parts ≡ 65536 }
    requires made { pass.old.made ≡ [] }
    requires room { length intake.old.stock + blocks_in pass.old.put ≤ intake.old.blocks + blocks_in pass.old.taken }
    ensures same { intake.new ≡ record intake.old { stock = intake.new.stock } }
    ensures home { length intake.new.stock + blocks_in pass.old.taken
        ≡ length intake.old.stock + blocks_in pass.old.put }
    ensures named { (h : ℕ → ℕ) → weighed h intake.new.stock + weights_listed h pass.old.taken
        ≡ weighed h intake.old.stock + weights_listed h pass.old.put }
    ensures rises { length intake.old.stock ≤ length intake.new.stock }
{
    let mut waiting = lists.home(rt, pass);
    while waiting > 0 {
        let Ok(list) = lists.take(rt, pass) else {
            unreachable!()
        };
        waiting = lists.home(rt, pass);
        intake.bring_in(list.into_pool());
    }
}

/// All blocks of lists come home, once both sides have ended: those that were given, but for those that were taken. How
/// often a take found none is told too, and answered how often a put found no place.
pub fn bring_lists<R: Wait>(rt: &R, intake: &mut Intake, taker: Taker, giver: Option<Giver>) -> u64
    requires giver { HasGiver (arc_value taker.lists) giver }
    requires room { length intake.old.stock + home taker.left + given_by giver
        ≤ intake.old.blocks + blocks_in taker.pass.taken }
    ensures same { intake.new ≡ record intake.old { stock = intake.new.stock; empties = intake.new.empties } }
    ensures later { intake.old.empties ≤ intake.new.empties }
    ensures empties { intake.new.empties ≡ min (intake.old.empties + taker.pass.empties) (2 ^ 64 - 1) }
    ensures home { length intake.new.stock + blocks_in taker.pass.taken
        ≡ length intake.old.stock + home taker.left + given_by giver }
    ensures named { (h : ℕ → ℕ) → weighed h intake.new.stock + weights_listed h taker.pass.taken
        ≡ weighed h intake.old.stock + weighed h taker.left.blocks + weights_given giver h }
    ensures rises { length intake.old.stock ≤ length intake.new.stock }
    ensures fulls { result ≡ fulls_by giver }
{
    let Some(giver) = giver else { unreachable!() };
    let (lists, mut pass, left) = taker.open();
    intake.empties = intake.empties.saturating_add(pass.empties());
    let (_pool, theirs, _none) = giver.open();
    let refused = theirs.fulls();
    lists.gather(rt, theirs, &mut pass);
    drain(rt, &lists, &mut pass, intake);
    intake.bring_in(left);
    refused
}
