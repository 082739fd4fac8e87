//! What comes home once both sides have ended.
ghost use Rattle.std.specs.Prelude.{◌≡◌, ℕ, ◌+◌, ◌-◌, ◌≤◌, ◌^◌, length, min};
ghost use Rattle.std.specs.Arc.{arc_value};
ghost use Rattle.block_pool.specs.Giving.{given_by, weights_given};
ghost use Rattle.block_pool.specs.Listed.{blocks_in};
ghost use Rattle.block_pool.specs.PoolState.{home, weighed};
ghost use Rattle.rtrb.specs.Ring.{known_items};
ghost use Rattle.block_supply.specs.Lists.{HasGiver, weights_listed};
ghost use Rattle.rounds.specs.Benches.{fulls_by};
ghost use Rattle.pipeline.specs.Parcels.{blocks_sent, weights_sent};

use crate::parcel::{Parcel, RoundsInTurn};
use block_pool::{Giver, Pool};
use block_supply::Taker;
use crossing::PoolName;
use rounds::{Intake, RoundRead, Rounds, bring_lists};
use rtrb::Consumer;
use std::alloc::Global;
use std::sync::Wait;

/// The rounds that nobody worked.
pub(crate) fn drop_parcels<N: PoolName>(
    rounds: &mut Rounds,
    from: &mut Consumer<Parcel, Global, RoundsInTurn<N>>,
)
    requires room { length rounds.old.stock + blocks_sent (known_items from.old) ≤ rounds.old.blocks }
    ensures same { rounds.new ≡ record rounds.old { stock = rounds.new.stock } }
    ensures named { (h : ℕ → ℕ) → weighed h rounds.new.stock
        ≡ weighed h rounds.old.stock + weights_sent h (known_items from.old) }
{
    while from.cached_slots() > 0 {
        let (_, RoundRead { round, end: _ }, _spent) = from.pop_known().open();
        let _ = round.blocks();
        rounds.drop_round(round);
    }
}

/// All blocks come home that lie in lists, wherever these are: in the pool of lists, or with the side that worked. The
/// answer is how many puts of that side found no place.
pub(crate) fn bring_home<R: Wait>(
    rt: &R,
    intake: &mut Intake,
    list: Pool,
    taker: Taker,
    giver: Option<Giver>,
) -> u64
    requires giver { HasGiver (arc_value taker.lists) giver }
    requires room { length intake.old.stock + home list + home taker.left + given_by giver
        ≤ intake.old.blocks + blocks_in taker.pass.taken }
    ensures same { intake.new ≡ record intake.old { stock = intake.new.stock; empties = intake.new.empties } }
    ensures empties { intake.new.empties ≡ min (intake.old.empties + taker.pass.empties) (2 ^ 64 - 1) }
    ensures named { (h : ℕ → ℕ) → weighed h intake.new.stock + weights_listed h taker.pass.taken
        ≡ weighed h intake.old.stock + weighed h list.blocks + weighed h taker.left.blocks + weights_given giver h }
    ensures least { length intake.old.stock + home list ≤ length intake.new.stock }
    ensures fulls { result ≡ fulls_by giver }
{
    let refused = bring_lists(rt, intake, taker, giver);
    intake.bring_in(list);
    refused
}
