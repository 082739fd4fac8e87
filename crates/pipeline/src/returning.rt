//! How blocks of rounds go back from the side that works, and how its next round comes.
ghost use Rattle.std.specs.Prelude.{◌≡◌, ◌<◌, ◌≤◌, length, IfOk, MatchOption, OnOk};
ghost use Rattle.block_pool.specs.PoolState.{home};
ghost use Rattle.rounds.specs.Benches.{HasRoom, IsLent, IsSameBench};
ghost use Rattle.rtrb.specs.Ring.{known_items, received, SameConsumer};
ghost use Rattle.pipeline.specs.Parcels.{Fitting, Returns, IsLeft};

use crate::parcel::{Parcel, RoundsInTurn};
use block_pool::{Giver, Pool};
use core::mem::replace;
use crossing::{Handshake, PoolName, has_come};
use rounds::{Bench, give_list};
use rtrb::Consumer;
use std::alloc::{AllocError, Global};
use std::sync::Wait;

/// The blocks of a list go to whoever takes lists, by one step, and an empty one stands in for it. They stay where the
/// pool of lists is full.
pub(crate) fn give_back<R: Wait>(rt: &R, giver: &mut Option<Giver>, list: &mut Pool, empty: Pool)
    requires lent { IsLent giver.old }
    requires empty { home empty ≡ 0 }
    ensures returns { Returns giver.old giver.new list.old list.new }
    ensures left { IsLeft 0 list.new giver.old giver.new }
{
    give_list(rt, giver, list);
    if list.home() == 0 {
        let _none = replace(list, empty);
    }
}

// What found no place is given again.
fn give_again<R: Wait>(rt: &R, alloc: Global, giver: &mut Option<Giver>, list: &mut Pool)
    requires lent { IsLent giver.old }
    ensures returns { Returns giver.old giver.new list.old list.new }
{
    if list.home() > 0 {
        if let Ok(empty) = Pool::empty(alloc, list.made()) {
            give_back(rt, giver, list, empty);
        }
    }
}

// The round that waits, where its blocks have places beside those of a list.
fn take_fitting<N: PoolName>(
    list: &Pool,
    from: &mut Consumer<Parcel, Global, RoundsInTurn<N>>,
) -> Option<Parcel>
    requires waits { 0 < length (known_items from.old) }
    ensures ring { SameConsumer from.old from.new }
    ensures item { MatchOption result (received from.new ≡ received from.old)
        (Fitting N.blocks (received from.old) (received from.new) list.now) }
{
    let next = from.peek_known();
    if list.made() - list.home() < next.read.round.blocks() {
        return None;
    }
    Some(from.pop_known())
}

/// The next round. What found no place in the pool of lists is given again before this thread sleeps. `None` where the
/// round's blocks have no places beside what is left.
pub(crate) fn next_round<N: PoolName, R: Wait>(
    rt: &R,
    alloc: Global,
    giver: &mut Option<Giver>,
    list: &mut Pool,
    from: &mut Consumer<Parcel, Global, RoundsInTurn<N>>,
    handshake: &Handshake,
) -> Option<Parcel>
    requires lent { IsLent giver.old }
    ensures ring { SameConsumer from.old from.new }
    ensures item { MatchOption result (received from.new ≡ received from.old)
        (Fitting N.blocks (received from.old) (received from.new) list.new) }
    ensures returns { Returns giver.old giver.new list.old list.new }
{
    for _ in rt.forever() {
        if has_come(from) {
            return take_fitting(list, from);
        }
        give_again(rt, alloc, giver, list);
        handshake.worker.sleep(rt);
    }
    unreachable!()
}

/// Room for what the next round leaves: at the bench, and an empty list, of the memory that came with a round or of
/// other.
pub(crate) fn make_ready(
    alloc: Global,
    bench: &mut Bench,
    spent: Option<Pool>,
) -> Result<Pool, AllocError>
    ensures empty { IfOk result (λ list. home list ≡ 0) }
    ensures room { OnOk result (HasRoom 0 bench.new) }
    ensures later { bench.old.room ≤ bench.new.room }
    ensures same { IsSameBench bench.old bench.new }
{
    bench.make_room()?;
    let blocks = bench.blocks();
    match spent {
        Some(list) if list.home() == 0 && list.made() == blocks => Ok(list),
        _ => Pool::empty(alloc, blocks),
    }
}
