//! The places that items need, made before anything moves.
ghost use Rattle.std.specs.Prelude.{◌≡◌, ◌+◌, ◌*◌, ◌<◌, ◌≤◌, ◌^◌, [], length, IfOk, OnOk, OnErr};
ghost use Rattle.std.specs.List.{AllByRecursion};
ghost use Rattle.frags.specs.OutcomesState.{IsBare};
ghost use Rattle.gro_table.specs.Build.{pieces_in};
ghost use Rattle.frame_runs.specs.Chains.{indices};
ghost use Rattle.gro_table.specs.Held.{counts_of};
ghost use Rattle.gro_table.specs.Places.{AreBare, IsEmpty, AreEmpty, AreSeveral, IsPlaceOf, ArePlacesOf};
ghost use Rattle.gro_table.specs.Lists.{held_of, ArePaired};
ghost use Rattle.gro_table.specs.Waiting.{run_held, held_in, AreTogether};

use crate::packet_list::PacketList;
use frags::{Outcomes, PieceBuilder};
use frame_runs::{Engine, Run};
use std::alloc::{AllocError, Global};
use std::collections::VecDeque;

/// The places that a run's item needs.
pub(crate) enum Places {
    /// For both spares of a packet that is alone.
    Alone(Outcomes),
    /// For the pieces of packets that are merged, and for what they give back.
    Several(PieceBuilder, Outcomes),
}

// Gives places up that nothing has been moved into.
fn give_up(places: Places)
    requires empty { IsEmpty places }
{
    match places {
        Places::Alone(outcomes) => outcomes.settle(),
        Places::Several(pieces, outcomes) => {
            pieces.finish().discard();
            outcomes.settle();
        }
    }
}

/// Gives all places up that nothing has been moved into.
pub(crate) fn give_all_up(all: &mut VecDeque<Places>)
    requires empty { AreEmpty all.old.items }
    ensures none { all.new.items ≡ [] }
{
    while let Some(places) = all.pop_front() {
        give_up(places);
    }
}

// How many pieces the buffers of a run's packets come to: one for each head, and those behind it.
fn count_pieces(list: &PacketList, next: &[u32], run: &Run) -> usize
    requires paired { ArePaired list.now }
    requires linked { length list.now.slots.items ≤ length next.now }
    requires inside { AllByRecursion (λ k. k < length list.now.slots.items) (indices next.now run.now) }
    requires few { pieces_in (run_held list.now next.now run.now) < 2 ^ 63 }
    ensures pieces { result ≡ pieces_in (run_held list.now next.now run.now) }
{
    let mut count = 0;
    let mut k = run.first;
    let mut left = run.more as usize + 1;
    while left > 0 {
        count += list.slots[k as usize].skb.count();
        k = next[k as usize];
        left -= 1;
    }
    count
}

// How many blocks may be free beside a run's item: two spares and a head of each packet.
fn free_for(run: &Run) -> usize
    requires few { run.now.more < 2 ^ 32 }
    ensures free { result ≡ 3 * (run.now.more + 1) }
{
    3 * (run.more as usize + 1)
}

// Outcomes that hold nothing: the memory of earlier ones, where there are any.
fn first_of(alloc: Global, shelf: &mut VecDeque<Outcomes>) -> Outcomes
    requires bare { AreBare shelf.old.items }
    ensures bare { AreBare shelf.new.items }
    ensures empty { IsBare result }
{
    match shelf.pop_front() {
        Some(outcomes) => outcomes,
        None => Outcomes::new(alloc),
    }
}

// Outcomes that hold nothing, with room for n.
fn room_of(alloc: Global, shelf: &mut VecDeque<Outcomes>, n: usize) -> Result<Outcomes, AllocError>
    requires bare { AreBare shelf.old.items }
    ensures bare { AreBare shelf.new.items }
    ensures empty { IfOk result IsBare }
    ensures room { IfOk result (λ out. n ≤ out.spare) }
{
    let mut outcomes = first_of(alloc, shelf);
    match outcomes.reserve(n) {
        Ok(()) => Ok(outcomes),
        Err(error) => {
            outcomes.settle();
            Err(error)
        }
    }
}

// The places of packets that are merged.
fn several(
    alloc: Global,
    shelf: &mut VecDeque<Outcomes>,
    count: usize,
    free: usize,
) -> Result<Places, AllocError>
    requires bare { AreBare shelf.old.items }
    ensures bare { AreBare shelf.new.items }
    ensures places { IfOk result (λ p. AreSeveral count free p) }
{
    let outcomes = room_of(alloc, shelf, free)?;
    match PieceBuilder::with_room(alloc, count) {
        Ok(pieces) => Ok(Places::Several(pieces, outcomes)),
        Err(error) => {
            outcomes.settle();
            Err(error)
        }
    }
}

// The places that a run's item needs.
fn places_of(
    alloc: Global,
    shelf: &mut VecDeque<Outcomes>,
    list: &PacketList,
    next: &[u32],
    run: &Run,
) -> Result<Places, AllocError>
    requires bare { AreBare shelf.old.items }
    requires paired { ArePaired list.now }
    requires linked { length list.now.slots.items ≤ length next.now }
    requires inside { AllByRecursion (λ k. k < length list.now.slots.items) (indices next.now run.now) }
    requires few { pieces_in (run_held list.now next.now run.now) < 2 ^ 63 }
    requires more { length (run_held list.now next.now run.now) ≡ run.now.more + 1 }
    ensures bare { AreBare shelf.new.items }
    ensures places { IfOk result (λ p. IsPlaceOf (run_held list.now next.now run.now) p) }
{
    if run.more == 0 {
        return Ok(Places::Alone(room_of(alloc, shelf, 2)?));
    }
    let count = count_pieces(list, next, run);
    several(alloc, shelf, count, free_for(run))
}

/// The places that all runs' items need, in outcomes off the shelf where there are any. Where there is no memory for
/// some, all are given up.
pub(crate) fn all_places(
    alloc: Global,
    shelf: &mut VecDeque<Outcomes>,
    list: &PacketList,
    engine: &Engine,
    all: &mut VecDeque<Places>,
) -> Result<(), AllocError>
    requires bare { AreBare shelf.old.items }
    requires together { AreTogether list.now engine.now }
    requires few { counts_of (held_of list.now) < 2 ^ 63 }
    requires none { all.old.items ≡ [] }
    ensures bare { AreBare shelf.new.items }
    ensures places { OnOk result (ArePlacesOf (held_in list.now engine.now) all.new.items) }
    ensures back { OnErr result (all.new.items ≡ []) }
{
    all.reserve(engine.runs.len())?;
    for i in 0..engine.runs.len() {
        let Ok(places) = places_of(alloc, shelf, list, &engine.next, &engine.runs[i]) else {
            give_all_up(all);
            return Err(AllocError);
        };
        all.push_back_reserved(places);
    }
    Ok(())
}
