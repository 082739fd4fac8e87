//! What came back of a round's blocks, by their marks.
ghost use Rattle.std.specs.Prelude.{◌≡◌, ℕ, ◌+◌, ◌<◌, ◌≤◌, [], length};
ghost use Rattle.block_pool.specs.PoolState.{home, weighed};
ghost use Rattle.frags.specs.Account.{both, of_sole, of_receipt, of_outcomes};
ghost use Rattle.frags.specs.RoundAccount.{Settles};
ghost use Rattle.rounds.specs.Marks.{IsMarked, IsNamed, nothing};
ghost use Rattle.frags.specs.OutcomesState.{IsBare};
ghost use Rattle.rounds.specs.Table.{place_at, place_missing, of_places, AreOwed, AreHome, AllOpen, missing, IsOfLife};
ghost use Rattle.rounds.specs.Table.{Receives, MayCome, Comes, missing_weight, place_weight, weighed_at_end};

use block_pool::Pool;
use core::mem::{replace, replace_with};
use frags::Outcomes;
use raw_block::{Receipt, Sole};

/// What came back of a block.
pub(crate) enum MarkState {
    /// Nothing.
    Open,
    /// Its Sole, which went home.
    Home,
    /// A part of its weight, in one receipt.
    Owed(Receipt),
}

// A Sole goes home. Where its block is there already it is dropped: the account doesn't exclude this, and nothing lacks
// it.
fn bring(pool: &mut Pool, place: &mut MarkState, sole: Sole)
    requires room { home pool.old + place_missing place.old ≤ pool.old.made }
    ensures place { place.new ≡ MarkState.Home }
    ensures home { home pool.new ≡ home pool.old + place_missing place.old }
    ensures named { (h : ℕ → ℕ) → weighed h pool.new.blocks ≡ weighed h pool.old.blocks
        + place_weight (h sole.block) place.old }
    ensures made { (pool.new.made ≡ pool.old.made) × (pool.new.taken ≡ pool.old.taken) }
{
    match replace(place, MarkState::Home) {
        MarkState::Open => pool.put(sole),
        MarkState::Owed(receipt) => {
            receipt.close();
            pool.put(sole);
        }
        MarkState::Home => {}
    }
}

// What stands at a place once a receipt came back.
fn received(place: MarkState, receipt: Receipt) -> (MarkState, ())
    requires life { IsOfLife place receipt }
    ensures receives { Receives place receipt result.0 }
{
    let _ = receipt.weight();
    let next = match place {
        MarkState::Open => MarkState::Owed(receipt),
        MarkState::Home => {
            receipt.close();
            MarkState::Home
        }
        MarkState::Owed(mut owed) => {
            owed.add(receipt);
            MarkState::Owed(owed)
        }
    };
    (next, ())
}

// A receipt came back.
fn receive(place: &mut MarkState, receipt: Receipt)
    requires life { IsOfLife place.old receipt }
    ensures receives { Receives place.old receipt place.new }
{
    replace_with(place, receipt, received);
}

// A Sole goes home, by its mark. One of a mark that the table doesn't have is dropped.
fn bring_one(pool: &mut Pool, places: &mut [MarkState], sole: Sole)
    requires room { home pool.old + missing places.old ≤ pool.old.made }
    ensures settles { Settles (length places.old) (both (of_places places.old) (of_sole sole)) (of_places places.new) }
    ensures count { home pool.new + missing places.new ≡ home pool.old + missing places.old }
    ensures named { (names h : ℕ → ℕ) → IsNamed names (of_sole sole) → weighed_at_end names h pool.new places.new
        ≡ weighed_at_end names h pool.old places.old }
    ensures size { length places.new ≡ length places.old }
    ensures owed { AreOwed places.old → AreOwed places.new }
    ensures made { (pool.new.made ≡ pool.old.made) × (pool.new.taken ≡ pool.old.taken) }
{
    let mark = sole.mark() as usize;
    if mark < places.len() {
        bring(pool, &mut places[mark], sole);
    }
}

// A receipt came back, by its mark.
fn receive_one(places: &mut [MarkState], receipt: Receipt)
    requires range { receipt.mark < length places.old }
    requires life { IsOfLife (place_at places.old receipt.mark) receipt }
    requires owed { AreOwed places.old }
    ensures settles { Settles (length places.old) (both (of_places places.old) (of_receipt receipt))
        (of_places places.new) }
    ensures count { missing places.new ≡ missing places.old }
    ensures named { (w : ℕ → ℕ) → missing_weight w 0 places.new ≡ missing_weight w 0 places.old }
    ensures size { length places.new ≡ length places.old }
    ensures owed { AreOwed places.new }
{
    let mark = receipt.mark() as usize;
    receive(&mut places[mark], receipt);
}

// The Soles of what was given back go home.
fn sweep_soles(pool: &mut Pool, places: &mut [MarkState], out: &mut Outcomes)
    requires room { home pool.old + missing places.old ≤ pool.old.made }
    ensures settles { Settles (length places.old) (both (of_places places.old) (of_outcomes out.old))
        (both (of_places places.new) (of_outcomes out.new)) }
    ensures count { home pool.new + missing places.new ≡ home pool.old + missing places.old }
    ensures named { (names h : ℕ → ℕ) → IsNamed names (of_outcomes out.old)
        → weighed_at_end names h pool.new places.new ≡ weighed_at_end names h pool.old places.old }
    ensures size { length places.new ≡ length places.old }
    ensures owed { AreOwed places.old → AreOwed places.new }
    ensures made { (pool.new.made ≡ pool.old.made) × (pool.new.taken ≡ pool.old.taken) }
    ensures none { out.new.soles ≡ [] }
    ensures receipts { out.new.receipts ≡ out.old.receipts }
    ensures spare { out.old.spare ≤ out.new.spare }
{
    while let Some(sole) = out.pop_sole() {
        bring_one(pool, places, sole);
    }
}

// The receipts of what was given back stand at their places, or are closed.
fn sweep_receipts(places: &mut [MarkState], out: &mut Outcomes)
    requires marked { IsMarked (length places.old) (both (of_places places.old) (of_outcomes out.old)) }
    requires owed { AreOwed places.old }
    ensures settles { Settles (length places.old) (both (of_places places.old) (of_outcomes out.old))
        (both (of_places places.new) (of_outcomes out.new)) }
    ensures count { missing places.new ≡ missing places.old }
    ensures named { (w : ℕ → ℕ) → missing_weight w 0 places.new ≡ missing_weight w 0 places.old }
    ensures size { length places.new ≡ length places.old }
    ensures owed { AreOwed places.new }
    ensures none { out.new.receipts ≡ [] }
    ensures soles { out.new.soles ≡ out.old.soles }
    ensures spare { out.old.spare ≤ out.new.spare }
{
    while let Some(receipt) = out.pop_receipt() {
        let _ = receipt.weight();
        receive_one(places, receipt);
    }
}

/// What was given back goes home, or stands at its places.
pub(crate) fn sweep(pool: &mut Pool, places: &mut [MarkState], out: &mut Outcomes)
    requires may { MayCome (of_outcomes out.old) pool.old places.old }
    ensures comes { Comes (of_outcomes out.old) nothing pool.old places.old pool.new places.new }
    ensures bare { IsBare out.new }
    ensures spare { out.old.spare ≤ out.new.spare }
{
    sweep_soles(pool, places, out);
    sweep_receipts(places, out);
}

/// The places of a table whose blocks are all home are open again.
pub(crate) fn reopen(places: &mut [MarkState])
    requires home { AreHome places.old }
    ensures open { AllOpen places.new }
    ensures size { length places.new ≡ length places.old }
{
    for i in 0..places.len() {
        match replace(&mut places[i], MarkState::Open) {
            MarkState::Home => {}
            _ => unreachable!(),
        }
    }
}
