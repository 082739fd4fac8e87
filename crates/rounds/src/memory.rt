//! Memory that is kept from round to round.
ghost use Rattle.std.specs.Prelude.{◌≡◌, ◌*◌, ◌≤◌, length, IfOk, OnOk};
ghost use Rattle.block_pool.specs.PoolState.{home};
ghost use Rattle.rounds.specs.Table.{AllOpen};

use crate::mark_table::MarkState;
use block_pool::Pool;
use std::alloc::{AllocError, Global};

/// A table with an open place for each of `n` marks.
pub(crate) fn open_places(alloc: Global, n: u32) -> Result<Vec<MarkState>, AllocError>
    ensures open { IfOk result (λ places. AllOpen places.items) }
    ensures size { IfOk result (λ places. length places.items ≡ n) }
{
    let mut places = Vec::with_capacity(alloc, n as usize)?;
    for _ in 0..n {
        places.push_reserved(MarkState::Open);
    }
    Ok(places)
}

/// A table whose places are all open is given up.
pub(crate) fn close_places(places: Vec<MarkState>)
    requires open { AllOpen places.items }
{
    let mut places = places;
    while let Some(place) = places.pop() {
        match place {
            MarkState::Open => {}
            _ => unreachable!(),
        }
    }
    places.destroy_empty();
}

/// Places for the spares of as many packets, in a list that has none.
pub(crate) fn place_spares(alloc: Global, spares: &mut Pool, budget: u32) -> Result<(), AllocError>
    requires few { budget ≤ 4096 }
    requires none { home spares.old ≡ 0 }
    ensures none { home spares.new ≡ 0 }
    ensures made { OnOk result (2 * budget ≤ spares.new.made) }
{
    if spares.made() < 2 * budget {
        *spares = Pool::empty(alloc, 2 * budget)?;
    }
    Ok(())
}
