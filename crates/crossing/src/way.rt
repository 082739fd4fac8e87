//! By which way blocks come home from the side that works.
ghost use Rattle.std.specs.Prelude.{◌≡◌, []};
ghost use Rattle.std.specs.Arc.{arc_value};
ghost use Rattle.block_pool.specs.PoolState.{home};

use block_pool::{Bell, Giver};
use block_supply::{Taker, open_lists};
use std::alloc::{AllocError, Global};
use std::sync::Arc;

/// The pool of lists, both ends of it, before anything went by it.
#[derive(Drop)]
pub struct Way {
    /// Where the side that reads takes lists.
    pub taker: Taker,
    /// Who gives them at the side that works.
    pub giver: Giver,
    // Of the side that reads.
    pub bell: Arc<Bell>,
    /// Both ends are of one pool of lists.
    pub ghost same: { giver.pool ≡ arc_value taker.lists },
    /// No list was taken.
    pub ghost untaken: { (taker.pass.taken ≡ []) × (home taker.left ≡ 0) },
    /// No list was given, and there is none to give. It has all parts of the pool's pass but one.
    pub ghost ungiven: { (giver.pass.parts ≡ 65535) × (giver.pass.put ≡ []) × (home giver.list ≡ 0) },
}

/// The pool, whose giver rings for the side that reads.
pub fn open_way(alloc: Global) -> Result<Way, AllocError> {
    let (taker, giver) = open_lists(alloc)?;
    let Ok(bell) = Arc::new(alloc, Bell::new()) else {
        return Err(AllocError);
    };
    let giver = giver.with_bell(Arc::try_clone(&bell)?);
    Ok(Way { taker, giver, bell })
}
