//! Which pool and how many blocks a run's contracts speak of.
ghost use Rattle.std.specs.Prelude.{ℕ};
ghost use Rattle.block_pool.specs.PassState.{SharedState};

use std::marker::Brand;

/// How many blocks there are, and the pool by which lists of them come back: the call of a whole run says it.
pub trait PoolName {
    ghost blocks: { ℕ };

    ghost lists: { SharedState };
}

impl PoolName for Brand {
    ghost use Rattle.block_supply.specs.Lists.{no_lists};

    ghost blocks = { 0 };

    ghost lists = { no_lists };
}
