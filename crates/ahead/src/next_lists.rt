//! Lists of blocks that are taken while a round is read beside the work of another.
ghost use Rattle.std.specs.Prelude.{◌≡◌};
ghost use Rattle.std.specs.Arc.{arc_value};
ghost use Rattle.block_pool.specs.PassState.{SharedState};

use block_pool::Pool;
use block_supply::{Supply, Taker};
use std::marker::{Brand, PhantomData};
use std::sync::Wait;

/// Which pool lists go to: the call that opens one says it.
pub(crate) trait ListName {
    ghost lists: { SharedState };
}

impl ListName for Brand {
    ghost use Rattle.block_supply.specs.Lists.{no_lists};

    ghost lists = { no_lists };
}

/// Lists that are taken while a round is read beside the work of another: those that were given. None is waited for.
#[derive(Drop)]
pub(crate) struct NextLists<'a, R, N: ListName> {
    pub(crate) rt: &'a R,
    pub(crate) taker: Taker,
    pub(crate) of: PhantomData<N>,
    pub ghost pooled: { arc_value taker.lists ≡ N.lists },
}

impl<'a, R, N: ListName> NextLists<'a, R, N> {
    pub(crate) fn new(rt: &'a R, taker: Taker) -> NextLists<'a, R, N>
        requires pooled { arc_value taker.lists ≡ N.lists }
        ensures same { result.taker ≡ taker }
    {
        NextLists {
            rt,
            taker,
            of: PhantomData,
        }
    }
}

impl<R: Wait, N: ListName> Supply for NextLists<'_, R, N> {
    ghost use Rattle.std.specs.Prelude.{false, true};
    ghost use Rattle.block_supply.specs.Lists.{weights_home};

    ghost weights = { λ n h. weights_home h n.taker.pass n.taker.left };

    ghost refusals = { λ n. n.taker.pass.empties };

    ghost ended = { λ _. true };

    fn bring(&mut self, pool: &mut Pool, need: u32) -> bool {
        while pool.home() < need {
            if !self.taker.bring(self.rt, pool) {
                return false;
            }
        }
        true
    }

    fn look(&mut self, pool: &mut Pool) {
        let _came = self.taker.bring(self.rt, pool);
    }

    fn has_ended(&self) -> bool {
        true
    }
}
