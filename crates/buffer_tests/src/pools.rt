//! A pool of one block; the tests of shared pools stand in `passes` and `lists`.
ghost use Rattle.std.specs.Prelude.{◌≡◌};
ghost use Rattle.block_pool.specs.PoolState.{home};

mod lists;
mod passes;

use crate::seeing::assert_same;
use block_pool::Pool;

// What is home without the block, whether a second take is Empty, and whether the block can be taken again.
fn turn(pool: &mut Pool) -> (u32, bool, bool)
    requires one { (home pool.old ≡ 1) × (pool.old.made ≡ 1) }
{
    match pool.take() {
        Ok(block) => {
            let home = pool.home();
            let empty = pool.take().is_err();
            pool.put(block);
            (home, empty, pool.take().is_ok())
        }
        Err(_) => (1, false, false),
    }
}

#[test]
fn one_block_is_taken_and_comes_home(rt: HostRuntime) {
    let mut pool = Pool::make(rt.alloc(), 1).expect(&rt, "no memory");
    let before = (pool.home(), pool.made(), pool.taken());
    let seen = turn(&mut pool);
    assert_same(
        &rt,
        &(before, seen, pool.made(), pool.taken()),
        &((1, 1, 0), (0, true, true), 1, 2),
    );
}
