//! What arrives while rounds are read.
ghost use Rattle.std.specs.Prelude.{◌≡◌, ℕ, ◌+◌, ◌-◌, ◌<◌, ◌≤◌, ◌^◌, true, false, min};
ghost use Rattle.block_pool.specs.PoolState.{home};
ghost use Rattle.crossing.specs.Arriving.{weights_to, Meets};

use crate::arrivals::Arrivals;
use crate::post::Post;
use block_pool::Pool;
use block_supply::Supply;
use std::hint;

/// Before the side that reads sleeps for want of blocks it looks this often for a list, and waits so many turns of a
/// loop between two looks.
const LOOKS: u32 = 16;

/// So many lists come in before a round is read, at most; others wait for the next one.
const MOST_LISTS: u32 = 219;

impl<W: Post + Drop> Arrivals<W> {
    // The memory of a list goes away with a round again, once its blocks are home.
    fn keep_spent(&mut self)
        ensures named { (h : ℕ → ℕ) → weights_to self.new h ≡ weights_to self.old h }
        ensures same { self.new.taker.pass ≡ self.old.taker.pass }
    {
        if self.spent.len() == self.spent.capacity() {
            return;
        }
        if let Some(list) = self.taker.take_spent(self.blocks) {
            self.spent.push_reserved(list);
        }
    }

    // One list, if one has come.
    fn meet_list(&mut self, pool: &mut Pool) -> bool
        ensures meets { Meets pool.old pool.new self.old self.new }
        ensures came { result ≡ true → home pool.old < home pool.new }
        ensures refused { result ≡ false → home pool.old < pool.old.made
            → min (self.old.taker.pass.empties + 1) (2 ^ 64 - 1) ≤ self.new.taker.pass.empties }
    {
        let before = pool.home();
        let came = self.post.bring_list(&mut self.taker, pool);
        self.away.meet(pool.home() - before);
        self.keep_spent();
        came
    }

    // A list, however long that takes, unless the other side has stopped. The side that reads looks for a while; then
    // it says that it waits, wakes the other one, which may have a list that found no place, looks once more, and
    // sleeps between its looks.
    fn await_list(&mut self, pool: &mut Pool)
        ensures meets { Meets pool.old pool.new self.old self.new }
    {
        for turn in 0..u64::MAX {
            self.ask_end();
            if self.meet_list(pool) || self.has_stopped() {
                self.post.end_wait();
                return;
            }
            if turn < LOOKS as u64 {
                pause();
            } else if turn == LOOKS as u64 {
                self.post.begin_wait();
                self.post.wake();
            } else {
                self.post.sleep();
            }
        }
        self.post.stall();
        unreachable!()
    }

    // As many blocks as are needed, however long that takes, unless the other side has stopped. Where no list is due
    // before the last round is written, and none is found, the blocks are the rest of that round's: then the round that
    // is read is paused, if it isn't yet. It ends with fewer only behind a take that found no list.
    fn meet_needed(&mut self, pool: &mut Pool, need: u32)
        ensures meets { Meets pool.old pool.new self.old self.new }
        ensures refused { need ≤ pool.old.made → home pool.new < need
            → min (self.old.taker.pass.empties + 1) (2 ^ 64 - 1) ≤ self.new.taker.pass.empties }
    {
        for _ in 0..u64::MAX {
            if pool.home() >= need {
                return;
            }
            if !self.has_stopped() && (self.paused || self.away.may_bring()) {
                self.await_list(pool);
            } else if !self.meet_list(pool) {
                self.paused = true;
                return;
            }
        }
        self.post.stall();
        unreachable!()
    }

    // All further lists that have come: their blocks, which somebody just had, are taken next.
    fn meet_lists(&mut self, pool: &mut Pool)
        ensures meets { Meets pool.old pool.new self.old self.new }
    {
        for _ in 0..MOST_LISTS {
            if !self.meet_list(pool) {
                return;
            }
        }
    }

    // All lists that have come, before a round is read.
    fn meet_all(&mut self, pool: &mut Pool)
        ensures meets { Meets pool.old pool.new self.old self.new }
        ensures looked { home pool.new ≡ home pool.old → home pool.old < pool.old.made
            → min (self.old.taker.pass.empties + 1) (2 ^ 64 - 1) ≤ self.new.taker.pass.empties }
    {
        self.ask_end();
        if self.meet_list(pool) {
            self.meet_lists(pool);
        }
    }
}

// Some turns of a loop.
fn pause() {
    for _ in 0..LOOKS {
        hint::spin_loop();
    }
}

impl<W: Post + Drop> Supply for Arrivals<W> {
    ghost use Rattle.std.specs.Prelude.{is_some};
    ghost use Rattle.crossing.specs.Arriving.{weights_to};

    ghost weights = { weights_to };

    ghost refusals = { λ d. d.taker.pass.empties };

    ghost ended = { λ d. is_some d.stopped };

    /// Behind a no that paused a round it waits, and says no again only where the other side has stopped.
    fn bring(&mut self, pool: &mut Pool, need: u32) -> bool {
        self.meet_needed(pool, need);
        need <= pool.home()
    }

    /// All lists come in that have come.
    fn look(&mut self, pool: &mut Pool) {
        self.meet_all(pool);
    }

    fn has_ended(&self) -> bool {
        self.has_stopped()
    }
}
