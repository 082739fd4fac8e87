//! Where the side that reads waits for blocks, and for a place to send a round.
ghost use Rattle.std.specs.Prelude.{◌≡◌, ℕ, ◌+◌, ◌-◌, ◌<◌, ◌≤◌, ◌^◌, min, true, false};
ghost use Rattle.std.specs.Arc.{arc_value};
ghost use Rattle.block_pool.specs.PassState.{SharedState};
ghost use Rattle.block_pool.specs.PoolState.{home, weighed};
ghost use Rattle.block_supply.specs.Lists.{weights_home};

use crate::handshake::{Ended, Handshake};
use crate::naming::PoolName;
use block_pool::Pool;
use block_supply::Taker;
use std::marker::PhantomData;
use std::sync::Wait;

/// Who waits for lists, and of which pool.
pub trait Post {
    ghost lists: { SharedState };

    /// Whether the side that reads may begin.
    fn begin(&self) -> bool;

    /// That the other side takes no more rounds, if it has said so.
    fn has_ended(&self) -> Option<Ended>;

    /// Whether a list has come: its blocks are home then, as far as there are places. Where blocks are out it says no
    /// only behind a take that found none.
    fn bring_list(&self, taker: &mut Taker, pool: &mut Pool) -> bool
        ensures named { (h : ℕ → ℕ) → weighed h pool.new.blocks + weights_home h taker.old.pass taker.old.left
            ≡ weighed h pool.old.blocks + weights_home h taker.new.pass taker.new.left }
        ensures same { (pool.new.made ≡ pool.old.made) × (pool.new.taken ≡ pool.old.taken) }
        ensures rises { home pool.old ≤ home pool.new }
        ensures came { result ≡ true → home pool.old < home pool.new }
        ensures refused { result ≡ false → home pool.old < pool.old.made
            → min (taker.old.pass.empties + 1) (2 ^ 64 - 1) ≤ taker.new.pass.empties }
        ensures asked { taker.old.pass.empties ≤ taker.new.pass.empties }
        ensures lists { arc_value taker.new.lists ≡ arc_value taker.old.lists };

    /// Says that who gives a list is to wake this side from here on. It looks once more before it sleeps.
    fn begin_wait(&self);

    /// Sleeps until the other side, or who gives a list, wakes it.
    fn sleep(&self);

    /// Lists wake this side no more.
    fn end_wait(&self);

    /// Waits for ever, at the end of more turns than any run takes.
    fn stall(&self)
        ensures never { ⊥ };

    /// Wakes the other side.
    fn wake(&self);
}

/// The thread that reads, which sleeps until its bell rings.
#[derive(Drop)]
pub struct Sleeper<'a, R, N: PoolName> {
    /// By which it sleeps.
    rt: &'a R,
    /// It sleeps by the reader's, and rings the worker's.
    handshake: &'a Handshake,
    /// Whose pool it is, for contracts alone.
    of: PhantomData<N>,
}

impl<'a, R, N: PoolName> Sleeper<'a, R, N> {
    pub fn new(rt: &'a R, handshake: &'a Handshake) -> Sleeper<'a, R, N> {
        Sleeper {
            rt,
            handshake,
            of: PhantomData,
        }
    }
}

impl<R: Wait, N: PoolName> Post for Sleeper<'_, R, N> {
    ghost lists = { N.lists };

    fn begin(&self) -> bool {
        self.handshake.begin()
    }

    fn has_ended(&self) -> Option<Ended> {
        self.handshake.has_ended()
    }

    fn bring_list(&self, taker: &mut Taker, pool: &mut Pool) -> bool {
        taker.bring(self.rt, pool)
    }

    fn begin_wait(&self) {
        self.handshake.reader.begin();
    }

    fn sleep(&self) {
        self.handshake.reader.sleep(self.rt);
    }

    fn end_wait(&self) {
        self.handshake.reader.end();
    }

    fn stall(&self) {
        for _ in self.rt.forever() {}
        unreachable!()
    }

    fn wake(&self) {
        self.handshake.worker.wake();
    }
}
