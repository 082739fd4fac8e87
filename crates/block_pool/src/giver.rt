//! Blocks that go back to whoever takes lists, as soon as nobody wants them any more.
//!
//! A [`Giver`] has a list and a pass of the pool that others take lists from. [`Giver::give`] brings the whole list
//! there by one step. Where its work is divided, each who works gets a part of the list and a pass of its own
//! ([`Giver::split`]), and what is left comes back with the pass ([`Giver::join`]). Who takes the lists may sleep by a
//! [`Bell`], which is rung behind a list where it waits for one.
ghost use Rattle.std.specs.Prelude.{◌≡◌, ◌+◌, ◌≤◌, [], IfOk, OnErr};
ghost use Rattle.std.specs.Arc.{arc_value};
ghost use Rattle.block_pool.specs.Giving.{Gave, GaveAll, Joined, PutOnce, Split};
ghost use Rattle.block_pool.specs.PassState.{IsOwn};
ghost use Rattle.block_pool.specs.PoolState.{home};

use crate::bell::Bell;
use crate::lists::{ListPass, ListPool, put_all};
use crate::pool::Pool;
use std::alloc::{AllocError, Global};
use std::marker::Model;
use std::mem::{replace, swap};
use std::sync::{Arc, Wait};

/// A list of blocks that nobody wants any more, and the pass with which they go back to the pool that others take lists
/// from.
#[derive(Drop)]
pub struct Giver {
    /// Where the memory for lists of further givers comes from.
    alloc: Global,
    /// Where lists go, and where others take them.
    pool: Arc<ListPool>,
    /// The right to put lists there. It has taken none.
    pass: ListPass,
    /// The blocks that weren't given yet.
    list: Pool,
    // Of who takes the lists, if it may sleep.
    bell: Option<Arc<Bell>>,
}

impl Model for Giver {
    ghost use Rattle.std.specs.Prelude.{◌≡◌, []};
    ghost use Rattle.std.specs.Arc.{arc_value};
    ghost use Rattle.block_pool.specs.Giving.{GiverState};
    ghost use Rattle.block_pool.specs.PassState.{IsOwn};

    ghost Value = { GiverState };

    ghost view = { λ g. record { pool = arc_value g.pool; pass = g.pass; list = g.list } };

    ghost invariant = { λ g. IsOwn (arc_value g.pool) g.pass × (g.pass.taken ≡ []) × (g.pass.takes ≡ 0) };
}

impl Giver {
    /// With a pass that has taken nothing.
    pub fn new(alloc: Global, pool: Arc<ListPool>, pass: ListPass, list: Pool) -> Giver
        requires own { IsOwn (arc_value pool) pass }
        requires none { (pass.taken ≡ []) × (pass.takes ≡ 0) }
        ensures same { result ≡ record { pool = arc_value pool; pass = pass; list = list } }
    {
        Giver {
            alloc,
            pool,
            pass,
            list,
            bell: None,
        }
    }

    /// The same, which rings for who takes the lists where that waits for one.
    pub fn with_bell(self, bell: Arc<Bell>) -> Giver
        ensures same { result ≡ self }
    {
        let Giver {
            alloc,
            pool,
            pass,
            list,
            bell: _old,
        } = self;
        Giver {
            alloc,
            pool,
            pass,
            list,
            bell: Some(bell),
        }
    }

    /// The pool, the pass and the list again.
    pub fn open(self) -> (Arc<ListPool>, ListPass, Pool)
        ensures same { (arc_value result.0 ≡ self.pool) × (result.1 ≡ self.pass) × (result.2 ≡ self.list) }
        ensures own { IsOwn self.pool self.pass }
        ensures none { (self.pass.taken ≡ []) × (self.pass.takes ≡ 0) }
    {
        let Giver {
            alloc: _,
            pool,
            pass,
            list,
            bell: _bell,
        } = self;
        (pool, pass, list)
    }

    /// The blocks of its list.
    pub fn lying(&self) -> u32
        ensures value { result ≡ home self.now.list }
        ensures within { (result ≤ self.now.list.made) × (self.now.list.made ≤ 65536) }
    {
        let _made = self.list.made();
        self.list.home()
    }

    /// The parts of its pass, of 65,536.
    pub fn parts(&self) -> u32
        ensures value { result ≡ self.now.pass.parts }
        ensures range { (1 ≤ result) × (result ≤ 65536) }
    {
        self.pass.parts()
    }

    /// Its list against another.
    pub fn swap(&mut self, list: &mut Pool)
        ensures list { self.new ≡ record self.old { list = list.old } }
        ensures other { list.new ≡ self.old.list }
    {
        swap(&mut self.list, list);
    }

    /// The whole list goes to the pool by one step, and one without places stands there. It stays where the pool is
    /// full.
    pub fn give<R: Wait>(&mut self, rt: &R)
        ensures gave { Gave self.old self.new }
        ensures once { PutOnce self.old self.new }
        ensures none_left { GaveAll self.old self.new }
    {
        if self.list.home() == 0 {
            return;
        }
        let list = replace(&mut self.list, Pool::new(self.alloc));
        if let Some(back) = put_all(rt, &self.pool, &mut self.pass, list) {
            self.list = back;
        }
        if let Some(bell) = &self.bell {
            bell.ring();
        }
    }

    /// One for another thread: a part of the pass, and the `n` blocks that came last to the list. For want of memory
    /// all stays.
    pub fn split(&mut self, n: u32) -> Result<Giver, AllocError>
        requires parts { 2 ≤ self.old.pass.parts }
        requires lie { n ≤ home self.old.list }
        ensures split { IfOk result (λ other. Split self.old other self.new) }
        ensures count { IfOk result (λ other. home other.list ≡ n) }
        ensures same { OnErr result (self.new ≡ self.old) }
    {
        let _within = self.lying();
        let mut list = Pool::empty(self.alloc, n)?;
        let pool = Arc::try_clone(&self.pool)?;
        let bell = match &self.bell {
            Some(bell) => Some(Arc::try_clone(bell)?),
            None => None,
        };
        let pass = self.pool.fork(&mut self.pass);
        self.list.take_to(n, &mut list);
        Ok(Giver {
            alloc: self.alloc,
            pool,
            pass,
            list,
            bell,
        })
    }

    /// Another one comes back: its pass is gathered, and what is left of its list goes to this one's.
    pub fn join<R: Wait>(&mut self, rt: &R, other: Giver)
        requires pool { other.pool ≡ self.old.pool }
        requires room { home self.old.list + home other.list ≤ self.old.list.made }
        ensures joined { Joined self.old other self.new }
    {
        let Giver {
            alloc: _,
            pool: _pool,
            pass,
            mut list,
            bell: _bell,
        } = other;
        self.pool.gather(rt, pass, &mut self.pass);
        list.take_to(list.home(), &mut self.list);
    }
}
