//! The end of a pool of lists that takes.
ghost use Rattle.std.specs.Prelude.{◌≡◌, ◌≢◌, ◌⊎◌, ℕ, ◌+◌, ◌-◌, ◌<◌, ◌≤◌, ◌^◌, [], true, false, min};
ghost use Rattle.std.specs.Prelude.{IfNone, IfOk, IfSome};
ghost use Rattle.std.specs.Arc.{arc_value};
ghost use Rattle.block_pool.specs.PassState.{IsOwn};
ghost use Rattle.block_pool.specs.PoolState.{home, weighed};
ghost use Rattle.block_supply.specs.Lists.{weights_home, weights_listed};

use block_pool::{Giver, ListPass, ListPool, Pool};
use core::mem::replace;
use std::alloc::{AllocError, Global};
use std::sync::{Arc, Wait};

/// Places for the lists of all 72 lanes of as many rounds as may be read ahead, three, and for one more of each, once
/// it was written. Where all are taken a list stays with who gives it.
const LISTS: u32 = 219;

/// The end of the side that reads, which takes lists and gives none.
#[derive(Drop)]
pub struct Taker {
    /// Of the lists without places that stand in for those that leave.
    alloc: Global,
    /// The pool into which others give.
    pub(crate) lists: Arc<ListPool>,
    /// The right to take lists there.
    pub(crate) pass: ListPass,
    // Of a list that found no place at hand: nothing in fact.
    pub(crate) left: Pool,
    /// The pass is of that pool.
    pub ghost own: { IsOwn (arc_value lists) pass },
    /// It has one part, and puts nothing.
    pub ghost alone: { (pass.parts ≡ 1) × (pass.made ≡ []) × (pass.put ≡ []) },
    /// No block is left but those that came with lists, by any weight of the blocks' names.
    pub ghost weighs: { (h : ℕ → ℕ) → weighed h left.blocks ≤ weights_listed h pass.taken },
}

impl Taker {
    // What is left of a list comes home, as far as there are places: whether any of it did.
    fn put_left(&mut self, pool: &mut Pool) -> bool
        ensures named { (h : ℕ → ℕ) → weighed h pool.new.blocks + weights_home h self.old.pass self.old.left
            ≡ weighed h pool.old.blocks + weights_home h self.new.pass self.new.left }
        ensures same { (pool.new.made ≡ pool.old.made) × (pool.new.taken ≡ pool.old.taken) }
        ensures lists { arc_value self.new.lists ≡ arc_value self.old.lists }
        ensures pass { self.new.pass ≡ self.old.pass }
        ensures came { result ≡ true → home pool.old < home pool.new }
        ensures rises { home pool.old ≤ home pool.new }
        ensures full { 1 ≤ home self.old.left → result ≡ false → pool.old.made ≤ home pool.old }
    {
        let before = pool.home();
        pool.refill(&mut self.left);
        pool.home() > before
    }

    /// Whether blocks came home: those of the next list, if one was given. Where none did a take found no list, or all
    /// places for blocks are taken.
    pub fn bring<R: Wait>(&mut self, rt: &R, pool: &mut Pool) -> bool
        ensures named { (h : ℕ → ℕ) → weighed h pool.new.blocks + weights_home h self.old.pass self.old.left
            ≡ weighed h pool.old.blocks + weights_home h self.new.pass self.new.left }
        ensures same { (pool.new.made ≡ pool.old.made) × (pool.new.taken ≡ pool.old.taken) }
        ensures lists { arc_value self.new.lists ≡ arc_value self.old.lists }
        ensures came { result ≡ true → home pool.old < home pool.new }
        ensures rises { home pool.old ≤ home pool.new }
        ensures refused { result ≡ false → (pool.old.made ≤ home pool.old)
            ⊎ (min (self.old.pass.empties + 1) (2 ^ 64 - 1) ≤ self.new.pass.empties) }
        ensures asked { self.old.pass.empties ≤ self.new.pass.empties }
    {
        let _ = self.pass.empties();
        if self.left.home() > 0 {
            return self.put_left(pool);
        }
        let Ok(list) = self.lists.take(rt, &mut self.pass) else {
            return false;
        };
        let _none = replace(&mut self.left, list.into_pool());
        self.put_left(pool)
    }

    /// The memory of the list that came last, where all its blocks are home and it has so many places.
    pub fn take_spent(&mut self, places: u32) -> Option<Pool>
        ensures spent { IfSome result (λ list. (home list ≡ 0) × (list.made ≡ places)) }
        ensures none { IfNone result (home self.old.left ≡ 0 → self.old.left.made ≢ places) }
        ensures named { (h : ℕ → ℕ) → weights_home h self.new.pass self.new.left
            ≡ weights_home h self.old.pass self.old.left }
        ensures lists { arc_value self.new.lists ≡ arc_value self.old.lists }
        ensures pass { self.new.pass ≡ self.old.pass }
    {
        if self.left.home() > 0 || self.left.made() != places {
            return None;
        }
        let none = Pool::new(self.alloc);
        Some(replace(&mut self.left, none))
    }

    /// The pool, the pass, and what is left of the list that came last.
    pub fn open(self) -> (Arc<ListPool>, ListPass, Pool)
        ensures same { (result.0 ≡ self.lists) × (result.1 ≡ self.pass) × (result.2 ≡ self.left) }
    {
        let Taker {
            alloc: _,
            lists,
            pass,
            left,
        } = self;
        (lists, pass, left)
    }
}

/// The pool of lists, by its two ends: whoever gives has all parts of its passes but one.
pub fn open_lists(alloc: Global) -> Result<(Taker, Giver), AllocError>
    ensures same { IfOk result (λ r. r.1.pool ≡ arc_value r.0.lists) }
    ensures none { IfOk result (λ r. (r.0.pass.taken ≡ []) × (home r.0.left ≡ 0) × (r.0.pass.empties ≡ 0)) }
    ensures giver { IfOk result (λ r. (r.1.pass.parts ≡ 65535) × (r.1.pass.put ≡ []) × (home r.1.list ≡ 0)) }
{
    let (lists, mut pass) = ListPool::open(alloc, LISTS)?;
    let part = lists.fork(&mut pass);
    let Ok(lists) = Arc::new(alloc, lists) else {
        return Err(AllocError);
    };
    let other = Arc::try_clone(&lists)?;
    let taker = Taker {
        alloc,
        lists,
        pass: part,
        left: Pool::new(alloc),
    };
    Ok((taker, Giver::new(alloc, other, pass, Pool::new(alloc))))
}
