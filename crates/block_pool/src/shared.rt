//! Pools that several threads take from and put back to at once.
//!
//! What goes by one step is an item: a block in a `SharedPool`, and a whole list of blocks in a `ListPool` (`lists`).
//! Both are a `QueuePool` under one rule, which looks into no item. The items wait in a queue without a lock, first in,
//! first out. Whoever takes or puts holds a `QueuePass`, which counts what it did. The opening pass has 65,536 parts;
//! `fork` moves one of them to a new pass for another thread, and `gather` adds a pass to another again. The pass that
//! has all parts knows the pool whole: the items that are home are those that were made and those that were put,
//! without those that were taken.
//!
//! ```
//! let (pool, mut pass) = SharedPool::make(&rt, alloc, 64)?;
//! let mut theirs = pool.fork(&mut pass);
//! thread::join_mut(&rt, &mut || work(&rt, &pool, &mut theirs), &mut || read(&rt, &pool, &mut pass));
//! pool.gather(&rt, theirs, &mut pass);
//! pool.home(&rt, &mut pass);
//! ```
ghost use Rattle.std.specs.Prelude.{◌≡◌, ℕ, ◌+◌, ◌<◌, ◌≤◌, [], ◌∷◌, length, All, IfOk, IfErr, IsOk};
ghost use Rattle.std.specs.List.{sum_by};
ghost use Rattle.crossbeam_queue.specs.Passes.{view, IsPassOf, ruled_capacity};
ghost use Rattle.block_pool.specs.PassState.{IsOwn, IsOpening, IsNew, IsFresh, IsHome, IsSame, LostPart, Took, Put};
ghost use Rattle.block_pool.specs.PassState.{FoundEmpty, FoundFull, Gathered};
ghost use Rattle.block_pool.specs.QueueRule.{tally};

use crossbeam_queue::Pass;
use raw_block::Sole;
use rule::{Items, Parts, Takes, Tally};
use std::alloc::{AllocError, Global};
use std::marker::Model;
use std::sync::Wait;
use steps::{fill_once, pop_once, push_once, stall};
use thiserror::Error;

mod rule;
mod steps;

/// All parts of a pool: those of its opening pass.
const ALL_PARTS: u32 = 65_536;

/// The items that are home, in a queue that threads share by `&`. Dropping it frees them.
#[derive(Drop)]
pub struct QueuePool<T: Drop> {
    /// First in, first out: a take answers the item that is home for longest.
    queue: Items<T>,
    /// How many items it was made with.
    made: u32,
    /// How many items may be home at once, at least as many as were made.
    places: u32,
}

/// A pool whose blocks come and go one by one.
pub type SharedPool = QueuePool<Sole>;

impl<T: Drop> Model for QueuePool<T> {
    ghost use Rattle.std.specs.Prelude.{◌≡◌, ◌≤◌};
    ghost use Rattle.crossbeam_queue.specs.Passes.{ruled_capacity};
    ghost use Rattle.block_pool.specs.PassState.{SharedState};

    ghost Value = { SharedState };

    ghost view = { λ p. record { id = p.queue.table.shared.table_id; made = p.made; places = p.places } };

    ghost invariant = { λ p. (p.places ≡ ruled_capacity p.queue) × (p.made ≤ p.places) };
}

/// The right to take from one pool and to put back to it, with the counts of what was done. One that is dropped takes
/// its parts with it, and no pass knows the pool whole from then on.
#[derive(Drop)]
pub struct QueuePass<T> {
    /// The right to step the pool's queue. Proofs read there what this pass took and put.
    pass: Pass<T, Tally<T>>,
    /// How many of the pool's 65,536 parts it has, at least 1. The pass that has all of them knows the pool whole.
    parts: u32,
    /// The takes that were answered with an item.
    takes: u64,
    /// The puts that brought an item home.
    puts: u64,
    /// The takes that found none. It stays at `2^64 - 1`.
    empties: u64,
    /// The puts that found all places taken. It stays at `2^64 - 1`.
    fulls: u64,
}

/// A pass of a pool of blocks.
pub type PoolPass = QueuePass<Sole>;

impl<T> Model for QueuePass<T> {
    ghost use Rattle.std.specs.Prelude.{length};
    ghost use Rattle.block_pool.specs.PassState.{PassState, IsTied, known};

    ghost Value = { PassState T };

    ghost view = { λ p. record {
      pool = p.pass.table_id;
      made = (known p.pass).made;
      size = length
          (known p.pass).made;
      parts = p.parts;
      taken = (known p.pass).taken;
      takes = p.takes;
      put = (known p.pass).put;
      puts = p.puts;
      empties = p.empties;
      fulls = p.fulls;
    } };

    ghost invariant = { λ p. IsTied p.pass p.parts p.takes p.puts };
}

/// Nothing was home at a step of a take.
#[derive(Debug, Drop, Error)]
#[error("nothing was home after {takes} takes")]
pub struct Empty {
    /// How many takes of its pass had been answered with an item by then.
    takes: u64,
}

impl Empty {
    /// The takes of its pass up to that step.
    pub fn takes(&self) -> u64
        ensures value { result ≡ self.now.takes }
    {
        self.takes
    }
}

/// All places were taken at a step of a put. Here is what was to be put.
#[derive(Drop)]
pub struct Full<T = Sole>(pub T);

// A pool of what was pushed so far, and its opening pass.
fn opened<T: Drop>(
    queue: Items<T>,
    pass: Pass<T, Tally<T>>,
    made: u32,
    places: u32,
) -> (QueuePool<T>, QueuePass<T>)
    requires own { IsPassOf queue pass }
    requires view { view pass ≡ tally 65536 (view pass).made [] [] }
    requires made { length (view pass).made ≡ made }
    requires places { (ruled_capacity queue ≡ places) × (made ≤ places) }
    ensures pool { (result.0.made ≡ made) × (result.0.places ≡ places) }
    ensures opening { IsOpening result.0 result.1 }
    ensures items { result.1.made ≡ (view pass).made }
{
    let opening = QueuePass {
        pass,
        parts: ALL_PARTS,
        takes: 0,
        puts: 0,
        empties: 0,
        fulls: 0,
    };
    let pool = QueuePool {
        queue,
        made,
        places,
    };
    (pool, opening)
}

impl QueuePool<Sole> {
    /// A pool of `n` new blocks, all home, and its opening pass, which has all parts. All its memory is taken here.
    pub fn make<R: Wait>(
        rt: &R,
        alloc: Global,
        n: u32,
    ) -> Result<(SharedPool, PoolPass), AllocError>
        requires few { (1 ≤ n) × (n ≤ 65536) }
        ensures made { IfOk result (λ r. (r.0.made ≡ n) × (r.0.places ≡ n) × IsOpening r.0 r.1) }
        ensures blocks { IfOk result (λ r. All IsFresh r.1.made) }
    {
        let (queue, mut pass) = Items::ruled(alloc, n as usize)?;
        for _ in 0..n {
            let block = Sole::new(alloc)?;
            fill_once(rt, &queue, &mut pass, block);
        }
        Ok(opened(queue, pass, n, n))
    }
}

impl<T: Drop> QueuePool<T> {
    /// A pool with so many places and nothing in them, and its opening pass, which has all parts. All its memory is
    /// taken here.
    pub fn open(alloc: Global, places: u32) -> Result<(QueuePool<T>, QueuePass<T>), AllocError>
        requires some { 1 ≤ places }
        ensures made { IfOk result (λ r. (r.0.made ≡ 0) × (r.0.places ≡ places) × IsOpening r.0 r.1) }
    {
        let (queue, pass) = Items::ruled(alloc, places as usize)?;
        Ok(opened(queue, pass, 0, places))
    }

    /// A new pass, which gets one part of `pass` and has counted nothing.
    pub fn fork(&self, pass: &mut QueuePass<T>) -> QueuePass<T>
        requires own { IsOwn self.now pass.old }
        requires parts { 2 ≤ pass.old.parts }
        ensures kept { LostPart pass.old pass.new }
        ensures fresh { IsNew pass.old 1 result }
    {
        let theirs = self.queue.another::<Parts>(&mut pass.pass);
        pass.parts -= 1;
        QueuePass {
            pass: theirs,
            parts: 1,
            takes: 0,
            puts: 0,
            empties: 0,
            fulls: 0,
        }
    }

    /// Adds the parts and the counts of `spent` to those of `kept`. Both are this pool's.
    pub fn gather<R: Wait>(&self, rt: &R, spent: QueuePass<T>, kept: &mut QueuePass<T>)
        requires own { IsOwn self.now kept.old × IsOwn self.now spent }
        ensures gathered { Gathered kept.old spent kept.new }
    {
        let QueuePass {
            pass: theirs,
            parts,
            takes,
            puts,
            empties,
            fulls,
        } = spent;
        if takes > u64::MAX - kept.takes || puts > u64::MAX - kept.puts {
            stall(rt);
        }
        self.queue.absorb::<Parts>(&mut kept.pass, theirs);
        self.queue.learn_as::<Takes>(&mut kept.pass);
        kept.parts += parts;
        kept.takes += takes;
        kept.puts += puts;
        kept.empties = kept.empties.saturating_add(empties);
        kept.fulls = kept.fulls.saturating_add(fulls);
    }

    /// The item that is home for longest, a block as its only holder. `Empty` only where the queue held none at a step
    /// of this call, and never where all passes are gathered into this one and its counts show one home (`sure`), or by
    /// any weight more than nothing (`weighs`).
    pub fn take<R: Wait>(&self, rt: &R, pass: &mut QueuePass<T>) -> Result<T, Empty>
        requires own { IsOwn self.now pass.old }
        ensures taken { IfOk result (λ item. Took pass.old item pass.new) }
        ensures empty { IfErr result (λ e. (e.takes ≡ pass.old.takes) × FoundEmpty pass.old pass.new) }
        ensures same { IsSame pass.old pass.new }
        ensures sure { pass.old.parts ≡ 65536 → pass.old.takes < self.now.made + pass.old.puts → IsOk result }
        ensures weighs { (h : T → ℕ) → pass.old.parts ≡ 65536
            → sum_by h pass.old.taken < sum_by h pass.old.made + sum_by h pass.old.put → IsOk result }
    {
        match pop_once(rt, &self.queue, pass) {
            Some(item) => Ok(item),
            None => Err(Empty { takes: pass.takes }),
        }
    }

    /// Brings an item home, and takes no memory. `Full`, with the item, only where the queue held as many as it has
    /// places at a step of this call, and never where all passes are gathered into this one and its counts show fewer
    /// home than were made (`sure`), or than have a place (`room`).
    pub fn put<R: Wait>(&self, rt: &R, pass: &mut QueuePass<T>, item: T) -> Result<(), Full<T>>
        requires own { IsOwn self.now pass.old }
        ensures put { IfOk result (λ _. Put pass.old item pass.new) }
        ensures full { IfErr result (λ full. (full.0 ≡ item) × FoundFull pass.old pass.new) }
        ensures same { IsSame pass.old pass.new }
        ensures sure { pass.old.parts ≡ 65536 → pass.old.puts < pass.old.takes → IsOk result }
        ensures room { pass.old.parts ≡ 65536
            → self.now.made + pass.old.puts < self.now.places + pass.old.takes → IsOk result }
    {
        match push_once(rt, &self.queue, pass, item) {
            Ok(()) => Ok(()),
            Err(item) => Err(Full(item)),
        }
    }

    /// The items that are home, where all passes are gathered into this one: those that were made and those that were
    /// put, without those that were taken.
    pub fn home<R: Wait>(&self, rt: &R, pass: &mut QueuePass<T>) -> usize
        requires own { IsOwn self.now pass.old }
        requires all { pass.old.parts ≡ 65536 }
        ensures same { pass.new ≡ pass.old }
        ensures count { result + pass.old.takes ≡ self.now.made + pass.old.puts }
        ensures blocks { IsHome pass.old result }
    {
        self.queue.len_as::<Takes, R>(rt, &mut pass.pass)
    }

    /// The items that were made.
    pub fn made(&self) -> u32
        ensures value { result ≡ self.now.made }
    {
        self.made
    }

    /// How many items may be home at once.
    pub fn places(&self) -> u32
        ensures value { result ≡ self.now.places }
    {
        self.places
    }
}

impl<T> QueuePass<T> {
    /// The takes that were answered with an item.
    pub fn takes(&self) -> u64
        ensures value { result ≡ self.now.takes }
    {
        self.takes
    }

    /// The puts that brought an item home.
    pub fn puts(&self) -> u64
        ensures value { result ≡ self.now.puts }
    {
        self.puts
    }

    /// The takes that found none. It stays at `2^64 - 1`.
    pub fn empties(&self) -> u64
        ensures value { result ≡ self.now.empties }
    {
        self.empties
    }

    /// The puts that found all places taken. It stays at `2^64 - 1`.
    pub fn fulls(&self) -> u64
        ensures value { result ≡ self.now.fulls }
    {
        self.fulls
    }

    /// Its parts of the 65,536.
    pub fn parts(&self) -> u32
        ensures range { (1 ≤ result) × (result ≤ 65536) }
        ensures value { result ≡ self.now.parts }
    {
        self.parts
    }
}
