//! A pool of blocks.
ghost use Rattle.std.specs.Prelude.{◌≡◌, ◌⊎◌, ◌+◌, ◌-◌, ◌<◌, ◌≤◌, ◌^◌, [], ◌∷◌, ◌++◌, length, min, IfOk, MatchResult};
ghost use Rattle.std.specs.Prelude.{MatchOption, ℕ, All};
ghost use Rattle.std.specs.List.{sum_by};
ghost use Rattle.raw_block.specs.Views.{SoleState};
ghost use Rattle.block_pool.specs.PassState.{IsFresh};
ghost use Rattle.block_pool.specs.PoolState.{home, MovesLast, MovesAll};

use raw_block::Sole;
use std::alloc::{AllocError, Global};
use std::marker::Model;
use thiserror::Error;

/// The blocks that are home, and how many were made and taken. Dropping it frees them.
#[derive(Drop)]
pub struct Pool {
    /// The block that came home last stands at the end, and is taken first.
    blocks: Vec<Sole>,
    /// How many blocks may be home: so many places are reserved, at most 65,536.
    made: u32,
    /// How many blocks were taken since the pool was made. It stays at `2^64 - 1`.
    taken: u64,
}

impl Model for Pool {
    ghost use Rattle.std.specs.Prelude.{◌≤◌, length, vec_capacity};
    ghost use Rattle.block_pool.specs.PoolState.{PoolState};

    ghost Value = { PoolState };

    ghost view = { λ p. record { blocks = p.blocks.items; made = p.made; taken = p.taken } };

    ghost invariant = { λ p. (length p.blocks.items ≤ p.made) × (p.made ≤ 65536) × (p.made ≤ vec_capacity p.blocks) };
}

/// No block is home.
#[derive(Debug, Drop, Error)]
#[error("no block is home")]
pub struct Empty;

impl Pool {
    /// A pool of `n` new blocks, all home. All its memory is taken here.
    pub fn make(alloc: Global, n: u32) -> Result<Pool, AllocError>
        requires few { n ≤ 65536 }
        ensures made { IfOk result (λ pool. (home pool ≡ n) × (pool.made ≡ n) × (pool.taken ≡ 0)) }
        ensures blocks { IfOk result (λ pool. All IsFresh pool.blocks) }
    {
        let mut blocks = Vec::with_capacity(alloc, n as usize)?;
        for _ in 0..n {
            let block = Sole::new(alloc)?;
            blocks.push_reserved(block);
        }
        Ok(Pool {
            blocks,
            made: n,
            taken: 0,
        })
    }

    /// A pool without blocks and places. It takes no memory.
    pub fn new(alloc: Global) -> Pool
        ensures none { (result.blocks ≡ []) × (result.made ≡ 0) × (result.taken ≡ 0) }
    {
        Pool {
            blocks: Vec::new(alloc),
            made: 0,
            taken: 0,
        }
    }

    /// A pool with places for `n` blocks, none of them home. All its memory is taken here.
    pub fn empty(alloc: Global, n: u32) -> Result<Pool, AllocError>
        requires few { n ≤ 65536 }
        ensures none { IfOk result (λ pool. (pool.blocks ≡ []) × (pool.made ≡ n) × (pool.taken ≡ 0)) }
    {
        let blocks = Vec::with_capacity(alloc, n as usize)?;
        Ok(Pool {
            blocks,
            made: n,
            taken: 0,
        })
    }

    /// The block that came home last, as its only holder. `Empty` exactly where no block is home.
    pub fn take(&mut self) -> Result<Sole, Empty>
        ensures block { MatchResult result (λ block. self.old.blocks ≡ self.new.blocks ++ block ∷ [])
            (λ _. (home self.old ≡ 0) × (self.new ≡ self.old)) }
        ensures taken { IfOk result (λ _. self.new.taken ≡ min (self.old.taken + 1) (2 ^ 64 - 1)) }
        ensures made { self.new.made ≡ self.old.made }
    {
        match self.blocks.pop() {
            Some(block) => {
                self.taken = self.taken.saturating_add(1);
                Ok(block)
            }
            None => Err(Empty),
        }
    }

    /// The `n` blocks that came home last go to a pool that has places for them. They are taken, as by `take`.
    #[inline(always)]
    pub fn take_to(&mut self, n: u32, other: &mut Pool)
        requires home { n ≤ home self.old }
        requires room { home other.old + n ≤ other.old.made }
        ensures blocks { (h : SoleState → ℕ) → sum_by h self.new.blocks + sum_by h other.new.blocks
            ≡ sum_by h self.old.blocks + sum_by h other.old.blocks }
        ensures moved { MovesLast self.old self.new other.old other.new }
        ensures home { home self.new + n ≡ home self.old }
        ensures other { home other.new ≡ home other.old + n }
        ensures made { (self.new.made ≡ self.old.made) × (other.new.made ≡ other.old.made) }
        ensures taken { (self.new.taken ≡ min (self.old.taken + n) (2 ^ 64 - 1)) × (other.new.taken ≡ other.old.taken) }
    {
        if n == 2 {
            self.move_two(other);
        } else {
            self.move_some(n, other);
        }
        self.taken = self.taken.saturating_add(n as u64);
    }

    // Both spares of a record, the most frequent case: a step for each of both lists.
    #[inline(always)]
    fn move_two(&mut self, other: &mut Pool)
        requires home { 2 ≤ home self.old }
        requires room { home other.old + 2 ≤ other.old.made }
        ensures blocks { (h : SoleState → ℕ) → sum_by h self.new.blocks + sum_by h other.new.blocks
            ≡ sum_by h self.old.blocks + sum_by h other.old.blocks }
        ensures moved { MovesLast self.old self.new other.old other.new }
        ensures home { home self.new + 2 ≡ home self.old }
        ensures other { home other.new ≡ home other.old + 2 }
        ensures made { (self.new.made ≡ self.old.made) × (other.new.made ≡ other.old.made) }
        ensures taken { (self.new.taken ≡ self.old.taken) × (other.new.taken ≡ other.old.taken) }
    {
        let last = self.blocks.take_last();
        let next = self.blocks.take_last();
        other.blocks.push_reserved(last);
        other.blocks.push_reserved(next);
    }

    // The same of any number of blocks.
    fn move_some(&mut self, n: u32, other: &mut Pool)
        requires home { n ≤ home self.old }
        requires room { home other.old + n ≤ other.old.made }
        ensures blocks { (h : SoleState → ℕ) → sum_by h self.new.blocks + sum_by h other.new.blocks
            ≡ sum_by h self.old.blocks + sum_by h other.old.blocks }
        ensures moved { MovesLast self.old self.new other.old other.new }
        ensures home { home self.new + n ≡ home self.old }
        ensures other { home other.new ≡ home other.old + n }
        ensures made { (self.new.made ≡ self.old.made) × (other.new.made ≡ other.old.made) }
        ensures taken { (self.new.taken ≡ self.old.taken) × (other.new.taken ≡ other.old.taken) }
    {
        for _ in 0..n {
            match self.last() {
                Some(block) => other.put(block),
                None => unreachable!(),
            }
        }
    }

    /// A block comes home.
    pub fn put(&mut self, block: Sole)
        requires out { home self.old < self.old.made }
        ensures home { self.new ≡ record self.old { blocks = self.old.blocks ++ block ∷ [] } }
    {
        self.blocks.push_reserved(block);
    }

    /// Blocks that are home in the other come home here, until it has none or there is no place. They aren't taken, so
    /// neither count rises.
    pub fn refill(&mut self, from: &mut Pool)
        ensures sum { home self.new + home from.new ≡ home self.old + home from.old }
        ensures all { (home from.new ≡ 0) ⊎ (home self.new ≡ self.old.made) }
        ensures blocks { (h : SoleState → ℕ) → sum_by h self.new.blocks + sum_by h from.new.blocks
            ≡ sum_by h self.old.blocks + sum_by h from.old.blocks }
        ensures moved { MovesAll from.old from.new self.old self.new ⊎ MovesLast from.old from.new self.old self.new }
        ensures same { (self.new.made ≡ self.old.made) × (self.new.taken ≡ self.old.taken) }
        ensures from { (from.new.made ≡ from.old.made) × (from.new.taken ≡ from.old.taken) }
    {
        // Where all have a place, they come by one move of memory.
        if self.home() + from.home() <= self.made() {
            let Ok(()) = self.blocks.append(&mut from.blocks) else {
                unreachable!()
            };
            return;
        }
        while self.home() < self.made() {
            match from.last() {
                Some(block) => self.put(block),
                None => return,
            }
        }
    }

    // The block that came home last.
    fn last(&mut self) -> Option<Sole>
        ensures block { MatchOption result ((home self.old ≡ 0) × (self.new ≡ self.old))
            (λ block. self.old.blocks ≡ self.new.blocks ++ block ∷ []) }
        ensures same { (self.new.made ≡ self.old.made) × (self.new.taken ≡ self.old.taken) }
    {
        self.blocks.pop()
    }

    /// The blocks that are home.
    pub fn home(&self) -> u32
        ensures home { result ≡ home self.now }
        ensures within { result ≤ self.now.made }
    {
        self.blocks.len() as u32
    }

    /// The blocks that were made.
    pub fn made(&self) -> u32
        ensures made { result ≡ self.now.made }
        ensures few { result ≤ 65536 }
    {
        self.made
    }

    /// The takes that were answered with a block. It stays at `2^64 - 1`.
    pub fn taken(&self) -> u64
        ensures value { result ≡ self.now.taken }
    {
        self.taken
    }
}
