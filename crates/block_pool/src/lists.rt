//! Blocks that go from thread to thread list by list.
//!
//! A [`BlockList`] is a list with at least one block, so that a take of a list always brings a block. Whoever reads
//! holds one list at hand, and [`take_block`] answers a block of it; where it has none a list comes from the pool by
//! one step, and the emptied one goes to the spent ones, which travel back to whoever gives. [`put_all`] brings all
//! blocks of a list home by one step. Neither takes memory.
ghost use Rattle.std.specs.Prelude.{◌≡◌, ◌⊎◌, ℕ, ◌+◌, ◌<◌, ◌≤◌, [], ◌∷◌, ◌++◌, length, IfOk, IfErr, IsOk, MatchOption};
ghost use Rattle.std.specs.Prelude.{vec_len, vec_capacity, IsNone};
ghost use Rattle.std.specs.List.{sum_by};
ghost use Rattle.raw_block.specs.Views.{SoleState};
ghost use Rattle.block_pool.specs.Listed.{listed, blocks_in, FromHand, FromList};
ghost use Rattle.block_pool.specs.PassState.{IsOwn, IsSame, Put, FoundEmpty, FoundFull};
ghost use Rattle.block_pool.specs.PoolState.{home};

use crate::pool::Pool;
use crate::shared::{Empty, Full, QueuePass, QueuePool};
use raw_block::Sole;
use std::marker::Model;
use std::mem::replace;
use std::sync::Wait;

/// At least one block, with places for more.
#[derive(Drop)]
pub struct BlockList {
    blocks: Pool,
}

impl Model for BlockList {
    ghost use Rattle.std.specs.Prelude.{◌≤◌};
    ghost use Rattle.block_pool.specs.PoolState.{PoolState, home};

    ghost Value = { PoolState };

    ghost view = { λ l. l.blocks };

    ghost invariant = { λ l. 1 ≤ home l.blocks };
}

/// A pool whose blocks come and go list by list. Its counts are of lists.
pub type ListPool = QueuePool<BlockList>;

/// A pass of it.
pub type ListPass = QueuePass<BlockList>;

impl BlockList {
    /// The blocks of a pool as one list.
    pub fn of(blocks: Pool) -> BlockList
        requires some { 1 ≤ home blocks }
        ensures value { result ≡ blocks }
    {
        BlockList { blocks }
    }

    /// The list as a pool again.
    pub fn into_pool(self) -> Pool
        ensures value { result ≡ self }
        ensures some { 1 ≤ home result }
    {
        self.blocks
    }
}

/// A block of the list at hand, or else of the list that is home for longest, which is at hand from then on; the
/// emptied one goes to `spent`. `Empty` only where there was none at hand and the queue held no list at a step of this
/// call, and never where all passes are gathered into this one and its lists, with the one at hand, show a block.
pub fn take_block<R: Wait>(
    rt: &R,
    pool: &ListPool,
    pass: &mut ListPass,
    hand: &mut Pool,
    spent: &mut Vec<Pool>,
) -> Result<Sole, Empty>
    requires own { IsOwn pool.now pass.old }
    requires room { vec_len spent.old < vec_capacity spent.old }
    ensures block { IfOk result (λ block. (h : SoleState → ℕ)
        → h block + sum_by h hand.new.blocks + listed h pass.old.taken
        ≡ sum_by h hand.old.blocks + listed h pass.new.taken) }
    ensures hand { 1 ≤ home hand.old → IfOk result (λ block. FromHand block hand.old hand.new pass.old pass.new
        spent.old.items spent.new.items) }
    ensures list { home hand.old ≡ 0 → IfOk result (λ block. FromList block hand.old hand.new pass.old pass.new
        spent.old.items spent.new.items) }
    ensures empty { IfErr result (λ e. (hand.new ≡ hand.old) × (home hand.old ≡ 0)
        × (spent.new.items ≡ spent.old.items) × (e.takes ≡ pass.old.takes) × FoundEmpty pass.old pass.new) }
    ensures same { IsSame pass.old pass.new × (pass.new.made ≡ pass.old.made) × (pass.new.put ≡ pass.old.put) }
    ensures sure { pass.old.parts ≡ 65536
        → blocks_in pass.old.taken < home hand.old + blocks_in pass.old.made + blocks_in pass.old.put → IsOk result }
    ensures spent { vec_len spent.new + pass.old.takes ≡ vec_len spent.old + pass.new.takes }
    ensures one { (pass.new.takes ≤ pass.old.takes + 1) × (vec_capacity spent.new ≡ vec_capacity spent.old) }
{
    if let Ok(block) = hand.take() {
        return Ok(block);
    }
    let list = pool.take(rt, pass)?;
    let emptied = replace(hand, list.into_pool());
    spent.push_reserved(emptied);
    match hand.take() {
        Ok(block) => Ok(block),
        Err(_) => unreachable!(),
    }
}

/// Brings all blocks of a list home by one step. It comes back as it is where it has none, and where the pool was full:
/// never where all passes are gathered into this one and its counts show fewer lists home than were made (`sure`), or
/// than have a place (`room`).
pub fn put_all<R: Wait>(rt: &R, pool: &ListPool, pass: &mut ListPass, blocks: Pool) -> Option<Pool>
    requires own { IsOwn pool.now pass.old }
    ensures put { MatchOption result (Put pass.old blocks pass.new)
        (λ back. (back ≡ blocks) × (((home blocks ≡ 0) × (pass.new ≡ pass.old)) ⊎ FoundFull pass.old pass.new)) }
    ensures same { IsSame pass.old pass.new }
    ensures sure { 1 ≤ home blocks → pass.old.parts ≡ 65536 → pass.old.puts < pass.old.takes → IsNone result }
    ensures room { 1 ≤ home blocks → pass.old.parts ≡ 65536
        → pool.now.made + pass.old.puts < pool.now.places + pass.old.takes → IsNone result }
{
    if blocks.home() == 0 {
        return Some(blocks);
    }
    match pool.put(rt, pass, BlockList::of(blocks)) {
        Ok(()) => None,
        Err(Full(back)) => Some(back.into_pool()),
    }
}
