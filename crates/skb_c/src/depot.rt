//! A pool, and the room that what is given back goes through.
ghost use Rattle.std.specs.Prelude.{◌≡◌, ◌⊎◌, ℕ, ◌+◌, ◌<◌, ◌≤◌, ◌^◌, [], length, min, MatchOption, MatchResult, IfOk};
ghost use Rattle.std.specs.Prelude.{Some, None, true, ◌∷◌, ◌++◌, vec_capacity};
ghost use Rattle.std.specs.List.{sum_by};
ghost use Rattle.raw_block.specs.Views.{SoleState};
ghost use Rattle.frags.specs.declared.holder.Holder.{Holder};
ghost use Rattle.skb.specs.SkbState.{is_sole};
ghost use Rattle.block_pool.specs.PoolState.{home};
ghost use Rattle.skb_c.specs.Home.{AreLight, BringsHome, IsNewBuffer, IsSame, IsReleased, IsPulled, IsTrimmed};
ghost use Rattle.skb_c.specs.Home.{IsUnshared, IsTakenBack, IsSplit, IsAttached, IsCopied};

use crate::buffer::{Buffer, TOO_MANY, with_rest};
use crate::codes::{EMPTY, NO_MEMORY, OK, USAGE, share_code};
use block_pool::{Empty, Pool};
use core::mem::replace_with;
use frags::{Outcomes, Pieces};
use raw_block::{BLOCK_SIZE, Released, Sole};
use skb::{HEADROOM, Skb, Unshared};
use std::alloc::{AllocError, Global};
use std::marker::Model;

/// A pool, and outcomes that are empty between two calls.
pub struct Depot {
    pub(crate) pool: Pool,
    pub(crate) out: Outcomes,
}

impl Model for Depot {
    ghost use Rattle.std.specs.Prelude.{◌≡◌, []};
    ghost use Rattle.block_pool.specs.PoolState.{PoolState};

    ghost Value = { PoolState };

    ghost view = { λ d. d.pool };

    ghost invariant = { λ d. (d.out.soles ≡ []) × (d.out.receipts ≡ []) };
}

impl Drop for Depot {
    fn drop(self) {
        let Depot { pool: _, out } = self;
        out.settle();
    }
}

impl Depot {
    /// A pool of so many new blocks, all home, and room to bring as many home at once.
    pub(crate) fn make(alloc: Global, blocks: u32) -> Result<Depot, AllocError>
        requires few { blocks ≤ 65536 }
        ensures made { IfOk result (λ p. (home p ≡ blocks) × (p.made ≡ blocks) × (p.taken ≡ 0)) }
    {
        let pool = Pool::make(alloc, blocks)?;
        let out = Outcomes::with_room(alloc, blocks as usize)?;
        Ok(Depot { pool, out })
    }

    /// The blocks that are home.
    pub(crate) fn home(&self) -> u32
        ensures home { result ≡ home self.now }
    {
        self.pool.home()
    }

    /// An empty buffer with so much headroom, in a block of the pool. Where none is home there is none.
    pub(crate) fn buffer(&mut self, alloc: Global, headroom: usize) -> Option<Buffer>
        requires within { headroom ≤ 2048 }
        ensures made { MatchOption result ((home self.old ≡ 0) × (self.new ≡ self.old))
            (IsNewBuffer headroom self.old self.new) }
    {
        match self.pool.take() {
            Ok(block) => Some(Buffer {
                skb: Skb::new(block, headroom, headroom, Pieces::new(alloc)),
            }),
            Err(Empty) => None,
        }
    }

    /// The same in a box, and else why not: the block is home again then.
    pub(crate) fn boxed(
        &mut self,
        alloc: Global,
        headroom: usize,
    ) -> Result<Box<Buffer, Global>, u32>
        requires within { headroom ≤ 2048 }
        ensures made { MatchResult result (λ b. IsNewBuffer headroom self.old self.new b.value)
            (λ code. IsSame self.old self.new × (((home self.old ≡ 0) × (code ≡ 4)) ⊎ (code ≡ 7))) }
    {
        let _ = self.pool.home();
        let Some(buffer) = self.buffer(alloc, headroom) else {
            return Err(EMPTY);
        };
        match Box::new(alloc, buffer) {
            Ok(own) => Ok(own),
            Err(refused) => {
                let (block, none) = refused.value.into_skb().into_blocks();
                none.discard();
                self.pool.put(block);
                Err(NO_MEMORY)
            }
        }
    }

    /// The blocks of a buffer come home, but for those that others hold. Where there is no memory for the list that
    /// they go through the buffer comes back.
    pub(crate) fn release(&mut self, buffer: Box<Buffer, Global>) -> Result<(), Box<Buffer, Global>>
        ensures released { MatchResult result (λ _. IsReleased buffer.value self.old self.new)
            (λ b. (b.value ≡ buffer.value) × (self.new ≡ self.old)) }
    {
        if self.out.reserve(buffer.skb.count()).is_err() {
            return Err(buffer);
        }
        let skb = Box::into_inner(buffer).into_skb();
        skb.release(&mut self.out);
        bring_home(&mut self.pool, &mut self.out);
        Ok(())
    }

    /// The first `n` bytes of a buffer are gone, and blocks that nobody else holds come home.
    pub(crate) fn pull(&mut self, buffer: &mut Buffer, n: usize) -> u32
        ensures pulled { IsPulled n self.old buffer.old self.new (Some buffer.new) result }
    {
        if n > buffer.skb.len() {
            return USAGE;
        }
        if self.out.reserve(buffer.skb.count()).is_err() {
            return NO_MEMORY;
        }
        let Ok(()) = buffer.skb.pull(n, &mut self.out) else {
            unreachable!()
        };
        bring_home(&mut self.pool, &mut self.out);
        OK
    }

    /// The last `n` bytes of a buffer are gone, and blocks that nobody else holds come home.
    pub(crate) fn trim(&mut self, buffer: &mut Buffer, n: usize) -> u32
        ensures trimmed { IsTrimmed n self.old buffer.old self.new (Some buffer.new) result }
    {
        if n > buffer.skb.len() {
            return USAGE;
        }
        if self.out.reserve(buffer.skb.count()).is_err() {
            return NO_MEMORY;
        }
        let Ok(()) = buffer.skb.trim(n, &mut self.out) else {
            unreachable!()
        };
        bring_home(&mut self.pool, &mut self.out);
        OK
    }

    /// Nobody else holds the buffer's head then: its bytes are copied into a block of the pool where others did.
    pub(crate) fn unshare(&mut self, buffer: &mut Buffer) -> u32
        ensures unshared { IsUnshared self.old buffer.old self.new (Some buffer.new) result }
    {
        if buffer.skb.head_is_sole() {
            return OK;
        }
        let _ = self.pool.home();
        let Ok(spare) = self.pool.take() else {
            return EMPTY;
        };
        let back = buffer.skb.unshare(spare);
        take_back(&mut self.pool, back);
        OK
    }

    /// The bytes of a buffer from a place on, as another one, uncopied, and else why not.
    pub(crate) fn split_at(
        &mut self,
        alloc: Global,
        buffer: &mut Buffer,
        at: usize,
    ) -> Result<Box<Buffer, Global>, u32>
        ensures split { MatchResult result (λ c. IsSplit at self.old buffer.old self.new buffer.new (Some c.value) 0)
            (λ code. IsSplit at self.old buffer.old self.new buffer.new None code) }
    {
        let _ = self.pool.home();
        let mut own = match self.boxed(alloc, BLOCK_SIZE) {
            Ok(own) => own,
            Err(code) => return Err(code),
        };
        match buffer.skb.split_at(at) {
            Ok(rest) => {
                replace_with(&mut *own, rest, with_rest);
                Ok(own)
            }
            Err(fault) => {
                self.take_apart(own);
                Err(share_code(fault))
            }
        }
    }

    /// A buffer of the same bytes in blocks of the pool that nobody else holds, and else why not.
    pub(crate) fn copy(
        &mut self,
        alloc: Global,
        buffer: &Buffer,
    ) -> Result<Box<Buffer, Global>, u32>
        ensures copied { MatchResult result (λ c. IsCopied buffer.now self.old self.new (Some c.value) 0)
            (λ code. IsCopied buffer.now self.old self.new None code) }
    {
        let need = (buffer.skb.len() + HEADROOM + (BLOCK_SIZE - 1)) / BLOCK_SIZE;
        if (self.pool.home() as usize) < need {
            return Err(EMPTY);
        }
        let Ok(mut spares) = Vec::with_capacity(alloc, need) else {
            return Err(NO_MEMORY);
        };
        let Ok(block) = Sole::new(alloc) else {
            return Err(NO_MEMORY);
        };
        let Ok(mut own) = Box::new(alloc, Buffer::empty(block, alloc)) else {
            return Err(NO_MEMORY);
        };
        take_spares(&mut self.pool, need, &mut spares);
        let Ok(skb) = buffer.skb.copy(&mut spares) else {
            put_spares(&mut self.pool, spares);
            return Err(NO_MEMORY);
        };
        let _ = Box::replace(&mut own, Buffer { skb });
        Ok(own)
    }

    /// Another buffer's bytes stand behind a buffer's, uncopied. Else it comes back, and why.
    pub(crate) fn attach(
        &mut self,
        alloc: Global,
        buffer: &mut Buffer,
        other: Box<Buffer, Global>,
    ) -> Result<(), (Box<Buffer, Global>, u32)>
        ensures attached { MatchResult result
            (λ _. IsAttached self.old buffer.old other.value self.new buffer.new None 0)
            (λ e. IsAttached self.old buffer.old other.value self.new buffer.new (Some e.0.value) e.1) }
    {
        if other.skb.len() >= TOO_MANY - buffer.skb.len() {
            return Err((other, USAGE));
        }
        if self.out.reserve(1).is_err() {
            return Err((other, NO_MEMORY));
        }
        // The box holds a block of its own while its buffer is away, so that the buffer can come back.
        let Ok(block) = Sole::new(alloc) else {
            return Err((other, NO_MEMORY));
        };
        let mut place = other;
        let skb = Box::replace(&mut place, Buffer::empty(block, alloc)).into_skb();
        if let Err((skb, _)) = buffer.skb.attach(skb, &mut self.out) {
            let _ = Box::replace(&mut place, Buffer { skb });
            return Err((place, NO_MEMORY));
        }
        bring_home(&mut self.pool, &mut self.out);
        Ok(())
    }

    /// The block of a buffer that has no pieces comes home.
    fn take_apart(&mut self, own: Box<Buffer, Global>)
        requires bare { is_sole own.value.head ≡ true }
        requires empty { own.value.rest ≡ [] }
        requires room { home self.old < self.old.made }
        ensures home { (s : SoleState) × (own.value.head ≡ Holder.Sole s)
            × (self.new.blocks ≡ self.old.blocks ++ s ∷ []) × (self.new.made ≡ self.old.made) }
    {
        let (block, none) = Box::into_inner(own).into_skb().into_blocks();
        none.discard();
        self.pool.put(block);
    }
}

/// Blocks of the pool, into places that are reserved.
fn take_spares(pool: &mut Pool, n: usize, spares: &mut Vec<Sole>)
    requires home { n ≤ home pool.old }
    requires room { (spares.old.items ≡ []) × (n ≤ vec_capacity spares.old) }
    ensures count { (length spares.new.items ≡ n) × (home pool.new + n ≡ home pool.old) }
    ensures made { pool.new.made ≡ pool.old.made }
    ensures blocks { (h : SoleState → ℕ) → sum_by h pool.new.blocks + sum_by h spares.new.items
        ≡ sum_by h pool.old.blocks }
{
    for _ in 0..n {
        match pool.take() {
            Ok(block) => spares.push_reserved(block),
            Err(Empty) => unreachable!(),
        }
    }
}

/// The same back, to a pool that has places for them.
fn put_spares(pool: &mut Pool, mut spares: Vec<Sole>)
    requires room { home pool.old + length spares.items ≤ pool.old.made }
    ensures home { home pool.new ≡ home pool.old + length spares.items }
    ensures made { pool.new.made ≡ pool.old.made }
    ensures blocks { (h : SoleState → ℕ) → sum_by h pool.new.blocks
        ≡ sum_by h pool.old.blocks + sum_by h spares.items }
{
    while let Some(block) = spares.pop() {
        pool.put(block);
    }
}

/// What `unshare` gives back, to a pool that has a place for it.
fn take_back(pool: &mut Pool, back: Unshared)
    requires room { home pool.old < pool.old.made }
    ensures back { IsTakenBack back pool.old pool.new }
{
    match back {
        Unshared::Unused(block) => pool.put(block),
        Unshared::Gave(released, _) => match released {
            Released::Last(block) => pool.put(block),
            Released::Left(receipt) => receipt.close(),
        },
    }
}

/// Blocks that were given back come home, as many as have a place there, and receipts are closed.
pub(crate) fn bring_home(pool: &mut Pool, out: &mut Outcomes)
    ensures home { BringsHome out.old pool.old pool.new }
    ensures light { AreLight out.old.receipts }
    ensures none { (out.new.soles ≡ []) × (out.new.receipts ≡ []) }
{
    bring_blocks(pool, out);
    while let Some(receipt) = out.pop_receipt() {
        let _ = receipt.weight();
        receipt.close();
    }
}

fn bring_blocks(pool: &mut Pool, out: &mut Outcomes)
    ensures home { BringsHome out.old pool.old pool.new }
    ensures none { (out.new.soles ≡ []) × (out.new.receipts ≡ out.old.receipts) }
{
    let _ = pool.home();
    while let Some(sole) = out.pop_sole() {
        if pool.home() < pool.made() {
            pool.put(sole);
        }
    }
}
