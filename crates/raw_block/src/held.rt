//! A weighed share of a block, and what each step on the block's word leaves of it.
//!
//! The structs of this module hold nothing but an address. What they own stands in `specs/Shares.antt`, and the
//! functions here are proved by hand against it. Three of them step the word, once each: `release`, `claim` and
//! `reunite`. The steps are `SeqCst`, the one order that the toolchain has; on x86 a weaker one would be the same
//! instruction.
ghost use Rattle.std.specs.Prelude.{◌≡◌, ◌≢◌, ℕ, ◌+◌, ◌<◌, ◌≤◌};
ghost use Rattle.block_weight.specs.WeightRule.{full_weight};
ghost use Rattle.raw_block.specs.Views.{Life};
ghost use Rattle.raw_block.specs.Shares.{share_owns, share_shares, given_back_owns, released_owns, claimed_owns};
ghost use Rattle.raw_block.specs.Shares.{seen_owns};

use crate::block::Block;
use crate::heap::OnHeap;
use crate::name::Name;
use atomic_table::exchange;
use std::alloc::Global;
use std::marker::{Brand, Model};
use std::sync::atomic::Ordering::SeqCst;
use std::sync::atomic::raw;

/// A share of a block's life, of some weight.
pub(crate) struct Share<T> {
    at: *mut Block<T>,
    ghost weight: { ℕ },
    ghost life: { Life },
    ghost mark: { ℕ },
    ghost content: { T },
}

impl<T> Model for Share<T> {
    ghost also_owns = { λ s. share_owns T.row s.at s.life s.content s.mark s.weight };

    ghost also_shares = { λ s _ κ. share_shares T.row s.at s.content κ };
}

/// That a share of some weight was released in a life, and was not the last.
pub(crate) struct GivenBack {
    ghost weight: { ℕ },
    ghost life: { Life },
    ghost mark: { ℕ },
}

impl Model for GivenBack {
    ghost also_owns = { λ g. given_back_owns g.life g.mark g.weight };
}

/// That the word of a life was this number at a step.
#[derive(Drop)]
pub(crate) struct WordSeen {
    ghost total: { ℕ },
    ghost life: { Life },
}

impl Model for WordSeen {
    ghost also_owns = { λ s. seen_owns s.life s.total };
}

/// What a release left: the block where the step found the share's own weight, and else that it was given back.
pub(crate) struct AfterRelease<T> {
    at: *mut Block<T>,
    ghost found: { ℕ },
    ghost weight: { ℕ },
    ghost life: { Life },
    ghost mark: { ℕ },
    ghost content: { T },
}

impl<T> Model for AfterRelease<T> {
    ghost also_owns = { λ r. released_owns T.row r.at r.life r.content r.mark r.weight r.found };
}

/// What a claim left: the block where the step found the share's own weight, and else the share.
pub(crate) struct AfterClaim<T> {
    at: *mut Block<T>,
    ghost found: { ℕ },
    ghost weight: { ℕ },
    ghost life: { Life },
    ghost mark: { ℕ },
    ghost content: { T },
}

impl<T> Model for AfterClaim<T> {
    ghost also_owns = { λ c. claimed_owns T.row c.at c.life c.content c.mark c.weight c.found };
}

impl<T> Share<T> {
    /// A life of the block begins, with all its weight in one share. It keeps the block's name.
    pub(crate) fn begin(block: OnHeap<Block<T>>, mark: u32, name: Name) -> Share<T>
        requires word { block.value.word ≡ full_weight }
        ensures begun { (result.weight ≡ full_weight) × (result.mark ≡ mark) × (result.content ≡ block.value.content)
            × (result.life.block ≡ name.id) }
    {
        let OnHeap { at } = block;
        let _ = mark;
        let Name {} = name;
        Share { at }
    }

    pub(crate) fn content(&self) -> &T
        ensures same { result.now ≡ self.now.content }
    {
        unsafe { &(*self.at).content }
    }

    pub(crate) fn split(&mut self, give: u64) -> Share<T>
        requires range { (0 < give) × (give < self.old.weight) }
        ensures given { (result.weight ≡ give) × (result.life ≡ self.old.life) × (result.mark ≡ self.old.mark)
            × (result.content ≡ self.old.content) }
        ensures kept { (self.new.weight + give ≡ self.old.weight) × (self.new.life ≡ self.old.life)
            × (self.new.mark ≡ self.old.mark) × (self.new.content ≡ self.old.content) }
    {
        let _ = give;
        Share { at: self.at }
    }

    /// The weights add. That two shares of one life agree on its mark and its content is told of the other.
    pub(crate) fn join(&mut self, other: Share<T>)
        requires life { other.life ≡ self.old.life }
        ensures joined { (self.new.weight ≡ self.old.weight + other.weight) × (self.new.weight ≤ full_weight)
            × (self.new.life ≡ self.old.life) × (self.new.mark ≡ self.old.mark)
            × (self.new.content ≡ self.old.content) }
        ensures agree { (other.mark ≡ self.old.mark) × (other.content ≡ self.old.content) }
    {
        let Share { at: _ } = other;
    }

    /// A name that is owned beside a share is not that of its block, since the life has that one.
    pub(crate) fn differ_from(&mut self, name: &mut Name)
        ensures names { self.old.life.block ≢ name.old.id }
        ensures same { (self.new ≡ self.old) × (name.new.id ≡ name.old.id) }
    {}

    /// One fetch-sub. The number that it answers decides what is left.
    pub(crate) fn release(self, weight: u64) -> (u64, AfterRelease<T>)
        requires own { weight ≡ self.weight }
        ensures found { (result.1.found ≡ result.0) × (result.1.weight ≡ self.weight) × (result.1.life ≡ self.life)
            × (result.1.mark ≡ self.mark) × (result.1.content ≡ self.content) }
    {
        let Share { at } = self;
        let found = unsafe { raw::fetch_sub::<Brand>(&raw const (*at).word, weight, SeqCst) };
        (found, AfterRelease { at })
    }

    /// One compare-exchange of the weight for 0. The number that it answers decides what is left.
    pub(crate) fn claim(self, weight: u64) -> (u64, AfterClaim<T>)
        requires own { weight ≡ self.weight }
        ensures found { (result.1.found ≡ result.0) × (result.1.weight ≡ self.weight) × (result.1.life ≡ self.life)
            × (result.1.mark ≡ self.mark) × (result.1.content ≡ self.content) }
    {
        let Share { at } = self;
        let found = unsafe { exchange::<Brand>(&raw const (*at).word, weight, 0) };
        (found, AfterClaim { at })
    }

    /// One compare-exchange, which cannot miss: with what was given back the share has all the weight.
    pub(crate) fn reunite(self, given_back: GivenBack, weight: u64) -> AfterRelease<T>
        requires whole { (weight ≡ self.weight) × (given_back.life ≡ self.life)
            × (self.weight + given_back.weight ≡ full_weight) }
        ensures block { (result.found ≡ self.weight) × (result.weight ≡ self.weight) × (result.life ≡ self.life)
            × (result.mark ≡ self.mark) × (result.content ≡ self.content) }
        ensures agree { given_back.mark ≡ self.mark }
    {
        let Share { at } = self;
        let GivenBack {} = given_back;
        let _ = unsafe { exchange::<Brand>(&raw const (*at).word, weight, 0) };
        AfterRelease { at }
    }
}

impl<T> AfterRelease<T> {
    /// The block and its name, where the step found the share's own weight.
    pub(crate) fn last(self) -> (OnHeap<Block<T>>, Name)
        requires found { self.found ≡ self.weight }
        ensures block { (result.0.value.word ≡ 0) × (result.0.value.content ≡ self.content)
            × (result.1.id ≡ self.life.block) }
    {
        let AfterRelease { at } = self;
        (OnHeap { at }, Name {})
    }

    /// That the weight was given back, where the step found another number.
    pub(crate) fn left(self) -> GivenBack
        requires found { self.found ≢ self.weight }
        ensures receipt { (result.weight ≡ self.weight) × (result.life ≡ self.life) × (result.mark ≡ self.mark)
            × (self.weight < self.found) × (self.found ≤ full_weight) }
    {
        let AfterRelease { at: _ } = self;
        GivenBack {}
    }
}

impl<T> AfterClaim<T> {
    /// The block and its name, where the step found the share's own weight.
    pub(crate) fn won(self) -> (OnHeap<Block<T>>, Name)
        requires found { self.found ≡ self.weight }
        ensures block { (result.0.value.word ≡ 0) × (result.0.value.content ≡ self.content)
            × (result.1.id ≡ self.life.block) }
    {
        let AfterClaim { at } = self;
        (OnHeap { at }, Name {})
    }

    /// The share again, and what the step saw, where it found another number.
    pub(crate) fn lost(self) -> (Share<T>, WordSeen)
        requires found { self.found ≢ self.weight }
        ensures share { (result.0.weight ≡ self.weight) × (result.0.life ≡ self.life) × (result.0.mark ≡ self.mark)
            × (result.0.content ≡ self.content) }
        ensures seen { (result.1.life ≡ self.life) × (result.1.total ≡ self.found) × (self.weight < self.found)
            × (self.found ≤ full_weight) }
    {
        let AfterClaim { at } = self;
        (Share { at }, WordSeen {})
    }
}

impl GivenBack {
    /// The weights add, and stay below the full weight. That both are of one mark is told of the other.
    pub(crate) fn add(&mut self, other: GivenBack)
        requires life { other.life ≡ self.old.life }
        ensures added { (self.new.weight ≡ self.old.weight + other.weight) × (self.new.weight < full_weight)
            × (self.new.life ≡ self.old.life) × (self.new.mark ≡ self.old.mark) }
        ensures agree { other.mark ≡ self.old.mark }
    {
        let GivenBack {} = other;
    }

    pub(crate) fn close(self) {
        let GivenBack {} = self;
    }
}

unsafe impl<T: Send + Sync> Send for Share<T> {}

unsafe impl<T: Send + Sync> Sync for Share<T> {}

unsafe impl Send for GivenBack {}

unsafe impl Send for WordSeen {}
