//! A weighed part of a block that several hold.
ghost use Rattle.std.specs.Prelude.{◌≡◌, ◌+◌, ◌<◌, ◌≤◌, ◌-◌, length};
ghost use Rattle.block_weight.specs.WeightRule.{full_weight};
ghost use Rattle.raw_block.specs.Releases.{IsReleased, IsLast, IsClaimed, IsSole};

use crate::block::Bytes;
use crate::held::Share;
use crate::receipt::{Receipt, Sight};
use crate::sole::Sole;
use std::alloc::Global;
use std::marker::Model;

/// A holder of a block beside others, by a part of its weight. It must be spent: released, claimed, joined or reunited.
pub struct Part {
    /// The block's address, and what proofs know the part to own of its life.
    pub(crate) share: Share<Bytes>,
    /// From 1 to `FULL`. The block's word is what all parts of the life weigh together.
    pub(crate) weight: u64,
    /// Where the block's memory came from: the last holder makes a box of the block with it.
    pub(crate) alloc: Global,
    /// The Sole's as the life began, the same in all parts and receipts of the life.
    pub(crate) mark: u32,
}

impl Model for Part {
    ghost use Rattle.std.specs.Prelude.{◌≡◌};
    ghost use Rattle.block_weight.specs.WeightRule.{IsWeight};
    ghost use Rattle.raw_block.specs.Views.{PartState};

    ghost Value = { PartState };

    ghost view = { λ p. record {
      life = p.share.life;
      weight = p.weight;
      bytes = p.share.content.bytes;
      mark = p.mark;
    } };

    ghost invariant = { λ p. (p.share.weight ≡ p.weight) × (p.share.mark ≡ p.mark) × IsWeight p.weight };
}

/// What a part's release leaves.
pub enum Released {
    /// The part was the last of its life.
    Last(Sole),
    /// Others hold the block: that the part's weight was given back.
    Left(Receipt),
}

/// What a part's claim leaves.
pub enum Claimed {
    /// The part was the only one of its life.
    Sole(Sole),
    /// Others hold the block: the part as it was, and what the word was.
    Shared(Part, Sight),
}

impl Part {
    /// The 2048 bytes that the life began with.
    pub fn bytes(&self) -> &[u8]
        ensures value { result.now ≡ self.now.bytes }
        ensures size { length result.now ≡ 2048 }
    {
        &self.share.content().bytes
    }

    /// Its weight, from 1 to `FULL`.
    pub fn weight(&self) -> u64
        ensures value { result ≡ self.now.weight }
        ensures range { (0 < result) × (result ≤ full_weight) }
    {
        self.weight
    }

    /// The mark that its block had as the life began.
    pub fn mark(&self) -> u32
        ensures value { result ≡ self.now.mark }
    {
        self.mark
    }

    /// A second part of the weight `give`, which this one gives away.
    pub fn split(&mut self, give: u64) -> Part
        requires range { (0 < give) × (give < self.old.weight) }
        ensures given { result ≡ record self.old { weight = give } }
        ensures kept { self.new ≡ record self.old { weight = self.old.weight - give } }
    {
        let share = self.share.split(give);
        self.weight -= give;
        Part {
            share,
            weight: give,
            alloc: self.alloc,
            mark: self.mark,
        }
    }

    /// Two parts of one life become one of both weights. They have the same bytes and the same mark.
    pub fn join(&mut self, other: Part)
        requires life { other.life ≡ self.old.life }
        ensures joined { self.new ≡ record self.old { weight = self.old.weight + other.weight } }
        ensures range { self.new.weight ≤ full_weight }
        ensures agree { (other.bytes ≡ self.old.bytes) × (other.mark ≡ self.old.mark) }
    {
        let Part {
            share,
            weight,
            alloc: _,
            mark: _,
        } = other;
        self.share.join(share);
        self.weight += weight;
    }

    /// Ends this part, by one fetch-sub of its weight. The number that the step answers decides: `Last` exactly where
    /// the word held this part's weight, since the block has no other holder then, and else `Left`. A part that weighs
    /// all of its life is the last.
    pub fn release(self) -> Released
        ensures answer { IsReleased self result }
        ensures whole { (self.weight ≡ full_weight) → IsLast result }
    {
        let Part {
            share,
            weight,
            alloc,
            mark,
        } = self;
        let (found, after) = share.release(weight);
        if found == weight {
            let (block, name) = after.last();
            Released::Last(Sole {
                block: block.into_box(alloc),
                name,
                alloc,
                mark,
            })
        } else {
            Released::Left(Receipt {
                given_back: after.left(),
                weight,
                mark,
            })
        }
    }

    /// Asks for the block back, by one compare-exchange of the part's weight for 0. The number that the step answers
    /// decides: `Sole` exactly where the word held this part's weight, and else `Shared`, with what it held. A part
    /// that weighs all of its life is never refused.
    pub fn claim(self) -> Claimed
        ensures answer { IsClaimed self result }
        ensures whole { (self.weight ≡ full_weight) → IsSole result }
    {
        let Part {
            share,
            weight,
            alloc,
            mark,
        } = self;
        let (found, after) = share.claim(weight);
        if found == weight {
            let (block, name) = after.won();
            Claimed::Sole(Sole {
                block: block.into_box(alloc),
                name,
                alloc,
                mark,
            })
        } else {
            let (share, seen) = after.lost();
            Claimed::Shared(
                Part {
                    share,
                    weight,
                    alloc,
                    mark,
                },
                Sight { seen, total: found },
            )
        }
    }

    /// The block back, from a part and a receipt that weigh `FULL` together: its compare-exchange cannot miss.
    pub fn reunite(self, receipt: Receipt) -> Sole
        requires whole { (receipt.life ≡ self.life) × (self.weight + receipt.weight ≡ full_weight) }
        ensures sole { (result.block ≡ self.life.block) × (result.bytes ≡ self.bytes) × (result.mark ≡ self.mark) }
        ensures agree { receipt.mark ≡ self.mark }
    {
        let Part {
            share,
            weight,
            alloc,
            mark,
        } = self;
        let Receipt {
            given_back,
            weight: _,
            mark: _,
        } = receipt;
        let (block, name) = share.reunite(given_back, weight).last();
        Sole {
            block: block.into_box(alloc),
            name,
            alloc,
            mark,
        }
    }
}
