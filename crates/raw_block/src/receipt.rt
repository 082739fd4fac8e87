//! What releases and claims give beside a block's holders.
ghost use Rattle.std.specs.Prelude.{◌≡◌, ◌+◌, ◌<◌};
ghost use Rattle.block_weight.specs.WeightRule.{full_weight};

use crate::held::{GivenBack, WordSeen};
use std::marker::Model;

/// That so much weight of a life was given back. It must be spent: added, reunited or closed.
pub struct Receipt {
    /// What proofs know of the release. It has no bytes.
    pub(crate) given_back: GivenBack,
    /// From 1 to `FULL - 1`: that of the released part, or of all whose receipts were added.
    pub(crate) weight: u64,
    /// That of the parts of the life.
    pub(crate) mark: u32,
}

impl Model for Receipt {
    ghost use Rattle.std.specs.Prelude.{◌≡◌, ◌<◌};
    ghost use Rattle.block_weight.specs.WeightRule.{full_weight};
    ghost use Rattle.raw_block.specs.Views.{ReceiptState};

    ghost Value = { ReceiptState };

    ghost view = { λ r. record {
      life = r.given_back.life;
      weight = r.weight;
      mark = r.mark;
    } };

    ghost invariant = { λ r. (r.given_back.weight ≡ r.weight) × (r.given_back.mark ≡ r.mark) × (0 < r.weight)
        × (r.weight < full_weight) };
}

impl Receipt {
    /// The weight that was given back.
    pub fn weight(&self) -> u64
        ensures value { result ≡ self.now.weight }
        ensures range { (0 < result) × (result < full_weight) }
    {
        self.weight
    }

    /// The mark of the part that was given back.
    pub fn mark(&self) -> u32
        ensures value { result ≡ self.now.mark }
    {
        self.mark
    }

    /// Adds a receipt of the same life. Together they weigh less than the full weight, and they have the same mark.
    pub fn add(&mut self, other: Receipt)
        requires life { other.life ≡ self.old.life }
        ensures added { self.new ≡ record self.old { weight = self.old.weight + other.weight } }
        ensures range { self.new.weight < full_weight }
        ensures agree { other.mark ≡ self.old.mark }
    {
        let Receipt {
            given_back,
            weight,
            mark: _,
        } = other;
        self.given_back.add(given_back);
        self.weight += weight;
    }

    /// Spends the receipt.
    pub fn close(self) {
        let Receipt {
            given_back,
            weight: _,
            mark: _,
        } = self;
        given_back.close();
    }
}

/// What the word of a life was at a failed claim.
#[derive(Drop)]
pub struct Sight {
    /// What proofs know of that step. It has no bytes.
    pub(crate) seen: WordSeen,
    /// What all parts of the life weighed together at that step, more than the part that claimed.
    pub(crate) total: u64,
}

impl Model for Sight {
    ghost use Rattle.std.specs.Prelude.{◌≡◌};
    ghost use Rattle.raw_block.specs.Views.{SightState};

    ghost Value = { SightState };

    ghost view = { λ s. record { life = s.seen.life; total = s.total } };

    ghost invariant = { λ s. s.seen.total ≡ s.total };
}

impl Sight {
    /// What all holders of the life weighed together at that step.
    pub fn total(&self) -> u64
        ensures value { result ≡ self.now.total }
    {
        self.total
    }
}
