//! Who holds a block, and what a part of it gives away.
ghost use Rattle.std.specs.Prelude.{◌≡◌, ◌≢◌, ◌<◌, ◌≤◌};
ghost use Rattle.block_weight.specs.WeightRule.{full_weight};
ghost use Rattle.frags.specs.Gifts.{less, gave};
ghost use Rattle.frags.specs.Holders.{AsPart, name_of};
ghost use Rattle.frags.specs.Returns.{Frees};

use raw_block::{Part, Released, Sole};

/// A block's only holder, or one beside others.
pub enum Holder {
    Sole(Sole),
    Part(Part),
}

impl Holder {
    /// A part of the block. A Sole is shared, and its part has all the weight.
    pub fn into_part(self) -> Part
        ensures part { AsPart self result }
        ensures weight { (0 < result.weight) × (result.weight ≤ full_weight) }
    {
        match self {
            Holder::Sole(sole) => sole.share(),
            Holder::Part(part) => {
                let _ = part.weight();
                part
            }
        }
    }

    /// A Sole that stands beside a holder is of another block.
    pub fn differ_from(&mut self, sole: &mut Sole)
        ensures others { name_of self.old ≢ sole.old.block }
        ensures same { (self.new ≡ self.old) × (sole.new ≡ sole.old) }
    {
        match self {
            Holder::Sole(own) => own.differ(sole),
            Holder::Part(part) => sole.differ_from_part(part),
        }
    }

    /// Gives the block up, frees it where nobody else holds it, and answers how many blocks were freed: a Sole's and
    /// that of a part of all the weight always. It takes no memory, and no outcomes.
    pub fn free(self) -> usize
        ensures freed { Frees self result }
    {
        match self {
            Holder::Sole(_sole) => 1,
            Holder::Part(part) => {
                let _ = part.weight();
                match part.release() {
                    Released::Last(_sole) => 1,
                    Released::Left(receipt) => {
                        receipt.close();
                        0
                    }
                }
            }
        }
    }
}

/// A second part, which gets `max(1, weight / 4096)` of a part's weight. A part of weight 1 has nothing to give.
pub fn give_share(part: &mut Part) -> Part
    requires fresh { part.old.weight ≢ 1 }
    ensures share { result ≡ gave part.old }
    ensures left { part.new ≡ less part.old }
{
    let weight = part.weight();
    part.split((weight / 4096).max(1))
}
