//! A merged frame, cut into its segments.

ghost use Rattle.std.specs.Prelude.{◌≡◌, ◌+◌, ◌≤◌, [], ℕ, List, false, length, drop};
ghost use Rattle.frags.specs.Account.{Keeps, both, of_outcomes};
ghost use Rattle.frags.specs.Growth.{Grows};
ghost use Rattle.skb.specs.SkbState.{buffer_bytes, buffer_least, is_sole};
ghost use Rattle.gso.specs.Planning.{IsSegmentsReady};
ghost use Rattle.gso_cutter.specs.Merged.{MergedState, IsAt, GivesSegment, IsGiven};
ghost use Rattle.gso_cutter.specs.Cutting.{NextCount, NextAccount, count_of, of_merged};
ghost use Rattle.gso_cutter.specs.declared.cutter.Work.TheVariants.{Merged as MergedWork};

use crate::cutter::Cut;
use crate::headers::put_headers;
use crate::open::{cut_off, open};
use crate::sums::of_segment;
use frags::{Outcomes, Pieces};
use gso::Sums;
use raw_block::Sole;
use segment_rule::Segmentation;
use skb::{HEADROOM, Skb};
use std::alloc::AllocError;
use std::marker::Model;

/// A merged frame of which `i` segments were given. The buffer has its headers, and the rest of its payload too until
/// the first segment was cut off; `pieces` then have that.
pub(crate) struct Merged {
    skb: Skb,
    pieces: Pieces,
    cut: Segmentation,
    sums: Sums,
    i: u32,
}

impl Model for Merged {
    ghost use Rattle.gso_cutter.specs.Merged.{MergedState, IsCutting};

    ghost Value = { MergedState };

    ghost view = { λ c. record { skb = c.skb; pieces = c.pieces; cut = c.cut; sums = c.sums; i = c.i } };

    ghost invariant = { λ c. IsCutting (record {
      skb = c.skb;
      pieces = c.pieces;
      cut = c.cut;
      sums = c.sums;
      i = c.i;
    }) };
}

impl Merged {
    pub(crate) fn new(skb: Skb, cut: Segmentation, sums: Sums) -> Merged
        requires ready { IsSegmentsReady skb cut sums }
        requires least { 2048 ≤ buffer_least skb }
        ensures same { result ≡ record { skb = skb; pieces = []; cut = cut; sums = sums; i = 0 } }
        ensures at { IsAt (buffer_bytes skb) result }
    {
        let pieces = Pieces::new(skb.allocator());
        Merged {
            skb,
            pieces,
            cut,
            sums,
            i: 0,
        }
    }

    /// The next segment. Where memory is refused, at the opening of the buffer or at the cut of the payload, the same
    /// one is next.
    pub(crate) fn next(&mut self, spare: Sole) -> Result<Cut, (Sole, AllocError)>
        ensures next { (f : List ℕ) → IsAt f self.old → IsGiven f self.old spare self.new result }
        ensures count { NextCount (MergedWork self.old) (MergedWork self.new) result }
        ensures account { NextAccount (MergedWork self.old) spare (MergedWork self.new) result }
        ensures shared { is_sole self.old.skb.head ≡ false → is_sole self.new.skb.head ≡ false }
    {
        if self.i == self.cut.n {
            return Ok(Cut::Done(spare));
        }
        let at = self.cut.layout.payload_at();
        let Ok(()) = open(&mut self.skb, &mut self.pieces, at) else {
            return Err((spare, AllocError));
        };
        let n = (self.cut.m as usize).min(self.pieces.len());
        let Ok(front) = cut_off(&mut self.pieces, n) else {
            return Err((spare, AllocError));
        };
        let mut block = spare;
        let sum = of_segment(&self.sums, &self.cut, self.i, &front);
        put_headers(&mut block, self.skb.head(), &self.cut, self.i, sum);
        self.i += 1;
        Ok(Cut::Segment(Skb::new(block, HEADROOM, HEADROOM + at, front)))
    }

    pub(crate) fn count(&self) -> usize
        ensures count { result ≡ (length self.now.skb.rest + 1) + length self.now.pieces }
    {
        let _ = self.skb.len();
        let _ = self.pieces.len();
        self.skb.count() + self.pieces.count()
    }

    pub(crate) fn release(self, out: &mut Outcomes)
        requires room { (length self.skb.rest + 1) + length self.pieces ≤ out.old.spare }
        ensures kept { Keeps (both (of_merged self) (of_outcomes out.old)) (of_outcomes out.new) }
        ensures grows { Grows ((length self.skb.rest + 1) + length self.pieces) out.old out.new }
        ensures places { out.old.spare ≤ out.new.spare + ((length self.skb.rest + 1) + length self.pieces) }
    {
        let Merged {
            skb,
            pieces,
            cut: _,
            sums: _,
            i: _,
        } = self;
        skb.release(out);
        pieces.release(out);
    }
}
