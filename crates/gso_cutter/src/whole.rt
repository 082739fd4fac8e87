//! A frame that is given as it is, in a spare's block: an empty head, and all of it as pieces.

ghost use Rattle.std.specs.Prelude.{◌≡◌, ◌+◌, ◌≤◌, ℕ, List, length, false, true};
ghost use Rattle.frags.specs.Growth.{Grows};
ghost use Rattle.frags.specs.Account.{Keeps, both, of_outcomes};
ghost use Rattle.skb.specs.SkbState.{buffer_least, is_sole, of_buffer};
ghost use Rattle.gso_cutter.specs.Whole.{WholeState};
ghost use Rattle.gso_cutter.specs.Cutting.{IsLeft, IsNext, NextCount, NextAccount};
ghost use Rattle.gso_cutter.specs.declared.cutter.Work.TheVariants.{Whole as WholeWork};

use crate::cutter::Cut;
use crate::open::cut_behind;
use frags::Outcomes;
use raw_block::Sole;
use skb::{HEADROOM, Skb};
use std::alloc::AllocError;
use std::marker::Model;

/// A buffer, and whether its frame is still to be given.
pub(crate) struct Whole {
    skb: Skb,
    is_left: bool,
}

impl Model for Whole {
    ghost use Rattle.gso_cutter.specs.Whole.{WholeState, IsWhole};

    ghost Value = { WholeState };

    ghost view = { λ w. record { skb = w.skb; is_left = w.is_left } };

    ghost invariant = { λ w. IsWhole (record { skb = w.skb; is_left = w.is_left }) };
}

impl Whole {
    pub(crate) fn new(skb: Skb, is_left: bool) -> Whole
        requires least { is_left ≡ true → 2048 ≤ buffer_least skb }
        ensures same { result ≡ record { skb = skb; is_left = is_left } }
    {
        Whole { skb, is_left }
    }

    /// The frame, where it is still to be given.
    pub(crate) fn next(&mut self, spare: Sole) -> Result<Cut, (Sole, AllocError)>
        ensures next { (frames : List (List ℕ)) → IsLeft frames (WholeWork self.old)
            → IsNext frames (WholeWork self.old) spare (WholeWork self.new) result }
        ensures count { NextCount (WholeWork self.old) (WholeWork self.new) result }
        ensures account { NextAccount (WholeWork self.old) spare (WholeWork self.new) result }
        ensures shared { is_sole self.old.skb.head ≡ false → is_sole self.new.skb.head ≡ false }
    {
        if !self.is_left {
            return Ok(Cut::Done(spare));
        }
        let Ok(all) = cut_behind(&mut self.skb, 0) else {
            return Err((spare, AllocError));
        };
        self.is_left = false;
        let _ = all.len();
        Ok(Cut::Segment(Skb::new(spare, HEADROOM, HEADROOM, all)))
    }

    pub(crate) fn count(&self) -> usize
        ensures count { result ≡ length self.now.skb.rest + 1 }
    {
        self.skb.count()
    }

    pub(crate) fn release(self, out: &mut Outcomes)
        requires room { length self.skb.rest + 1 ≤ out.old.spare }
        ensures kept { Keeps (both (of_buffer self.skb) (of_outcomes out.old)) (of_outcomes out.new) }
        ensures grows { Grows (length self.skb.rest + 1) out.old out.new }
        ensures places { out.old.spare ≤ out.new.spare + (length self.skb.rest + 1) }
    {
        let Whole { skb, is_left: _ } = self;
        skb.release(out);
    }
}
