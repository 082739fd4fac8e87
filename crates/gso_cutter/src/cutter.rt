//! The packets of a record, one by one.

ghost use Rattle.std.specs.Prelude.{◌≡◌, ◌+◌, ◌≤◌, ℕ, List, length, map, false};
ghost use Rattle.pcap_io.specs.Capture.{Packet};
ghost use Rattle.frags.specs.Account.{Keeps, KeepsMarks, both, of_sole, of_outcomes};
ghost use Rattle.frags.specs.Growth.{Grows};
ghost use Rattle.skb.specs.SkbState.{is_sole, buffer_bytes, buffer_least, of_buffer};
ghost use Rattle.gso.specs.Planning.{IsPlanOf, packets_by};
ghost use Rattle.gso_cutter.specs.Cutting.{IsLeft, IsNext, NextCount, NextAccount, count_of, head_of, of_work, of_next};

use crate::merged::Merged;
use crate::whole::Whole;
use frags::Outcomes;
use gso::Plan;
use raw_block::Sole;
use skb::Skb;
use std::alloc::AllocError;
use std::marker::Model;

/// What `next` gives.
pub enum Cut {
    /// The next packet's frame. Its head is the spare's block.
    Segment(Skb),
    /// All were given: the spare.
    Done(Sole),
}

/// What a record is cut as.
pub(crate) enum Work {
    /// A frame that is given as it is, or that isn't given.
    Whole(Whole),
    /// A merged frame.
    Merged(Merged),
}

/// The packets that a record stands for, of which some were given. It must be spent: released.
pub struct Cutter {
    /// What is still to be given.
    work: Work,
}

impl Model for Cutter {
    ghost use Rattle.gso_cutter.specs.declared.cutter.Work.{Work};

    ghost Value = { Work };

    ghost view = { λ c. c.work };
}

impl Cutter {
    /// Begins with a buffer and its plan. It takes no memory and copies nothing.
    pub fn start(skb: Skb, plan: Plan) -> Cutter
        requires plan { IsPlanOf skb plan }
        requires least { 2048 ≤ buffer_least skb }
        ensures left { (p : Packet) → p.frame ≡ buffer_bytes skb
            → IsLeft (map (λ q. q.frame) (packets_by plan p)) result }
        ensures count { count_of result ≡ length skb.rest + 1 }
        ensures account { of_work result ≡ of_buffer skb }
        ensures head { head_of result ≡ skb.head }
    {
        let work = match plan {
            Plan::Nothing => Work::Whole(Whole::new(skb, false)),
            Plan::Single => Work::Whole(Whole::new(skb, true)),
            Plan::Segments(cut, sums) => Work::Merged(Merged::new(skb, cut, sums)),
        };
        Cutter { work }
    }

    /// The next packet's frame, in the spare's block, or the spare where all were given. Where memory is refused the
    /// spare comes back, and the same frames are still to come.
    pub fn next(&mut self, spare: Sole) -> Result<Cut, (Sole, AllocError)>
        ensures next { (frames : List (List ℕ)) → IsLeft frames self.old
            → IsNext frames self.old spare self.new result }
        ensures count { NextCount self.old self.new result }
        ensures account { NextAccount self.old spare self.new result }
        ensures parts { is_sole (head_of self.old) ≡ false
            → Keeps (both (of_work self.old) (of_sole spare)) (both (of_work self.new) (of_next result)) }
        ensures shared { is_sole (head_of self.old) ≡ false → is_sole (head_of self.new) ≡ false }
        ensures marks { KeepsMarks (both (of_work self.old) (of_sole spare))
            (both (of_work self.new) (of_next result)) }
    {
        match &mut self.work {
            Work::Whole(whole) => whole.next(spare),
            Work::Merged(merged) => merged.next(spare),
        }
    }

    /// The blocks and parts that it holds.
    pub fn count(&self) -> usize
        ensures count { result ≡ count_of self.now }
    {
        match &self.work {
            Work::Whole(whole) => whole.count(),
            Work::Merged(merged) => merged.count(),
        }
    }

    /// Gives all of them back.
    pub fn release(self, out: &mut Outcomes)
        requires room { count_of self ≤ out.old.spare }
        ensures kept { Keeps (both (of_work self) (of_outcomes out.old)) (of_outcomes out.new) }
        ensures grows { Grows (count_of self) out.old out.new }
        ensures places { out.old.spare ≤ out.new.spare + count_of self }
    {
        let Cutter { work } = self;
        match work {
            Work::Whole(whole) => whole.release(out),
            Work::Merged(merged) => merged.release(out),
        }
    }
}
