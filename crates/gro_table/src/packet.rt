//! A packet that was received.
ghost use Rattle.std.specs.Prelude.{◌+◌, ◌≤◌};
ghost use Rattle.frags.specs.Account.{Keeps, both, of_outcomes};
ghost use Rattle.frags.specs.Growth.{Grows};
ghost use Rattle.gro_table.specs.Held.{of_packet, count_of};

use frags::Outcomes;
use raw_block::Sole;
use skb::Skb;

/// A packet in a buffer, its time and its original length, and two spare blocks that merging may need. It must be
/// spent: received or released.
pub struct Packet {
    /// The frame. Whoever merges it wants its first 200 bytes, or all of fewer, in the head.
    pub skb: Skb,
    /// The merged frame's head, where the packet is the first of several in a run.
    pub spare1: Sole,
    /// Given back as it is.
    pub spare2: Sole,
    /// Its time in seconds, as the capture has it.
    pub sec: u32,
    /// The fraction of a second, in the capture's unit.
    pub frac: u32,
    /// Its length on the wire in bytes, of which the capture may have fewer.
    pub original: u32,
    /// Its number in the capture, from 0.
    pub number: u32,
}

impl Packet {
    /// Gives its buffer and both spares back.
    pub fn release(self, out: &mut Outcomes)
        requires room { count_of self ≤ out.old.spare }
        ensures kept { Keeps (both (of_packet self) (of_outcomes out.old)) (of_outcomes out.new) }
        ensures grows { Grows (count_of self) out.old out.new }
        ensures places { out.old.spare ≤ out.new.spare + count_of self }
    {
        let Packet {
            skb,
            spare1,
            spare2,
            sec: _,
            frac: _,
            original: _,
            number: _,
        } = self;
        out.keep_sole(spare1);
        out.keep_sole(spare2);
        skb.release(out);
    }
}
