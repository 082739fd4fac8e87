//! The packets that a tap reads, as clones of the workers' buffers.
ghost use Rattle.std.specs.Prelude.{◌≡◌, ◌+◌, ◌≤◌, [], length};
ghost use Rattle.frags.specs.Account.{Keeps, KeepsBlocks, both, of_outcomes};
ghost use Rattle.frags.specs.Growth.{Grows};
ghost use Rattle.skb.specs.SkbState.{of_buffer};
ghost use Rattle.taps.specs.Clones.{blocks_of, of_clones, packet_of};
ghost use Rattle.taps.specs.Shown.{lent_packet};

use crate::packet::TapPacket;
use frags::Outcomes;
use skb::Skb;

/// A clone of a packet's buffer, and what its record said. It must be spent: its buffer is given back by
/// [`TapTask::run`](crate::TapTask::run), or by [`TapClone::release`].
pub struct TapClone {
    /// The packet's bytes as they arrived.
    pub skb: Skb,
    /// Its time: seconds, and micro- or nanoseconds as the capture has them.
    pub sec: u32,
    /// The fraction of a second, in the capture's unit.
    pub frac: u32,
    /// Its length on the wire, in bytes.
    pub original: u32,
    /// Its number in the capture, from 0.
    pub number: u32,
}

impl TapClone {
    /// The packet, as a tap reads it.
    pub(crate) fn lend(&self) -> TapPacket<'_>
        ensures same { lent_packet result ≡ packet_of self.now }
        ensures skb { result.skb.now ≡ self.now.skb }
    {
        TapPacket {
            skb: &self.skb,
            sec: self.sec,
            frac: self.frac,
            original: self.original,
            number: self.number,
        }
    }

    /// Gives its buffer back.
    pub fn release(self, out: &mut Outcomes)
        requires room { length self.skb.rest + 1 ≤ out.old.spare }
        ensures kept { Keeps (both (of_buffer self.skb) (of_outcomes out.old)) (of_outcomes out.new) }
        ensures blocks { KeepsBlocks (both (of_buffer self.skb) (of_outcomes out.old)) (of_outcomes out.new) }
        ensures grows { Grows (length self.skb.rest + 1) out.old out.new }
        ensures places { out.old.spare ≤ out.new.spare + (length self.skb.rest + 1) }
    {
        let TapClone {
            skb,
            sec: _,
            frac: _,
            original: _,
            number: _,
        } = self;
        skb.release(out);
    }
}

/// Gives the buffers of all clones back. Their list stays, empty.
pub(crate) fn release_all(clones: &mut Vec<TapClone>, out: &mut Outcomes)
    requires room { blocks_of clones.old.items ≤ out.old.spare }
    ensures kept { Keeps (both (of_clones clones.old.items) (of_outcomes out.old)) (of_outcomes out.new) }
    ensures blocks { KeepsBlocks (both (of_clones clones.old.items) (of_outcomes out.old)) (of_outcomes out.new) }
    ensures grows { Grows (blocks_of clones.old.items) out.old out.new }
    ensures places { out.old.spare ≤ out.new.spare + blocks_of clones.old.items }
    ensures none { clones.new.items ≡ [] }
{
    while let Some(clone) = clones.pop() {
        clone.release(out);
    }
}
