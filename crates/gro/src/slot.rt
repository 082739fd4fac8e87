//! A packet in a list, where it stays.
ghost use Rattle.gro.specs.Slots.{packet_of, IsHeld};

use frame_runs::Frame;
use inet_sum::Partial;
use skb::Skb;

/// A packet in a buffer, its time, its original length and its number. Its spares, where it has any, lie elsewhere.
pub struct Slot {
    /// The frame. Whoever merges it wants its first 200 bytes, or all of fewer, in the head.
    pub skb: Skb,
    /// Its time in seconds, as the capture has it.
    pub sec: u32,
    /// The fraction of a second, in the capture's unit.
    pub frac: u32,
    /// Its length on the wire in bytes, of which the capture may have fewer.
    pub original: u32,
    /// Its number in the capture, from 0.
    pub number: u32,
}

impl Frame for Slot {
    ghost packet = { packet_of };

    ghost is_held = { IsHeld };

    fn head(&self) -> &[u8] {
        self.skb.head()
    }

    fn len(&self) -> usize {
        self.skb.len()
    }

    fn sum_from(&self, at: usize) -> Partial {
        self.skb.sum_from(at)
    }

    fn original(&self) -> u32 {
        self.original
    }

    fn number(&self) -> u32 {
        self.number
    }
}
