//! A buffer's bytes, as a filter reads them.
ghost use Rattle.std.specs.Prelude.{◌≡◌, ◌<◌, ◌^◌, length, Some};
ghost use Rattle.skb.specs.SkbState.{buffer_bytes, buffer_size, head_bytes};
ghost use Rattle.tap_filter.specs.Meaning.{value_of};

use net_bytes::{be16, be32};
use skb::Skb;
use tap_filter::{Bytes, Program};

/// A program's value on a buffer's bytes. Most frames lie whole in the head, and loads there are the cheapest.
#[inline(never)]
pub(crate) fn value_on(program: &Program, skb: &Skb) -> u32
    ensures value { value_of program.now (buffer_bytes skb.now) ≡ Some result }
{
    let head = skb.head();
    if head.len() == skb.len() {
        program.value(&head)
    } else {
        value_in_pieces(program, skb)
    }
}

#[cold]
#[inline(never)]
fn value_in_pieces(program: &Program, skb: &Skb) -> u32
    ensures value { value_of program.now (buffer_bytes skb.now) ≡ Some result }
{
    program.value(&SkbFrame::new(skb))
}

/// A buffer, with its head at hand: headers mostly lie there, and other bytes are asked for one by one.
#[derive(Drop)]
struct SkbFrame<'a> {
    skb: &'a Skb,
    head: &'a [u8],
    len: usize,
    ghost head_is: { head.now ≡ head_bytes skb.now },
    ghost len_is: { len ≡ length (buffer_bytes skb.now) },
    ghost size_is: { len ≡ buffer_size skb.now },
}

impl<'a> SkbFrame<'a> {
    fn new(skb: &'a Skb) -> SkbFrame<'a>
        ensures skb { result.skb.now ≡ skb.entry.now }
        ensures small { length (buffer_bytes result.skb.now) < 2 ^ 32 }
    {
        let len = skb.len();
        let head = skb.head();
        SkbFrame { skb, head, len }
    }
}

impl<'a> Bytes for SkbFrame<'a> {
    ghost frame = { λ f. buffer_bytes f.skb.now };

    fn len(&self) -> usize {
        self.len
    }

    fn byte(&self, at: usize) -> u8 {
        if at < self.head.len() {
            self.head[at]
        } else {
            self.skb.byte_at(at)
        }
    }

    fn half(&self, at: usize) -> u16 {
        if self.head.len() >= 2 && at <= self.head.len() - 2 {
            be16(self.head, at)
        } else {
            u16::from(self.byte(at)) * 256 + u16::from(self.byte(at + 1))
        }
    }

    fn word(&self, at: usize) -> u32 {
        if self.head.len() >= 4 && at <= self.head.len() - 4 {
            be32(self.head, at)
        } else {
            u32::from(self.half(at)) * 65536 + u32::from(self.half(at + 2))
        }
    }
}
