//! The payloads of packets, read one behind the other where they lie.
ghost use Rattle.std.specs.Prelude.{◌≡◌, ◌⊎◌, ◌<◌, ◌≤◌, ◌^◌, ◌++◌, true, false, length, map};
ghost use Rattle.skb.specs.SkbState.{buffer_bytes};
ghost use Rattle.frame_runs.specs.Chains.{run_of};
ghost use Rattle.frame_runs.specs.Engine.{IsChain};
ghost use Rattle.frame_runs.specs.MergedRun.{headers_size, payloads_behind};
ghost use Rattle.gro.specs.Slots.{packet_of, AreHeld};

use crate::bytes::Bytes;
use frame_runs::Run;
use gro::Slot;
use skb::Skb;
use std::marker::Model;

/// The payloads of a run's packets, of which some bytes were read. A packet that is alone has no headers here: all of
/// its bytes are payload.
#[derive(Drop)]
pub(crate) struct Payload<'a> {
    // What is left of the packet that is being read.
    bytes: Bytes<'a>,
    packets: &'a [Slot],
    next: &'a [u32],
    // How many packets are behind that one, and the index of the first of them.
    more: u32,
    behind: u32,
    // Where a packet's payload begins.
    from: usize,
    // How many bytes are left in all.
    left: usize,
}

impl<'a> Model for Payload<'a> {
    ghost use Rattle.std.specs.Prelude.{List, ℕ};
    ghost use Rattle.comparing.specs.Payloads.{payload_left, IsPayloadLeft};

    ghost Value = { List ℕ };

    ghost view = { λ p. payload_left p.bytes p.from p.packets.now p.next.now p.more p.behind };

    ghost invariant = { λ p. IsPayloadLeft p.bytes p.from p.packets.now p.next.now p.more p.behind p.left };
}

// Whether a packet is read to its end and others are behind it.
fn is_read(bytes: &Bytes<'_>, more: u32) -> bool
    ensures read { result ≡ true → (length bytes.now ≡ 0) × (1 ≤ more) }
    ensures some { result ≡ false → (1 ≤ length bytes.now) ⊎ (more ≡ 0) }
{
    bytes.len() == 0 && more > 0
}

impl<'a> Payload<'a> {
    /// All bytes of a buffer.
    pub(crate) fn of_buffer(skb: &'a Skb) -> Payload<'a>
        ensures all { result ≡ buffer_bytes skb.now }
    {
        Payload {
            bytes: Bytes::behind(skb, 0),
            packets: &[],
            next: &[],
            more: 0,
            behind: 0,
            from: 0,
            left: skb.len(),
        }
    }

    /// The payloads of a run of several packets.
    pub(crate) fn of_run(packets: &'a [Slot], next: &'a [u32], run: &Run) -> Payload<'a>
        requires slots { AreHeld packets.now }
        requires linked { length packets.now ≤ length next.now }
        requires run { IsChain (map packet_of packets.now) next.now run.now }
        requires several { 1 ≤ run.now.more }
        ensures all { result ≡ payloads_behind (headers_size run.now)
            (run_of (map packet_of packets.now) next.now run.now) }
    {
        let first = run.first as usize;
        let from = run.headers_len();
        Payload {
            bytes: Bytes::behind(&packets[first].skb, from),
            packets,
            next,
            more: run.more,
            behind: next[first],
            from,
            left: run.payload.len() as usize,
        }
    }

    /// The same bytes, to be read again.
    pub(crate) fn again(&self) -> Payload<'a>
        ensures same { result ≡ self.now }
    {
        Payload {
            bytes: self.bytes.again(),
            packets: self.packets,
            next: self.next,
            more: self.more,
            behind: self.behind,
            from: self.from,
            left: self.left,
        }
    }

    /// The number of bytes that are left.
    pub(crate) fn len(&self) -> usize
        ensures len { result ≡ length self.now }
        ensures small { result < 2 ^ 32 }
    {
        self.left
    }

    /// The next bytes, at most so many of them, as they lie in one piece. There is one at least, where there is any.
    pub(crate) fn take(&mut self, most: usize) -> &'a [u8]
        ensures bytes { self.old ≡ result.now ++ self.new }
        ensures most { length result.now ≤ most }
        ensures some { 1 ≤ most → 1 ≤ length self.old → 1 ≤ length result.now }
    {
        if is_read(&self.bytes, self.more) {
            let k = self.behind as usize;
            let mut own = Bytes::behind(&self.packets[k].skb, self.from);
            let bytes = own.take(most);
            self.bytes = own;
            self.behind = self.next[k];
            self.more -= 1;
            self.left -= bytes.len();
            return bytes;
        }
        let bytes = self.bytes.take(most);
        self.left -= bytes.len();
        bytes
    }
}
