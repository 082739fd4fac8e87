//! A packet that a tap reads, lent from where its bytes lie.
ghost use Rattle.std.specs.Prelude.{◌≡◌, ◌≤◌, length, option_map, slice_range, take};
ghost use Rattle.offload_model.specs.Written.{shown_bytes, window_of};
ghost use Rattle.skb.specs.SkbState.{buffer_bytes, buffer_size};

use crate::frame::value_on;
use skb::Skb;
use tap_filter::Program;

/// A packet that a tap reads: its buffer, lent, and what its record said.
#[derive(Drop)]
pub struct TapPacket<'a> {
    /// The packet's bytes.
    pub skb: &'a Skb,
    /// Its time: seconds, and micro- or nanoseconds as the capture has them.
    pub sec: u32,
    /// The fraction of a second, in the capture's unit.
    pub frac: u32,
    /// Its length on the wire, in bytes.
    pub original: u32,
    /// Its number in the capture, from 0.
    pub number: u32,
}

impl TapPacket<'_> {
    /// How many of the packet's bytes taps are shown: the filter's value, and at most all.
    pub(crate) fn shown_len(&self, filter: Option<&Program>) -> usize
        ensures within { result ≤ length (buffer_bytes self.now.skb.now) }
        ensures size { result ≤ buffer_size self.now.skb.now }
        ensures shown { shown_bytes (option_map (λ p. p.now) filter.entry) (buffer_bytes self.now.skb.now)
            ≡ take result (buffer_bytes self.now.skb.now) }
    {
        let len = self.skb.len();
        match filter {
            None => len,
            Some(program) => (value_on(program, self.skb) as usize).min(len),
        }
    }

    /// Where window `tap` lies in the packet's bytes: `from..to`, empty where what is shown ends before it.
    pub(crate) fn window(&self, tap: u32, snap: u32, filter: Option<&Program>) -> (usize, usize)
        ensures range { (result.0 ≤ result.1) × (result.1 ≤ buffer_size self.now.skb.now) }
        ensures bytes { result.1 ≤ length (buffer_bytes self.now.skb.now) }
        ensures window { slice_range (buffer_bytes self.now.skb.now) result.0 result.1
            ≡ window_of snap tap
            (shown_bytes (option_map (λ p. p.now) filter.entry) (buffer_bytes self.now.skb.now)) }
    {
        let shown = self.shown_len(filter);
        let from = (tap as usize * snap as usize).min(shown);
        let to = (from + snap as usize).min(shown);
        (from, to)
    }
}
