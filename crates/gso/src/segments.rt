//! The segments of a merged frame, whose payload stays where it lies.

ghost use Rattle.std.specs.Prelude.{◌≡◌, ◌+◌, ◌<◌, ◌≤◌, ◌++◌, length, min, take, drop};
ghost use Rattle.inet_sum.specs.Stands.{StandsFor};
ghost use Rattle.pcap_io.specs.Limits.{most_frame};
ghost use Rattle.skb.specs.SkbState.{buffer_bytes};
ghost use Rattle.segment_rule.specs.Segmentations.{segment_at};
ghost use Rattle.gso.specs.Planning.{IsSegmentsReady};
ghost use Rattle.gso.specs.Places.{IsPayloadPlace, IsPlace, bytes_at, own_at, steps_left};

use crate::place::{Place, sum_at};
use crate::sums::Sums;
use inet_sum::Partial;
use segment_rule::Segmentation;
use skb::Skb;
use std::marker::Model;

/// A merged frame that lies in a buffer, and how it is cut. Its segments are read from there by their headers, which
/// are put together, and by the place of their payload.
#[derive(Drop)]
pub struct Segments<'a> {
    /// The merged frame, from its first header on.
    skb: &'a Skb,
    /// How many segments there are, and how long the payload of each is.
    cut: &'a Segmentation,
    /// Of the payload, segment by segment, as it was summed when the record was judged.
    sums: &'a Sums,
}

impl<'a> Model for Segments<'a> {
    ghost use Rattle.gso.specs.Planning.{IsSegmentsReady};
    ghost use Rattle.gso.specs.Places.{SegmentsState};

    ghost Value = { SegmentsState };

    ghost view = { λ s. record { skb = s.skb.now; cut = s.cut.now; sums = s.sums.now } };

    ghost invariant = { λ s. IsSegmentsReady s.skb.now s.cut.now s.sums.now };
}

impl<'a> Segments<'a> {
    /// Of a buffer and its plan.
    pub fn new(skb: &'a Skb, cut: &'a Segmentation, sums: &'a Sums) -> Segments<'a>
        requires ready { IsSegmentsReady skb.now cut.now sums.now }
        ensures same { result ≡ record { skb = skb.now; cut = cut.now; sums = sums.now } }
    {
        Segments { skb, cut, sums }
    }

    /// How many there are.
    pub fn count(&self) -> u32
        ensures count { result ≡ self.now.cut.n }
    {
        self.cut.n
    }

    /// How many bytes the headers of each have.
    pub fn headers_len(&self) -> usize
        ensures len { result ≡ self.now.cut.layout.payload_at }
        ensures low { result ≤ 200 }
        ensures short { length (buffer_bytes self.now.skb) ≤ most_frame }
    {
        self.cut.layout.payload_at()
    }

    /// Where the first one's payload begins.
    pub fn first(&self) -> Place
        ensures first { IsPayloadPlace self.now 0 result }
    {
        Place::in_head(self.skb, self.cut.layout.payload_at())
    }

    /// How long the payload is that begins at a place: `m` bytes, or what is left at the last segment.
    pub fn payload_len(&self, from: Place) -> usize
        ensures len { result ≡ min self.now.cut.m from.left }
    {
        (self.cut.m as usize).min(from.left)
    }

    /// The next bytes from a place on that lie in one slice of the buffer, at most so many.
    pub fn read(&self, place: &mut Place, most: usize) -> &'a [u8]
        requires place { IsPlace self.now.skb place.old }
        requires some { 1 ≤ most }
        requires there { most ≤ place.old.left }
        ensures place { IsPlace self.now.skb place.new }
        ensures bytes { bytes_at self.now.skb place.old ≡ result.now ++ bytes_at self.now.skb place.new }
        ensures most { length result.now ≤ most }
        ensures nearer { steps_left self.now.skb place.new < steps_left self.now.skb place.old }
    {
        place.read(self.skb, most)
    }

    // The sum of segment `i`, whose payload begins at a place: where it isn't known the bytes are read.
    fn sum(&self, i: u32, from: Place) -> Partial
        requires there { i < self.now.cut.n }
        requires at { IsPayloadPlace self.now i from }
        ensures sum { StandsFor result (own_at self.now from) }
    {
        match self.sums.part(self.cut.m, i, i + 1 == self.cut.n) {
            Some(sum) => sum,
            None => sum_at(self.skb, from, self.payload_len(from)),
        }
    }

    /// Puts the headers of segment `i`, from 0, together, whose payload begins at a place.
    pub fn put_headers(&self, into: &mut [u8], i: u32, from: Place)
        requires there { i < self.now.cut.n }
        requires at { IsPayloadPlace self.now i from }
        requires size { length into.old ≡ self.now.cut.layout.payload_at }
        ensures segment { into.new ++ own_at self.now from ≡ segment_at self.now.cut (buffer_bytes self.now.skb) i }
        ensures size { length into.new ≡ self.now.cut.layout.payload_at }
    {
        let _ = self.skb.head();
        let sum = self.sum(i, from);
        into.copy_from_slice(&self.skb.head()[..self.cut.layout.payload_at()]);
        self.cut.put_headers(into, i, sum);
    }
}
