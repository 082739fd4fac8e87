//! A place of a buffer's bytes, from which they are read slice by slice.

ghost use Rattle.std.specs.Prelude.{◌≡◌, ◌+◌, ◌<◌, ◌≤◌, ◌^◌, ◌++◌, length, drop, take};
ghost use Rattle.inet_sum.specs.Stands.{StandsFor};
ghost use Rattle.frags.specs.PieceList.{bytes_of};
ghost use Rattle.skb.specs.SkbState.{buffer_bytes, head_size};
ghost use Rattle.gso.specs.Places.{IsPlace, bytes_at, slices_from, steps_left};

use inet_sum::Partial;
use skb::Skb;

/// A byte of a buffer, by the slice that it is in, the head being the first; and how many bytes are left from it on.
#[derive(Clone, Copy, Debug, PartialEq, Eq)]
pub struct Place {
    /// 0 is the head, and `i + 1` the buffer's slice `i`.
    pub slice: usize,
    /// Where the byte is in that slice, from the slice's start.
    pub at: usize,
    /// How many bytes the buffer has from there to its end.
    pub left: usize,
}

/// A slice of a buffer, the head being the first.
fn slice_of(skb: &Skb, i: usize) -> &[u8]
    requires within { i ≤ length skb.now.rest }
    ensures bytes { slices_from skb.now i ≡ result.now ++ bytes_of (drop i skb.now.rest) }
{
    if i == 0 { skb.head() } else { skb.slice(i - 1) }
}

impl Place {
    /// A byte of the head.
    pub fn in_head(skb: &Skb, at: usize) -> Place
        requires inside { at ≤ head_size skb.now }
        ensures place { IsPlace skb.now result }
        ensures bytes { bytes_at skb.now result ≡ drop at (buffer_bytes skb.now) }
    {
        let _ = skb.head();
        Place {
            slice: 0,
            at,
            left: skb.len() - at,
        }
    }

    /// The next bytes that lie in one slice, at most so many. The place is behind them then. They are none only at the
    /// end of a slice.
    pub fn read<'a>(&mut self, skb: &'a Skb, most: usize) -> &'a [u8]
        requires place { IsPlace skb.now self.old }
        requires some { 1 ≤ most }
        requires there { most ≤ self.old.left }
        ensures place { IsPlace skb.now self.new }
        ensures bytes { bytes_at skb.now self.old ≡ result.now ++ bytes_at skb.now self.new }
        ensures most { length result.now ≤ most }
        ensures nearer { steps_left skb.now self.new < steps_left skb.now self.old }
    {
        let _ = skb.count();
        let bytes = slice_of(skb, self.slice);
        let n = most.min(bytes.len() - self.at);
        let read = &bytes[self.at..self.at + n];
        self.left -= n;
        if self.at + n == bytes.len() {
            self.slice += 1;
            self.at = 0;
        } else {
            self.at += n;
        }
        read
    }
}

/// The sum of the next `n` bytes of a buffer: each is read once, where it lies.
pub(crate) fn sum_at(skb: &Skb, from: Place, n: usize) -> Partial
    requires place { IsPlace skb.now from }
    requires there { n ≤ from.left }
    requires few { n < 2 ^ 32 }
    ensures sum { StandsFor result (take n (bytes_at skb.now from)) }
{
    let mut sum = Partial::new();
    let mut place = from;
    let mut left = n;
    while left > 0 {
        let bytes = place.read(skb, left);
        sum.add(bytes);
        left -= bytes.len();
    }
    sum
}
