//! The sum of a buffer's bytes, where they lie.
ghost use Rattle.std.specs.Prelude.{◌≡◌, ℕ, ◌+◌, ◌<◌, ◌≤◌, ◌^◌, ◌++◌, List, length, drop};
ghost use Rattle.inet_sum.specs.Stands.{StandsFor};
ghost use Rattle.skb.specs.SkbState.{buffer_bytes, buffer_size, head_size};
ghost use Rattle.skb.specs.Checksum.{AreBytes};

use crate::Skb;
use inet_sum::Partial;

impl Skb {
    /// The sum of the bytes from the place `at` on, in the manner of Linux's `skb_checksum`: each is read once, where
    /// it lies.
    pub fn sum_from(&self, at: usize) -> Partial
        requires inside { at ≤ head_size self.now }
        ensures sum { StandsFor result (drop at (buffer_bytes self.now)) }
        ensures len { result.len + at ≡ buffer_size self.now }
        ensures in_bytes { AreBytes (drop at (buffer_bytes self.now)) }
    {
        let _ = self.len();
        let mut sum = Partial::new();
        add(&mut sum, &self.head()[at..]);
        for i in 0..self.count() - 1 {
            add(&mut sum, self.slice(i));
        }
        sum
    }
}

// Adds bytes to a sum, and says that they are bytes.
fn add(sum: &mut Partial, bytes: &[u8])
    requires few { sum.old.len + length bytes.now < 2 ^ 32 }
    ensures sum { (front : List ℕ) → StandsFor sum.old front → StandsFor sum.new (front ++ bytes.now) }
    ensures in_bytes { AreBytes bytes.now }
{
    sum.add(bytes);
}

// What a slice of bytes holds are bytes.
pub(crate) fn in_bytes(bytes: &[u8]) -> &[u8]
    ensures same { result.now ≡ bytes.now }
    ensures in_bytes { AreBytes result.now }
{
    bytes
}
