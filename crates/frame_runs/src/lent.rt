//! A frame that somebody lends, in one slice.
ghost use Rattle.std.specs.Prelude.{◌≡◌, ℕ, ◌≤◌, List, length, drop};
ghost use Rattle.pcap_io.specs.Limits.{most_frame};
ghost use Rattle.frame_runs.specs.Lent.{packet_of, IsShort};
ghost use Rattle.frame_runs.specs.Frames.{AreBytes};

use crate::frame::Frame;
use inet_sum::Partial;

/// A frame in one slice, as C has it too.
#[repr(C)]
#[derive(Clone, Copy)]
pub struct Lent<'a> {
    /// Its captured bytes, from Ethernet's header on.
    pub bytes: &'a [u8],
    /// How many bytes it had before it was cut short.
    pub original: u32,
    /// Its place among the frames that are given, which a run's record has of its first.
    pub number: u32,
}

// What a slice of bytes holds are bytes.
fn in_bytes(bytes: &[u8]) -> &[u8]
    ensures same { result.now ≡ bytes.now }
    ensures in_bytes { AreBytes result.now }
{
    bytes
}

impl Frame for Lent<'_> {
    ghost packet = { packet_of };

    ghost is_held = { IsShort };

    fn head(&self) -> &[u8] {
        in_bytes(self.bytes)
    }

    fn len(&self) -> usize {
        self.bytes.len()
    }

    fn sum_from(&self, at: usize) -> Partial {
        let behind = in_bytes(&self.bytes[at..]);
        let mut sum = Partial::new();
        sum.add(behind);
        sum
    }

    fn original(&self) -> u32 {
        self.original
    }

    fn number(&self) -> u32 {
        self.number
    }
}
