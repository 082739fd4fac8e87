//! The headers of the segments of a merged frame.

ghost use Rattle.std.specs.Prelude.{◌≡◌, ℕ, ◌+◌, ◌*◌, ◌<◌, ◌^◌, ◌++◌, List, length};
ghost use Rattle.inet_sum.specs.Stands.{StandsFor};
ghost use Rattle.frame_layout.specs.Headers.{AtHeaders, AreLaid};
ghost use Rattle.offload_model.specs.Mergeable.{IsLengthInRange};
ghost use Rattle.segment_rule.specs.Segmentations.{segment_from};

use frame_layout::Layout;
use header_fill::{fill, put_flags, put_places};
use inet_sum::Partial;

/// ACK alone, of TCP's control bits.
const ACK: u8 = 0x10;

/// How a merged frame is cut.
#[derive(Drop)]
pub struct Segmentation {
    /// The frame's headers.
    pub layout: Layout,
    /// How many segments it gives.
    pub n: u32,
    /// The payload of each but the last, in bytes; the last one has what is left.
    pub m: u32,
    /// A bit for each IP header, the lowest for the first, set where that is IPv4 and its identification stays.
    pub modes: u8,
}

impl Segmentation {
    /// Makes the frame's header bytes those of segment `i`, from 0, whose payload has this sum.
    ///
    /// Lengths, identifications, TCP's sequence number and control bits, and sums are written; all else stays.
    pub fn put_headers(&self, head: &mut [u8], i: u32, payload: Partial)
        requires there { i < self.now.n }
        requires near { i * self.now.m < 2 ^ 32 }
        requires laid { AreLaid 0 self.now.layout.headers (length head.old) }
        requires ranges { AtHeaders (IsLengthInRange (length head.old + payload.len)) self.now.layout.headers }
        requires few { length head.old + payload.len < 2 ^ 31 }
        ensures segment { (bytes : List ℕ)
            → StandsFor payload bytes
            → head.new ++ bytes ≡ segment_from self.now i (head.old ++ bytes) }
    {
        let headers = self.layout.headers();
        let n = self.n;
        put_places(head, headers, self.modes, i, i * self.m);
        if i + 1 != n {
            put_flags(head, headers, ACK);
        }
        fill(head, headers, payload);
    }
}
