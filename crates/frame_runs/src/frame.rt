//! A packet's frame, wherever its bytes lie.
ghost use Rattle.std.specs.Prelude.{◌≡◌, ℕ, ◌+◌, ◌≤◌, List, length, drop};
ghost use Rattle.pcap_io.specs.Capture.{Packet};
ghost use Rattle.pcap_io.specs.Limits.{most_frame};
ghost use Rattle.inet_sum.specs.Stands.{StandsFor};
ghost use Rattle.frame_runs.specs.Frames.{IsFrontOf, AreBytes};

use inet_sum::Partial;

/// A packet whose bytes are read where they lie: in one slice, or in pieces behind a head that has all headers.
pub trait Frame {
    /// The packet, without where its bytes lie.
    ghost packet: { Self → Packet };

    /// What is known of one, so that it may be read.
    ghost is_held: { Self → Type 0 };

    /// The first 200 bytes, or more, or all of fewer.
    fn head(&self) -> &[u8]
        requires held { is_held self.now }
        ensures front { IsFrontOf result.now (packet self.now).frame }
        ensures in_bytes { AreBytes result.now };

    /// How many bytes there are.
    fn len(&self) -> usize
        requires held { is_held self.now }
        ensures len { result ≡ length (packet self.now).frame }
        ensures short { result ≤ most_frame };

    /// The sum of the bytes from a place of the headers on, each read once, where it lies.
    fn sum_from(&self, at: usize) -> Partial
        requires held { is_held self.now }
        requires low { at ≤ 200 }
        requires inside { at ≤ length (packet self.now).frame }
        ensures sum { StandsFor result (drop at (packet self.now).frame) }
        ensures len { result.len + at ≡ length (packet self.now).frame }
        ensures in_bytes { AreBytes (drop at (packet self.now).frame) };

    /// How many bytes the packet had before it was cut short.
    fn original(&self) -> u32
        ensures original { result ≡ (packet self.now).original };

    /// Its number among the packets of a list.
    fn number(&self) -> u32
        ensures number { result ≡ (packet self.now).number };
}
