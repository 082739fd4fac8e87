//! What a run of packets comes to, as its packets lie.
ghost use Rattle.std.specs.Prelude.{◌≡◌, ℕ, ◌+◌, ◌<◌, ◌≤◌, ◌^◌, ◌++◌, ◌∷◌};
ghost use Rattle.std.specs.Prelude.{List, length, take};
ghost use Rattle.inet_sum.specs.Stands.{StandsFor};
ghost use Rattle.frame_layout.specs.Headers.{AtHeaders, AreLaid};
ghost use Rattle.frame_layout.specs.Segment.{HasFlags};
ghost use Rattle.pcap_io.specs.Capture.{Packet};
ghost use Rattle.pcap_io.specs.Limits.{most_frame};
ghost use Rattle.offload_model.specs.Frames.{merged_frame};
ghost use Rattle.offload_model.specs.Mergeable.{IsLengthInRange};
ghost use Rattle.offload_model.specs.Merged.{merged_of};
ghost use Rattle.offload_model.specs.Written.{head_of};
ghost use Rattle.frame_runs.specs.Engine.{Knows, KnowsSome};
ghost use Rattle.frame_runs.specs.MergedRun.{headers_size, payloads_behind};

use crate::frame::Frame;
use crate::run::Run;
use frame_layout::Layout;
use header_fill::merge_headers;
use inet_sum::Partial;
use pcap_io::OffHead2;

/// The headers of a merged frame: those of its first packet, which `head` begins with, with the last packet's control
/// bits, and with the lengths and sums that the payloads of all come to.
pub fn fill_headers(headers: &mut [u8], head: &[u8], layout: &Layout, flags: u8, payload: Partial)
    requires laid { AreLaid 0 layout.now.headers layout.now.payload_at }
    requires inside { layout.now.payload_at ≤ length head.now }
    requires size { length headers.old ≡ layout.now.payload_at }
    requires ranges { AtHeaders (IsLengthInRange (layout.now.payload_at + payload.len)) layout.now.headers }
    requires few { layout.now.payload_at + payload.len < 2 ^ 31 }
    ensures merged { (first last bytes : List ℕ)
        → take layout.now.payload_at first ≡ take layout.now.payload_at head.now
        → AtHeaders (HasFlags flags last) layout.now.headers
        → StandsFor payload bytes
        → headers.new ++ bytes ≡ merged_frame layout.now first last bytes }
    ensures size { length headers.new ≡ layout.now.payload_at }
{
    headers.copy_from_slice(&head[..layout.payload_at()]);
    merge_headers(headers, layout.headers(), flags, payload);
}

impl Run {
    /// The offload header that the record of the run has where it is one of this queue. `first` is its first packet.
    pub fn head<F: Frame>(&self, queue: u8, first: &F) -> OffHead2
        requires slot { F.is_held first.now }
        requires run { KnowsSome self.now (F.packet first.now) }
        ensures head { (rest : List Packet) → Knows self.now (F.packet first.now) rest
            → result ≡ head_of queue (merged_of (F.packet first.now ∷ rest)) }
    {
        if self.more == 0 {
            return OffHead2 {
                version: 2,
                kind: 0,
                modes: 0,
                lane: queue,
                n: 1,
                m: 0,
                number: first.number(),
            };
        }
        let m = (first.len() - self.headers_len()) as u32;
        OffHead2 {
            version: 2,
            kind: 1,
            modes: self.progress.modes,
            lane: queue,
            n: self.more + 1,
            m,
            number: first.number(),
        }
    }

    /// How many bytes the headers of the merged frame have, of a run of several packets.
    pub fn headers_len(&self) -> usize
        ensures size { result ≡ headers_size self.now }
    {
        match &self.layout {
            Some(layout) => layout.payload_at(),
            None => 0,
        }
    }

    /// The headers of the merged frame, of a run of several packets: behind them come the payloads of all, as they lie.
    pub fn put_headers<F: Frame>(&self, first: &F, headers: &mut [u8])
        requires slot { F.is_held first.now }
        requires run { KnowsSome self.now (F.packet first.now) }
        requires several { 1 ≤ self.now.more }
        requires size { length headers.old ≡ headers_size self.now }
        ensures frame { (rest : List Packet) → Knows self.now (F.packet first.now) rest
            → headers.new ++ payloads_behind (headers_size self.now) (F.packet first.now ∷ rest)
            ≡ (merged_of (F.packet first.now ∷ rest)).packet.frame }
        ensures size { length headers.new ≡ length headers.old }
    {
        let Some(layout) = &self.layout else {
            unreachable!()
        };
        fill_headers(headers, first.head(), layout, self.flags, self.payload);
    }

    /// How many bytes the frame has that the run comes to. `first` is its first packet.
    pub fn frame_len<F: Frame>(&self, first: &F) -> u32
        requires slot { F.is_held first.now }
        requires run { KnowsSome self.now (F.packet first.now) }
        ensures len { (rest : List Packet) → Knows self.now (F.packet first.now) rest
            → result ≡ length (merged_of (F.packet first.now ∷ rest)).packet.frame }
        ensures few { result ≤ most_frame }
    {
        if self.more == 0 {
            first.len() as u32
        } else {
            self.headers_len() as u32 + self.payload.len()
        }
    }

    /// The frame's original length, in bytes: its own where several packets are merged.
    pub fn original<F: Frame>(&self, first: &F) -> u32
        requires slot { F.is_held first.now }
        requires run { KnowsSome self.now (F.packet first.now) }
        ensures original { (rest : List Packet) → Knows self.now (F.packet first.now) rest
            → result ≡ (merged_of (F.packet first.now ∷ rest)).packet.original }
    {
        if self.more == 0 {
            first.original()
        } else {
            self.frame_len(first)
        }
    }
}
