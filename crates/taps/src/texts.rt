//! The windows that a tap read.
ghost use Rattle.std.specs.Prelude.{◌≡◌, ◌==◌, ◌<◌, ◌≤◌, [], ◌∷◌, ◌++◌, length, OnOk, OnErr, slice_index_or};
ghost use Rattle.std.specs.Prelude.{option_map, slice_range};
ghost use Rattle.pcap_io.specs.Capture.{Packet};
ghost use Rattle.offload_model.specs.Written.{shown_of, window_head};
ghost use Rattle.skb.specs.SkbState.{buffer_bytes, buffer_size};
ghost use Rattle.taps.specs.Shown.{lent_packet, shown_text};
ghost use Rattle.taps.specs.Texts.{text_of};

use crate::packet::TapPacket;
use pcap_io::OffHead2;
use skb::Skb;
use std::alloc::{AllocError, Global};
use std::marker::Model;
use tap_filter::Program;

/// One packet's window: `from..to` of the bytes of all.
#[derive(Clone, Copy, Debug)]
pub(crate) struct Span {
    pub(crate) number: u32,
    pub(crate) sec: u32,
    pub(crate) frac: u32,
    pub(crate) original: u32,
    pub(crate) from: usize,
    pub(crate) to: usize,
}

/// A window of a packet as it arrived.
#[derive(Clone, Copy, Debug)]
pub struct TapText<'a> {
    /// The packet's number in the capture, from 0.
    pub number: u32,
    /// Its time: seconds, and micro- or nanoseconds as the capture has them.
    pub sec: u32,
    /// The fraction of a second, in the capture's unit.
    pub frac: u32,
    /// Its length on the wire, in bytes.
    pub original: u32,
    /// The window's bytes, at least one.
    pub bytes: &'a [u8],
}

impl TapText<'_> {
    /// The offload header that its record has where it is one of this tap.
    pub fn head(&self, tap: u8) -> OffHead2
        ensures head { result ≡ window_head tap self.now.number }
    {
        OffHead2 {
            version: 2,
            kind: 2,
            modes: 0,
            lane: tap,
            n: 0,
            m: 0,
            number: self.number,
        }
    }
}

/// The windows that a tap read, in the order of its clones. All their bytes stand in one vector.
#[derive(Debug, Drop)]
pub struct TapTexts {
    /// Where each window's bytes stand, and what its record says.
    spans: Vec<Span>,
    /// One window behind the other.
    bytes: Vec<u8>,
}

impl Model for TapTexts {
    ghost use Rattle.std.specs.Prelude.{List, map, All};
    ghost use Rattle.pcap_io.specs.Capture.{Packet};
    ghost use Rattle.taps.specs.Texts.{text_at, IsWithin};

    ghost Value = { List Packet };

    ghost view = { λ t. map (text_at t.bytes.items) t.spans.items };

    ghost invariant = { λ t. All (IsWithin t.bytes.items) t.spans.items };
}

impl TapTexts {
    /// No windows, and no memory yet.
    pub fn new(alloc: Global) -> TapTexts
        ensures empty { result ≡ [] }
    {
        TapTexts {
            spans: Vec::new(alloc),
            bytes: Vec::new(alloc),
        }
    }

    /// No windows any more. Their memory stays.
    pub fn clear(&mut self)
        ensures empty { self.new ≡ [] }
    {
        self.spans.clear();
        self.bytes.clear();
    }

    /// No windows any more, and room for `windows` of them with `bytes` bytes in all.
    pub(crate) fn start(&mut self, windows: usize, bytes: usize) -> Result<(), AllocError>
        ensures empty { self.new ≡ [] }
    {
        self.clear();
        self.spans.reserve(windows)?;
        self.bytes.reserve(bytes)
    }

    // Copies the bytes `from..to` of a packet out, as the window behind the others.
    fn push(&mut self, packet: &TapPacket<'_>, from: usize, to: usize) -> Result<(), AllocError>
        requires range { (from < to) × (to ≤ buffer_size packet.now.skb.now) }
        ensures pushed { OnOk result (self.new ≡ self.old
            ++ record (lent_packet packet.now) { frame = slice_range (buffer_bytes packet.now.skb.now) from to }
            ∷ []) }
    {
        let start = self.bytes.len();
        append(&mut self.bytes, packet.skb, from, to)?;
        self.spans.push(Span {
            number: packet.number,
            sec: packet.sec,
            frac: packet.frac,
            original: packet.original,
            from: start,
            to: self.bytes.len(),
        })?;
        Ok(())
    }

    /// Reads window `tap` of one more packet, behind the others: the bytes of what is shown from `tap * snap` on, at
    /// most `snap`. One that is empty is left out.
    pub fn read(
        &mut self,
        tap: u32,
        snap: u32,
        filter: Option<&Program>,
        packet: &TapPacket<'_>,
    ) -> Result<(), AllocError>
        ensures read { OnOk result (self.new ≡ self.old
            ++ text_of snap tap (shown_of (option_map (λ p. p.now) filter.entry) (lent_packet packet.now))) }
    {
        let (from, to) = packet.window(tap, snap, filter);
        if from < to {
            return self.push(packet, from, to);
        }
        Ok(())
    }

    /// The number of windows.
    pub fn len(&self) -> usize
        ensures count { result ≡ length self.now }
    {
        self.spans.len()
    }

    /// No window was read: each was empty.
    pub fn is_empty(&self) -> bool
        ensures empty { result ≡ (length self.now == 0) }
    {
        self.spans.is_empty()
    }

    /// The i-th window, in the order of the clones.
    pub fn get(&self, i: usize) -> TapText<'_>
        requires range { i < length self.now }
        ensures text { (d : Packet) → shown_text result ≡ slice_index_or self.now i d }
    {
        let span = self.spans[i];
        TapText {
            number: span.number,
            sec: span.sec,
            frac: span.frac,
            original: span.original,
            bytes: &self.bytes[span.from..span.to],
        }
    }
}

// Copies the bytes `from..to` of a buffer behind others.
fn append(bytes: &mut Vec<u8>, skb: &Skb, from: usize, to: usize) -> Result<(), AllocError>
    requires range { (from < to) × (to ≤ buffer_size skb.now) }
    ensures ok { OnOk result (bytes.new.items ≡ bytes.old.items ++ slice_range (buffer_bytes skb.now) from to) }
    ensures more { OnOk result (length bytes.old.items < length bytes.new.items) }
    ensures err { OnErr result (bytes.new.items ≡ bytes.old.items) }
{
    let head = skb.head();
    if to <= head.len() {
        return bytes.extend_from_slice(&head[from..to]);
    }
    let _ = skb.len();
    let start = bytes.len();
    bytes.resize(start + (to - from), 0)?;
    skb.copy_out(from, &mut bytes[start..]);
    Ok(())
}
