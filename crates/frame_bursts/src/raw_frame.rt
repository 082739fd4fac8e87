//! An IP packet, as a frame with an Ethernet header in front of it.
ghost use Rattle.std.specs.Prelude.{◌≡◌, ℕ, ◌+◌, ◌-◌, ◌^◌, ◌<◌, ◌≤◌, ◌++◌, List, length, map, take, drop};
ghost use Rattle.std.specs.Prelude.{vec_len, vec_capacity};
ghost use Rattle.std.specs.List.{AllByRecursion};
ghost use Rattle.offload_model.specs.Captured.{AreCaptured, IsCaptured};
ghost use Rattle.frame_runs.specs.Frames.{AreBytes};
ghost use Rattle.frame_bursts.specs.declared.link.Link.TheVariants.{RawIp};
ghost use Rattle.frame_bursts.specs.Links.{ethernet_for, framed, raw_packet, IsHeld};

use crate::ghost_bytes::GhostBytes;
use crate::lawful::frame_at;
use frame_runs::{Frame, Lent};
use inet_sum::Partial;

/// How many bytes of a packet are copied at most: a frame's headers lie in its first 200.
const COPIED: usize = 200;

/// An Ethernet header with addresses of zeros, before IPv4.
const BEFORE_IP4: [u8; 14] = [0, 0, 0, 0, 0, 0, 0, 0, 0, 0, 0, 0, 0x08, 0x00];

/// The same before IPv6.
const BEFORE_IP6: [u8; 14] = [0, 0, 0, 0, 0, 0, 0, 0, 0, 0, 0, 0, 0x86, 0xdd];

/// The same before what is neither: it has no type.
const BEFORE_OTHER: [u8; 14] = [0; 14];

/// A packet that begins with its IP header, as the frame that it is with an Ethernet header in front. Its first bytes
/// are copied behind that header, and of the others it keeps the sum; so it borrows nothing of the packet.
#[derive(Drop)]
pub struct RawFrame {
    head: [u8; 214],
    head_len: usize,
    /// The sum of the bytes behind the head.
    behind: Partial,
    original: u32,
    number: u32,
    packet: GhostBytes,
}

// What a slice of bytes holds are bytes.
fn in_bytes(bytes: &[u8]) -> &[u8]
    ensures same { result.now ≡ bytes.now }
    ensures in_bytes { AreBytes result.now }
{
    bytes
}

/// The Ethernet header for a packet, by its version.
fn ethernet_before(packet: &[u8]) -> [u8; 14]
    ensures header { result ≡ ethernet_for packet.now }
{
    let version = match packet.first() {
        Some(first) => first / 16,
        None => 0,
    };
    match version {
        4 => BEFORE_IP4,
        6 => BEFORE_IP6,
        _ => BEFORE_OTHER,
    }
}

/// The first bytes of the frame of a packet: its Ethernet header, and `n` bytes of the packet.
fn head_of(packet: &[u8], n: usize) -> [u8; 214]
    requires few { n ≤ 200 }
    requires inside { n ≤ length packet.now }
    ensures head { take (n + 14) result ≡ ethernet_for packet.now ++ take n packet.now }
{
    let mut head = [0; 214];
    head[..14].copy_from_slice(&ethernet_before(packet));
    head[14..14 + n].copy_from_slice(&packet[..n]);
    head
}

impl RawFrame {
    /// The frame of a packet.
    fn of(packet: &Lent<'_>) -> RawFrame
        requires captured { IsCaptured (framed RawIp packet.now) }
        ensures packet { raw_packet result ≡ framed RawIp packet.now }
        ensures held { IsHeld result }
    {
        let bytes = packet.bytes;
        let n = bytes.len().min(COPIED);
        let mut behind = Partial::new();
        behind.add(&bytes[n..]);
        RawFrame {
            head: head_of(bytes, n),
            head_len: n + 14,
            behind,
            original: packet.original + 14,
            number: packet.number,
            packet: GhostBytes::of(bytes),
        }
    }
}

impl Frame for RawFrame {
    ghost packet = { raw_packet };

    ghost is_held = { IsHeld };

    fn head(&self) -> &[u8] {
        in_bytes(&self.head[..self.head_len])
    }

    fn len(&self) -> usize {
        self.head_len + self.behind.len() as usize
    }

    fn sum_from(&self, at: usize) -> Partial {
        let mut sum = Partial::new();
        sum.add(&self.head[at..self.head_len]);
        sum.joined(self.behind)
    }

    fn original(&self) -> u32 {
        self.original
    }

    fn number(&self) -> u32 {
        self.number
    }
}

/// The frames of packets behind those whose frames are there.
pub(crate) fn push_frames(frames: &mut Vec<RawFrame>, packets: &[Lent<'_>], from: usize)
    requires there { map raw_packet frames.old.items ≡ take from (map (framed RawIp) packets.now) }
    requires held { AllByRecursion IsHeld frames.old.items }
    requires captured { AreCaptured (map (framed RawIp) packets.now) }
    requires room { vec_len frames.old + (length packets.now - from) ≤ vec_capacity frames.old }
    requires inside { from ≤ length packets.now }
    ensures all { map raw_packet frames.new.items ≡ map (framed RawIp) packets.now }
    ensures held { AllByRecursion IsHeld frames.new.items }
    ensures room { (n : ℕ) → vec_len frames.old + (length packets.now - from + n) ≤ vec_capacity frames.old
        → vec_len frames.new + n ≤ vec_capacity frames.new }
{
    for i in from..packets.len() {
        let packet = frame_at(packets, i);
        frames.push_reserved(RawFrame::of(&packet));
    }
}
