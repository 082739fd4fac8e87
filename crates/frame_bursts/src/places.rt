//! Where a merged frame's last headers stand, as a device asks for them.
ghost use Rattle.std.specs.Prelude.{◌≡◌, ◌+◌, ◌-◌, ◌<◌, ◌≤◌, ◌^◌, ◌++◌};
ghost use Rattle.std.specs.Prelude.{ℕ, List, length, take};
ghost use Rattle.inet_sum.specs.Sum.{fold_of};
ghost use Rattle.frame_layout.specs.Candidate.{pseudo_header};
ghost use Rattle.frame_layout.specs.Front.{AreAddressesWithin};
ghost use Rattle.frame_layout.specs.Headers.{AreLaid};
ghost use Rattle.frame_layout.specs.declared.layout.Layer.TheVariants.{Ip4, Ip6};
ghost use Rattle.frame_runs.specs.Engine.{KnowsSome};
ghost use Rattle.frame_runs.specs.MergedRun.{headers_size};
ghost use Rattle.frame_bursts.specs.Places.{from_end, protocol_of as protocol_said, ArePlaces, AreZeros, HasPlaces};

use frame_layout::{Header, Layer, Layout};
use frame_runs::{Frame, Run};
use inet_sum::Partial;

/// The last IP header of a frame, the TCP or UDP header behind it, and the sum of the pseudo header of both. Places are
/// in bytes from the frame's start.
#[derive(Clone, Copy)]
pub(crate) struct Places {
    pub(crate) ip_at: u8,
    pub(crate) leaf_at: u8,
    /// The number of the last header's protocol: 6 of TCP, 17 of UDP.
    pub(crate) leaf: u8,
    /// Not complemented.
    pub(crate) pseudo: u16,
}

/// The header so many places from the end; one of Ethernet where there are fewer.
fn header_at(headers: &[Header], back: usize) -> Header
    ensures header { result ≡ from_end headers.now back }
{
    let at = headers.len().saturating_sub(back);
    if at < headers.len() {
        return headers[at];
    }
    Header {
        layer: Layer::Ethernet,
        at: 0,
    }
}

/// What an IP header calls what it carries (RFC 790).
fn protocol_of(layer: Layer) -> u8
    ensures protocol { result ≡ protocol_said layer }
{
    match layer {
        Layer::Tcp => 6,
        Layer::Udp => 17,
        _ => 0,
    }
}

/// The sum of the pseudo header of an IPv4 header (RFC 9293, section 3.1).
fn pseudo4(head: &[u8], at: usize, protocol: u8, len: u32) -> u16
    requires there { at + 20 ≤ length head.now }
    requires short { length head.now < 2 ^ 32 }
    ensures sum { result ≡ fold_of (pseudo_header head.now Ip4 at protocol len) }
{
    let mut sum = Partial::new();
    sum.add(&head[at + 12..at + 20]);
    sum.add_number(u32::from(protocol));
    sum.add_number(len);
    sum.fold()
}

/// The same of an IPv6 header (RFC 8200, section 8.1).
fn pseudo6(head: &[u8], at: usize, protocol: u8, len: u32) -> u16
    requires there { at + 40 ≤ length head.now }
    requires short { length head.now < 2 ^ 32 }
    ensures sum { result ≡ fold_of (pseudo_header head.now Ip6 at protocol len) }
{
    let mut sum = Partial::new();
    sum.add(&head[at + 8..at + 40]);
    sum.add_number(len / 65536);
    sum.add_number(len % 65536);
    sum.add_number(0);
    sum.add_number(u32::from(protocol));
    sum.fold()
}

/// The sum of the pseudo header of what an IP header carries, whatever is behind these bytes.
fn pseudo_sum(head: &[u8], ip: Header, protocol: u8, len: u32) -> u16
    requires there { AreAddressesWithin (length head.now) ip.layer ip.at }
    requires short { length head.now < 2 ^ 32 }
    ensures sum { (behind : List ℕ) → result
        ≡ fold_of (pseudo_header (head.now ++ behind) ip.layer ip.at protocol len) }
{
    match ip.layer {
        Layer::Ip4 => pseudo4(head, ip.at as usize, protocol, len),
        Layer::Ip6 => pseudo6(head, ip.at as usize, protocol, len),
        _ => 0,
    }
}

/// The places in a frame of `len` bytes that has these headers at its front.
pub(crate) fn places_in(layout: &Layout, head: &[u8], len: u32) -> Places
    requires laid { AreLaid 0 layout.now.headers (length head.now) }
    requires low { length head.now ≤ 200 }
    ensures placed { (behind : List ℕ) → length (head.now ++ behind) ≡ len
        → ArePlaces layout.now (head.now ++ behind) result.ip_at result.leaf_at result.leaf result.pseudo }
{
    let headers = layout.headers();
    let leaf = header_at(headers, 1);
    let ip = header_at(headers, 2);
    let protocol = protocol_of(leaf.layer);
    Places {
        ip_at: ip.at,
        leaf_at: leaf.at,
        leaf: protocol,
        pseudo: pseudo_sum(head, ip, protocol, len.saturating_sub(u32::from(leaf.at))),
    }
}

/// The places in what a run comes to, whose first frame is `first`: a frame of `len` bytes with the run's headers at
/// its front, which `headers` begins with. Zeros where the run is one frame.
pub(crate) fn places_of<F: Frame>(run: &Run, first: &F, headers: &[u8; 200], len: u32) -> Places
    requires run { KnowsSome run.now (F.packet first.now) }
    ensures alone { run.now.more ≡ 0 → AreZeros result.ip_at result.leaf_at result.leaf result.pseudo }
    ensures placed { 1 ≤ run.now.more → (behind : List ℕ)
        → length (take (headers_size run.now) headers.now ++ behind) ≡ len
        → HasPlaces (F.packet first.now).frame (take (headers_size run.now) headers.now ++ behind)
        result.ip_at result.leaf_at result.leaf result.pseudo }
{
    if run.more > 0
        && let Some(layout) = &run.layout
    {
        return places_in(layout, &headers[..layout.payload_at()], len);
    }
    Places {
        ip_at: 0,
        leaf_at: 0,
        leaf: 0,
        pseudo: 0,
    }
}
