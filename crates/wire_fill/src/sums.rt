//! Sums, filled in from the innermost header outward. Behind a header stand the headers within and the payload, and of
//! the payload its sum is enough (RFC 1071, section 2: partial sums).

ghost use Rattle.std.specs.Prelude.{◌≡◌, ℕ, ◌+◌, ◌-◌, ◌*◌, ◌%◌, ◌<◌, ◌≤◌, ◌^◌, ◌++◌, ◌||◌, List, length, drop};
ghost use Rattle.net_bytes.specs.Bytes.{put16};
ghost use Rattle.inet_sum.specs.Sum.{checksum_of};
ghost use Rattle.inet_sum.specs.Stands.{StandsFor};
ghost use Rattle.frame_layout.specs.Headers.{AreLaid};
ghost use Rattle.frame_layout.specs.declared.layout.Layer.TheVariants.{Ip4, Tcp, Udp};
ghost use Rattle.frame_layout.specs.Candidate.{pseudo_header};
ghost use Rattle.frame_layout.specs.Front.{AreAddressesWithin};
ghost use Rattle.header_fill.specs.Filled.{IsInside, header_before};
ghost use Rattle.wire_model.specs.Filling.{fate_of, fates_of, fill_sum as with_sum, fill_sums as with_sums};
ghost use Rattle.wire_model.specs.Filling.{filled_at, filled_in, wrong_at, wrong_in};
ghost use Rattle.wire_fill.specs.Fated.{IsFated, IsFilledBy, fate_by};

use crate::pseudo::pseudo_sum;
use frame_layout::{Front, Header, Layer, carried_sum, ip4_sum};
use inet_sum::{Partial, not_zero};
use ip_headers::{ip4, set_header_sum};
use tcp_headers::{set_tcp_sum, set_udp_sum, tcp, udp};
use wire_model::Fate;

/// TCP's number in an IP header (RFC 790).
const TCP: u8 = 6;

/// UDP's number in an IP header (RFC 790).
const UDP: u8 = 17;

/// How many sums of a frame were filled in, and how many stay though they aren't right.
#[derive(Clone, Copy, Debug, PartialEq, Eq)]
pub struct Fates {
    pub filled: u32,
    pub wrong: u32,
}

// What becomes of a sum.
fn fate(is_right: bool, is_due: bool) -> Fate
    ensures fate { result ≡ fate_by is_right is_due }
{
    if is_right {
        Fate::Right
    } else if is_due {
        Fate::Filled
    } else {
        Fate::Wrong
    }
}

// The sum of what an IP header carries, from the header at `at` on, with that header's sum field at `field` taken as
// zero (RFC 9293, section 3.1; RFC 768).
#[inline(always)]
fn sum_over(head: &[u8], ip: Header, protocol: u8, at: usize, field: usize, payload: Partial) -> u16
    requires field { at + field + 2 ≤ length head.now }
    requires even { field % 2 ≡ 0 }
    requires addresses { AreAddressesWithin (length head.now) ip.layer ip.at }
    requires few { length head.now + payload.len < 2 ^ 31 }
    ensures sum { (bytes : List ℕ)
        → StandsFor payload bytes
        → let f = head.now ++ bytes in
        let pseudo = pseudo_header f ip.layer ip.at protocol (length f - at) in
        result ≡ checksum_of (pseudo ++ put16 (drop at f) field 0) }
{
    let front = Front {
        head,
        end: head.len(),
        len: head.len() + payload.len() as usize,
        behind: payload.fold(),
    };
    carried_sum(&front, ip, protocol, at, field)
}

// The sum of the IPv4 header at the place.
fn fill_ip4(head: &mut [u8], ip: Header, at: usize, all: bool) -> Fate
    requires inside { at + 20 ≤ length head.old }
    requires few { length head.old < 2 ^ 31 }
    ensures filled { (bytes : List ℕ) → IsFilledBy all ip Ip4 at (head.old ++ bytes) (head.new ++ bytes) result }
{
    let value = ip4_sum(head, at);
    let is_right = ip4::header_checksum(head, at) == value;
    if all {
        set_header_sum(head, at, value);
    }
    fate(is_right, all)
}

// The sum of the TCP header at the place; `ip` is the header before it.
fn fill_tcp(head: &mut [u8], ip: Header, at: usize, payload: Partial, all: bool) -> Fate
    requires inside { at + 20 ≤ length head.old }
    requires addresses { AreAddressesWithin (length head.old) ip.layer ip.at }
    requires few { length head.old + payload.len < 2 ^ 31 }
    ensures filled { (bytes : List ℕ) → StandsFor payload bytes
        → IsFilledBy all ip Tcp at (head.old ++ bytes) (head.new ++ bytes) result }
{
    let len = head.len() as u32 + payload.len();
    let field = tcp::checksum(head, at);
    let value = sum_over(head, ip, TCP, at, 16, payload);
    let is_due = all || field == pseudo_sum(head, ip, TCP, len - at as u32);
    if is_due {
        set_tcp_sum(head, at, value);
    }
    fate(field == value, is_due)
}

// The sum of the UDP header at the place, where it has one.
fn fill_udp(head: &mut [u8], ip: Header, at: usize, payload: Partial, all: bool) -> Fate
    requires inside { at + 8 ≤ length head.old }
    requires addresses { AreAddressesWithin (length head.old) ip.layer ip.at }
    requires few { length head.old + payload.len < 2 ^ 31 }
    ensures filled { (bytes : List ℕ) → StandsFor payload bytes
        → IsFilledBy all ip Udp at (head.old ++ bytes) (head.new ++ bytes) result }
{
    let len = head.len() as u32 + payload.len();
    let field = udp::checksum(head, at);
    if field == 0 {
        return Fate::Right;
    }
    let value = not_zero(sum_over(head, ip, UDP, at, 6, payload));
    let is_due = all || field == pseudo_sum(head, ip, UDP, len - at as u32);
    if is_due {
        set_udp_sum(head, at, value);
    }
    fate(field == value, is_due)
}

// One header's sum, where it has one; `ip` is the header before it.
fn fill_sum(head: &mut [u8], ip: Header, header: Header, payload: Partial, all: bool) -> Fate
    requires inside { IsInside (length head.old) header.layer header.at }
    requires addresses { AreAddressesWithin (length head.old) ip.layer ip.at }
    requires few { length head.old + payload.len < 2 ^ 31 }
    ensures filled { (bytes : List ℕ) → StandsFor payload bytes
        → IsFilledBy all ip header.layer header.at (head.old ++ bytes) (head.new ++ bytes) result }
{
    let at = header.at as usize;
    match header.layer {
        Layer::Ip4 => fill_ip4(head, ip, at, all),
        Layer::Tcp => fill_tcp(head, ip, at, payload, all),
        Layer::Udp => fill_udp(head, ip, at, payload, all),
        _ => Fate::Right,
    }
}

// The header before the one at a place; before the first, an Ethernet header.
fn before(headers: &[Header], i: usize) -> Header
    requires inside { i ≤ length headers.now }
    ensures header { result ≡ header_before headers.now i }
{
    if i == 0 {
        Header {
            layer: Layer::Ethernet,
            at: 0,
        }
    } else {
        headers[i - 1]
    }
}

impl Fates {
    // Counts one more.
    fn count(&mut self, fate: Fate)
        requires few { self.old.filled + self.old.wrong < 2 ^ 31 }
        ensures filled { self.new.filled ≡ filled_at fate + self.old.filled }
        ensures wrong { self.new.wrong ≡ wrong_at fate + self.old.wrong }
    {
        match fate {
            Fate::Right => {}
            Fate::Filled => self.filled += 1,
            Fate::Wrong => self.wrong += 1,
        }
    }
}

/// Fills in the sums of headers that stand before a payload: those that are partial, of the pseudo header alone, or
/// each one where `all` are wanted. A datagram without a sum stays without.
///
/// `payload` is the payload's sum, and says how long it is. No payload byte is read.
pub fn fill_sums(head: &mut [u8], headers: &[Header], payload: Partial, all: bool) -> Fates
    requires laid { AreLaid 0 headers.now (length head.old) }
    requires few { length head.old + payload.len < 2 ^ 31 }
    requires short { length headers.now ≤ 11 }
    ensures filled { (bytes : List ℕ)
        → StandsFor payload bytes
        → head.new ++ bytes ≡ with_sums all (header_before headers.now 0) headers.now (head.old ++ bytes) }
    ensures fates { (bytes : List ℕ)
        → StandsFor payload bytes
        → IsFated (fates_of all (header_before headers.now 0) headers.now (head.old ++ bytes)) result }
{
    let mut fates = Fates {
        filled: 0,
        wrong: 0,
    };
    let mut i = headers.len();
    while i > 0 {
        i -= 1;
        let fate = fill_sum(head, before(headers, i), headers[i], payload, all);
        fates.count(fate);
    }
    fates
}
