//! Sums, from the innermost header outward. Behind a header stand the headers within and the payload, and of the
//! payload its sum is enough (RFC 1071, section 2: partial sums).

ghost use Rattle.std.specs.Prelude.{◌≡◌, ℕ, ◌+◌, ◌-◌, ◌%◌, ◌<◌, ◌≤◌, ◌^◌, ◌++◌, List, length, drop};
ghost use Rattle.net_bytes.specs.Bytes.{put16};
ghost use Rattle.inet_sum.specs.Sum.{checksum_of};
ghost use Rattle.inet_sum.specs.Stands.{StandsFor};
ghost use Rattle.frame_layout.specs.Headers.{AreLaid};
ghost use Rattle.frame_layout.specs.declared.layout.Layer.TheVariants.{Udp};
ghost use Rattle.frame_layout.specs.Plain.{plain_headers};
ghost use Rattle.frame_layout.specs.Candidate.{pseudo_header};
ghost use Rattle.offload_model.specs.Edits.{put_sum as with_sum, with_sums};
ghost use Rattle.frame_layout.specs.Front.{AreAddressesWithin};
ghost use Rattle.header_fill.specs.Filled.{IsInside, header_before};

use frame_layout::{ETHERNET, Front, Header, IP, Layer, TCP as TCP_HEADER, carried_sum, ip4_sum};
use inet_sum::{Partial, not_zero};
use ip_headers::set_header_sum;
use tcp_headers::{set_tcp_sum, set_udp_sum, udp};

/// TCP's number in an IP header (RFC 790).
const TCP: u8 = 6;

/// UDP's number in an IP header (RFC 790).
const UDP: u8 = 17;

/// Each header's sum; `payload` is the sum of what is behind all headers.
pub fn put_sums(head: &mut [u8], headers: &[Header], payload: Partial)
    requires laid { AreLaid 0 headers.now (length head.old) }
    requires few { length head.old + payload.len < 2 ^ 31 }
    ensures summed { (bytes : List ℕ)
        → StandsFor payload bytes
        → head.new ++ bytes ≡ with_sums (header_before headers.now 0) headers.now (head.old ++ bytes) }
{
    let mut i = headers.len();
    while i > 0 {
        i -= 1;
        put_sum(head, before(headers, i), headers[i], payload);
    }
}

/// The same of Ethernet, IPv4 and TCP alone, at fixed places.
#[inline(always)]
pub(crate) fn put_plain_sums(head: &mut [u8], payload: Partial)
    requires inside { 54 ≤ length head.old }
    requires few { length head.old + payload.len < 2 ^ 31 }
    ensures summed { (bytes : List ℕ)
        → StandsFor payload bytes
        → head.new ++ bytes ≡ with_sums (header_before plain_headers 0) plain_headers (head.old ++ bytes) }
{
    put_sum(head, IP, TCP_HEADER, payload);
    put_sum(head, ETHERNET, IP, payload);
}

/// The header before the one at a place; before the first, an Ethernet header.
fn before(headers: &[Header], i: usize) -> Header
    requires inside { i ≤ length headers.now }
    ensures header { result ≡ header_before headers.now i }
{
    if i == 0 {
        Header {
            layer: Layer::Ethernet,
            at: 0,
        }
    } else {
        headers[i - 1]
    }
}

/// One header's sum, where it has one; `ip` is the header before it.
#[inline(always)]
fn put_sum(head: &mut [u8], ip: Header, header: Header, payload: Partial)
    requires inside { IsInside (length head.old) header.layer header.at }
    requires addresses { AreAddressesWithin (length head.old) ip.layer ip.at }
    requires few { length head.old + payload.len < 2 ^ 31 }
    ensures summed { (bytes : List ℕ)
        → StandsFor payload bytes
        → head.new ++ bytes ≡ with_sum ip header.layer header.at (head.old ++ bytes) }
{
    let at = header.at as usize;
    match header.layer {
        Layer::Ip4 => {
            let sum = ip4_sum(head, at);
            set_header_sum(head, at, sum);
        }
        Layer::Tcp => {
            let sum = sum_over(head, ip, TCP, at, 16, payload);
            set_tcp_sum(head, at, sum);
        }
        Layer::Udp => put_udp_sum(head, ip, at, payload),
        _ => {}
    }
}

/// The sum of the UDP header at the place, where it has one. With it one header's sum would be too long to be put
/// together with its callers.
fn put_udp_sum(head: &mut [u8], ip: Header, at: usize, payload: Partial)
    requires inside { at + 8 ≤ length head.old }
    requires addresses { AreAddressesWithin (length head.old) ip.layer ip.at }
    requires few { length head.old + payload.len < 2 ^ 31 }
    ensures summed { (bytes : List ℕ)
        → StandsFor payload bytes
        → head.new ++ bytes ≡ with_sum ip Udp at (head.old ++ bytes) }
{
    if udp::checksum(head, at) != 0 {
        let sum = not_zero(sum_over(head, ip, UDP, at, 6, payload));
        set_udp_sum(head, at, sum);
    }
}

/// The sum of what an IP header carries, from the header at `at` on, with that header's sum field at `field` taken as
/// zero (RFC 9293, section 3.1; RFC 768).
#[inline(always)]
fn sum_over(head: &[u8], ip: Header, protocol: u8, at: usize, field: usize, payload: Partial) -> u16
    requires field { at + field + 2 ≤ length head.now }
    requires even { field % 2 ≡ 0 }
    requires addresses { AreAddressesWithin (length head.now) ip.layer ip.at }
    requires few { length head.now + payload.len < 2 ^ 31 }
    ensures sum { (bytes : List ℕ)
        → StandsFor payload bytes
        → let f = head.now ++ bytes in
        let pseudo = pseudo_header f ip.layer ip.at protocol (length f - at) in
        result ≡ checksum_of (pseudo ++ put16 (drop at f) field 0) }
{
    let front = Front {
        head,
        end: head.len(),
        len: head.len() + payload.len() as usize,
        behind: payload.fold(),
    };
    carried_sum(&front, ip, protocol, at, field)
}
