//! Control bits and lengths, header by header.

ghost use Rattle.std.specs.Prelude.{◌≡◌, ℕ, ◌+◌, ◌<◌, ◌≤◌, ◌++◌, List, length};
ghost use Rattle.frame_layout.specs.Headers.{AtHeaders};
ghost use Rattle.frame_layout.specs.Plain.{plain_headers};
ghost use Rattle.frame_layout.specs.declared.layout.Layer.TheVariants.{Ip4};
ghost use Rattle.offload_model.specs.Mergeable.{IsLengthInRange};
ghost use Rattle.offload_model.specs.Edits.{with_edits, put_length as with_length, put_flags as with_flags};
ghost use Rattle.header_fill.specs.Filled.{IsInside};

use frame_layout::{Header, IP, Layer, TCP, are_plain, ip6_length};
use ip_headers::{set_payload_len, set_total};
use tcp_headers::{set_flags, set_udp_len};

/// Each TCP header's control bits.
pub fn put_flags(head: &mut [u8], headers: &[Header], flags: u8)
    requires inside { AtHeaders (IsInside (length head.old)) headers.now }
    ensures edited { (rest : List ℕ)
        → head.new ++ rest ≡ with_edits (with_flags flags) headers.now (head.old ++ rest) }
{
    if are_plain(headers) {
        return put_plain_flags(head, flags);
    }
    let mut i = headers.len();
    while i > 0 {
        i -= 1;
        put_flags_at(head, headers[i], flags);
    }
}

/// The same of Ethernet, IPv4 and TCP alone, at fixed places.
#[inline(always)]
fn put_plain_flags(head: &mut [u8], flags: u8)
    requires inside { 54 ≤ length head.old }
    ensures edited { (rest : List ℕ)
        → head.new ++ rest ≡ with_edits (with_flags flags) plain_headers (head.old ++ rest) }
{
    put_flags_at(head, TCP, flags);
}

/// One header's control bits, where it has some.
#[inline(always)]
fn put_flags_at(head: &mut [u8], header: Header, flags: u8)
    requires inside { IsInside (length head.old) header.layer header.at }
    ensures edited { (rest : List ℕ)
        → head.new ++ rest ≡ with_flags flags header.layer header.at (head.old ++ rest) }
{
    match header.layer {
        Layer::Tcp => set_flags(head, header.at as usize, flags),
        _ => {}
    }
}

/// Each header's length field, in a frame of `total` bytes.
pub fn put_lengths(head: &mut [u8], headers: &[Header], total: usize)
    requires inside { AtHeaders (IsInside (length head.old)) headers.now }
    requires ranges { AtHeaders (IsLengthInRange total) headers.now }
    requires total { length head.old ≤ total }
    ensures edited { (rest : List ℕ)
        → length head.old + length rest ≡ total
        → head.new ++ rest ≡ with_edits with_length headers.now (head.old ++ rest) }
{
    let mut i = headers.len();
    while i > 0 {
        i -= 1;
        put_length(head, headers[i], total);
    }
}

/// The same of Ethernet, IPv4 and TCP alone, at fixed places.
#[inline(always)]
pub(crate) fn put_plain_lengths(head: &mut [u8], total: usize)
    requires inside { 54 ≤ length head.old }
    requires range { IsLengthInRange total Ip4 14 }
    requires total { length head.old ≤ total }
    ensures edited { (rest : List ℕ)
        → length head.old + length rest ≡ total
        → head.new ++ rest ≡ with_edits with_length plain_headers (head.old ++ rest) }
{
    put_length(head, IP, total);
}

/// One header's length field, where it has one.
#[inline(always)]
fn put_length(head: &mut [u8], header: Header, total: usize)
    requires inside { IsInside (length head.old) header.layer header.at }
    requires range { IsLengthInRange total header.layer header.at }
    requires total { length head.old ≤ total }
    ensures edited { (rest : List ℕ)
        → length head.old + length rest ≡ total
        → head.new ++ rest ≡ with_length header.layer header.at (head.old ++ rest) }
{
    let at = header.at as usize;
    match header.layer {
        Layer::Ip4 => set_total(head, at, (total - at) as u16),
        Layer::Ip6 => set_payload_len(head, at, ip6_length(total - at - 40)),
        Layer::Udp => set_udp_len(head, at, (total - at) as u16),
        _ => {}
    }
}
