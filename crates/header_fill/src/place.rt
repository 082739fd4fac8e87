//! What a packet's place in its stream decides: identification and sequence number.

ghost use Rattle.std.specs.Prelude.{◌≡◌, ℕ, ◌+◌, ◌%◌, ◌^◌, ◌≤◌, ◌++◌, List, length};
ghost use Rattle.net_bytes.specs.Bytes.{put16, put32};
ghost use Rattle.ip_headers.specs.Ip4.{identification};
ghost use Rattle.tcp_headers.specs.Tcp.{sequence};
ghost use Rattle.frame_layout.specs.Headers.{AtHeaders};
ghost use Rattle.frame_layout.specs.Plain.{plain_headers};
ghost use Rattle.offload_model.specs.Merged.{is_fixed as is_fixed_by};
ghost use Rattle.offload_model.specs.Edits.{with_edits, put_place as with_place};
ghost use Rattle.header_fill.specs.Filled.{IsInside};

use frame_layout::{Header, IP, Layer, TCP, are_plain};
use ip_headers::{ip4, set_id};
use tcp_headers::{set_seq, tcp};

/// Identifications and sequence numbers, `i` packets and `n` bytes further on; `modes` says which identifications stay.
pub fn put_places(head: &mut [u8], headers: &[Header], modes: u8, i: u32, n: u32)
    requires inside { AtHeaders (IsInside (length head.old)) headers.now }
    ensures edited { (rest : List ℕ)
        → head.new ++ rest ≡ with_edits (with_place (is_fixed_by modes headers.now) i n) headers.now
        (head.old ++ rest) }
{
    if are_plain(headers) {
        return put_plain_places(head, modes, i, n);
    }
    let mut k = headers.len();
    while k > 0 {
        k -= 1;
        put_place(head, headers, headers[k], modes, i, n);
    }
}

/// The same of Ethernet, IPv4 and TCP alone, at fixed places.
fn put_plain_places(head: &mut [u8], modes: u8, i: u32, n: u32)
    requires inside { 54 ≤ length head.old }
    ensures edited { (rest : List ℕ)
        → head.new ++ rest ≡ with_edits (with_place (is_fixed_by modes plain_headers) i n) plain_headers
        (head.old ++ rest) }
{
    put_sequence(head, TCP.at as usize, n);
    if modes % 2 != 1 {
        put_identification(head, IP.at as usize, i);
    }
}

/// Whether the identification of the IPv4 header at the place stays.
fn is_fixed(modes: u8, headers: &[Header], at: usize) -> bool
    ensures fixed { result ≡ is_fixed_by modes headers.now at }
{
    let mut left = modes;
    for header in headers {
        match header.layer {
            Layer::Ip4 => {
                if header.at as usize == at {
                    return left % 2 == 1;
                }
                left /= 2;
            }
            Layer::Ip6 => left /= 2,
            _ => {}
        }
    }
    false
}

/// One header's identification or sequence number.
fn put_place(head: &mut [u8], headers: &[Header], header: Header, modes: u8, i: u32, n: u32)
    requires inside { IsInside (length head.old) header.layer header.at }
    ensures edited { (rest : List ℕ)
        → head.new ++ rest ≡ with_place (is_fixed_by modes headers.now) i n header.layer header.at (head.old ++ rest) }
{
    let at = header.at as usize;
    match header.layer {
        Layer::Ip4 => {
            if !is_fixed(modes, headers, at) {
                put_identification(head, at, i);
            }
        }
        Layer::Tcp => put_sequence(head, at, n),
        _ => {}
    }
}

/// The identification of the IPv4 header at a place, `i` packets further on.
#[inline(always)]
fn put_identification(head: &mut [u8], at: usize, i: u32)
    requires inside { at + 20 ≤ length head.old }
    ensures edited { (rest : List ℕ)
        → head.new ++ rest ≡ put16 (head.old ++ rest) (at + 4)
        ((identification (head.old ++ rest) at + i) % 2 ^ 16) }
{
    let identification = ip4::identification(head, at).wrapping_add((i % 65536) as u16);
    set_id(head, at, identification);
}

/// The sequence number of the TCP header at a place, `n` bytes further on.
#[inline(always)]
fn put_sequence(head: &mut [u8], at: usize, n: u32)
    requires inside { at + 20 ≤ length head.old }
    ensures edited { (rest : List ℕ)
        → head.new ++ rest ≡ put32 (head.old ++ rest) (at + 4) ((sequence (head.old ++ rest) at + n) % 2 ^ 32) }
{
    let sequence = tcp::sequence(head, at).wrapping_add(n);
    set_seq(head, at, sequence);
}
