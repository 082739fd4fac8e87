//! Whether a frame continues a run, header by header.
ghost use Rattle.std.specs.Prelude.{◌≡◌, ◌==◌, ◌+◌, ◌<◌, ◌≤◌, ◌^◌, length};
ghost use Rattle.ip_headers.specs.Ip4.{identification as identification_of};
ghost use Rattle.frame_layout.specs.Headers.{all_headers, size, ip_count};
ghost use Rattle.offload_model.specs.Tests.{is_ack_alone as is_ack_alone_of};
ghost use Rattle.offload_model.specs.Merged.{modes_at, modes_behind as modes_behind_of, modes_of as modes_of_headers};
ghost use Rattle.merge_rule.specs.Next.{is_next_at, is_next_id_at, are_ids_next, AreInside};

use frame_layout::{Header, Layer, Layout, TCP, TCP6};
use ip_headers::ip4;
use tcp_headers::{tcp, udp};

/// A header of the next frame: its sequence number is `further` bytes behind the first frame's, it has a UDP sum where
/// that has one, and its 16 bits of length, where it has these, hold the length of a merged frame of `total` bytes.
#[inline(always)]
pub(crate) fn is_next_header(
    first: &[u8],
    next: &[u8],
    further: u32,
    total: usize,
    header: Header,
) -> bool
    requires first { header.at + size header.layer ≤ length first.now }
    requires next { header.at + size header.layer ≤ length next.now }
    ensures next { result ≡ is_next_at first.now next.now further total header.layer header.at }
{
    let at = header.at as usize;
    match header.layer {
        Layer::Ip4 => total.saturating_sub(at) <= 65535,
        Layer::Udp => {
            (udp::checksum(first, at) == 0) == (udp::checksum(next, at) == 0)
                && total.saturating_sub(at) <= 65535
        }
        Layer::Tcp => tcp::sequence(next, at) == tcp::sequence(first, at).wrapping_add(further),
        _ => true,
    }
}

pub(crate) fn are_next(
    first: &[u8],
    next: &[u8],
    further: u32,
    total: usize,
    headers: &[Header],
) -> bool
    requires first { AreInside (length first.now) headers.now }
    requires next { AreInside (length next.now) headers.now }
    ensures next { result ≡ all_headers (is_next_at first.now next.now further total) headers.now }
{
    for header in headers {
        if !is_next_header(first, next, further, total, *header) {
            return false;
        }
    }
    true
}

fn is_ack_header(frame: &[u8], header: Header) -> bool
    requires there { header.at + size header.layer ≤ length frame.now }
    ensures ack { result ≡ is_ack_alone_of frame.now header.layer header.at }
{
    match header.layer {
        Layer::Tcp => tcp::flags(frame, header.at as usize) == 0x10,
        _ => true,
    }
}

/// Whether of TCP's control bits ACK alone is set.
pub(crate) fn is_ack_alone(frame: &[u8], layout: &Layout) -> bool
    requires there { AreInside (length frame.now) layout.now.headers }
    ensures ack { result ≡ all_headers (is_ack_alone_of frame.now) layout.now.headers }
{
    if layout.is_plain() {
        return is_ack_header(frame, TCP);
    }
    if layout.is_plain6() {
        return is_ack_header(frame, TCP6);
    }
    are_acks_alone(frame, layout.headers())
}

/// The same of any headers.
fn are_acks_alone(frame: &[u8], headers: &[Header]) -> bool
    requires there { AreInside (length frame.now) headers.now }
    ensures ack { result ≡ all_headers (is_ack_alone_of frame.now) headers.now }
{
    for header in headers {
        if !is_ack_header(frame, *header) {
            return false;
        }
    }
    true
}

/// The identification of packet `count`, from 0, of a run. With packet 1 it is settled whether it stays or rises, which
/// the lowest bit of `modes` keeps.
#[inline(always)]
pub(crate) fn is_next_id(first: &[u8], next: &[u8], count: usize, modes: u8, header: Header) -> bool
    requires first { header.at + size header.layer ≤ length first.now }
    requires next { header.at + size header.layer ≤ length next.now }
    ensures next { result ≡ is_next_id_at count modes first.now next.now header.layer header.at }
{
    match header.layer {
        Layer::Ip4 => {
            let at = header.at as usize;
            let own = ip4::identification(first, at);
            let id = ip4::identification(next, at);
            let stays = id == own;
            let rises = id == own.wrapping_add((count % 65536) as u16);
            if count == 1 {
                rises || (ip4::has_dont_fragment(first, at) && stays)
            } else if modes % 2 == 1 {
                stays
            } else {
                rises
            }
        }
        _ => true,
    }
}

fn modes_behind(layer: Layer, modes: u8) -> u8
    ensures modes { result ≡ modes_behind_of layer modes }
{
    match layer {
        Layer::Ip4 | Layer::Ip6 => modes / 2,
        _ => modes,
    }
}

pub(crate) fn are_next_ids(
    first: &[u8],
    next: &[u8],
    count: usize,
    modes: u8,
    headers: &[Header],
) -> bool
    requires first { AreInside (length first.now) headers.now }
    requires next { AreInside (length next.now) headers.now }
    ensures next { result ≡ are_ids_next count modes first.now next.now headers.now }
{
    let mut left = modes;
    for header in headers {
        if !is_next_id(first, next, count, left, *header) {
            return false;
        }
        left = modes_behind(header.layer, left);
    }
    true
}

fn mode_before(first: &[u8], next: &[u8], header: Header, behind: u8) -> u8
    requires first { header.at + size header.layer ≤ length first.now }
    requires next { header.at + size header.layer ≤ length next.now }
    requires few { behind < 2 ^ 6 }
    ensures modes { result ≡ modes_at header.layer (identification_of next.now header.at
        == identification_of first.now header.at) behind }
{
    match header.layer {
        Layer::Ip4 => {
            let at = header.at as usize;
            let stays = ip4::identification(next, at) == ip4::identification(first, at);
            u8::from(stays) + 2 * behind
        }
        Layer::Ip6 => 2 * behind,
        _ => behind,
    }
}

/// A bit for each IP header, the lowest for the first, set where the identification stays from the first frame to the
/// next.
pub(crate) fn modes_of(first: &[u8], next: &[u8], headers: &[Header]) -> u8
    requires first { AreInside (length first.now) headers.now }
    requires next { AreInside (length next.now) headers.now }
    requires few { ip_count headers.now ≤ 2 }
    ensures modes { result ≡ modes_of_headers (λ at. identification_of next.now at
        == identification_of first.now at) headers.now }
{
    let mut modes: u8 = 0;
    let mut i = headers.len();
    while i > 0 {
        i -= 1;
        modes = mode_before(first, next, headers[i], modes);
    }
    modes
}
