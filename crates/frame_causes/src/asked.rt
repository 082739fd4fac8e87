//! What is asked of two frames, header by header.
ghost use Rattle.std.specs.Prelude.{◌≡◌, ◌||◌, ◌+◌, ◌≤◌, ◌<◌, ◌^◌, nat_lt, nat_le, [], ◌∷◌, length};
ghost use Rattle.frame_layout.specs.Headers.{all_headers, is_outside as is_outside_said, size, AtHeaders};
ghost use Rattle.frame_runs.specs.Lent.{packet_of};
ghost use Rattle.offload_model.specs.Mergeable.{payloads_of};
ghost use Rattle.offload_model.specs.Tests.{are_ids_in_step, are_udp_sums_alike as are_alike_said};
ghost use Rattle.offload_model.specs.Tests.{is_ack_alone as is_ack_said, is_length_in_range};
ghost use Rattle.offload_model.specs.Tests.{is_sequence_behind};
ghost use Rattle.frame_causes.specs.Asks.{asks, AreThere};

use frame_layout::{Header, Layer, Layout};
use frame_runs::Lent;
use ip_headers::ip4;
use tcp_headers::{tcp, udp};

/// A condition on a header of both frames.
#[derive(Clone, Copy)]
pub(crate) enum Asked {
    /// No field of it that may differ has this place.
    Outside(usize),
    /// Both have a UDP sum, or neither has.
    UdpSums,
    /// Of the first's control bits ACK alone is set.
    AckAlone,
    /// The second's sequence number is the one behind the first's payload.
    Sequence,
    /// The identification rises by one, or stays under "don't fragment".
    Ids,
    /// Its length field can hold the length of both together.
    Lengths,
}

/// Whether a place lies before a field or behind it.
fn is_clear(k: usize, at: usize, len: usize) -> bool
    requires low { at + len < 2 ^ 32 }
    ensures clear { result ≡ (nat_lt k at || nat_le (at + len) k) }
{
    k < at || at + len <= k
}

fn is_outside(k: usize, header: Header) -> bool
    ensures outside { result ≡ is_outside_said k header.layer header.at }
{
    let at = header.at as usize;
    match header.layer {
        Layer::Ip4 => {
            is_clear(k, at + 2, 2) && (is_clear(k, at + 4, 2) && is_clear(k, at + 10, 2))
        }
        Layer::Ip6 => is_clear(k, at + 4, 2),
        Layer::Udp => is_clear(k, at + 4, 2) && is_clear(k, at + 6, 2),
        Layer::Tcp => {
            is_clear(k, at + 4, 4) && (is_clear(k, at + 13, 1) && is_clear(k, at + 16, 2))
        }
        _ => true,
    }
}

fn are_udp_sums_alike(first: &[u8], second: &[u8], header: Header) -> bool
    requires first { header.at + size header.layer ≤ length first.now }
    requires second { header.at + size header.layer ≤ length second.now }
    ensures alike { result ≡ are_alike_said second.now first.now header.layer header.at }
{
    let at = header.at as usize;
    match header.layer {
        Layer::Udp => (udp::checksum(first, at) == 0) == (udp::checksum(second, at) == 0),
        _ => true,
    }
}

fn is_ack_alone(first: &[u8], header: Header) -> bool
    requires first { header.at + size header.layer ≤ length first.now }
    ensures ack { result ≡ is_ack_said first.now header.layer header.at }
{
    match header.layer {
        Layer::Tcp => tcp::flags(first, header.at as usize) == 0x10,
        _ => true,
    }
}

fn is_behind(first: &[u8], second: &[u8], further: u32, header: Header) -> bool
    requires first { header.at + size header.layer ≤ length first.now }
    requires second { header.at + size header.layer ≤ length second.now }
    ensures behind { result ≡ is_sequence_behind first.now second.now further header.layer header.at }
{
    let at = header.at as usize;
    match header.layer {
        Layer::Tcp => tcp::sequence(second, at) == tcp::sequence(first, at).wrapping_add(further),
        _ => true,
    }
}

/// Whether the second identification follows.
fn is_id_next(first: &Lent<'_>, second: &Lent<'_>, header: Header) -> bool
    requires first { header.at + size header.layer ≤ length first.now.bytes.now }
    requires second { header.at + size header.layer ≤ length second.now.bytes.now }
    ensures next { result ≡ are_ids_in_step first.now.bytes.now (packet_of first.now ∷ packet_of second.now ∷ [])
        header.layer header.at }
{
    let at = header.at as usize;
    match header.layer {
        Layer::Ip4 => {
            let own = ip4::identification(first.bytes, at);
            let id = ip4::identification(second.bytes, at);
            id == own.wrapping_add(1) || (ip4::has_dont_fragment(first.bytes, at) && id == own)
        }
        _ => true,
    }
}

fn has_room(total: usize, header: Header) -> bool
    ensures room { result ≡ is_length_in_range total header.layer header.at }
{
    match header.layer {
        Layer::Ip4 | Layer::Udp => total.saturating_sub(header.at as usize) <= 65535,
        _ => true,
    }
}

/// How long the frame is that both come to.
pub(crate) fn total(layout: &Layout, first: &Lent<'_>, second: &Lent<'_>) -> usize
    requires there { AreThere layout.now first.now second.now }
    ensures total { result ≡ layout.now.payload_at
        + length (payloads_of layout.now (packet_of first.now ∷ packet_of second.now ∷ [])) }
{
    first.bytes.len() + (second.bytes.len() - layout.payload_at())
}

fn is_met(
    asked: Asked,
    layout: &Layout,
    first: &Lent<'_>,
    second: &Lent<'_>,
    header: Header,
) -> bool
    requires there { AreThere layout.now first.now second.now }
    requires inside { header.at + size header.layer ≤ layout.now.payload_at }
    ensures met { result ≡ asks asked layout.now (packet_of first.now) (packet_of second.now) header.layer header.at }
{
    match asked {
        Asked::Outside(k) => is_outside(k, header),
        Asked::UdpSums => are_udp_sums_alike(first.bytes, second.bytes, header),
        Asked::AckAlone => is_ack_alone(first.bytes, header),
        Asked::Sequence => {
            let further = first.bytes.len() - layout.payload_at();
            is_behind(first.bytes, second.bytes, further as u32, header)
        }
        Asked::Ids => is_id_next(first, second, header),
        Asked::Lengths => has_room(total(layout, first, second), header),
    }
}

/// Whether it is so at each header.
fn are_met(
    asked: Asked,
    layout: &Layout,
    first: &Lent<'_>,
    second: &Lent<'_>,
    headers: &[Header],
) -> bool
    requires there { AreThere layout.now first.now second.now }
    requires inside { AtHeaders (λ layer at. at + size layer ≤ layout.now.payload_at) headers.now }
    ensures met { result
        ≡ all_headers (asks asked layout.now (packet_of first.now) (packet_of second.now)) headers.now }
{
    for header in headers {
        if !is_met(asked, layout, first, second, *header) {
            return false;
        }
    }
    true
}

/// The same of a layout's headers.
pub(crate) fn all_met(asked: Asked, layout: &Layout, first: &Lent<'_>, second: &Lent<'_>) -> bool
    requires there { AreThere layout.now first.now second.now }
    ensures met { result
        ≡ all_headers (asks asked layout.now (packet_of first.now) (packet_of second.now)) layout.now.headers }
{
    are_met(asked, layout, first, second, layout.headers())
}
