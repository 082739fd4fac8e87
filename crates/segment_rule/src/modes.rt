//! The modes of a merged record: a bit for each IP header, set where the identification stays. The headers tell them,
//! so `head` are the first bytes of a frame, at least as far as its payload.

ghost use Rattle.std.specs.Prelude.{◌≡◌, ℕ, ◌+◌, ◌≤◌, ◌++◌, List, length};
ghost use Rattle.frame_layout.specs.Headers.{AtHeaders, size};
ghost use Rattle.offload_model.specs.Merged.{modes_behind as modes_left_behind};
ghost use Rattle.segment_rule.specs.Modes.{is_bit_lawful as is_bit_lawful_in, are_bits_lawful};

use frame_layout::{Header, Layer};
use ip_headers::ip4;

/// Whether the lowest bit may stand for this header.
fn is_bit_lawful(head: &[u8], header: Header, modes: u8) -> bool
    requires there { header.at + size header.layer ≤ length head.now }
    ensures bit { (rest : List ℕ) → result ≡ is_bit_lawful_in modes (head.now ++ rest) header.layer header.at }
{
    match header.layer {
        Layer::Ip4 => modes % 2 != 1 || ip4::has_dont_fragment(head, header.at as usize),
        Layer::Ip6 => modes % 2 != 1,
        _ => true,
    }
}

/// The modes of the headers behind this one.
fn modes_behind(layer: Layer, modes: u8) -> u8
    ensures modes { result ≡ modes_left_behind layer modes }
{
    match layer {
        Layer::Ip4 | Layer::Ip6 => modes / 2,
        _ => modes,
    }
}

/// Whether the modes have no bit but of IPv4 headers with "don't fragment".
pub fn are_modes_lawful(head: &[u8], headers: &[Header], modes: u8) -> bool
    requires there { AtHeaders (λ layer at. at + size layer ≤ length head.now) headers.now }
    ensures bits { (rest : List ℕ) → result ≡ are_bits_lawful modes (head.now ++ rest) headers.now }
{
    let mut left = modes;
    for header in headers {
        if !is_bit_lawful(head, *header, left) {
            return false;
        }
        left = modes_behind(header.layer, left);
    }
    left == 0
}
