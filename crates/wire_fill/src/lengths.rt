//! Whether the lengths in a frame's headers count to its end.

ghost use Rattle.std.specs.Prelude.{◌≡◌, ℕ, ◌+◌, ◌≤◌, ◌++◌, List, length};
ghost use Rattle.frame_layout.specs.Candidate.{is_length_right as is_length_right_of};
ghost use Rattle.frame_layout.specs.Headers.{all_headers, size, AtHeaders};

use frame_layout::{Header, Layer, ip6_length};
use ip_headers::{ip4, ip6};
use tcp_headers::udp;

// Whether the header's length field counts to the end of a frame of this length.
fn is_length_right(head: &[u8], len: usize, header: Header) -> bool
    requires there { header.at + size header.layer ≤ length head.now }
    requires long { length head.now ≤ len }
    ensures right { (rest : List ℕ) → result ≡ is_length_right_of len (head.now ++ rest) header.layer header.at }
{
    let at = header.at as usize;
    match header.layer {
        Layer::Ip4 => usize::from(ip4::total_length(head, at)) == len - at,
        Layer::Ip6 => ip6::payload_length(head, at) == ip6_length(len - at - 40),
        Layer::Udp => usize::from(udp::total_length(head, at)) == len - at,
        _ => true,
    }
}

/// Whether each header's length field counts to the end of a frame of `len` bytes. `head` are its first bytes, at least
/// all of these headers.
pub fn are_lengths_right(head: &[u8], len: usize, headers: &[Header]) -> bool
    requires there { AtHeaders (λ layer at. at + size layer ≤ length head.now) headers.now }
    requires long { length head.now ≤ len }
    ensures right { (rest : List ℕ) → result ≡ all_headers (is_length_right_of len (head.now ++ rest)) headers.now }
{
    for header in headers {
        if !is_length_right(head, len, *header) {
            return false;
        }
    }
    true
}
