//! Whether the flags in a frame's headers are those of one that may be merged.
ghost use Rattle.std.specs.Prelude.{◌≡◌, ◌+◌, ◌≤◌, length};
ghost use Rattle.frame_layout.specs.Candidate.{are_flags_plain as are_plain};
ghost use Rattle.frame_layout.specs.Headers.{all_headers, size, AtHeaders};

use frame_layout::{Header, Layer};
use ip_headers::ip4;
use tcp_headers::tcp;

/// Whether a header has no reserved bit, and of TCP's control bits ACK with at most PSH and FIN.
fn is_plain(frame: &[u8], header: Header) -> bool
    requires there { header.at + size header.layer ≤ length frame.now }
    ensures plain { result ≡ are_plain frame.now header.layer header.at }
{
    let at = header.at as usize;
    match header.layer {
        Layer::Ip4 => ip4::is_reserved_zero(frame, at),
        Layer::Tcp => {
            let flags = tcp::flags(frame, at);
            tcp::reserved(frame, at) == 0
                && (flags == 0x10 || (flags == 0x18 || (flags == 0x11 || flags == 0x19)))
        }
        _ => true,
    }
}

/// The same of each header.
pub(crate) fn are_flags_plain(frame: &[u8], headers: &[Header]) -> bool
    requires there { AtHeaders (λ layer at. at + size layer ≤ length frame.now) headers.now }
    ensures plain { result ≡ all_headers (are_plain frame.now) headers.now }
{
    for header in headers {
        if !is_plain(frame, *header) {
            return false;
        }
    }
    true
}
