//! The headers that most frames have: Ethernet without tags, IPv4 or IPv6, and TCP, which lie at fixed places.

ghost use Rattle.std.specs.Prelude.{◌≡◌, IsTrue};
ghost use Rattle.frame_layout.specs.Plain.{plain_headers, plain6_headers};
ghost use Rattle.frame_layout.specs.declared.layout.Layer.TheVariants.{Ethernet, Ip4, Ip6, Tcp};

use crate::layout::{Header, Layer};

/// The first of them.
pub const ETHERNET: Header = Header {
    layer: Layer::Ethernet,
    at: 0,
};

/// The second one.
pub const IP: Header = Header {
    layer: Layer::Ip4,
    at: 14,
};

/// The third one.
pub const TCP: Header = Header {
    layer: Layer::Tcp,
    at: 34,
};

/// IPv6 in the second one's place.
pub const IP6: Header = Header {
    layer: Layer::Ip6,
    at: 14,
};

/// And TCP behind that.
pub const TCP6: Header = Header {
    layer: Layer::Tcp,
    at: 54,
};

fn is_ethernet(header: Header) -> bool
    ensures plain { IsTrue result → header ≡ record { layer = Ethernet; at = 0 } }
{
    match header.layer {
        Layer::Ethernet => header.at == 0,
        _ => false,
    }
}

fn is_ip(header: Header) -> bool
    ensures plain { IsTrue result → header ≡ record { layer = Ip4; at = 14 } }
{
    match header.layer {
        Layer::Ip4 => header.at == 14,
        _ => false,
    }
}

fn is_tcp(header: Header) -> bool
    ensures plain { IsTrue result → header ≡ record { layer = Tcp; at = 34 } }
{
    match header.layer {
        Layer::Tcp => header.at == 34,
        _ => false,
    }
}

fn is_ip6(header: Header) -> bool
    ensures plain { IsTrue result → header ≡ record { layer = Ip6; at = 14 } }
{
    match header.layer {
        Layer::Ip6 => header.at == 14,
        _ => false,
    }
}

fn is_tcp6(header: Header) -> bool
    ensures plain { IsTrue result → header ≡ record { layer = Tcp; at = 54 } }
{
    match header.layer {
        Layer::Tcp => header.at == 54,
        _ => false,
    }
}

/// Whether the headers are Ethernet without tags, IPv4 and TCP.
#[inline(always)]
pub fn are_plain(headers: &[Header]) -> bool
    ensures plain { IsTrue result → headers.now ≡ plain_headers }
{
    headers.len() == 3 && is_ethernet(headers[0]) && is_ip(headers[1]) && is_tcp(headers[2])
}

/// Whether the headers are Ethernet without tags, IPv6 and TCP.
#[inline(always)]
pub fn are_plain6(headers: &[Header]) -> bool
    ensures plain { IsTrue result → headers.now ≡ plain6_headers }
{
    headers.len() == 3 && is_ethernet(headers[0]) && is_ip6(headers[1]) && is_tcp6(headers[2])
}
