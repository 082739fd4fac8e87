//! The headers of a generated frame, each as the array of its bytes.
ghost use Rattle.std.specs.Prelude.{◌≡◌, ◌/◌, ◌%◌};
ghost use Rattle.cap_make.specs.Headers.{ethernet as ethernet_of, tag as tag_of, ip4_front as ip4_front_of};
ghost use Rattle.cap_make.specs.Headers.{ip4_ends as ip4_ends_of, tunnel_ends as tunnel_ends_of};
ghost use Rattle.cap_make.specs.Headers.{ip6_front as ip6_front_of, ip6_ends as ip6_ends_of};
ghost use Rattle.cap_make.specs.Headers.{tcp_header as tcp_header_of, udp_header as udp_header_of};
ghost use Rattle.cap_make.specs.Headers.{vxlan_header as vxlan_header_of};
ghost use Rattle.cap_make.specs.Frames.{ip4_pseudo as ip4_pseudo_of, ip6_pseudo as ip6_pseudo_of};

use crate::segment::Segment;

pub(crate) const TYPE_IP4: u16 = 0x0800;

pub(crate) const TYPE_TAG: u16 = 0x8100;

pub(crate) const TYPE_IP6: u16 = 0x86dd;

pub(crate) const PROTOCOL_TCP: u8 = 6;

pub(crate) const PROTOCOL_UDP: u8 = 17;

const TCP_PORT: u16 = 5001;

const VXLAN_PORT: u16 = 4789;

const WINDOW: u16 = 1024;

#[inline(always)]
fn high(n: u16) -> u8
    ensures value { result ≡ n / 256 }
{
    (n / 256) as u8
}

#[inline(always)]
fn low(n: u16) -> u8
    ensures value { result ≡ n % 256 }
{
    (n % 256) as u8
}

pub(crate) fn ethernet(flow: u8, kind: u16) -> [u8; 14]
    ensures bytes { result ≡ ethernet_of flow kind }
{
    [
        2,
        0,
        0,
        0,
        1,
        flow,
        2,
        0,
        0,
        0,
        2,
        flow,
        high(kind),
        low(kind),
    ]
}

pub(crate) fn tag(flow: u8, kind: u16) -> [u8; 4]
    ensures bytes { result ≡ tag_of flow kind }
{
    let control = 100 + u16::from(flow);
    [high(control), low(control), high(kind), low(kind)]
}

pub(crate) fn ip4_front(len: u16, identification: u16, protocol: u8, sum: u16) -> [u8; 12]
    ensures bytes { result ≡ ip4_front_of len identification protocol sum }
{
    [
        0x45,
        0,
        high(len),
        low(len),
        high(identification),
        low(identification),
        0x40,
        0,
        64,
        protocol,
        high(sum),
        low(sum),
    ]
}

pub(crate) fn ip4_ends(flow: u8) -> [u8; 8]
    ensures bytes { result ≡ ip4_ends_of flow }
{
    [10, 0, 0, flow, 10, 0, 1, flow]
}

pub(crate) fn tunnel_ends(flow: u8) -> [u8; 8]
    ensures bytes { result ≡ tunnel_ends_of flow }
{
    [192, 0, 2, flow, 192, 0, 2, 100]
}

pub(crate) fn ip6_front(len: u16) -> [u8; 8]
    ensures bytes { result ≡ ip6_front_of len }
{
    [0x60, 0, 0, 0, high(len), low(len), PROTOCOL_TCP, 64]
}

pub(crate) fn ip6_ends(flow: u8) -> [u8; 32]
    ensures bytes { result ≡ ip6_ends_of flow }
{
    [
        0x20, 0x01, 0x0d, 0xb8, 0, 0, 0, 0, 0, 0, 0, 0, 0, 0, 0, flow, 0x20, 0x01, 0x0d, 0xb8, 0,
        0, 0, 0, 0, 0, 0, 0, 0, 0, 1, flow,
    ]
}

pub(crate) fn ip4_pseudo(len: u16) -> [u8; 4]
    ensures bytes { result ≡ ip4_pseudo_of len }
{
    [0, PROTOCOL_TCP, high(len), low(len)]
}

pub(crate) fn ip6_pseudo(len: u16) -> [u8; 8]
    ensures bytes { result ≡ ip6_pseudo_of len }
{
    [0, 0, high(len), low(len), 0, 0, 0, PROTOCOL_TCP]
}

pub(crate) fn tcp_header(segment: &Segment, sum: u16) -> [u8; 20]
    ensures bytes { result ≡ tcp_header_of segment.now sum }
{
    let port = 40000 + u16::from(segment.flow);
    let first = (segment.sequence / 65536) as u16;
    let second = (segment.sequence % 65536) as u16;
    [
        high(port),
        low(port),
        high(TCP_PORT),
        low(TCP_PORT),
        high(first),
        low(first),
        high(second),
        low(second),
        0,
        0,
        0,
        1,
        0x50,
        segment.flags,
        high(WINDOW),
        low(WINDOW),
        high(sum),
        low(sum),
        0,
        0,
    ]
}

pub(crate) fn udp_header(flow: u8, len: u16) -> [u8; 8]
    ensures bytes { result ≡ udp_header_of flow len }
{
    let port = 50000 + u16::from(flow);
    [
        high(port),
        low(port),
        high(VXLAN_PORT),
        low(VXLAN_PORT),
        high(len),
        low(len),
        0,
        0,
    ]
}

pub(crate) fn vxlan_header(flow: u8) -> [u8; 8]
    ensures bytes { result ≡ vxlan_header_of flow }
{
    let network = 4096 + u16::from(flow);
    [8, 0, 0, 0, 0, high(network), low(network), 0]
}
