//! The IPv4 header of a small TCP segment, and an IPv6 header written by hand after RFC 8200, section 3.
use crate::seeing::assert_same;
use ip_headers::{Ip4View, Ip6View, set_header_sum, set_id, set_payload_len, set_total};

static IP4: [u8; 20] = [
    0x45, 0x00, 0x00, 0x2c, 0x00, 0x64, 0x40, 0x00, 0x40, 0x06, 0x26, 0x66, 0x0a, 0x00, 0x00, 0x01,
    0x0a, 0x00, 0x00, 0x02,
];

static IP6: [u8; 40] = [
    0x60, 0x00, 0x00, 0x00, 0x01, 0x02, 0x11, 0x40, 0x20, 0x01, 0x0d, 0xb8, 0, 0, 0, 0, 0, 0, 0, 0,
    0, 0, 0, 1, 0x20, 0x01, 0x0d, 0xb8, 0, 0, 0, 0, 0, 0, 0, 0, 0, 0, 1, 2,
];

/// Total length, identification, flags and offset, and sum; TTL and protocol; source and destination.
fn ip4_fields(bytes: &[u8]) -> Option<([u16; 4], [u8; 2], [[u8; 4]; 2])> {
    let header = Ip4View::read(bytes, 0)?;
    Some((
        [
            header.total_length(),
            header.identification(),
            header.flags_and_offset(),
            header.header_sum(),
        ],
        [header.ttl(), header.protocol()],
        [header.source(), header.destination()],
    ))
}

#[test]
fn fields_of_ip4(rt: HostRuntime) {
    let mut bytes = IP4;
    set_total(&mut bytes, 0, 0x1234);
    set_id(&mut bytes, 0, 0x5678);
    set_header_sum(&mut bytes, 0, 0x9abc);
    let ends = [[10, 0, 0, 1], [10, 0, 0, 2]];
    assert_same(
        &rt,
        &[ip4_fields(&IP4), ip4_fields(&bytes)],
        &[
            Some(([44, 100, 0x4000, 0x2666], [64, 6], ends)),
            Some(([0x1234, 0x5678, 0x4000, 0x9abc], [64, 6], ends)),
        ],
    );
}

/// Payload length; next header and hop limit; source and destination.
fn ip6_fields(bytes: &[u8]) -> Option<(u16, [u8; 2], [[u8; 16]; 2])> {
    let header = Ip6View::read(bytes, 0)?;
    Some((
        header.payload_length(),
        [header.next_header(), header.hop_limit()],
        [header.source(), header.destination()],
    ))
}

#[test]
fn fields_of_ip6(rt: HostRuntime) {
    let mut bytes = IP6;
    set_payload_len(&mut bytes, 0, 0x5678);
    let ends = [
        [0x20, 0x01, 0x0d, 0xb8, 0, 0, 0, 0, 0, 0, 0, 0, 0, 0, 0, 1],
        [0x20, 0x01, 0x0d, 0xb8, 0, 0, 0, 0, 0, 0, 0, 0, 0, 0, 1, 2],
    ];
    assert_same(&rt, &ip6_fields(&bytes), &Some((0x5678, [17, 64], ends)));
}

/// Whether the IPv4 header is one with this first byte, and the IPv6 header.
fn are_headers(first: u8) -> (bool, bool) {
    let (mut ip4, mut ip6) = (IP4, IP6);
    ip4[0] = first;
    ip6[0] = first;
    (
        Ip4View::read(&ip4, 0).is_some(),
        Ip6View::read(&ip6, 0).is_some(),
    )
}

#[test]
fn headers_that_are_not_there(rt: HostRuntime) {
    let cut = [
        Ip4View::read(&IP4[..19], 0).is_some(),
        Ip4View::read(&IP4, 1).is_some(),
        Ip6View::read(&IP6[..39], 0).is_some(),
    ];
    // With options, and with a version that isn't the protocol's.
    let with_first = [
        are_headers(0x46),
        are_headers(0x44),
        are_headers(0x65),
        are_headers(0x05),
        are_headers(0x70),
        are_headers(0x00),
        are_headers(0x45),
    ];
    let none = (false, false);
    assert_same(
        &rt,
        &(cut, with_first),
        &(
            [false; 3],
            [none, none, (false, true), none, none, none, (true, false)],
        ),
    );
}
