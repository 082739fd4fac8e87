//! The TCP header of a small segment, with options too, and a UDP header written by hand after RFC 768.
use crate::seeing::assert_same;
use tcp_headers::{TcpView, UdpView, set_flags, set_seq, set_tcp_sum, set_udp_len, set_udp_sum};

static TCP: [u8; 24] = [
    0x9c, 0x40, 0x13, 0x89, 0x00, 0x00, 0x03, 0xe8, 0x00, 0x00, 0x00, 0x01, 0x50, 0x10, 0x01, 0x00,
    0x22, 0x55, 0x00, 0x07, 0x61, 0x62, 0x63, 0x64,
];

/// The same with another sequence number, other flags and another sum.
static EDITED_TCP: [u8; 24] = [
    0x9c, 0x40, 0x13, 0x89, 0xfe, 0xdc, 0xba, 0x98, 0x00, 0x00, 0x00, 0x01, 0x50, 0x18, 0x01, 0x00,
    0x12, 0x34, 0x00, 0x07, 0x61, 0x62, 0x63, 0x64,
];

static UDP: [u8; 8] = [0xc3, 0x50, 0x12, 0xb5, 0x00, 0x6e, 0xab, 0xcd];

/// Ports; sequence and acknowledgment; data offset, reserved bits and flags; window, sum and urgent pointer.
fn tcp_fields(bytes: &[u8]) -> Option<([u16; 2], [u32; 2], [u8; 3], [u16; 3])> {
    let header = TcpView::read(bytes, 0)?;
    Some((
        [header.source_port(), header.destination_port()],
        [header.sequence(), header.acknowledgment()],
        [header.data_offset(), header.reserved(), header.flags()],
        [header.window(), header.sum(), header.urgent()],
    ))
}

#[test]
fn fields_of_tcp(rt: HostRuntime) {
    let fields = Some(([40000, 5001], [1000, 1], [5, 0, 0x10], [256, 0x2255, 7]));
    let mut bytes = TCP;
    set_seq(&mut bytes, 0, 0xfedcba98);
    set_flags(&mut bytes, 0, 0x18);
    set_tcp_sum(&mut bytes, 0, 0x1234);
    assert_same(&rt, &(tcp_fields(&TCP), bytes), &(fields, EDITED_TCP));
}

/// Whether there is a header with this byte of the data offset.
fn is_header(offset: u8) -> bool {
    let mut bytes = TCP;
    bytes[12] = offset;
    TcpView::read(&bytes, 0).is_some()
}

#[test]
fn tcp_headers_that_are_not_there(rt: HostRuntime) {
    let there = [
        is_header(0x40),
        is_header(0x50),
        is_header(0x60),
        is_header(0x70),
        is_header(0xf0),
        TcpView::read(&TCP[..19], 0).is_some(),
        TcpView::read(&TCP, 5).is_some(),
    ];
    assert_same(
        &rt,
        &there,
        &[false, true, true, false, false, false, false],
    );
}

/// Ports, length and sum.
fn udp_fields(at: usize) -> Option<[u16; 4]> {
    let header = UdpView::read(&UDP, at)?;
    Some([
        header.source_port(),
        header.destination_port(),
        header.length(),
        header.sum(),
    ])
}

#[test]
fn fields_of_udp(rt: HostRuntime) {
    let mut bytes = UDP;
    set_udp_len(&mut bytes, 0, 0x0102);
    set_udp_sum(&mut bytes, 0, 0x0304);
    assert_same(
        &rt,
        &([udp_fields(0), udp_fields(1)], bytes),
        &(
            [Some([50000, 4789, 110, 0xabcd]), None],
            [0xc3, 0x50, 0x12, 0xb5, 0x01, 0x02, 0x03, 0x04],
        ),
    );
}
