//! Frames that a row decides, and captures of them, built byte by byte with sums of their own. Where there is no memory
//! the test ends.

use crate::byte_lists::joined;
use std::alloc::Global;
use std::process::Abort;
use worked_captures::FILE_HEADER;

// What of a frame its row decides.
#[derive(Clone, Copy)]
pub struct Frame {
    // How many tags there are: first a service tag where there are two or more.
    pub tags: u8,
    // The version of the outer IP header of a tunnel; 0 where there is no tunnel.
    pub tunnel: u8,
    // How many tunnels there are, one in the other, where there is one.
    pub tunnels: u8,
    pub outer_id: u16,
    // Of a tunnel's UDP header, and of a datagram's own.
    pub has_udp_sum: bool,
    // What stands, with an IPv4 header before it, around the packet.
    pub gre: Gre,
    // The version of the IP header below TCP or UDP.
    pub ip: u8,
    pub id: u16,
    pub has_df: bool,
    pub hops: u8,
    pub port: u16,
    // The destination port of a UDP datagram; 0 where there is a TCP segment.
    pub datagram_to: u16,
    // 32-bit words of TCP options.
    pub options: u8,
    pub seq: u32,
    pub flags: u8,
    pub payload: u16,
    // Bytes behind the packet.
    pub padding: u8,
    pub urgent: u16,
    pub sum: Sum,
}

// What stands as TCP sum: its value, another number as before an offload fills it in, or ffff.
#[derive(Clone, Copy, PartialEq, Eq)]
pub enum Sum {
    Right,
    Unfilled,
    Ffff,
}

// A GRE header: none, one of four bytes, one with a key, or one with a sum.
#[derive(Clone, Copy, PartialEq, Eq)]
pub enum Gre {
    None,
    Plain,
    Keyed(u8),
    Summed,
}

pub const PLAIN: Frame = Frame {
    tags: 0,
    tunnel: 0,
    tunnels: 1,
    outer_id: 7,
    has_udp_sum: false,
    gre: Gre::None,
    ip: 4,
    id: 100,
    has_df: true,
    hops: 64,
    port: 40000,
    datagram_to: 0,
    options: 0,
    seq: 1000,
    flags: 0x10,
    payload: 100,
    padding: 0,
    urgent: 0,
    sum: Sum::Right,
};

// The next frame of a flow, its identifications one further.
pub const NEXT: Frame = Frame {
    outer_id: 8,
    id: 101,
    seq: 1100,
    ..PLAIN
};

pub const PURE_ACK: Frame = Frame {
    id: 101,
    seq: 1100,
    payload: 0,
    padding: 6,
    ..PLAIN
};

// A full one of one flow.
pub const SEGMENT: Frame = Frame {
    options: 3,
    payload: 1448,
    ..PLAIN
};

// Source and destination of each IPv6 header: 2001:db8::1 and 2001:db8::2.
const ADDRESSES: [u8; 32] = [
    0x20, 1, 0x0d, 0xb8, 0, 0, 0, 0, 0, 0, 0, 0, 0, 0, 0, 1, 0x20, 1, 0x0d, 0xb8, 0, 0, 0, 0, 0, 0,
    0, 0, 0, 0, 0, 2,
];

// The first bytes, or all where there are fewer.
pub fn first(bytes: &[u8], count: usize) -> &[u8] {
    bytes.get(..count).unwrap_or(bytes)
}

// Puts bytes behind those that are there.
fn put(rt: &impl Abort, bytes: &mut Vec<u8>, more: &[u8]) {
    bytes.extend_from_slice(more).expect(rt, "no memory");
}

// Bytes that count up from 0 to 250, again and again.
fn counting(rt: &impl Abort, alloc: Global, count: u16) -> Vec<u8> {
    let mut bytes = Vec::new(alloc);
    for i in 0..count {
        bytes.push((i % 251) as u8).expect(rt, "no memory");
    }
    bytes
}

// The 16-bit words of some bytes, added up.
fn sum_of(bytes: &[u8]) -> u64 {
    let mut sum = 0u64;
    let mut is_high = true;
    for byte in bytes {
        let weight = if is_high { 256 } else { 1 };
        sum = sum.wrapping_add(weight * u64::from(*byte));
        is_high = !is_high;
    }
    sum
}

// The Internet sum, as a checksum field holds it.
fn checksum(sum: u64) -> u16 {
    let fold = if sum == 0 { 0 } else { (sum - 1) % 65535 + 1 };
    (65535 - fold) as u16
}

// The checksum of what an IP header of this version carries, with its pseudo header.
fn carried_sum(ip: u8, protocol: u8, bytes: &[u8]) -> u16 {
    let addresses = if ip == 4 {
        sum_of(&[10, 0, 0, 1, 10, 0, 0, 2])
    } else {
        sum_of(&ADDRESSES)
    };
    let len = (bytes.len() % 65536) as u64;
    let pseudo = addresses.wrapping_add(u64::from(protocol) + len);
    checksum(sum_of(bytes).wrapping_add(pseudo))
}

fn set16(bytes: &mut Vec<u8>, at: usize, n: u16) {
    if at < bytes.len() {
        bytes[at] = (n / 256) as u8;
    }
    let next = at.saturating_add(1);
    if next < bytes.len() {
        bytes[next] = (n % 256) as u8;
    }
}

// To port 5001, with no checksum yet.
fn tcp_header(frame: &Frame) -> [u8; 20] {
    let port = frame.port.to_be_bytes();
    let seq = frame.seq.to_be_bytes();
    let urgent = frame.urgent.to_be_bytes();
    let (size, flags) = ((frame.options % 11 + 5) * 16, frame.flags);
    [
        port[0], port[1], 0x13, 0x89, seq[0], seq[1], seq[2], seq[3], 0, 0, 0, 1, size, flags, 4,
        0, 0, 0, urgent[0], urgent[1],
    ]
}

fn segment(rt: &impl Abort, alloc: Global, frame: &Frame) -> Vec<u8> {
    let header = tcp_header(frame);
    let options = usize::from(frame.options % 11 * 4);
    let payload = counting(rt, alloc, frame.payload);
    let mut bytes = joined(rt, alloc, &[&header, first(&[1; 40], options), &payload]);
    let sum = match frame.sum {
        Sum::Right => carried_sum(frame.ip, 6, &bytes),
        Sum::Unfilled => 0x1234,
        Sum::Ffff => 0xffff,
    };
    set16(&mut bytes, 16, sum);
    bytes
}

// A UDP datagram between these ports, over this version of IP.
fn udp(
    rt: &impl Abort,
    alloc: Global,
    frame: &Frame,
    ip: u8,
    ports: [u16; 2],
    payload: &[u8],
) -> Vec<u8> {
    let (from, to) = (ports[0].to_be_bytes(), ports[1].to_be_bytes());
    let len = (8 + (payload.len() % 60000) as u16).to_be_bytes();
    let header = [from[0], from[1], to[0], to[1], len[0], len[1], 0, 0];
    let mut bytes = joined(rt, alloc, &[&header, payload]);
    if frame.has_udp_sum {
        let sum = carried_sum(ip, 17, &bytes);
        set16(&mut bytes, 6, if sum == 0 { 0xffff } else { sum });
    }
    bytes
}

fn ip4_header(frame: &Frame, id: u16, protocol: u8, len: u16) -> [u8; 20] {
    let (len, id) = (len.to_be_bytes(), id.to_be_bytes());
    let flags = if frame.has_df { 0x40 } else { 0 };
    let mut header = [
        0x45, 0, len[0], len[1], id[0], id[1], flags, 0, frame.hops, protocol, 0, 0, 10, 0, 0, 1,
        10, 0, 0, 2,
    ];
    let sum = checksum(sum_of(&header)).to_be_bytes();
    header[10] = sum[0];
    header[11] = sum[1];
    header
}

fn with_ip(
    rt: &impl Abort,
    alloc: Global,
    frame: &Frame,
    ip: u8,
    id: u16,
    protocol: u8,
    body: &[u8],
) -> Vec<u8> {
    let len = (body.len() % 60000) as u16;
    if ip == 4 {
        let header = ip4_header(frame, id, protocol, 20 + len);
        return joined(rt, alloc, &[&header, body]);
    }
    let len = len.to_be_bytes();
    let front = [0x60, 0, 0, 0, len[0], len[1], protocol, frame.hops];
    joined(rt, alloc, &[&front, &ADDRESSES, body])
}

// What stands before an IP header of this version.
fn ether_type(ip: u8) -> [u8; 2] {
    if ip == 4 { [0x08, 0x00] } else { [0x86, 0xdd] }
}

fn with_ethernet(rt: &impl Abort, alloc: Global, tags: u8, ip: u8, body: &[u8]) -> Vec<u8> {
    let mut bytes = joined(rt, alloc, &[&[2, 0, 0, 0, 0, 2, 2, 0, 0, 0, 0, 1]]);
    for left in (0..tags).rev() {
        let tag = if left == 0 {
            [0x81, 0x00, 0, 100]
        } else {
            [0x88, 0xa8, 0, 100]
        };
        put(rt, &mut bytes, &tag);
    }
    put(rt, &mut bytes, &ether_type(ip));
    put(rt, &mut bytes, body);
    bytes
}

fn with_tunnel(rt: &impl Abort, alloc: Global, frame: &Frame, inner: &[u8]) -> Vec<u8> {
    let payload = joined(rt, alloc, &[&[8, 0, 0, 0, 0, 16, 0, 0], inner]);
    let bytes = udp(rt, alloc, frame, frame.tunnel, [50000, 4789], &payload);
    let id = frame.outer_id;
    let packet = with_ip(rt, alloc, frame, frame.tunnel, id, 17, &bytes);
    with_ethernet(rt, alloc, frame.tags, frame.tunnel, &packet)
}

fn packet_of(rt: &impl Abort, alloc: Global, frame: &Frame) -> Vec<u8> {
    if frame.datagram_to == 0 {
        let segment = segment(rt, alloc, frame);
        return with_ip(rt, alloc, frame, frame.ip, frame.id, 6, &segment);
    }
    let payload = counting(rt, alloc, frame.payload);
    let ports = [frame.port, frame.datagram_to];
    let datagram = udp(rt, alloc, frame, frame.ip, ports, &payload);
    with_ip(rt, alloc, frame, frame.ip, frame.id, 17, &datagram)
}

// A packet behind a GRE header.
fn with_gre(rt: &impl Abort, alloc: Global, frame: &Frame, packet: &[u8]) -> Vec<u8> {
    let (flags, key, size) = match frame.gre {
        Gre::Keyed(key) => (0x20, key, 8),
        Gre::Summed => (0x80, 0, 8),
        _ => (0, 0, 4),
    };
    let kind = ether_type(frame.ip);
    let header = [flags, 0, kind[0], kind[1], 0, 0, 0, key];
    let body = joined(rt, alloc, &[first(&header, size), packet]);
    with_ip(rt, alloc, frame, 4, frame.outer_id, 47, &body)
}

fn bytes_of(rt: &impl Abort, alloc: Global, frame: &Frame) -> Vec<u8> {
    let packet = packet_of(rt, alloc, frame);
    let mut bytes = if frame.gre == Gre::None {
        with_ethernet(rt, alloc, frame.tags, frame.ip, &packet)
    } else {
        let outer = with_gre(rt, alloc, frame, &packet);
        with_ethernet(rt, alloc, frame.tags, 4, &outer)
    };
    if frame.tunnel != 0 {
        for _ in 0..frame.tunnels {
            bytes = with_tunnel(rt, alloc, frame, &bytes);
        }
    }
    put(rt, &mut bytes, first(&[0; 255], usize::from(frame.padding)));
    bytes
}

// The header of a record of which all is captured.
pub fn record_header(second: u32, fraction: u32, len: u32) -> [u8; 16] {
    let (s, f, l) = (
        second.to_le_bytes(),
        fraction.to_le_bytes(),
        len.to_le_bytes(),
    );
    [
        s[0], s[1], s[2], s[3], f[0], f[1], f[2], f[3], l[0], l[1], l[2], l[3], l[0], l[1], l[2],
        l[3],
    ]
}

pub fn capture_of(rt: &impl Abort, alloc: Global, frames: &[Frame]) -> Vec<u8> {
    let mut bytes = joined(rt, alloc, &[&FILE_HEADER]);
    for frame in frames {
        let own = bytes_of(rt, alloc, frame);
        let len = (own.len() % 262145) as u32;
        put(rt, &mut bytes, &record_header(frame.seq, 5, len));
        put(rt, &mut bytes, &own);
    }
    bytes
}

// So many full segments of one flow, 200 at most, over this version of IP.
pub fn segments(rt: &impl Abort, alloc: Global, ip: u8, count: u16) -> Vec<u8> {
    let mut frames = Vec::new(alloc);
    for i in 0..count.min(200) {
        let frame = Frame {
            ip,
            id: 100 + i,
            seq: 1000 + 1448 * u32::from(i),
            ..SEGMENT
        };
        frames.push(frame).expect(rt, "no memory");
    }
    capture_of(rt, alloc, &frames)
}

// So many flows of one segment of one byte.
pub fn flows(rt: &impl Abort, alloc: Global, count: u16) -> Vec<u8> {
    let mut frames = Vec::new(alloc);
    for port in 0..count {
        let frame = Frame {
            port,
            payload: 1,
            ..PLAIN
        };
        frames.push(frame).expect(rt, "no memory");
    }
    capture_of(rt, alloc, &frames)
}
