//! Frames, sums and keys that a separate program computed from the RFCs.
ghost use Rattle.std.specs.Prelude.{◌≡◌, ◌<◌, ◌^◌, length};

use crate::seeing::assert_same;
use frame_layout::{Key, candidate, candidate_in, ip6_length, key, queue_of, shape};
use inet_sum::Partial;
use std::alloc::Global;
use std::process::Abort;
use worked_captures::{FIRST, SECOND};

/// The same without payload.
const EMPTY: [u8; 54] = [
    0x02, 0x00, 0x00, 0x00, 0x00, 0x02, 0x02, 0x00, 0x00, 0x00, 0x00, 0x01, 0x08, 0x00, 0x45, 0x00,
    0x00, 0x28, 0x00, 0x64, 0x40, 0x00, 0x40, 0x06, 0x26, 0x6a, 0x0a, 0x00, 0x00, 0x01, 0x0a, 0x00,
    0x00, 0x02, 0x9c, 0x40, 0x13, 0x89, 0x00, 0x00, 0x03, 0xe8, 0x00, 0x00, 0x00, 0x01, 0x50, 0x10,
    0x01, 0x00, 0xe7, 0x1f, 0x00, 0x00,
];

/// Two tags, IPv6, VXLAN, two tags, IPv6, TCP with 40 bytes of options, and three bytes: 200 bytes of headers.
pub const TUNNEL: [u8; 203] = [
    0x02, 0x00, 0x00, 0x00, 0x00, 0x02, 0x02, 0x00, 0x00, 0x00, 0x00, 0x01, 0x88, 0xa8, 0x00, 0x05,
    0x81, 0x00, 0x00, 0x06, 0x86, 0xdd, 0x60, 0x00, 0x00, 0x00, 0x00, 0x8d, 0x11, 0x40, 0x20, 0x01,
    0x0d, 0xb8, 0x00, 0x00, 0x00, 0x00, 0x00, 0x00, 0x00, 0x00, 0x00, 0x00, 0x00, 0x01, 0x20, 0x01,
    0x0d, 0xb8, 0x00, 0x00, 0x00, 0x00, 0x00, 0x00, 0x00, 0x00, 0x00, 0x00, 0x01, 0x02, 0xc3, 0x50,
    0x12, 0xb5, 0x00, 0x8d, 0x9c, 0x62, 0x08, 0x00, 0x00, 0x00, 0x00, 0x12, 0x34, 0x00, 0x02, 0x00,
    0x00, 0x00, 0x00, 0x02, 0x02, 0x00, 0x00, 0x00, 0x00, 0x01, 0x81, 0x00, 0x00, 0x64, 0x81, 0x00,
    0x00, 0x65, 0x86, 0xdd, 0x60, 0x00, 0x00, 0x00, 0x00, 0x3f, 0x06, 0x40, 0x20, 0x01, 0x0d, 0xb8,
    0x00, 0x00, 0x00, 0x00, 0x00, 0x00, 0x00, 0x00, 0x00, 0x00, 0x00, 0x01, 0x20, 0x01, 0x0d, 0xb8,
    0x00, 0x00, 0x00, 0x00, 0x00, 0x00, 0x00, 0x00, 0x00, 0x00, 0x01, 0x02, 0x9c, 0x41, 0x13, 0x89,
    0xff, 0xff, 0xff, 0xfe, 0x00, 0x00, 0x00, 0x07, 0xf0, 0x19, 0x01, 0x00, 0xfb, 0xcc, 0x00, 0x00,
    0x01, 0x01, 0x01, 0x01, 0x01, 0x01, 0x01, 0x01, 0x01, 0x01, 0x01, 0x01, 0x01, 0x01, 0x01, 0x01,
    0x01, 0x01, 0x01, 0x01, 0x01, 0x01, 0x01, 0x01, 0x01, 0x01, 0x01, 0x01, 0x01, 0x01, 0x01, 0x01,
    0x01, 0x01, 0x01, 0x01, 0x01, 0x01, 0x01, 0x01, 0x78, 0x79, 0x7a,
];

/// IPv4 without DF, UDP without a sum, VXLAN, a tag, IPv4, TCP with FIN, and five bytes.
const UNSUMMED: [u8; 113] = [
    0x02, 0x00, 0x00, 0x00, 0x00, 0x02, 0x02, 0x00, 0x00, 0x00, 0x00, 0x01, 0x08, 0x00, 0x45, 0x00,
    0x00, 0x63, 0xff, 0xff, 0x00, 0x00, 0x40, 0x11, 0x66, 0x88, 0x0a, 0x00, 0x00, 0x01, 0x0a, 0x00,
    0x00, 0x02, 0xc3, 0x50, 0x12, 0xb5, 0x00, 0x4f, 0x00, 0x00, 0x08, 0x00, 0x00, 0x00, 0x00, 0x12,
    0x34, 0x00, 0x02, 0x00, 0x00, 0x00, 0x00, 0x02, 0x02, 0x00, 0x00, 0x00, 0x00, 0x01, 0x81, 0x00,
    0x00, 0x07, 0x08, 0x00, 0x45, 0x00, 0x00, 0x2d, 0x01, 0x2c, 0x40, 0x00, 0x40, 0x06, 0x25, 0x9d,
    0x0a, 0x00, 0x00, 0x01, 0x0a, 0x00, 0x00, 0x02, 0x9c, 0x40, 0x13, 0x89, 0x00, 0x00, 0x00, 0x4d,
    0x00, 0x00, 0x00, 0x01, 0x50, 0x11, 0x01, 0x00, 0xa6, 0xe2, 0x00, 0x00, 0x68, 0x65, 0x6c, 0x6c,
    0x6f,
];

/// The key of FIRST and SECOND; its bytes add to 416.
const FLOW: [u8; 26] = [
    0x02, 0x00, 0x00, 0x00, 0x00, 0x02, 0x02, 0x00, 0x00, 0x00, 0x00, 0x01, 0x04, 0x0a, 0x00, 0x00,
    0x01, 0x0a, 0x00, 0x00, 0x02, 0x06, 0x9c, 0x40, 0x13, 0x89,
];

/// The key of TUNNEL.
const TUNNEL_FLOW: [u8; 119] = [
    0x02, 0x00, 0x00, 0x00, 0x00, 0x02, 0x02, 0x00, 0x00, 0x00, 0x00, 0x01, 0x88, 0xa8, 0x00, 0x05,
    0x81, 0x00, 0x00, 0x06, 0x06, 0x20, 0x01, 0x0d, 0xb8, 0x00, 0x00, 0x00, 0x00, 0x00, 0x00, 0x00,
    0x00, 0x00, 0x00, 0x00, 0x01, 0x20, 0x01, 0x0d, 0xb8, 0x00, 0x00, 0x00, 0x00, 0x00, 0x00, 0x00,
    0x00, 0x00, 0x00, 0x01, 0x02, 0x11, 0xc3, 0x50, 0x12, 0xb5, 0x00, 0x12, 0x34, 0x02, 0x00, 0x00,
    0x00, 0x00, 0x02, 0x02, 0x00, 0x00, 0x00, 0x00, 0x01, 0x81, 0x00, 0x00, 0x64, 0x81, 0x00, 0x00,
    0x65, 0x06, 0x20, 0x01, 0x0d, 0xb8, 0x00, 0x00, 0x00, 0x00, 0x00, 0x00, 0x00, 0x00, 0x00, 0x00,
    0x00, 0x01, 0x20, 0x01, 0x0d, 0xb8, 0x00, 0x00, 0x00, 0x00, 0x00, 0x00, 0x00, 0x00, 0x00, 0x00,
    0x01, 0x02, 0x06, 0x9c, 0x41, 0x13, 0x89,
];

/// Changes these bytes.
pub fn change(frame: &mut [u8], edits: &[(usize, u8)])
    ensures len { length frame.new ≡ length frame.old }
{
    for (at, byte) in edits {
        if let Some(place) = frame.get_mut(*at) {
            *place = *byte;
        }
    }
}

/// A frame with these bytes changed.
pub fn with<const N: usize>(mut frame: [u8; N], edits: &[(usize, u8)]) -> [u8; N] {
    change(&mut frame, edits);
    frame
}

/// Whether the frame has a shape of so many headers, with the payload at this place; none where there are 0.
pub fn has_shape(frame: &[u8], headers: usize, payload_at: usize) -> bool {
    match shape(frame) {
        Some(layout) => layout.headers().len() == headers && layout.payload_at() == payload_at,
        None => headers == 0,
    }
}

/// Whether the frame has this key.
pub fn has_flow(frame: &[u8], flow: &[u8]) -> bool {
    key(frame).bytes() == Some(flow)
}

/// Whether the frame has neither a shape nor a flow.
pub fn is_of_none(frame: &[u8]) -> bool {
    shape(frame).is_none() && key(frame).bytes().is_none()
}

/// Whether the frame is a candidate, where all of it was captured.
pub fn is_candidate(frame: &[u8]) -> bool
    requires few { length frame.now < 2 ^ 29 }
{
    let len = frame.len() as u32;
    candidate(frame, &Partial::new(), len, len).is_some()
}

/// The queue of two.
fn queue(frame: &[u8]) -> u32 {
    queue_of(&key(frame), 2)
}

#[test]
fn a_worked_segment(rt: HostRuntime) {
    let are_so = [
        has_shape(&FIRST, 3, 54),
        has_flow(&FIRST, &FLOW),
        has_flow(&SECOND, &FLOW),
        is_candidate(&FIRST),
        is_candidate(&SECOND),
    ];
    let other = with(FIRST, &[(35, 0x41)]);
    let queues = [queue(&FIRST), queue(&SECOND), queue(&other)];
    assert_same(&rt, &(are_so, queues), &([true; 5], [0, 0, 1]));
}

#[test]
fn keys_that_are_alike(rt: HostRuntime) {
    let flow = key(&FIRST);
    let others = [key(&SECOND), key(&with(FIRST, &[(35, 0x41)])), Key::other()];
    let are_alike = [
        flow == others[0],
        flow == others[1],
        flow == others[2],
        others[2] == Key::other(),
    ];
    assert_same(&rt, &are_alike, &[true, false, false, true]);
}

#[test]
fn queues_of_keys(rt: HostRuntime) {
    let queues = [
        queue_of(&Key::of_bytes(&[1, 2, 3]), 5),
        queue_of(&Key::of_bytes(&[1, 0, 0, 0, 0, 0, 0, 0]), 5),
        queue_of(&Key::other(), 5),
        queue_of(&key(&TUNNEL), 64),
    ];
    assert_same(
        &rt,
        &(queues, has_flow(&TUNNEL, &TUNNEL_FLOW)),
        &([1, 0, 0, 63], true),
    );
}

/// How many bytes of the tunnel have a shape, at least.
fn least_with_shape() -> usize {
    for n in 0..203 {
        if shape(&TUNNEL[..n]).is_some() {
            return n;
        }
    }
    203
}

#[test]
fn a_tunnel_in_two_pieces(rt: HostRuntime) {
    let mut rest = Partial::new();
    rest.add(&TUNNEL[200..]);
    let Some(segment) = candidate(&TUNNEL[..200], &rest, 203, 203) else {
        panic!(rt; "no candidate");
    };
    let layout = &segment.layout;
    let seen = (layout.headers().len(), layout.payload_at());
    assert_same(
        &rt,
        &(seen, segment.payload_len, segment.flags, least_with_shape()),
        &((11, 200), 3, 0x19, 200),
    );
}

#[test]
fn a_layout_that_is_known(rt: HostRuntime) {
    let head = &TUNNEL[..200];
    let mut payload = Partial::new();
    payload.add(&TUNNEL[200..]);
    let Some(layout) = shape(head) else {
        panic!(rt; "no shape");
    };
    if layout.payload_at() != 200 {
        panic!(rt; "another payload");
    }
    assert!(rt; candidate_in(layout, head, &payload, 203).is_some());
}

/// How many headers the frame has as a candidate that was so long.
fn headers_of(original: u32) -> Option<usize> {
    match candidate(&UNSUMMED, &Partial::new(), 113, original) {
        Some(segment) => Some(segment.layout.headers().len()),
        None => None,
    }
}

#[test]
fn a_tunnel_without_a_sum(rt: HostRuntime) {
    let counts = [headers_of(113), headers_of(112), headers_of(114)];
    let with_sum = is_candidate(&with(UNSUMMED, &[(41, 1)]));
    assert_same(&rt, &(counts, with_sum), &([Some(8), None, None], false));
}

type Row<'a, const N: usize> = (&'a str, [(usize, u8); N]);

static NO_CANDIDATES: [Row<4>; 14] = [
    (
        "the reserved bit of IPv4",
        [(20, 0xc0), (24, 0xa6), (25, 0x65), (57, 0x64)],
    ),
    (
        "a reserved bit of TCP",
        [(46, 0x51), (50, 0x21), (57, 0x64), (57, 0x64)],
    ),
    ("SYN", [(47, 0x12), (51, 0x53), (57, 0x64), (57, 0x64)]),
    ("RST", [(47, 0x14), (51, 0x51), (57, 0x64), (57, 0x64)]),
    ("URG", [(47, 0x30), (51, 0x35), (57, 0x64), (57, 0x64)]),
    ("ECE", [(47, 0x50), (51, 0x15), (57, 0x64), (57, 0x64)]),
    ("CWR", [(47, 0x90), (50, 0x21), (51, 0xd5), (57, 0x64)]),
    ("no ACK", [(47, 0x08), (51, 0x5d), (57, 0x64), (57, 0x64)]),
    (
        "the sum of IPv4",
        [(25, 0x67), (57, 0x64), (57, 0x64), (57, 0x64)],
    ),
    (
        "the sum of TCP",
        [(51, 0x54), (57, 0x64), (57, 0x64), (57, 0x64)],
    ),
    (
        "a byte of the payload",
        [(57, 0x65), (57, 0x65), (57, 0x65), (57, 0x65)],
    ),
    ("padding", [(17, 0x2a), (25, 0x68), (50, 0x85), (51, 0xbb)]),
    (
        "a length beyond the end",
        [(17, 0x2e), (25, 0x64), (57, 0x64), (57, 0x64)],
    ),
    (
        "a sum of ffff where 0 is the value",
        [(50, 0xff), (51, 0xff), (56, 0x85), (57, 0xb9)],
    ),
];

static CANDIDATES: [Row<4>; 4] = [
    ("PSH", [(47, 0x18), (51, 0x4d), (57, 0x64), (57, 0x64)]),
    ("FIN", [(47, 0x11), (51, 0x54), (57, 0x64), (57, 0x64)]),
    (
        "PSH and FIN",
        [(47, 0x19), (51, 0x4c), (57, 0x64), (57, 0x64)],
    ),
    (
        "a sum of 0",
        [(50, 0x00), (51, 0x00), (56, 0x85), (57, 0xb9)],
    ),
];

/// The first row whose frame has no shape, or is a candidate where it should be none, or none where it should.
fn first_other<'a>(rows: &[Row<'a, 4>], candidates: bool) -> &'a str {
    for (what, edits) in rows {
        let frame = with(FIRST, edits);
        if shape(&frame).is_none() || is_candidate(&frame) != candidates {
            return what;
        }
    }
    "none"
}

#[test]
fn segments_that_are_no_candidates(rt: HostRuntime) {
    let (taken, refused) = (
        first_other(&NO_CANDIDATES, false),
        first_other(&CANDIDATES, true),
    );
    let of_empty = [shape(&EMPTY).is_some(), is_candidate(&EMPTY)];
    assert_same(
        &rt,
        &(taken, refused, of_empty),
        &("none", "none", [true, false]),
    );
}

static NO_SHAPES: [Row<1>; 8] = [
    ("options", [(14, 0x46)]),
    ("more fragments", [(20, 0x60)]),
    ("an offset", [(21, 0x01)]),
    ("ICMP", [(23, 1)]),
    ("GRE with a sum, a key and more", [(23, 47)]),
    ("ARP", [(13, 0x06)]),
    ("a short data offset", [(46, 0x40)]),
    ("a data offset beyond the end", [(46, 0x70)]),
];

static NO_TUNNELS: [Row<3>; 6] = [
    ("a third tag", [(20, 0x81), (21, 0x00), (21, 0x00)]),
    ("a third inner tag", [(98, 0x81), (99, 0x00), (99, 0x00)]),
    ("an extension header", [(28, 0), (28, 0), (28, 0)]),
    ("port 8472", [(64, 0x21), (65, 0x18), (65, 0x18)]),
    (
        "no network identifier",
        [(70, 0x00), (70, 0x00), (70, 0x00)],
    ),
    ("VXLAN in VXLAN", [(106, 17), (142, 0x12), (143, 0xb5)]),
];

/// The first row by which the frame keeps a shape or a flow.
pub fn first_with_shape<'a, const N: usize, const M: usize>(
    frame: [u8; N],
    rows: &[Row<'a, M>],
) -> &'a str {
    for (what, edits) in rows {
        if !is_of_none(&with(frame, edits)) {
            return what;
        }
    }
    "none"
}

#[test]
fn frames_that_have_no_shape(rt: HostRuntime) {
    let plain = first_with_shape(FIRST, &NO_SHAPES);
    let tunnelled = first_with_shape(TUNNEL, &NO_TUNNELS);
    assert_same(&rt, &(plain, tunnelled), &("none", "none"));
}

/// Ethernet, IPv6 and TCP, before 65,515 bytes of zeros.
const LONG: [u8; 74] = [
    0x02, 0x00, 0x00, 0x00, 0x00, 0x02, 0x02, 0x00, 0x00, 0x00, 0x00, 0x01, 0x86, 0xdd, 0x60, 0x00,
    0x00, 0x00, 0xff, 0xff, 0x06, 0x40, 0x20, 0x01, 0x0d, 0xb8, 0x00, 0x00, 0x00, 0x00, 0x00, 0x00,
    0x00, 0x00, 0x00, 0x00, 0x00, 0x01, 0x20, 0x01, 0x0d, 0xb8, 0x00, 0x00, 0x00, 0x00, 0x00, 0x00,
    0x00, 0x00, 0x00, 0x00, 0x00, 0x02, 0x9c, 0x40, 0x13, 0x89, 0x00, 0x00, 0x03, 0xe8, 0x00, 0x00,
    0x00, 0x01, 0x50, 0x10, 0x01, 0x00, 0x9f, 0xc1, 0x00, 0x00,
];

/// The first 200 bytes of such a frame, with this payload length and this sum.
fn long_head(field: [u8; 2], sum: [u8; 2]) -> [u8; 200] {
    let mut head = [0u8; 200];
    head[..74].copy_from_slice(&LONG);
    head[18..20].copy_from_slice(&field);
    head[70..72].copy_from_slice(&sum);
    head
}

/// The sum of so many zeros.
fn zeros(rt: &impl Abort, alloc: Global, count: usize) -> Partial
    requires few { count < 2 ^ 20 }
    ensures few { result.len < 2 ^ 20 }
{
    let bytes = vec![in alloc; 0u8; count].expect(rt, "no memory");
    let mut sum = Partial::new();
    sum.add(&bytes);
    sum
}

/// Whether a frame of these headers and so many zeros, 126 or more, with this length and this sum, is a candidate.
fn is_long_candidate(
    rt: &impl Abort,
    alloc: Global,
    size: usize,
    field: [u8; 2],
    sum: [u8; 2],
) -> bool
    requires few { size < 2 ^ 20 }
{
    let head = long_head(field, sum);
    let rest = zeros(rt, alloc, size.saturating_sub(126));
    let len = 200 + rest.len();
    candidate(&head, &rest, len, len).is_some()
}

/// From 65,536 on the payload length is 0, and the sum takes in all 32 bits of it (RFC 8200, sections 3 and 8.1).
#[test]
fn lengths_over_ip6(rt: HostRuntime) {
    let alloc = rt.alloc();
    let (short, long) = ([0x9f, 0xc1], [0x9f, 0xc0]);
    let are_candidates = [
        is_long_candidate(&rt, alloc, 65_515, [0xff, 0xff], short),
        is_long_candidate(&rt, alloc, 65_515, [0x00, 0x00], short),
        is_long_candidate(&rt, alloc, 65_516, [0x00, 0x00], long),
        is_long_candidate(&rt, alloc, 65_516, [0xff, 0xff], long),
        is_long_candidate(&rt, alloc, 65_516, [0x00, 0x00], short),
    ];
    let lengths = [ip6_length(65_535), ip6_length(65_536), ip6_length(262_104)];
    assert_same(
        &rt,
        &(are_candidates, lengths),
        &([true, false, true, false, false], [65_535, 0, 0]),
    );
}
