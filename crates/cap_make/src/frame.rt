//! The frame of a segment, pushed header by header before its payload.
ghost use Rattle.std.specs.Prelude.{◌≡◌, ◌+◌, ◌≤◌, ◌<◌, ◌^◌, ◌++◌, length};
ghost use Rattle.inet_sum.specs.Sum.{checksum_of};
ghost use Rattle.cap_make.specs.Frames.{tcp, ip4, tcp_ip4, tcp_ip6, plain, vxlan, tunnelled, frame_of};

use crate::headers::{
    PROTOCOL_TCP, PROTOCOL_UDP, TYPE_IP4, TYPE_IP6, TYPE_TAG, ethernet, ip4_ends, ip4_front,
    ip4_pseudo, ip6_ends, ip6_front, ip6_pseudo, tag, tcp_header, tunnel_ends, udp_header,
    vxlan_header,
};
use crate::record::RecordBytes;
use crate::segment::Segment;
use inet_sum::Partial;

// The sum of bytes in four pieces.
fn checksum(addresses: &[u8], pseudo: &[u8], header: &[u8], payload: &[u8]) -> u16
    requires addresses { length addresses.now ≤ 32 }
    requires pseudo { length pseudo.now ≤ 32 }
    requires header { length header.now ≤ 32 }
    requires payload { length payload.now ≤ 1320 }
    ensures sum { result ≡ checksum_of (addresses.now ++ (pseudo.now ++ (header.now ++ payload.now))) }
{
    let mut sum = Partial::new();
    sum.add(addresses);
    sum.add(pseudo);
    sum.add(header);
    sum.add(payload);
    sum.checksum()
}

#[tactic(auto, unfolding(crate::specs::Frames::tcp))]
fn push_tcp(buffer: &mut RecordBytes, segment: &Segment, addresses: &[u8], pseudo: &[u8])
    requires addresses { length addresses.now ≤ 32 }
    requires pseudo { length pseudo.now ≤ 32 }
    requires room { length buffer.old ≤ 1300 }
    ensures bytes { buffer.new ≡ tcp addresses.now pseudo.now segment.now buffer.old }
    ensures len { length buffer.new ≡ 20 + length buffer.old }
{
    let unsummed = tcp_header(segment, 0);
    let sum = checksum(addresses, pseudo, &unsummed, buffer.bytes());
    buffer.push(&tcp_header(segment, sum));
}

#[tactic(auto, unfolding(crate::specs::Frames::ip4))]
fn push_ip4(buffer: &mut RecordBytes, identification: u16, protocol: u8, addresses: &[u8; 8])
    requires room { length buffer.old ≤ 1300 }
    ensures bytes { buffer.new ≡ ip4 addresses.now identification protocol buffer.old }
    ensures len { length buffer.new ≡ 20 + length buffer.old }
{
    let len = 20 + buffer.bytes().len() as u16;
    let unsummed = ip4_front(len, identification, protocol, 0);
    let sum = checksum(&unsummed, addresses, &[], &[]);
    buffer.push(addresses);
    buffer.push(&ip4_front(len, identification, protocol, sum));
}

#[tactic(auto, unfolding(crate::specs::Frames::tcp_ip4))]
fn push_tcp_ip4(buffer: &mut RecordBytes, segment: &Segment)
    requires room { length buffer.old ≤ 1200 }
    ensures bytes { buffer.new ≡ tcp_ip4 segment.now buffer.old }
    ensures len { length buffer.new ≡ 40 + length buffer.old }
{
    let addresses = ip4_ends(segment.flow);
    let len = 20 + buffer.bytes().len() as u16;
    push_tcp(buffer, segment, &addresses, &ip4_pseudo(len));
    push_ip4(buffer, segment.identification, PROTOCOL_TCP, &addresses);
}

#[tactic(auto, unfolding(crate::specs::Frames::tcp_ip6))]
fn push_tcp_ip6(buffer: &mut RecordBytes, segment: &Segment)
    requires room { length buffer.old ≤ 1200 }
    ensures bytes { buffer.new ≡ tcp_ip6 segment.now buffer.old }
    ensures len { length buffer.new ≡ 60 + length buffer.old }
{
    let addresses = ip6_ends(segment.flow);
    let len = 20 + buffer.bytes().len() as u16;
    push_tcp(buffer, segment, &addresses, &ip6_pseudo(len));
    buffer.push(&addresses);
    buffer.push(&ip6_front(len));
}

#[tactic(auto, unfolding(crate::specs::Frames::plain))]
fn push_plain(buffer: &mut RecordBytes, segment: &Segment)
    requires room { length buffer.old ≤ 1200 }
    ensures bytes { buffer.new ≡ plain segment.now buffer.old }
    ensures len { length buffer.new ≡ 54 + length buffer.old }
{
    push_tcp_ip4(buffer, segment);
    buffer.push(&ethernet(segment.flow, TYPE_IP4));
}

#[tactic(auto, unfolding(crate::specs::Frames::vxlan))]
fn push_vxlan(buffer: &mut RecordBytes, flow: u8)
    requires room { length buffer.old ≤ 1254 }
    ensures bytes { buffer.new ≡ vxlan flow buffer.old }
    ensures len { length buffer.new ≡ 16 + length buffer.old }
{
    let len = 16 + buffer.bytes().len() as u16;
    buffer.push(&vxlan_header(flow));
    buffer.push(&udp_header(flow, len));
}

// Pushes the headers of a tunnel before a frame.
#[tactic(auto, unfolding(crate::specs::Frames::tunnelled))]
fn push_tunnel(buffer: &mut RecordBytes, segment: &Segment)
    requires room { length buffer.old ≤ 1254 }
    ensures bytes { buffer.new ≡ tunnelled segment.now buffer.old }
    ensures len { length buffer.new ≡ 50 + length buffer.old }
{
    let flow = segment.flow;
    push_vxlan(buffer, flow);
    push_ip4(
        buffer,
        segment.identification,
        PROTOCOL_UDP,
        &tunnel_ends(flow),
    );
    buffer.push(&ethernet(flow, TYPE_IP4));
}

/// Makes the payload in `buffer` the whole frame of a segment. The kind of the frame follows from the flow.
#[tactic(auto, unfolding(crate::specs::Frames::frame_of))]
pub fn push_frame(buffer: &mut RecordBytes, segment: &Segment)
    requires room { length buffer.old ≤ 1200 }
    ensures bytes { buffer.new ≡ frame_of segment.now buffer.old }
    ensures len { length buffer.new ≤ 104 + length buffer.old }
{
    let flow = segment.flow;
    match flow % 4 {
        0 => push_plain(buffer, segment),
        1 => {
            push_tcp_ip4(buffer, segment);
            buffer.push(&tag(flow, TYPE_IP4));
            buffer.push(&ethernet(flow, TYPE_TAG));
        }
        2 => {
            push_tcp_ip6(buffer, segment);
            buffer.push(&ethernet(flow, TYPE_IP6));
        }
        _ => {
            push_plain(buffer, segment);
            push_tunnel(buffer, segment);
        }
    }
}
