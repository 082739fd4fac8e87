//! The example of each first page, as it stands there, and what it comes to.
use eth_vlan::{EthView, TagView, is_tag};
use frame_layout::{candidate, key, queue_of, shape};
use header_fill::merge_headers;
use inet_sum::Partial;
use ip_headers::{Ip4View, set_id};
use net_bytes::{Order, be16, put_be16};
use off_io::{Feed, StdSink, StdSource, SureSource, read_full, write_all};
use offload_model::Limits;
use pcap_io::{CaptureReader, FRAME_LIMIT, Link};
use std::test::Fail;
use tap_filter::Program;
use tcp_headers::{TcpView, set_seq};
use vxlan::VxlanView;
use worked_captures::{FILE_HEADER, FIRST, MERGED, TWO_RECORDS};

#[test]
fn example_of_net_bytes(rt: HostRuntime) {
    let mut bytes = FIRST;
    let frame = bytes.as_mut_slice();
    let header = &TWO_RECORDS[24..];
    let total = be16(frame, 16);
    put_be16(frame, 16, total.wrapping_add(1));
    let seconds = Order::Little.get32(header);
    assert_eq!(rt; (total, bytes[17], seconds), (44, 45, 1));
}

#[test]
fn example_of_offload_model(rt: HostRuntime) {
    let limits = Limits::up_to(64);
    let bytes = limits.bytes; // 262144: as many as a frame of a capture may have
    assert_eq!(rt; (limits.segs, bytes), (64, 262_144));
}

#[test]
fn example_of_off_io(rt: HostRuntime) -> Result<(), Fail> {
    let mut room = [0; 4];
    let bytes = FILE_HEADER.as_slice();
    let mut source = StdSource::new(bytes); // or standard input
    let mut sink = StdSink::new(room.as_mut_slice()); // or standard output
    let mut magic = [0; 4];
    let count = read_full(&mut source, &mut magic)?;
    write_all(&mut sink, &magic[..count])?;
    assert_eq!(rt; count, 4);
    assert_eq!(rt; magic, [0xd4, 0xc3, 0xb2, 0xa1]);
    Ok(())
}

#[test]
fn example_of_inet_sum(rt: HostRuntime) {
    let mut sum = Partial::new();
    sum.add(&[0x00, 0x01, 0xf2]);
    sum.add(&[0x03, 0xf4, 0xf5, 0xf6, 0xf7]);
    let field = sum.checksum(); // 0x220d
    assert_eq!(rt; field, 0x220d);
}

#[test]
fn example_of_eth_vlan(rt: HostRuntime) {
    let frame = [
        2, 0, 0, 0, 0, 2, 2, 0, 0, 0, 0, 1, 0x81, 0x00, 0x20, 0x64, 0x08, 0x00,
    ]
    .as_slice();
    let mut vlan = None;
    if let Some(ethernet) = EthView::read(frame, 0)
        && is_tag(ethernet.ether_type())
        && let Some(tag) = TagView::read(frame, 14)
    {
        vlan = Some(tag.tci() & 0x0fff);
    }
    assert_eq!(rt; vlan, Some(100));
}

#[test]
fn example_of_ip_headers(rt: HostRuntime) {
    let frame = FIRST.as_slice();
    let mut bytes = FIRST;
    let copy = bytes.as_mut_slice();
    if let Some(header) = Ip4View::read(frame, 14) {
        let next = header.identification().wrapping_add(1);
        set_id(copy, 14, next);
    }
    assert_eq!(rt; be16(&bytes, 18), 101);
}

#[test]
fn example_of_tcp_headers(rt: HostRuntime) {
    let frame = FIRST.as_slice();
    let mut bytes = FIRST;
    let copy = bytes.as_mut_slice();
    if let Some(header) = TcpView::read(frame, 34) {
        let next = header.sequence().wrapping_add(1448);
        set_seq(copy, 34, next);
    }
    assert_eq!(rt; be16(&bytes, 40), 2448);
}

#[test]
fn example_of_vxlan(rt: HostRuntime) {
    let mut bytes = [0; 50];
    bytes[42] = 0x08;
    bytes[48] = 7;
    let frame = bytes.as_slice();
    let mut network = None;
    if let Some(tunnel) = VxlanView::read(frame, 42)
        && tunnel.flags() & 0x08 != 0
    {
        network = Some(tunnel.vni());
    }
    assert_eq!(rt; network, Some(7));
}

#[test]
fn example_of_frame_layout(rt: HostRuntime) {
    let frame = FIRST.as_slice();
    let queue = queue_of(&key(frame), 4);
    let len = frame.len() as u32;
    if let Some(segment) = candidate(frame, &Partial::new(), len, len) {
        let payload = &frame[segment.layout.payload_at()..];
    }
    assert_eq!(rt; queue, 0);
}

#[test]
fn example_of_pcap_io(rt: HostRuntime) -> Result<(), Fail> {
    let alloc = rt.alloc();
    let mut feed = Feed {
        inner: SureSource::new(TWO_RECORDS.to_vec(alloc)?),
    };
    let mut frame = vec![in alloc; 0u8; FRAME_LIMIT as usize]?;
    let mut reader = CaptureReader::start(&mut feed, Link::Ethernet)?;
    if let Some(head) = reader.next_head()? {
        reader.read_body(&mut frame[..head.captured as usize])?;
    }
    assert_eq!(rt; frame.first().copied(), Some(0xaa));
    Ok(())
}

#[test]
fn example_of_header_fill(rt: HostRuntime) -> Result<(), Fail> {
    let Some(layout) = shape(&FIRST) else {
        panic!(rt; "no shape");
    };
    let mut headers = FIRST[..layout.payload_at()].to_vec(rt.alloc())?;
    let mut first_payload = Partial::new();
    first_payload.add(&FIRST[layout.payload_at()..]);
    let mut second_payload = Partial::new();
    second_payload.add(b"ef");
    let last_flags = 0x18;
    let payload = first_payload.joined(second_payload);
    merge_headers(&mut headers, layout.headers(), last_flags, payload);
    assert_eq!(rt; headers.as_slice(), &MERGED[..54]);
    Ok(())
}

#[test]
fn example_of_tap_filter(rt: HostRuntime) -> Result<(), Fail> {
    let alloc = rt.alloc();
    let frame = FIRST.as_slice();
    let program = Program::of_text(alloc, "1,6 0 0 40")?;
    let shown = program.value(&frame); // 40
    assert_eq!(rt; shown, 40);
    Ok(())
}
