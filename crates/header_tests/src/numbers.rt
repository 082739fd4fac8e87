//! Values from RFC 1071 and from the pcap file format.
use crate::seeing::assert_same;
use net_bytes::{Order, be16, be32, be64, put_be16, put_be32};

#[test]
fn numbers_of_a_frame(rt: HostRuntime) {
    let mut frame = [0x00, 0x01, 0xf2, 0x03, 0xf4, 0xf5, 0xf6, 0xf7];
    let read = (be16(&frame, 2), be32(&frame, 3), be64(&frame, 0));
    put_be16(&mut frame, 1, 0xabcd);
    put_be32(&mut frame, 4, 0x01020304);
    assert_same(
        &rt,
        &(read, frame),
        &(
            (0xf203, 0x03f4f5f6, 0x0001f203f4f5f6f7),
            [0x00, 0xab, 0xcd, 0x03, 0x01, 0x02, 0x03, 0x04],
        ),
    );
}

/// The numbers 2 and a1b2c3d4 in this order.
fn written(order: Order) -> [u8; 6] {
    let mut header = [0xff; 6];
    order.put16(&mut header, 2);
    order.put32(&mut header[2..], 0xa1b2c3d4);
    header
}

#[test]
fn numbers_of_a_capture(rt: HostRuntime) {
    let magic = [0xd4, 0xc3, 0xb2, 0xa1];
    let (little, big) = (Order::Little, Order::Big);
    assert_same(
        &rt,
        &(
            [little.get32(&magic), big.get32(&magic)],
            [little.get16(&magic), big.get16(&magic)],
            [written(little), written(big)],
        ),
        &(
            [0xa1b2c3d4, 0xd4c3b2a1],
            [0xc3d4, 0xd4c3],
            [
                [0x02, 0x00, 0xd4, 0xc3, 0xb2, 0xa1],
                [0x00, 0x02, 0xa1, 0xb2, 0xc3, 0xd4],
            ],
        ),
    );
}
