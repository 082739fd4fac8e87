//! A frame with a service tag and a customer tag, written by hand after IEEE 802.1Q.
use crate::seeing::assert_same;
use eth_vlan::{EthView, TagView, is_tag};

static FRAME: [u8; 22] = [
    0x02, 0x00, 0x00, 0x00, 0x00, 0x02, 0x02, 0x00, 0x00, 0x00, 0x00, 0x01, 0x88, 0xa8, 0x20, 0x05,
    0x81, 0x00, 0x00, 0x64, 0x08, 0x00,
];

/// Destination and source, and the type.
fn ethernet_fields() -> Option<([[u8; 6]; 2], u16)> {
    let header = EthView::read(&FRAME, 0)?;
    Some(([header.destination(), header.source()], header.ether_type()))
}

/// The tag at this place, and the type behind it.
fn tag_fields(at: usize) -> Option<[u16; 2]> {
    let tag = TagView::read(&FRAME, at)?;
    Some([tag.tci(), tag.next_type()])
}

#[test]
fn fields_of_a_tagged_frame(rt: HostRuntime) {
    let ends = [
        [0x02, 0x00, 0x00, 0x00, 0x00, 0x02],
        [0x02, 0x00, 0x00, 0x00, 0x00, 0x01],
    ];
    assert_same(
        &rt,
        &(ethernet_fields(), [tag_fields(14), tag_fields(18)]),
        &(
            Some((ends, 0x88a8)),
            [Some([0x2005, 0x8100]), Some([0x0064, 0x0800])],
        ),
    );
}

#[test]
fn headers_that_are_cut(rt: HostRuntime) {
    let there = [
        EthView::read(&FRAME[..13], 0).is_some(),
        EthView::read(&FRAME, 9).is_some(),
        EthView::read(&FRAME, 8).is_some(),
        TagView::read(&FRAME, 19).is_some(),
        TagView::read(&FRAME, usize::MAX).is_some(),
    ];
    let tags = [
        is_tag(0x8100),
        is_tag(0x88a8),
        is_tag(0x9100),
        is_tag(0x0800),
    ];
    assert_same(
        &rt,
        &(there, tags),
        &(
            [false, false, true, false, false],
            [true, true, false, false],
        ),
    );
}
