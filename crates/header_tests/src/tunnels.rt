//! Headers written by hand after RFC 7348, section 5, RFC 2784, section 2, and RFC 2890, section 2.
use crate::seeing::assert_same;
use vxlan::{GreView, OLD_PORT, PORT, VxlanView, gre};

/// Flags and network of the VXLAN header at a place.
fn vxlan_fields(bytes: &[u8], at: usize) -> Option<(u8, u32)> {
    let header = VxlanView::read(bytes, at)?;
    Some((header.flags(), header.vni()))
}

#[test]
fn fields(rt: HostRuntime) {
    let bytes = [0xff, 0x08, 0x00, 0x00, 0x00, 0x12, 0x34, 0x56, 0x00];
    let read = [vxlan_fields(&bytes, 1), vxlan_fields(&bytes, 2)];
    assert_same(
        &rt,
        &(read, PORT, OLD_PORT, gre::PROTOCOL),
        &([Some((0x08, 0x123456)), None], 4789, 8472, 47),
    );
}

/// Length, what is carried, and the key of the GRE header at a place.
fn gre_fields(bytes: &[u8], at: usize) -> Option<(usize, u16, Option<u32>)> {
    let header = GreView::read(bytes, at)?;
    Some((header.len(), header.protocol(), header.key()))
}

/// The same of a header that begins so.
fn begun(first: u8, second: u8) -> Option<(usize, u16, Option<u32>)> {
    gre_fields(&[first, second, 8, 0, 0, 0, 0, 0, 0, 0, 0, 0], 0)
}

#[test]
fn fields_of_gre(rt: HostRuntime) {
    let bytes = [
        0xff, 0x20, 0x00, 0x86, 0xdd, 0x12, 0x34, 0x56, 0x78, 0x00, 0x00, 0x08, 0x00,
    ];
    let read = [
        gre_fields(&bytes, 1),
        gre_fields(&bytes, 9),
        gre_fields(&bytes[..8], 1),
        gre_fields(&bytes[..12], 9),
    ];
    let keyed = Some((8, 0x86dd, Some(0x12345678)));
    let others = [
        begun(0x80, 0x00),
        begun(0x10, 0x00),
        begun(0xa0, 0x00),
        begun(0x00, 0x01),
        begun(0x20, 0x01),
    ];
    assert_same(
        &rt,
        &(read, others),
        &([keyed, Some((4, 0x0800, None)), None, None], [None; 5]),
    );
}
