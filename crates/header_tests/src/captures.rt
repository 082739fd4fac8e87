//! Headers at the limits, numbers at the end of their range, and headers that are written.
//!
//! The bytes come from a program that was written from the format alone.

ghost use Rattle.std.specs.Prelude.{◌≤◌, ◌^◌};

use crate::seeing::assert_same;
use off_io::{Feed, MemSink, MemSource};
use pcap_io::{
    AnyHead, CapFault, CapKind, CaptureReader, FRAME_LIMIT, FileHead, InFault, Link, OffHead,
    OffHead2, Order, capture_reads_back, capture_splits, file_head_reads_back, off_head_reads_back,
    off_head_writes_back, off_head2_reads_back, off_head2_writes_back, rec_head_reads_back,
    rec_head_writes_back, split_is_unique, write_file_head, write_rec_head,
};
use std::alloc::Global;
use std::process::Abort;
use worked_captures::TWO_RECORDS;

fn source(rt: &impl Abort, alloc: Global) -> Feed<MemSource> {
    let bytes = TWO_RECORDS.to_vec(alloc).expect(rt, "no memory");
    Feed {
        inner: MemSource::new(bytes, 5, Vec::new(alloc)),
    }
}

// What the first record's header says, and why the second one is refused, where the first one has this number.
fn read_two(rt: &impl Abort, alloc: Global, first: u64) -> (u32, u64, Result<Option<u64>, InFault>)
    requires few { first ≤ 2 ^ 32 }
{
    let mut feed = source(rt, alloc);
    let Ok(mut reader) = CaptureReader::start_numbered(&mut feed, Link::Ethernet, first) else {
        panic!(rt; "the file header is lawful");
    };
    let Ok(Some(head)) = reader.next_head() else {
        panic!(rt; "there is a record");
    };
    let mut body = vec![in alloc; 0u8; head.captured as usize].expect(rt, "no memory");
    reader.read_body(&mut body).expect(rt, "its body is there");
    let next = match reader.next_head() {
        Ok(Some(found)) => Ok(Some(found.offset)),
        Ok(None) => Ok(None),
        Err(fault) => Err(fault),
    };
    (head.number, head.offset, next)
}

#[test]
fn numbers_end(rt: HostRuntime) {
    let alloc = rt.alloc();
    let too_many = InFault::Cap(CapFault {
        kind: CapKind::TooMany,
        offset: 41,
        number: 4294967296,
    });
    assert_same(
        &rt,
        &[read_two(&rt, alloc, 0), read_two(&rt, alloc, 4294967295)],
        &[(0, 24, Ok(Some(41))), (4294967295, 24, Err(too_many))],
    );
}

// What is written of the headers.
static HEADERS: [u8; 40] = [
    0xa1, 0xb2, 0x3c, 0x4d, 0x00, 0x02, 0x00, 0x04, 0x00, 0x00, 0x00, 0x07, 0x00, 0x00, 0x00, 0x09,
    0x00, 0x04, 0x00, 0x10, 0x00, 0x00, 0x00, 0x93, 0x00, 0x00, 0x00, 0x01, 0x00, 0x00, 0x00, 0x02,
    0x00, 0x00, 0x00, 0x0f, 0x00, 0x00, 0x00, 0x11,
];

#[test]
fn headers_are_written(rt: HostRuntime) {
    let alloc = rt.alloc();
    let head = FileHead {
        order: Order::Big,
        nanos: true,
        zone: 7,
        sigfigs: 9,
    };
    let mut sink = MemSink::new(alloc, 5, Vec::new(alloc));
    let answers = [
        write_file_head(&mut sink, &head, Link::Offload),
        write_rec_head(&mut sink, &head, 1, 2, 15, 17),
    ];
    assert_same(
        &rt,
        &(answers, sink.bytes()),
        &([Ok(()); 2], HEADERS.as_slice()),
    );
}

/// The fields of an offload header of version 2: 70,000 packets of at most 131,072 bytes.
const FIELDS: OffHead2 = OffHead2 {
    version: 2,
    kind: 1,
    modes: 3,
    lane: 5,
    n: 70_000,
    m: 131_072,
    number: 66_051,
};

#[test]
fn offload_headers_of_both_versions(rt: HostRuntime) {
    let first = [1, 1, 0, 2, 0, 4, 3, 5, 0, 1, 2, 3];
    let head = OffHead::read(&first);
    let fields = OffHead2 {
        version: 1,
        n: 2,
        m: 4,
        ..FIELDS
    };
    let second = [2, 1, 3, 5, 0, 1, 0x11, 0x70, 0, 2, 0, 0, 0, 1, 2, 3];
    let read = [
        AnyHead::V1(head).fields(),
        OffHead2::read(&second),
        AnyHead::V2(FIELDS).fields(),
    ];
    assert_same(
        &rt,
        &(read, head.bytes(), FIELDS.bytes(), FRAME_LIMIT),
        &([fields, FIELDS, FIELDS], first, second, 262_144),
    );
}

/// Length and version of the header that a record begins with, and whether it says that version.
fn version_of(body: &[u8]) -> Option<(u32, u8, bool)> {
    let head = AnyHead::read(body)?;
    Some((head.size(), head.fields().version, head.says_version()))
}

/// Whether a header of this size, alone and with a byte behind it, is read as it begins, and one that is cut isn't.
fn is_read_as(version: u8, size: usize, says: bool) -> bool
    requires size { (1 ≤ size) × (size ≤ 16) }
{
    let mut body = [0u8; 17];
    body[0] = version;
    let want = Some((size as u32, version, says));
    version_of(&body) == want
        && version_of(&body[..size]) == want
        && version_of(&body[..size - 1]).is_none()
}

/// The first byte tells the version. All but 2 are read as version 1.
#[test]
fn versions_by_the_first_byte(rt: HostRuntime) {
    let read = [
        is_read_as(0, 12, false),
        is_read_as(1, 12, true),
        is_read_as(2, 16, true),
        is_read_as(3, 12, false),
    ];
    assert_same(&rt, &(read, version_of(&[])), &([true; 4], None));
}

#[test]
fn laws_are_called() {
    off_head_reads_back();
    off_head_writes_back();
    off_head2_reads_back();
    off_head2_writes_back();
    rec_head_reads_back();
    rec_head_writes_back();
    file_head_reads_back();
    capture_splits();
    split_is_unique();
    capture_reads_back();
}
