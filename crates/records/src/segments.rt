//! Writes the segments of a merged frame, from where they lie.
ghost use Rattle.std.specs.Prelude.{◌≡◌, ◌+◌, ◌<◌, ◌≤◌, ◌++◌, OnOk, OnErr};
ghost use Rattle.std.specs.Prelude.{drop, length, take};
ghost use Rattle.std.specs.List.{flat_map, range_with_len};
ghost use Rattle.std.specs.Io.KnownBytes.{Appends};
ghost use Rattle.off_io.specs.Faults.{HasCause};
ghost use Rattle.off_io.specs.Content.{AppendsPrefix};
ghost use Rattle.skb.specs.SkbState.{buffer_bytes};
ghost use Rattle.segment_rule.specs.Segmentations.{segment_at};
ghost use Rattle.gso.specs.Places.{IsPayloadPlace, IsPlace, bytes_at, own_at};
ghost use Rattle.records.specs.Records.{segment_bytes, Writes};

use crate::Time;
use gso::{Place, Segments};
use off_io::{Sink, WriteFault, write_all};
use pcap_io::{FileHead, record_header};
use skb::FRONT;

// The length of a record's header.
const REC_HEAD: usize = 16;

// Writes the next `n` bytes of a frame, slice by slice.
fn write_next<K: Sink>(
    sink: &mut K,
    segments: &Segments<'_>,
    place: &mut Place,
    n: usize,
) -> Result<(), WriteFault>
    requires place { IsPlace segments.now.skb place.old }
    requires there { n ≤ place.old.left }
    ensures writes { Writes (K.held sink.old) (K.held sink.new) (K.faults sink.old) (K.faults sink.new)
        (take n (bytes_at segments.now.skb place.old)) result }
    ensures behind { OnOk result (IsPlace segments.now.skb place.new
        × (bytes_at segments.now.skb place.new ≡ drop n (bytes_at segments.now.skb place.old))) }
{
    let mut left = n;
    while left > 0 {
        let bytes = segments.read(place, left);
        write_all(sink, bytes)?;
        left -= bytes.len();
    }
    Ok(())
}

// Puts both headers of a record together whose frame is a segment: the record's own, and the frame's.
fn put_row(row: &mut [u8], header: &[u8; REC_HEAD], segments: &Segments<'_>, i: u32, place: Place)
    requires long { length header.now ≡ 16 }
    requires there { i < segments.now.cut.n }
    requires at { IsPayloadPlace segments.now i place }
    requires size { length row.old ≡ 16 + segments.now.cut.layout.payload_at }
    ensures row { row.new ++ own_at segments.now place ≡ header.now
        ++ segment_at segments.now.cut (buffer_bytes segments.now.skb) i }
    ensures size { length row.new ≡ 16 + segments.now.cut.layout.payload_at }
{
    let (front, headers) = row.split_at_mut(REC_HEAD);
    front.copy_from_slice(header);
    segments.put_headers(headers, i, place);
}

// Writes segment `i` as a record, whose payload begins at the place, which is behind it then. The headers are put
// together in `row`, and written by one call.
fn write_segment<K: Sink>(
    sink: &mut K,
    file: &FileHead,
    time: Time,
    segments: &Segments<'_>,
    i: u32,
    place: &mut Place,
    row: &mut [u8],
) -> Result<(), WriteFault>
    requires there { i < segments.now.cut.n }
    requires at { IsPayloadPlace segments.now i place.old }
    requires size { length row.old ≡ 16 + segments.now.cut.layout.payload_at }
    ensures writes { Writes (K.held sink.old) (K.held sink.new) (K.faults sink.old) (K.faults sink.new)
        (segment_bytes file.now.order time segments.now i) result }
    ensures next { OnOk result (IsPayloadPlace segments.now (i + 1) place.new) }
    ensures size { length row.new ≡ 16 + segments.now.cut.layout.payload_at }
{
    let n = segments.payload_len(*place);
    let len = (segments.headers_len() + n) as u32;
    let header = record_header(file.order, time.sec, time.frac, len, len);
    put_row(row, &header, segments, i, *place);
    write_all(sink, row)?;
    write_next(sink, segments, place, n)
}

/// Writes the segments of a merged frame, each as a record: the headers of each are put together, and the payload is
/// written from the frame's own buffer, slice by slice. It takes no memory.
///
/// `WriteFault` only where the sink's count of faults rose; a prefix of the records was then written.
pub fn write_segments<K: Sink>(
    sink: &mut K,
    file: &FileHead,
    time: Time,
    segments: &Segments<'_>,
) -> Result<(), WriteFault>
    ensures ok { OnOk result (Appends (K.held sink.old) (K.held sink.new)
        (flat_map (segment_bytes file.now.order time segments.now) (range_with_len 0 segments.now.cut.n))) }
    ensures err { OnErr result (AppendsPrefix (K.held sink.old) (K.held sink.new)
        (flat_map (segment_bytes file.now.order time segments.now) (range_with_len 0 segments.now.cut.n))) }
    ensures cause { HasCause (K.faults sink.old) (K.faults sink.new) result }
{
    let mut row = [0u8; REC_HEAD + FRONT];
    let row = &mut row[..REC_HEAD + segments.headers_len()];
    let mut place = segments.first();
    for i in 0..segments.count() {
        write_segment(sink, file, time, segments, i, &mut place, row)?;
    }
    Ok(())
}
