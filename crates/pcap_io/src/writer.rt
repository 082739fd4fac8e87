//! Writes the headers of a capture.
ghost use Rattle.std.specs.Prelude.{◌≡◌, OnOk, OnErr};
ghost use Rattle.std.specs.Io.KnownBytes.{Appends};
ghost use Rattle.off_io.specs.Faults.{HasCause};
ghost use Rattle.off_io.specs.Content.{AppendsPrefix};
ghost use Rattle.pcap_io.specs.Written.{magic_of, file_bytes, rec_bytes};

use crate::heads::{MICROS, NANOS};
use crate::{FileHead, Link};
use net_bytes::Order;
use off_io::{Sink, WriteFault, write_all};

/// A record's header in 16 bytes, for who writes it in one call with what follows.
pub fn record_header(order: Order, sec: u32, frac: u32, captured: u32, original: u32) -> [u8; 16]
    ensures bytes { result ≡ rec_bytes order sec frac captured original }
{
    // Back to front, so that each call's clause is the concatenation so far.
    let mut out = [0u8; 16];
    order.put32(&mut out[12..], original);
    order.put32(&mut out[8..], captured);
    order.put32(&mut out[4..], frac);
    order.put32(&mut out, sec);
    out
}

fn file_header(head: &FileHead, link: Link) -> [u8; 24]
    ensures bytes { result ≡ file_bytes head.now link }
{
    let order = head.order;
    let mut out = [0u8; 24];
    order.put32(&mut out[20..], link.number());
    order.put32(&mut out[16..], link.captured_limit());
    order.put32(&mut out[12..], head.sigfigs);
    order.put32(&mut out[8..], head.zone);
    order.put16(&mut out[6..], 4);
    order.put16(&mut out[4..], 2);
    order.put32(&mut out, head.magic());
    out
}

impl FileHead {
    fn magic(&self) -> u32
        ensures value { result ≡ magic_of self.now.nanos }
    {
        if self.nanos { NANOS } else { MICROS }
    }
}

/// Writes the file header of a capture, version 2.4, with this link type and its greatest captured length as snaplen.
///
/// `WriteFault` only where the sink's count of faults rose; a prefix of the 24 bytes was then written.
pub fn write_file_head<K: Sink>(sink: &mut K, head: &FileHead, link: Link) -> Result<(), WriteFault>
    ensures ok { OnOk result (Appends (K.held sink.old) (K.held sink.new)
        (file_bytes head.now link)) }
    ensures err { OnErr result (AppendsPrefix (K.held sink.old) (K.held sink.new)
        (file_bytes head.now link)) }
    ensures cause { HasCause (K.faults sink.old) (K.faults sink.new) result }
{
    write_all(sink, &file_header(head, link))
}

/// Writes a record's header: seconds, fraction, captured and original length in bytes, in the order of the file.
///
/// `WriteFault` only where the sink's count of faults rose; a prefix of the 16 bytes was then written.
pub fn write_rec_head<K: Sink>(
    sink: &mut K,
    head: &FileHead,
    sec: u32,
    frac: u32,
    captured: u32,
    original: u32,
) -> Result<(), WriteFault>
    ensures ok { OnOk result (Appends (K.held sink.old) (K.held sink.new)
        (rec_bytes head.now.order sec frac captured original)) }
    ensures err { OnErr result (AppendsPrefix (K.held sink.old) (K.held sink.new)
        (rec_bytes head.now.order sec frac captured original)) }
    ensures cause { HasCause (K.faults sink.old) (K.faults sink.new) result }
{
    write_all(
        sink,
        &record_header(head.order, sec, frac, captured, original),
    )
}
