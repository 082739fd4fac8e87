//! Writes a record.
ghost use Rattle.std.specs.Prelude.{◌≡◌, ◌+◌, ◌<◌, ◌^◌, ◌++◌, OnOk, OnErr, length};
ghost use Rattle.std.specs.Io.KnownBytes.{Appends};
ghost use Rattle.pcap_io.specs.Limits.{off_head2_size};
ghost use Rattle.off_io.specs.Faults.{HasCause};
ghost use Rattle.off_io.specs.Content.{AppendsPrefix};
ghost use Rattle.pcap_io.specs.Capture.{packet};
ghost use Rattle.skb.specs.SkbState.{buffer_bytes, buffer_size};
ghost use Rattle.offload_model.specs.Written.{record_bytes};
ghost use Rattle.records.specs.Records.{headed, heads_of, Writes};

use crate::write_buffer;
use off_io::{Sink, WriteFault, write_all};
use pcap_io::{FileHead, OFF_HEAD2_LEN, OffHead2, record_header, write_rec_head};
use skb::Skb;

/// A record's time: seconds, and micro- or nanoseconds as the capture has them.
#[derive(Clone, Copy, Debug, PartialEq, Eq)]
pub struct Time {
    pub sec: u32,
    pub frac: u32,
}

/// Both headers of a record, in one row.
pub(crate) fn both_heads(header: &[u8; 16], offload: &[u8; OFF_HEAD2_LEN]) -> [u8; 32]
    ensures bytes { result ≡ header.now ++ offload.now }
{
    let mut heads = [0u8; 32];
    heads[..16].copy_from_slice(header);
    heads[16..].copy_from_slice(offload);
    heads
}

// Writes the headers of a record, with one call. `len` and `original` are those of the frame alone.
#[inline(always)]
fn write_heads<K: Sink>(
    sink: &mut K,
    file: &FileHead,
    time: Time,
    len: u32,
    original: u32,
    head: Option<OffHead2>,
) -> Result<(), WriteFault>
    requires few { (len + off_head2_size < 2 ^ 32) × (original + off_head2_size < 2 ^ 32) }
    ensures writes { Writes (K.held sink.old) (K.held sink.new) (K.faults sink.old) (K.faults sink.new)
        (heads_of file.now.order time.sec time.frac len original head) result }
{
    let Some(head) = head else {
        return write_rec_head(sink, file, time.sec, time.frac, len, original);
    };
    let captured = len + OFF_HEAD2_LEN as u32;
    let original = original + OFF_HEAD2_LEN as u32;
    let header = record_header(file.order, time.sec, time.frac, captured, original);
    write_all(sink, &both_heads(&header, &head.bytes()))
}

/// Writes a frame as a record, behind an offload header where one is given. `original` is the frame's own original
/// length, in bytes.
///
/// `WriteFault` only where the sink's count of faults rose; a prefix of the record was then written.
#[inline(always)]
pub fn write_record<K: Sink>(
    sink: &mut K,
    file: &FileHead,
    time: Time,
    original: u32,
    head: Option<OffHead2>,
    frame: &Skb,
) -> Result<(), WriteFault>
    requires few { (buffer_size frame.now + off_head2_size < 2 ^ 32) × (original + off_head2_size < 2 ^ 32) }
    ensures ok { OnOk result (Appends (K.held sink.old) (K.held sink.new)
        (record_bytes file.now.order (headed head (packet 0 time.sec time.frac original (buffer_bytes frame.now))))) }
    ensures err { OnErr result (AppendsPrefix (K.held sink.old) (K.held sink.new)
        (record_bytes file.now.order (headed head (packet 0 time.sec time.frac original (buffer_bytes frame.now))))) }
    ensures cause { HasCause (K.faults sink.old) (K.faults sink.new) result }
{
    write_heads(sink, file, time, frame.len() as u32, original, head)?;
    write_buffer(sink, frame)
}

/// The same of a frame that lies in one row of bytes, as a tap's window does.
pub fn write_window<K: Sink>(
    sink: &mut K,
    file: &FileHead,
    time: Time,
    original: u32,
    head: Option<OffHead2>,
    frame: &[u8],
) -> Result<(), WriteFault>
    requires few { (length frame.now + off_head2_size < 2 ^ 32) × (original + off_head2_size < 2 ^ 32) }
    ensures ok { OnOk result (Appends (K.held sink.old) (K.held sink.new)
        (record_bytes file.now.order (headed head (packet 0 time.sec time.frac original frame.now)))) }
    ensures err { OnErr result (AppendsPrefix (K.held sink.old) (K.held sink.new)
        (record_bytes file.now.order (headed head (packet 0 time.sec time.frac original frame.now)))) }
    ensures cause { HasCause (K.faults sink.old) (K.faults sink.new) result }
{
    write_heads(sink, file, time, frame.len() as u32, original, head)?;
    write_all(sink, frame)
}
