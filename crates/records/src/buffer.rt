//! Writes the bytes of a buffer.
ghost use Rattle.std.specs.Prelude.{◌≤◌, OnOk, OnErr, drop};
ghost use Rattle.std.specs.List.{flat_map};
ghost use Rattle.std.specs.Io.KnownBytes.{Appends};
ghost use Rattle.off_io.specs.Faults.{HasCause};
ghost use Rattle.off_io.specs.Content.{AppendsPrefix};
ghost use Rattle.frags.specs.PieceList.{piece_bytes};
ghost use Rattle.skb.specs.SkbState.{buffer_bytes, head_size};
ghost use Rattle.records.specs.Records.{Writes};

use off_io::{Sink, WriteFault, write_all};
use skb::Skb;

/// Writes the bytes of a buffer, slice by slice.
///
/// `WriteFault` only where the sink's count of faults rose; a prefix of the bytes was then written.
#[inline(always)]
pub fn write_buffer<K: Sink>(sink: &mut K, frame: &Skb) -> Result<(), WriteFault>
    ensures ok { OnOk result (Appends (K.held sink.old) (K.held sink.new) (buffer_bytes frame.now)) }
    ensures err { OnErr result (AppendsPrefix (K.held sink.old) (K.held sink.new)
        (buffer_bytes frame.now)) }
    ensures cause { HasCause (K.faults sink.old) (K.faults sink.new) result }
{
    write_all(sink, frame.head())?;
    write_pieces(sink, frame)
}

/// Writes what is behind `at` of a buffer, where that is in its head, slice by slice.
pub(crate) fn write_from<K: Sink>(sink: &mut K, frame: &Skb, at: usize) -> Result<(), WriteFault>
    requires inside { at ≤ head_size frame.now }
    ensures writes { Writes (K.held sink.old) (K.held sink.new) (K.faults sink.old) (K.faults sink.new)
        (drop at (buffer_bytes frame.now)) result }
{
    let head = frame.head();
    write_all(sink, &head[at..])?;
    write_pieces(sink, frame)
}

// Writes the pieces behind a buffer's head.
#[inline(always)]
fn write_pieces<K: Sink>(sink: &mut K, frame: &Skb) -> Result<(), WriteFault>
    ensures writes { Writes (K.held sink.old) (K.held sink.new) (K.faults sink.old) (K.faults sink.new)
        (flat_map piece_bytes frame.now.rest) result }
{
    for i in 0..frame.count() - 1 {
        write_all(sink, frame.slice(i))?;
    }
    Ok(())
}
