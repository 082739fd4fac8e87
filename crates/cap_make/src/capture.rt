//! Writes a generated capture.
ghost use Rattle.std.specs.Prelude.{OnOk, OnErr};
ghost use Rattle.std.specs.Io.KnownBytes.{Appends};
ghost use Rattle.off_io.specs.Faults.{HasCause};
ghost use Rattle.off_io.specs.Content.{AppendsPrefix};
ghost use Rattle.cap_make.specs.Capture.{made};

use crate::maker::Maker;
use crate::record::RecordBytes;
use off_io::{Sink, WriteFault, write_all};

/// Writes the capture of this seed, of `count` records, one record at a time.
///
/// `WriteFault` only where the sink's count of faults rose; a prefix of the capture was then written.
pub fn make_capture<K: Sink>(seed: u64, count: u32, sink: &mut K) -> Result<(), WriteFault>
    ensures ok { OnOk result (Appends (K.held sink.old) (K.held sink.new) (made seed count)) }
    ensures err { OnErr result (AppendsPrefix (K.held sink.old) (K.held sink.new) (made seed count)) }
    ensures cause { HasCause (K.faults sink.old) (K.faults sink.new) result }
{
    let mut maker = Maker::new(seed);
    let mut buffer = RecordBytes::of_file_header();
    write_all(sink, buffer.bytes())?;
    for number in 0..count {
        maker.next_record(number, &mut buffer);
        write_all(sink, buffer.bytes())?;
    }
    Ok(())
}
