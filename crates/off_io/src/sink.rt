//! A sink of bytes that counts its faults.
ghost use Rattle.std.specs.Prelude.{◌<◌, Bool, true, false, List, ℕ, Option, IfOk, OnOk, OnErr, length};
ghost use Rattle.std.specs.Io.{WritesAtMost};
ghost use Rattle.std.specs.Io.KnownBytes.{WriteAppends, Keeps, Appends};
ghost use Rattle.off_io.specs.Faults.{HasCause};
ghost use Rattle.off_io.specs.Content.{AppendsPrefix, SaysFlushed};

use crate::Failed;

/// A sink failed before all bytes were written.
#[derive(Clone, Copy, Debug, PartialEq, Eq)]
pub struct WriteFault;

/// Takes bytes, as many at a call as it likes.
pub trait Sink {
    /// The bytes that it holds, where the sink tells.
    ghost held: { Self → Option (List ℕ) };

    /// Whether all of these are flushed; it is read only where `held` tells.
    ghost is_flushed: { Self → Bool };

    /// How often a write or a flush failed.
    ghost faults: { Self → ℕ };

    /// Appends a prefix of `from`, at least a byte where there is one, and answers how many bytes it took. `Failed`
    /// appends nothing, and comes only where the count of faults rose.
    fn write(&mut self, from: &[u8]) -> Result<usize, Failed>
        ensures bound { WritesAtMost result from.now }
        ensures progress { IfOk result (λ n. 0 < length from.now → 0 < n) }
        ensures bytes { WriteAppends (held self.old) (held self.new) result from.now }
        ensures unflushed { IfOk result (λ n. 0 < n → SaysFlushed (held self.new) (is_flushed self.new) false) }
        ensures cause { HasCause (faults self.old) (faults self.new) result };

    /// Brings all that was written to where it goes. `Failed` only where the count of faults rose.
    fn flush(&mut self) -> Result<(), Failed>
        ensures bytes { Keeps (held self.old) (held self.new) }
        ensures flushed { OnOk result (SaysFlushed (held self.new) (is_flushed self.new) true) }
        ensures cause { HasCause (faults self.old) (faults self.new) result };
}

// Writes all the bytes, as many at a call as the sink takes.
#[inline(never)]
fn write_rest<K: Sink>(sink: &mut K, bytes: &[u8]) -> Result<(), WriteFault>
    ensures ok { OnOk result (Appends (K.held sink.old) (K.held sink.new) bytes.now) }
    ensures err { OnErr result (AppendsPrefix (K.held sink.old) (K.held sink.new) bytes.now) }
    ensures cause { HasCause (K.faults sink.old) (K.faults sink.new) result }
{
    let mut at = 0;
    while at < bytes.len() {
        match sink.write(&bytes[at..]) {
            Ok(count) => at += count,
            Err(Failed) => return Err(WriteFault),
        }
    }
    Ok(())
}

/// Writes all the bytes.
///
/// `WriteFault` only where the sink's count of faults rose; a prefix of the bytes was then appended.
#[inline(always)]
pub fn write_all<K: Sink>(sink: &mut K, bytes: &[u8]) -> Result<(), WriteFault>
    ensures ok { OnOk result (Appends (K.held sink.old) (K.held sink.new) bytes.now) }
    ensures err { OnErr result (AppendsPrefix (K.held sink.old) (K.held sink.new) bytes.now) }
    ensures cause { HasCause (K.faults sink.old) (K.faults sink.new) result }
{
    if bytes.is_empty() {
        return Ok(());
    }
    // Mostly one write takes all.
    let count = match sink.write(bytes) {
        Ok(count) => count,
        Err(Failed) => return Err(WriteFault),
    };
    if count == bytes.len() {
        return Ok(());
    }
    write_rest(sink, &bytes[count..])
}
