//! The edge to the system: std's readers and writers with a count of their errors.
ghost use Rattle.std.specs.Prelude.{◌≡◌, ◌<◌, ◌≤◌, [], None, IfNone, IfOk, IfSome, false, true, length};
ghost use Rattle.std.specs.Io.{ReadsAtMost, WritesAtMost};
ghost use Rattle.std.specs.Io.KnownBytes.{Appends, Keeps, ReadConsumes, WriteAppends};
ghost use Rattle.std.specs.Io.Buffered.{reader_remaining, writer_buffer, writer_contents, writer_inner};
ghost use Rattle.std.specs.Prelude.{MatchOption, take};
ghost use Rattle.off_io.specs.Content.{IsFrontOf};
ghost use Rattle.off_io.specs.Faults.{HasCause, Rose};

use crate::{Failed, Sink, Source};
use std::io::{BufRead, BufReader, BufWriter, Read, Write};
use std::marker::Model;

/// A reader of std. Each of its errors is a fault, an interrupted read too.
#[derive(Drop)]
pub struct StdSource<R> {
    inner: R,
    /// How many reads failed. It stays at `2^64 - 1`.
    faults: u64,
}

impl<R> Model for StdSource<R> {
    ghost use Rattle.off_io.specs.Edge.{Counting};

    ghost Value = { Counting R };

    ghost view = { λ s. record { inner = s.inner; faults = s.faults } };
}

impl<R: Read> StdSource<R> {
    /// A source over a reader, with no fault yet.
    pub fn new(inner: R) -> Self
        ensures made { result ≡ record { inner = inner; faults = 0 } }
    {
        StdSource { inner, faults: 0 }
    }
}

impl<R: Read> Source for StdSource<R> {
    ghost left = { λ s. R.remaining s.inner };

    ghost faults = { λ s. s.faults };

    fn read(&mut self, into: &mut [u8]) -> Result<usize, Failed> {
        match self.inner.read(into) {
            Ok(count) => Ok(count),
            Err(_) => {
                self.faults = self.faults.saturating_add(1);
                Err(Failed)
            }
        }
    }
}

/// A reader of std behind std's buffer. What lies in the buffer is had by a copy alone, without a result of std's; all
/// else is as of [`StdSource`].
#[derive(Drop)]
pub struct BufferedSource<R> {
    inner: BufReader<R>,
    /// How many reads failed. It stays at `2^64 - 1`.
    faults: u64,
}

impl<R> Model for BufferedSource<R> {
    ghost use Rattle.std.specs.declared.io.buffered.BufReader.{BufReader};
    ghost use Rattle.std.specs.declared.alloc.Global.{Global};
    ghost use Rattle.off_io.specs.Edge.{Counting};

    ghost Value = { Counting (BufReader R Global) };

    ghost view = { λ s. record { inner = s.inner; faults = s.faults } };
}

impl<R: Read> BufferedSource<R> {
    /// A source over a reader, with no fault yet.
    pub fn new(inner: BufReader<R>) -> Self
        ensures made { result ≡ record { inner = inner; faults = 0 } }
    {
        BufferedSource { inner, faults: 0 }
    }

    // It stands apart, so that the copy of what lies in the buffer is inlined.
    #[inline(never)]
    fn read_on(&mut self, into: &mut [u8]) -> Result<usize, Failed>
        ensures bound { ReadsAtMost result into.new }
        ensures bytes { ReadConsumes (reader_remaining R.remaining self.old.inner)
            (reader_remaining R.remaining self.new.inner) result into.new }
        ensures cause { HasCause self.old.faults self.new.faults result }
    {
        match self.inner.read(into) {
            Ok(count) => Ok(count),
            Err(_) => {
                self.faults = self.faults.saturating_add(1);
                Err(Failed)
            }
        }
    }
}

impl<R: Read> Source for BufferedSource<R> {
    ghost left = { λ s. reader_remaining R.remaining s.inner };

    ghost faults = { λ s. s.faults };

    #[inline(always)]
    fn read(&mut self, into: &mut [u8]) -> Result<usize, Failed> {
        let count = into.len();
        let ahead = self.inner.buffer();
        if count <= ahead.len() {
            into.copy_from_slice(&ahead[..count]);
            self.inner.consume(count);
            return Ok(count);
        }
        self.read_on(into)
    }
}

/// A writer of std. Each of its errors is a fault, and so is a write that takes nothing of a piece that isn't empty.
#[derive(Drop)]
pub struct StdSink<W> {
    inner: W,
    /// How many writes and flushes failed. It stays at `2^64 - 1`.
    faults: u64,
    /// Whether all that was written is flushed; false before the first flush.
    is_flushed: bool,
}

impl<W> Model for StdSink<W> {
    ghost use Rattle.off_io.specs.Edge.{CountingSink};

    ghost Value = { CountingSink W };

    ghost view = { λ s. record { inner = s.inner; faults = s.faults; is_flushed = s.is_flushed } };
}

impl<W: Write> StdSink<W> {
    /// A sink over a writer, with no fault yet.
    pub fn new(inner: W) -> Self
        ensures made { result ≡ record { inner = inner; faults = 0; is_flushed = false } }
    {
        StdSink {
            inner,
            faults: 0,
            is_flushed: false,
        }
    }

    /// Std's writer.
    pub fn into_writer(self) -> W
        ensures same { result ≡ self.inner }
    {
        self.inner
    }
}

impl<W: Write> Sink for StdSink<W> {
    ghost held = { λ s. W.contents s.inner };

    ghost is_flushed = { λ s. s.is_flushed };

    ghost faults = { λ s. s.faults };

    #[inline(always)]
    fn write(&mut self, from: &[u8]) -> Result<usize, Failed> {
        match self.inner.write(from) {
            Ok(count) if count > 0 || from.is_empty() => {
                self.is_flushed = self.is_flushed && count == 0;
                Ok(count)
            }
            _ => {
                self.faults = self.faults.saturating_add(1);
                Err(Failed)
            }
        }
    }

    fn flush(&mut self) -> Result<(), Failed> {
        match self.inner.flush() {
            Ok(()) => {
                self.is_flushed = true;
                Ok(())
            }
            Err(_) => {
                self.faults = self.faults.saturating_add(1);
                Err(Failed)
            }
        }
    }
}

/// A writer of std behind std's buffer. What the buffer has room for is written without a result of std's; all else is
/// as of [`StdSink`].
#[derive(Drop)]
pub struct BufferedSink<W: Write + Drop> {
    inner: BufWriter<W>,
    /// How many writes and flushes failed. It stays at `2^64 - 1`.
    faults: u64,
    /// Whether a flush was the last call, and went well: then the buffer is empty.
    is_flushed: bool,
}

impl<W: Write + Drop> Model for BufferedSink<W> {
    ghost use Rattle.std.specs.declared.io.buffered.BufWriter.{BufWriter};
    ghost use Rattle.std.specs.declared.alloc.Global.{Global};
    ghost use Rattle.off_io.specs.Edge.{CountingSink};

    ghost Value = { CountingSink (BufWriter W Global) };

    ghost view = { λ s. record { inner = s.inner; faults = s.faults; is_flushed = s.is_flushed } };

    ghost use Rattle.std.specs.Prelude.{◌≡◌, [], true};
    ghost use Rattle.std.specs.Io.Buffered.{writer_buffer};

    ghost invariant = { λ s. s.is_flushed ≡ true → writer_buffer s.inner ≡ [] };
}

impl<W: Write + Drop> BufferedSink<W> {
    /// A sink over a writer, with no fault yet.
    pub fn new(inner: BufWriter<W>) -> Self
        ensures made { result ≡ record { inner = inner; faults = 0; is_flushed = false } }
    {
        BufferedSink {
            inner,
            faults: 0,
            is_flushed: false,
        }
    }

    /// Std's writer. Where the last call was a flush that went well it has all that was written, and is asked nothing;
    /// else what is still in the buffer is written to it, and of what it doesn't take nothing is told.
    pub fn into_writer(self) -> W
        ensures flushed { self.is_flushed ≡ true → result ≡ writer_inner self.inner }
        ensures all { self.is_flushed ≡ true → Keeps (writer_contents W.contents self.inner) (W.contents result) }
        ensures unwritten { writer_buffer self.inner ≡ [] → result ≡ writer_inner self.inner }
        ensures front { IsFrontOf (writer_contents W.contents self.inner) (W.contents result) }
    {
        let output = self.inner;
        if output.buffer().is_empty() {
            return output.into_parts().0;
        }
        match output.into_inner() {
            Ok(writer) => writer,
            Err(fault) => fault.into_inner().into_parts().0,
        }
    }

    // Writes, and counts it where that fails.
    #[inline(always)]
    fn write_counted(&mut self, from: &[u8]) -> Result<usize, Failed>
        ensures bound { WritesAtMost result from.now }
        ensures progress { IfOk result (λ n. 0 < length from.now → 0 < n) }
        ensures bytes { WriteAppends (writer_contents W.contents self.old.inner)
            (writer_contents W.contents self.new.inner) result from.now }
        ensures unflushed { self.new.is_flushed ≡ false }
        ensures cause { HasCause self.old.faults self.new.faults result }
    {
        self.is_flushed = false;
        let taken = self.inner.write(from);
        match taken {
            Ok(count) if count > 0 || from.is_empty() => Ok(count),
            _ => {
                self.faults = self.faults.saturating_add(1);
                Err(Failed)
            }
        }
    }

    // It stands apart, so that of a write that has room no failure is compiled. Its answer is of another type than that
    // of `write`, or the compiler joins both before it looks at either.
    #[inline(never)]
    fn write_on(&mut self, from: &[u8]) -> Option<usize>
        ensures bound { IfSome result (λ n. n ≤ length from.now) }
        ensures progress { IfSome result (λ n. 0 < length from.now → 0 < n) }
        ensures bytes { MatchOption result
            (Keeps (writer_contents W.contents self.old.inner) (writer_contents W.contents self.new.inner))
            (λ n. Appends (writer_contents W.contents self.old.inner) (writer_contents W.contents self.new.inner)
            (take n from.now)) }
        ensures unflushed { self.new.is_flushed ≡ false }
        ensures later { self.old.faults ≤ self.new.faults }
        ensures failed { IfNone result (Rose self.old.faults self.new.faults) }
    {
        match self.write_counted(from) {
            Ok(count) => Some(count),
            Err(Failed) => None,
        }
    }
}

impl<W: Write + Drop> Sink for BufferedSink<W> {
    ghost held = { λ s. writer_contents W.contents s.inner };

    ghost is_flushed = { λ s. s.is_flushed };

    ghost faults = { λ s. s.faults };

    #[inline(always)]
    fn write(&mut self, from: &[u8]) -> Result<usize, Failed> {
        // std's own test, by which the compiler knows what std does.
        if from.len()
            < self
                .inner
                .capacity()
                .wrapping_sub(self.inner.buffer().len())
        {
            return self.write_counted(from);
        }
        match self.write_on(from) {
            Some(count) => Ok(count),
            None => Err(Failed),
        }
    }

    fn flush(&mut self) -> Result<(), Failed> {
        match self.inner.flush() {
            Ok(()) => {
                self.is_flushed = true;
                Ok(())
            }
            Err(_) => {
                self.is_flushed = false;
                self.faults = self.faults.saturating_add(1);
                Err(Failed)
            }
        }
    }
}
