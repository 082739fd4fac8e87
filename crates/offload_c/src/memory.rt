//! A source over lent bytes, a sink that grows, and what a command comes to.
ghost use Rattle.std.specs.Prelude.{◌≡◌, ◌≤◌, [], true, Some, IfOk, vec_capacity};

use off_io::{Failed, Sink, Source};
use std::alloc::{AllocError, Global};

/// Gives the bytes that it was lent, and never fails.
#[derive(Clone, Copy)]
pub struct LentSource<'a> {
    /// Those that weren't read yet.
    pub bytes: &'a [u8],
}

impl Source for LentSource<'_> {
    ghost left = { λ s. Some s.bytes.now };

    ghost faults = { λ _. 0 };

    fn read(&mut self, into: &mut [u8]) -> Result<usize, Failed> {
        let count = self.bytes.len().min(into.len());
        into[..count].copy_from_slice(&self.bytes[..count]);
        self.bytes = &self.bytes[count..];
        Ok(count)
    }
}

/// Keeps what is written. A write fails only for want of memory, which is counted.
#[derive(Drop)]
pub struct GrownSink {
    pub bytes: Vec<u8>,
    /// Whether all that was written is flushed.
    pub is_flushed: bool,
    /// How many writes failed. It stays at `2^64 - 1`.
    pub faults: u64,
}

impl Sink for GrownSink {
    ghost held = { λ s. Some s.bytes.items };

    ghost is_flushed = { λ s. s.is_flushed };

    ghost faults = { λ s. s.faults };

    fn write(&mut self, from: &[u8]) -> Result<usize, Failed> {
        match self.bytes.extend_from_slice(from) {
            Ok(()) => {
                self.is_flushed = from.is_empty() && self.is_flushed;
                Ok(from.len())
            }
            Err(_) => {
                self.faults = self.faults.saturating_add(1);
                Err(Failed)
            }
        }
    }

    fn flush(&mut self) -> Result<(), Failed> {
        self.is_flushed = true;
        Ok(())
    }
}

/// What a command comes to: its output, by where the capture stops it.
#[derive(Drop)]
pub enum Outcome {
    /// The capture was read to its end.
    Whole(Vec<u8>),
    /// The capture is refused; this is the output of the records before.
    Refused(Vec<u8>),
    /// A round needs more blocks than there are; this is the output of the rounds before.
    Empty(Vec<u8>),
    NoMemory,
}

/// An empty sink, with room for this many bytes.
pub fn grown_sink(alloc: Global, room: usize) -> Result<GrownSink, AllocError>
    ensures empty { IfOk result (λ sink. sink.bytes.items ≡ []) }
    ensures flushed { IfOk result (λ sink. (sink.is_flushed ≡ true) × (sink.faults ≡ 0)) }
    ensures room { IfOk result (λ sink. room ≤ vec_capacity sink.bytes) }
{
    Ok(GrownSink {
        bytes: Vec::with_capacity(alloc, room)?,
        is_flushed: true,
        faults: 0,
    })
}
