//! A source and a sink that never fail.
ghost use Rattle.std.specs.Prelude.{◌≡◌, ◌<◌, Some, None, drop, false, length, List, ℕ, IfOk};
ghost use Rattle.std.specs.Io.{WritesAtMost};
ghost use Rattle.std.specs.Io.KnownBytes.{WriteAppends};
ghost use Rattle.off_io.specs.Faults.{HasCause};
ghost use Rattle.off_io.specs.Content.{SaysFlushed};

use crate::mem_source::copy_front;
use crate::{Failed, Sink, Source};
use std::marker::Model;

/// Gives the bytes that it was made with and never fails: its count of faults is the constant 0.
#[derive(Drop)]
pub struct SureSource {
    bytes: Vec<u8>,
    /// The place of the next byte that is given.
    at: usize,
}

impl Model for SureSource {
    ghost use Rattle.std.specs.Prelude.{◌≤◌, vec_len, drop, List, ℕ};

    ghost Value = { List ℕ };

    ghost view = { λ s. drop s.at s.bytes.items };

    ghost invariant = { λ s. s.at ≤ vec_len s.bytes };
}

impl SureSource {
    /// A source of these bytes, which never fails.
    pub fn new(bytes: Vec<u8>) -> Self
        ensures made { result ≡ bytes.items }
    {
        SureSource { bytes, at: 0 }
    }
}

impl Source for SureSource {
    ghost left = { λ rest. Some rest };

    ghost faults = { λ _. 0 };

    fn read(&mut self, into: &mut [u8]) -> Result<usize, Failed> {
        let count = copy_front(into, &self.bytes[self.at..], usize::MAX);
        self.at += count;
        Ok(count)
    }
}

/// Takes all and keeps nothing; it tells nothing and never fails.
#[derive(Clone, Copy, Debug)]
pub struct SureSink;

impl SureSink {
    /// A sink that takes whatever comes, and holds none of it.
    pub fn new() -> Self {
        SureSink
    }
}

impl Sink for SureSink {
    ghost held = { λ _. None };

    ghost is_flushed = { λ _. false };

    ghost faults = { λ _. 0 };

    fn write(&mut self, from: &[u8]) -> Result<usize, Failed>
        ensures bound { WritesAtMost result from.now }
        ensures progress { IfOk result (λ n. 0 < length from.now → 0 < n) }
        ensures bytes { WriteAppends None None result from.now }
        ensures unflushed { IfOk result (λ n. 0 < n → SaysFlushed None false false) }
        ensures cause { HasCause 0 0 result }
        ensures takes { result ≡ Ok (length from.now) }
    {
        Ok(from.len())
    }

    fn flush(&mut self) -> Result<(), Failed> {
        Ok(())
    }
}
