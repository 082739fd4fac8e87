//! A sink in memory that fails at chosen calls.
ghost use Rattle.std.specs.Prelude.{◌≡◌, ◌<◌, ◌≤◌, ◌+◌, ◌↔◌, min, Some, [], true, false, length, IsErr, IfOk, OnOk};
ghost use Rattle.std.specs.Prelude.{OnErr, IsTrue};
ghost use Rattle.std.specs.Io.{WritesAtMost};
ghost use Rattle.std.specs.Io.KnownBytes.{WriteAppends, Keeps};
ghost use Rattle.off_io.specs.Faults.{HasCause, CountsFault, next_count};
ghost use Rattle.off_io.specs.Content.{SaysFlushed};
ghost use Rattle.off_io.specs.Memory.{is_listed, SameScript, FailsAsListed};

use crate::{Failed, Sink};
use std::alloc::Global;
use std::marker::Model;

/// Keeps what is written, at most `step` bytes at a call. Writes and flushes are counted together, from 0. A call whose
/// number is in the list `fails` answers `Failed`; any other call answers it only where `refused` rose, the number of
/// writes that were given up for want of memory. Each `Failed` raises the count of faults, and nothing else does.
#[derive(Drop)]
pub struct MemSink {
    bytes: Vec<u8>,
    /// Whether all that was written is flushed; true while nothing is.
    is_flushed: bool,
    /// How many bytes a write takes at most, at least 1.
    step: usize,
    fails: Vec<u64>,
    /// The number of the next call. It stays at `2^64 - 1`.
    calls: u64,
    /// How many calls failed. It stays at `2^64 - 1`.
    faults: u64,
    /// How many writes were given up for want of memory. It stays at `2^64 - 1`.
    refused: u64,
}

impl Model for MemSink {
    ghost use Rattle.std.specs.Prelude.{◌<◌};
    ghost use Rattle.off_io.specs.Memory.{SinkState};

    ghost Value = { SinkState };

    ghost view = { λ s. record {
      bytes = s.bytes.items;
      is_flushed = s.is_flushed;
      step = s.step;
      fails = s.fails.items;
      calls = s.calls;
      faults = s.faults;
      refused = s.refused;
    } };

    ghost invariant = { λ s. 0 < s.step };
}

impl MemSink {
    /// A sink that holds nothing and takes `step` bytes a call; the calls with these numbers, from 0, fail.
    pub fn new(alloc: Global, step: usize, fails: Vec<u64>) -> Self
        requires some { 0 < step }
        ensures made { result ≡ record {
          bytes = [];
          is_flushed = true;
          step = step;
          fails = fails.items;
          calls = 0;
          faults = 0;
          refused = 0;
        } }
    {
        MemSink {
            bytes: Vec::new(alloc),
            is_flushed: true,
            step,
            fails,
            calls: 0,
            faults: 0,
            refused: 0,
        }
    }

    /// What was written so far.
    pub fn bytes(&self) -> &[u8]
        ensures bytes { result.now ≡ self.now.bytes }
    {
        &self.bytes
    }

    /// Whether all that was written is flushed.
    pub fn is_flushed(&self) -> bool
        ensures value { result ≡ self.now.is_flushed }
    {
        self.is_flushed
    }

    /// How many writes were given up for want of memory.
    pub fn refused(&self) -> u64
        ensures value { result ≡ self.now.refused }
    {
        self.refused
    }

    // Counts a call, and says whether it is to fail.
    fn starts_failing(&mut self) -> bool
        ensures fails { result ≡ is_listed self.old.fails self.old.calls }
        ensures counted { self.new ≡ record self.old { calls = next_count self.old.calls } }
    {
        let call = self.calls;
        self.calls = self.calls.saturating_add(1);
        self.fails.contains(&call)
    }

    // Counts a fault.
    fn fail(&mut self) -> Failed
        ensures counted { self.new ≡ record self.old { faults = next_count self.old.faults } }
        ensures later { self.old.faults ≤ self.new.faults }
    {
        self.faults = self.faults.saturating_add(1);
        Failed
    }
}

impl Sink for MemSink {
    ghost held = { λ s. Some s.bytes };

    ghost is_flushed = { λ s. s.is_flushed };

    ghost faults = { λ s. s.faults };

    fn write(&mut self, from: &[u8]) -> Result<usize, Failed>
        ensures bound { WritesAtMost result from.now }
        ensures progress { IfOk result (λ n. 0 < length from.now → 0 < n) }
        ensures bytes { WriteAppends (Some self.old.bytes) (Some self.new.bytes) result from.now }
        ensures unflushed { IfOk result (λ n. 0 < n → SaysFlushed (Some self.new.bytes) self.new.is_flushed false) }
        ensures cause { HasCause self.old.faults self.new.faults result }
        ensures fails { IsTrue (is_listed self.old.fails self.old.calls) → IsErr result }
        ensures memory { FailsAsListed self.old self.new result }
        ensures refused { OnOk result (self.new.refused ≡ self.old.refused) }
        ensures listed { IsTrue (is_listed self.old.fails self.old.calls) → self.new.refused ≡ self.old.refused }
        ensures faults { CountsFault self.old.faults self.new.faults result }
        ensures count { IfOk result (λ n. n ≡ min (length from.now) self.old.step) }
        ensures script { SameScript self.old self.new }
    {
        if self.starts_failing() {
            return Err(self.fail());
        }
        let count = from.len().min(self.step);
        match self.bytes.extend_from_slice(&from[..count]) {
            Ok(()) => {
                self.is_flushed = count == 0 && self.is_flushed;
                Ok(count)
            }
            Err(_) => {
                self.refused = self.refused.saturating_add(1);
                Err(self.fail())
            }
        }
    }

    fn flush(&mut self) -> Result<(), Failed>
        ensures bytes { Keeps (Some self.old.bytes) (Some self.new.bytes) }
        ensures flushed { OnOk result (SaysFlushed (Some self.new.bytes) self.new.is_flushed true) }
        ensures cause { HasCause self.old.faults self.new.faults result }
        ensures fails { IsErr result ↔ IsTrue (is_listed self.old.fails self.old.calls) }
        ensures refused { self.new.refused ≡ self.old.refused }
        ensures faults { CountsFault self.old.faults self.new.faults result }
        ensures script { SameScript self.old self.new }
    {
        if self.starts_failing() {
            return Err(self.fail());
        }
        self.is_flushed = true;
        Ok(())
    }
}
