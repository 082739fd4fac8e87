//! A source in memory that fails at chosen calls.
ghost use Rattle.std.specs.Prelude.{◌≡◌, ◌<◌, ◌≤◌, ◌↔◌, min, Some, [], take, length, IsErr, IfOk, OnOk, IsTrue};
ghost use Rattle.std.specs.Io.{ReadsAtMost};
ghost use Rattle.std.specs.Io.KnownBytes.{ReadConsumes};
ghost use Rattle.off_io.specs.Faults.{HasCause, CountsFault, next_count};
ghost use Rattle.off_io.specs.Memory.{is_listed};

use crate::{Failed, Source};
use std::marker::Model;

/// Gives the bytes that it was made with, at most `step` at a call. Exactly the calls whose numbers, counted from 0,
/// are in the list `fails` answer `Failed`, and each of these raises the count of faults.
#[derive(Drop)]
pub struct MemSource {
    bytes: Vec<u8>,
    /// The place of the next byte that is given.
    at: usize,
    /// How many bytes a read gives at most, at least 1.
    step: usize,
    fails: Vec<u64>,
    /// The number of the next call. It stays at `2^64 - 1`.
    calls: u64,
    /// How many calls failed. It stays at `2^64 - 1`.
    faults: u64,
}

impl Model for MemSource {
    ghost use Rattle.std.specs.Prelude.{◌<◌, ◌≤◌, vec_len, drop};
    ghost use Rattle.off_io.specs.Memory.{SourceState};

    ghost Value = { SourceState };

    ghost view = { λ s. record {
      rest = drop s.at s.bytes.items;
      step = s.step;
      fails = s.fails.items;
      calls = s.calls;
      faults = s.faults;
    } };

    ghost invariant = { λ s. (s.at ≤ vec_len s.bytes) × (0 < s.step) };
}

impl MemSource {
    /// A source of these bytes, `step` at most a call; the calls with these numbers, from 0, fail.
    pub fn new(bytes: Vec<u8>, step: usize, fails: Vec<u64>) -> Self
        requires some { 0 < step }
        ensures made { result ≡ record { rest = bytes.items; step = step; fails = fails.items; calls = 0; faults = 0 } }
    {
        MemSource {
            bytes,
            at: 0,
            step,
            fails,
            calls: 0,
            faults: 0,
        }
    }
}

/// Copies a prefix of `rest`, as much as there is, as fits and as `most` allows.
pub fn copy_front(into: &mut [u8], rest: &[u8], most: usize) -> usize
    ensures count { result ≡ min (min (length rest.now) (length into.new)) most }
    ensures front { take result into.new ≡ take result rest.now }
{
    let count = rest.len().min(into.len()).min(most);
    into[..count].copy_from_slice(&rest[..count]);
    count
}

impl Source for MemSource {
    ghost left = { λ s. Some s.rest };

    ghost faults = { λ s. s.faults };

    fn read(&mut self, into: &mut [u8]) -> Result<usize, Failed>
        ensures bound { ReadsAtMost result into.new }
        ensures bytes { ReadConsumes (Some self.old.rest) (Some self.new.rest) result into.new }
        ensures cause { HasCause self.old.faults self.new.faults result }
        ensures fails { IsErr result ↔ IsTrue (is_listed self.old.fails self.old.calls) }
        ensures count { IfOk result (λ n. n ≡ min (min (length self.old.rest) (length into.new)) self.old.step) }
        ensures faults { CountsFault self.old.faults self.new.faults result }
        ensures calls { self.new.calls ≡ next_count self.old.calls }
        ensures script { (self.new.fails ≡ self.old.fails) × (self.new.step ≡ self.old.step) }
    {
        let call = self.calls;
        self.calls = self.calls.saturating_add(1);
        if self.fails.contains(&call) {
            self.faults = self.faults.saturating_add(1);
            return Err(Failed);
        }
        let count = copy_front(into, &self.bytes[self.at..], self.step);
        self.at += count;
        Ok(count)
    }
}
