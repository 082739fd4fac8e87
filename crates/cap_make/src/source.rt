//! A generated capture as a source.
ghost use Rattle.std.specs.Prelude.{◌≡◌, ◌+◌, ◌-◌, ◌≤◌, ◌++◌, [], Some};
ghost use Rattle.cap_make.specs.Capture.{made, records_from};

use crate::maker::Maker;
use crate::record::RecordBytes;
use off_io::{Failed, Source};
use std::marker::Model;

/// Gives the bytes of a generated capture. It takes no memory and never fails: its count of faults is the constant 0.
#[derive(Drop)]
pub struct MadeSource {
    /// Stands before the record with the number `number`.
    maker: Maker,
    /// What is left of the file header, or of the record before; empty only at the end.
    buffer: RecordBytes,
    /// How many records were made.
    number: u32,
    /// How many the capture has.
    count: u32,
}

impl Model for MadeSource {
    ghost use Rattle.std.specs.Prelude.{◌≡◌, ◌-◌, ◌≤◌, ◌++◌, ℕ, List, []};
    ghost use Rattle.cap_make.specs.Capture.{records_from};

    ghost Value = { List ℕ };

    ghost view = { λ s. s.buffer ++ records_from (s.count - s.number) s.number s.maker };

    ghost invariant = { λ s. (s.number ≤ s.count) × (s.buffer ≡ [] → s.number ≡ s.count) };
}

impl MadeSource {
    /// The capture of this seed, of `count` records.
    #[tactic(auto, unfolding(crate::specs::Capture::made))]
    pub fn new(seed: u64, count: u32) -> Self
        ensures made { result ≡ made seed count }
    {
        MadeSource {
            maker: Maker::new(seed),
            buffer: RecordBytes::of_file_header(),
            number: 0,
            count,
        }
    }
}

// Makes the next record where there is one and the bytes of the one before are gone.
fn refill(maker: &mut Maker, buffer: &mut RecordBytes, number: u32, count: u32) -> u32
    requires within { number ≤ count }
    ensures same { buffer.new ++ records_from (count - result) result maker.new ≡ buffer.old
        ++ records_from (count - number) number maker.old }
    ensures within { result ≤ count }
    ensures all { buffer.new ≡ [] → result ≡ count }
{
    if number == count || !buffer.is_empty() {
        return number;
    }
    maker.next_record(number, buffer);
    number + 1
}

impl Source for MadeSource {
    ghost left = { λ rest. Some rest };

    ghost faults = { λ _. 0 };

    fn read(&mut self, into: &mut [u8]) -> Result<usize, Failed> {
        let count = self.buffer.take(into);
        self.number = refill(&mut self.maker, &mut self.buffer, self.number, self.count);
        Ok(count)
    }
}
