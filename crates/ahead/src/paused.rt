//! What comes of a round that is read beside the work of another.
ghost use Rattle.std.specs.Prelude.{◌≡◌, Some};
ghost use Rattle.ahead.specs.Ahead.{IsAheadOf};

use pcap_io::RecHead;
use rounds::{Halt, Reading, Round, RoundRead};
use std::marker::Model;

/// Why a read beside work was paused: a take found no list of blocks.
#[derive(Clone, Copy, Debug, PartialEq, Eq)]
pub struct Empty {
    // How many blocks the read had taken by then.
    takes: u64,
}

impl Empty {
    /// The blocks that the read had taken by then.
    pub fn takes(&self) -> u64
        ensures takes { result ≡ self.now.takes }
    {
        self.takes
    }
}

/// A round that goes on: its records so far, and the header of the next one, whose blocks weren't home. It must be
/// spent: [`read_rest`](crate::read_rest) goes on behind that header.
pub struct Paused {
    reading: Reading,
    // The one that `reading` keeps.
    head: RecHead,
}

impl Model for Paused {
    ghost use Rattle.std.specs.Prelude.{◌≡◌, Some};
    ghost use Rattle.ahead.specs.PausedState.{PausedState};

    ghost Value = { PausedState };

    ghost view = { λ p. record {
      round = p.reading.round;
      head = p.head;
      empty = record { takes = p.reading.round.blocks };
      size = p.reading.size;
    } };

    ghost invariant = { λ p. p.reading.head ≡ Some p.head };
}

impl Paused {
    /// Its blocks, those of its spares with them.
    pub fn blocks(&self) -> u32
        ensures blocks { result ≡ self.now.round.blocks }
    {
        self.reading.blocks()
    }

    /// Why, and how many blocks it had taken by then.
    pub fn empty(&self) -> Empty
        ensures empty { result ≡ self.now.empty }
    {
        Empty {
            takes: self.reading.blocks() as u64,
        }
    }

    /// Its records so far, of which no more are read.
    pub fn into_round(self) -> Round
        ensures same { result ≡ self.round }
    {
        let Paused { reading, head: _ } = self;
        reading.into_round()
    }

    // The round that is read on, behind the header that it keeps.
    pub(crate) fn reading(self) -> Reading
        ensures round { (result.round ≡ self.round) × (result.size ≡ self.size) }
        ensures head { result.head ≡ Some self.head }
    {
        let Paused { reading, head: _ } = self;
        reading
    }

    /// Gives the round up outside its rounds, as [`Round::discard`].
    pub fn discard(self) -> usize
        ensures freed { result ≡ self.round.blocks }
    {
        self.into_round().discard()
    }
}

/// What was read beside the work of another round.
pub enum ReadAhead {
    /// It ended without a pause.
    Read(RoundRead),
    /// Blocks were wanted that weren't home, and no list of them was found.
    Paused(Paused),
}

impl ReadAhead {
    /// What a round that was read so far comes to.
    pub(crate) fn of(reading: Reading, halt: Halt) -> ReadAhead
        requires kept { halt ≡ Halt.Lacking → (head : RecHead) × (reading.head ≡ Some head) }
        ensures is { IsAheadOf reading halt result }
    {
        if let Halt::Ended(end) = halt {
            let round = reading.into_round();
            return ReadAhead::Read(RoundRead { round, end });
        }
        match reading.head() {
            Some(head) => ReadAhead::Paused(Paused { reading, head }),
            None => {
                reading.into_round().discard();
                unreachable!()
            }
        }
    }
}
