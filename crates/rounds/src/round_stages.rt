//! A round at each of its stages: being read, read, worked, and what is left of it.
ghost use Rattle.std.specs.Prelude.{◌≡◌, ◌≢◌, ◌≤◌, ◌*◌, [], ℕ, length, map, IfOk, OnOk};
ghost use Rattle.std.specs.List.{AllByRecursion};
ghost use Rattle.block_pool.specs.PoolState.{home};
ghost use Rattle.offload_model.specs.Captured.{IsCaptured};
ghost use Rattle.offload_model.specs.Need.{round_need};
ghost use Rattle.gro.specs.Slots.{packet_of};
ghost use Rattle.rounds.specs.Merging.{is_worked as is_worked_end};
ghost use Rattle.rounds.specs.Reading.{IsHaltOf};
ghost use Rattle.rounds.specs.RoundOf.{IsBegun};
ghost use Rattle.rounds.specs.Weights.{weights_of};

use block_pool::Pool;
use core::mem::replace;
use gro::Packets;
use lanes::{FrameLengths, Lanes};
use pcap_io::{CapFault, RecHead};
use reading::Stop;
use std::alloc::{AllocError, Global};
use std::marker::Model;
use taps::TapClone;

/// The records of a round, in blocks. It must be spent: worked or dropped, by the rounds that read it.
pub struct Round {
    /// One for each record, in the order of the capture.
    pub(crate) packets: Packets,
    // Two blocks for each packet, which its need counts. Nothing reads them.
    pub(crate) spares: Pool,
    /// How many blocks packets and spares have together.
    pub(crate) blocks: u32,
}

impl Model for Round {
    ghost use Rattle.std.specs.Prelude.{ℕ};
    ghost use Rattle.block_pool.specs.PoolState.{home};
    ghost use Rattle.rounds.specs.Fresh.{NumberedFrom};
    ghost use Rattle.rounds.specs.RoundOf.{IsRoundOf};
    ghost use Rattle.rounds.specs.RoundsState.{RoundState};

    ghost Value = { RoundState };

    ghost view = { λ r. record { packets = r.packets.items; spares = r.spares.blocks; blocks = r.blocks } };

    ghost invariant = { λ r. IsRoundOf r.packets.items (home r.spares) r.blocks
        × ((k : ℕ) × NumberedFrom k r.packets.items) };
}

impl Round {
    /// The blocks that it has: by weights of 1 they weigh as much.
    pub fn blocks(&self) -> u32
        ensures blocks { result ≡ self.now.blocks }
        ensures weighs { weights_of self.now (λ _. 1) ≡ self.now.blocks }
    {
        self.blocks
    }

    /// How many of them are spares: two for each packet.
    pub fn spares(&self) -> u32
        ensures spares { result ≡ length self.now.spares }
    {
        self.spares.home()
    }

    /// Whether it has some packets whose frames are short on average, which are best worked where they are read. Only
    /// speed rests on it.
    pub fn has_short_frames(&self) -> bool {
        let mut lengths = FrameLengths::new();
        lengths.add(&self.packets);
        lengths.are_short()
    }

    /// Gives the round up outside its rounds: its blocks are freed, and the answer is how many these are, all that it
    /// has. No memory is taken.
    pub fn discard(self) -> usize
        ensures freed { result ≡ self.blocks }
    {
        let _ = self.blocks();
        let Round {
            packets,
            spares,
            blocks: _,
        } = self;
        packets.free() + spares.home() as usize
    }
}

/// What the packets of a round come to. It must be spent: ended, by the rounds that worked it.
pub struct Worked {
    /// The packets and their runs queue by queue, and what each tap read.
    pub(crate) lanes: Lanes,
    // A clone of each packet, where they are kept.
    pub(crate) clones: Vec<TapClone>,
    /// Those that weren't given to others. Nothing reads them.
    pub(crate) spares: Pool,
    // Whether others may hold blocks of it: taps, or who keeps clones.
    pub(crate) shared: bool,
    /// How many blocks it has, the spares with them.
    pub(crate) blocks: u32,
}

impl Model for Worked {
    ghost use Rattle.std.specs.Prelude.{◌-◌, ◌≤◌, []};
    ghost use Rattle.block_pool.specs.PoolState.{home};
    ghost use Rattle.rounds.specs.Lanes.{IsSmallWork};
    ghost use Rattle.rounds.specs.Out.{IsOut};
    ghost use Rattle.rounds.specs.RoundsState.{WorkedState};

    ghost Value = { WorkedState };

    ghost view = { λ w. record {
      lanes = w.lanes;
      clones = w.clones.items;
      spares = w.spares.blocks;
      blocks = w.blocks;
    } };

    ghost invariant = { λ w. (home w.spares ≤ w.blocks)
        × IsOut w.shared (w.blocks - home w.spares) [] w.lanes w.clones.items × IsSmallWork w.lanes };
}

/// What is left of a round, at whichever point it ends: packets that are in no lane, what the lanes hold, clones that
/// were kept, and spares. It must be spent: brought home.
pub struct Rest {
    pub(crate) packets: Packets,
    pub(crate) lanes: Lanes,
    pub(crate) clones: Vec<TapClone>,
    pub(crate) spares: Pool,
    /// Whether others may hold blocks of it: taps, or who keeps clones.
    pub(crate) shared: bool,
    /// How many blocks it has, the spares with them.
    pub(crate) blocks: u32,
}

impl Model for Rest {
    ghost use Rattle.std.specs.Prelude.{◌-◌, ◌≤◌};
    ghost use Rattle.block_pool.specs.PoolState.{home};
    ghost use Rattle.rounds.specs.Out.{IsOut};
    ghost use Rattle.rounds.specs.RoundsState.{RestState};

    ghost Value = { RestState };

    ghost view = { λ r. record {
      packets = r.packets.items;
      lanes = r.lanes;
      spares = r.spares.blocks;
      blocks = r.blocks;
    } };

    ghost invariant = { λ r. (home r.spares ≤ r.blocks)
        × IsOut r.shared (r.blocks - home r.spares) r.packets.items r.lanes r.clones.items };
}

/// Why a round has no more records.
#[derive(Clone, Copy, Debug, PartialEq, Eq)]
pub enum RoundEnd {
    /// It has as many as it may have.
    Full,
    /// The capture has no more.
    End,
    /// The capture is refused at the next record.
    Malformed(CapFault),
    /// With the next record it would need this many blocks, and there are fewer.
    PoolEmpty { need: u32 },
    ReadFault,
    NoMemory,
    /// Its next record needs blocks that aren't home, and whoever has them keeps them.
    GivenUp,
}

/// A round, and why it has no more records.
pub struct RoundRead {
    pub round: Round,
    pub end: RoundEnd,
}

/// Why no more records of a round are read.
#[derive(Clone, Copy)]
pub enum Halt {
    /// It has no more, for this.
    Ended(RoundEnd),
    /// Blocks that its next record needs aren't home. The header of this one was taken and is kept.
    Lacking,
}

impl Halt {
    /// The end of a round that lacks no blocks.
    pub fn end(self) -> RoundEnd
        requires ended { self ≢ Halt.Lacking }
        ensures end { self ≡ Halt.Ended result }
    {
        match self {
            Halt::Ended(end) => end,
            Halt::Lacking => unreachable!(),
        }
    }
}

/// A round that is being read: its records so far, and where blocks were lacking the header of the next one, whose body
/// comes next from the source. It must be spent: [`Intake::read`](crate::Intake::read) reads on, until it is a round.
pub struct Reading {
    pub(crate) packets: Packets,
    // Two blocks for each packet.
    pub(crate) spares: Pool,
    // How many blocks packets and spares have together.
    pub(crate) used: u32,
    // For how many packets there is room, and for their spares.
    size: u32,
    pub(crate) head: Option<RecHead>,
}

impl Model for Reading {
    ghost use Rattle.std.specs.Prelude.{ℕ, ◌+◌, ◌*◌, ◌≤◌, length};
    ghost use Rattle.block_pool.specs.PoolState.{home};
    ghost use Rattle.rounds.specs.Fresh.{NumberedFrom};
    ghost use Rattle.rounds.specs.RoundOf.{IsRoundOf};
    ghost use Rattle.rounds.specs.RoundsState.{ReadingState};

    ghost Value = { ReadingState };

    ghost view = { λ r. record {
      round = record { packets = r.packets.items; spares = r.spares.blocks; blocks = r.used };
      head = r.head;
      size = r.size;
    } };

    ghost invariant = { λ r. IsRoundOf r.packets.items (home r.spares) r.used
        × ((k : ℕ) × NumberedFrom k r.packets.items) × (r.size ≤ length r.packets.items + r.packets.room)
        × (2 * r.size ≤ r.spares.made) };
}

impl Reading {
    // A round of no records yet, in lists with room for `size` packets and for their spares.
    pub(crate) fn begin(packets: Packets, spares: Pool, size: u32) -> Reading
        requires none { (packets.items ≡ []) × (home spares ≡ 0) }
        requires room { (size ≤ packets.room) × (2 * size ≤ spares.made) }
        ensures begun { IsBegun size result }
    {
        Reading {
            packets,
            spares,
            used: 0,
            size,
            head: None,
        }
    }

    /// Its blocks, those of its spares with them.
    pub fn blocks(&self) -> u32
        ensures blocks { result ≡ self.now.round.blocks }
    {
        self.used
    }

    /// The header of its next record, whose blocks weren't home.
    pub fn head(&self) -> Option<RecHead>
        ensures head { result ≡ self.now.head }
    {
        self.head
    }

    // Room for as many records as a round may have: for their packets, and for their spares, which move where their
    // list has fewer places.
    pub(crate) fn make_room(&mut self, alloc: Global, budget: u32) -> Result<(), AllocError>
        requires few { (length self.old.round.packets ≤ budget) × (budget ≤ 4096) }
        ensures room { OnOk result (budget ≤ self.new.size) }
        ensures same { (self.new.round.packets ≡ self.old.round.packets)
            × (self.new.round.blocks ≡ self.old.round.blocks) × (self.new.head ≡ self.old.head) }
        ensures read { AllByRecursion IsCaptured (map packet_of self.old.round.packets)
            × (self.old.round.blocks ≡ round_need (map packet_of self.old.round.packets)) }
        ensures named { (h : ℕ → ℕ) → weights_of self.new.round h ≡ weights_of self.old.round h }
    {
        if self.size >= budget {
            return Ok(());
        }
        self.packets.reserve(budget as usize - self.packets.len())?;
        let mut more = Pool::empty(alloc, 2 * budget)?;
        more.refill(&mut self.spares);
        let _none = replace(&mut self.spares, more);
        self.size = budget;
        Ok(())
    }

    /// Its records, of which no more are read.
    pub fn into_round(self) -> Round
        ensures same { result ≡ self.round }
    {
        let Reading {
            packets,
            spares,
            used,
            size: _,
            head: _,
        } = self;
        Round {
            packets,
            spares,
            blocks: used,
        }
    }
}

/// Lists for up to `budget` packets and for their spares.
pub(crate) fn make_lists(alloc: Global, budget: u32) -> Result<(Packets, Pool), AllocError>
    requires few { budget ≤ 4096 }
    ensures none { IfOk result (λ lists. (lists.0.items ≡ []) × (home lists.1 ≡ 0)) }
    ensures room { IfOk result (λ lists. (budget ≤ lists.0.room) × (2 * budget ≤ lists.1.made)) }
{
    let spares = Pool::empty(alloc, 2 * budget)?;
    let packets = Packets::with_capacity(alloc, budget as usize)?;
    Ok((packets, spares))
}

/// Whether a round that ended so is worked: there was memory for it and there were blocks, which it doesn't exceed.
pub(crate) fn is_worked(end: RoundEnd) -> bool
    ensures worked { result ≡ is_worked_end end }
{
    match end {
        RoundEnd::PoolEmpty { need: _ } | RoundEnd::NoMemory | RoundEnd::GivenUp => false,
        _ => true,
    }
}

/// A round of no records, for want of memory.
pub(crate) fn no_round(alloc: Global) -> RoundRead
    ensures none { (result.round.packets ≡ []) × (result.round.spares ≡ []) × (result.round.blocks ≡ 0) }
    ensures end { result.end ≡ RoundEnd.NoMemory }
{
    RoundRead {
        round: Round {
            packets: Packets::new(alloc),
            spares: Pool::new(alloc),
            blocks: 0,
        },
        end: RoundEnd::NoMemory,
    }
}

pub(crate) fn halt_of(stop: Stop) -> Halt
    ensures halt { IsHaltOf stop result }
{
    let end = match stop {
        Stop::End => RoundEnd::End,
        Stop::Malformed(fault) => RoundEnd::Malformed(fault),
        Stop::PoolEmpty { need } => RoundEnd::PoolEmpty { need },
        Stop::ReadFault => RoundEnd::ReadFault,
        Stop::NoMemory => RoundEnd::NoMemory,
        Stop::Lacking => return Halt::Lacking,
    };
    Halt::Ended(end)
}
