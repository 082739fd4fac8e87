//! The side of rounds that reads.
ghost use Rattle.std.specs.Prelude.{◌≡◌, ◌+◌, ◌-◌, ◌<◌, ◌≤◌, ◌^◌, [], length, map, min, IfOk, OnOk};
ghost use Rattle.std.specs.Prelude.{ℕ, ⊤};
ghost use Rattle.std.specs.List.{AllByRecursion};
ghost use Rattle.block_pool.specs.PoolState.{home, weighed};
ghost use Rattle.off_io.specs.Told.{Told};
ghost use Rattle.pcap_io.specs.declared.heads.Link.TheVariants.{Ethernet};
ghost use Rattle.pcap_io.specs.declared.place.Place.{Place};
ghost use Rattle.pcap_io.specs.Readers.{place_of, source_of, SameLoan};
ghost use Rattle.offload_model.specs.Need.{round_need};
ghost use Rattle.offload_model.specs.Captured.{IsCaptured};
ghost use Rattle.gro.specs.Slots.{packet_of};
ghost use Rattle.rounds.specs.Filling.{reached, Fills, Reached, Stands};
ghost use Rattle.rounds.specs.Weights.{weights_of};
ghost use Rattle.rounds.specs.RoundOf.{brought_by, Came, Grows, IsBegun};

use crate::round_reading::read_more;
use crate::round_stages::{Halt, Reading, RoundEnd, RoundRead, make_lists, no_round};
use block_pool::Pool;
use block_supply::{RECORD_BLOCKS, Supply};
use off_io::Source;
use pcap_io::CaptureReader;
use raw_block::Sole;
use std::alloc::{AllocError, Global};
use std::collections::VecDeque;
use std::marker::Model;

/// The blocks of rounds, and who reads into them. Dropping it frees the blocks that are home.
#[derive(Drop)]
pub struct Intake {
    /// Where the memory for lists of packets and pieces comes from.
    alloc: Global,
    /// The blocks that are home. Its `made` counts those that are out too.
    pub(crate) pool: Pool,
    // The blocks of the record that is being read.
    hold: VecDeque<Sole>,
    // How often a take found no list while a round was read beside work.
    pub(crate) empties: u64,
    // How often a round that was read beside others was paused.
    pub(crate) pauses: u64,
    /// How many records a round may have, from 1 to 4096.
    budget: u32,
}

impl Model for Intake {
    ghost use Rattle.std.specs.Prelude.{◌≤◌};
    ghost use Rattle.std.specs.VecDeque.{deque_capacity};
    ghost use Rattle.rounds.specs.RoundOf.{IsHold};
    ghost use Rattle.rounds.specs.RoundsState.{IntakeState};

    ghost Value = { IntakeState };

    ghost view = { λ i. record {
      stock = i.pool.blocks;
      blocks = i.pool.made;
      taken = i.pool.taken;
      empties = i.empties;
      pauses = i.pauses;
      budget = i.budget;
    } };

    ghost invariant = { λ i. (i.pool.made ≤ 65536) × IsHold i.hold.items (deque_capacity i.hold)
        × (1 ≤ i.budget) × (i.budget ≤ 4096) };
}

impl Intake {
    /// Of `blocks` new blocks, all home, for rounds of up to `budget` records.
    pub(crate) fn make(alloc: Global, blocks: u32, budget: u32) -> Result<Intake, AllocError>
        requires blocks { blocks ≤ 65536 }
        requires budget { (1 ≤ budget) × (budget ≤ 4096) }
        ensures made { IfOk result (λ intake. (intake ≡ record {
          stock = intake.stock;
          blocks = blocks;
          taken = 0;
          empties = 0;
          pauses = 0;
          budget = budget;
        }) × (length intake.stock ≡ blocks)) }
    {
        let hold = VecDeque::with_capacity(alloc, RECORD_BLOCKS)?;
        let pool = Pool::make(alloc, blocks)?;
        Ok(Intake {
            alloc,
            pool,
            hold,
            empties: 0,
            pauses: 0,
            budget,
        })
    }

    /// The blocks that are home.
    pub fn home(&self) -> u32
        ensures home { result ≡ length self.now.stock }
        ensures within { result ≤ self.now.blocks }
    {
        self.pool.home()
    }

    /// The blocks that were made.
    pub fn blocks(&self) -> u32
        ensures blocks { result ≡ self.now.blocks }
        ensures few { result ≤ 65536 }
    {
        self.pool.made()
    }

    /// The blocks that were taken, by reading alone. It stays at `2^64 - 1`.
    pub fn taken(&self) -> u64
        ensures value { result ≡ self.now.taken }
    {
        self.pool.taken()
    }

    /// How often a take found no list of blocks while a round was read beside the work of another. It stays at
    /// `2^64 - 1`.
    pub fn empties(&self) -> u64
        ensures value { result ≡ self.now.empties }
    {
        self.empties
    }

    /// How often a round was paused by `read_beside`. It stays at `2^64 - 1`.
    pub fn pauses(&self) -> u64
        ensures value { result ≡ self.now.pauses }
    {
        self.pauses
    }

    /// Begins a round: lists that have room for its packets and for their spares.
    pub fn begin(&self) -> Result<Reading, AllocError>
        ensures begun { IfOk result (IsBegun self.now.budget) }
        ensures budget { (1 ≤ self.now.budget) × (self.now.budget ≤ 4096) }
    {
        let (packets, spares) = make_lists(self.alloc, self.budget)?;
        Ok(Reading::begin(packets, spares, self.budget))
    }

    /// A round of no records, for want of memory.
    pub fn read_none(&self) -> RoundRead
        ensures none { (result.round.packets ≡ []) × (result.round.spares ≡ []) × (result.round.blocks ≡ 0) }
        ensures end { result.end ≡ RoundEnd.NoMemory }
        ensures budget { (1 ≤ self.now.budget) × (self.now.budget ≤ 4096) }
    {
        no_round(self.alloc)
    }

    /// Blocks that were out come home on a list. None is taken.
    pub fn bring_in(&mut self, list: Pool)
        requires room { length self.old.stock + home list ≤ self.old.blocks }
        ensures home { (self.new ≡ record self.old { stock = self.new.stock })
            × (length self.new.stock ≡ length self.old.stock + home list) }
        ensures named { (h : ℕ → ℕ) → weighed h self.new.stock ≡ weighed h self.old.stock + weighed h list.blocks }
    {
        let mut list = list;
        self.pool.refill(&mut list);
    }

    /// Blocks that were out come home before a round is read, for which none is needed yet. None is taken.
    pub fn bring_more<H: Supply>(&mut self, more: &mut H)
        ensures named { (h : ℕ → ℕ) → weighed h self.new.stock + H.weights more.old h
            ≡ weighed h self.old.stock + H.weights more.new h }
        ensures same { (self.new.blocks ≡ self.old.blocks) × (self.new.taken ≡ self.old.taken)
            × (self.new.budget ≡ self.old.budget) × (self.new.empties ≡ self.old.empties)
            × (self.new.pauses ≡ self.old.pauses) }
        ensures looked { length self.new.stock ≡ length self.old.stock → length self.old.stock < self.old.blocks
            → min (H.refusals more.old + 1) (2 ^ 64 - 1) ≤ H.refusals more.new }
        ensures asked { H.refusals more.old ≤ H.refusals more.new }
    {
        more.look(&mut self.pool);
    }

    /// Reads on in a round, behind the records that it has, and behind the header of its next one where that is kept:
    /// until it has as many as it may have, or no more. Blocks that a record needs are brought once its header was
    /// taken. Where they aren't home and don't come that is `Lacking`: the header is kept, and the next call goes on
    /// behind it. What is said of the round is said of wherever it began (`fills`).
    pub fn read<S: Source, H: Supply>(
        &mut self,
        reader: &mut CaptureReader<'_, S>,
        more: &mut H,
        round: &mut Reading,
    ) -> Halt
        requires stands { (start : Reached) × ((from : Place)
            × Stands start from (reached S.left S.faults reader.old) round.old.head round.old.round.packets) }
        requires link { (place_of reader.old).link ≡ Ethernet }
        requires fewer { length round.old.round.packets < self.old.budget }
        requires room { self.old.budget ≤ round.old.size }
        requires within { round.old.round.blocks ≤ self.old.blocks }
        ensures same_source { SameLoan reader.old reader.new }
        ensures tells { Told (S.left (source_of reader.old)) (S.left (source_of reader.new)) (λ _ _. ⊤) }
        ensures fills { (start : Reached) → (from : Place)
            → Stands start from (reached S.left S.faults reader.old) round.old.head round.old.round.packets
            → Fills self.old.blocks self.old.budget start from (reached S.left S.faults reader.new) round.new.head
            round.new.round.packets result }
        ensures grows { Grows self.old.blocks self.old.budget self.old.taken self.new.taken (length self.new.stock)
            round.old.round.blocks round.new.round.packets round.new.round.blocks round.new.head
            (place_of reader.new) result }
        ensures refused { result ≡ Halt.Lacking
            → min (H.refusals more.old + 1) (2 ^ 64 - 1) ≤ H.refusals more.new }
        ensures captured { AllByRecursion IsCaptured (map packet_of round.new.round.packets) }
        ensures need { round.new.round.blocks ≡ round_need (map packet_of round.new.round.packets) }
        ensures came { Came (brought_by H.weights H.refusals more.old)
            (brought_by H.weights H.refusals more.new) (length self.old.stock + round.old.round.blocks)
            (length self.new.stock + round.new.round.blocks)
            (λ h. weighed h self.old.stock + weights_of round.old.round h)
            (λ h. weighed h self.new.stock + weights_of round.new.round h) }
        ensures same { (self.new.blocks ≡ self.old.blocks) × (self.new.budget ≡ self.old.budget)
            × (self.new.empties ≡ self.old.empties) × (self.new.pauses ≡ self.old.pauses) }
        ensures budget { (1 ≤ self.old.budget) × (self.old.budget ≤ 4096) }
        ensures size { round.new.size ≡ round.old.size }
    {
        let _ = self.pool.taken();
        let (used, halt) = read_more(
            self.alloc,
            &mut self.pool,
            &mut self.hold,
            reader,
            more,
            &mut round.head,
            self.budget as usize,
            &mut round.packets,
            &mut round.spares,
            round.used,
        );
        round.used = used;
        halt
    }

    /// Room in a round's lists for as many records as a round may have here, where it was begun for fewer.
    pub fn make_room(&self, round: &mut Reading) -> Result<(), AllocError>
        requires fewer { length round.old.round.packets < self.now.budget }
        ensures room { OnOk result (self.now.budget ≤ round.new.size) }
        ensures same { (round.new.round.packets ≡ round.old.round.packets)
            × (round.new.round.blocks ≡ round.old.round.blocks) × (round.new.head ≡ round.old.head) }
        ensures read { AllByRecursion IsCaptured (map packet_of round.old.round.packets)
            × (round.old.round.blocks ≡ round_need (map packet_of round.old.round.packets)) }
        ensures named { (h : ℕ → ℕ) → weights_of round.new.round h ≡ weights_of round.old.round h }
    {
        round.make_room(self.alloc, self.budget)
    }
}
