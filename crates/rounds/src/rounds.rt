//! Rounds of records, over one pool of blocks.
ghost use Rattle.std.specs.Prelude.{◌≡◌, ◌+◌, ◌≤◌, ◌^◌, true, None, length, map, All, IfOk, OnOk};
ghost use Rattle.std.specs.Prelude.{ℕ, OnErr};
ghost use Rattle.std.specs.Io.KnownBytes.{Appends};
ghost use Rattle.block_pool.specs.PoolState.{weighed};
ghost use Rattle.off_io.specs.Content.{AppendsPrefix};
ghost use Rattle.off_io.specs.Faults.{HasCause};
ghost use Rattle.pcap_io.specs.declared.heads.Link.TheVariants.{Ethernet};
ghost use Rattle.pcap_io.specs.Places.{IsReady};
ghost use Rattle.pcap_io.specs.Readers.{place_of, SameLoan};
ghost use Rattle.offload_model.specs.Written.{round_records};
ghost use Rattle.gro.specs.Slots.{packet_of};
ghost use Rattle.lanes.specs.Lanes.{IsMerged};
ghost use Rattle.lanes.specs.Work.{IsPlan};
ghost use Rattle.rounds.specs.Benches.{IsAsRead};
ghost use Rattle.rounds.specs.Lanes.{worked_bytes, worked_records, IsKeptWorkOf};
ghost use Rattle.rounds.specs.Merging.{options_of};
ghost use Rattle.rounds.specs.Reading.{EndsAt};
ghost use Rattle.rounds.specs.Reads.{reader_at, ReadRound};
ghost use Rattle.rounds.specs.Weights.{weights_of, weights_left, weights_worked};

use crate::bench::Bench;
use crate::handler::RoundHandler;
use crate::intake::Intake;
use crate::round_stages::{Rest, Round, RoundEnd, RoundRead, Worked};
use crate::spares::Spares;
use block_supply::AllHome;
use lanes::{LanePlan, Works};
use off_io::{Sink, Source, WriteFault};
use pcap_io::{CaptureReader, FileHead};
use std::alloc::{AllocError, Global};
use std::marker::Model;

/// The side of rounds that reads and the one that works, which may be lent side by side: in turn blocks come home to
/// the intake. Dropping it frees the blocks that are home.
#[derive(Drop)]
pub struct Rounds {
    /// Reads rounds: it has the blocks, and alone takes any.
    pub intake: Intake,
    /// Works and writes them.
    pub bench: Bench,
    /// What became of the spares of rounds that were worked beside a reader.
    pub spares: Spares,
}

impl Model for Rounds {
    ghost use Rattle.rounds.specs.Benches.{AreOne};
    ghost use Rattle.rounds.specs.RoundsState.{RoundsState};

    ghost Value = { RoundsState };

    ghost view = { λ r. record {
      stock = r.intake.stock;
      blocks = r.intake.blocks;
      taken = r.intake.taken;
      empties = r.intake.empties;
      pauses = r.intake.pauses;
      spares = r.spares;
      budget = r.bench.budget;
      plan = r.bench.plan;
      keep = r.bench.keep;
    } };

    ghost invariant = { λ r. AreOne r.intake r.bench };
}

impl Rounds {
    /// Rounds of up to `budget` records over `blocks` blocks, whose work is divided by `plan`. Where `keep`, a clone of
    /// each packet stands beside the work of its round, for [`Worked::clones`]. All memory for blocks, for what comes
    /// back of them and for the packets of a round is taken here. Lanes take theirs in the first round, and more only
    /// where a later one has more for them; clones that are kept take more in each round.
    pub fn make(
        alloc: Global,
        blocks: u32,
        budget: u32,
        plan: LanePlan,
        keep: bool,
    ) -> Result<Rounds, AllocError>
        requires blocks { (1 ≤ blocks) × (blocks ≤ 65536) }
        requires budget { (1 ≤ budget) × (budget ≤ 4096) }
        requires plan { IsPlan plan }
        ensures made { IfOk result (λ rounds. rounds ≡ record {
          stock = rounds.stock;
          blocks = blocks;
          taken = 0;
          empties = 0;
          pauses = 0;
          spares = record { lent = 0; given = 0; refused = 0 };
          budget = budget;
          plan = plan;
          keep = keep;
        }) }
        ensures stock { IfOk result (λ rounds. length rounds.stock ≡ blocks) }
    {
        let intake = Intake::make(alloc, blocks, budget)?;
        let bench = Bench::make(alloc, blocks, budget, plan, keep)?;
        Ok(Rounds {
            intake,
            bench,
            spares: Spares::none(),
        })
    }

    /// The blocks that are home.
    pub fn home(&self) -> u32
        ensures home { result ≡ length self.now.stock }
        ensures within { result ≤ self.now.blocks }
    {
        self.intake.home()
    }

    /// The blocks that were taken, from the first round on. It stays at `2^64 - 1`.
    pub fn taken(&self) -> u64
        ensures value { result ≡ self.now.taken }
    {
        self.intake.taken()
    }

    /// How often a take found no list of blocks while a round was read beside the work of another: each time that a
    /// read was paused, at least. It stays at `2^64 - 1`.
    pub fn empties(&self) -> u64
        ensures value { result ≡ self.now.empties }
    {
        self.intake.empties()
    }

    /// How often a round that was read beside the work of others was paused by [`Intake::read_beside`], to be read on
    /// once they had ended. It stays at `2^64 - 1`.
    pub fn pauses(&self) -> u64
        ensures value { result ≡ self.now.pauses }
    {
        self.intake.pauses()
    }

    /// What became of the spares of rounds that were worked beside a reader: as many went back meanwhile as these
    /// rounds had, unless a put found no place.
    pub fn spares(&self) -> Spares
        ensures value { result ≡ self.now.spares }
    {
        self.spares
    }

    /// The blocks that were made.
    pub fn blocks(&self) -> u32
        ensures blocks { result ≡ self.now.blocks }
        ensures few { result ≤ 65536 }
    {
        self.intake.blocks()
    }

    /// The queues and taps that a round's work is divided by.
    pub fn lanes(&self) -> u32
        ensures count { result ≡ self.now.plan.queues + self.now.plan.taps }
        ensures few { result ≤ 72 }
    {
        self.bench.lanes()
    }

    /// How the work of each round is divided.
    pub fn plan(&self) -> &LanePlan
        ensures plan { result.now ≡ self.now.plan }
        ensures lawful { IsPlan self.now.plan }
    {
        self.bench.plan()
    }

    /// Reads the next `budget` records, or fewer where the capture ends, is refused or its source fails, where the
    /// round would need more blocks than there are, or for want of memory. A record that isn't given leaves no block
    /// out.
    pub fn read_round<S: Source>(&mut self, reader: &mut CaptureReader<'_, S>) -> RoundRead
        requires ready { IsReady (place_of reader.old) }
        requires link { (place_of reader.old).link ≡ Ethernet }
        requires home { length self.old.stock ≡ self.old.blocks }
        ensures same_source { SameLoan reader.old reader.new }
        ensures read { ReadRound self.old.blocks self.old.budget (reader_at S.left S.faults reader.old self.old.taken)
            (reader_at S.left S.faults reader.new self.new.taken) result }
        ensures home { length self.new.stock + result.round.blocks ≡ self.old.blocks }
        ensures named { (h : ℕ → ℕ) → weighed h self.new.stock + weights_of result.round h ≡ weighed h self.old.stock }
        ensures same { (self.new.blocks ≡ self.old.blocks) × (options_of self.new ≡ options_of self.old)
            × (self.new.keep ≡ self.old.keep) }
        ensures counts { (self.new.empties ≡ self.old.empties) × (self.new.pauses ≡ self.old.pauses)
            × (self.new.spares ≡ self.old.spares) }
        ensures budget { (1 ≤ self.old.budget) × (self.old.budget ≤ 4096) }
        ensures least { self.old.taken ≤ self.new.taken }
        ensures most { self.new.taken ≤ self.old.taken + self.old.blocks }
        ensures stands { EndsAt result.end (place_of reader.new) }
    {
        let mut round = match self.bench.begin() {
            Ok(round) => round,
            Err(_) => return self.intake.read_none(),
        };
        let halt = self.intake.read(reader, &mut AllHome::new(), &mut round);
        let (round, end) = (round.into_round(), halt.end());
        RoundRead { round, end }
    }

    /// Works a round: queue by queue what the runs of its flows come to, in the order of their first packets, and tap
    /// by tap the windows of what is shown of the packets as they were read. Whoever works runs the lanes, and each
    /// lane passes its gate at point 0 before its work and at point 1 after it; one lane alone is worked here. For want
    /// of memory all blocks of the round are home.
    pub fn work_round<W: Works>(
        &mut self,
        works: &mut W,
        round: Round,
    ) -> Result<Worked, AllocError>
        requires out { length self.old.stock + round.blocks ≤ self.old.blocks }
        ensures records { IfOk result (λ worked. worked_records worked
            ≡ round_records (options_of self.old) (map packet_of round.packets)) }
        ensures checked { self.old.keep ≡ true → IfOk result
            (λ worked. IsKeptWorkOf (options_of self.old) (map packet_of round.packets) worked) }
        ensures merged { IfOk result (λ worked. All IsMerged worked.lanes.queues.items) }
        ensures worked { IfOk result (λ worked. worked.blocks ≡ round.blocks) }
        ensures same { OnOk result (self.new ≡ self.old) }
        ensures out { IfOk result (λ worked. (h : ℕ → ℕ) → weights_worked worked h ≡ weights_of round h) }
        ensures home { OnErr result ((self.new ≡ record self.old { stock = self.new.stock })
            × (length self.new.stock ≡ length self.old.stock + round.blocks)) }
        ensures named { OnErr result ((h : ℕ → ℕ) → weighed h self.new.stock
            ≡ weighed h self.old.stock + weights_of round h) }
    {
        let intake = &mut self.intake;
        let bench = &mut self.bench;
        bench.work_round(works, round, &mut intake.pool, &mut None)
    }

    /// Writes what a round came to: queue by queue what each run comes to as a record, and then tap by tap its windows.
    /// The sink isn't flushed.
    ///
    /// `WriteFault` only where the sink's count of faults rose; a prefix of the round's output was then written.
    pub fn write_round<K: Sink>(
        &self,
        worked: &Worked,
        file: &FileHead,
        sink: &mut K,
    ) -> Result<(), WriteFault>
        ensures ok { OnOk result (Appends (K.held sink.old) (K.held sink.new)
            (worked_bytes file.now.order worked.now)) }
        ensures err { OnErr result (AppendsPrefix (K.held sink.old) (K.held sink.new)
            (worked_bytes file.now.order worked.now)) }
        ensures cause { HasCause (K.faults sink.old) (K.faults sink.new) result }
    {
        self.bench.write_round(worked, file, sink)
    }

    /// Gives a round up. Its blocks go home, all of them.
    pub fn drop_round(&mut self, round: Round)
        requires out { length self.old.stock + round.blocks ≤ self.old.blocks }
        ensures home { (self.new ≡ record self.old { stock = self.new.stock })
            × (length self.new.stock ≡ length self.old.stock + round.blocks) }
        ensures named { (h : ℕ → ℕ) → weighed h self.new.stock ≡ weighed h self.old.stock + weights_of round h }
    {
        let intake = &mut self.intake;
        let bench = &mut self.bench;
        bench.drop_round(round, &mut intake.pool);
    }

    /// What is left of a round that memory was refused for goes home, all of its blocks.
    pub fn bring_rest(&mut self, rest: Rest)
        requires out { length self.old.stock + rest.blocks ≤ self.old.blocks }
        ensures home { (self.new ≡ record self.old { stock = self.new.stock })
            × (length self.new.stock ≡ length self.old.stock + rest.blocks) }
        ensures named { (h : ℕ → ℕ) → weighed h self.new.stock ≡ weighed h self.old.stock + weights_left rest h }
    {
        let intake = &mut self.intake;
        let bench = &mut self.bench;
        bench.bring(rest, &mut intake.pool);
    }

    /// Ends a round that was worked. Its blocks go home, all of them.
    pub fn end_round(&mut self, worked: Worked)
        requires out { length self.old.stock + worked.blocks ≤ self.old.blocks }
        ensures home { (self.new ≡ record self.old { stock = self.new.stock })
            × (length self.new.stock ≡ length self.old.stock + worked.blocks) }
        ensures named { (h : ℕ → ℕ) → weighed h self.new.stock ≡ weighed h self.old.stock + weights_worked worked h }
    {
        let intake = &mut self.intake;
        let bench = &mut self.bench;
        bench.end_round(worked, &mut intake.pool);
    }

    /// Handles a round that was read, behind `number` others: its blocks come home here.
    pub fn handle<W: Works, T, E, H: RoundHandler<T, E>>(
        &mut self,
        works: &mut W,
        handler: &H,
        read: RoundRead,
        number: u64,
        into: &mut T,
    ) -> Option<E>
        requires out { length self.old.stock + read.round.blocks ≤ self.old.blocks }
        requires read { IsAsRead read.round }
        requires ready { (n : ℕ) × (n ≤ 2 ^ 32) × H.ready (options_of self.old) self.old.keep n into.old }
        ensures did { H.did handler.now (options_of self.old) into.old into.new read number result }
        ensures full { result ≡ None → read.end ≡ RoundEnd.Full }
        ensures ready { (n : ℕ) → H.ready (options_of self.old) self.old.keep n into.old
            → H.ready (options_of self.old) self.old.keep (n + length read.round.packets) into.new }
        ensures home { (self.new ≡ record self.old { stock = self.new.stock })
            × (length self.new.stock ≡ length self.old.stock + read.round.blocks) }
        ensures named { (h : ℕ → ℕ) → weighed h self.new.stock ≡ weighed h self.old.stock + weights_of read.round h }
    {
        let intake = &mut self.intake;
        let bench = &mut self.bench;
        let home = &mut intake.pool;
        handler.handle(works, bench, home, &mut None, read, number, into)
    }
}
