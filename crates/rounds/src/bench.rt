//! The side of rounds that works.
ghost use Rattle.std.specs.Prelude.{◌≡◌, ◌+◌, ◌*◌, ◌≤◌, true, false, [], length, map, All};
ghost use Rattle.std.specs.Prelude.{ℕ, IfOk, OnOk, OnErr};
ghost use Rattle.std.specs.Io.KnownBytes.{Appends};
ghost use Rattle.block_pool.specs.Giving.{given_by, weights_given};
ghost use Rattle.block_pool.specs.PoolState.{home};
ghost use Rattle.off_io.specs.Content.{AppendsPrefix};
ghost use Rattle.off_io.specs.Faults.{HasCause};
ghost use Rattle.offload_model.specs.Written.{round_records};
ghost use Rattle.gro.specs.Slots.{packet_of};
ghost use Rattle.lanes.specs.Lanes.{AreIdle, IsMerged};
ghost use Rattle.lanes.specs.Work.{IsPlan};
ghost use Rattle.rounds.specs.Benches.{options_at, Brings, BringsBeside, GivesSpares, IsLent, IsSameBench};
ghost use Rattle.rounds.specs.Benches.{LeavesNoSpare, Lends, MayBring, WorksLent};
ghost use Rattle.rounds.specs.Lanes.{worked_bytes, worked_records, IsAloneWork, IsKeptWorkOf};
ghost use Rattle.rounds.specs.RoundOf.{IsBegun};
ghost use Rattle.rounds.specs.Weights.{weights_of, weights_worked, weights_left};

use crate::mark_table::MarkState;
use crate::memory::{close_places, open_places, place_spares};
use crate::round_home::bring_out;
use crate::round_stages::{Reading, Rest, Round, RoundRead, Worked, make_lists, no_round};
use crate::writing::write_lanes;
use block_pool::{Giver, Pool};
use core::mem::replace;
use frags::Outcomes;
use gro::Packets;
use lanes::{LanePlan, Lanes, Works};
use off_io::{Sink, WriteFault};
use pcap_io::FileHead;
use std::alloc::{AllocError, Global};
use std::marker::Model;

/// What rounds are worked with: it holds no block between them, and blocks come home to whoever is told. Memory is kept
/// from round to round.
pub struct Bench {
    /// Where the memory of later rounds comes from.
    pub(crate) alloc: Global,
    // What came back, and where: used as a round ends. There are places for all blocks and for a clone's part of each.
    places: Vec<MarkState>,
    /// What packets, clones and taps give back as a round ends; empty between rounds.
    out: Outcomes,
    // Memory alone.
    pub(crate) packets: Packets,
    spares: Pool,
    // Idle between rounds. Those of a round that was worked are away until it ends.
    lanes: Lanes,
    /// How many records a round may have, at most 4096.
    budget: u32,
    /// How a round's work is divided, and what queues and taps are told.
    pub(crate) plan: LanePlan,
    // Whether a clone of each packet is kept beside the work of a round.
    pub(crate) keep: bool,
}

impl Model for Bench {
    ghost use Rattle.std.specs.Prelude.{◌≡◌, ◌≤◌, [], length};
    ghost use Rattle.block_pool.specs.PoolState.{home};
    ghost use Rattle.frags.specs.OutcomesState.{IsBare};
    ghost use Rattle.lanes.specs.Lanes.{AreIdle};
    ghost use Rattle.lanes.specs.Work.{IsPlan};
    ghost use Rattle.rounds.specs.RoundsState.{BenchState};
    ghost use Rattle.rounds.specs.Table.{AllOpen};

    ghost Value = { BenchState };

    ghost view = { λ b. record {
      room = b.out.spare;
      blocks = length b.places.items;
      budget = b.budget;
      plan = b.plan;
      keep = b.keep;
    } };

    ghost invariant = { λ b. (length b.places.items ≤ 65536) × AllOpen b.places.items × IsBare b.out
        × (b.packets.items ≡ []) × AreIdle b.lanes × IsPlan b.plan × (home b.spares ≡ 0) × (b.budget ≤ 4096) };
}

impl Drop for Bench {
    fn drop(self) {
        let Bench {
            alloc: _,
            places,
            out,
            packets,
            spares: _spares,
            lanes,
            budget: _,
            plan: _plan,
            keep: _,
        } = self;
        close_places(places);
        out.settle();
        packets.discard();
        lanes.free();
    }
}

impl Bench {
    /// For rounds of up to `budget` records over so many blocks.
    pub(crate) fn make(
        alloc: Global,
        blocks: u32,
        budget: u32,
        plan: LanePlan,
        keep: bool,
    ) -> Result<Bench, AllocError>
        requires blocks { blocks ≤ 65536 }
        requires budget { budget ≤ 4096 }
        requires plan { IsPlan plan }
        ensures made { IfOk result (λ bench. (bench ≡ record {
          room = bench.room;
          blocks = blocks;
          budget = budget;
          plan = plan;
          keep = keep;
        }) × (blocks + blocks ≤ bench.room)) }
    {
        let places = open_places(alloc, blocks)?;
        let out = match Outcomes::with_room(alloc, 2 * blocks as usize) {
            Ok(out) => out,
            Err(error) => {
                close_places(places);
                return Err(error);
            }
        };
        let (packets, spares) = match make_lists(alloc, budget) {
            Ok(lists) => lists,
            Err(error) => {
                close_places(places);
                out.settle();
                return Err(error);
            }
        };
        Ok(Bench {
            alloc,
            places,
            out,
            packets,
            spares,
            lanes: Lanes::new(alloc),
            budget,
            plan,
            keep,
        })
    }

    /// The blocks that may be out.
    pub fn blocks(&self) -> u32
        ensures blocks { result ≡ self.now.blocks }
        ensures few { result ≤ 65536 }
    {
        self.places.len() as u32
    }

    /// The queues and taps that a round's work is divided by.
    pub fn lanes(&self) -> u32
        ensures count { result ≡ self.now.plan.queues + self.now.plan.taps }
        ensures few { result ≤ 72 }
    {
        self.plan.queues + self.plan.taps
    }

    /// How the work of each round is divided.
    pub fn plan(&self) -> &LanePlan
        ensures plan { result.now ≡ self.now.plan }
        ensures lawful { IsPlan self.now.plan }
    {
        &self.plan
    }

    /// Where its memory comes from.
    pub fn alloc(&self) -> Global {
        self.alloc
    }

    /// Room for what may be given back of all blocks, before others are read. In fact it is there since the bench was
    /// made; that it stays isn't said of a list that is emptied.
    pub fn make_room(&mut self) -> Result<(), AllocError>
        ensures room { OnOk result (self.new.blocks + self.new.blocks ≤ self.new.room) }
        ensures later { self.old.room ≤ self.new.room }
        ensures same { IsSameBench self.old self.new }
    {
        self.out.reserve(2 * self.places.len())
    }

    /// The same, and a round is begun, in the memory of those before it.
    pub fn begin(&mut self) -> Result<Reading, AllocError>
        ensures begun { IfOk result (IsBegun self.old.budget) }
        ensures room { OnOk result (self.new.blocks + self.new.blocks ≤ self.new.room) }
        ensures later { self.old.room ≤ self.new.room }
        ensures same { IsSameBench self.old self.new }
    {
        self.make_room()?;
        self.packets.reserve(self.budget as usize)?;
        place_spares(self.alloc, &mut self.spares, self.budget)?;
        let packets = replace(&mut self.packets, Packets::new(self.alloc));
        let spares = replace(&mut self.spares, Pool::new(self.alloc));
        Ok(Reading::begin(packets, spares, self.budget))
    }

    // The memory of a round's packets.
    fn take_packets(&mut self) -> Packets
        ensures none { result.items ≡ [] }
        ensures same { self.new ≡ self.old }
    {
        replace(&mut self.packets, Packets::new(self.alloc))
    }

    // The lanes, for a round: those that are kept, or none yet.
    pub(crate) fn take_lanes(&mut self) -> Lanes
        ensures idle { AreIdle result }
        ensures same { self.new ≡ self.old }
    {
        replace(&mut self.lanes, Lanes::new(self.alloc))
    }

    /// Works a round, as `work_round` of the rounds says it. Spares of it may go to others by the giver as soon as its
    /// packets are merged; the round is as many blocks smaller. By who gives (`Works::gives`) none stays with it,
    /// unless a put found no place. For want of memory all its other blocks are home.
    pub fn work_round<W: Works>(
        &mut self,
        works: &mut W,
        round: Round,
        home: &mut Pool,
        giver: &mut Option<Giver>,
    ) -> Result<Worked, AllocError>
        requires may { MayBring round.blocks self.old home.old }
        requires lent { IsLent giver.old }
        ensures records { IfOk result (λ worked. worked_records worked
            ≡ round_records (options_at self.old) (map packet_of round.packets)) }
        ensures checked { self.old.keep ≡ true → IfOk result
            (λ worked. IsKeptWorkOf (options_at self.old) (map packet_of round.packets) worked) }
        ensures merged { IfOk result (λ worked. All IsMerged worked.lanes.queues.items) }
        ensures alone { self.old.keep ≡ false → self.old.plan.taps ≡ 0 → IfOk result IsAloneWork }
        ensures worked { IfOk result (λ worked. worked.blocks + given_by giver.new ≡ round.blocks
            + given_by giver.old) }
        ensures named { IfOk result (λ worked. (h : ℕ → ℕ) → weights_worked worked h + weights_given giver.new h
            ≡ weights_of round h + weights_given giver.old h) }
        ensures same { OnOk result ((self.new ≡ self.old) × (home.new ≡ home.old)) }
        ensures brings { OnErr result (BringsBeside round.blocks (weights_of round) self.old self.new home.old home.new
            giver.old giver.new) }
        ensures gave { Lends giver.old giver.new }
        ensures none_left { W.gives ≡ true
            → IfOk result (λ worked. LeavesNoSpare giver.old giver.new worked.spares) }
        ensures gives_spares { W.gives ≡ true
            → IfOk result (λ _. GivesSpares (length round.spares) giver.old giver.new) }
    {
        match self.work(works, round, giver) {
            Ok(worked) => Ok(worked),
            Err(rest) => {
                self.bring(rest, home);
                Err(AllocError)
            }
        }
    }

    /// Works the round that lies there, beside the side that reads: spares of it go there by the giver. The runtime
    /// goes with it as with that side.
    pub fn work_lent<R: Sync, W: Works>(
        &mut self,
        _rt: &R,
        works: &mut W,
        round: &mut Round,
        giver: &mut Option<Giver>,
    ) -> Result<Worked, Rest>
        requires few { round.old.blocks ≤ self.old.blocks }
        requires lent { IsLent giver.old }
        ensures works { WorksLent W.gives self.old self.new round.old round.new giver.old giver.new result }
        ensures alone { self.old.keep ≡ false → self.old.plan.taps ≡ 0 → IfOk result IsAloneWork }
    {
        let RoundRead {
            round: none,
            end: _,
        } = no_round(self.alloc);
        let lent = replace(round, none);
        self.work(works, lent, giver)
    }

    /// Writes what a round came to, as `write_round` of the rounds says it.
    pub fn write_round<K: Sink>(
        &self,
        worked: &Worked,
        file: &FileHead,
        sink: &mut K,
    ) -> Result<(), WriteFault>
        ensures ok { OnOk result (Appends (K.held sink.old) (K.held sink.new)
            (worked_bytes file.now.order worked.now)) }
        ensures err { OnErr result (AppendsPrefix (K.held sink.old) (K.held sink.new)
            (worked_bytes file.now.order worked.now)) }
        ensures cause { HasCause (K.faults sink.old) (K.faults sink.new) result }
    {
        write_lanes(sink, file, &worked.lanes)
    }

    /// Ends a round that was worked. Its blocks go home, all of them.
    pub fn end_round(&mut self, worked: Worked, home: &mut Pool)
        requires may { MayBring worked.blocks self.old home.old }
        ensures brings { Brings worked.blocks (weights_worked worked) self.old self.new home.old home.new }
    {
        let Worked {
            lanes,
            clones,
            spares,
            shared,
            blocks,
        } = worked;
        let rest = Rest {
            packets: self.take_packets(),
            lanes,
            clones,
            spares,
            shared,
            blocks,
        };
        self.bring(rest, home);
    }

    /// Gives a round up. Its blocks go home, all of them.
    pub fn drop_round(&mut self, round: Round, home: &mut Pool)
        requires may { MayBring round.blocks self.old home.old }
        ensures brings { Brings round.blocks (weights_of round) self.old self.new home.old home.new }
    {
        let Round {
            packets,
            spares,
            blocks,
        } = round;
        let lanes = self.take_lanes();
        let rest = Rest {
            packets,
            lanes,
            clones: Vec::new(self.alloc),
            spares,
            shared: false,
            blocks,
        };
        self.bring(rest, home);
    }

    /// What is left of a round goes home. Its lanes and its lists stay as memory.
    pub(crate) fn bring(&mut self, rest: Rest, home: &mut Pool)
        requires may { MayBring rest.blocks self.old home.old }
        ensures brings { Brings rest.blocks (weights_left rest) self.old self.new home.old home.new }
    {
        let Rest {
            mut packets,
            mut lanes,
            clones,
            mut spares,
            shared,
            blocks,
        } = rest;
        let out = blocks - spares.home();
        bring_out(
            shared,
            home,
            &mut self.places,
            out,
            &mut self.out,
            &mut packets,
            &mut lanes,
            clones,
        );
        home.refill(&mut spares);
        replace(&mut self.packets, packets).discard();
        replace(&mut self.lanes, lanes).free();
        self.spares = spares;
    }
}
