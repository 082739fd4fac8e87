//! Works a round: its packets are merged in lanes.
ghost use Rattle.std.specs.Prelude.{◌⊎◌, ◌≡◌, ℕ, ◌+◌, ◌≤◌, true, false, [], map, IfOk, IfErr, IsOk, OnOk};
ghost use Rattle.std.specs.Prelude.{MatchResult, length};
ghost use Rattle.std.specs.List.{AllByRecursion};
ghost use Rattle.offload_model.specs.Captured.{IsCaptured};
ghost use Rattle.block_weight.specs.WeightRule.{full_weight};
ghost use Rattle.frags.specs.Account.{Keeps, KeepsBlocks, both};
ghost use Rattle.gro.specs.Slots.{packet_of, of_packets, counts_of, weighed_slots, AreHeld, AreShared, WeighAtLeast};
ghost use Rattle.taps.specs.Clones.{packet_of as packet_of_clone, blocks_of, of_clones};
ghost use Rattle.lanes.specs.Clones.{AreAfter};
ghost use Rattle.lanes.specs.Lanes.{weighed_queues};
ghost use Rattle.block_pool.specs.PoolState.{weighed};
ghost use Rattle.rounds.specs.Benches.{options_at, GivesSpares, IsLent, LeavesNoSpare, LendsWork};
ghost use Rattle.reading.specs.Laid.{AreRead, LaidFrom};
ghost use Rattle.rounds.specs.Prepared.{ArePrepared, IsPrepared, IsWorkDone, IsWorkLeft, IsOfLanes};
ghost use Rattle.rounds.specs.Lanes.{IsAloneWork, WorksAs};
ghost use Rattle.rounds.specs.Weights.{weights_of, weights_worked, weights_left};

use crate::bench::Bench;
use crate::giving_back::swap_list;
use crate::round_stages::{Rest, Round, Worked};
use block_pool::{Giver, Pool};
use core::mem::replace;
use gro::Packets;
use lanes::{Lanes, Works, keep_packets, work_packets};
use std::alloc::AllocError;
use taps::TapClone;

// A round before the work of its lanes: its packets, and a clone of each where they are kept.
struct Prepared {
    packets: Packets,
    clones: Vec<TapClone>,
    spares: Pool,
    shared: bool,
    blocks: u32,
}

// A clone of each packet, if that is wanted.
fn keep_if(keep: bool, packets: &mut Packets, clones: &mut Vec<TapClone>) -> Result<(), AllocError>
    requires held { AreHeld packets.old.items }
    requires shared { AreShared packets.old.items }
    requires whole { WeighAtLeast full_weight packets.old.items }
    requires none { clones.old.items ≡ [] }
    ensures after { AreAfter 1 packets.old.items packets.new.items }
    ensures kept { Keeps (of_packets packets.old.items)
        (both (of_packets packets.new.items) (of_clones clones.new.items)) }
    ensures blocks { KeepsBlocks (of_packets packets.old.items)
        (both (of_packets packets.new.items) (of_clones clones.new.items)) }
    ensures fewer { blocks_of clones.new.items ≤ counts_of packets.old.items }
    ensures all { OnOk result (keep ≡ true → map packet_of_clone clones.new.items ≡ map packet_of packets.old.items) }
    ensures unkept { keep ≡ false → (clones.new.items ≡ []) × (packets.new.items ≡ packets.old.items) }
{
    if !keep {
        return Ok(());
    }
    keep_packets(packets, clones)
}

// The heads of packets are shared where others are to hold blocks of them. Else nobody but the packets holds a block.
fn share_if(
    shared: bool,
    keep: bool,
    packets: &mut Packets,
    clones: &mut Vec<TapClone>,
) -> Result<(), AllocError>
    requires laid { LaidFrom 0 packets.old.items }
    requires read { AreRead packets.old.items }
    requires captured { AllByRecursion IsCaptured (map packet_of packets.old.items) }
    requires wanted { keep ≡ true → shared ≡ true }
    requires none { clones.old.items ≡ [] }
    ensures prepared { ArePrepared shared packets.old.items packets.new.items clones.new.items }
    ensures all { OnOk result (keep ≡ true → map packet_of_clone clones.new.items ≡ map packet_of packets.old.items) }
{
    if !shared {
        return Ok(());
    }
    packets.share_heads();
    keep_if(keep, packets, clones)
}

impl Bench {
    // Whether others are to hold blocks of a round: who compares it with its clones, or taps that don't read it here.
    fn is_shared<W: Works>(&self, works: &W, packets: &Packets) -> bool
        ensures keep { self.now.keep ≡ true → result ≡ true }
        ensures only { result ≡ true → (self.now.keep ≡ true) ⊎ (1 ≤ self.now.plan.taps) }
    {
        self.keep || self.plan.taps != 0 && !works.reads_here(packets)
    }

    // Heads are shared and a clone of each packet is kept, if that is wanted.
    fn prepare<W: Works>(&mut self, works: &W, round: Round) -> Result<Prepared, Rest>
        requires few { round.blocks ≤ self.old.blocks }
        ensures prepared { IfOk result (λ k. IsPrepared self.old.keep self.old.plan.taps (map packet_of round.packets)
            round.blocks k) }
        ensures named { IfOk result (λ k. (h : ℕ → ℕ) → weighed_slots h k.packets.items + weighed h k.spares.blocks
            ≡ weights_of round h) }
        ensures spares { IfOk result (λ k. k.spares.blocks ≡ round.spares) }
        ensures rest { IfErr result (λ rest. rest.blocks ≡ round.blocks) }
        ensures named_back { IfErr result (λ rest. (h : ℕ → ℕ) → weights_left rest h ≡ weights_of round h) }
        ensures same { self.new ≡ self.old }
    {
        let Round {
            mut packets,
            spares,
            blocks,
        } = round;
        let shared = self.is_shared(works, &packets);
        let mut clones = Vec::new(self.alloc);
        match share_if(shared, self.keep, &mut packets, &mut clones) {
            Ok(()) => Ok(Prepared {
                packets,
                clones,
                spares,
                shared,
                blocks,
            }),
            Err(_) => Err(Rest {
                packets,
                lanes: self.take_lanes(),
                clones,
                spares,
                shared,
                blocks,
            }),
        }
    }

    // What the lanes came to.
    fn settle(
        &mut self,
        prepared: Prepared,
        lanes: Lanes,
        done: Result<(), AllocError>,
    ) -> Result<Worked, Rest>
        requires lanes { MatchResult done (λ _. IsWorkDone prepared lanes) (λ _. IsWorkLeft prepared lanes) }
        ensures worked { IfOk result (IsOfLanes done lanes prepared.clones.items prepared.blocks) }
        ensures named { IfOk result (λ worked. (h : ℕ → ℕ) → weights_worked worked h
            ≡ weighed_slots h prepared.packets.items + weighed_queues h lanes.queues.items
            + weighed h prepared.spares.blocks) }
        ensures spares { IfOk result (λ worked. IsOk done × (worked.spares ≡ prepared.spares.blocks)) }
        ensures rest { IfErr result (λ rest. rest.blocks ≡ prepared.blocks) }
        ensures named_back { IfErr result (λ rest. (h : ℕ → ℕ) → weights_left rest h
            ≡ weighed_slots h prepared.packets.items + weighed_queues h lanes.queues.items
            + weighed h prepared.spares.blocks) }
        ensures same { self.new ≡ self.old }
    {
        let Prepared {
            packets,
            clones,
            spares,
            shared,
            blocks,
        } = prepared;
        match done {
            Ok(()) => {
                replace(&mut self.packets, packets).discard();
                Ok(Worked {
                    lanes,
                    clones,
                    spares,
                    shared,
                    blocks,
                })
            }
            Err(_) => Err(Rest {
                packets,
                lanes,
                clones,
                spares,
                shared,
                blocks,
            }),
        }
    }

    /// Works a round, or gives back what is left of it, for want of memory. Spares that went to others by the giver are
    /// no blocks of the round any more. By who gives all of them went, unless a put found no place.
    pub(crate) fn work<W: Works>(
        &mut self,
        works: &mut W,
        round: Round,
        giver: &mut Option<Giver>,
    ) -> Result<Worked, Rest>
        requires few { round.blocks ≤ self.old.blocks }
        requires lent { IsLent giver.old }
        ensures works { WorksAs (options_at self.old) self.old.keep (map packet_of round.packets) result }
        ensures alone { self.old.keep ≡ false → self.old.plan.taps ≡ 0 → IfOk result IsAloneWork }
        ensures lends { LendsWork round.blocks (weights_of round) giver.old giver.new result }
        ensures none_left { W.gives ≡ true
            → IfOk result (λ worked. LeavesNoSpare giver.old giver.new worked.spares) }
        ensures gives_spares { W.gives ≡ true
            → IfOk result (λ _. GivesSpares (length round.spares) giver.old giver.new) }
        ensures same { self.new ≡ self.old }
    {
        let mut prepared = self.prepare(works, round)?;
        let mut lanes = self.take_lanes();
        let before = prepared.spares.home();
        swap_list(giver, &mut prepared.spares);
        let done = work_packets(
            works,
            self.alloc,
            &mut prepared.packets,
            &self.plan,
            prepared.shared,
            &mut lanes,
            giver,
        );
        swap_list(giver, &mut prepared.spares);
        prepared.blocks -= before - prepared.spares.home();
        self.settle(prepared, lanes, done)
    }
}
