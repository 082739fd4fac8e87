//! A round's packets, run by run.
ghost use Rattle.std.specs.Prelude.{◌≡◌, ◌+◌, ◌<◌, ◌≤◌, ◌++◌, ◌∷◌, [], List, ℕ, length, map, OnOk, OnErr, IfOk, IfErr};
ghost use Rattle.std.specs.Bool.{Decides};
ghost use Rattle.pcap_io.specs.Limits.{most_frame};
ghost use Rattle.frags.specs.Account.{Keeps, both, of_outcomes};
ghost use Rattle.frags.specs.Growth.{Grows};
ghost use Rattle.block_weight.specs.WeightRule.{full_weight};
ghost use Rattle.skb.specs.SkbState.{buffer_size};
ghost use Rattle.skb.specs.Fronts.{IsFronted};
ghost use Rattle.offload_model.specs.Merged.{merged_of};
ghost use Rattle.offload_model.specs.Rounds.{runs_in};
ghost use Rattle.gro_table.specs.declared.packet.Packet.{Packet as Held};
ghost use Rattle.gro_table.specs.Held.{packet_of, of_packets, count_of, counts_of, AreShared, WeighAtLeast, IsHeld};
ghost use Rattle.gro_table.specs.Items.{item_of};
ghost use Rattle.frags.specs.OutcomesState.{IsBare};
ghost use Rattle.gro_table.specs.Table.{TableState, no_table, Received, of_runs, counts_in, AreItemsFrom};
ghost use Rattle.gro_table.specs.Table.{counts_of_items};
ghost use Rattle.gro_table.specs.Table.{of_items, KeepsTable, AreReady, ItemsWeighAtLeast};

use crate::Packet;
use crate::item::Item;
use crate::packet_list::PacketList;
use crate::shelf::Shelf;
use frags::Outcomes;
use frame_runs::Engine;
use offload_model::Limits;
use std::alloc::{AllocError, Global};
use std::marker::Model;

/// The packets of a round, run by run: one pass over them, in the order of their numbers. It must be spent: finished or
/// released.
///
/// What it has received is told by a fact of every list of packets (`Received`): its runs are theirs, and hold all of
/// them.
pub struct RoundTable {
    /// What was received in this round, with the spares.
    list: PacketList,
    /// The runs, by index in the list, and which of them is the open one of each flow.
    engine: Engine,
    /// Memory for items, which lives on from one round to the next.
    shelf: Shelf,
    /// Where the memory of places and items comes from.
    alloc: Global,
    /// How many packets this round may have.
    limit: u32,
    /// How many packets a run may have.
    segs: u32,
    /// How many packets were received in this round.
    received: u32,
    /// The least number that the next packet may have: one more than the last one's.
    above: u64,
    /// How many blocks and parts the table holds, the spares with them.
    count: usize,
}

impl Model for RoundTable {
    ghost use Rattle.std.specs.Prelude.{map};
    ghost use Rattle.gro_table.specs.Table.{TableState, IsTable};
    ghost use Rattle.gro_table.specs.Waiting.{held_in};

    ghost Value = { TableState };

    ghost view = { λ t. record {
      runs = held_in t.list t.engine;
      limit = t.limit;
      received = t.received;
      above = t.above;
      segs = t.segs;
    } };

    ghost invariant = { λ t. IsTable t.list t.engine t.limit t.received t.above t.count };
}

/// How many blocks and parts a packet holds.
fn weigh(packet: &Packet) -> usize
    requires front { IsFronted packet.now.skb }
    requires short { buffer_size packet.now.skb ≤ most_frame }
    ensures count { result ≡ count_of packet.now }
    ensures held { IsHeld packet.now }
    ensures few { result ≤ 262147 }
{
    let _ = packet.skb.len();
    packet.skb.count() + 2
}

impl RoundTable {
    /// An empty table for at most `limit` packets, in runs of at most `segs`. The memory for so many runs and flows is
    /// taken here.
    pub fn make(alloc: Global, limit: u32, segs: u32) -> Result<RoundTable, AllocError>
        ensures received { IfOk result (λ t. Received [] t) }
        ensures none { IfOk result (λ t. t.runs ≡ []) }
        ensures limit { IfOk result (λ t. t.limit ≡ limit) }
        ensures segs { IfOk result (λ t. t.segs ≡ segs) }
        ensures above { IfOk result (λ t. t.above ≡ 0) }
    {
        let engine = Engine::make(alloc, limit)?;
        let list = PacketList::with_capacity(alloc, limit as usize)?;
        Ok(RoundTable {
            list,
            engine,
            shelf: Shelf::new(alloc),
            alloc,
            limit,
            segs,
            received: 0,
            above: 0,
            count: 0,
        })
    }

    /// The next round, of at most `limit` packets, in a table that holds nothing. Where one before was for as many,
    /// that takes no memory.
    pub fn start(&mut self, limit: u32) -> Result<(), AllocError>
        requires none { self.old.runs ≡ [] }
        ensures received { Received [] self.new }
        ensures none { self.new.runs ≡ [] }
        ensures limit { OnOk result (self.new.limit ≡ limit) }
        ensures segs { self.new.segs ≡ self.old.segs }
        ensures above { self.new.above ≡ 0 }
    {
        self.limit = 0;
        self.received = 0;
        self.above = 0;
        self.count = 0;
        self.engine.start(limit)?;
        self.list.reserve(limit as usize)?;
        self.limit = limit;
        Ok(())
    }

    /// The blocks and parts that it holds.
    pub fn count(&self) -> usize
        ensures count { result ≡ counts_in self.now.runs }
    {
        self.count
    }

    /// Whether a packet with this number may be received: fewer than `limit` were, all with smaller numbers.
    pub fn may_receive(&self, number: u32) -> bool
        ensures may { Decides result ((self.now.received < self.now.limit) × (self.now.above ≤ number)) }
    {
        self.received < self.limit && self.above <= number as u64
    }

    /// One more packet, with a number above those before: its flow's open run takes it, or it opens one. Its place was
    /// made by `make` or `start`, so no memory is asked for. A packet that came back would leave the table as it was.
    pub fn receive(&mut self, packet: Packet) -> Result<(), (Packet, AllocError)>
        requires room { self.old.received < self.old.limit }
        requires rising { self.old.above ≤ packet.number }
        requires front { IsFronted packet.skb }
        requires short { buffer_size packet.skb ≤ most_frame }
        ensures received { OnOk result ((ps : List Held) → Received ps self.old
            → Received (ps ++ (packet ∷ [])) self.new) }
        ensures count { OnOk result (counts_in self.new.runs ≡ counts_in self.old.runs + count_of packet) }
        ensures many { OnOk result (self.new.received ≡ self.old.received + 1) }
        ensures above { OnOk result (self.new.above ≡ packet.number + 1) }
        ensures limit { self.new.limit ≡ self.old.limit }
        ensures segs { self.new.segs ≡ self.old.segs }
        ensures back { IfErr result (λ e. (e.0 ≡ packet) × (self.new ≡ self.old)) }
    {
        let above = packet.number as u64 + 1;
        let count = weigh(&packet);
        self.list.push(packet);
        let limits = Limits::up_to(self.segs);
        self.engine.receive(&self.list.slots, self.received, limits);
        self.count += count;
        self.received += 1;
        self.above = above;
        Ok(())
    }

    /// The items of all runs, in the order of their first packets, into a list that is empty. The table is empty again,
    /// and its memory serves the next round, once that is started. Where there is no memory for the items nothing has
    /// changed: all places are made before anything moves.
    pub fn finish_into(&mut self, items: &mut Vec<Item>) -> Result<(), AllocError>
        requires empty { items.old.items ≡ [] }
        ensures items { OnOk result (AreItemsFrom self.old.runs items.new.items) }
        ensures merged { (ps : List Held) → Received ps self.old
            → OnOk result (map item_of items.new.items ≡ map merged_of (runs_in self.old.segs (map packet_of ps))) }
        ensures count { (ps : List Held) → Received ps self.old
            → OnOk result (counts_of_items items.new.items ≡ counts_of ps) }
        ensures account { OnOk result (KeepsTable self.old.runs items.new.items) }
        ensures shared { (ps : List Held) → Received ps self.old → AreShared ps
            → OnOk result (Keeps (of_packets ps) (of_items items.new.items)) }
        ensures least { (ps : List Held) (w : ℕ) → Received ps self.old → w ≤ full_weight → WeighAtLeast w ps
            → OnOk result (ItemsWeighAtLeast w items.new.items) }
        ensures ready { OnOk result (AreReady items.new.items) }
        ensures none { OnOk result (self.new ≡ no_table self.old.segs) }
        ensures back { OnErr result ((self.new ≡ self.old) × (items.new.items ≡ [])) }
    {
        self.shelf
            .build_items(self.alloc, &mut self.list, &self.engine, items)?;
        self.engine.clear();
        self.limit = 0;
        self.received = 0;
        self.above = 0;
        self.count = 0;
        Ok(())
    }

    /// The items of all runs, in the order of their first packets. Where there is no memory for them the table comes
    /// back as it was.
    pub fn finish(self) -> Result<Vec<Item>, (RoundTable, AllocError)>
        ensures items { IfOk result (λ items. AreItemsFrom self.runs items.items) }
        ensures merged { (ps : List Held) → Received ps self
            → IfOk result (λ items. map item_of items.items ≡ map merged_of (runs_in self.segs (map packet_of ps))) }
        ensures count { (ps : List Held) → Received ps self
            → IfOk result (λ items. counts_of_items items.items ≡ counts_of ps) }
        ensures account { IfOk result (λ items. KeepsTable self.runs items.items) }
        ensures shared { (ps : List Held) → Received ps self → AreShared ps
            → IfOk result (λ items. Keeps (of_packets ps) (of_items items.items)) }
        ensures least { (ps : List Held) (w : ℕ) → Received ps self → w ≤ full_weight → WeighAtLeast w ps
            → IfOk result (λ items. ItemsWeighAtLeast w items.items) }
        ensures ready { IfOk result (λ items. AreReady items.items) }
        ensures back { IfErr result (λ e. e.0 ≡ self) }
    {
        let mut table = self;
        let mut items = Vec::new(table.alloc);
        match table.finish_into(&mut items) {
            Ok(()) => {
                table.discard();
                Ok(items)
            }
            Err(error) => {
                items.destroy_empty();
                Err((table, error))
            }
        }
    }

    /// The memory of outcomes that hold nothing serves items to come.
    pub fn keep(&mut self, outcomes: Outcomes)
        requires bare { IsBare outcomes }
        ensures same { self.new ≡ self.old }
    {
        self.shelf.keep(outcomes);
    }

    /// Gives all buffers and spares back. The table is empty again, and its memory serves the next round.
    pub fn clear(&mut self, out: &mut Outcomes)
        requires room { counts_in self.old.runs ≤ out.old.spare }
        ensures kept { Keeps (both (of_runs self.old.runs) (of_outcomes out.old)) (of_outcomes out.new) }
        ensures grows { Grows (counts_in self.old.runs) out.old out.new }
        ensures places { out.old.spare ≤ out.new.spare + counts_in self.old.runs }
        ensures none { self.new ≡ no_table self.old.segs }
    {
        self.list.release_all(out);
        self.engine.clear();
        self.limit = 0;
        self.received = 0;
        self.above = 0;
        self.count = 0;
    }

    /// Gives all buffers and spares back.
    pub fn release(self, out: &mut Outcomes)
        requires room { counts_in self.runs ≤ out.old.spare }
        ensures kept { Keeps (both (of_runs self.runs) (of_outcomes out.old)) (of_outcomes out.new) }
        ensures grows { Grows (counts_in self.runs) out.old out.new }
        ensures places { out.old.spare ≤ out.new.spare + counts_in self.runs }
    {
        let mut table = self;
        table.clear(out);
        table.discard();
    }

    /// Frees the memory of a table that holds nothing.
    pub fn discard(self)
        requires none { self.runs ≡ [] }
    {
        let RoundTable {
            list,
            engine: _,
            shelf: _,
            alloc: _,
            limit: _,
            segs: _,
            received: _,
            above: _,
            count: _,
        } = self;
        list.discard();
    }
}
