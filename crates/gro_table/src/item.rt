//! What a run comes to.
ghost use Rattle.std.specs.Prelude.{◌≡◌, ◌+◌, ◌<◌, ◌≤◌, ◌∷◌, [], ℕ, length, map, vec_len, vec_capacity};
ghost use Rattle.offload_model.specs.Merged.{merged_of};
ghost use Rattle.offload_model.specs.Written.{head_of};
ghost use Rattle.merge_rule.specs.Runs.{IsRunOf};
ghost use Rattle.frags.specs.OutcomesState.{IsBare};
ghost use Rattle.gro_table.specs.Build.{pieces_in, free_in};
ghost use Rattle.frame_runs.specs.Chains.{behind, indices, AreDistinct};
ghost use Rattle.gro_table.specs.Held.{packet_of, AreHeld};
ghost use Rattle.gro_table.specs.Items.{item_of, IsItemOf};
ghost use Rattle.gro_table.specs.Places.{IsPlaceOf, ArePlacesOf};
ghost use Rattle.gro_table.specs.Table.{AreItemsFrom};
ghost use Rattle.gro_table.specs.Waiting.{found, chosen, held_at, AreThere, Empties, IsRun, AreWaiting};

use crate::Packet;
use crate::build::join;
use crate::places::Places;
use crate::waiting::take_at;
use frags::{Outcomes, PieceBuilder};
use frame_layout::Layout;
use frame_runs::{Engine, Run};
use pcap_io::OffHead2;
use skb::Skb;
use std::collections::VecDeque;

/// What a run of packets comes to: a record that is to be written, with the number and the time of the run's first
/// packet. It must be spent: its buffer and its outcomes.
pub struct Item {
    /// The packet that is alone, as it was, or the merged frame.
    pub skb: Skb,
    /// That of the first packet in the capture, from 0.
    pub number: u32,
    /// The first packet's time in seconds, as the capture has it.
    pub sec: u32,
    /// The fraction of a second, in the capture's unit.
    pub frac: u32,
    /// The length on the wire in bytes; of several packets that of the merged frame.
    pub original: u32,
    /// How many packets there are.
    pub n: u32,
    /// The length of the first payload; 0 of a packet that is alone.
    pub m: u32,
    /// A bit for each IP header, the lowest for the first, set where that is an IPv4 header whose identification stays
    /// the same; 0 of a packet that is alone.
    pub modes: u8,
    /// The blocks that merging has left: one at least.
    pub outcomes: Outcomes,
}

impl Item {
    /// The offload header that its record has where it is one of this queue.
    pub fn head(&self, queue: u8) -> OffHead2
        ensures head { result ≡ head_of queue (item_of self.now) }
    {
        OffHead2 {
            version: 2,
            kind: if self.n == 1 { 0 } else { 1 },
            modes: self.modes,
            lane: queue,
            n: self.n,
            m: self.m,
            number: self.number,
        }
    }

    /// Its buffer and its outcomes, which are to be spent.
    pub fn into_parts(self) -> (Skb, Outcomes)
        ensures skb { result.0 ≡ self.skb }
        ensures outcomes { result.1 ≡ self.outcomes }
    {
        let Item {
            skb,
            outcomes,
            number: _,
            sec: _,
            frac: _,
            original: _,
            n: _,
            m: _,
            modes: _,
        } = self;
        (skb, outcomes)
    }
}

// A packet that is alone stays as it is.
fn single(first: Packet, outcomes: Outcomes) -> Item
    requires held { AreHeld (first ∷ []) }
    requires empty { IsBare outcomes }
    requires places { 2 ≤ outcomes.spare }
    ensures item { item_of result ≡ merged_of (packet_of first ∷ []) }
    ensures holds { IsItemOf (first ∷ []) result }
{
    let Packet {
        skb,
        spare1,
        spare2,
        sec,
        frac,
        original,
        number,
    } = first;
    let mut outcomes = outcomes;
    outcomes.keep_sole(spare1);
    outcomes.keep_sole(spare2);
    Item {
        skb,
        number,
        sec,
        frac,
        original,
        n: 1,
        m: 0,
        modes: 0,
        outcomes,
    }
}

// The packets of a run that are merged. Those behind the first one wait at the run's indices.
fn merged(
    first: Packet,
    waiting: &mut VecDeque<Option<Packet>>,
    next: &[u32],
    run: &Run,
    layout: &Layout,
    pieces: PieceBuilder,
    outcomes: Outcomes,
) -> Item
    requires first { run.now.first < length next.now }
    requires linked { length waiting.old.items ≤ length next.now }
    requires there { AreThere waiting.old.items (behind next.now run.now) }
    requires distinct { AreDistinct (behind next.now run.now) }
    requires run { IsRunOf layout.now run.now.payload run.now.flags run.now.progress (packet_of first)
        (packet_of first ∷ map packet_of (chosen waiting.old.items (behind next.now run.now))) }
    requires more { length (chosen waiting.old.items (behind next.now run.now)) ≡ run.now.more }
    requires several { 1 ≤ run.now.more }
    requires held { AreHeld (first ∷ chosen waiting.old.items (behind next.now run.now)) }
    requires empty { (pieces.pieces ≡ []) × (outcomes.soles ≡ []) × (outcomes.receipts ≡ []) }
    requires reserved { pieces_in (first ∷ chosen waiting.old.items (behind next.now run.now)) ≤ pieces.room }
    requires room { free_in (first ∷ chosen waiting.old.items (behind next.now run.now)) ≤ outcomes.spare }
    ensures item { item_of result ≡ merged_of
        (packet_of first ∷ map packet_of (chosen waiting.old.items (behind next.now run.now))) }
    ensures holds { IsItemOf (first ∷ chosen waiting.old.items (behind next.now run.now)) result }
    ensures empties { Empties (behind next.now run.now) waiting.old.items waiting.new.items }
{
    let number = first.number;
    let sec = first.sec;
    let frac = first.frac;
    let m = (first.skb.len() - layout.payload_at()) as u32;
    let (skb, outcomes) = join(first, waiting, next, run, layout, pieces, outcomes);
    let original = skb.len() as u32;
    Item {
        skb,
        number,
        sec,
        frac,
        original,
        n: run.more + 1,
        m,
        modes: run.progress.modes,
        outcomes,
    }
}

// What a run comes to, in places that were made before. It takes no memory.
fn build_item(
    run: &Run,
    next: &[u32],
    waiting: &mut VecDeque<Option<Packet>>,
    places: Places,
) -> Item
    requires linked { length waiting.old.items ≤ length next.now }
    requires there { AreThere waiting.old.items (indices next.now run.now) }
    requires distinct { AreDistinct (indices next.now run.now) }
    requires run { IsRun run.now (held_at next.now waiting.old.items run.now) }
    requires places { IsPlaceOf (held_at next.now waiting.old.items run.now) places }
    ensures item { item_of result ≡ merged_of (map packet_of (held_at next.now waiting.old.items run.now)) }
    ensures holds { IsItemOf (held_at next.now waiting.old.items run.now) result }
    ensures empties { Empties (indices next.now run.now) waiting.old.items waiting.new.items }
{
    let first = take_at(waiting, run.first);
    match places {
        Places::Alone(outcomes) => single(first, outcomes),
        Places::Several(pieces, outcomes) => {
            let Some(layout) = &run.layout else {
                unreachable!()
            };
            merged(first, waiting, next, run, layout, pieces, outcomes)
        }
    }
}

/// The items of all runs, whose packets wait, in places that were made before. It takes no memory.
pub(crate) fn build_all(
    engine: &Engine,
    waiting: &mut VecDeque<Option<Packet>>,
    places: &mut VecDeque<Places>,
    items: &mut Vec<Item>,
)
    requires linked { length waiting.old.items ≤ length engine.now.next.items }
    requires waiting { AreWaiting engine.now.next.items engine.now.runs.items waiting.old.items }
    requires places { ArePlacesOf (map (held_at engine.now.next.items waiting.old.items) engine.now.runs.items)
        places.old.items }
    requires empty { items.old.items ≡ [] }
    requires room { vec_len items.old + length engine.now.runs.items ≤ vec_capacity items.old }
    ensures items { AreItemsFrom (map (held_at engine.now.next.items waiting.old.items) engine.now.runs.items)
        items.new.items }
    ensures none { (k : ℕ) → found waiting.new.items k ≡ [] }
    ensures places { places.new.items ≡ [] }
{
    for i in 0..engine.runs.len() {
        let Some(own) = places.pop_front() else {
            unreachable!()
        };
        items.push_reserved(build_item(&engine.runs[i], &engine.next, waiting, own));
    }
}
