//! The packets of each flow, one behind the other.
ghost use Rattle.std.specs.Prelude.{◌≡◌, ◌+◌, ◌<◌, ℕ, Option, List, length, map, IfOk, OnOk, slice_index_or};
ghost use Rattle.std.specs.List.{filter};
ghost use Rattle.pcap_io.specs.Capture.{Packet};
ghost use Rattle.offload_model.specs.Rounds.{is_of};
ghost use Rattle.taps.specs.Clones.{packet_of};
ghost use Rattle.comparing.specs.KeptFlows.{place_of, left_in, AreFlows, AreFlowsFrom, Moves};

use crate::flow_key::flow_of;
use frame_layout::Key;
use std::alloc::{AllocError, Global};
use std::collections::HashMap;
use taps::TapClone;

/// For each flow the place of the first packet that wasn't compared yet, and for each packet the place of the next one
/// of its flow. Where there is none the place is behind all packets.
#[derive(Drop)]
pub struct KeptFlows {
    pub first: HashMap<Key, usize>,
    pub next: Vec<usize>,
}

impl KeptFlows {
    /// The flows of these packets, none of which was compared. It is one pass over them, from the last to the first.
    pub fn of(alloc: Global, kept: &[TapClone]) -> Result<KeptFlows, AllocError>
        ensures flows { IfOk result (AreFlows (map packet_of kept.now)) }
        ensures left { IfOk result (λ f. (q : Option (List ℕ))
            → left_in (map packet_of kept.now) f q ≡ filter (is_of q) (map packet_of kept.now)) }
    {
        let mut flows = KeptFlows::none(alloc, kept.len())?;
        let mut i = kept.len();
        while i > 0 {
            i -= 1;
            flows.enter(&kept[i], i)?;
        }
        Ok(flows)
    }

    // No packet's flow is known yet, of so many.
    fn none(alloc: Global, packets: usize) -> Result<KeptFlows, AllocError>
        ensures none { IfOk result (λ f. (ps : List Packet) → length ps ≡ packets → AreFlowsFrom ps packets f) }
    {
        let first = HashMap::with_capacity(alloc, packets)?;
        let next = vec![in alloc; packets; packets]?;
        Ok(KeptFlows { first, next })
    }

    // The packet in front of those that are entered is entered.
    fn enter(&mut self, clone: &TapClone, i: usize) -> Result<(), AllocError>
        requires within { i < length self.old.next.items }
        ensures flows { OnOk result ((ps : List Packet) → ((d : Packet) → slice_index_or ps i d ≡ packet_of clone.now)
            → AreFlowsFrom ps (i + 1) self.old → AreFlowsFrom ps i self.new) }
        ensures size { length self.new.next.items ≡ length self.old.next.items }
    {
        let behind = self.next.len();
        match self.first.insert(flow_of(&clone.skb), i) {
            Ok(later) => {
                self.next[i] = later.unwrap_or(behind);
                Ok(())
            }
            Err(_) => Err(AllocError),
        }
    }

    /// The place of the flow's first packet that wasn't compared.
    pub(crate) fn place(&self, key: &Key) -> usize
        ensures place { result ≡ place_of self.now key.now }
    {
        match self.first.get(key) {
            Some(place) => *place,
            None => self.next.len(),
        }
    }

    /// The flow's packets before this place were compared.
    pub(crate) fn move_to(&mut self, key: Key, at: usize)
        ensures moves { Moves self.old key at self.new }
    {
        match self.first.insert(key, at) {
            Ok(_) => {}
            // There is room for each flow that has a packet.
            Err(_) => {}
        }
    }
}
