//! The runs of a queue, compared.
ghost use Rattle.std.specs.Prelude.{◌≡◌, ◌+◌, ◌<◌, ◌≤◌, ◌^◌, length, map};
ghost use Rattle.std.specs.List.{AllByRecursion};
ghost use Rattle.frame_runs.specs.Engine.{IsChain};
ghost use Rattle.gro.specs.Slots.{packet_of as packet_in, AreHeld};
ghost use Rattle.taps.specs.Clones.{packet_of};
ghost use Rattle.check_totals.specs.Counts.{queue_plus};
ghost use Rattle.comparing.specs.KeptFlows.{AreFlows, CountsIn};
ghost use Rattle.check_totals.specs.Returned.{Lefts, packets_in, flow_in, behind_item, behind_items};
ghost use Rattle.comparing.specs.Items.{IsToCompare, AreLeft, item_at, totals_of_item, totals_of_items};

use crate::counting::count_packets;
use crate::flow_key::flow_of;
use crate::in_bytes::are_in_bytes;
use crate::kept_flows::KeptFlows;
use check_totals::QueueTotals;
use frame_runs::Run;
use gro::Slot;
use taps::TapClone;

// In how many places the packets that a run stands for are the next ones of its flow, which is its first packet's.
fn count_run(
    packets: &[Slot],
    next: &[u32],
    run: &Run,
    kept: &[TapClone],
    flows: &mut KeptFlows,
) -> u64
    requires run { IsToCompare packets.now next.now run.now }
    requires flows { AreFlows (map packet_of kept.now) flows.old }
    ensures flows { AreFlows (map packet_of kept.now) flows.new }
    ensures counts { CountsIn (map packet_of kept.now) flows.old (flow_in (item_at packets.now next.now run.now))
        (packets_in (item_at packets.now next.now run.now)) flows.new result }
    ensures few { result < 2 ^ 32 }
{
    let key = flow_of(&packets[run.first as usize].skb);
    let mut at = flows.place(&key);
    let count = count_packets(packets, next, run, kept, &flows.next, &mut at);
    flows.move_to(key, at);
    count
}

// Adds what a run comes to to the totals of its queue.
fn add_run(
    totals: &mut QueueTotals,
    packets: &[Slot],
    next: &[u32],
    run: &Run,
    kept: &[TapClone],
    flows: &mut KeptFlows,
)
    requires run { IsToCompare packets.now next.now run.now }
    requires flows { AreFlows (map packet_of kept.now) flows.old }
    requires room { (totals.old.records < 2 ^ 62) × (totals.old.items < 2 ^ 62) × (totals.old.merged < 2 ^ 62)
        × (totals.old.returned < 2 ^ 62) }
    ensures flows { AreFlows (map packet_of kept.now) flows.new }
    ensures added { (left : Lefts) → AreLeft (map packet_of kept.now) flows.old left
        → (totals.new ≡ queue_plus totals.old (totals_of_item left (item_at packets.now next.now run.now)))
        × AreLeft (map packet_of kept.now) flows.new (behind_item left (item_at packets.now next.now run.now)) }
    ensures few { (totals.new.records ≤ totals.old.records + 2 ^ 32) × (totals.new.items ≡ totals.old.items + 1)
        × (totals.new.merged ≤ totals.old.merged + 1) × (totals.new.returned < totals.old.returned + 2 ^ 32) }
{
    totals.returned += count_run(packets, next, run, kept, flows);
    totals.records += run.more as u64 + 1;
    totals.items += 1;
    totals.merged += u64::from(run.more >= 1);
}

/// The totals of a queue's runs, each of which is compared with the next packets of its flow.
pub fn check_items(
    packets: &[Slot],
    next: &[u32],
    runs: &[Run],
    kept: &[TapClone],
    flows: &mut KeptFlows,
) -> QueueTotals
    requires slots { AreHeld packets.now }
    requires linked { length packets.now ≤ length next.now }
    requires runs { AllByRecursion (IsChain (map packet_in packets.now) next.now) runs.now }
    requires few { length runs.now ≤ 2 ^ 28 }
    requires flows { AreFlows (map packet_of kept.now) flows.old }
    ensures flows { AreFlows (map packet_of kept.now) flows.new }
    ensures totals { (left : Lefts) → AreLeft (map packet_of kept.now) flows.old left
        → (result ≡ totals_of_items left (map (item_at packets.now next.now) runs.now))
        × AreLeft (map packet_of kept.now) flows.new
        (behind_items left (map (item_at packets.now next.now) runs.now)) }
{
    are_in_bytes(packets);
    let mut totals = QueueTotals {
        records: 0,
        items: 0,
        merged: 0,
        returned: 0,
    };
    for i in 0..runs.len() {
        add_run(&mut totals, packets, next, &runs[i], kept, flows);
    }
    totals
}
