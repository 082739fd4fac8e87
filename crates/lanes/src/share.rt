//! Spreads the packets of a round over its queues.
ghost use Rattle.std.specs.Prelude.{◌≡◌, ◌<◌, ◌≤◌, ◌^◌, ◌++◌, ◌∷◌, [], List, length, All, IfErr, OnOk};
ghost use Rattle.std.specs.Prelude.{reverse};
ghost use Rattle.gro.specs.declared.slot.Slot.{Slot as Held};
ghost use Rattle.gro.specs.Slots.{counts_of};
ghost use Rattle.lanes.specs.Filling.{AreOpen, SharesOut};
ghost use Rattle.lanes.specs.Lanes.{counts_of_queues, IsIdleQueue};
ghost use Rattle.lanes.specs.Work.{IsPlan, spread_of};
ghost use Rattle.lanes.specs.Sharing.{EachStays, HasMemory, StaysAs};
ghost use Rattle.lanes.specs.Sharing.{TakesAll, TakesIn};

use crate::flow_queue::queue_for;
use crate::lane::QueueLane;
use crate::plan::LanePlan;
use core::mem::swap;
use gro::Packets;
use std::alloc::AllocError;

// The last packet comes behind those of a lane. Where memory is refused it stays.
fn take_last(lane: &mut QueueLane, packets: &mut Packets) -> Result<(), AllocError>
    ensures taken { OnOk result ((rest : List Held) (p : Held) → packets.old.items ≡ rest ++ (p ∷ [])
        → TakesIn lane.old p lane.new × (packets.new.items ≡ rest)) }
    ensures back { IfErr result (λ _. StaysAs lane.old lane.new × (packets.new.items ≡ packets.old.items)) }
{
    lane.packets.reserve(1)?;
    if let Some(packet) = packets.pop() {
        lane.packets.push(packet);
    }
    Ok(())
}

// Each packet goes to the queue of its flow, the last one of the list first. One that there is no memory for stays the
// list's last.
fn spread_back(
    packets: &mut Packets,
    plan: &LanePlan,
    lanes: &mut [QueueLane],
) -> Result<(), AllocError>
    requires lanes { AreOpen plan.now (reverse packets.old.items) lanes.old }
    ensures shares { SharesOut (spread_of plan.now) (reverse packets.old.items) (reverse packets.new.items) lanes.old
        lanes.new }
    ensures all { OnOk result (packets.new.items ≡ []) }
{
    while let Some(last) = packets.slots().last() {
        let queue = queue_for(last, plan) as usize;
        take_last(&mut lanes[queue], packets)?;
    }
    Ok(())
}

// Each packet goes to the queue of its flow, in order. Those that there is no memory for stay, in their order. Packets
// leave their list by its end, so the list is turned.
fn spread(packets: &mut Packets, plan: &LanePlan, lanes: &mut [QueueLane]) -> Result<(), AllocError>
    requires lanes { AreOpen plan.now packets.old.items lanes.old }
    ensures shares { SharesOut (spread_of plan.now) packets.old.items packets.new.items lanes.old lanes.new }
    ensures all { OnOk result (packets.new.items ≡ []) }
{
    packets.reverse();
    let spread = spread_back(packets, plan, lanes);
    packets.reverse();
    spread
}

// All packets go to one lane that has none: their list is the lane's, and no packet moves.
fn give_all(packets: &mut Packets, lane: &mut QueueLane)
    ensures given { TakesAll lane.old packets.old.items lane.new }
    ensures list { packets.new.items ≡ lane.old.packets.items }
{
    swap(packets, &mut lane.packets);
}

// Memory for the runs of a lane's packets.
fn start(lane: &mut QueueLane) -> Result<(), AllocError>
    requires few { length lane.old.packets.items < 2 ^ 32 }
    ensures stays { StaysAs lane.old lane.new }
    ensures memory { OnOk result (HasMemory lane.new) }
{
    lane.engine.start(lane.packets.len() as u32)
}

// Memory for the runs of all lanes: so their work can't be refused any.
fn start_all(lanes: &mut [QueueLane]) -> Result<(), AllocError>
    requires few { counts_of_queues lanes.old ≤ 65536 }
    ensures size { length lanes.new ≡ length lanes.old }
    ensures stay { EachStays lanes.old lanes.new }
    ensures memory { OnOk result (All HasMemory lanes.new) }
{
    for i in 0..lanes.len() {
        start(&mut lanes[i])?;
    }
    Ok(())
}

// The packets go to the queues of their flows, in order. Those that there is no memory for stay, in their order.
fn give_out(
    packets: &mut Packets,
    plan: &LanePlan,
    lanes: &mut [QueueLane],
) -> Result<(), AllocError>
    requires lanes { AreOpen plan.now packets.old.items lanes.old }
    requires idle { All IsIdleQueue lanes.old }
    ensures shares { SharesOut (spread_of plan.now) packets.old.items packets.new.items lanes.old lanes.new }
    ensures all { OnOk result (packets.new.items ≡ []) }
{
    if plan.queues == 1 {
        give_all(packets, &mut lanes[0]);
        return Ok(());
    }
    spread(packets, plan, lanes)
}

/// The packets go to the queues of their flows, in order, and then each queue gets the memory for its work. What there
/// is no memory for stays; where all packets have gone and memory for the work is refused, they are in the lanes.
pub(crate) fn share_out(
    packets: &mut Packets,
    plan: &LanePlan,
    lanes: &mut [QueueLane],
) -> Result<(), AllocError>
    requires lanes { AreOpen plan.now packets.old.items lanes.old }
    requires few { counts_of packets.old.items ≤ 65536 }
    requires idle { All IsIdleQueue lanes.old }
    ensures shares { SharesOut (spread_of plan.now) packets.old.items packets.new.items lanes.old lanes.new }
    ensures all { OnOk result (packets.new.items ≡ []) }
    ensures memory { OnOk result (All HasMemory lanes.new) }
{
    give_out(packets, plan, lanes)?;
    start_all(lanes)
}
