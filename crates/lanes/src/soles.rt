//! Why no tap has a Sole: the packets lie still while their clones are given back, so nobody who gives one back is the
//! last who holds a block. Where a tap had one it would be of the block of a packet, beside which no Sole stands.
ghost use Rattle.std.specs.Prelude.{◌≡◌, ◌≤◌, All, IfSome, IfNone, IsTrue, ◌↔◌};
ghost use Rattle.frags.specs.RoundAccount.{one_block};
ghost use Rattle.skb.specs.SkbState.{IsApartFrom};
ghost use Rattle.lanes.specs.Lanes.{of_taps};
ghost use Rattle.lanes.specs.Soles.{AreOfPackets, HaveNoSoles};

use crate::lane::{Lanes, QueueLane, TapLane};
use gro::Packets;
use raw_block::Sole;

// Whether no tap has a Sole.
fn have_no_soles(taps: &[TapLane]) -> bool
    ensures none { IsTrue result ↔ HaveNoSoles taps.now }
{
    for tap in taps {
        if !tap.outcomes.has_no_sole() {
            return false;
        }
    }
    true
}

// A Sole of some tap. None exactly where none has one.
fn take_sole(taps: &mut [TapLane]) -> Option<Sole>
    ensures some { IfSome result (λ s. 1 ≤ (of_taps taps.old).homes (one_block s.block) s.mark) }
    ensures none { IfNone result (HaveNoSoles taps.old) }
{
    for i in 0..taps.len() {
        if !taps[i].outcomes.has_no_sole() {
            return taps[i].outcomes.pop_sole();
        }
    }
    None
}

// The Sole is of no block of the queues' packets.
fn differ_from_queues(lanes: &mut [QueueLane], sole: &mut Sole)
    ensures others { All (λ l. All (λ p. IsApartFrom sole.old.block p.skb) l.packets.items) lanes.old }
{
    for i in 0..lanes.len() {
        lanes[i].packets.differ_from(sole);
    }
}

// No tap has a Sole, since that is of no block of the packets. It never runs.
fn rule_out(packets: &mut Packets, lanes: &mut Lanes)
    requires theirs { AreOfPackets packets.old.items lanes.old }
    ensures none { HaveNoSoles lanes.old.taps.items }
{
    if let Some(mut sole) = take_sole(&mut lanes.taps) {
        packets.differ_from(&mut sole);
        differ_from_queues(&mut lanes.queues, &mut sole);
        unreachable!()
    }
}

/// No tap has a Sole, where what taps have given back is of the packets' blocks. Nothing but the taps is looked at.
pub(crate) fn check_soles(packets: &mut Packets, lanes: &mut Lanes)
    requires theirs { AreOfPackets packets.old.items lanes.old }
    ensures no_soles { HaveNoSoles lanes.new.taps.items }
    ensures same { (packets.new ≡ packets.old) × (lanes.new ≡ lanes.old) }
{
    if !have_no_soles(&lanes.taps) {
        rule_out(packets, lanes);
        unreachable!()
    }
}
