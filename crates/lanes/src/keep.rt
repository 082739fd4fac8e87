//! Clones that are kept beside the work of a round.
ghost use Rattle.std.specs.Prelude.{◌≡◌, ◌≤◌, [], map, OnOk};
ghost use Rattle.block_weight.specs.WeightRule.{full_weight};
ghost use Rattle.frags.specs.Account.{Keeps, KeepsBlocks, both};
ghost use Rattle.gro.specs.Slots.{packet_of, of_packets, counts_of, AreHeld, AreShared, WeighAtLeast};
ghost use Rattle.taps.specs.Clones.{packet_of as packet_of_clone, blocks_of, of_clones};
ghost use Rattle.lanes.specs.Clones.{AreAfter};

use crate::clones::clone_all;
use gro::Packets;
use std::alloc::AllocError;
use taps::TapClone;

/// A clone of each packet, kept beside the work, so that what comes out can be compared with what went in. The packets
/// may still be worked. For want of memory the clones that were made stand in `kept`.
pub fn keep_packets(packets: &mut Packets, kept: &mut Vec<TapClone>) -> Result<(), AllocError>
    requires held { AreHeld packets.old.items }
    requires shared { AreShared packets.old.items }
    requires whole { WeighAtLeast full_weight packets.old.items }
    requires none { kept.old.items ≡ [] }
    ensures after { AreAfter 1 packets.old.items packets.new.items }
    ensures kept { Keeps (of_packets packets.old.items)
        (both (of_packets packets.new.items) (of_clones kept.new.items)) }
    ensures blocks { KeepsBlocks (of_packets packets.old.items)
        (both (of_packets packets.new.items) (of_clones kept.new.items)) }
    ensures fewer { blocks_of kept.new.items ≤ counts_of packets.old.items }
    ensures all { OnOk result (map packet_of_clone kept.new.items ≡ map packet_of packets.old.items) }
{
    kept.reserve(packets.len())?;
    clone_all(packets, 0, kept)
}
