//! The clones that taps read.
ghost use Rattle.std.specs.Prelude.{◌≡◌, ◌+◌, ◌<◌, ◌≤◌, [], drop, length, map, OnOk, vec_capacity};
ghost use Rattle.frags.specs.Account.{Keeps, KeepsBlocks, both};
ghost use Rattle.gro.specs.Slots.{packet_of, of_packets, counts_of, AreHeld, AreShared, WeighAtLeast};
ghost use Rattle.taps.specs.Clones.{packet_of as packet_of_clone, blocks_of, of_clones};
ghost use Rattle.lanes.specs.Clones.{weight_after, AreAfter, ClonedOne, IsNoMemory};

use frags::ShareFault;
use gro::Packets;
use std::alloc::AllocError;
use taps::TapClone;

// Why there is no clone.
fn refused(fault: ShareFault) -> AllocError
    requires memory { IsNoMemory fault }
{
    match fault {
        ShareFault::NoMemory => AllocError,
        _ => unreachable!(),
    }
}

// A clone of packet i, of which `before` clones were taken at most. The others stay as they are.
fn clone_packet(packets: &mut Packets, i: usize, before: u32) -> Result<TapClone, AllocError>
    requires few { before < 9 }
    requires inside { i < length packets.old.items }
    requires shared { AreShared packets.old.items }
    requires weighs { WeighAtLeast (weight_after before) (drop i packets.old.items) }
    ensures cloned { ClonedOne before i packets.old.items packets.new.items result }
{
    match packets.clone_at(i) {
        Ok(skb) => {
            let slot = &packets.slots()[i];
            Ok(TapClone {
                skb,
                sec: slot.sec,
                frac: slot.frac,
                original: slot.original,
                number: slot.number,
            })
        }
        Err(fault) => Err(refused(fault)),
    }
}

/// A clone of each packet, in places that were reserved before. Of each packet `before` clones were taken at most.
pub(crate) fn clone_all(
    packets: &mut Packets,
    before: u32,
    clones: &mut Vec<TapClone>,
) -> Result<(), AllocError>
    requires few { before < 9 }
    requires held { AreHeld packets.old.items }
    requires shared { AreShared packets.old.items }
    requires weigh { WeighAtLeast (weight_after before) packets.old.items }
    requires none { clones.old.items ≡ [] }
    requires room { length packets.old.items ≤ vec_capacity clones.old }
    ensures after { AreAfter (before + 1) packets.old.items packets.new.items }
    ensures kept { Keeps (of_packets packets.old.items)
        (both (of_packets packets.new.items) (of_clones clones.new.items)) }
    ensures blocks { KeepsBlocks (of_packets packets.old.items)
        (both (of_packets packets.new.items) (of_clones clones.new.items)) }
    ensures fewer { blocks_of clones.new.items ≤ counts_of packets.old.items }
    ensures all { OnOk result (map packet_of_clone clones.new.items ≡ map packet_of packets.old.items) }
{
    for i in 0..packets.len() {
        clones.push_reserved(clone_packet(packets, i, before)?);
    }
    Ok(())
}
