//! Reads the records of a round.
ghost use Rattle.std.specs.Prelude.{◌≡◌, ◌+◌, ◌-◌, ◌*◌, ◌<◌, ◌≤◌, ◌^◌, length, min, ⊤};
ghost use Rattle.std.specs.VecDeque.{deque_capacity};
ghost use Rattle.block_pool.specs.PoolState.{home};
ghost use Rattle.off_io.specs.Told.{Told};
ghost use Rattle.pcap_io.specs.declared.heads.Link.TheVariants.{Ethernet};
ghost use Rattle.pcap_io.specs.declared.place.Place.{Place};
ghost use Rattle.pcap_io.specs.Readers.{place_of, source_of, SameLoan};
ghost use Rattle.rounds.specs.Filling.{reached, Fills, Reached, Stands};
ghost use Rattle.rounds.specs.RoundOf.{at_hand, brought_by, Came, Grows, IsHold, IsRoundOf};

use crate::round_stages::{Halt, RoundEnd, halt_of};
use block_pool::Pool;
use block_supply::Supply;
use gro::Packets;
use off_io::Source;
use pcap_io::{CaptureReader, RecHead};
use raw_block::Sole;
use reading::read_record;
use std::alloc::Global;
use std::collections::VecDeque;

/// Reads on behind the packets that a round has already, with `used` blocks, and behind the header of its next record
/// where that is kept, until there are `budget` packets, or no more: the blocks that they then have, and why. Blocks
/// that a record needs are brought once its header was taken; where they don't come that is `Lacking`.
pub(crate) fn read_more<S: Source, H: Supply>(
    alloc: Global,
    pool: &mut Pool,
    hold: &mut VecDeque<Sole>,
    reader: &mut CaptureReader<'_, S>,
    more: &mut H,
    head: &mut Option<RecHead>,
    budget: usize,
    packets: &mut Packets,
    spares: &mut Pool,
    used: u32,
) -> (u32, Halt)
    requires stands { (start : Reached) × ((from : Place)
        × Stands start from (reached S.left S.faults reader.old) head.old packets.old.items) }
    requires link { (place_of reader.old).link ≡ Ethernet }
    requires hold { IsHold hold.old.items (deque_capacity hold.old) }
    requires made { pool.old.made ≤ 65536 }
    requires fewer { length packets.old.items < budget }
    requires room { (budget ≤ length packets.old.items + packets.old.room) × (2 * budget ≤ spares.old.made) }
    requires round { IsRoundOf packets.old.items (home spares.old) used }
    requires within { used ≤ pool.old.made }
    ensures same_source { SameLoan reader.old reader.new }
    ensures tells { Told (S.left (source_of reader.old)) (S.left (source_of reader.new)) (λ _ _. ⊤) }
    ensures fills { (start : Reached) → (from : Place)
        → Stands start from (reached S.left S.faults reader.old) head.old packets.old.items
        → Fills pool.old.made budget start from (reached S.left S.faults reader.new) head.new packets.new.items
        result.1 }
    ensures grows { Grows pool.old.made budget pool.old.taken pool.new.taken (home pool.new) used packets.new.items
        result.0 head.new (place_of reader.new) result.1 }
    ensures refused { result.1 ≡ Halt.Lacking
        → min (H.refusals more.old + 1) (2 ^ 64 - 1) ≤ H.refusals more.new }
    ensures round { IsRoundOf packets.new.items (home spares.new) result.0 }
    ensures came { Came (brought_by H.weights H.refusals more.old)
        (brought_by H.weights H.refusals more.new) (home pool.old + used) (home pool.new + result.0)
        (at_hand pool.old packets.old.items spares.old) (at_hand pool.new packets.new.items spares.new) }
    ensures made { pool.new.made ≡ pool.old.made }
    ensures hold { IsHold hold.new.items (deque_capacity hold.new) }
    ensures room { (length packets.old.items + packets.old.room ≤ length packets.new.items + packets.new.room)
        × (spares.new.made ≡ spares.old.made) }
{
    let _ = pool.taken();
    let mut used = used;
    'reading: while packets.len() < budget {
        let mark = used - spares.home();
        match read_record(
            alloc,
            pool,
            hold,
            spares,
            reader,
            more,
            head,
            &mut [],
            used,
            mark,
            packets,
        ) {
            Ok((_, count)) => used += count,
            Err(stop) => return (used, halt_of(stop)),
        }
    }
    (used, Halt::Ended(RoundEnd::Full))
}
