//! Reads one record of a capture into blocks.
ghost use Rattle.std.specs.Prelude.{◌≡◌, ◌≢◌, ℕ, ◌+◌, ◌-◌, ◌<◌, ◌≤◌, ◌^◌, [], false, true, min, length};
ghost use Rattle.std.specs.Prelude.{IfOk, IfSome, OnOk, OnErr, Option, Ok, Err, None, Some, List, ⊤};
ghost use Rattle.std.specs.VecDeque.{deque_capacity};
ghost use Rattle.block_pool.specs.PoolState.{home, weighed};
ghost use Rattle.skb.specs.SkbState.{buffer_bytes, weighed_in};
ghost use Rattle.off_io.specs.Faults.{Rose};
ghost use Rattle.off_io.specs.Told.{Told};
ghost use Rattle.pcap_io.specs.declared.heads.Link.TheVariants.{Ethernet};
ghost use Rattle.pcap_io.specs.Headers.{is_bad_original};
ghost use Rattle.pcap_io.specs.declared.place.Place.{Place};
ghost use Rattle.pcap_io.specs.Reading.{GivesHead};
ghost use Rattle.pcap_io.specs.Readers.{place_of, source_of, SameLoan};
ghost use Rattle.gro.specs.Slots.{packet_of, count_of};
ghost use Rattle.reading.specs.Laid.{IsLaid, IsRead, most_read, most_short};
ghost use Rattle.reading.specs.Reading.{front_size, GivesKept, GivesPacket, GivesRecord, GoesOn, IsStopOf};
ghost use Rattle.reading.specs.Reading.{HasOne, IsAt, KeepsHead, OfAnswer, OfNew, StandsAt};
ghost use Rattle.offload_model.specs.Need.{need_of};
ghost use Rattle.offload_model.specs.Captured.{IsCaptured};
ghost use Rattle.reading.specs.Bodies.{HasRoom, IsBody, Puts, ReadsBody, Spends};

use crate::blocks::{blocks_of, make_packet, make_short, put_back, take_block, take_blocks};
use crate::body::{read_frame, read_head};
use block_pool::Pool;
use block_supply::{Supply, has_blocks};
use frags::PieceBuilder;
use gro::Packets;
use off_io::Source;
use pcap_io::{CapFault, CaptureReader, InFault, RecHead};
use raw_block::Sole;
use std::alloc::Global;
use std::collections::VecDeque;

/// Why no record was read.
#[derive(Clone, Copy)]
pub enum Stop {
    End,
    /// The capture is refused at the next record.
    Malformed(CapFault),
    /// The blocks that the round would need.
    PoolEmpty { need: u32 },
    /// The blocks that the record needs aren't home and don't come. Its header was taken and is kept:
    /// [`read_record`] goes on behind it.
    Lacking,
    ReadFault,
    NoMemory,
}

fn stop_of(fault: InFault) -> Stop
    ensures stop { IsStopOf fault result }
{
    match fault {
        InFault::Cap(fault) => Stop::Malformed(fault),
        InFault::ReadFault => Stop::ReadFault,
    }
}

// Reads the body of a record that was begun, `len` bytes of it into blocks with marks from `mark` on. Two spares go
// to a list of their own, and the packet behind the packets that there are. The answer says how many blocks it has with
// them.
#[inline(always)]
fn read_packet<S: Source>(
    alloc: Global,
    pool: &mut Pool,
    hold: &mut VecDeque<Sole>,
    spares: &mut Pool,
    reader: &mut CaptureReader<'_, S>,
    front: &mut [u8],
    head: &RecHead,
    len: u32,
    mark: u32,
    packets: &mut Packets,
) -> Result<u32, Stop>
    requires len { len ≤ most_read }
    requires body { IsBody (place_of reader.old) head.now (length front.old) len }
    requires empty { hold.old.items ≡ [] }
    requires capacity { 131 ≤ deque_capacity hold.old }
    requires room { HasRoom (need_of len) pool.old spares.old packets.old }
    requires mark { mark ≤ 65536 }
    ensures same_source { SameLoan reader.old reader.new }
    ensures given { OfAnswer result packets.old packets.new (λ r. Told (S.left (source_of reader.old))
        (S.left (source_of reader.new)) (GivesPacket (place_of reader.old) head.now front.new r)) }
    ensures reads { ReadsBody Stop.ReadFault (place_of reader.old) (place_of reader.new) head.now.captured
        (S.faults (source_of reader.old)) (S.faults (source_of reader.new)) result }
    ensures front { length front.new ≡ length front.old }
    ensures begun { result ≢ Err Stop.Lacking }
    ensures whole { result ≡ Err Stop.NoMemory → (place_of reader.new).body ≡ 0 }
    ensures blocks { IfOk result (λ r. r ≡ need_of len) }
    ensures puts { Puts mark len head.now packets.old packets.new result }
    ensures spends { Spends (need_of len) pool.old pool.new spares.old spares.new packets.old packets.new result }
    ensures empty { hold.new.items ≡ [] }
    ensures capacity { deque_capacity hold.new ≡ deque_capacity hold.old }
{
    let _ = pool.taken();
    let data = blocks_of(len);
    if data == 1 {
        return read_short(alloc, pool, spares, reader, front, head, len, mark, packets);
    }
    let mut block = take_block(pool, mark);
    take_blocks(pool, hold, data - 1, mark + 1);
    match read_frame(reader, front, &mut block, hold, len) {
        Ok(()) => {}
        Err(fault) => {
            put_back(pool, block, hold);
            return Err(stop_of(fault));
        }
    }
    match PieceBuilder::with_room(alloc, data as usize - 1) {
        Ok(builder) => {
            pool.take_to(2, spares);
            make_packet(block, hold, builder, head, len, mark, packets);
            Ok(data + 2)
        }
        Err(_) => {
            put_back(pool, block, hold);
            Err(Stop::NoMemory)
        }
    }
}

// The same of a record that one block holds: no other is held for it, and no memory is asked for.
#[inline(always)]
fn read_short<S: Source>(
    alloc: Global,
    pool: &mut Pool,
    spares: &mut Pool,
    reader: &mut CaptureReader<'_, S>,
    front: &mut [u8],
    head: &RecHead,
    len: u32,
    mark: u32,
    packets: &mut Packets,
) -> Result<u32, Stop>
    requires short { len ≤ most_short }
    requires body { IsBody (place_of reader.old) head.now (length front.old) len }
    requires room { HasRoom (need_of len) pool.old spares.old packets.old }
    ensures same_source { SameLoan reader.old reader.new }
    ensures given { OfAnswer result packets.old packets.new (λ r. Told (S.left (source_of reader.old))
        (S.left (source_of reader.new)) (GivesPacket (place_of reader.old) head.now front.new r)) }
    ensures reads { ReadsBody Stop.ReadFault (place_of reader.old) (place_of reader.new) head.now.captured
        (S.faults (source_of reader.old)) (S.faults (source_of reader.new)) result }
    ensures front { length front.new ≡ length front.old }
    ensures begun { result ≢ Err Stop.Lacking }
    ensures whole { result ≡ Err Stop.NoMemory → (place_of reader.new).body ≡ 0 }
    ensures blocks { IfOk result (λ r. r ≡ need_of len) }
    ensures puts { Puts mark len head.now packets.old packets.new result }
    ensures spends { Spends (need_of len) pool.old pool.new spares.old spares.new packets.old packets.new result }
{
    let _ = pool.taken();
    let mut block = take_block(pool, mark);
    match read_head(reader, front, &mut block, len as usize) {
        Ok(()) => {}
        Err(fault) => {
            pool.put(block);
            return Err(stop_of(fault));
        }
    }
    pool.take_to(2, spares);
    make_short(alloc, block, head, len, packets);
    Ok(3)
}

// The header of the next record: the one that was kept, which isn't any more, or the next one of the capture.
#[inline(always)]
fn find_head<S: Source>(
    reader: &mut CaptureReader<'_, S>,
    kept: &mut Option<RecHead>,
) -> Result<Option<RecHead>, InFault>
    requires stands { (at : Place) × IsAt kept.old at (place_of reader.old) }
    ensures same_source { SameLoan reader.old reader.new }
    ensures tells { Told (S.left (source_of reader.old)) (S.left (source_of reader.new)) (λ _ _. ⊤) }
    ensures given { (at : Place) → (before : Option (List ℕ))
        → StandsAt kept.old at (place_of reader.old) before (S.left (source_of reader.old))
        → Told before (S.left (source_of reader.new)) (GivesHead at result) }
    ensures keeps { (at : Place) → IsAt kept.old at (place_of reader.old)
        → IfOk result (λ found. IfSome found (KeepsHead at (place_of reader.new))) }
    ensures none { kept.new ≡ None }
    ensures later { S.faults (source_of reader.old) ≤ S.faults (source_of reader.new) }
    ensures failed { result ≡ Err InFault.ReadFault → Rose (S.faults (source_of reader.old))
        (S.faults (source_of reader.new)) }
{
    if let Some(head) = *kept {
        *kept = None;
        return Ok(Some(head));
    }
    reader.next_head()
}

// Reads the body of a record whose header was taken, once as many blocks are home as it needs: what [`read_record`]
// says, over the whole record, of whatever bytes its header was taken. The answer says how many blocks it has with its
// spares.
#[inline(always)]
fn finish_record<S: Source>(
    alloc: Global,
    pool: &mut Pool,
    hold: &mut VecDeque<Sole>,
    spares: &mut Pool,
    reader: &mut CaptureReader<'_, S>,
    front: &mut [u8],
    head: &RecHead,
    mark: u32,
    packets: &mut Packets,
) -> Result<u32, Stop>
    requires kept { (at : Place) × KeepsHead at (place_of reader.old) head.now }
    requires front { length front.old ≡ front_size (place_of reader.old).link }
    requires empty { hold.old.items ≡ [] }
    requires capacity { 131 ≤ deque_capacity hold.old }
    requires home { (need_of (head.now.captured - length front.old) ≤ home pool.old)
        × (home pool.old ≤ pool.old.made) }
    requires room { home spares.old + 2 ≤ spares.old.made }
    requires mark { mark ≤ 65536 }
    requires place { 1 ≤ packets.old.room }
    ensures same_source { SameLoan reader.old reader.new }
    ensures given { (at : Place) → (used blocks : ℕ) → KeepsHead at (place_of reader.old) head.now
        → used + need_of (head.now.captured - length front.old) ≤ blocks
        → OfAnswer result packets.old packets.new (λ r. Told (S.left (source_of reader.old))
        (S.left (source_of reader.new)) (GivesKept used blocks at (place_of reader.new) head.now front.new r)) }
    ensures next { (at : Place) → KeepsHead at (place_of reader.old) head.now
        → OnOk result (GoesOn at (place_of reader.new)) }
    ensures front { length front.new ≡ length front.old }
    ensures one { OnOk result (HasOne packets.old packets.new) }
    ensures none { OnErr result (packets.new ≡ packets.old) }
    ensures begun { result ≢ Err Stop.Lacking }
    ensures whole { result ≡ Err Stop.NoMemory → (place_of reader.new).body ≡ 0 }
    ensures room { packets.old.room ≤ packets.new.room + 1 }
    ensures number { OnOk result (OfNew packets.old packets.new (λ p. p.number ≡ head.now.number)) }
    ensures original { OnOk result (OfNew packets.old packets.new (λ p. is_bad_original
        (place_of reader.old).link p.original ≡ false)) }
    ensures behind { OnOk result (OfNew packets.old packets.new (λ p. (place_of reader.new).offset
        ≡ (place_of reader.old).offset × (length front.new + length (buffer_bytes p.skb) ≡ head.now.captured))) }
    ensures laid { OnOk result (OfNew packets.old packets.new (IsLaid mark)) }
    ensures read { OnOk result (OfNew packets.old packets.new IsRead) }
    ensures captured { OnOk result (OfNew packets.old packets.new (λ p. (place_of reader.old).link ≡ Ethernet
        → IsCaptured (packet_of p))) }
    ensures need { OnOk result (OfNew packets.old packets.new (λ p. count_of p + 2
        ≡ need_of (length (buffer_bytes p.skb)))) }
    ensures count { IfOk result (λ r. (r ≡ need_of (head.now.captured - length front.old))
        × OfNew packets.old packets.new (λ p. count_of p + 2 ≡ r)) }
    ensures home { IfOk result (λ r. home pool.new + r ≡ home pool.old) }
    ensures spares { OnOk result (home spares.new ≡ home spares.old + 2) }
    ensures named { OnOk result (OfNew packets.old packets.new (λ p. (h : ℕ → ℕ) → weighed h pool.new.blocks
        + weighed_in h p.skb + weighed h spares.new.blocks ≡ weighed h pool.old.blocks + weighed h spares.old.blocks)) }
    ensures taken { IfOk result (λ r. pool.new.taken ≡ min (pool.old.taken + r) (2 ^ 64 - 1)) }
    ensures back { OnErr result ((home pool.new ≡ home pool.old) × (home spares.new ≡ home spares.old)) }
    ensures named_back { OnErr result ((h : ℕ → ℕ) → (weighed h pool.new.blocks ≡ weighed h pool.old.blocks)
        × (weighed h spares.new.blocks ≡ weighed h spares.old.blocks)) }
    ensures most { pool.new.taken ≤ pool.old.taken + need_of (head.now.captured - length front.old) }
    ensures least { pool.old.taken ≤ pool.new.taken }
    ensures made { (pool.new.made ≡ pool.old.made) × (spares.new.made ≡ spares.old.made) }
    ensures empty { hold.new.items ≡ [] }
    ensures capacity { deque_capacity hold.new ≡ deque_capacity hold.old }
    ensures later { S.faults (source_of reader.old) ≤ S.faults (source_of reader.new) }
    ensures failed { result ≡ Err Stop.ReadFault → Rose (S.faults (source_of reader.old))
        (S.faults (source_of reader.new)) }
{
    let len = head.captured - front.len() as u32;
    read_packet(
        alloc, pool, hold, spares, reader, front, head, len, mark, packets,
    )
}

/// Reads the next record, where its round has `used` blocks: `front`, where its link type has bytes in front of a
/// frame, and the frame into blocks with marks from `mark` on. Its packet goes behind the packets that there are, its
/// two spares to a list that has places for them. The answer says where in the capture its header lies, and how many
/// blocks it has with its spares.
///
/// It is judged in this order: its header, whether the round then needs more blocks than there are, its body. Between
/// them its blocks are home, or are brought. Where they don't come its body isn't read, which is `Lacking`: its header
/// is in `kept` then, and the next call goes on behind it, as if it had begun in front of it. So what is said of the
/// record is said of the place `at` where it begins, and of what was left there. A record that isn't given leaves all
/// blocks home that were or that came, and the packets as they were. One for which there was no memory was read whole
/// (`whole`).
#[inline(always)]
pub fn read_record<S: Source, H: Supply>(
    alloc: Global,
    pool: &mut Pool,
    hold: &mut VecDeque<Sole>,
    spares: &mut Pool,
    reader: &mut CaptureReader<'_, S>,
    more: &mut H,
    kept: &mut Option<RecHead>,
    front: &mut [u8],
    used: u32,
    mark: u32,
    packets: &mut Packets,
) -> Result<(u64, u32), Stop>
    requires stands { (at : Place) × IsAt kept.old at (place_of reader.old) }
    requires front { length front.old ≡ front_size (place_of reader.old).link }
    requires empty { hold.old.items ≡ [] }
    requires capacity { 131 ≤ deque_capacity hold.old }
    requires few { (mark ≤ used) × (used ≤ pool.old.made) }
    requires made { pool.old.made ≤ 65536 }
    requires room { home spares.old + 2 ≤ spares.old.made }
    requires place { 1 ≤ packets.old.room }
    ensures same_source { SameLoan reader.old reader.new }
    ensures tells { Told (S.left (source_of reader.old)) (S.left (source_of reader.new)) (λ _ _. ⊤) }
    ensures given { (at : Place) → (before : Option (List ℕ))
        → StandsAt kept.old at (place_of reader.old) before (S.left (source_of reader.old))
        → OfAnswer result packets.old packets.new (λ r. Told before (S.left (source_of reader.new))
        (GivesRecord used pool.old.made at (place_of reader.new) front.new r)) }
    ensures next { (at : Place) → IsAt kept.old at (place_of reader.old)
        → OnOk result (GoesOn at (place_of reader.new)) }
    ensures front { length front.new ≡ length front.old }
    ensures one { OnOk result (HasOne packets.old packets.new) }
    ensures none { OnErr result (packets.new ≡ packets.old) }
    ensures stands { result ≡ Err Stop.Lacking → (at : Place) → (before : Option (List ℕ))
        → StandsAt kept.old at (place_of reader.old) before (S.left (source_of reader.old))
        → StandsAt kept.new at (place_of reader.new) before (S.left (source_of reader.new)) }
    ensures kept { result ≡ Err Stop.Lacking → (head : RecHead) × (kept.new ≡ Some head)
        × (home pool.new < need_of (head.captured - length front.old))
        × (used + need_of (head.captured - length front.old) ≤ pool.old.made)
        × (pool.new.taken ≡ pool.old.taken) }
    ensures unkept { result ≢ Err Stop.Lacking → kept.new ≡ None }
    ensures whole { result ≡ Err Stop.NoMemory → (place_of reader.new).body ≡ 0 }
    ensures refused { result ≡ Err Stop.Lacking
        → min (H.refusals more.old + 1) (2 ^ 64 - 1) ≤ H.refusals more.new }
    ensures asked { H.refusals more.old ≤ H.refusals more.new }
    ensures room { packets.old.room ≤ packets.new.room + 1 }
    ensures number { (at : Place) → IsAt kept.old at (place_of reader.old)
        → OnOk result (OfNew packets.old packets.new (λ p. p.number ≡ at.number)) }
    ensures original { OnOk result (OfNew packets.old packets.new (λ p. is_bad_original
        (place_of reader.old).link p.original ≡ false)) }
    ensures offset { (at : Place) → IsAt kept.old at (place_of reader.old)
        → IfOk result (λ r. r.0 ≡ at.offset) }
    ensures behind { (at : Place) → IsAt kept.old at (place_of reader.old)
        → OnOk result (OfNew packets.old packets.new (λ p. (place_of reader.new).offset
        ≡ at.offset + 16 + (length front.new + length (buffer_bytes p.skb)))) }
    ensures laid { OnOk result (OfNew packets.old packets.new (IsLaid mark)) }
    ensures read { OnOk result (OfNew packets.old packets.new IsRead) }
    ensures captured { OnOk result (OfNew packets.old packets.new (λ p. (place_of reader.old).link ≡ Ethernet
        → IsCaptured (packet_of p))) }
    ensures need { OnOk result (OfNew packets.old packets.new (λ p. count_of p + 2
        ≡ need_of (length (buffer_bytes p.skb)))) }
    ensures count { IfOk result (λ r. OfNew packets.old packets.new (λ p. count_of p + 2 ≡ r.1)) }
    ensures home { IfOk result (λ r. home pool.new + r.1 + H.weights more.old (λ _. 1)
        ≡ home pool.old + H.weights more.new (λ _. 1)) }
    ensures spares { OnOk result (home spares.new ≡ home spares.old + 2) }
    ensures named { OnOk result (OfNew packets.old packets.new (λ p. (h : ℕ → ℕ) → weighed h pool.new.blocks
        + weighed_in h p.skb + weighed h spares.new.blocks + H.weights more.old h
        ≡ weighed h pool.old.blocks + weighed h spares.old.blocks + H.weights more.new h)) }
    ensures fits { IfOk result (λ r. used + r.1 ≤ pool.old.made) }
    ensures taken { IfOk result (λ r. pool.new.taken ≡ min (pool.old.taken + r.1) (2 ^ 64 - 1)) }
    ensures back { OnErr result ((home pool.new + H.weights more.old (λ _. 1)
        ≡ home pool.old + H.weights more.new (λ _. 1)) × (home spares.new ≡ home spares.old)) }
    ensures named_back { OnErr result ((h : ℕ → ℕ) → (weighed h pool.new.blocks + H.weights more.old h
        ≡ weighed h pool.old.blocks + H.weights more.new h)
        × (weighed h spares.new.blocks ≡ weighed h spares.old.blocks)) }
    ensures most { OnErr result (pool.new.taken + used ≤ pool.old.taken + pool.old.made) }
    ensures least { pool.old.taken ≤ pool.new.taken }
    ensures made { (pool.new.made ≡ pool.old.made) × (spares.new.made ≡ spares.old.made) }
    ensures empty { hold.new.items ≡ [] }
    ensures capacity { deque_capacity hold.new ≡ deque_capacity hold.old }
    ensures later { S.faults (source_of reader.old) ≤ S.faults (source_of reader.new) }
    ensures failed { result ≡ Err Stop.ReadFault → Rose (S.faults (source_of reader.old))
        (S.faults (source_of reader.new)) }
{
    let _ = pool.taken();
    let _ = pool.home();
    let found = match find_head(reader, kept) {
        Ok(found) => found,
        Err(fault) => return Err(stop_of(fault)),
    };
    let Some(head) = found else {
        return Err(Stop::End);
    };
    let len = head.captured - front.len() as u32;
    let count = blocks_of(len) + 2;
    let need = used + count;
    if need > pool.made() {
        return Err(Stop::PoolEmpty { need });
    }
    if !has_blocks(pool, more, count) {
        *kept = Some(head);
        return Err(Stop::Lacking);
    }
    match finish_record(
        alloc, pool, hold, spares, reader, front, &head, mark, packets,
    ) {
        Ok(_) => Ok((head.offset, count)),
        Err(stop) => Err(stop),
    }
}
