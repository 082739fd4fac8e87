//! Reads a record's body into blocks.
ghost use Rattle.std.specs.Prelude.{◌≡◌, ◌+◌, ◌-◌, ◌/◌, ◌≤◌, [], ◌∷◌, length, slice_range, Err};
ghost use Rattle.std.specs.VecDeque.{deque_capacity};
ghost use Rattle.off_io.specs.Told.{Told};
ghost use Rattle.pcap_io.specs.Reading.{GivesBody};
ghost use Rattle.pcap_io.specs.Readers.{place_of, source_of, SameLoan};
ghost use Rattle.reading.specs.Data.{GivesData, GivesFrame, data_of};
ghost use Rattle.reading.specs.Laid.{most_read, most_short};
ghost use Rattle.offload_model.specs.Need.{data_blocks};
ghost use Rattle.offload_model.specs.Laws.{InBytes};
ghost use Rattle.reading.specs.Bodies.{AreReadInto, HasBytes, IsReadInto, ReadsBody};

use off_io::Source;
use pcap_io::{CaptureReader, InFault};
use raw_block::{BLOCK_SIZE, Sole};
use skb::HEADROOM;
use std::collections::VecDeque;

// What a slice of bytes holds are bytes.
fn in_bytes(bytes: &[u8])
    ensures bytes { InBytes bytes.now }
{}

// Fills the bytes `from..to` of a block with the next bytes of the record's body.
#[inline(always)]
fn read_block<S: Source>(
    reader: &mut CaptureReader<'_, S>,
    block: &mut Sole,
    from: usize,
    to: usize,
) -> Result<(), InFault>
    requires range { (from ≤ to) × (to ≤ 2048) }
    requires room { to ≤ from + (place_of reader.old).body }
    ensures same_source { SameLoan reader.old reader.new }
    ensures given { Told (S.left (source_of reader.old)) (S.left (source_of reader.new))
        (GivesBody (place_of reader.old) result (slice_range block.new.bytes from to)) }
    ensures size { length (slice_range block.new.bytes from to) + from ≡ to }
    ensures in_bytes { InBytes (slice_range block.new.bytes from to) }
    ensures block { IsReadInto block.old block.new }
    ensures reads { ReadsBody InFault.ReadFault (place_of reader.old) (place_of reader.new) (to - from)
        (S.faults (source_of reader.old)) (S.faults (source_of reader.new)) result }
{
    let _ = block.bytes();
    let range = block.range_mut(from, to);
    let read = reader.read_body(range);
    in_bytes(range);
    read
}

// Reads the bytes in front of a frame. It stands apart, so that the test for any is inlined alone.
#[inline(never)]
fn read_ahead<S: Source>(reader: &mut CaptureReader<'_, S>, front: &mut [u8]) -> Result<(), InFault>
    requires body { length front.old ≤ (place_of reader.old).body }
    ensures same_source { SameLoan reader.old reader.new }
    ensures given { Told (S.left (source_of reader.old)) (S.left (source_of reader.new))
        (GivesBody (place_of reader.old) result front.new) }
    ensures front { length front.new ≡ length front.old }
    ensures reads { ReadsBody InFault.ReadFault (place_of reader.old) (place_of reader.new) (length front.old)
        (S.faults (source_of reader.old)) (S.faults (source_of reader.new)) result }
{
    reader.read_body(front)
}

// The same, where there are any.
#[inline(always)]
fn read_front<S: Source>(reader: &mut CaptureReader<'_, S>, front: &mut [u8]) -> Result<(), InFault>
    requires body { length front.old ≤ (place_of reader.old).body }
    ensures same_source { SameLoan reader.old reader.new }
    ensures given { Told (S.left (source_of reader.old)) (S.left (source_of reader.new))
        (GivesBody (place_of reader.old) result front.new) }
    ensures front { length front.new ≡ length front.old }
    ensures reads { ReadsBody InFault.ReadFault (place_of reader.old) (place_of reader.new) (length front.old)
        (S.faults (source_of reader.old)) (S.faults (source_of reader.new)) result }
{
    if front.is_empty() {
        return Ok(());
    }
    read_ahead(reader, front)
}

/// Reads what one block has of the body of the record that was begun: first `front`, and then `len` bytes behind the
/// block's headroom.
#[inline(always)]
pub(crate) fn read_head<S: Source>(
    reader: &mut CaptureReader<'_, S>,
    front: &mut [u8],
    block: &mut Sole,
    len: usize,
) -> Result<(), InFault>
    requires short { len ≤ most_short }
    requires body { length front.old + len ≤ (place_of reader.old).body }
    ensures same_source { SameLoan reader.old reader.new }
    ensures given { Told (S.left (source_of reader.old)) (S.left (source_of reader.new))
        (GivesFrame (place_of reader.old) front.new len result (block.new ∷ [])) }
    ensures bytes { HasBytes len (data_of 64 len (block.new ∷ [])) result }
    ensures front { length front.new ≡ length front.old }
    ensures block { IsReadInto block.old block.new }
    ensures reads { ReadsBody InFault.ReadFault (place_of reader.old) (place_of reader.new) (length front.old + len)
        (S.faults (source_of reader.old)) (S.faults (source_of reader.new)) result }
{
    match read_front(reader, front) {
        Ok(()) => {}
        Err(fault) => return Err(fault),
    }
    read_block(reader, block, HEADROOM, HEADROOM + len)
}

// Reads `size` bytes into blocks, from the first byte of each on.
fn read_blocks<S: Source>(
    reader: &mut CaptureReader<'_, S>,
    hold: &mut VecDeque<Sole>,
    size: usize,
) -> Result<(), InFault>
    requires body { size ≤ (place_of reader.old).body }
    requires blocks { (size + 2047) / 2048 ≡ length hold.old.items }
    ensures same_source { SameLoan reader.old reader.new }
    ensures given { Told (S.left (source_of reader.old)) (S.left (source_of reader.new))
        (GivesData (place_of reader.old) size result hold.new.items) }
    ensures bytes { HasBytes size (data_of 0 size hold.new.items) result }
    ensures blocks { AreReadInto hold.old.items hold.new.items }
    ensures capacity { deque_capacity hold.new ≡ deque_capacity hold.old }
    ensures reads { ReadsBody InFault.ReadFault (place_of reader.old) (place_of reader.new) size
        (S.faults (source_of reader.old)) (S.faults (source_of reader.new)) result }
{
    let mut left = size;
    for i in 0..hold.len() {
        let count = left.min(BLOCK_SIZE);
        match read_block(reader, &mut hold[i], 0, count) {
            Ok(()) => {}
            Err(fault) => return Err(fault),
        }
        left -= count;
    }
    Ok(())
}

/// Reads the body of the record that was begun: first `front`, and then `len` bytes into the blocks that were taken for
/// it, behind the headroom of the first.
pub(crate) fn read_frame<S: Source>(
    reader: &mut CaptureReader<'_, S>,
    front: &mut [u8],
    first: &mut Sole,
    hold: &mut VecDeque<Sole>,
    len: u32,
) -> Result<(), InFault>
    requires len { len ≤ most_read }
    requires body { (place_of reader.old).body ≡ length front.old + len }
    requires blocks { data_blocks len ≡ length hold.old.items + 1 }
    ensures same_source { SameLoan reader.old reader.new }
    ensures given { Told (S.left (source_of reader.old)) (S.left (source_of reader.new))
        (GivesFrame (place_of reader.old) front.new len result (first.new ∷ hold.new.items)) }
    ensures bytes { HasBytes len (data_of 64 len (first.new ∷ hold.new.items)) result }
    ensures front { length front.new ≡ length front.old }
    ensures first { IsReadInto first.old first.new }
    ensures blocks { AreReadInto hold.old.items hold.new.items }
    ensures capacity { deque_capacity hold.new ≡ deque_capacity hold.old }
    ensures reads { ReadsBody InFault.ReadFault (place_of reader.old) (place_of reader.new) (length front.old + len)
        (S.faults (source_of reader.old)) (S.faults (source_of reader.new)) result }
{
    let size = len as usize;
    let in_head = size.min(BLOCK_SIZE - HEADROOM);
    match read_head(reader, front, first, in_head) {
        Ok(()) => {}
        Err(fault) => return Err(fault),
    }
    read_blocks(reader, hold, size - in_head)
}
