//! Writes the records of a capture as they go over the wire, each a round of its own.
ghost use Rattle.std.specs.Prelude.{◌≡◌, ◌≢◌, ◌+◌, ◌<◌, ◌≤◌, [], ◌∷◌, length, IfOk, Ok, Err};
ghost use Rattle.off_io.specs.Faults.{Rose};
ghost use Rattle.off_io.specs.Told.{Told};
ghost use Rattle.pcap_io.specs.declared.heads.Link.TheVariants.{Ethernet};
ghost use Rattle.pcap_io.specs.Places.{IsReady};
ghost use Rattle.pcap_io.specs.Readers.{place_of, source_of, SameLoan};
ghost use Rattle.reading.specs.Reading.{GoesOn};
ghost use Rattle.wire_records.specs.Moving.{CountsOne, IsMovedOf, Moves};

use block_pool::Pool;
use block_supply::{AllHome, RECORD_BLOCKS};
use frags::Outcomes;
use gro::{Packets, Slot};
use off_io::{Sink, Source, WriteFault};
use pcap_io::CaptureReader;
use raw_block::Sole;
use reading::{Stop, read_record};
use segmenting::{Moved, SegFault};
use std::alloc::{AllocError, Global};
use std::collections::VecDeque;
use std::marker::Model;
use wire_model::{Counts, Wiring};
use wire_packet::wire_packet;

/// A pool of blocks for one record at a time, and memory that each uses again. Dropping it frees the blocks.
pub struct WireRun {
    /// Where the memory for pieces comes from.
    alloc: Global,
    /// All its blocks are home between two records.
    pool: Pool,
    // The blocks of the record that is being read.
    hold: VecDeque<Sole>,
    // Those of it that its need counts and nothing reads.
    spares: Pool,
    // Its packet, from when it was read until it is written.
    packets: Packets,
    // Headers lie in a record's first block, so writing them anew gives no block back.
    out: Outcomes,
}

impl Model for WireRun {
    ghost use Rattle.std.specs.Prelude.{◌≡◌, ◌≤◌, []};
    ghost use Rattle.std.specs.VecDeque.{deque_capacity};
    ghost use Rattle.block_pool.specs.PoolState.{home as home_of};
    ghost use Rattle.wire_records.specs.RunState.{RunState};
    ghost use Rattle.frags.specs.OutcomesState.{IsBare};

    ghost Value = { RunState };

    ghost view = { λ r. record { home = home_of r.pool; blocks = r.pool.made } };

    ghost invariant = { λ r. (r.pool.made ≤ 65536) × (r.hold.items ≡ []) × (131 ≤ deque_capacity r.hold)
        × (home_of r.spares ≡ 0) × (2 ≤ r.spares.made) × (r.packets.items ≡ []) × (1 ≤ r.packets.room)
        × IsBare r.out };
}

impl Drop for WireRun {
    fn drop(self) {
        let WireRun {
            alloc: _,
            pool: _pool,
            hold: _hold,
            spares: _spares,
            packets,
            out,
        } = self;
        packets.discard();
        out.settle();
    }
}

// What no record to write comes to. All blocks are home, so it lacks none.
fn stopped(stop: Stop) -> Result<Moved, SegFault>
    requires begun { stop ≢ Stop.Lacking }
    ensures moved { IsMovedOf stop result }
{
    match stop {
        Stop::End => Ok(Moved::End),
        Stop::Malformed(fault) => Err(SegFault::Malformed(fault)),
        Stop::PoolEmpty { need } => Err(SegFault::PoolEmpty { need }),
        Stop::ReadFault => Err(SegFault::ReadFault),
        Stop::NoMemory => Err(SegFault::NoMemory),
        Stop::Lacking => unreachable!(),
    }
}

// The packet of the record that was read, which alone is in its list.
fn only_packet(packets: &mut Packets) -> Slot
    requires one { length packets.old.items ≡ 1 }
    ensures only { packets.old.items ≡ result ∷ [] }
    ensures none { packets.new.items ≡ [] }
    ensures room { packets.old.room + 1 ≤ packets.new.room }
{
    match packets.pop() {
        Some(packet) => packet,
        None => unreachable!(),
    }
}

impl WireRun {
    /// A pool of `blocks` blocks. All memory for blocks is taken here.
    pub fn make(alloc: Global, blocks: u32) -> Result<WireRun, AllocError>
        requires blocks { (1 ≤ blocks) × (blocks ≤ 65536) }
        ensures made { IfOk result (λ run. run ≡ record { home = blocks; blocks = blocks }) }
    {
        let hold = VecDeque::with_capacity(alloc, RECORD_BLOCKS)?;
        let pool = Pool::make(alloc, blocks)?;
        let spares = Pool::empty(alloc, 2)?;
        let packets = Packets::with_capacity(alloc, 1)?;
        Ok(WireRun {
            alloc,
            pool,
            hold,
            spares,
            packets,
            out: Outcomes::new(alloc),
        })
    }

    /// Writes the next record as it goes over the wire: it is read into blocks, its sums are filled in, and what stands
    /// on the wire of it is written, each packet behind its record header, and counted. The sink isn't flushed.
    ///
    /// A record is judged in this order: its header, whether it needs more blocks than there are, its body. A read
    /// fault or a write fault only where the count of the source or the sink rose. All blocks are home again,
    /// whatever the answer.
    pub fn next<S: Source, K: Sink>(
        &mut self,
        reader: &mut CaptureReader<'_, S>,
        sink: &mut K,
        wiring: Wiring,
        counts: &mut Counts,
    ) -> Result<Moved, SegFault>
        requires ready { IsReady (place_of reader.old) }
        requires link { (place_of reader.old).link ≡ Ethernet }
        requires home { self.old.home ≡ self.old.blocks }
        requires mss { (1 ≤ wiring.mss) × (wiring.mss ≤ 65535) }
        ensures same_source { SameLoan reader.old reader.new }
        ensures given { Told (S.left (source_of reader.old)) (S.left (source_of reader.new))
            (Moves self.old.blocks wiring (place_of reader.old) (place_of reader.new) (K.held sink.old)
            (K.held sink.new) result) }
        ensures next { result ≡ Ok Moved.One → GoesOn (place_of reader.old) (place_of reader.new) }
        ensures counted { result ≡ Ok Moved.One → Told (S.left (source_of reader.old))
            (S.left (source_of reader.new))
            (CountsOne wiring counts.old counts.new (place_of reader.old) (place_of reader.new)) }
        ensures uncounted { result ≡ Ok Moved.End → counts.new ≡ counts.old }
        ensures home { self.new.home ≡ self.new.blocks }
        ensures same { self.new.blocks ≡ self.old.blocks }
        ensures later { S.faults (source_of reader.old) ≤ S.faults (source_of reader.new) }
        ensures later_sink { K.faults sink.old ≤ K.faults sink.new }
        ensures read { result ≡ Err SegFault.ReadFault → Rose (S.faults (source_of reader.old))
            (S.faults (source_of reader.new)) }
        ensures write { result ≡ Err SegFault.WriteFault → Rose (K.faults sink.old) (K.faults sink.new) }
    {
        let file = reader.file();
        let mut front = [0u8; 0];
        let read = read_record(
            self.alloc,
            &mut self.pool,
            &mut self.hold,
            &mut self.spares,
            reader,
            &mut AllHome::new(),
            &mut None,
            &mut front,
            0,
            0,
            &mut self.packets,
        );
        match read {
            Ok(_) => {}
            Err(stop) => return stopped(stop),
        }
        let packet = only_packet(&mut self.packets);
        let wrote = wire_packet(
            sink,
            &file,
            wiring,
            packet,
            &mut self.pool,
            &mut self.out,
            counts,
        );
        self.pool.refill(&mut self.spares);
        match wrote {
            Ok(()) => Ok(Moved::One),
            Err(WriteFault) => Err(SegFault::WriteFault),
        }
    }
}
