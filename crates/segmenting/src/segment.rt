//! Segments the records of an offload capture, each a round of its own.
ghost use Rattle.std.specs.Prelude.{◌≡◌, ◌≢◌, ◌+◌, ◌-◌, ◌*◌, ◌<◌, ◌≤◌, ◌^◌, [], ◌∷◌, length, min, IfOk, Ok, Err};
ghost use Rattle.std.specs.Prelude.{ℕ};
ghost use Rattle.std.specs.List.{flat_map};
ghost use Rattle.block_pool.specs.PoolState.{weighed};
ghost use Rattle.off_io.specs.Faults.{Rose};
ghost use Rattle.off_io.specs.Told.{Told};
ghost use Rattle.pcap_io.specs.declared.heads.Link.TheVariants.{Offload};
ghost use Rattle.pcap_io.specs.Places.{IsReady, found_at};
ghost use Rattle.pcap_io.specs.Readers.{place_of, source_of, SameLoan};
ghost use Rattle.reading.specs.Reading.{GoesOn};
ghost use Rattle.segmenting.specs.Segmenting.{IsFaultOf, IsMovedOf, Moves, TakesBy};

use crate::cut::{Refused, cut_record};
use block_pool::Pool;
use block_supply::{AllHome, RECORD_BLOCKS};
use frags::Outcomes;
use gro::{Packets, Slot};
use off_io::{Sink, Source};
use pcap_io::{CapFault, CapKind, CaptureReader, OFF_HEAD_LEN};
use raw_block::Sole;
use reading::{Stop, read_record};
use std::alloc::{AllocError, Global};
use std::collections::VecDeque;
use std::marker::Model;

/// Whether a record was segmented.
#[derive(Clone, Copy, Debug, PartialEq, Eq)]
pub enum Moved {
    /// The next record's segments are written.
    One,
    /// There is no record any more.
    End,
}

/// Why a record wasn't segmented.
#[derive(Clone, Copy, Debug, PartialEq, Eq)]
pub enum SegFault {
    /// The record is refused; nothing is written for it.
    Malformed(CapFault),
    /// The record needs this many blocks, and there are fewer; nothing is written for it.
    PoolEmpty { need: u32 },
    /// The source failed; nothing is written for the record.
    ReadFault,
    /// The sink failed; a prefix of the record's segments is written.
    WriteFault,
    /// There was no memory; a prefix of the record's segments is written.
    NoMemory,
}

/// A pool of blocks for one record at a time, and memory that each uses again. Dropping it frees the blocks.
pub struct SegmentRun {
    /// Where the memory for pieces comes from.
    alloc: Global,
    /// All its blocks are home between two records.
    pool: Pool,
    // The blocks of the record that is being read.
    hold: VecDeque<Sole>,
    // Those of it that its need counts and nothing reads.
    spares: Pool,
    // Its packet, from when it was read until it is written.
    packets: Packets,
    // An offload header lies in a record's first block, so taking it off gives no block back.
    out: Outcomes,
}

impl Model for SegmentRun {
    ghost use Rattle.std.specs.Prelude.{◌≡◌, ◌≤◌, []};
    ghost use Rattle.std.specs.VecDeque.{deque_capacity};
    ghost use Rattle.block_pool.specs.PoolState.{home as home_of};
    ghost use Rattle.segmenting.specs.SegmentState.{SegmentState};
    ghost use Rattle.frags.specs.OutcomesState.{IsBare};

    ghost Value = { SegmentState };

    ghost view = { λ r. record {
      home = home_of r.pool;
      stock = r.pool.blocks;
      blocks = r.pool.made;
      taken = r.pool.taken;
    } };

    ghost invariant = { λ r. (r.pool.made ≤ 65536) × (r.hold.items ≡ []) × (131 ≤ deque_capacity r.hold)
        × (home_of r.spares ≡ 0) × (2 ≤ r.spares.made) × (r.packets.items ≡ []) × (1 ≤ r.packets.room)
        × IsBare r.out };
}

impl Drop for SegmentRun {
    fn drop(self) {
        let SegmentRun {
            alloc: _,
            pool: _pool,
            hold: _hold,
            spares: _spares,
            packets,
            out,
        } = self;
        packets.discard();
        out.settle();
    }
}

// What no record to segment comes to. All blocks are home, so it lacks none.
fn stopped(stop: Stop) -> Result<Moved, SegFault>
    requires begun { stop ≢ Stop.Lacking }
    ensures moved { IsMovedOf stop result }
{
    match stop {
        Stop::End => Ok(Moved::End),
        Stop::Malformed(fault) => Err(SegFault::Malformed(fault)),
        Stop::PoolEmpty { need } => Err(SegFault::PoolEmpty { need }),
        Stop::ReadFault => Err(SegFault::ReadFault),
        Stop::NoMemory => Err(SegFault::NoMemory),
        Stop::Lacking => unreachable!(),
    }
}

// The packet of the record that was read, which alone is in its list.
fn only_packet(packets: &mut Packets) -> Slot
    requires one { length packets.old.items ≡ 1 }
    ensures only { packets.old.items ≡ result ∷ [] }
    ensures none { packets.new.items ≡ [] }
    ensures room { packets.old.room + 1 ≤ packets.new.room }
{
    match packets.pop() {
        Some(packet) => packet,
        None => unreachable!(),
    }
}

// Why the record with this number, whose header lies at this offset, isn't segmented.
fn fault_of(refused: Refused, offset: u64, number: u32) -> SegFault
    ensures fault { IsFaultOf refused offset number result }
{
    match refused {
        Refused::BadOffload => SegFault::Malformed(CapFault {
            kind: CapKind::BadOffload,
            offset,
            number: u64::from(number),
        }),
        Refused::WriteFault => SegFault::WriteFault,
    }
}

impl SegmentRun {
    /// A pool of `blocks` blocks. All memory for blocks is taken here.
    pub fn make(alloc: Global, blocks: u32) -> Result<SegmentRun, AllocError>
        requires blocks { (1 ≤ blocks) × (blocks ≤ 65536) }
        ensures made { IfOk result (λ run. run
            ≡ record { home = blocks; stock = run.stock; blocks = blocks; taken = 0 }) }
        ensures stock { IfOk result (λ run. length run.stock ≡ blocks) }
    {
        let hold = VecDeque::with_capacity(alloc, RECORD_BLOCKS)?;
        let pool = Pool::make(alloc, blocks)?;
        let spares = Pool::empty(alloc, 2)?;
        let packets = Packets::with_capacity(alloc, 1)?;
        Ok(SegmentRun {
            alloc,
            pool,
            hold,
            spares,
            packets,
            out: Outcomes::new(alloc),
        })
    }

    /// The blocks that are home: between two calls of `next` all of them.
    pub fn home(&self) -> u32
        ensures home { result ≡ self.now.home }
        ensures stock { result ≡ length self.now.stock }
        ensures within { result ≤ self.now.blocks }
    {
        self.pool.home()
    }

    /// The blocks that were taken, from the first record on. It stays at `2^64 - 1`.
    pub fn taken(&self) -> u64
        ensures value { result ≡ self.now.taken }
    {
        self.pool.taken()
    }

    /// Segments the next record: it is read into blocks, judged as a whole, and its segments are written, each behind
    /// its record header. The sink isn't flushed.
    ///
    /// A record is judged in this order: its header, whether it needs more blocks than there are, its body, its offload
    /// header and frame. A read fault or a write fault only where the count of the source or the sink rose. All blocks
    /// are home again, whatever the answer.
    pub fn next<S: Source, K: Sink>(
        &mut self,
        reader: &mut CaptureReader<'_, S>,
        sink: &mut K,
    ) -> Result<Moved, SegFault>
        requires ready { IsReady (place_of reader.old) }
        requires link { (place_of reader.old).link ≡ Offload }
        requires home { self.old.home ≡ self.old.blocks }
        ensures same_source { SameLoan reader.old reader.new }
        ensures given { Told (S.left (source_of reader.old)) (S.left (source_of reader.new))
            (Moves self.old.blocks (place_of reader.old) (place_of reader.new) (K.held sink.old)
            (K.held sink.new) result) }
        ensures next { result ≡ Ok Moved.One → GoesOn (place_of reader.old) (place_of reader.new) }
        ensures home { self.new.home ≡ self.new.blocks }
        ensures named { (h : ℕ → ℕ) → weighed h self.new.stock ≡ weighed h self.old.stock }
        ensures same { self.new.blocks ≡ self.old.blocks }
        ensures taken { Told (S.left (source_of reader.old)) (S.left (source_of reader.new))
            (TakesBy result self.old.taken self.new.taken (place_of reader.old) (place_of reader.new)) }
        ensures least { self.old.taken ≤ self.new.taken }
        ensures most { self.new.taken ≤ self.old.taken + self.old.blocks }
        ensures later { S.faults (source_of reader.old) ≤ S.faults (source_of reader.new) }
        ensures later_sink { K.faults sink.old ≤ K.faults sink.new }
        ensures read { result ≡ Err SegFault.ReadFault → Rose (S.faults (source_of reader.old))
            (S.faults (source_of reader.new)) }
        ensures write { result ≡ Err SegFault.WriteFault → Rose (K.faults sink.old) (K.faults sink.new) }
    {
        let _ = self.pool.taken();
        let file = reader.file();
        let mut front = [0u8; OFF_HEAD_LEN];
        let read = read_record(
            self.alloc,
            &mut self.pool,
            &mut self.hold,
            &mut self.spares,
            reader,
            &mut AllHome::new(),
            &mut None,
            &mut front,
            0,
            0,
            &mut self.packets,
        );
        let offset = match read {
            Ok((offset, _)) => offset,
            Err(stop) => return stopped(stop),
        };
        let packet = only_packet(&mut self.packets);
        let number = packet.number;
        let wrote = cut_record(sink, &file, &front, packet, &mut self.pool, &mut self.out);
        self.pool.refill(&mut self.spares);
        match wrote {
            Ok(()) => Ok(Moved::One),
            Err(refused) => Err(fault_of(refused, offset, number)),
        }
    }
}
