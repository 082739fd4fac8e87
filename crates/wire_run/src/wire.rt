//! Writes a capture as it goes over the wire, record by record over one pool of blocks.
ghost use Rattle.std.specs.Prelude.{◌≡◌, ◌≤◌, ◌⊎◌};
ghost use Rattle.std.specs.Io.KnownBytes.{Keeps};
ghost use Rattle.off_io.specs.Faults.{Rose};
ghost use Rattle.off_io.specs.Told.{Told};
ghost use Rattle.pcap_io.specs.declared.heads.Link.TheVariants.{Ethernet};
ghost use Rattle.pcap_io.specs.Places.{IsReady, first_place, found_at};
ghost use Rattle.pcap_io.specs.Readers.{place_of, source_of, SameLoan};
ghost use Rattle.offload_model.specs.Passing.{Passes, PrefixUnless};
ghost use Rattle.command_answers.specs.Ending.{ending_of, Ends, FlushesAt, HasBlocks, IsCaused};
ghost use Rattle.wire_model.specs.Counting.{counts_from};
ghost use Rattle.wire_model.specs.Passing.{wiring};
ghost use Rattle.wire_words.specs.Options.{AreInRange};
ghost use Rattle.wire_run.specs.Answers.{HasWired};
ghost use Rattle.wire_run.specs.Wired.{GivesUp, WiredAll};

use command_answers::{Status, finish, refused};
use off_io::{Sink, Source, WriteFault};
use pcap_io::{CaptureReader, FileHead, Link, take_file, write_file_head};
use std::alloc::Global;
use wire_model::{Counts, wires_grow};
use wire_records::{Moved, SegFault, WireRun};
use wire_words::WireOptions;

// Ends at the fault of a record, behind `round` others and over this many blocks. What is written is flushed, where
// that can be.
fn give_up<K: Sink>(sink: &mut K, fault: SegFault, round: u64, blocks: u32) -> Status
    ensures answer { GivesUp round fault result }
    ensures content { Keeps (K.held sink.old) (K.held sink.new) }
    ensures flushed { FlushesAt (K.held sink.new) (K.is_flushed sink.new) (ending_of result) }
    ensures blocks { HasBlocks blocks result }
    ensures not_ok { result ≡ Status.Ok → ⊥ }
    ensures not_usage { result ≡ Status.Usage → ⊥ }
    ensures later { K.faults sink.old ≤ K.faults sink.new }
    ensures read { result ≡ Status.ReadFault → fault ≡ SegFault.ReadFault }
    ensures write { result ≡ Status.WriteFault → (fault ≡ SegFault.WriteFault)
        ⊎ Rose (K.faults sink.old) (K.faults sink.new) }
{
    match fault {
        SegFault::Malformed(fault) => finish(sink, Status::Malformed(fault)),
        SegFault::PoolEmpty { need } => finish(
            sink,
            Status::PoolEmpty {
                round,
                need,
                blocks,
            },
        ),
        SegFault::ReadFault => finish(sink, Status::ReadFault),
        SegFault::WriteFault => Status::WriteFault,
        SegFault::NoMemory => Status::NoMemory,
    }
}

// Writes the records of a capture up to its end, and flushes the sink.
fn wire_all<S: Source, K: Sink>(
    run: &mut WireRun,
    options: WireOptions,
    reader: &mut CaptureReader<'_, S>,
    sink: &mut K,
    counts: &mut Counts,
) -> Status
    requires ready { IsReady (place_of reader.old) }
    requires link { (place_of reader.old).link ≡ Ethernet }
    requires first { (place_of reader.old).number ≡ 0 }
    requires range { AreInRange options }
    requires blocks { run.old.blocks ≡ options.blocks }
    requires home { run.old.home ≡ run.old.blocks }
    ensures same_source { SameLoan reader.old reader.new }
    ensures wired { WiredAll options.blocks options.wiring counts.old counts.new (place_of reader.old)
        (S.left (source_of reader.old)) (S.left (source_of reader.new)) (K.held sink.old) (K.held sink.new)
        (K.is_flushed sink.new) result }
    ensures caused { IsCaused (S.faults (source_of reader.old)) (S.faults (source_of reader.new)) (K.faults sink.old)
        (K.faults sink.new) result }
{
    let mut round = 0u64;
    'records: loop {
        match run.next(reader, sink, options.wiring, counts) {
            Ok(moved) => match moved {
                Moved::One => round += 1,
                Moved::End => return finish(sink, Status::Ok),
            },
            Err(fault) => return give_up(sink, fault, round, options.blocks),
        }
    }
}

// Writes the records behind a file header.
fn wire_behind<S: Source, K: Sink>(
    run: &mut WireRun,
    options: WireOptions,
    file: FileHead,
    source: &mut S,
    sink: &mut K,
    counts: &mut Counts,
) -> Status
    requires range { AreInRange options }
    requires blocks { run.old.blocks ≡ options.blocks }
    requires home { run.old.home ≡ run.old.blocks }
    ensures wired { WiredAll options.blocks options.wiring counts.old counts.new (first_place file Ethernet 0)
        (S.left source.old) (S.left source.new) (K.held sink.old) (K.held sink.new) (K.is_flushed sink.new) result }
    ensures caused { IsCaused (S.faults source.old) (S.faults source.new) (K.faults sink.old) (K.faults sink.new)
        result }
{
    let mut reader = CaptureReader::after_file(source, file, Link::Ethernet);
    wire_all(run, options, &mut reader, sink, counts)
}

// Makes the pool, and writes the records behind a file header.
fn wire_records<S: Source, K: Sink>(
    alloc: Global,
    options: WireOptions,
    file: FileHead,
    source: &mut S,
    sink: &mut K,
    counts: &mut Counts,
) -> Status
    requires range { AreInRange options }
    ensures given { Told (S.left source.old) (S.left source.new)
        (Ends (Passes (wiring options.blocks options.wiring (first_place file Ethernet 0)) (K.held sink.old)
        (K.held sink.new)) (ending_of result)) }
    ensures prefix { PrefixUnless ⊥ (wiring options.blocks options.wiring (first_place file Ethernet 0))
        (S.left source.old) (S.left source.new) (K.held sink.old) (K.held sink.new) }
    ensures flushed { FlushesAt (K.held sink.new) (K.is_flushed sink.new) (ending_of result) }
    ensures blocks { HasBlocks options.blocks result }
    ensures counts { result ≡ Status.Ok → Told (S.left source.old) (S.left source.new) (λ rest left. counts.new
        ≡ counts_from options.wiring counts.old (found_at (first_place file Ethernet 0) rest).packets) }
    ensures caused { IsCaused (S.faults source.old) (S.faults source.new) (K.faults sink.old) (K.faults sink.new)
        result }
{
    wires_grow();
    match WireRun::make(alloc, options.blocks) {
        Ok(run) => {
            let mut run = run;
            wire_behind(&mut run, options, file, source, sink, counts)
        }
        Err(_) => Status::NoMemory,
    }
}

/// Writes a whole capture of Ethernet frames as it goes over the wire, and counts what was done. Where its file header
/// is refused no block is made.
pub fn run_wire<S: Source, K: Sink>(
    alloc: Global,
    options: WireOptions,
    source: &mut S,
    sink: &mut K,
    counts: &mut Counts,
) -> Status
    requires range { AreInRange options }
    requires none { counts.old ≡ record { filled = 0; wrong = 0; cut = 0; long = 0 } }
    ensures wired { HasWired options (S.left source.old) (S.left source.new) (K.held sink.old) (K.held sink.new)
        (K.is_flushed sink.new) (sink.new ≡ sink.old) counts.new result }
    ensures caused { IsCaused (S.faults source.old) (S.faults source.new) (K.faults sink.old) (K.faults sink.new)
        result }
{
    let file = match take_file(source, Link::Ethernet) {
        Ok(file) => file,
        Err(fault) => return refused(fault),
    };
    match write_file_head(sink, &file, Link::Ethernet) {
        Ok(()) => wire_records(alloc, options, file, source, sink, counts),
        Err(WriteFault) => Status::WriteFault,
    }
}
