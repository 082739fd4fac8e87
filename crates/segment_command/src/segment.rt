//! Segments a capture, record by record over one pool of blocks.
ghost use Rattle.std.specs.Prelude.{◌≡◌, ◌≤◌, ◌-◌, ◌+◌, ◌⊎◌, Some, None};
ghost use Rattle.std.specs.Io.KnownBytes.{Keeps};
ghost use Rattle.off_io.specs.Faults.{Rose};
ghost use Rattle.off_io.specs.Told.{Told};
ghost use Rattle.pcap_io.specs.declared.heads.Link.TheVariants.{Ethernet, Offload};
ghost use Rattle.pcap_io.specs.Capture.{reads};
ghost use Rattle.pcap_io.specs.Places.{IsReady, first_place, found_at};
ghost use Rattle.pcap_io.specs.Readers.{place_of, source_of, SameLoan};
ghost use Rattle.offload_model.specs.Passing.{segmenting, Passes, PrefixUnless};
ghost use Rattle.offload_words.specs.declared.words.Command.TheVariants.{Segment};
ghost use Rattle.offload_words.specs.Segment.{IsInRange};
ghost use Rattle.command_answers.specs.RunAnswers.{HasAnswered};
ghost use Rattle.command_answers.specs.Ending.{ending_of, Ends, FlushesAt, HasBlocks, IsCaused};
ghost use Rattle.segment_command.specs.Leaving.{HasSegmented, IsSegmentHome, LeavesSegment};
ghost use Rattle.segmenting.specs.Segmenting.{records_need};
ghost use Rattle.segment_command.specs.Segmenting.{GivesUp, SegmentedAll};

use command_answers::{Status, finish, refused};
use off_io::{Sink, Source, WriteFault};
use offload_model::segments_grow;
use offload_words::SegmentOptions;
use pcap_io::{CaptureReader, FileHead, Link, take_file, write_file_head};
use segmenting::{Moved, SegFault, SegmentRun};
use std::alloc::Global;

// Ends at the fault of a record, behind `round` others and over this many blocks. What is written is flushed, where
// that can be.
fn give_up<K: Sink>(sink: &mut K, fault: SegFault, round: u64, blocks: u32) -> Status
    ensures answer { GivesUp round fault result }
    ensures content { Keeps (K.held sink.old) (K.held sink.new) }
    ensures flushed { FlushesAt (K.held sink.new) (K.is_flushed sink.new) (ending_of result) }
    ensures blocks { HasBlocks blocks result }
    ensures not_ok { result ≡ Status.Ok → ⊥ }
    ensures not_usage { result ≡ Status.Usage → ⊥ }
    ensures later { K.faults sink.old ≤ K.faults sink.new }
    ensures read { result ≡ Status.ReadFault → fault ≡ SegFault.ReadFault }
    ensures write { result ≡ Status.WriteFault → (fault ≡ SegFault.WriteFault)
        ⊎ Rose (K.faults sink.old) (K.faults sink.new) }
{
    match fault {
        SegFault::Malformed(fault) => finish(sink, Status::Malformed(fault)),
        SegFault::PoolEmpty { need } => finish(
            sink,
            Status::PoolEmpty {
                round,
                need,
                blocks,
            },
        ),
        SegFault::ReadFault => finish(sink, Status::ReadFault),
        SegFault::WriteFault => Status::WriteFault,
        SegFault::NoMemory => Status::NoMemory,
    }
}

// Segments the records of a capture up to its end, and flushes the sink.
fn segment_all<S: Source, K: Sink>(
    run: &mut SegmentRun,
    blocks: u32,
    reader: &mut CaptureReader<'_, S>,
    sink: &mut K,
) -> Status
    requires ready { IsReady (place_of reader.old) }
    requires link { (place_of reader.old).link ≡ Offload }
    requires first { (place_of reader.old).number ≡ 0 }
    requires blocks { run.old.blocks ≡ blocks }
    requires home { run.old.home ≡ run.old.blocks }
    ensures same_source { SameLoan reader.old reader.new }
    ensures segmented { SegmentedAll blocks run.old run.new (place_of reader.old) (S.left (source_of reader.old))
        (S.left (source_of reader.new)) (K.held sink.old) (K.held sink.new) (K.is_flushed sink.new) result }
    ensures caused { IsCaused (S.faults (source_of reader.old)) (S.faults (source_of reader.new)) (K.faults sink.old)
        (K.faults sink.new) result }
{
    let mut round = 0u64;
    'records: loop {
        match run.next(reader, sink) {
            Ok(moved) => match moved {
                Moved::One => round += 1,
                Moved::End => return finish(sink, Status::Ok),
            },
            Err(fault) => return give_up(sink, fault, round, blocks),
        }
    }
}

// Segments the records behind a file header.
fn segment_behind<S: Source, K: Sink>(
    run: &mut SegmentRun,
    blocks: u32,
    file: FileHead,
    source: &mut S,
    sink: &mut K,
) -> Status
    requires blocks { run.old.blocks ≡ blocks }
    requires home { run.old.home ≡ run.old.blocks }
    ensures segmented { SegmentedAll blocks run.old run.new (first_place file Offload 0) (S.left source.old)
        (S.left source.new) (K.held sink.old) (K.held sink.new) (K.is_flushed sink.new) result }
    ensures caused { IsCaused (S.faults source.old) (S.faults source.new) (K.faults sink.old) (K.faults sink.new)
        result }
{
    let mut reader = CaptureReader::after_file(source, file, Link::Offload);
    segment_all(run, blocks, &mut reader, sink)
}

// Makes the pool, and segments the records behind a file header.
fn segment_records<S: Source, K: Sink>(
    alloc: Global,
    blocks: u32,
    file: FileHead,
    source: &mut S,
    sink: &mut K,
    engine: &mut Option<SegmentRun>,
) -> Status
    requires range { (1 ≤ blocks) × (blocks ≤ 65536) }
    requires engine { engine.old ≡ None }
    ensures given { Told (S.left source.old) (S.left source.new)
        (Ends (Passes (segmenting blocks (first_place file Offload 0)) (K.held sink.old) (K.held sink.new))
        (ending_of result)) }
    ensures prefix { PrefixUnless ⊥ (segmenting blocks (first_place file Offload 0)) (S.left source.old)
        (S.left source.new) (K.held sink.old) (K.held sink.new) }
    ensures flushed { FlushesAt (K.held sink.new) (K.is_flushed sink.new) (ending_of result) }
    ensures blocks { HasBlocks blocks result }
    ensures engine { result ≡ Status.Ok → HasSegmented blocks
        (λ rest. records_need (found_at (first_place file Offload 0) rest).packets) engine.new (S.left source.old)
        (S.left source.new) }
    ensures home { IsSegmentHome blocks engine.new }
    ensures caused { IsCaused (S.faults source.old) (S.faults source.new) (K.faults sink.old) (K.faults sink.new)
        result }
{
    segments_grow();
    let mut run = match SegmentRun::make(alloc, blocks) {
        Ok(run) => run,
        Err(_) => return Status::NoMemory,
    };
    let status = segment_behind(&mut run, blocks, file, source, sink);
    *engine = Some(run);
    status
}

/// Segments a whole capture of link type 147, and leaves its blocks in `engine`. Where its file header is refused no
/// block is made.
pub fn run_segment<S: Source, K: Sink>(
    alloc: Global,
    options: SegmentOptions,
    source: &mut S,
    sink: &mut K,
    engine: &mut Option<SegmentRun>,
) -> Status
    requires range { IsInRange options }
    requires engine { engine.old ≡ None }
    ensures answered { HasAnswered (Segment options) (S.left source.old) (S.left source.new) (S.faults source.old)
        (S.faults source.new) (K.held sink.old) (K.held sink.new) (K.is_flushed sink.new) (source.new ≡ source.old)
        (sink.new ≡ sink.old) result }
    ensures left { LeavesSegment options.blocks (λ given. records_need (reads Offload given).packets) result engine.new
        (S.left source.old) (S.left source.new) }
    ensures caused { IsCaused (S.faults source.old) (S.faults source.new) (K.faults sink.old) (K.faults sink.new)
        result }
{
    let file = match take_file(source, Link::Offload) {
        Ok(file) => file,
        Err(fault) => return refused(fault),
    };
    match write_file_head(sink, &file, Link::Ethernet) {
        Ok(()) => segment_records(alloc, options.blocks, file, source, sink, engine),
        Err(WriteFault) => Status::WriteFault,
    }
}
