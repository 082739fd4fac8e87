//! Cuts an offload capture in memory back into packets.
ghost use Rattle.std.specs.Prelude.{◌≡◌, ◌≤◌};
ghost use Rattle.off_io.specs.Told.{Told};
ghost use Rattle.pcap_io.specs.declared.heads.Link.TheVariants.{Offload};
ghost use Rattle.pcap_io.specs.Places.{IsReady, first_place};
ghost use Rattle.pcap_io.specs.Readers.{place_of, source_of, SameLoan};
ghost use Rattle.offload_model.specs.Passing.{segmenting, segmenting_whole};
ghost use Rattle.offload_c.specs.Answers.{Gives};
ghost use Rattle.offload_c.specs.Ends.{IsSegFault, EndsAs, IsSegOutcome};

use crate::memory::{LentSource, Outcome, grown_sink};
use off_io::{Sink, Source, WriteFault};
use pcap_io::{CaptureReader, FileHead, InFault, Link, take_file, write_file_head};
use segmenting::{Moved, SegFault, SegmentRun};
use std::alloc::Global;

// Why a capture without a lawful file header isn't segmented.
fn fault_of(fault: InFault) -> SegFault
    ensures fault { IsSegFault fault result }
{
    match fault {
        InFault::Cap(fault) => SegFault::Malformed(fault),
        InFault::ReadFault => SegFault::ReadFault,
    }
}

// Segments the records of a capture up to its end.
fn segment_records<S: Source, K: Sink>(
    run: &mut SegmentRun,
    reader: &mut CaptureReader<'_, S>,
    sink: &mut K,
) -> Result<(), SegFault>
    requires ready { IsReady (place_of reader.old) }
    requires link { (place_of reader.old).link ≡ Offload }
    requires home { run.old.home ≡ run.old.blocks }
    ensures same_source { SameLoan reader.old reader.new }
    ensures given { Told (S.left (source_of reader.old)) (S.left (source_of reader.new))
        (EndsAs (segmenting run.old.blocks (place_of reader.old)) (K.held sink.old) (K.held sink.new) result) }
{
    'records: loop {
        let moved = match run.next(reader, sink) {
            Ok(moved) => moved,
            Err(fault) => return Err(fault),
        };
        match moved {
            Moved::One => {}
            Moved::End => return Ok(()),
        }
    }
}

// Segments the records behind a file header.
fn segment_from<S: Source, K: Sink>(
    run: &mut SegmentRun,
    file: FileHead,
    source: &mut S,
    sink: &mut K,
) -> Result<(), SegFault>
    requires home { run.old.home ≡ run.old.blocks }
    ensures given { Told (S.left source.old) (S.left source.new)
        (EndsAs (segmenting run.old.blocks (first_place file Offload 0)) (K.held sink.old) (K.held sink.new) result) }
{
    let mut reader = CaptureReader::after_file(source, file, Link::Offload);
    segment_records(run, &mut reader, sink)
}

// Segments a whole capture.
fn segment_capture<S: Source, K: Sink>(
    run: &mut SegmentRun,
    source: &mut S,
    sink: &mut K,
) -> Result<(), SegFault>
    requires home { run.old.home ≡ run.old.blocks }
    ensures given { Told (S.left source.old) (S.left source.new)
        (EndsAs (segmenting_whole run.old.blocks) (K.held sink.old) (K.held sink.new) result) }
{
    let file = match take_file(source, Link::Offload) {
        Ok(file) => file,
        Err(fault) => return Err(fault_of(fault)),
    };
    match write_file_head(sink, &file, Link::Ethernet) {
        Ok(()) => segment_from(run, file, source, sink),
        Err(WriteFault) => Err(SegFault::WriteFault),
    }
}

// What the end of segmenting and what was written come to.
fn outcome_of(end: Result<(), SegFault>, bytes: Vec<u8>) -> Outcome
    ensures outcome { IsSegOutcome end bytes result }
{
    match end {
        Ok(()) => Outcome::Whole(bytes),
        Err(SegFault::Malformed(_)) => Outcome::Refused(bytes),
        Err(SegFault::PoolEmpty { .. }) => Outcome::Empty(bytes),
        Err(SegFault::ReadFault | SegFault::WriteFault | SegFault::NoMemory) => Outcome::NoMemory,
    }
}

/// Cuts an offload capture in memory back into packets, each record in a pool of `blocks` blocks that is made here.
pub fn segment_bytes(alloc: Global, blocks: u32, capture: &[u8]) -> Outcome
    requires blocks { (1 ≤ blocks) × (blocks ≤ 65536) }
    ensures gives { Gives (segmenting_whole blocks capture.now) result }
{
    let Ok(mut run) = SegmentRun::make(alloc, blocks) else {
        return Outcome::NoMemory;
    };
    let Ok(mut sink) = grown_sink(alloc, capture.len()) else {
        return Outcome::NoMemory;
    };
    let mut source = LentSource { bytes: capture };
    let end = segment_capture(&mut run, &mut source, &mut sink);
    outcome_of(end, sink.bytes)
}
