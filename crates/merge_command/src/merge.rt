//! A capture, merged in rounds over one pool of blocks.
ghost use Rattle.std.specs.Prelude.{◌≡◌, Some, None, length};
ghost use Rattle.off_io.specs.Faults.{Rose};
ghost use Rattle.off_io.specs.Told.{Told};
ghost use Rattle.pcap_io.specs.declared.heads.Link.TheVariants.{Ethernet, Offload};
ghost use Rattle.pcap_io.specs.Capture.{reads};
ghost use Rattle.pcap_io.specs.Places.{first_place, found_at};
ghost use Rattle.offload_model.specs.Need.{round_need};
ghost use Rattle.offload_model.specs.Passing.{merging, Passes, PrefixUnless};
ghost use Rattle.offload_words.specs.declared.words.Command.TheVariants.{Merge};
ghost use Rattle.offload_words.specs.Merge.{IsInRange};
ghost use Rattle.rounds.specs.Handled.{source_at};
ghost use Rattle.rounds.specs.Merged.{sink_at, Merged};
ghost use Rattle.rounds.specs.Merging.{ending_of as merge_ending};
ghost use Rattle.command_answers.specs.RunAnswers.{HasAnswered};
ghost use Rattle.command_answers.specs.Ending.{ending_of, Ends, FlushesAt, HasBlocks, IsCaused, OfRead};
ghost use Rattle.merge_command.specs.Statuses.{status_by};
ghost use Rattle.command_rounds.specs.Leaving.{LeavesMerge};
ghost use Rattle.command_answers.specs.Output.{options as options_of, AreCapturedWithin};

use command_answers::{Status, refused};
use command_rounds::make_rounds;
use off_io::{Gate, Sink, Source, WriteFault};
use offload_words::MergeOptions;
use pcap_io::{CaptureReader, FileHead, Link, take_file, write_file_head};
use pipeline::merge_beside;
use rounds::{MergeEnd, Rounds};
use std::alloc::Global;
use std::sync::Wait;
use std::thread::Threads;

// The status that merging ends with over this many blocks.
fn status_of(end: MergeEnd, blocks: u32) -> Status
    ensures is { result ≡ status_by end blocks }
    ensures ending { ending_of result ≡ Some (merge_ending end) }
    ensures blocks { HasBlocks blocks result }
    ensures done { result ≡ Status.Ok → end ≡ MergeEnd.Done }
    ensures not_usage { result ≡ Status.Usage → ⊥ }
    ensures read { result ≡ Status.ReadFault → end ≡ MergeEnd.ReadFault }
    ensures write { result ≡ Status.WriteFault → end ≡ MergeEnd.WriteFault }
{
    match end {
        MergeEnd::Done => Status::Ok,
        MergeEnd::Malformed(fault) => Status::Malformed(fault),
        MergeEnd::PoolEmpty { round, need } => Status::PoolEmpty {
            round,
            need,
            blocks,
        },
        MergeEnd::ReadFault => Status::ReadFault,
        MergeEnd::WriteFault => Status::WriteFault,
        MergeEnd::NoMemory => Status::NoMemory,
    }
}

// Merges the records behind a file header.
fn merge_behind<R: Threads + Wait + Sync, S: Source + Send, K: Sink, G: Gate + Sync>(
    rt: &R,
    alloc: Global,
    rounds: &mut Rounds,
    file: FileHead,
    source: &mut S,
    sink: &mut K,
    gate: &G,
) -> MergeEnd
    requires home { length rounds.old.stock ≡ rounds.old.blocks }
    ensures merged { Merged rounds.old rounds.new (first_place file Ethernet 0) (source_at S.left S.faults source.old)
        (source_at S.left S.faults source.new) (sink_at K.held K.is_flushed K.faults sink.old)
        (sink_at K.held K.is_flushed K.faults sink.new) result }
{
    let mut reader = CaptureReader::after_file(source, file, Link::Ethernet);
    merge_beside(rt, alloc, rounds, &mut reader, &file, sink, gate)
}

// Makes the pool, and merges the records behind a file header.
fn merge_records<R: Threads + Wait + Sync, S: Source + Send, K: Sink, G: Gate + Sync>(
    rt: &R,
    alloc: Global,
    options: MergeOptions,
    file: FileHead,
    source: &mut S,
    sink: &mut K,
    gate: &G,
    engine: &mut Option<Rounds>,
) -> Status
    requires range { IsInRange options }
    requires engine { engine.old ≡ None }
    ensures given { Told (S.left source.old) (S.left source.new)
        (Ends (Passes (merging options.blocks (options_of options) (first_place file Ethernet 0)) (K.held sink.old)
        (K.held sink.new)) (ending_of result)) }
    ensures prefix { PrefixUnless (Rose (S.faults source.old) (S.faults source.new))
        (merging options.blocks (options_of options) (first_place file Ethernet 0)) (S.left source.old)
        (S.left source.new) (K.held sink.old) (K.held sink.new) }
    ensures captured { Told (S.left source.old) (S.left source.new)
        (OfRead (AreCapturedWithin options.blocks options.budget (first_place file Ethernet 0)) result) }
    ensures flushed { FlushesAt (K.held sink.new) (K.is_flushed sink.new) (ending_of result) }
    ensures left { LeavesMerge options.blocks
        (λ rest. round_need (found_at (first_place file Ethernet 0) rest).packets) result engine.new
        (S.left source.old) (S.left source.new) }
    ensures caused { IsCaused (S.faults source.old) (S.faults source.new) (K.faults sink.old) (K.faults sink.new)
        result }
{
    let blocks = options.blocks;
    let mut rounds = match make_rounds(alloc, options, false) {
        Ok(rounds) => rounds,
        Err(_) => return Status::NoMemory,
    };
    let end = merge_behind(rt, alloc, &mut rounds, file, source, sink, gate);
    *engine = Some(rounds);
    status_of(end, blocks)
}

/// Merges a whole capture of Ethernet frames, behind whose file header it is read in rounds, and leaves these in
/// `engine`. Where the file header is refused no block is made.
pub fn run_merge<R: Threads + Wait + Sync, S: Source + Send, K: Sink, G: Gate + Sync>(
    rt: &R,
    alloc: Global,
    options: MergeOptions,
    source: &mut S,
    sink: &mut K,
    gate: &G,
    engine: &mut Option<Rounds>,
) -> Status
    requires range { IsInRange options }
    requires engine { engine.old ≡ None }
    ensures answered { HasAnswered (Merge options) (S.left source.old) (S.left source.new) (S.faults source.old)
        (S.faults source.new) (K.held sink.old) (K.held sink.new) (K.is_flushed sink.new) (source.new ≡ source.old)
        (sink.new ≡ sink.old) result }
    ensures left { LeavesMerge options.blocks (λ given. round_need (reads Ethernet given).packets) result engine.new
        (S.left source.old) (S.left source.new) }
    ensures caused { IsCaused (S.faults source.old) (S.faults source.new) (K.faults sink.old) (K.faults sink.new)
        result }
{
    let file = match take_file(source, Link::Ethernet) {
        Ok(file) => file,
        Err(fault) => return refused(fault),
    };
    match write_file_head(sink, &file, Link::Offload) {
        Ok(()) => merge_records(rt, alloc, options, file, source, sink, gate, engine),
        Err(WriteFault) => Status::WriteFault,
    }
}
