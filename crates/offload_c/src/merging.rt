//! Merges a capture in memory.
ghost use Rattle.std.specs.Prelude.{◌≡◌, ◌≤◌, IfOk, IfErr, length};
ghost use Rattle.off_io.specs.Told.{Told};
ghost use Rattle.pcap_io.specs.declared.heads.Link.TheVariants.{Ethernet};
ghost use Rattle.pcap_io.specs.Places.{first_place};
ghost use Rattle.offload_model.specs.Passing.{merging, merging_whole, Passes};
ghost use Rattle.lanes.specs.Work.{IsPlan, options_by};
ghost use Rattle.rounds.specs.Merging.{ending_of, options_of};
ghost use Rattle.offload_c.specs.Answers.{Gives, FlowsOf};
ghost use Rattle.offload_c.specs.Ends.{IsMergeFault, IsOutcomeOf};
ghost use Rattle.offload_c.specs.Options.{AreLawful, WhyRefused, model_of};

use crate::memory::{LentSource, Outcome, grown_sink};
use crate::options::{MergeOptions, Refused};
use lanes::{Alone, LanePlan};
use off_io::{NoGate, Sink, Source, WriteFault};
use pcap_io::{CaptureReader, FileHead, InFault, Link, take_file, write_file_head};
use rounds::{MergeEnd, Rounds};
use std::alloc::Global;

// The end for a fault of the file header.
fn end_of(fault: InFault) -> MergeEnd
    ensures fault { IsMergeFault fault result }
{
    match fault {
        InFault::Cap(fault) => MergeEnd::Malformed(fault),
        InFault::ReadFault => MergeEnd::ReadFault,
    }
}

// Merges the records behind a file header.
fn merge_from<S: Source, K: Sink>(
    rounds: &mut Rounds,
    file: FileHead,
    source: &mut S,
    sink: &mut K,
) -> MergeEnd
    requires home { length rounds.old.stock ≡ rounds.old.blocks }
    ensures given { Told (S.left source.old) (S.left source.new)
        (Passes (merging rounds.old.blocks (options_of rounds.old) (first_place file Ethernet 0)) (K.held sink.old)
        (K.held sink.new) (ending_of result)) }
{
    let mut reader = CaptureReader::after_file(source, file, Link::Ethernet);
    rounds.merge_all(&mut Alone { gate: &NoGate }, &mut reader, &file, sink)
}

// Merges a whole capture.
fn merge_capture<S: Source, K: Sink>(rounds: &mut Rounds, source: &mut S, sink: &mut K) -> MergeEnd
    requires home { length rounds.old.stock ≡ rounds.old.blocks }
    ensures given { Told (S.left source.old) (S.left source.new)
        (Passes (merging_whole rounds.old.blocks (options_of rounds.old)) (K.held sink.old) (K.held sink.new)
        (ending_of result)) }
{
    let file = match take_file(source, Link::Ethernet) {
        Ok(file) => file,
        Err(fault) => return end_of(fault),
    };
    match write_file_head(sink, &file, Link::Offload) {
        Ok(()) => merge_from(rounds, file, source, sink),
        Err(WriteFault) => MergeEnd::WriteFault,
    }
}

// What the end of merging and what was written come to.
fn outcome_of(end: MergeEnd, bytes: Vec<u8>) -> Outcome
    ensures outcome { IsOutcomeOf end bytes result }
{
    match end {
        MergeEnd::Done => Outcome::Whole(bytes),
        MergeEnd::Malformed(_) => Outcome::Refused(bytes),
        MergeEnd::PoolEmpty { .. } => Outcome::Empty(bytes),
        MergeEnd::ReadFault | MergeEnd::WriteFault | MergeEnd::NoMemory => Outcome::NoMemory,
    }
}

// Merges a capture in memory, over a pool of blocks that is made here.
fn merge_bytes(alloc: Global, blocks: u32, budget: u32, plan: LanePlan, capture: &[u8]) -> Outcome
    requires blocks { (1 ≤ blocks) × (blocks ≤ 65536) }
    requires budget { (1 ≤ budget) × (budget ≤ 4096) }
    requires plan { IsPlan plan }
    ensures gives { Gives (merging_whole blocks (options_by plan budget) capture.now) result }
    ensures flows { FlowsOf plan.taps capture.now result }
{
    let Ok(mut rounds) = Rounds::make(alloc, blocks, budget, plan, false) else {
        return Outcome::NoMemory;
    };
    let Ok(mut sink) = grown_sink(alloc, capture.len()) else {
        return Outcome::NoMemory;
    };
    let mut source = LentSource { bytes: capture };
    let end = merge_capture(&mut rounds, &mut source, &mut sink);
    outcome_of(end, sink.bytes)
}

/// Merges a capture in memory by these options.
///
/// # Errors
///
/// `Usage` where they aren't lawful. `NoMemory` where memory runs out while the filter is read.
pub fn merge_by(
    alloc: Global,
    options: &MergeOptions<'_>,
    capture: &[u8],
) -> Result<Outcome, Refused>
    ensures gives { IfOk result (Gives (merging_whole options.now.blocks (model_of options.now) capture.now)) }
    ensures flows { IfOk result (FlowsOf options.now.taps capture.now) }
    ensures lawful { IfOk result (λ _. AreLawful options.now) }
    ensures refused { IfErr result (WhyRefused options.now) }
{
    match options.plan(alloc) {
        Ok(plan) => Ok(merge_bytes(alloc, options.blocks, options.budget, plan, capture)),
        Err(fault) => Err(fault),
    }
}
