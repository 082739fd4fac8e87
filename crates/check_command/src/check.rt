//! Checks a capture: it is merged round by round, as `merge` does, and what comes back of each round is counted. The
//! counts are written at the end.
ghost use Rattle.std.specs.Prelude.{◌≡◌, ◌≤◌, ◌<◌, ◌^◌, ◌-◌, ◌+◌, ◌++◌, [], Some, None, length, true};
ghost use Rattle.std.specs.Prelude.{OnOk, OnErr};
ghost use Rattle.std.specs.List.{AllByRecursion};
ghost use Rattle.std.specs.Io.KnownBytes.{Appends};
ghost use Rattle.off_io.specs.Content.{AppendsPrefix};
ghost use Rattle.off_io.specs.Faults.{HasCause, Rose};
ghost use Rattle.off_io.specs.Told.{Told};
ghost use Rattle.pcap_io.specs.declared.heads.Link.TheVariants.{Ethernet};
ghost use Rattle.pcap_io.specs.Capture.{reads};
ghost use Rattle.pcap_io.specs.Places.{first_place, found_at};
ghost use Rattle.cap_make.specs.Capture.{made as made_capture};
ghost use Rattle.offload_model.specs.Need.{round_need};
ghost use Rattle.offload_model.specs.Passing.{PrefixUnless};
ghost use Rattle.offload_words.specs.declared.words.Command.TheVariants.{Check};
ghost use Rattle.offload_words.specs.Check.{IsInRange as IsCheckInRange};
ghost use Rattle.offload_words.specs.Merge.{IsInRange};
ghost use Rattle.check_totals.specs.Counts.{totals_of, IsQueueWithin};
ghost use Rattle.check_totals.specs.Lines.{check_lines};
ghost use Rattle.check_totals.specs.Checking.{checking_whole};
ghost use Rattle.rounds.specs.Handled.{source_at};
ghost use Rattle.rounds.specs.Merging.{options_of as rounds_options};
ghost use Rattle.checking.specs.Whole.{Checked as CheckedRounds};
ghost use Rattle.command_answers.specs.Checking.{checking_made, ChecksTo, ReadAnswers};
ghost use Rattle.check_command.specs.Checking.{first_line, status_if, Checked, LinesEnd, Tells};
ghost use Rattle.command_answers.specs.Ending.{HasBlocks, IsCaused};
ghost use Rattle.command_rounds.specs.Leaving.{IsMergeHome, LeavesMerge};
ghost use Rattle.check_command.specs.Leaving.{HasChecked};
ghost use Rattle.command_answers.specs.Output.{options as options_of};
ghost use Rattle.command_answers.specs.RunAnswers.{HasAnswered};

use cap_make::{MadeSource, made_len, made_reads_back};
use check_totals::{Totals, totals_are_told, write_made, write_totals};
use checking::CheckEnd;
use checking_beside::check_beside;
use command_answers::{Status, finish, refused};
use command_rounds::make_rounds;
use off_io::{Gate, Sink, Source, WriteFault};
use offload_words::{CheckOptions, MergeOptions};
use pcap_io::{CaptureReader, FileHead, Link, take_file};
use rounds::Rounds;
use std::alloc::Global;
use std::sync::Wait;
use std::thread::Threads;

// What the line of a generated capture tells: its records, and its bytes.
#[derive(Clone, Copy, Debug, PartialEq, Eq)]
pub(crate) struct MadeLine {
    count: u32,
    len: u64,
}

// ---- what is written

// The status that checking ends with over this many blocks; none for want of memory, where nothing is written.
fn status_of(end: CheckEnd, blocks: u32) -> Option<Status>
    ensures status { result ≡ status_if end blocks }
{
    let status = match end {
        CheckEnd::Done => Status::Ok,
        CheckEnd::Malformed(fault) => Status::Malformed(fault),
        CheckEnd::PoolEmpty { round, need } => Status::PoolEmpty {
            round,
            need,
            blocks,
        },
        CheckEnd::ReadFault => Status::ReadFault,
        CheckEnd::NoMemory => return None,
    };
    Some(status)
}

fn write_first<K: Sink>(sink: &mut K, made: Option<MadeLine>) -> Result<(), WriteFault>
    ensures ok { OnOk result (Appends (K.held sink.old) (K.held sink.new) (first_line made)) }
    ensures err { OnErr result (AppendsPrefix (K.held sink.old) (K.held sink.new) (first_line made)) }
    ensures cause { HasCause (K.faults sink.old) (K.faults sink.new) result }
{
    match made {
        Some(line) => write_made(sink, line.count, line.len),
        None => Ok(()),
    }
}

// Writes all lines.
fn write_lines<K: Sink>(
    sink: &mut K,
    made: Option<MadeLine>,
    totals: &Totals,
) -> Result<(), WriteFault>
    requires lanes { length totals.now.queues ≤ 2 ^ 12 }
    requires within { AllByRecursion (IsQueueWithin (2 ^ 50)) totals.now.queues }
    ensures ok { OnOk result (Appends (K.held sink.old) (K.held sink.new) (first_line made ++ check_lines totals.now)) }
    ensures err { OnErr result (AppendsPrefix (K.held sink.old) (K.held sink.new)
        (first_line made ++ check_lines totals.now)) }
    ensures cause { HasCause (K.faults sink.old) (K.faults sink.new) result }
{
    write_first(sink, made)?;
    write_totals(sink, totals)
}

// Writes all lines, and flushes the sink.
fn end_with_lines<K: Sink>(
    sink: &mut K,
    made: Option<MadeLine>,
    totals: &Totals,
    status: Status,
) -> Status
    requires lanes { length totals.now.queues ≤ 2 ^ 12 }
    requires within { AllByRecursion (IsQueueWithin (2 ^ 50)) totals.now.queues }
    ensures told { LinesEnd (K.held sink.old) (K.held sink.new) (K.is_flushed sink.new)
        (first_line made ++ check_lines totals.now) status result }
    ensures later { K.faults sink.old ≤ K.faults sink.new }
    ensures failed { result ≡ Status.WriteFault → (status ≡ Status.WriteFault → ⊥)
        → Rose (K.faults sink.old) (K.faults sink.new) }
{
    match write_lines(sink, made, totals) {
        Ok(()) => finish(sink, status),
        Err(WriteFault) => Status::WriteFault,
    }
}

// Writes what was counted, where there was memory to count it.
fn tell<K: Sink>(
    sink: &mut K,
    made: Option<MadeLine>,
    totals: &Totals,
    end: CheckEnd,
    blocks: u32,
) -> Status
    requires lanes { length totals.now.queues ≤ 2 ^ 12 }
    requires within { AllByRecursion (IsQueueWithin (2 ^ 50)) totals.now.queues }
    ensures told { Tells (K.held sink.old) (K.held sink.new) (K.is_flushed sink.new)
        (first_line made ++ check_lines totals.now) (status_if end blocks) result }
    ensures later { K.faults sink.old ≤ K.faults sink.new }
    ensures blocks { HasBlocks blocks result }
    ensures done { result ≡ Status.Ok → end ≡ CheckEnd.Done }
    ensures not_usage { result ≡ Status.Usage → ⊥ }
    ensures read { result ≡ Status.ReadFault → end ≡ CheckEnd.ReadFault }
    ensures write { result ≡ Status.WriteFault → Rose (K.faults sink.old) (K.faults sink.new) }
{
    match status_of(end, blocks) {
        Some(status) => end_with_lines(sink, made, totals, status),
        None => Status::NoMemory,
    }
}

// ---- what is counted

// Counts the records behind a file header.
fn count_behind<R: Threads + Wait + Sync, S: Source + Send, G: Gate + Sync>(
    rt: &R,
    alloc: Global,
    rounds: &mut Rounds,
    file: FileHead,
    source: &mut S,
    totals: &mut Totals,
    gate: &G,
) -> CheckEnd
    requires home { length rounds.old.stock ≡ rounds.old.blocks }
    requires keep { rounds.old.keep ≡ true }
    requires start { totals.old ≡ totals_of (rounds_options rounds.old) [] }
    ensures checked { CheckedRounds rounds.old rounds.new (first_place file Ethernet 0)
        (source_at S.left S.faults source.old) (source_at S.left S.faults source.new) totals.old totals.new result }
{
    let mut reader = CaptureReader::after_file(source, file, Link::Ethernet);
    check_beside(rt, alloc, rounds, &mut reader, totals, gate)
}

// Makes the pool, counts the records behind a file header, and writes what was counted.
fn check_records<R: Threads + Wait + Sync, S: Source + Send, K: Sink, G: Gate + Sync>(
    rt: &R,
    alloc: Global,
    options: MergeOptions,
    made: Option<MadeLine>,
    file: FileHead,
    source: &mut S,
    sink: &mut K,
    gate: &G,
    engine: &mut Option<Rounds>,
) -> Status
    requires range { IsInRange options }
    requires engine { engine.old ≡ None }
    ensures given { Told (S.left source.old) (S.left source.new)
        (Checked (first_line made) options.blocks (options_of options) (first_place file Ethernet 0) (K.held sink.old)
        (K.held sink.new) (K.is_flushed sink.new) (Rose (S.faults source.old) (S.faults source.new)) result) }
    ensures left { LeavesMerge options.blocks
        (λ rest. round_need (found_at (first_place file Ethernet 0) rest).packets) result engine.new
        (S.left source.old) (S.left source.new) }
    ensures caused { IsCaused (S.faults source.old) (S.faults source.new) (K.faults sink.old) (K.faults sink.new)
        result }
{
    let (blocks, queues, taps) = (options.blocks, options.queues, options.taps);
    let mut rounds = match make_rounds(alloc, options, true) {
        Ok(rounds) => rounds,
        Err(_) => return Status::NoMemory,
    };
    let mut totals = match Totals::make(alloc, queues, taps) {
        Ok(totals) => totals,
        Err(_) => return Status::NoMemory,
    };
    let end = count_behind(rt, alloc, &mut rounds, file, source, &mut totals, gate);
    *engine = Some(rounds);
    tell(sink, made, &totals, end, blocks)
}

// ---- whole captures

// Checks a capture of Ethernet frames that is read. Where its file header is refused no block is made.
fn check_read<R: Threads + Wait + Sync, S: Source + Send, K: Sink, G: Gate + Sync>(
    rt: &R,
    alloc: Global,
    options: MergeOptions,
    source: &mut S,
    sink: &mut K,
    gate: &G,
    engine: &mut Option<Rounds>,
) -> Status
    requires range { IsInRange options }
    requires engine { engine.old ≡ None }
    ensures given { Told (S.left source.old) (S.left source.new)
        (ReadAnswers options (K.held sink.old) (K.held sink.new) (K.is_flushed sink.new) (sink.new ≡ sink.old) result) }
    ensures prefix { PrefixUnless (Rose (S.faults source.old) (S.faults source.new))
        (checking_whole options.blocks (options_of options)) (S.left source.old) (S.left source.new) (K.held sink.old)
        (K.held sink.new) }
    ensures left { LeavesMerge options.blocks (λ given. round_need (reads Ethernet given).packets) result
        engine.new (S.left source.old) (S.left source.new) }
    ensures caused { IsCaused (S.faults source.old) (S.faults source.new) (K.faults sink.old) (K.faults sink.new)
        result }
{
    totals_are_told();
    let file = match take_file(source, Link::Ethernet) {
        Ok(file) => file,
        Err(fault) => return refused(fault),
    };
    check_records(rt, alloc, options, None, file, source, sink, gate, engine)
}

// Checks a generated capture.
fn check_made<R: Threads + Wait + Sync, K: Sink, G: Gate + Sync>(
    rt: &R,
    alloc: Global,
    options: MergeOptions,
    seed: u64,
    count: u32,
    sink: &mut K,
    gate: &G,
    engine: &mut Option<Rounds>,
) -> Status
    requires range { IsInRange options }
    requires engine { engine.old ≡ None }
    ensures made { ChecksTo (checking_made seed count options) (K.held sink.old) (K.held sink.new)
        (K.is_flushed sink.new) result }
    ensures left { LeavesMerge options.blocks (λ given. round_need (reads Ethernet given).packets) result
        engine.new (Some (made_capture seed count)) (Some []) }
    ensures not_usage { result ≡ Status.Usage → ⊥ }
    ensures not_read { result ≡ Status.ReadFault → ⊥ }
    ensures later { K.faults sink.old ≤ K.faults sink.new }
    ensures write { result ≡ Status.WriteFault → Rose (K.faults sink.old) (K.faults sink.new) }
{
    totals_are_told();
    made_reads_back();
    let line = MadeLine {
        count,
        len: made_len(seed, count),
    };
    let mut source = MadeSource::new(seed, count);
    let file = match take_file(&mut source, Link::Ethernet) {
        Ok(file) => file,
        Err(fault) => return refused(fault),
    };
    check_records(
        rt,
        alloc,
        options,
        Some(line),
        file,
        &mut source,
        sink,
        gate,
        engine,
    )
}

/// Checks the capture that is read, or with a seed a generated one: then nothing is read. The rounds are left in
/// `engine`.
pub fn run_check<R: Threads + Wait + Sync, S: Source + Send, K: Sink, G: Gate + Sync>(
    rt: &R,
    alloc: Global,
    options: CheckOptions,
    source: &mut S,
    sink: &mut K,
    gate: &G,
    engine: &mut Option<Rounds>,
) -> Status
    requires range { IsCheckInRange options }
    requires engine { engine.old ≡ None }
    ensures answered { HasAnswered (Check options) (S.left source.old) (S.left source.new) (S.faults source.old)
        (S.faults source.new) (K.held sink.old) (K.held sink.new) (K.is_flushed sink.new) (source.new ≡ source.old)
        (sink.new ≡ sink.old) result }
    ensures engine { result ≡ Status.Ok → HasChecked options.seed options engine.new (S.left source.old)
        (S.left source.new) }
    ensures home { IsMergeHome options.merge.blocks engine.new }
    ensures caused { IsCaused (S.faults source.old) (S.faults source.new) (K.faults sink.old) (K.faults sink.new)
        result }
{
    let CheckOptions { merge, seed, count } = options;
    match seed {
        Some(seed) => check_made(rt, alloc, merge, seed, count, sink, gate, engine),
        None => check_read(rt, alloc, merge, source, sink, gate, engine),
    }
}
