//! The whole program over a source and a sink.
ghost use Rattle.std.specs.Prelude.{◌≡◌, ◌≤◌, ◌⊎◌, IfSome, MatchOption, None, map, string_bytes};
ghost use Rattle.off_io.specs.Content.{AppendsPrefix};
ghost use Rattle.off_io.specs.Faults.{Rose};
ghost use Rattle.off_io.specs.Told.{Told};
ghost use Rattle.offload_words.specs.declared.words.Command.TheVariants.{Merge, Segment, Check};
ghost use Rattle.offload_words.specs.Check.{IsInRange as IsCheckInRange};
ghost use Rattle.offload_words.specs.Commands.{command_of, HasRanges};
ghost use Rattle.offload_words.specs.Merge.{IsInRange};
ghost use Rattle.offload_words.specs.Segment.{IsInRange as IsSegmentInRange};
ghost use Rattle.status_log.specs.Lines.{Logs};
ghost use Rattle.command_answers.specs.Ending.{IsCaused};
ghost use Rattle.command_answers.specs.Making.{Makes};
ghost use Rattle.command_answers.specs.RunAnswers.{Answers, AreBlocksOf, FlowsBack, Prefixes};
ghost use Rattle.offload_run.specs.Ended.{HasEnded};
ghost use Rattle.offload_run.specs.Engines.{HasRun, LeavesHome};
ghost use Rattle.command_answers.specs.Log.{log_line};

use crate::Engine;
use crate::make::run_make;
use check_command::run_check;
use command_answers::{Status, write_log};
use merge_command::run_merge;
use off_io::{Gate, Sink, Source};
use offload_words::{CheckOptions, Command, MergeOptions, SegmentOptions, WordsFault, parse_words};
use segment_command::run_segment;
use std::alloc::Global;
use std::sync::Wait;
use std::thread::Threads;

// Runs `merge`, and leaves its rounds as the engine.
fn merge<R: Threads + Wait + Sync, S: Source + Send, K: Sink, G: Gate + Sync>(
    rt: &R,
    alloc: Global,
    options: MergeOptions,
    source: &mut S,
    sink: &mut K,
    gate: &G,
    engine: &mut Option<Engine>,
) -> Status
    requires range { IsInRange options }
    requires engine { engine.old ≡ None }
    ensures ended { HasEnded (Merge options) (S.left source.old) (S.left source.new) (S.faults source.old)
        (S.faults source.new) (K.held sink.old) (K.held sink.new) (K.is_flushed sink.new) (source.new ≡ source.old)
        (sink.new ≡ sink.old) engine.new result }
    ensures caused { IsCaused (S.faults source.old) (S.faults source.new) (K.faults sink.old) (K.faults sink.new)
        result }
{
    let mut rounds = None;
    let status = run_merge(rt, alloc, options, source, sink, gate, &mut rounds);
    *engine = Engine::merging(rounds);
    status
}

// Runs `segment`, and leaves its blocks as the engine.
fn segment<S: Source, K: Sink>(
    alloc: Global,
    options: SegmentOptions,
    source: &mut S,
    sink: &mut K,
    engine: &mut Option<Engine>,
) -> Status
    requires range { IsSegmentInRange options }
    requires engine { engine.old ≡ None }
    ensures ended { HasEnded (Segment options) (S.left source.old) (S.left source.new) (S.faults source.old)
        (S.faults source.new) (K.held sink.old) (K.held sink.new) (K.is_flushed sink.new) (source.new ≡ source.old)
        (sink.new ≡ sink.old) engine.new result }
    ensures caused { IsCaused (S.faults source.old) (S.faults source.new) (K.faults sink.old) (K.faults sink.new)
        result }
{
    let mut run = None;
    let status = run_segment(alloc, options, source, sink, &mut run);
    *engine = Engine::segmenting(run);
    status
}

// Runs `check`, and leaves its rounds as the engine.
fn check<R: Threads + Wait + Sync, S: Source + Send, K: Sink, G: Gate + Sync>(
    rt: &R,
    alloc: Global,
    options: CheckOptions,
    source: &mut S,
    sink: &mut K,
    gate: &G,
    engine: &mut Option<Engine>,
) -> Status
    requires range { IsCheckInRange options }
    requires engine { engine.old ≡ None }
    ensures ended { HasEnded (Check options) (S.left source.old) (S.left source.new) (S.faults source.old)
        (S.faults source.new) (K.held sink.old) (K.held sink.new) (K.is_flushed sink.new) (source.new ≡ source.old)
        (sink.new ≡ sink.old) engine.new result }
    ensures caused { IsCaused (S.faults source.old) (S.faults source.new) (K.faults sink.old) (K.faults sink.new)
        result }
{
    let mut rounds = None;
    let status = run_check(rt, alloc, options, source, sink, gate, &mut rounds);
    *engine = Engine::merging(rounds);
    status
}

// Runs a command.
fn run_command<R: Threads + Wait + Sync, S: Source + Send, K: Sink, G: Gate + Sync>(
    rt: &R,
    alloc: Global,
    command: Command,
    source: &mut S,
    sink: &mut K,
    gate: &G,
    engine: &mut Option<Engine>,
) -> Status
    requires ranges { HasRanges command }
    requires engine { engine.old ≡ None }
    ensures ended { HasEnded command (S.left source.old) (S.left source.new) (S.faults source.old)
        (S.faults source.new) (K.held sink.old) (K.held sink.new) (K.is_flushed sink.new) (source.new ≡ source.old)
        (sink.new ≡ sink.old) engine.new result }
    ensures caused { IsCaused (S.faults source.old) (S.faults source.new) (K.faults sink.old) (K.faults sink.new)
        result }
{
    match command {
        Command::Merge(options) => merge(rt, alloc, options, source, sink, gate, engine),
        Command::Segment(options) => segment(alloc, options, source, sink, engine),
        Command::Check(options) => check(rt, alloc, options, source, sink, gate, engine),
        Command::Make(options) => run_make(options, sink),
    }
}

// Runs the command that the words ask for, without its line in the log.
fn run_words<R: Threads + Wait + Sync, S: Source + Send, K: Sink, G: Gate + Sync>(
    rt: &R,
    alloc: Global,
    words: &[String],
    source: &mut S,
    sink: &mut K,
    gate: &G,
    engine: &mut Option<Engine>,
) -> Status
    requires engine { engine.old ≡ None }
    ensures usage { result ≡ Status.Usage → command_of (map string_bytes words.now) ≡ None }
    ensures no_command { command_of (map string_bytes words.now) ≡ None
        → (result ≡ Status.Usage) ⊎ (result ≡ Status.NoMemory) }
    ensures untouched { command_of (map string_bytes words.now) ≡ None
        → (source.new ≡ source.old) × (sink.new ≡ sink.old) }
    ensures ended { IfSome (command_of (map string_bytes words.now)) (λ command. HasEnded command (S.left source.old)
        (S.left source.new) (S.faults source.old) (S.faults source.new) (K.held sink.old) (K.held sink.new)
        (K.is_flushed sink.new) (source.new ≡ source.old) (sink.new ≡ sink.old) engine.new result) }
    ensures home { MatchOption (command_of (map string_bytes words.now)) (engine.new ≡ None)
        (λ command. LeavesHome command engine.new) }
    ensures later { S.faults source.old ≤ S.faults source.new }
    ensures later_sink { K.faults sink.old ≤ K.faults sink.new }
    ensures read { result ≡ Status.ReadFault → Rose (S.faults source.old) (S.faults source.new) }
    ensures write { result ≡ Status.WriteFault → Rose (K.faults sink.old) (K.faults sink.new) }
{
    match parse_words(alloc, words) {
        Ok(command) => run_command(rt, alloc, command, source, sink, gate, engine),
        Err(WordsFault::Usage) => Status::Usage,
        Err(WordsFault::NoMemory) => Status::NoMemory,
    }
}

/// Runs the command that the words ask for, the program's name before it, and logs how it ended. `merge` reads a
/// capture of Ethernet frames from the source and writes its records to the sink; `segment` reads an offload capture
/// and writes the packets that its records stand for; `check` merges as `merge` does and writes lines of how many
/// packets came back, and with a seed it reads nothing and checks a generated capture; `make` reads nothing and writes
/// one (clause `made`). Each queue's worker and each tap of `merge` and `check` passes the gate at point 0 before its
/// work and at point 1 after it. Where two of them have something to do two run at once, and more where there are
/// processors for them. Of gate and threads no clause speaks: that is tested.
///
/// `Usage` exactly where the words are none of the command set, want of memory aside: then nothing is read or written,
/// and the counts of faults of the source and the sink stay as they are. `Ok`, `Malformed` and `PoolEmpty` exactly as
/// the capture ends or a round first needs more blocks than `--blocks` says, where neither the source nor the sink
/// fails and memory suffices. `ReadFault` and `WriteFault` only where the count of faults of the source, of the sink,
/// rose in this call. At `Malformed`, `PoolEmpty` and `ReadFault` the output of all whole records (of all rounds)
/// before is in the sink, so a sink that fails before that is answered first, by `WriteFault`.
///
/// The sink is flushed after the last write, and stays as it was where there is no lawful file header. On each status
/// but `Ok` the log gets one line, or a prefix of it where the log fails (`log`, `log_prefix`), which is ignored.
///
/// At `Ok` of a command that reads, `engine` holds the blocks that this call made, all of them home, and its count of
/// blocks taken is at least what the records need (clause `engine`). On another status it may hold none; what it holds
/// is the command's, and all of its blocks are home (clause `home`).
pub fn run<R: Threads + Wait + Sync, S: Source + Send, K: Sink + Send, L: Sink, G: Gate + Sync>(
    rt: &R,
    alloc: Global,
    words: &[String],
    source: &mut S,
    sink: &mut K,
    log: &mut L,
    gate: &G,
    engine: &mut Option<Engine>,
) -> Status
    requires engine { engine.old ≡ None }
    ensures usage { result ≡ Status.Usage → command_of (map string_bytes words.now) ≡ None }
    ensures no_command { command_of (map string_bytes words.now) ≡ None
        → (result ≡ Status.Usage) ⊎ (result ≡ Status.NoMemory) }
    ensures untouched { command_of (map string_bytes words.now) ≡ None
        → (source.new ≡ source.old) × (sink.new ≡ sink.old) }
    ensures given { IfSome (command_of (map string_bytes words.now))
        (λ command. Told (S.left source.old) (S.left source.new)
        (Answers command (K.held sink.old) (K.held sink.new) (K.is_flushed sink.new) (sink.new ≡ sink.old) result)) }
    ensures prefix { IfSome (command_of (map string_bytes words.now))
        (λ command. Prefixes command (Rose (S.faults source.old) (S.faults source.new)) (S.left source.old)
        (S.left source.new) (K.held sink.old) (K.held sink.new)) }
    ensures made { IfSome (command_of (map string_bytes words.now))
        (λ command. Makes command (K.held sink.old) (K.held sink.new) (K.is_flushed sink.new)
        (source.new ≡ source.old) result) }
    ensures blocks { IfSome (command_of (map string_bytes words.now)) (λ command. AreBlocksOf command result) }
    ensures flows { IfSome (command_of (map string_bytes words.now))
        (λ command. Told (S.left source.old) (S.left source.new) (FlowsBack command result)) }
    ensures engine { IfSome (command_of (map string_bytes words.now))
        (λ command. result ≡ Status.Ok → HasRun command engine.new (S.left source.old) (S.left source.new)) }
    ensures home { MatchOption (command_of (map string_bytes words.now)) (engine.new ≡ None)
        (λ command. LeavesHome command engine.new) }
    ensures later { S.faults source.old ≤ S.faults source.new }
    ensures later_sink { K.faults sink.old ≤ K.faults sink.new }
    ensures read { result ≡ Status.ReadFault → Rose (S.faults source.old) (S.faults source.new) }
    ensures write { result ≡ Status.WriteFault → Rose (K.faults sink.old) (K.faults sink.new) }
    ensures log { Logs (L.held log.old) (L.held log.new) (L.faults log.old) (L.faults log.new) (log_line result) }
    ensures log_prefix { AppendsPrefix (L.held log.old) (L.held log.new) (log_line result) }
    ensures quiet { result ≡ Status.Ok → log.new ≡ log.old }
    ensures later_log { L.faults log.old ≤ L.faults log.new }
{
    let status = run_words(rt, alloc, words, source, sink, gate, engine);
    write_log(log, &status);
    status
}
