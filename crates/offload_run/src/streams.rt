//! The whole program over a reader and two writers of std.
ghost use Rattle.std.specs.Prelude.{◌≡◌, ◌⊎◌, [], IfSome, MatchOption, None, map, string_bytes};
ghost use Rattle.std.specs.Io.Buffered.{reader_remaining, writer_buffer, writer_inner};
ghost use Rattle.off_io.specs.Content.{AppendsPrefix};
ghost use Rattle.off_io.specs.Faults.{Rose};
ghost use Rattle.offload_words.specs.Commands.{command_of};
ghost use Rattle.command_answers.specs.Log.{log_line};
ghost use Rattle.offload_run.specs.Streaming.{HasStreamed};

use crate::Engine;
use crate::command::run;
use command_answers::Status;
use off_io::{BufferedSink, BufferedSource, NoGate, StdSink};
use std::alloc::Global;
use std::io::{BufReader, BufWriter, Read, Write};
use std::sync::Wait;
use std::thread::Threads;

/// What a run leaves of its streams.
#[derive(Drop)]
pub struct Streams<I, O, E> {
    /// How the run ended.
    pub status: Status,
    /// The reader behind its buffer, and how often it failed.
    pub input: BufferedSource<I>,
    /// The writer of the output, without a buffer.
    pub output: O,
    /// The writer of the log.
    pub log: E,
    /// The blocks that the run read into, as [`run`] leaves them.
    pub engine: Option<Engine>,
}

/// Runs the program over std's streams: [`run`] over a reader and a writer behind their buffers, and a writer of the
/// log. It says of std's own writer what `run` says of its sink, where these streams tell what they have and hold.
///
/// Once a command has ended by `Ok`, `Malformed`, `PoolEmpty` or `ReadFault` the writer has been given all of its
/// output, since that is flushed; by `WriteFault` and `NoMemory` the first bytes of what was written. Of words that are
/// no command the reader and the writer are as they were.
pub fn run_streams<R: Threads + Wait + Sync, I: Read + Send, O: Write + Drop + Send, E: Write>(
    rt: &R,
    alloc: Global,
    words: &[String],
    input: BufReader<I>,
    output: BufWriter<O>,
    log: E,
) -> Streams<I, O, E>
    requires empty { writer_buffer output ≡ [] }
    ensures usage { result.status ≡ Status.Usage → command_of (map string_bytes words.now) ≡ None }
    ensures no_command { command_of (map string_bytes words.now) ≡ None
        → (result.status ≡ Status.Usage) ⊎ (result.status ≡ Status.NoMemory) }
    ensures untouched { command_of (map string_bytes words.now) ≡ None
        → (result.input.inner ≡ input) × (result.output ≡ writer_inner output) }
    ensures streamed { IfSome (command_of (map string_bytes words.now))
        (λ command. HasStreamed command (reader_remaining I.remaining input)
        (reader_remaining I.remaining result.input.inner) result.input.faults (O.contents (writer_inner output))
        (O.contents result.output) (result.input ≡ record { inner = input; faults = 0 })
        (result.output ≡ writer_inner output) result.engine
        result.status) }
    ensures read { result.status ≡ Status.ReadFault → Rose 0 result.input.faults }
    ensures log_prefix { AppendsPrefix (E.contents log) (E.contents result.log) (log_line result.status) }
    ensures quiet { result.status ≡ Status.Ok → result.log ≡ log }
{
    let mut input = BufferedSource::new(input);
    let mut output = BufferedSink::new(output);
    let mut log = StdSink::new(log);
    let mut engine = None;
    let status = run(
        rt,
        alloc,
        words,
        &mut input,
        &mut output,
        &mut log,
        &NoGate,
        &mut engine,
    );
    Streams {
        status,
        input,
        output: output.into_writer(),
        log: log.into_writer(),
        engine,
    }
}
