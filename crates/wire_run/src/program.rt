//! The whole program over a source and a sink.
ghost use Rattle.std.specs.Prelude.{◌≡◌, ◌≢◌, ◌≤◌, ◌⊎◌, IfSome, None, map, string_bytes, true, false};
ghost use Rattle.off_io.specs.Content.{AppendsPrefix};
ghost use Rattle.off_io.specs.Faults.{Rose};
ghost use Rattle.off_io.specs.Told.{Told};
ghost use Rattle.pcap_io.specs.declared.heads.Link.TheVariants.{Ethernet};
ghost use Rattle.pcap_io.specs.Capture.{reads};
ghost use Rattle.status_log.specs.Lines.{Logs};
ghost use Rattle.command_answers.specs.Ending.{HasBlocks};
ghost use Rattle.wire_model.specs.Counting.{counts_of};
ghost use Rattle.wire_words.specs.Options.{wire_options_of};
ghost use Rattle.wire_run.specs.Answers.{WireAnswers, WritesFront};
ghost use Rattle.wire_run.specs.Lines.{status_line, summary_line};

use crate::log::{log_summary, write_status};
use crate::wire::run_wire;
use command_answers::Status;
use off_io::{Sink, Source};
use std::alloc::Global;
use wire_model::Counts;
use wire_words::{WordsFault, parse_words};

// The status of words that are no options.
fn refused_words(fault: WordsFault) -> Status
    ensures usage { result ≡ Status.Usage → fault ≡ WordsFault.Usage }
    ensures either { (result ≡ Status.Usage) ⊎ (result ≡ Status.NoMemory) }
{
    match fault {
        WordsFault::Usage => Status::Usage,
        WordsFault::NoMemory => Status::NoMemory,
    }
}

// Logs how a run ended: the line of its status, or on `Ok` what was done, where that is wanted.
fn log_end<L: Sink>(log: &mut L, status: &Status, has_summary: bool, counts: Counts)
    ensures line { status.now ≢ Status.Ok
        → Logs (L.held log.old) (L.held log.new) (L.faults log.old) (L.faults log.new) (status_line status.now) }
    ensures prefix { status.now ≢ Status.Ok → AppendsPrefix (L.held log.old) (L.held log.new) (status_line status.now) }
    ensures summary { status.now ≡ Status.Ok → has_summary ≡ true
        → Logs (L.held log.old) (L.held log.new) (L.faults log.old) (L.faults log.new) (summary_line counts) }
    ensures quiet { status.now ≡ Status.Ok → has_summary ≡ false → log.new ≡ log.old }
    ensures later { L.faults log.old ≤ L.faults log.new }
{
    match *status {
        Status::Ok => {
            if has_summary {
                log_summary(log, counts);
            }
        }
        _ => write_status(log, status),
    }
}

/// Writes what a host captured as it goes over the wire: a capture of Ethernet frames is read from the source, and one
/// is written to the sink. The words are the program's name and its options.
///
/// Of a packet that was captured whole, has a shape and right lengths, sums that the host left to its card are filled
/// in, or with `--sums all` each sum; and a TCP frame with more than `--mss` bytes of payload is written as its
/// segments, each with the packet's time. Any other packet passes byte for byte.
///
/// `Usage` exactly where the words are no options, want of memory aside: then nothing is read or written. `Ok`,
/// `Malformed` and `PoolEmpty` exactly as the capture ends or a record needs more blocks than `--blocks` says, where
/// neither the source nor the sink fails and memory suffices. `ReadFault` and `WriteFault` only where the count of
/// faults of the source, of the sink, rose in this call.
///
/// The sink is flushed after the last write, and stays as it was where there is no lawful file header. On each status
/// but `Ok` the log gets one line, or a prefix of it where the log fails, which is ignored; on `Ok` it gets one with
/// `--summary` alone, of what was done.
pub fn run<S: Source, K: Sink, L: Sink>(
    alloc: Global,
    words: &[String],
    source: &mut S,
    sink: &mut K,
    log: &mut L,
) -> Status
    ensures usage { result ≡ Status.Usage → wire_options_of (map string_bytes words.now) ≡ None }
    ensures no_options { wire_options_of (map string_bytes words.now) ≡ None
        → (result ≡ Status.Usage) ⊎ (result ≡ Status.NoMemory) }
    ensures untouched { wire_options_of (map string_bytes words.now) ≡ None
        → (source.new ≡ source.old) × (sink.new ≡ sink.old) }
    ensures given { IfSome (wire_options_of (map string_bytes words.now))
        (λ o. Told (S.left source.old) (S.left source.new)
        (WireAnswers o (K.held sink.old) (K.held sink.new) (K.is_flushed sink.new) (sink.new ≡ sink.old) result)) }
    ensures prefix { IfSome (wire_options_of (map string_bytes words.now))
        (λ o. WritesFront o (S.left source.old) (S.left source.new) (K.held sink.old) (K.held sink.new)) }
    ensures blocks { IfSome (wire_options_of (map string_bytes words.now)) (λ o. HasBlocks o.blocks result) }
    ensures summary { IfSome (wire_options_of (map string_bytes words.now))
        (λ o. o.has_summary ≡ true → result ≡ Status.Ok
        → Told (S.left source.old) (S.left source.new) (λ given left. Logs (L.held log.old) (L.held log.new)
        (L.faults log.old) (L.faults log.new) (summary_line (counts_of o.wiring (reads Ethernet given).packets)))) }
    ensures quiet { IfSome (wire_options_of (map string_bytes words.now))
        (λ o. o.has_summary ≡ false → result ≡ Status.Ok → log.new ≡ log.old) }
    ensures later { S.faults source.old ≤ S.faults source.new }
    ensures later_sink { K.faults sink.old ≤ K.faults sink.new }
    ensures read { result ≡ Status.ReadFault → Rose (S.faults source.old) (S.faults source.new) }
    ensures write { result ≡ Status.WriteFault → Rose (K.faults sink.old) (K.faults sink.new) }
    ensures log { result ≢ Status.Ok
        → Logs (L.held log.old) (L.held log.new) (L.faults log.old) (L.faults log.new) (status_line result) }
    ensures log_prefix { result ≢ Status.Ok → AppendsPrefix (L.held log.old) (L.held log.new) (status_line result) }
    ensures later_log { L.faults log.old ≤ L.faults log.new }
{
    let options = match parse_words(alloc, words) {
        Ok(options) => options,
        Err(fault) => {
            let status = refused_words(fault);
            write_status(log, &status);
            return status;
        }
    };
    let mut counts = Counts::NONE;
    let status = run_wire(alloc, options, source, sink, &mut counts);
    log_end(log, &status, options.has_summary, counts);
    status
}
