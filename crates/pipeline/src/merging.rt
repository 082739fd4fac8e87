//! Merges a capture.
ghost use Rattle.std.specs.Prelude.{◌≡◌, length};
ghost use Rattle.pcap_io.specs.declared.heads.Link.TheVariants.{Ethernet};
ghost use Rattle.pcap_io.specs.Places.{IsReady};
ghost use Rattle.pcap_io.specs.Readers.{place_of, source_of, SameLoan};
ghost use Rattle.rounds.specs.Handled.{source_at, GaveSpares};
ghost use Rattle.rounds.specs.Merged.{sink_at, Merged};

use crate::crewed::handle_beside;
use off_io::{Gate, Sink, Source};
use pcap_io::{CaptureReader, FileHead};
use rounds::{MergeEnd, RoundWriter, Rounds};
use std::alloc::Global;
use std::sync::Wait;
use std::thread::Threads;

/// Merges as `merge_all` of the rounds, whose clause this is, but that the next rounds are read while one is worked,
/// from the first one on, and that all threads are started once, for the whole run. On one processor, and where there
/// is no memory or no thread for a second side, reading is done in the thread that calls; where there is none for those
/// who run lanes, their work too. Where there is one queue and no tap, no thread is made of a capture of one round.
pub fn merge_beside<R: Threads + Wait + Sync, S: Source + Send, K: Sink, G: Gate + Sync>(
    rt: &R,
    alloc: Global,
    rounds: &mut Rounds,
    reader: &mut CaptureReader<'_, S>,
    file: &FileHead,
    sink: &mut K,
    gate: &G,
) -> MergeEnd
    requires ready { IsReady (place_of reader.old) }
    requires link { (place_of reader.old).link ≡ Ethernet }
    requires file { (place_of reader.old).file ≡ file.now }
    requires home { length rounds.old.stock ≡ rounds.old.blocks }
    ensures same_source { SameLoan reader.old reader.new }
    ensures merged { Merged rounds.old rounds.new (place_of reader.old)
        (source_at S.left S.faults (source_of reader.old)) (source_at S.left S.faults (source_of reader.new))
        (sink_at K.held K.is_flushed K.faults sink.old) (sink_at K.held K.is_flushed K.faults sink.new) result }
    ensures gives { GaveSpares rounds.old.spares rounds.new.spares }
{
    handle_beside(
        rt,
        alloc,
        rounds,
        reader,
        &RoundWriter { file: *file },
        sink,
        gate,
    )
}
