//! Checks a capture by two sides, with all who run lanes beside them.
ghost use Rattle.std.specs.Prelude.{◌≡◌, [], true, length};
ghost use Rattle.pcap_io.specs.declared.heads.Link.TheVariants.{Ethernet};
ghost use Rattle.pcap_io.specs.Places.{IsReady};
ghost use Rattle.pcap_io.specs.Readers.{place_of, source_of, SameLoan};
ghost use Rattle.check_totals.specs.Counts.{totals_of};
ghost use Rattle.rounds.specs.Handled.{source_at, GaveSpares};
ghost use Rattle.rounds.specs.Merging.{options_of};
ghost use Rattle.checking.specs.Whole.{Checked};

use check_totals::Totals;
use checking::{CheckEnd, Counting};
use off_io::{Gate, Source};
use pcap_io::CaptureReader;
use pipeline::handle_beside;
use rounds::Rounds;
use std::alloc::Global;
use std::sync::Wait;
use std::thread::Threads;

/// Checks the records of a capture, round by round, up to its end: each round is read, worked, compared with its
/// packets and ended, and what it counts is added to the totals. The next rounds are read while one is worked, from the
/// first one on, and all threads are started once, for the whole run. On one processor, and where there is no memory or
/// no thread for a second side, reading is done in the thread that calls; where there is none for those who run lanes,
/// their work too.
///
/// The rounds keep a clone of each packet, and the totals begin with those of no packet, of as many queues and taps.
/// Of `checked`, `given` says of each ending what was read and counted. A read fault only where the source's count of
/// faults rose. All blocks are home again, whatever the ending.
pub fn check_beside<R: Threads + Wait + Sync, S: Source + Send, G: Gate + Sync>(
    rt: &R,
    alloc: Global,
    rounds: &mut Rounds,
    reader: &mut CaptureReader<'_, S>,
    totals: &mut Totals,
    gate: &G,
) -> CheckEnd
    requires ready { IsReady (place_of reader.old) }
    requires link { (place_of reader.old).link ≡ Ethernet }
    requires home { length rounds.old.stock ≡ rounds.old.blocks }
    requires keep { rounds.old.keep ≡ true }
    requires start { totals.old ≡ totals_of (options_of rounds.old) [] }
    ensures same_source { SameLoan reader.old reader.new }
    ensures checked { Checked rounds.old rounds.new (place_of reader.old)
        (source_at S.left S.faults (source_of reader.old)) (source_at S.left S.faults (source_of reader.new))
        totals.old totals.new result }
    ensures gives { GaveSpares rounds.old.spares rounds.new.spares }
{
    handle_beside(rt, alloc, rounds, reader, &Counting, totals, gate)
}
