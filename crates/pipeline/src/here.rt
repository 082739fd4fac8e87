//! Handles rounds in the thread that read the first one.
ghost use Rattle.pcap_io.specs.Readers.{place_of, SameLoan};
ghost use Rattle.rounds.specs.Merging.{options_of};
ghost use Rattle.rounds.specs.Reads.{reader_at};
ghost use Rattle.pipeline.specs.Handled.{HandledOn, IsFirstOut};

use lanes::Works;
use off_io::Source;
use pcap_io::CaptureReader;
use rounds::{RoundHandler, RoundRead, Rounds, handle_from};

/// Handles the first round, which was read, and what is left behind it.
pub(crate) fn handle_here<W: Works, S: Source, T, E, H: RoundHandler<T, E>>(
    works: &mut W,
    rounds: &mut Rounds,
    reader: &mut CaptureReader<'_, S>,
    read: RoundRead,
    handler: &H,
    into: &mut T,
) -> E
    requires out { IsFirstOut (H.ready (options_of rounds.old) rounds.old.keep) rounds.old read (place_of reader.old)
        into.old }
    ensures same_source { SameLoan reader.old reader.new }
    ensures handled { HandledOn (H.did handler.now (options_of rounds.old)) H.stopped
        (H.ready (options_of rounds.old) rounds.old.keep) rounds.old rounds.new read
        (reader_at S.left S.faults reader.old rounds.old.taken) (reader_at S.left S.faults reader.new rounds.new.taken)
        into.old into.new result }
{
    match rounds.handle(works, handler, read, 0, into) {
        Some(end) => end,
        None => handle_from(works, rounds, reader, handler, into, 1),
    }
}
