//! Handles rounds one after another, in the thread that reads them.
ghost use Rattle.std.specs.Prelude.{◌≡◌, ℕ, ◌≤◌, length};
ghost use Rattle.block_pool.specs.PoolState.{weighed};
ghost use Rattle.pcap_io.specs.declared.heads.Link.TheVariants.{Ethernet};
ghost use Rattle.pcap_io.specs.Places.{IsReady};
ghost use Rattle.pcap_io.specs.Readers.{place_of, SameLoan};
ghost use Rattle.rounds.specs.Handled.{Handled, IsReadyAt, Rests, Stepped};
ghost use Rattle.rounds.specs.Merging.{options_of};
ghost use Rattle.rounds.specs.Reads.{reader_at};

use crate::handler::RoundHandler;
use crate::rounds::Rounds;
use lanes::Works;
use off_io::Source;
use pcap_io::CaptureReader;

// Reads the next round, behind `number` others, and handles it.
fn handle_next<W: Works, S: Source, T, E, H: RoundHandler<T, E>>(
    works: &mut W,
    rounds: &mut Rounds,
    reader: &mut CaptureReader<'_, S>,
    handler: &H,
    into: &mut T,
    number: u64,
) -> Option<E>
    requires ready { IsReady (place_of reader.old) }
    requires link { (place_of reader.old).link ≡ Ethernet }
    requires home { length rounds.old.stock ≡ rounds.old.blocks }
    requires start { IsReadyAt (H.ready (options_of rounds.old) rounds.old.keep) (place_of reader.old).number into.old }
    ensures same_source { SameLoan reader.old reader.new }
    ensures stepped { Stepped (H.did handler.now (options_of rounds.old))
        (H.ready (options_of rounds.old) rounds.old.keep) rounds.old.blocks rounds.old.budget number
        (reader_at S.left S.faults reader.old rounds.old.taken) (reader_at S.left S.faults reader.new rounds.new.taken)
        into.old into.new result }
    ensures rests { Rests rounds.old rounds.new (reader_at S.left S.faults reader.old rounds.old.taken)
        (reader_at S.left S.faults reader.new rounds.new.taken) }
    ensures named { (h : ℕ → ℕ) → weighed h rounds.new.stock ≡ weighed h rounds.old.stock }
{
    let read = rounds.read_round(reader);
    rounds.handle(works, handler, read, number, into)
}

/// Handles the rounds of a capture that are left behind `number` others, one after another, up to its end.
pub fn handle_from<W: Works, S: Source, T, E, H: RoundHandler<T, E>>(
    works: &mut W,
    rounds: &mut Rounds,
    reader: &mut CaptureReader<'_, S>,
    handler: &H,
    into: &mut T,
    number: u64,
) -> E
    requires ready { IsReady (place_of reader.old) }
    requires link { (place_of reader.old).link ≡ Ethernet }
    requires home { length rounds.old.stock ≡ rounds.old.blocks }
    requires counted { number ≤ (place_of reader.old).number }
    requires start { IsReadyAt (H.ready (options_of rounds.old) rounds.old.keep) (place_of reader.old).number into.old }
    ensures same_source { SameLoan reader.old reader.new }
    ensures handled { Handled (H.did handler.now (options_of rounds.old)) H.stopped
        (H.ready (options_of rounds.old) rounds.old.keep) number rounds.old rounds.new
        (reader_at S.left S.faults reader.old rounds.old.taken) (reader_at S.left S.faults reader.new rounds.new.taken)
        into.old into.new result }
{
    let mut number = number;
    'rounds: loop {
        match handle_next(works, rounds, reader, handler, into, number) {
            None => number += 1,
            Some(end) => return end,
        }
    }
}
