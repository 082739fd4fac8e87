//! Merges the records of a capture, round by round.
ghost use Rattle.std.specs.Prelude.{◌≡◌, ◌⊎◌, ℕ, ◌+◌, ◌≤◌, true, false, Option, List, map, IfOk};
ghost use Rattle.std.specs.Prelude.{MatchResult, IsOk, length};
ghost use Rattle.std.specs.Io.KnownBytes.{Appends, Keeps};
ghost use Rattle.off_io.specs.Content.{SaysFlushed};
ghost use Rattle.off_io.specs.Faults.{Rose};
ghost use Rattle.pcap_io.specs.declared.heads.Link.TheVariants.{Ethernet};
ghost use Rattle.pcap_io.specs.Places.{IsReady};
ghost use Rattle.pcap_io.specs.Readers.{place_of, source_of, SameLoan};
ghost use Rattle.offload_model.specs.Passing.{flushes};
ghost use Rattle.offload_model.specs.Steps.{round_output};
ghost use Rattle.gro.specs.Slots.{packet_of};
ghost use Rattle.rounds.specs.Benches.{options_at, Brings, BringsBeside, GivesSpares, IsLent, Lends, MayBring};
ghost use Rattle.rounds.specs.Handled.{source_at};
ghost use Rattle.rounds.specs.Lanes.{worked_bytes};
ghost use Rattle.rounds.specs.Merged.{sink_at, Merged};
ghost use Rattle.rounds.specs.Weights.{weights_of, weights_worked};
ghost use Rattle.block_pool.specs.PoolState.{weighed};
ghost use Rattle.rounds.specs.Merging.{ending_of, options_of, is_worked, Puts, GivesUp, IfEnds};

use crate::bench::Bench;
use crate::handler::RoundHandler;
use crate::round_stages::{Round, RoundEnd, RoundRead, Worked, is_worked};
use crate::rounds::Rounds;
use crate::turns::handle_from;
use block_pool::{Giver, Pool};
use lanes::Works;
use off_io::{Failed, Sink, Source, WriteFault};
use pcap_io::{CapFault, CaptureReader, FileHead};
use std::alloc::AllocError;

/// How merging ended.
#[derive(Clone, Copy, Debug, PartialEq, Eq)]
pub enum MergeEnd {
    /// The capture was read to its end, and all is written and flushed.
    Done,
    /// The capture is refused; the output of the records before is written.
    Malformed(CapFault),
    /// A round, counted from 0, needs this many blocks, and there are fewer; the output of the rounds before is
    /// written.
    PoolEmpty { round: u64, need: u32 },
    /// The source failed; the output of the whole records before is written.
    ReadFault,
    /// The sink failed; a prefix of the output is written.
    WriteFault,
    /// There was no memory; a prefix of the output is written.
    NoMemory,
}

/// What comes of a round.
#[derive(Clone, Copy, Debug, PartialEq, Eq)]
pub enum Step {
    /// It was full and is written: the next one may be read.
    Goes,
    /// No round follows.
    Ends(MergeEnd),
}

// The end after the last write: the sink is flushed first.
fn finish<K: Sink>(sink: &mut K, end: MergeEnd) -> MergeEnd
    ensures answer { (result ≡ end) ⊎ (result ≡ MergeEnd.WriteFault) }
    ensures content { Keeps (K.held sink.old) (K.held sink.new) }
    ensures flushed { (result ≡ MergeEnd.WriteFault) ⊎ SaysFlushed (K.held sink.new) (K.is_flushed sink.new) true }
    ensures later { K.faults sink.old ≤ K.faults sink.new }
    ensures failed { result ≡ MergeEnd.WriteFault → (end ≡ MergeEnd.WriteFault)
        ⊎ Rose (K.faults sink.old) (K.faults sink.new) }
{
    match sink.flush() {
        Ok(()) => end,
        Err(Failed) => MergeEnd::WriteFault,
    }
}

// What follows a round that was written, by why it has no more records.
fn close_round<K: Sink>(sink: &mut K, end: RoundEnd) -> Step
    requires works { is_worked end ≡ true }
    ensures puts { (held : Option (List ℕ)) → (bytes : List ℕ) → Appends held (K.held sink.old) bytes
        → Puts held (K.held sink.new) bytes end result }
    ensures flushed { IfEnds result (λ end. flushes (ending_of end) ≡ true
        → SaysFlushed (K.held sink.new) (K.is_flushed sink.new) true) }
    ensures later { K.faults sink.old ≤ K.faults sink.new }
    ensures rose { IfEnds result (λ end. end ≡ MergeEnd.WriteFault → Rose (K.faults sink.old) (K.faults sink.new)) }
{
    match end {
        RoundEnd::Full => Step::Goes,
        RoundEnd::End => Step::Ends(finish(sink, MergeEnd::Done)),
        RoundEnd::Malformed(fault) => Step::Ends(finish(sink, MergeEnd::Malformed(fault))),
        RoundEnd::ReadFault => Step::Ends(finish(sink, MergeEnd::ReadFault)),
        RoundEnd::PoolEmpty { need: _ } | RoundEnd::NoMemory | RoundEnd::GivenUp => unreachable!(),
    }
}

impl Bench {
    // Writes a round that was worked and ends it. Where that fails merging ends so; the round's blocks are home all the
    // same.
    fn put_round<K: Sink>(
        &mut self,
        worked: Result<Worked, AllocError>,
        end: RoundEnd,
        file: &FileHead,
        sink: &mut K,
        home: &mut Pool,
    ) -> Step
        requires may { IfOk worked (λ w. MayBring w.blocks self.old home.old) }
        requires works { is_worked end ≡ true }
        ensures puts { (bytes : List ℕ) → IfOk worked (λ w. worked_bytes file.now.order w ≡ bytes)
            → Puts (K.held sink.old) (K.held sink.new) bytes end result }
        ensures flushed { IfEnds result (λ end. flushes (ending_of end) ≡ true
            → SaysFlushed (K.held sink.new) (K.is_flushed sink.new) true) }
        ensures brings { MatchResult worked
            (λ w. Brings w.blocks (weights_worked w) self.old self.new home.old home.new)
            (λ _. (self.new ≡ self.old) × (home.new ≡ home.old)) }
        ensures worked { result ≡ Step.Goes → IsOk worked }
        ensures later { K.faults sink.old ≤ K.faults sink.new }
        ensures rose { IfEnds result (λ end. end ≡ MergeEnd.WriteFault → Rose (K.faults sink.old) (K.faults sink.new)) }
    {
        let worked = match worked {
            Ok(worked) => worked,
            Err(_) => return Step::Ends(MergeEnd::NoMemory),
        };
        let written = self.write_round(&worked, file, sink);
        self.end_round(worked, home);
        match written {
            Ok(()) => close_round(sink, end),
            Err(WriteFault) => Step::Ends(MergeEnd::WriteFault),
        }
    }

    // Gives up a round, behind `number` others, that exceeds the blocks or that there was no memory for. Nothing is
    // written of it.
    fn give_up<K: Sink>(
        &mut self,
        round: Round,
        end: RoundEnd,
        sink: &mut K,
        number: u64,
        home: &mut Pool,
    ) -> MergeEnd
        requires may { MayBring round.blocks self.old home.old }
        requires ends { is_worked end ≡ false }
        ensures gives { GivesUp (K.held sink.old) (K.held sink.new) number end result }
        ensures flushed { flushes (ending_of result) ≡ true
            → SaysFlushed (K.held sink.new) (K.is_flushed sink.new) true }
        ensures brings { Brings round.blocks (weights_of round) self.old self.new home.old home.new }
        ensures later { K.faults sink.old ≤ K.faults sink.new }
        ensures rose { result ≡ MergeEnd.WriteFault → Rose (K.faults sink.old) (K.faults sink.new) }
    {
        self.drop_round(round, home);
        match end {
            RoundEnd::PoolEmpty { need } => {
                let end = MergeEnd::PoolEmpty {
                    round: number,
                    need,
                };
                finish(sink, end)
            }
            RoundEnd::NoMemory | RoundEnd::GivenUp => MergeEnd::NoMemory,
            RoundEnd::Full | RoundEnd::End | RoundEnd::Malformed(_) | RoundEnd::ReadFault =>
                unreachable!(),
        }
    }

    /// Works and writes a round that was read, behind `number` others, and brings it home, but spares that go to others
    /// by the giver meanwhile. One that exceeds the blocks or that there was no memory for is given up: nothing is
    /// written of it.
    pub fn put_read<W: Works, K: Sink>(
        &mut self,
        works: &mut W,
        read: RoundRead,
        file: &FileHead,
        sink: &mut K,
        number: u64,
        home: &mut Pool,
        giver: &mut Option<Giver>,
    ) -> Step
        requires may { MayBring read.round.blocks self.old home.old }
        requires lent { IsLent giver.old }
        ensures puts { is_worked read.end ≡ true → Puts (K.held sink.old) (K.held sink.new)
            (round_output (options_at self.old) file.now.order (map packet_of read.round.packets)) read.end result }
        ensures gives { is_worked read.end ≡ false → (end : MergeEnd) × (result ≡ Step.Ends end)
            × GivesUp (K.held sink.old) (K.held sink.new) number read.end end }
        ensures flushed { IfEnds result (λ end. flushes (ending_of end) ≡ true
            → SaysFlushed (K.held sink.new) (K.is_flushed sink.new) true) }
        ensures brings { BringsBeside read.round.blocks (weights_of read.round) self.old self.new home.old home.new
            giver.old giver.new }
        ensures gave { Lends giver.old giver.new }
        ensures gives_spares { W.gives ≡ true → result ≡ Step.Goes
            → GivesSpares (length read.round.spares) giver.old giver.new }
        ensures later { K.faults sink.old ≤ K.faults sink.new }
        ensures rose { IfEnds result (λ end. end ≡ MergeEnd.WriteFault → Rose (K.faults sink.old) (K.faults sink.new)) }
    {
        let RoundRead { round, end } = read;
        if !is_worked(end) {
            return Step::Ends(self.give_up(round, end, sink, number, home));
        }
        let worked = self.work_round(works, round, home, giver);
        self.put_round(worked, end, file, sink, home)
    }
}

/// Each round is written into a sink, behind this file header.
#[derive(Drop)]
pub struct RoundWriter {
    /// Records are written in its byte order.
    pub file: FileHead,
}

impl<K: Sink> RoundHandler<K, MergeEnd> for RoundWriter {
    ghost use Rattle.std.specs.Prelude.{⊤};
    ghost use Rattle.rounds.specs.declared.round_writer.MergeEnd.TheVariants.{NoMemory};
    ghost use Rattle.rounds.specs.Merged.{PutRound, sink_at};

    ghost ready = { λ options keep n sink. ⊤ };

    ghost did = { λ writer options old new read k end. PutRound options writer.file
        (sink_at K.held K.is_flushed K.faults old) (sink_at K.held K.is_flushed K.faults new) read k end };

    ghost stopped = { NoMemory };

    fn handle<W: Works>(
        &self,
        works: &mut W,
        bench: &mut Bench,
        home: &mut Pool,
        giver: &mut Option<Giver>,
        read: RoundRead,
        number: u64,
        into: &mut K,
    ) -> Option<MergeEnd> {
        match bench.put_read(works, read, &self.file, into, number, home, giver) {
            Step::Goes => None,
            Step::Ends(end) => Some(end),
        }
    }

    fn stop(&self) -> MergeEnd {
        MergeEnd::NoMemory
    }
}

impl Rounds {
    /// Works and writes a round that was read, behind `number` others, and brings it home. One that exceeds the blocks
    /// or that there was no memory for is given up: nothing is written of it.
    pub fn put_read<W: Works, K: Sink>(
        &mut self,
        works: &mut W,
        read: RoundRead,
        file: &FileHead,
        sink: &mut K,
        number: u64,
    ) -> Step
        requires out { length self.old.stock + read.round.blocks ≤ self.old.blocks }
        ensures puts { is_worked read.end ≡ true → Puts (K.held sink.old) (K.held sink.new)
            (round_output (options_of self.old) file.now.order (map packet_of read.round.packets)) read.end result }
        ensures gives { is_worked read.end ≡ false → (end : MergeEnd) × (result ≡ Step.Ends end)
            × GivesUp (K.held sink.old) (K.held sink.new) number read.end end }
        ensures flushed { IfEnds result (λ end. flushes (ending_of end) ≡ true
            → SaysFlushed (K.held sink.new) (K.is_flushed sink.new) true) }
        ensures home { (self.new ≡ record self.old { stock = self.new.stock })
            × (length self.new.stock ≡ length self.old.stock + read.round.blocks) }
        ensures named { (h : ℕ → ℕ) → weighed h self.new.stock ≡ weighed h self.old.stock + weights_of read.round h }
        ensures later { K.faults sink.old ≤ K.faults sink.new }
        ensures rose { IfEnds result (λ end. end ≡ MergeEnd.WriteFault → Rose (K.faults sink.old) (K.faults sink.new)) }
    {
        let intake = &mut self.intake;
        let bench = &mut self.bench;
        let home = &mut intake.pool;
        bench.put_read(works, read, file, sink, number, home, &mut None)
    }

    /// Merges the records of a capture, round by round, up to its end: each round is read, worked, written and ended.
    /// The sink is flushed once, after the last write.
    ///
    /// Of `merged`, `given` says of each ending what was read and written, `prefix` that this is a prefix of what comes
    /// of all the bytes that were given, unless the source failed, and `captured` that the packets are such as a
    /// capture may hold. A read fault or a write fault only where the count of the source or the sink rose. All blocks
    /// are home again, whatever the ending.
    pub fn merge_all<W: Works, S: Source, K: Sink>(
        &mut self,
        works: &mut W,
        reader: &mut CaptureReader<'_, S>,
        file: &FileHead,
        sink: &mut K,
    ) -> MergeEnd
        requires ready { IsReady (place_of reader.old) }
        requires link { (place_of reader.old).link ≡ Ethernet }
        requires file { (place_of reader.old).file ≡ file.now }
        requires home { length self.old.stock ≡ self.old.blocks }
        ensures same_source { SameLoan reader.old reader.new }
        ensures merged { Merged self.old self.new (place_of reader.old)
            (source_at S.left S.faults (source_of reader.old)) (source_at S.left S.faults (source_of reader.new))
            (sink_at K.held K.is_flushed K.faults sink.old) (sink_at K.held K.is_flushed K.faults sink.new) result }
    {
        handle_from(works, self, reader, &RoundWriter { file: *file }, sink, 0)
    }
}
