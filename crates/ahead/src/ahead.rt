//! A round is read beside the work of another, and its rest behind that.
ghost use Rattle.std.specs.Prelude.{◌≡◌, ◌≢◌, ◌+◌, ◌-◌, ◌<◌, ◌≤◌, ◌^◌, [], true, length, map, min};
ghost use Rattle.std.specs.Prelude.{ℕ, All, IfOk, IfErr};
ghost use Rattle.std.specs.Prelude.{IsErr, MatchResult, Ok};
ghost use Rattle.std.specs.Arc.{arc_value};
ghost use Rattle.std.specs.List.{AllByRecursion};
ghost use Rattle.block_pool.specs.PoolState.{home, weighed};
ghost use Rattle.off_io.specs.Faults.{Rose};
ghost use Rattle.off_io.specs.Told.{Told};
ghost use Rattle.pcap_io.specs.declared.heads.Link.TheVariants.{Ethernet};
ghost use Rattle.pcap_io.specs.declared.place.Place.{Place};
ghost use Rattle.pcap_io.specs.Places.{IsReady};
ghost use Rattle.pcap_io.specs.Readers.{place_of, source_of, SameLoan};
ghost use Rattle.offload_model.specs.Captured.{IsCaptured};
ghost use Rattle.offload_model.specs.Need.{need_of, round_need};
ghost use Rattle.offload_model.specs.Written.{round_records};
ghost use Rattle.gro.specs.Slots.{packet_of};
ghost use Rattle.lanes.specs.Lanes.{IsMerged};
ghost use Rattle.reading.specs.Reading.{KeepsHead};
ghost use Rattle.rounds.specs.Benches.{IsLent, WorksLent};
ghost use Rattle.rounds.specs.Filling.{reached};
ghost use Rattle.rounds.specs.Lanes.{worked_records, IsKeptWorkOf, WorksAs};
ghost use Rattle.rounds.specs.Merging.{options_of};
ghost use Rattle.rounds.specs.Reading.{GivesRound};
ghost use Rattle.rounds.specs.RoundOf.{brought_by, TakesBlocks};
ghost use Rattle.rounds.specs.Weights.{weights_of, weights_left};
ghost use Rattle.ahead.specs.Ahead.{round_of, FillsAhead, FillsRound, GivesBehind, IfPaused, IfRead, Lacks, NumberedTo};
ghost use Rattle.ahead.specs.Ahead.{NumbersOn, ReadsAhead, ReadsNext, Waits};
ghost use Rattle.ahead.specs.Out.{blocks_out, brought_listed, weights_out, GaveWorked};

use crate::next_lists::{ListName, NextLists};
use crate::paused::{Paused, ReadAhead};
use block_pool::Giver;
use block_supply::{AllHome, Supply, Taker, open_lists};
use lanes::Works;
use off_io::Source;
use pcap_io::CaptureReader;
use rounds::{Bench, Intake, Rest, Round, RoundEnd, RoundRead, Rounds, Worked, bring_lists};
use std::alloc::AllocError;
use std::marker::Brand;
use std::sync::Wait;
use std::thread::{Threads, join_mut};

// Reads the next round as far as its blocks come; where there was no memory for it none is read. The runtime goes with
// it for the borrow checker's part alone, by which what a side borrows ends with what both borrow.
fn read_next<R: Sync, S: Source, H: Supply>(
    _rt: &R,
    intake: &mut Intake,
    reader: &mut CaptureReader<'_, S>,
    more: &mut H,
) -> ReadAhead
    requires ready { IsReady (place_of reader.old) }
    requires link { (place_of reader.old).link ≡ Ethernet }
    ensures same_source { SameLoan reader.old reader.new }
    ensures reads { ReadsNext (reached S.left S.faults reader.old) (reached S.left S.faults reader.new) intake.old
        intake.new (brought_by H.weights H.refusals more.old) (brought_by H.weights H.refusals more.new) result }
{
    let mut reading = match intake.begin() {
        Ok(reading) => reading,
        Err(_) => return ReadAhead::Read(intake.read_none()),
    };
    let halt = intake.read(reader, more, &mut reading);
    ReadAhead::of(reading, halt)
}

// One side reads, in a thread of its own, and takes the lists that the other gives, which works here.
fn work_beside<'a, R: Threads + Wait + Sync, N: ListName + Send, W: Works, S: Source + Send>(
    rt: &'a R,
    works: &'a mut W,
    bench: &'a mut Bench,
    round: &'a mut Round,
    giver: &'a mut Option<Giver>,
    intake: &'a mut Intake,
    reader: &'a mut CaptureReader<'_, S>,
    more: &'a mut NextLists<'_, R, N>,
) -> (ReadAhead, Result<Worked, Rest>)
    requires ready { IsReady (place_of reader.old) }
    requires link { (place_of reader.old).link ≡ Ethernet }
    requires few { round.old.blocks ≤ bench.old.blocks }
    requires lent { IsLent giver.old }
    ensures same_source { SameLoan reader.old reader.new }
    ensures reads { ReadsNext (reached S.left S.faults reader.old) (reached S.left S.faults reader.new) intake.old
        intake.new (brought_listed more.old.taker.pass more.old.taker.left)
        (brought_listed more.new.taker.pass more.new.taker.left) result.0 }
    ensures works { WorksLent W.gives bench.old bench.new round.old round.new giver.old giver.new result.1 }
{
    join_mut(
        rt,
        &mut || -> ReadAhead
            requires ready { IsReady (place_of reader.now) }
            requires link { (place_of reader.now).link ≡ Ethernet }
            ensures same_source { SameLoan reader.entry.now reader.exit.now }
            ensures reads { ReadsNext (reached S.left S.faults reader.entry.now)
                (reached S.left S.faults reader.exit.now) intake.entry.now intake.exit.now
                (brought_listed more.entry.now.taker.pass more.entry.now.taker.left)
                (brought_listed more.exit.now.taker.pass more.exit.now.taker.left) result }
        { read_next(rt, intake, reader, more) },
        &mut || -> Result<Worked, Rest>
            requires few { round.now.blocks ≤ bench.now.blocks }
            requires lent { IsLent giver.now }
            ensures works { WorksLent W.gives bench.entry.now bench.exit.now round.entry.now round.exit.now
                giver.entry.now giver.exit.now result }
        { bench.work_lent(rt, works, round, giver) },
    )
}

// What was worked; for want of memory all blocks of the round come home.
fn close_work(rounds: &mut Rounds, worked: Result<Worked, Rest>) -> Result<Worked, AllocError>
    requires out { IfErr worked (λ rest. length rounds.old.stock + rest.blocks ≤ rounds.old.blocks) }
    ensures worked { MatchResult worked (λ w. result ≡ Ok w) (λ _. IsErr result) }
    ensures home { MatchResult worked (λ _. rounds.new ≡ rounds.old) (λ rest. (rounds.new
        ≡ record rounds.old { stock = rounds.new.stock })
        × (length rounds.new.stock ≡ length rounds.old.stock + rest.blocks)) }
    ensures named { IfErr worked (λ rest. (h : ℕ → ℕ) → weighed h rounds.new.stock
        ≡ weighed h rounds.old.stock + weights_left rest h) }
{
    match worked {
        Ok(worked) => Ok(worked),
        Err(rest) => {
            rounds.bring_rest(rest);
            Err(AllocError)
        }
    }
}

// The same by this pool of lists.
fn work_listed<N: ListName + Send, R: Threads + Wait + Sync, W: Works, S: Source + Send>(
    rounds: &mut Rounds,
    rt: &R,
    works: &mut W,
    round: Round,
    reader: &mut CaptureReader<'_, S>,
    taker: Taker,
    giver: Giver,
) -> (Result<Worked, AllocError>, ReadAhead)
    requires ready { IsReady (place_of reader.old) }
    requires link { (place_of reader.old).link ≡ Ethernet }
    requires out { length rounds.old.stock + round.blocks ≡ rounds.old.blocks }
    requires lists { (giver.pool ≡ arc_value taker.lists) × (arc_value taker.lists ≡ N.lists) }
    requires untaken { (taker.pass.taken ≡ []) × (home taker.left ≡ 0) × (taker.pass.empties ≡ 0) }
    requires ungiven { (giver.pass.parts ≡ 65535) × (giver.pass.put ≡ []) × (home giver.list ≡ 0) }
    ensures works { WorksAs (options_of rounds.old) rounds.old.keep (map packet_of round.packets) result.0 }
    ensures worked { IfOk result.0 (λ worked. worked.blocks ≤ round.blocks) }
    ensures gives { W.gives ≡ true → IfOk result.0 (GaveWorked (length round.spares) round.blocks
        rounds.old.spares.refused rounds.new.spares.refused result.1) }
    ensures same_source { SameLoan reader.old reader.new }
    ensures fills { FillsAhead rounds.old.blocks rounds.old.budget (reached S.left S.faults reader.old)
        (reached S.left S.faults reader.new) result.1 }
    ensures paused { IfPaused result.1 (λ paused. Lacks (length rounds.old.stock - paused.round.blocks)
        rounds.old.blocks rounds.old.taken rounds.new.taken paused) }
    ensures rose { IfPaused result.1 (λ _. min (rounds.old.empties + 1) (2 ^ 64 - 1) ≤ rounds.new.empties) }
    ensures later_empties { rounds.old.empties ≤ rounds.new.empties }
    ensures unpaused { rounds.new.pauses ≡ rounds.old.pauses }
    ensures home { length rounds.new.stock + blocks_out result.0 + (round_of result.1).blocks ≡ rounds.old.blocks }
    ensures named { (h : ℕ → ℕ) → weighed h rounds.new.stock + weights_out result.0 h
        + weights_of (round_of result.1) h ≡ weighed h rounds.old.stock + weights_of round h }
    ensures same { (rounds.new.blocks ≡ rounds.old.blocks) × (options_of rounds.new ≡ options_of rounds.old)
        × (rounds.new.keep ≡ rounds.old.keep) }
    ensures budget { (1 ≤ rounds.old.budget) × (rounds.old.budget ≤ 4096) }
    ensures takes { TakesBlocks rounds.old.blocks rounds.old.taken rounds.new.taken 0 (round_of result.1).blocks }
{
    if rounds.bench.make_room().is_err() {
        let none = rounds.intake.read_none();
        return (rounds.work_round(works, round), ReadAhead::Read(none));
    }
    let mut round = round;
    let mut giver = Some(giver);
    let mut more = NextLists::<'_, R, N>::new(rt, taker);
    let intake = &mut rounds.intake;
    let bench = &mut rounds.bench;
    let (read, worked) = work_beside(
        rt, works, bench, &mut round, &mut giver, intake, reader, &mut more,
    );
    let _none = round.discard();
    let NextLists {
        rt: _,
        taker,
        of: _,
    } = more;
    rounds.spares.refuse(bring_lists(rt, intake, taker, giver));
    (close_work(rounds, worked), read)
}

/// Works a round, and reads the next one beside it: `work_round` and `read_round` at once, the reading in a thread
/// of its own. A lane's part of the spares comes home as soon as it was worked, as a list; all other blocks of the
/// round stay out. So the next one is paused where it needs more blocks behind a record's header than are home, and
/// a take found no list of them: that header is kept. For want of memory for two sides the round is worked all the
/// same, and of the next one nothing is read. By who gives (`Works::gives`) all spares come home, unless a put found no
/// place, which [`Rounds::spares`] counts.
pub fn work_and_read<R: Threads + Wait + Sync, W: Works, S: Source + Send>(
    rounds: &mut Rounds,
    rt: &R,
    works: &mut W,
    round: Round,
    reader: &mut CaptureReader<'_, S>,
) -> (Result<Worked, AllocError>, ReadAhead)
    requires ready { IsReady (place_of reader.old) }
    requires link { (place_of reader.old).link ≡ Ethernet }
    requires out { length rounds.old.stock + round.blocks ≡ rounds.old.blocks }
    ensures records { IfOk result.0 (λ worked. worked_records worked
        ≡ round_records (options_of rounds.old) (map packet_of round.packets)) }
    ensures checked { rounds.old.keep ≡ true → IfOk result.0
        (λ worked. IsKeptWorkOf (options_of rounds.old) (map packet_of round.packets) worked) }
    ensures merged { IfOk result.0 (λ worked. All IsMerged worked.lanes.queues.items) }
    ensures worked { IfOk result.0 (λ worked. worked.blocks ≤ round.blocks) }
    ensures gives { W.gives ≡ true → IfOk result.0 (GaveWorked (length round.spares) round.blocks
        rounds.old.spares.refused rounds.new.spares.refused result.1) }
    ensures same_source { SameLoan reader.old reader.new }
    ensures given { IfRead result.1 (λ read. Told (S.left (source_of reader.old)) (S.left (source_of reader.new))
        (GivesRound rounds.old.blocks (place_of reader.old) (place_of reader.new) read.round.packets read.end)) }
    ensures reads { ReadsAhead rounds.old.budget (place_of reader.old) (place_of reader.new) result.1 }
    ensures waits { IfPaused result.1 (Waits rounds.old.budget (place_of reader.old) (place_of reader.new)
        (S.left (source_of reader.old)) (S.left (source_of reader.new))) }
    ensures paused { IfPaused result.1 (λ paused. Lacks (length rounds.old.stock - paused.round.blocks)
        rounds.old.blocks rounds.old.taken rounds.new.taken paused) }
    ensures rose { IfPaused result.1 (λ _. min (rounds.old.empties + 1) (2 ^ 64 - 1) ≤ rounds.new.empties) }
    ensures later_empties { rounds.old.empties ≤ rounds.new.empties }
    ensures unpaused { rounds.new.pauses ≡ rounds.old.pauses }
    ensures home { length rounds.new.stock + blocks_out result.0 + (round_of result.1).blocks ≡ rounds.old.blocks }
    ensures named { (h : ℕ → ℕ) → weighed h rounds.new.stock + weights_out result.0 h
        + weights_of (round_of result.1) h ≡ weighed h rounds.old.stock + weights_of round h }
    ensures same { (rounds.new.blocks ≡ rounds.old.blocks) × (options_of rounds.new ≡ options_of rounds.old)
        × (rounds.new.keep ≡ rounds.old.keep) }
    ensures budget { (1 ≤ rounds.old.budget) × (rounds.old.budget ≤ 4096) }
    ensures taken { min (rounds.old.taken + (round_of result.1).blocks) (2 ^ 64 - 1) ≤ rounds.new.taken }
    ensures least { rounds.old.taken ≤ rounds.new.taken }
    ensures most { rounds.new.taken ≤ rounds.old.taken + rounds.old.blocks }
    ensures later { S.faults (source_of reader.old) ≤ S.faults (source_of reader.new) }
    ensures failed { IfRead result.1 (λ read. read.end ≡ RoundEnd.ReadFault
        → Rose (S.faults (source_of reader.old)) (S.faults (source_of reader.new))) }
{
    let Ok((taker, giver)) = open_lists(rounds.bench.alloc()) else {
        let none = rounds.intake.read_none();
        return (rounds.work_round(works, round), ReadAhead::Read(none));
    };
    work_listed::<Brand, R, W, S>(rounds, rt, works, round, reader, taker, giver)
}

/// Reads the rest of a round that was paused, once the round beside it has ended, from behind the header that was
/// kept. What `read_round` says, over the whole round: of wherever its first records and that header were read
/// (`given`).
pub fn read_rest<S: Source>(
    rounds: &mut Rounds,
    paused: Paused,
    reader: &mut CaptureReader<'_, S>,
) -> RoundRead
    requires kept { (at : Place) × (KeepsHead at (place_of reader.old) paused.head
        × NumberedTo at.number paused.round.packets) }
    requires link { (place_of reader.old).link ≡ Ethernet }
    requires out { length rounds.old.stock + paused.round.blocks ≡ rounds.old.blocks }
    requires fits { paused.round.blocks + need_of paused.head.captured ≤ rounds.old.blocks }
    requires fewer { length paused.round.packets < rounds.old.budget }
    ensures same_source { SameLoan reader.old reader.new }
    ensures given { (at : Place) → KeepsHead at (place_of reader.old) paused.head
        → Told (S.left (source_of reader.old)) (S.left (source_of reader.new)) (GivesBehind rounds.old.blocks at
        (place_of reader.new) paused.head paused.round.packets result.round.packets result.end) }
    ensures size { length result.round.packets ≤ rounds.old.budget }
    ensures fewer { result.end ≢ RoundEnd.Full → length result.round.packets < rounds.old.budget }
    ensures full { result.end ≡ RoundEnd.Full → (at : Place) → KeepsHead at (place_of reader.old) paused.head
        → FillsRound at (place_of reader.new) paused.round.packets result.round.packets rounds.old.budget }
    ensures captured { AllByRecursion IsCaptured (map packet_of result.round.packets) }
    ensures numbers { (at : Place) → KeepsHead at (place_of reader.old) paused.head
        → NumbersOn at.number paused.round.packets result.round.packets }
    ensures need { result.round.blocks ≡ round_need (map packet_of result.round.packets) }
    ensures home { length rounds.new.stock + result.round.blocks ≡ rounds.old.blocks }
    ensures named { (h : ℕ → ℕ) → weighed h rounds.new.stock + weights_of result.round h
        ≡ weighed h rounds.old.stock + weights_of paused.round h }
    ensures same { (rounds.new.blocks ≡ rounds.old.blocks) × (options_of rounds.new ≡ options_of rounds.old)
        × (rounds.new.keep ≡ rounds.old.keep) × (rounds.new.empties ≡ rounds.old.empties)
        × (rounds.new.pauses ≡ rounds.old.pauses) }
    ensures budget { (1 ≤ rounds.old.budget) × (rounds.old.budget ≤ 4096) }
    ensures taken { min (rounds.old.taken + (result.round.blocks - paused.round.blocks)) (2 ^ 64 - 1)
        ≤ rounds.new.taken }
    ensures least { (paused.round.blocks ≤ result.round.blocks) × (rounds.old.taken ≤ rounds.new.taken) }
    ensures most { rounds.new.taken + paused.round.blocks ≤ rounds.old.taken + rounds.old.blocks }
    ensures later { S.faults (source_of reader.old) ≤ S.faults (source_of reader.new) }
    ensures failed { result.end ≡ RoundEnd.ReadFault
        → Rose (S.faults (source_of reader.old)) (S.faults (source_of reader.new)) }
{
    let mut reading = paused.reading();
    if rounds.bench.make_room().is_err() {
        let round = reading.into_round();
        let end = RoundEnd::NoMemory;
        return RoundRead { round, end };
    }
    if rounds.intake.make_room(&mut reading).is_err() {
        let round = reading.into_round();
        return RoundRead {
            round,
            end: RoundEnd::NoMemory,
        };
    }
    let halt = rounds
        .intake
        .read(reader, &mut AllHome::new(), &mut reading);
    let (round, end) = (reading.into_round(), halt.end());
    RoundRead { round, end }
}
