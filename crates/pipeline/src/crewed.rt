//! Handles a capture's rounds with all who run lanes beside it, until the run is over.
ghost use Rattle.std.specs.Prelude.{◌≡◌, length, true, All};
ghost use Rattle.pcap_io.specs.declared.heads.Link.TheVariants.{Ethernet};
ghost use Rattle.pcap_io.specs.Places.{IsReady};
ghost use Rattle.pcap_io.specs.Readers.{place_of, SameLoan};
ghost use Rattle.lane_crew.specs.Desks.{IsOpenDesk};
ghost use Rattle.rounds.specs.Merging.{options_of};
ghost use Rattle.rounds.specs.Handled.{Handled};
ghost use Rattle.rounds.specs.Reads.{reader_at};
ghost use Rattle.pipeline.specs.Handled.{MayHandle};

use crate::drive::handle_by;
use crossbeam_queue::ArrayQueue;
use errands::{DeskName, Errands, Job, Parkers, Reply, Runner};
use lane_crew::{
    LANES, LaneCrew, LaneDesk, LaneDone, LaneJob, LaneTask, count_runners, open_desk, serve_lanes,
};
use lanes::{Beside, Works};
use off_io::{Gate, Source};
use pcap_io::CaptureReader;
use rounds::{RoundHandler, Rounds};
use std::alloc::Global;
use std::marker::Brand;
use std::sync::Wait;
use std::thread::{Threads, join_mut};

// Handles rounds by whoever works, beside all who run its tasks.
fn handle_serving<
    'a,
    J: Job<LaneTask, LaneDone> + Send + Sync,
    N: DeskName + Send + Sync,
    R: Threads + Wait + Sync,
    W: Works,
    S: Source + Send,
    T,
    E,
    H: RoundHandler<T, E>,
>(
    rt: &'a R,
    alloc: Global,
    errands: &'a Errands<LaneTask>,
    runners: &'a mut [Runner<LaneTask>],
    replies: &'a ArrayQueue<Reply<LaneTask, LaneDone, J, N>>,
    job: &'a J,
    parkers: &'a Parkers,
    works: &'a mut W,
    rounds: &'a mut Rounds,
    reader: &'a mut CaptureReader<'_, S>,
    handler: &'a H,
    into: &'a mut T,
) -> E
    requires own { errands.now ≡ N.desk }
    requires runners { All (λ r. r ≡ errands.now) runners.old }
    requires gives { W.gives ≡ true }
    requires may { MayHandle (H.ready (options_of rounds.old) rounds.old.keep) rounds.old (place_of reader.old)
        into.old }
    ensures same_source { SameLoan reader.old reader.new }
    ensures handled { Handled (H.did handler.now (options_of rounds.old)) H.stopped
        (H.ready (options_of rounds.old) rounds.old.keep) 0 rounds.old rounds.new
        (reader_at S.left S.faults reader.old rounds.old.taken) (reader_at S.left S.faults reader.new rounds.new.taken)
        into.old into.new result }
{
    let ((), end) = join_mut(
        rt,
        &mut ||
            requires own { errands.now ≡ N.desk }
            requires runners { All (λ r. r ≡ errands.now) runners.now }
        { serve_lanes(rt, errands, runners, replies, job, parkers) },
        &mut || -> E
            requires gives { W.gives ≡ true }
            requires may { MayHandle (H.ready (options_of rounds.now) rounds.now.keep) rounds.now
                (place_of reader.now) into.now }
            ensures same_source { SameLoan reader.entry.now reader.exit.now }
            ensures handled { Handled (H.did handler.entry.now (options_of rounds.entry.now)) H.stopped
                (H.ready (options_of rounds.entry.now) rounds.entry.now.keep) 0 rounds.entry.now rounds.exit.now
                (reader_at S.left S.faults reader.entry.now rounds.entry.now.taken)
                (reader_at S.left S.faults reader.exit.now rounds.exit.now.taken)
                into.entry.now into.exit.now result }
        {
            let end = handle_by(rt, alloc, works, rounds, reader, handler, into);
            parkers.close();
            end
        },
    );
    end
}

// Handles rounds with all of a desk. Where there is no memory for answers this thread works alone.
fn handle_crewed<
    N: DeskName + Send + Sync,
    R: Threads + Wait + Sync,
    S: Source + Send,
    G: Gate + Sync,
    T,
    E,
    H: RoundHandler<T, E>,
>(
    rt: &R,
    alloc: Global,
    desk: LaneDesk,
    rounds: &mut Rounds,
    reader: &mut CaptureReader<'_, S>,
    handler: &H,
    into: &mut T,
    gate: &G,
) -> E
    requires own { IsOpenDesk desk × (desk.errands ≡ N.desk) }
    requires may { MayHandle (H.ready (options_of rounds.old) rounds.old.keep) rounds.old (place_of reader.old)
        into.old }
    ensures same_source { SameLoan reader.old reader.new }
    ensures handled { Handled (H.did handler.now (options_of rounds.old)) H.stopped
        (H.ready (options_of rounds.old) rounds.old.keep) 0 rounds.old rounds.new
        (reader_at S.left S.faults reader.old rounds.old.taken) (reader_at S.left S.faults reader.new rounds.new.taken)
        into.old into.new result }
{
    let LaneDesk {
        errands,
        asker,
        own,
        mut runners,
        parkers,
    } = desk;
    let job = LaneJob { gate, rt };
    let Ok(replies) = ArrayQueue::new(alloc, LANES) else {
        return handle_by(
            rt,
            alloc,
            &mut Beside { gate, rt },
            rounds,
            reader,
            handler,
            into,
        );
    };
    let Ok(mut crew) = LaneCrew::new(rt, alloc, &errands, &replies, &job, &parkers, asker, own)
    else {
        return handle_by(
            rt,
            alloc,
            &mut Beside { gate, rt },
            rounds,
            reader,
            handler,
            into,
        );
    };
    handle_serving::<LaneJob<'_, G, R>, N, R, LaneCrew<'_, '_, G, N, R>, S, T, E, H>(
        rt,
        alloc,
        &errands,
        &mut runners,
        &replies,
        &job,
        &parkers,
        &mut crew,
        rounds,
        reader,
        handler,
        into,
    )
}

/// Handles a capture's rounds, one after another, up to its end; the next rounds are read while one is worked, from the
/// first one on, and all threads are started once, for the whole run: as many who run lanes as there are processors
/// for. On one processor, and where there is no memory or no thread for a second side, reading is done in the thread
/// that calls; where one lane is all there is, or there is no memory or no thread for those who run lanes, their work
/// too.
pub fn handle_beside<
    R: Threads + Wait + Sync,
    S: Source + Send,
    G: Gate + Sync,
    T,
    E,
    H: RoundHandler<T, E>,
>(
    rt: &R,
    alloc: Global,
    rounds: &mut Rounds,
    reader: &mut CaptureReader<'_, S>,
    handler: &H,
    into: &mut T,
    gate: &G,
) -> E
    requires ready { IsReady (place_of reader.old) }
    requires link { (place_of reader.old).link ≡ Ethernet }
    requires home { length rounds.old.stock ≡ rounds.old.blocks }
    requires start { H.ready (options_of rounds.old) rounds.old.keep 0 into.old }
    ensures same_source { SameLoan reader.old reader.new }
    ensures handled { Handled (H.did handler.now (options_of rounds.old)) H.stopped
        (H.ready (options_of rounds.old) rounds.old.keep) 0 rounds.old rounds.new
        (reader_at S.left S.faults reader.old rounds.old.taken) (reader_at S.left S.faults reader.new rounds.new.taken)
        into.old into.new result }
{
    let lanes = rounds.lanes();
    if lanes < 2 {
        return handle_by(
            rt,
            alloc,
            &mut Beside { gate, rt },
            rounds,
            reader,
            handler,
            into,
        );
    }
    match open_desk(alloc, count_runners(rt, lanes)) {
        Ok(desk) => handle_crewed::<Brand, R, S, G, T, E, H>(
            rt, alloc, desk, rounds, reader, handler, into, gate,
        ),
        Err(_) => handle_by(
            rt,
            alloc,
            &mut Beside { gate, rt },
            rounds,
            reader,
            handler,
            into,
        ),
    }
}
