//! The side that reads and the side that works.
ghost use Rattle.std.specs.Prelude.{◌≡◌, ◌+◌, ◌-◌, true, Some};
ghost use Rattle.block_pool.specs.PoolState.{home};
ghost use Rattle.pcap_io.specs.Readers.{place_of, SameLoan};
ghost use Rattle.rounds.specs.Benches.{options_at};
ghost use Rattle.rounds.specs.Reads.{is_full as is_full_end, reader_at};
ghost use Rattle.rtrb.specs.Ring.{sent, received, SameProducer, SameConsumer};
ghost use Rattle.pipeline.specs.Handled.{HasWorked, MayWork};
ghost use Rattle.pipeline.specs.Reads.{HasRead, MayRead};

use crate::parcel::{Parcel, RoundsInTurn};
use crate::returning::{give_back, make_ready, next_round};
use block_pool::{Giver, Pool};
use crossing::{Arrivals, Handshake, PoolName, Post, send};
use lanes::Works;
use off_io::Source;
use pcap_io::CaptureReader;
use rounds::{Bench, Intake, RoundEnd, RoundHandler, Spares};
use rtrb::{Consumer, Producer};
use std::alloc::Global;
use std::sync::Wait;
use std::thread::{Threads, join_mut};

/// What the side that reads works with, beside its intake.
#[derive(Drop)]
pub(crate) struct ReaderSide<W: Post + Drop, N: PoolName> {
    pub(crate) arrivals: Arrivals<W>,
    pub(crate) out: Producer<Parcel, Global, RoundsInTurn<N>>,
}

/// Whether another round may follow.
pub(crate) fn is_full(end: RoundEnd) -> bool
    ensures full { result ≡ is_full_end end }
{
    match end {
        RoundEnd::Full => true,
        _ => false,
    }
}

// Sends each round that it reads behind the first one, which was sent, up to one that isn't full, or until the other
// side has ended.
fn read_side<N: PoolName, R: Wait, P: Post + Drop, S: Source>(
    rt: &R,
    reader: &mut CaptureReader<'_, S>,
    intake: &mut Intake,
    supply: &mut ReaderSide<P, N>,
)
    requires reads { MayRead N.blocks intake.old (place_of reader.old) (sent supply.old.out) }
    ensures ring { SameProducer supply.old.out supply.new.out }
    ensures same_source { SameLoan reader.old reader.new }
    ensures read { HasRead intake.old intake.new (reader_at S.left S.faults reader.old intake.old.taken)
        (reader_at S.left S.faults reader.new intake.new.taken) (sent supply.old.out) (sent supply.new.out)
        supply.old.arrivals supply.new.arrivals }
{
    if !supply.arrivals.begin() {
        return;
    }
    let mut number = 1;
    for _ in rt.forever() {
        supply.arrivals.await_place(&mut supply.out);
        intake.bring_more(&mut supply.arrivals);
        if supply.arrivals.has_stopped() {
            return;
        }
        let read = intake.read_beside(rt, reader, &mut supply.arrivals);
        let end = read.end;
        supply
            .arrivals
            .lend(read.round.blocks(), read.round.spares());
        let parcel = Parcel {
            number,
            read,
            spent: supply.arrivals.pick(),
        };
        send(rt, &mut supply.out, parcel);
        supply.arrivals.wake();
        if !is_full(end) {
            return;
        }
        number += 1;
    }
    unreachable!()
}

// How many of so many blocks went elsewhere, where a list had so many before they were to come there.
fn gone(before: u32, blocks: u32, list: &Pool) -> u64
    ensures value { result ≡ before + blocks - home list.now }
{
    (before as u64 + blocks as u64).saturating_sub(list.home() as u64)
}

// Handles each round that comes, until one ends it. Its spares are given while it is worked, and counted where another
// may follow; all else is given once it was written, as one list. What finds no place stays, and what the last one
// leaves.
fn work_rounds<N: PoolName, R: Wait, W: Works, T, E, H: RoundHandler<T, E>>(
    rt: &R,
    alloc: Global,
    works: &mut W,
    bench: &mut Bench,
    list: &mut Pool,
    giver: &mut Option<Giver>,
    spares: &mut Spares,
    handler: &H,
    into: &mut T,
    from: &mut Consumer<Parcel, Global, RoundsInTurn<N>>,
    handshake: &Handshake,
) -> E
    requires gives { W.gives ≡ true }
    requires works { MayWork (H.ready (options_at bench.old) bench.old.keep) N.blocks bench.old list.old giver.old
        (received from.old) into.old }
    ensures ring { SameConsumer from.old from.new }
    ensures worked { HasWorked (H.did handler.now (options_at bench.old)) H.stopped
        (H.ready (options_at bench.old) bench.old.keep) bench.old bench.new list.new giver.old giver.new spares.old
        spares.new into.old into.new (received from.new) (Some result) }
{
    for _ in rt.forever() {
        let Some(parcel) = next_round(rt, alloc, giver, list, from, handshake) else {
            return handler.stop();
        };
        handshake.reader.wake();
        let (number, read, spent) = parcel.open();
        let before = list.home();
        let blocks = read.round.blocks();
        let lent = read.round.spares();
        match handler.handle(works, bench, list, giver, read, number, into) {
            Some(end) => return end,
            None => {}
        }
        spares.count(lent as u64, gone(before, blocks, list));
        // Where there is no memory for what the next round leaves, no more rounds are wanted.
        let Ok(empty) = make_ready(alloc, bench, spent) else {
            return handler.stop();
        };
        give_back(rt, giver, list, empty);
    }
    unreachable!()
}

// The same, where a reader has begun, which is told then that no more rounds are wanted. `None` where none has.
fn work_side<N: PoolName, R: Wait, W: Works, T, E, H: RoundHandler<T, E>>(
    rt: &R,
    alloc: Global,
    works: &mut W,
    bench: &mut Bench,
    list: &mut Pool,
    giver: &mut Option<Giver>,
    spares: &mut Spares,
    handler: &H,
    into: &mut T,
    from: &mut Consumer<Parcel, Global, RoundsInTurn<N>>,
    handshake: &Handshake,
) -> Option<E>
    requires gives { W.gives ≡ true }
    requires works { MayWork (H.ready (options_at bench.old) bench.old.keep) N.blocks bench.old list.old giver.old
        (received from.old) into.old }
    ensures ring { SameConsumer from.old from.new }
    ensures worked { HasWorked (H.did handler.now (options_at bench.old)) H.stopped
        (H.ready (options_at bench.old) bench.old.keep) bench.old bench.new list.new giver.old giver.new spares.old
        spares.new into.old into.new (received from.new) result }
{
    if !handshake.has_begun() {
        return None;
    }
    let end = work_rounds(
        rt, alloc, works, bench, list, giver, spares, handler, into, from, handshake,
    );
    handshake.end();
    Some(end)
}

/// Both sides at once, the one that reads in a thread of its own.
pub(crate) fn run_sides<
    'a,
    N: PoolName + Send,
    R: Threads + Wait + Sync,
    P: Post + Send + Drop,
    W: Works,
    S: Source + Send,
    T,
    E,
    H: RoundHandler<T, E>,
>(
    rt: &'a R,
    alloc: Global,
    works: &'a mut W,
    intake: &'a mut Intake,
    bench: &'a mut Bench,
    list: &'a mut Pool,
    giver: &'a mut Option<Giver>,
    spares: &'a mut Spares,
    reader: &'a mut CaptureReader<'_, S>,
    handler: &'a H,
    into: &'a mut T,
    supply: &'a mut ReaderSide<P, N>,
    from: &'a mut Consumer<Parcel, Global, RoundsInTurn<N>>,
    handshake: &'a Handshake,
) -> Option<E>
    requires reads { MayRead N.blocks intake.old (place_of reader.old) (sent supply.old.out) }
    requires gives { W.gives ≡ true }
    requires works { MayWork (H.ready (options_at bench.old) bench.old.keep) N.blocks bench.old list.old giver.old
        (received from.old) into.old }
    ensures rings { SameProducer supply.old.out supply.new.out × SameConsumer from.old from.new }
    ensures same_source { SameLoan reader.old reader.new }
    ensures read { HasRead intake.old intake.new (reader_at S.left S.faults reader.old intake.old.taken)
        (reader_at S.left S.faults reader.new intake.new.taken) (sent supply.old.out) (sent supply.new.out)
        supply.old.arrivals supply.new.arrivals }
    ensures worked { HasWorked (H.did handler.now (options_at bench.old)) H.stopped
        (H.ready (options_at bench.old) bench.old.keep) bench.old bench.new list.new giver.old giver.new spares.old
        spares.new into.old into.new (received from.new) result }
{
    let ((), end) = join_mut(
        rt,
        &mut ||
            requires reads { MayRead N.blocks intake.now (place_of reader.now) (sent supply.now.out) }
            ensures ring { SameProducer supply.entry.now.out supply.exit.now.out }
            ensures same_source { SameLoan reader.entry.now reader.exit.now }
            ensures read { HasRead intake.entry.now intake.exit.now
                (reader_at S.left S.faults reader.entry.now intake.entry.now.taken)
                (reader_at S.left S.faults reader.exit.now intake.exit.now.taken)
                (sent supply.entry.now.out) (sent supply.exit.now.out) supply.entry.now.arrivals
                supply.exit.now.arrivals }
        { read_side(rt, reader, intake, supply) },
        &mut || -> Option<E>
            requires gives { W.gives ≡ true }
            requires works { MayWork (H.ready (options_at bench.now) bench.now.keep) N.blocks bench.now list.now
                giver.now (received from.now) into.now }
            ensures ring { SameConsumer from.entry.now from.exit.now }
            ensures worked { HasWorked (H.did handler.entry.now (options_at bench.entry.now)) H.stopped
                (H.ready (options_at bench.entry.now) bench.entry.now.keep) bench.entry.now bench.exit.now
                list.exit.now giver.entry.now giver.exit.now spares.entry.now spares.exit.now into.entry.now
                into.exit.now (received from.exit.now) result }
        {
            work_side(
                rt, alloc, works, bench, list, giver, spares, handler, into, from, handshake,
            )
        },
    );
    end
}
