//! Handles a capture's rounds by two sides.
ghost use Rattle.std.specs.Prelude.{◌≡◌, ◌≤◌, [], length};
ghost use Rattle.std.specs.Prelude.{true, None, Ok, IfSome, IfOk, OnOk};
ghost use Rattle.std.specs.Arc.{arc_value};
ghost use Rattle.block_pool.specs.PoolState.{home};
ghost use Rattle.pcap_io.specs.Readers.{place_of, SameLoan};
ghost use Rattle.rounds.specs.Benches.{HasRoom, IsAsRead, IsSameBench};
ghost use Rattle.rounds.specs.Handled.{Handled};
ghost use Rattle.rounds.specs.Merging.{options_of};
ghost use Rattle.rounds.specs.Reads.{reader_at};
ghost use Rattle.rtrb.specs.Ring.{sent, received, known_items, IsPair, SameProducer};
ghost use Rattle.pipeline.specs.Handled.{ComesBack, HandledOn, IsFirstOut, MayBeHandled, MayHandle};
ghost use Rattle.pipeline.specs.Reads.{IsAlone};

use crate::gather::{bring_home, drop_parcels};
use crate::here::handle_here;
use crate::parcel::{Parcel, RoundsInTurn};
use crate::sides::{ReaderSide, is_full, run_sides};
use block_pool::Pool;
use crossing::{
    Arrivals, Away, Handshake, IN_RING, PoolName, Sleeper, Way, new_spent, open_way, send,
};
use lanes::Works;
use off_io::Source;
use pcap_io::CaptureReader;
use rounds::{Bench, RoundEnd, RoundHandler, RoundRead, Rounds};
use rtrb::{Consumer, Producer, RingBuffer};
use std::alloc::{AllocError, Global};
use std::marker::Brand;
use std::sync::Wait;
use std::thread;
use std::thread::Threads;

// The ring that rounds go by, an empty list for the blocks that a round leaves, and others whose memory goes to and
// fro. Where there is no memory for them, or for what is given back of all blocks, nothing is changed.
fn prepare<N: PoolName>(
    alloc: Global,
    bench: &mut Bench,
) -> Result<
    (
        Producer<Parcel, Global, RoundsInTurn<N>>,
        Consumer<Parcel, Global, RoundsInTurn<N>>,
        Pool,
        Pool,
        Vec<Pool>,
    ),
    AllocError,
>
    ensures ring { IfOk result (λ r. IsPair r.0 r.1 × (sent r.0 ≡ []) × (received r.1 ≡ [])) }
    ensures list { IfOk result (λ r. home r.2 ≡ 0) }
    ensures room { OnOk result (HasRoom 0 bench.new) }
    ensures later { bench.old.room ≤ bench.new.room }
    ensures same { IsSameBench bench.old bench.new }
{
    let blocks = bench.blocks();
    let (out, from) = RingBuffer::with_protocol::<Global, RoundsInTurn<N>>(alloc, IN_RING)?;
    let list = Pool::empty(alloc, blocks)?;
    let next = Pool::empty(alloc, blocks)?;
    let spent = new_spent(alloc, blocks)?;
    bench.make_room()?;
    Ok((out, from, list, next, spent))
}

// The first round goes by the ring before there are two sides.
fn send_first<N: PoolName, R: Wait>(
    rt: &R,
    out: &mut Producer<Parcel, Global, RoundsInTurn<N>>,
    read: RoundRead,
    spent: Pool,
)
    requires none { sent out.old ≡ [] }
    requires within { read.round.blocks ≤ N.blocks }
    requires read { IsAsRead read.round }
    ensures ring { SameProducer out.old out.new }
    ensures sent { IsAlone read (sent out.new) }
{
    let parcel = Parcel {
        number: 0,
        read,
        spent: Some(spent),
    };
    send(rt, out, parcel);
}

// The round that waits, which nobody received, where it is the only one.
fn take_back<N: PoolName, T, E, H: RoundHandler<T, E>>(
    waiting: usize,
    handler: &H,
    from: &mut Consumer<Parcel, Global, RoundsInTurn<N>>,
) -> Result<E, RoundRead>
    requires waiting { waiting ≡ length (known_items from.old) }
    ensures back { ComesBack H.stopped (known_items from.old) (known_items from.new) result }
{
    if waiting != 1 {
        return Ok(handler.stop());
    }
    let (_, read, _spent) = from.pop_known().open();
    Err(read)
}

// How it ended where a side worked. Where none did the first round comes back; others that were read behind it are
// lost.
fn ending<N: PoolName, T, E, H: RoundHandler<T, E>>(
    end: Option<E>,
    waiting: usize,
    handler: &H,
    from: &mut Consumer<Parcel, Global, RoundsInTurn<N>>,
) -> Result<E, RoundRead>
    requires waiting { waiting ≡ length (known_items from.old) }
    ensures some { IfSome end (λ e. (result ≡ Ok e) × (known_items from.new ≡ known_items from.old)) }
    ensures none { end ≡ None → ComesBack H.stopped (known_items from.old) (known_items from.new) result }
{
    match end {
        Some(end) => Ok(end),
        None => take_back::<N, T, E, H>(waiting, handler, from),
    }
}

// Handles what is left, of which the first round was read and was full, by two sides, between which blocks come home by
// this way. That round comes back where there is no memory or no thread for two: then nothing else was read or done.
fn handle_named<
    N: PoolName + Send,
    R: Threads + Wait + Sync,
    W: Works,
    S: Source + Send,
    T,
    E,
    H: RoundHandler<T, E>,
>(
    rt: &R,
    alloc: Global,
    works: &mut W,
    rounds: &mut Rounds,
    reader: &mut CaptureReader<'_, S>,
    read: RoundRead,
    handler: &H,
    into: &mut T,
    way: Way,
) -> Result<E, RoundRead>
    requires out { IsFirstOut (H.ready (options_of rounds.old) rounds.old.keep) rounds.old read (place_of reader.old)
        into.old }
    requires gives { W.gives ≡ true }
    requires full { read.end ≡ RoundEnd.Full }
    requires named { rounds.old.blocks ≡ N.blocks }
    requires way { arc_value way.taker.lists ≡ N.lists }
    ensures same_source { SameLoan reader.old reader.new }
    ensures handled { MayBeHandled (H.did handler.now (options_of rounds.old)) H.stopped
        (H.ready (options_of rounds.old) rounds.old.keep) rounds.old rounds.new read
        (reader_at S.left S.faults reader.old rounds.old.taken) (reader_at S.left S.faults reader.new rounds.new.taken)
        into.old into.new result }
{
    let blocks = rounds.blocks();
    let _ = rounds.taken();
    let intake = &mut rounds.intake;
    let bench = &mut rounds.bench;
    let spares = &mut rounds.spares;
    let Ok((mut out, mut from, mut list, next, spent)) = prepare::<N>(alloc, bench) else {
        return Err(read);
    };
    let away = Away::new(read.round.blocks(), read.round.spares());
    send_first(rt, &mut out, read, next);
    let Way { taker, giver, bell } = way;
    let mut giver = Some(giver);
    let handshake = Handshake::new(bell);
    let post = Sleeper::<'_, R, N>::new(rt, &handshake);
    let mut supply = ReaderSide {
        arrivals: Arrivals::new(post, blocks, away, spent, taker),
        out,
    };
    let end = run_sides(
        rt,
        alloc,
        works,
        intake,
        bench,
        &mut list,
        &mut giver,
        spares,
        reader,
        handler,
        into,
        &mut supply,
        &mut from,
        &handshake,
    );
    let ReaderSide { arrivals, mut out } = supply;
    let waiting = from.slots_beside(&mut out);
    let taker = arrivals.close();
    let ended = ending::<N, T, E, H>(end, waiting, handler, &mut from);
    spares.refuse(bring_home(rt, intake, list, taker, giver));
    drop_parcels(rounds, &mut from);
    ended
}

// Goes on with the first round, which was read and was full, by two sides, or in this thread where there is no memory
// or no thread for two.
fn handle_on<R: Threads + Wait + Sync, W: Works, S: Source + Send, T, E, H: RoundHandler<T, E>>(
    rt: &R,
    alloc: Global,
    works: &mut W,
    rounds: &mut Rounds,
    reader: &mut CaptureReader<'_, S>,
    read: RoundRead,
    handler: &H,
    into: &mut T,
) -> E
    requires out { IsFirstOut (H.ready (options_of rounds.old) rounds.old.keep) rounds.old read (place_of reader.old)
        into.old }
    requires gives { W.gives ≡ true }
    requires full { read.end ≡ RoundEnd.Full }
    ensures same_source { SameLoan reader.old reader.new }
    ensures handled { HandledOn (H.did handler.now (options_of rounds.old)) H.stopped
        (H.ready (options_of rounds.old) rounds.old.keep) rounds.old rounds.new read
        (reader_at S.left S.faults reader.old rounds.old.taken) (reader_at S.left S.faults reader.new rounds.new.taken)
        into.old into.new result }
{
    let Ok(way) = open_way(alloc) else {
        return handle_here(works, rounds, reader, read, handler, into);
    };
    match handle_named::<Brand, R, W, S, T, E, H>(
        rt, alloc, works, rounds, reader, read, handler, into, way,
    ) {
        Ok(end) => end,
        Err(back) => handle_here(works, rounds, reader, back, handler, into),
    }
}

// Whether there is no second processor for the side that reads.
fn is_alone(rt: &impl Threads) -> bool {
    match thread::available_parallelism(rt) {
        Ok(count) => count.get() == 1,
        Err(_) => true,
    }
}

// Whether another thread is to read on behind this round: one may, and it gains by that. Where frames are short it
// doesn't.
fn is_shared(rt: &impl Threads, read: &RoundRead) -> bool
    ensures full { result ≡ true → read.now.end ≡ RoundEnd.Full }
{
    is_full(read.end) && !is_alone(rt) && !read.round.has_short_frames()
}

/// Handles a capture's rounds by whoever works and gives blocks back meanwhile; the next rounds are read while one is
/// worked, the first one too. On one
/// processor, where frames are short, and where there is no memory or no thread for a second side, they are read here.
/// Of a capture of one round no thread is made for it.
pub(crate) fn handle_by<
    R: Threads + Wait + Sync,
    W: Works,
    S: Source + Send,
    T,
    E,
    H: RoundHandler<T, E>,
>(
    rt: &R,
    alloc: Global,
    works: &mut W,
    rounds: &mut Rounds,
    reader: &mut CaptureReader<'_, S>,
    handler: &H,
    into: &mut T,
) -> E
    requires gives { W.gives ≡ true }
    requires may { MayHandle (H.ready (options_of rounds.old) rounds.old.keep) rounds.old (place_of reader.old)
        into.old }
    ensures same_source { SameLoan reader.old reader.new }
    ensures handled { Handled (H.did handler.now (options_of rounds.old)) H.stopped
        (H.ready (options_of rounds.old) rounds.old.keep) 0 rounds.old rounds.new
        (reader_at S.left S.faults reader.old rounds.old.taken) (reader_at S.left S.faults reader.new rounds.new.taken)
        into.old into.new result }
{
    let read = rounds.read_round(reader);
    if is_shared(rt, &read) {
        handle_on(rt, alloc, works, rounds, reader, read, handler, into)
    } else {
        handle_here(works, rounds, reader, read, handler, into)
    }
}
