//! One side reads and the other works, in turn, over as few blocks as a round needs.
ghost use Rattle.std.specs.Prelude.{◌≡◌, ℕ, ◌+◌, ◌-◌, ◌≤◌, List, [], length};
ghost use Rattle.raw_block.specs.Views.{SoleState};
ghost use Rattle.block_pool.specs.PoolState.{home, weighed};
ghost use Rattle.pcap_io.specs.declared.heads.Link.TheVariants.{Ethernet};
ghost use Rattle.pcap_io.specs.Places.{IsReady};
ghost use Rattle.pcap_io.specs.Readers.{place_of, SameLoan};
ghost use Rattle.rounds.specs.Reading.{PassesRound};

use crate::plans::plain;
use crate::rounds_in_turn::captures::{feed_of, reader_of, written};
use block_pool::Pool;
use block_supply::{AllHome, Supply};
use lanes::Alone;
use off_io::{MemSink, NoGate, Source};
use pcap_io::{CaptureReader, FileHead, Link};
use rounds::{Bench, Intake, MergeEnd, RoundEnd, RoundRead, Rounds, Step};
use std::alloc::Global;
use std::marker::{Brand, PhantomData};
use std::process::Abort;
use std::sync::Wait;
use worked_captures::{TWO_RECORDS, WRITTEN};

// The blocks that were on a shelf at first: the call that lends it says them.
trait Stocked {
    ghost stock: { List SoleState };
}

impl Stocked for Brand {
    ghost stock = { [] };
}

// A shelf of blocks, which come home at once, and how often it was asked for them.
#[derive(Drop)]
struct Shelf<N: Stocked> {
    pool: Pool,
    refused: u64,
    of: PhantomData<N>,
    ghost weighs: { (h : ℕ → ℕ) → weighed h pool.blocks ≤ weighed h N.stock },
}

impl<N: Stocked> Supply for Shelf<N> {
    ghost use Rattle.std.specs.Prelude.{true};

    ghost weights = { λ s h. weighed h N.stock - weighed h s.pool.blocks };

    ghost refusals = { λ s. s.refused };

    ghost ended = { λ _. true };

    fn bring(&mut self, pool: &mut Pool, need: u32) -> bool {
        self.refused = self.refused.saturating_add(1);
        self.look(pool);
        need <= pool.home()
    }

    fn look(&mut self, pool: &mut Pool) {
        let _ = pool.home();
        pool.refill(&mut self.pool);
        self.refused = self.refused.saturating_add(1);
    }

    // What came is all that comes.
    fn has_ended(&self) -> bool {
        true
    }
}

/// Whoever has the blocks that are out keeps them, however many these are, and counts how often they were wanted.
#[derive(Drop)]
pub(crate) struct NoneComes {
    refused: u64,
}

impl NoneComes {
    pub(crate) fn new() -> NoneComes {
        NoneComes { refused: 0 }
    }
}

impl Supply for NoneComes {
    ghost use Rattle.std.specs.Prelude.{true};

    ghost weights = { λ _ _. 0 };

    ghost refusals = { λ n. n.refused };

    ghost ended = { λ _. true };

    fn bring(&mut self, pool: &mut Pool, need: u32) -> bool {
        self.refused = self.refused.saturating_add(1);
        need <= pool.home()
    }

    fn look(&mut self, _pool: &mut Pool) {
        self.refused = self.refused.saturating_add(1);
    }

    fn has_ended(&self) -> bool {
        true
    }
}

/// A round, which is full.
pub(crate) fn full(rt: &impl Abort, read: RoundRead) -> RoundRead
    ensures full { (read.end ≡ RoundEnd.Full) × (result ≡ read) }
{
    match read.end {
        RoundEnd::Full => read,
        _ => panic!(rt; "the round is full"),
    }
}

/// Rounds of one over so many blocks.
pub(crate) fn rounds_of_one(rt: &impl Abort, alloc: Global, blocks: u32) -> Rounds
    requires blocks { (1 ≤ blocks) × (blocks ≤ 65536) }
    ensures blocks { (length result.stock ≡ blocks) × (result.blocks ≡ blocks) }
{
    Rounds::make(alloc, blocks, 1, plain(1, 0, 64), false).expect(rt, "no memory")
}

/// Room on a bench for a round that ends, and a shelf with places for all of its blocks.
pub(crate) fn room_of(rt: &impl Abort, alloc: Global, bench: &mut Bench) -> Pool
    ensures room { bench.old.blocks + bench.old.blocks ≤ bench.new.room }
    ensures blocks { bench.new.blocks ≡ bench.old.blocks }
    ensures empty { (home result ≡ 0) × (result.made ≡ bench.old.blocks) }
{
    bench.make_room().expect(rt, "no memory");
    Pool::empty(alloc, bench.blocks()).expect(rt, "no memory")
}

// A round is read while the blocks of a shelf come home.
fn read_beside<N: Stocked, R: Wait, S: Source>(
    rt: &R,
    intake: &mut Intake,
    reader: &mut CaptureReader<'_, S>,
    pool: Pool,
) -> (RoundRead, Pool)
    requires ready { IsReady (place_of reader.old) }
    requires link { (place_of reader.old).link ≡ Ethernet }
    requires stock { pool.blocks ≡ N.stock }
    ensures same_source { SameLoan reader.old reader.new }
    ensures full { result.0.end ≡ RoundEnd.Full → PassesRound (place_of reader.old)
        (place_of reader.new) result.0.round.packets intake.old.budget }
    ensures sum { length intake.new.stock + result.0.round.blocks + home result.1
        ≡ length intake.old.stock + home pool }
    ensures within { result.0.round.blocks ≤ intake.old.blocks }
    ensures same { intake.new.blocks ≡ intake.old.blocks }
{
    let mut shelf = Shelf::<N> {
        pool,
        refused: 0,
        of: PhantomData,
    };
    let read = intake.read_beside(rt, reader, &mut shelf);
    let _ = read.round.blocks();
    let Shelf {
        pool,
        refused: _,
        of: _,
    } = shelf;
    (read, pool)
}

// The same, by a call that says which blocks these are.
fn read_shelved<R: Wait, S: Source>(
    rt: &R,
    intake: &mut Intake,
    reader: &mut CaptureReader<'_, S>,
    pool: Pool,
) -> (RoundRead, Pool)
    requires ready { IsReady (place_of reader.old) }
    requires link { (place_of reader.old).link ≡ Ethernet }
    ensures same_source { SameLoan reader.old reader.new }
    ensures full { result.0.end ≡ RoundEnd.Full → PassesRound (place_of reader.old)
        (place_of reader.new) result.0.round.packets intake.old.budget }
    ensures sum { length intake.new.stock + result.0.round.blocks + home result.1
        ≡ length intake.old.stock + home pool }
    ensures within { result.0.round.blocks ≤ intake.old.blocks }
    ensures same { intake.new.blocks ≡ intake.old.blocks }
{
    read_beside::<Brand, R, S>(rt, intake, reader, pool)
}

// A round is worked and written: what came of it, and a shelf with its blocks.
fn put(
    rt: &impl Abort,
    alloc: Global,
    bench: &mut Bench,
    read: RoundRead,
    file: &FileHead,
    sink: &mut MemSink,
    number: u64,
) -> (Step, Pool)
    requires within { read.round.blocks ≤ bench.old.blocks }
    ensures home { home result.1 ≡ read.round.blocks }
    ensures blocks { bench.new.blocks ≡ bench.old.blocks }
{
    let mut back = room_of(rt, alloc, bench);
    let mut works = Alone { gate: &NoGate };
    let step = bench.put_read(&mut works, read, file, sink, number, &mut back, &mut None);
    (step, back)
}

// Both records in rounds of one, over blocks for one: what came of the rounds, and what was written; the blocks that
// are home where rounds are read once the first was put on a shelf, that lie on the shelf, that are home once the
// second was read, and at last.
fn in_turn<R: Wait + Abort>(rt: &R, alloc: Global) -> ([Step; 3], Vec<u8>, [u32; 4]) {
    let mut feed = feed_of(rt, alloc, &TWO_RECORDS, 24, &[]);
    let mut reader = reader_of(rt, &mut feed, Link::Ethernet);
    let file = reader.file();
    let mut sink = MemSink::new(alloc, 64, Vec::new(alloc));
    let Rounds {
        mut intake,
        mut bench,
        spares: _,
    } = rounds_of_one(rt, alloc, 3);
    let none = Pool::empty(alloc, 0).expect(rt, "memory");
    let (begun, _none) = read_shelved(rt, &mut intake, &mut reader, none);
    let round = full(rt, begun);
    let (first, one) = put(rt, alloc, &mut bench, round, &file, &mut sink, 0);
    let (given, put_home) = (intake.home(), one.home());
    let (read, one) = read_shelved(rt, &mut intake, &mut reader, one);
    let round = full(rt, read);
    let read = intake.home();
    intake.bring_in(one);
    let (second, two) = put(rt, alloc, &mut bench, round, &file, &mut sink, 1);
    let (last, two) = read_shelved(rt, &mut intake, &mut reader, two);
    let (third, three) = put(rt, alloc, &mut bench, last, &file, &mut sink, 2);
    let shelved = two.home().saturating_add(three.home());
    (
        [first, second, third],
        written(rt, alloc, &sink),
        [given, put_home, read, intake.home().saturating_add(shelved)],
    )
}

#[test]
fn blocks_come_home_while_rounds_are_read(rt: HostRuntime) {
    let (steps, written, homes) = in_turn(&rt, rt.alloc());
    let wanted = [Step::Goes, Step::Goes, Step::Ends(MergeEnd::Done)];
    assert_eq!(rt;
        (steps, written.as_slice(), homes),
        (wanted, WRITTEN.as_slice(), [0, 3, 0, 3])
    );
}

// The blocks of a round that is given up.
fn dropped(rt: &impl Abort, alloc: Global, bench: &mut Bench, read: RoundRead) -> u32
    requires within { read.round.blocks ≤ bench.old.blocks }
{
    let RoundRead { round, end: _ } = read;
    let mut back = room_of(rt, alloc, bench);
    bench.drop_round(round, &mut back);
    back.home()
}

// A round is read while all blocks are out, of which none comes home: why it has no more records, and the blocks that
// are home then, and once the round before was dropped.
fn lacking<R: Wait + Abort>(rt: &R, alloc: Global) -> (RoundEnd, u32, u32) {
    let mut feed = feed_of(rt, alloc, &TWO_RECORDS, 24, &[]);
    let mut reader = reader_of(rt, &mut feed, Link::Ethernet);
    let Rounds {
        mut intake,
        mut bench,
        spares: _,
    } = rounds_of_one(rt, alloc, 3);
    let first = full(rt, intake.read_beside(rt, &mut reader, &mut AllHome::new()));
    let RoundRead { round, end } = intake.read_beside(rt, &mut reader, &mut NoneComes::new());
    round.discard();
    let home = intake.home();
    (end, home, dropped(rt, alloc, &mut bench, first))
}

#[test]
fn a_round_without_blocks_is_no_capture_that_ended(rt: HostRuntime) {
    assert_eq!(rt; lacking(&rt, rt.alloc()), (RoundEnd::GivenUp, 0, 3));
}
