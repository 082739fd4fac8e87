//! Spares whose pool of lists is full when they are given back stay with their round, and come home with it.
//!
//! The program's pool has places for the lists of all lanes of as many rounds as are read ahead, so it is never full.
//! Here it has one place, and nobody takes what lies there.
ghost use Rattle.std.specs.Prelude.{◌≡◌, ◌≤◌, IfOk};
ghost use Rattle.std.specs.Arc.{arc_value};
ghost use Rattle.block_pool.specs.PassState.{IsOwn};
ghost use Rattle.block_pool.specs.PoolState.{home};
ghost use Rattle.rounds.specs.Benches.{IsLent};

use crate::rounds_in_turn::captures::{feed_of, reader_of, written};
use crate::rounds_in_turn::sides::{NoneComes, full, room_of, rounds_of_one};
use block_pool::{Giver, ListPass, ListPool, Pool};
use block_supply::AllHome;
use lanes::Beside;
use off_io::{MemSink, NoGate};
use pcap_io::{FileHead, Link};
use rounds::{Bench, MergeEnd, RoundRead, Rounds, Step};
use std::alloc::{AllocError, Global};
use std::process::Abort;
use std::sync::{Arc, Wait};
use worked_captures::{TWO_RECORDS, WRITTEN};

// A pool with a place for one list, the pass of who takes it, and who gives.
fn one_place(alloc: Global) -> Result<(Arc<ListPool>, ListPass, Giver), AllocError>
    ensures own { IfOk result (λ r. IsOwn (arc_value r.0) r.1) }
    ensures none { IfOk result (λ r. home r.2.list ≡ 0) }
{
    let (lists, mut pass) = ListPool::open(alloc, 1)?;
    let part = lists.fork(&mut pass);
    let Ok(lists) = Arc::new(alloc, lists) else {
        return Err(AllocError);
    };
    let other = Arc::try_clone(&lists)?;
    let giver = Giver::new(alloc, other, pass, Pool::new(alloc));
    Ok((lists, part, giver))
}

// A round is worked and written by whoever gives its spares: what came of it, and a shelf with its other blocks.
fn put<R: Wait + Abort>(
    rt: &R,
    alloc: Global,
    bench: &mut Bench,
    read: RoundRead,
    file: &FileHead,
    sink: &mut MemSink,
    number: u64,
    giver: &mut Option<Giver>,
) -> (Step, Pool)
    requires within { read.round.blocks ≤ bench.old.blocks }
    requires lent { IsLent giver.old }
    ensures blocks { bench.new.blocks ≡ bench.old.blocks }
    ensures lent { IsLent giver.new }
{
    let mut back = room_of(rt, alloc, bench);
    let mut works = Beside { gate: &NoGate, rt };
    let step = bench.put_read(&mut works, read, file, sink, number, &mut back, giver);
    (step, back)
}

// The blocks of the list that lies in the pool.
fn take_list<R: Wait>(rt: &R, lists: &ListPool, pass: &mut ListPass) -> Option<u32>
    requires own { IsOwn lists.now pass.old }
{
    match lists.take(rt, pass) {
        Ok(list) => Some(list.into_pool().home()),
        Err(_) => None,
    }
}

// How many lists were put, and how many found no place.
fn counts(giver: Option<Giver>) -> (u64, u64) {
    match giver {
        Some(giver) => {
            let (_pool, pass, _list) = giver.open();
            (pass.puts(), pass.fulls())
        }
        None => (0, 0),
    }
}

// What came of rounds, the blocks that came home with each, those of the list that lies in the pool, and how many lists
// were put and how many found no place.
type Crowded = ([Step; 3], [u32; 3], Option<u32>, (u64, u64));

// Both records in rounds of one, and the end behind them; and what was written.
fn crowded<R: Wait + Abort>(rt: &R, alloc: Global) -> (Crowded, Vec<u8>) {
    let mut feed = feed_of(rt, alloc, &TWO_RECORDS, 24, &[]);
    let mut reader = reader_of(rt, &mut feed, Link::Ethernet);
    let file = reader.file();
    let mut sink = MemSink::new(alloc, 64, Vec::new(alloc));
    let Rounds {
        mut intake,
        mut bench,
        spares: _,
    } = rounds_of_one(rt, alloc, 6);
    let (lists, mut pass, giver) = one_place(alloc).expect(rt, "no memory");
    let mut giver = Some(giver);
    let read = full(rt, intake.read_beside(rt, &mut reader, &mut AllHome::new()));
    let (first, one) = put(rt, alloc, &mut bench, read, &file, &mut sink, 0, &mut giver);
    let read = full(
        rt,
        intake.read_beside(rt, &mut reader, &mut NoneComes::new()),
    );
    let (second, two) = put(rt, alloc, &mut bench, read, &file, &mut sink, 1, &mut giver);
    let last = intake.read_beside(rt, &mut reader, &mut NoneComes::new());
    let (third, three) = put(rt, alloc, &mut bench, last, &file, &mut sink, 2, &mut giver);
    let homes = [one.home(), two.home(), three.home()];
    let puts = counts(giver);
    let list = take_list(rt, &lists, &mut pass);
    (
        ([first, second, third], homes, list, puts),
        written(rt, alloc, &sink),
    )
}

// Two of the first round's three blocks lie in the list; the second round's list finds no place, neither behind its
// lane nor as the work ends, and all three come home with the round.
#[test]
fn what_finds_no_place_comes_home_with_its_round(rt: HostRuntime) {
    let (seen, written) = crowded(&rt, rt.alloc());
    let steps = [Step::Goes, Step::Goes, Step::Ends(MergeEnd::Done)];
    assert_eq!(rt; seen, (steps, [1, 3, 0], Some(2), (1, 2)));
    assert_eq!(rt; written.as_slice(), WRITTEN.as_slice());
}
