//! Rounds that are read while the ones before are worked.

use crate::byte_lists::joined;
use crate::lines::{ends_so, run_line, words};
use crate::queues::in_turn;
use crate::row_frames::first;
use off_io::{Failed, Gate, MemSink, MemSource, Source, Who};
use offload_run::{Status, run};
use std::alloc::Global;
use std::process::Abort;
use std::sync::Wait;
use std::sync::atomic::{AtomicU32, Ordering};
use std::thread::{Threads, available_parallelism, yield_now};

const EACH_ALONE: &str = "offload merge --budget 1";

// Whether over few blocks the same is written as over many.
fn few_suffice(
    rt: &(impl Threads + Wait + Abort + Sync),
    alloc: Global,
    input: &[u8],
    many: &str,
    few: &str,
) -> bool {
    let ended = run_line(rt, alloc, many, input, 4096, &[], &[]);
    let output = ended.sink.bytes();
    let want = (Status::Ok, "", output.len());
    ended.status == Status::Ok && ends_so(rt, alloc, few, input, &[4096], want, output)
}

// As many blocks as one record needs: each waits for those of the round before, and what is written is the same.
#[test]
fn blocks_of_one_record_suffice(rt: HostRuntime) {
    let alloc = rt.alloc();
    let input = in_turn(&rt, alloc, 8);
    let few = "offload merge --budget 1 --blocks 3";
    assert!(rt; few_suffice(&rt, alloc, &input, EACH_ALONE, few));
    let two = "offload merge --budget 1 --blocks 2";
    let ended = run_line(&rt, alloc, two, &input, 4096, &[], &[]);
    let none = Status::PoolEmpty {
        round: 0,
        need: 3,
        blocks: 2,
    };
    assert_eq!(rt; ended.status, none);
}

// The first packets of two flows in turn, a hundred times over.
fn many_in_turn(rt: &impl Abort, alloc: Global) -> Vec<u8> {
    let eight = in_turn(rt, alloc, 8);
    let records = eight.get(24..).unwrap_or(&[]);
    let hundred = joined(rt, alloc, &[records; 100]);
    joined(rt, alloc, &[first(&eight, 24), &hundred])
}

// Lanes of queues and taps over the blocks of two records: what is written is the same.
#[test]
fn blocks_of_two_records_suffice_for_lanes(rt: HostRuntime) {
    let alloc = rt.alloc();
    let input = many_in_turn(&rt, alloc);
    let many = "offload merge --budget 2 --queues 2 --taps 2";
    let few = "offload merge --budget 2 --queues 2 --taps 2 --blocks 6";
    assert!(rt; few_suffice(&rt, alloc, &input, many, few));
}

// Counts the reads.
#[derive(Drop)]
struct Watched<'a> {
    source: MemSource,
    reads: &'a AtomicU32,
}

impl Source for Watched<'_> {
    ghost use Rattle.std.specs.Prelude.{Some};

    ghost left = { λ s. Some s.source.rest };

    ghost faults = { λ s. s.source.faults };

    fn read(&mut self, into: &mut [u8]) -> Result<usize, Failed> {
        self.reads.fetch_add(1, Ordering::SeqCst);
        self.source.read(into)
    }
}

// A worker waits before its round, a while, until more was read than that round and those before it.
#[derive(Drop)]
struct Ahead {
    reads: AtomicU32,
    of_a_record: u32,
    rounds: AtomicU32,
    met: AtomicU32,
}

impl Gate for Ahead {
    fn pass(&self, who: Who, point: u32) {
        if who != Who::Worker(0) || point != 0 {
            return;
        }
        let round = self.rounds.fetch_add(1, Ordering::SeqCst).wrapping_add(1);
        let read = self.of_a_record.wrapping_mul(round).wrapping_add(1);
        for _ in 0..1_000_000u32 {
            if self.reads.load(Ordering::SeqCst) > read {
                self.met.fetch_add(1, Ordering::SeqCst);
                return;
            }
            if self.met.load(Ordering::SeqCst) > 0 || self.of_a_record == 0 {
                return;
            }
            yield_now();
        }
    }
}

fn run_watched(
    rt: &(impl Threads + Wait + Abort + Sync),
    alloc: Global,
    line: &str,
    input: &[u8],
    gate: &Ahead,
) -> Status {
    let words = words(rt, alloc, line);
    let bytes = input.to_vec(alloc).expect(rt, "no memory");
    let mut source = Watched {
        source: MemSource::new(bytes, 4096, Vec::new(alloc)),
        reads: &gate.reads,
    };
    let mut sink = MemSink::new(alloc, 4096, Vec::new(alloc));
    let mut log = MemSink::new(alloc, 4096, Vec::new(alloc));
    let mut engine = None;
    run(
        rt,
        alloc,
        &words,
        &mut source,
        &mut sink,
        &mut log,
        gate,
        &mut engine,
    )
}

fn gate_for(of_a_record: u32) -> Ahead {
    Ahead {
        reads: AtomicU32::new(0),
        of_a_record,
        rounds: AtomicU32::new(0),
        met: AtomicU32::new(0),
    }
}

fn has_two_processors(rt: &impl Threads) -> bool {
    match available_parallelism(rt) {
        Ok(count) => count.get() > 1,
        Err(_) => false,
    }
}

// Where there is a second processor the next round is read while one is worked. Of one round, all is read before.
#[test]
fn the_next_round_is_read_beside(rt: HostRuntime) {
    let alloc = rt.alloc();
    let input = in_turn(&rt, alloc, 8);
    let whole = gate_for(0);
    let status = run_watched(&rt, alloc, "offload merge", &input, &whole);
    // The file header takes a read, and the end of the capture.
    let of_a_record = whole.reads.load(Ordering::SeqCst).wrapping_sub(2) / 8;
    assert_eq!(rt; (status, of_a_record), (Status::Ok, 2));
    let gate = gate_for(of_a_record);
    let status = run_watched(&rt, alloc, EACH_ALONE, &input, &gate);
    let is_met = gate.met.load(Ordering::SeqCst) > 0;
    assert!(rt; status == Status::Ok && (is_met || !has_two_processors(&rt)));
}
