//! Rounds are read, dropped, ended and merged, and all blocks are home again.
ghost use Rattle.std.specs.Prelude.{◌≡◌, ◌≤◌, length};

use crate::plans::plain;
use crate::rounds_in_turn::captures::{feed_of, merge, reader_of, written};
use lanes::Alone;
use off_io::{MemSink, NoGate};
use pcap_io::Link;
use rounds::{MergeEnd, RoundEnd, RoundRead, Rounds};
use std::alloc::Global;
use std::process::Abort;
use worked_captures::{TWO_RECORDS, WRITTEN};

// Rounds of two over so many blocks.
fn rounds_over(rt: &impl Abort, alloc: Global, blocks: u32) -> Rounds
    requires blocks { (1 ≤ blocks) × (blocks ≤ 65536) }
    ensures home { length result.stock ≡ result.blocks }
{
    Rounds::make(alloc, blocks, 2, plain(1, 0, 64), false).expect(rt, "no memory")
}

// A round of a source that fails at these of its calls: the blocks that are home while the round is out and once it was
// dropped, the blocks that were taken, and why it ended.
fn turn(rt: &impl Abort, alloc: Global, blocks: u32, fails: &[u64]) -> (u32, u32, u64, RoundEnd)
    requires blocks { (1 ≤ blocks) × (blocks ≤ 65536) }
{
    let mut feed = feed_of(rt, alloc, &TWO_RECORDS, 24, fails);
    let mut reader = reader_of(rt, &mut feed, Link::Ethernet);
    let mut rounds = rounds_over(rt, alloc, blocks);
    let RoundRead { round, end } = rounds.read_round(&mut reader);
    let home = rounds.home();
    rounds.drop_round(round);
    (home, rounds.home(), rounds.taken(), end)
}

// The same round worked, written and ended: what is written, and the blocks that are home before the end and after it.
fn worked_turn(rt: &impl Abort, alloc: Global, blocks: u32) -> (Vec<u8>, u32, u32)
    requires blocks { (1 ≤ blocks) × (blocks ≤ 65536) }
{
    let mut feed = feed_of(rt, alloc, &TWO_RECORDS, 24, &[]);
    let mut reader = reader_of(rt, &mut feed, Link::Ethernet);
    let file = reader.file();
    let mut sink = MemSink::new(alloc, 64, Vec::new(alloc));
    let mut rounds = rounds_over(rt, alloc, blocks);
    let RoundRead { round, end: _ } = rounds.read_round(&mut reader);
    let worked = rounds.work_round(&mut Alone { gate: &NoGate }, round);
    let worked = worked.expect(rt, "no memory");
    rounds
        .write_round(&worked, &file, &mut sink)
        .expect(rt, "all is written");
    let home = rounds.home();
    rounds.end_round(worked);
    (written(rt, alloc, &sink), home, rounds.home())
}

// Both merged in rounds of two, from a source and to a sink that fail at these of their calls: how it ended, what was
// written and whether it is flushed, and the blocks that are home.
fn merged(
    rt: &impl Abort,
    alloc: Global,
    blocks: u32,
    reads: &[u64],
    writes: &[u64],
) -> (MergeEnd, Vec<u8>, bool, u32)
    requires blocks { (1 ≤ blocks) × (blocks ≤ 65536) }
{
    let mut feed = feed_of(rt, alloc, &TWO_RECORDS, 24, reads);
    let writes = writes.to_vec(alloc).expect(rt, "no memory");
    let mut sink = MemSink::new(alloc, 64, writes);
    let mut rounds = rounds_over(rt, alloc, blocks);
    let end = merge(rt, &mut rounds, &mut feed, &mut sink);
    (
        end,
        written(rt, alloc, &sink),
        sink.is_flushed(),
        rounds.home(),
    )
}

#[test]
fn all_is_merged(rt: HostRuntime) {
    let (end, written, flushed, home) = merged(&rt, rt.alloc(), 6, &[], &[]);
    assert_eq!(rt;
        (end, flushed, home, written.as_slice()),
        (MergeEnd::Done, true, 6, WRITTEN.as_slice())
    );
}

#[test]
fn of_a_round_that_exceeds_the_blocks_nothing_is_written(rt: HostRuntime) {
    let (end, written, flushed, home) = merged(&rt, rt.alloc(), 3, &[], &[]);
    let empty = MergeEnd::PoolEmpty { round: 0, need: 6 };
    assert_eq!(rt; (end, flushed, home, written.len()), (empty, true, 3, 0));
}

#[test]
fn a_failing_source_and_sink(rt: HostRuntime) {
    let alloc = rt.alloc();
    let (end, written, flushed, home) = merged(&rt, alloc, 7, &[4], &[]);
    assert_eq!(rt;
        (end, flushed, home, written.as_slice()),
        (MergeEnd::ReadFault, true, 7, &WRITTEN[..33])
    );
    let (end, written, _, home) = merged(&rt, alloc, 7, &[], &[0]);
    assert_eq!(rt; (end, home, written.len()), (MergeEnd::WriteFault, 7, 0));
}

#[test]
fn a_worked_round_comes_home(rt: HostRuntime) {
    let alloc = rt.alloc();
    let (both, both_out, both_home) = worked_turn(&rt, alloc, 7);
    let (one, one_out, one_home) = worked_turn(&rt, alloc, 5);
    let homes = [(both_out, both_home), (one_out, one_home)];
    assert_eq!(rt;
        (homes, both.as_slice(), one.as_slice()),
        ([(1, 7), (2, 5)], WRITTEN.as_slice(), &WRITTEN[..33])
    );
}

#[test]
fn the_need_is_exact(rt: HostRuntime) {
    let alloc = rt.alloc();
    let turns = [
        turn(&rt, alloc, 7, &[]),
        turn(&rt, alloc, 6, &[]),
        turn(&rt, alloc, 5, &[]),
        turn(&rt, alloc, 2, &[]),
    ];
    assert_eq!(rt;
        turns,
        [
            (1, 7, 6, RoundEnd::Full),
            (0, 6, 6, RoundEnd::Full),
            (2, 5, 3, RoundEnd::PoolEmpty { need: 6 }),
            (2, 2, 0, RoundEnd::PoolEmpty { need: 3 }),
        ]
    );
}

// Call 0 gives the file header; then each record's header is a call, and its body is one. The two spares of a record
// are taken once its body is read.
#[test]
fn a_half_read_record_leaves_no_block_out(rt: HostRuntime) {
    let alloc = rt.alloc();
    let turns = [
        turn(&rt, alloc, 7, &[1]),
        turn(&rt, alloc, 7, &[2]),
        turn(&rt, alloc, 7, &[3]),
        turn(&rt, alloc, 7, &[4]),
    ];
    assert_eq!(rt;
        turns,
        [
            (7, 7, 0, RoundEnd::ReadFault),
            (7, 7, 1, RoundEnd::ReadFault),
            (4, 7, 3, RoundEnd::ReadFault),
            (4, 7, 4, RoundEnd::ReadFault),
        ]
    );
}
