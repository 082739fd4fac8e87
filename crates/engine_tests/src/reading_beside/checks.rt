//! Captures are checked, round by round, over enough blocks and too few, and where a source fails. The expected lines
//! were worked out by hand.
ghost use Rattle.std.specs.Prelude.{◌≡◌, ◌≤◌, [], true, IfOk, length};
ghost use Rattle.rounds.specs.Merging.{options_of};
ghost use Rattle.check_totals.specs.Counts.{totals_of};

use crate::plans::plain;
use crate::reading_beside::driven::{PAST_THE_FIRST, Passing, READER};
use crate::reading_beside::memory::{How, capture, reads_beside, sink_of, source_of};
use check_totals::{Totals, write_totals};
use checking::CheckEnd;
use checking_beside::check_beside;
use off_io::{Feed, Gate, Meeting, NoGate, Source, Who};
use pcap_io::{CaptureReader, Link};
use rounds::Rounds;
use std::alloc::{AllocError, Global};
use std::process::Abort;
use std::sync::Wait;
use std::thread::Threads;
use worked_captures::TWO_FLOWS;

const NONE: &str = "queue 0: records 0 items 0 merged 0 returned 0\n\
    queue 1: records 0 items 0 merged 0 returned 0\n\
    tap 0: windows 0 bytes 0\n\
    tap 1: windows 0 bytes 0\n\
    total: records 0 items 0 merged 0 returned 0\n";

/// How checking ended, the lines, the blocks that are home, and how often reading was paused.
pub(crate) type Checked = (CheckEnd, Vec<u8>, u32, u64);

// Rounds that are checked, with all blocks home, and the totals of no packet. Taps are shown 64 bytes.
fn begun(alloc: Global, how: How) -> Result<(Rounds, Totals), AllocError>
    requires blocks { (1 ≤ how.blocks) × (how.blocks ≤ 65536) }
    requires budget { (1 ≤ how.budget) × (how.budget ≤ 4096) }
    requires queues { (1 ≤ how.queues) × (how.queues ≤ 64) }
    requires taps { how.taps ≤ 8 }
    ensures home { IfOk result (λ both. length both.0.stock ≡ both.0.blocks) }
    ensures keep { IfOk result (λ both. both.0.keep ≡ true) }
    ensures start { IfOk result (λ both. both.1 ≡ totals_of (options_of both.0) []) }
{
    let (queues, taps) = (how.queues, how.taps);
    let rounds = Rounds::make(alloc, how.blocks, how.budget, plain(queues, taps, 64), true)?;
    let totals = Totals::make(alloc, queues, taps)?;
    Ok((rounds, totals))
}

// Checks what a source gives.
pub(crate) fn checked<S: Source + Send + Drop, G: Gate + Sync>(
    rt: &(impl Threads + Wait + Abort + Sync),
    alloc: Global,
    how: How,
    source: S,
    gate: &G,
) -> Checked {
    assert!(rt; how.blocks >= 1 && how.blocks <= 65536 && how.budget >= 1 && how.budget <= 4096);
    assert!(rt; how.queues >= 1 && how.queues <= 64 && how.taps <= 8);
    let mut feed = Feed { inner: source };
    let Ok(mut reader) = CaptureReader::start(&mut feed, Link::Ethernet) else {
        panic!(rt; "the file header is lawful");
    };
    let (mut rounds, mut totals) = begun(alloc, how).expect(rt, "no memory");
    let end = check_beside(rt, alloc, &mut rounds, &mut reader, &mut totals, gate);
    let mut sink = sink_of(rt, alloc, 4096, &[]);
    assert!(rt; write_totals(&mut sink, &totals).is_ok());
    let lines = sink.bytes().to_vec(alloc).expect(rt, "no memory");
    (end, lines, rounds.home(), rounds.pauses())
}

// The first bytes of the capture checked in rounds of these many records, over two queues and two taps of 64 bytes,
// from a source that fails at these of its calls: how it ended, the lines, and the blocks that are home.
fn check(
    rt: &(impl Threads + Wait + Abort + Sync),
    alloc: Global,
    input: &[u8],
    sizes: (u32, u32),
    fails: &[u64],
) -> (CheckEnd, Vec<u8>, u32) {
    let how = How {
        blocks: sizes.0,
        budget: sizes.1,
        queues: 2,
        taps: 2,
    };
    let source = source_of(rt, alloc, input, fails);
    let (end, lines, home, _) = checked(rt, alloc, how, source, &NoGate);
    (end, lines, home)
}

#[test]
fn two_queues_and_two_taps(rt: HostRuntime) {
    let (end, lines, home) = check(&rt, rt.alloc(), &TWO_FLOWS, (12, 4), &[]);
    let want = "queue 0: records 2 items 1 merged 1 returned 2\n\
        queue 1: records 2 items 1 merged 1 returned 2\n\
        tap 0: windows 4 bytes 256\n\
        tap 1: windows 4 bytes 24\n\
        total: records 4 items 2 merged 2 returned 4\n";
    assert_eq!(rt;
        (end, lines.as_slice(), home),
        (CheckEnd::Done, want.as_bytes(), 12)
    );
}

#[test]
fn rounds_add_up(rt: HostRuntime) {
    let (end, lines, home) = check(&rt, rt.alloc(), &TWO_FLOWS, (9, 3), &[]);
    let want = "queue 0: records 2 items 1 merged 1 returned 2\n\
        queue 1: records 2 items 2 merged 0 returned 2\n\
        tap 0: windows 4 bytes 256\n\
        tap 1: windows 4 bytes 24\n\
        total: records 4 items 3 merged 1 returned 4\n";
    assert_eq!(rt;
        (end, lines.as_slice(), home),
        (CheckEnd::Done, want.as_bytes(), 9)
    );
}

// Of a capture that is cut off within its last record.
const THREE: &str = "queue 0: records 2 items 1 merged 1 returned 2\n\
    queue 1: records 1 items 1 merged 0 returned 1\n\
    tap 0: windows 3 bytes 192\n\
    tap 1: windows 3 bytes 18\n\
    total: records 3 items 2 merged 1 returned 3\n";

#[test]
fn each_way_to_end(rt: HostRuntime) {
    let alloc = rt.alloc();
    let (end, lines, home) = check(&rt, alloc, &TWO_FLOWS, (8, 4), &[]);
    let exceeds = CheckEnd::PoolEmpty { round: 0, need: 9 };
    assert_eq!(rt;
        (end, lines.as_slice(), home),
        (exceeds, NONE.as_bytes(), 8)
    );
    let (end, lines, _) = check(&rt, alloc, &TWO_FLOWS[..360], (12, 4), &[]);
    assert!(rt; matches!(end, CheckEnd::Malformed(_)) && lines.as_slice() == THREE.as_bytes());
    let (end, lines, home) = check(&rt, alloc, &TWO_FLOWS, (12, 4), &[1]);
    let fault = CheckEnd::ReadFault;
    assert_eq!(rt; (end, lines.as_slice(), home), (fault, NONE.as_bytes(), 12));
}

// Where there is a second processor, and blocks for another record, the second round is read while the first one is
// worked: the worker waits before its work for the reader, and the reader for the worker, and each sees the other. In
// the four rounds behind, of which the last has no record, the worker waits for nobody any more.
#[test]
fn checking_reads_beside_the_work(rt: HostRuntime) {
    let alloc = rt.alloc();
    let gate = Meeting::of(Who::Worker(0), READER);
    let source = Passing {
        source: source_of(&rt, alloc, &capture(&rt, alloc, 1), &[]),
        reads: 0,
        at: PAST_THE_FIRST,
        gate: &gate,
    };
    let how = How {
        blocks: 400,
        budget: 1,
        queues: 1,
        taps: 0,
    };
    let (end, lines, home, _) = checked(&rt, alloc, how, source, &gate);
    let want = "queue 0: records 4 items 4 merged 0 returned 4\n\
        total: records 4 items 4 merged 0 returned 4\n";
    assert_eq!(rt;
        (end, lines.as_slice(), home),
        (CheckEnd::Done, want.as_bytes(), 400)
    );
    assert!(rt; gate.met() == 6 || !reads_beside(&rt));
}
