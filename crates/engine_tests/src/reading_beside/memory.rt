//! What a test begins with: captures, sources, sinks and rounds. Where there is no memory the test ends.
ghost use Rattle.std.specs.Prelude.{◌≡◌, length};

use crate::byte_lists::joined;
use crate::plans::plain;
use off_io::{MemSink, MemSource};
use rounds::Rounds;
use std::alloc::Global;
use std::process::Abort;
use std::thread::{Threads, available_parallelism};
use worked_captures::TWO_FLOWS;

// The four records, all of this second.
fn of_second(second: u32) -> [u8; 344] {
    let mut records = [0; 344];
    records.copy_from_slice(&TWO_FLOWS[24..]);
    let second = second.to_le_bytes();
    records[..4].copy_from_slice(&second);
    records[86..90].copy_from_slice(&second);
    records[172..176].copy_from_slice(&second);
    records[258..262].copy_from_slice(&second);
    records
}

/// The four records again and again, each four in a second of its own.
pub(crate) fn capture(rt: &impl Abort, alloc: Global, fours: u32) -> Vec<u8> {
    let mut bytes = joined(rt, alloc, &[&TWO_FLOWS[..24]]);
    for second in 0..fours {
        let records = of_second(second);
        bytes.extend_from_slice(&records).expect(rt, "no memory");
    }
    bytes
}

/// A record of 5,000 zeros, of the second and the fraction of a capture's first record.
pub(crate) fn large_record(rt: &impl Abort, alloc: Global, capture: &[u8]) -> Vec<u8> {
    let time = capture.get(24..32).unwrap_or(&[]);
    let len = 5000u32.to_le_bytes();
    joined(rt, alloc, &[time, &len, &len, &[0; 5000]])
}

/// A source of these bytes that fails at these of its calls.
pub(crate) fn source_of(rt: &impl Abort, alloc: Global, bytes: &[u8], fails: &[u64]) -> MemSource {
    let bytes = bytes.to_vec(alloc).expect(rt, "no memory");
    let fails = fails.to_vec(alloc).expect(rt, "no memory");
    MemSource::new(bytes, 4096, fails)
}

/// A sink that fails at these of its calls, of which each takes so many bytes at most, and one at least.
pub(crate) fn sink_of(rt: &impl Abort, alloc: Global, step: usize, fails: &[u64]) -> MemSink {
    let fails = fails.to_vec(alloc).expect(rt, "no memory");
    MemSink::new(alloc, step.max(1), fails)
}

/// How a capture is merged.
#[derive(Clone, Copy)]
pub(crate) struct How {
    pub(crate) blocks: u32,
    pub(crate) budget: u32,
    pub(crate) queues: u32,
    pub(crate) taps: u32,
}

/// Rounds that merge so, with all blocks home. Taps are shown so many bytes.
pub(crate) fn rounds_of(rt: &impl Abort, alloc: Global, how: How, snap: u32) -> Rounds
    ensures home { length result.stock ≡ result.blocks }
{
    let (blocks, budget) = (how.blocks, how.budget);
    assert!(rt; blocks >= 1 && blocks <= 65536 && budget >= 1 && budget <= 4096);
    let (queues, taps) = (how.queues, how.taps);
    assert!(rt; queues >= 1 && queues <= 64 && taps <= 8 && snap >= 1 && snap <= 2048);
    let plan = plain(queues, taps, snap);
    Rounds::make(alloc, blocks, budget, plan, false).expect(rt, "no memory")
}

/// Whether there are two sides: on one processor nothing is read beside the work.
pub(crate) fn reads_beside(rt: &impl Threads) -> bool {
    match available_parallelism(rt) {
        Ok(count) => count.get() > 1,
        Err(_) => false,
    }
}
