//! How the work of rounds is divided.
ghost use Rattle.std.specs.Prelude.{◌≡◌, ◌≤◌};
ghost use Rattle.lanes.specs.Work.{IsPlan};

use frame_layout::{Choice, HashKey, even_table};
use lanes::{LanePlan, SharedProgram};
use std::alloc::Global;
use std::process::Abort;
use tap_filter::Program;

// The key of Microsoft's suite of tests for receive side scaling.
static HASH_KEY: [u8; 40] = [
    0x6d, 0x5a, 0x56, 0xda, 0x25, 0x5b, 0x0e, 0xc2, 0x41, 0x67, 0x25, 0x3d, 0x43, 0xa3, 0x8f, 0xb0,
    0xd0, 0xca, 0x2b, 0xcb, 0xae, 0x7b, 0x30, 0xb4, 0x77, 0xcb, 0x2d, 0xa3, 0x80, 0x30, 0xf2, 0x0c,
    0x6a, 0x42, 0xb7, 0x3b, 0xbe, 0xac, 0x01, 0xfa,
];

/// Runs of any number of packets, queues by the fold, and taps that are shown all.
pub(crate) fn plain(queues: u32, taps: u32, snap: u32) -> LanePlan
    requires queues { (1 ≤ queues) × (queues ≤ 64) }
    requires taps { taps ≤ 8 }
    requires snap { (1 ≤ snap) × (snap ≤ 2048) }
    ensures plan { IsPlan result }
    ensures lanes { (result.queues ≡ queues) × (result.taps ≡ taps) }
{
    LanePlan {
        queues,
        taps,
        snap,
        choice: Choice::Fold,
        segs: 4096,
        filter: None,
    }
}

/// Runs of at most `segs` packets, queues by the hash, and two taps of 32 bytes that are shown what a filter's text
/// says.
pub(crate) fn chosen(
    rt: &impl Abort,
    alloc: Global,
    queues: u32,
    segs: u32,
    filter: &str,
) -> LanePlan
    requires queues { (1 ≤ queues) × (queues ≤ 64) }
    requires segs { (1 ≤ segs) × (segs ≤ 4096) }
    ensures plan { IsPlan result }
{
    let filter = Program::of_text(alloc, filter).expect(rt, "the filter is read");
    LanePlan {
        queues,
        taps: 2,
        snap: 32,
        choice: Choice::Toeplitz {
            key: HashKey::of(&HASH_KEY),
            table: even_table(queues),
        },
        segs,
        filter: Some(SharedProgram::new(alloc, filter).expect(rt, "no memory")),
    }
}
