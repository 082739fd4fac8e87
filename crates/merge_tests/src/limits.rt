//! How many packets a run has at most, and how many bytes.
use frame_runs::{Engine, Lent};
use offload_model::Limits;
use std::alloc::Global;
use std::process::Abort;
use worked_captures::{FIRST, SECOND};

// How many runs the two worked frames come to. Merged they have 60 bytes.
fn runs_within(rt: &impl Abort, alloc: Global, segs: u32, bytes: u32) -> usize {
    let mut engine = Engine::make(alloc, 2).expect(rt, "engine");
    let frames = [
        Lent {
            bytes: &FIRST,
            original: 58,
            number: 0,
        },
        Lent {
            bytes: &SECOND,
            original: 56,
            number: 1,
        },
    ];
    engine.merge(&frames, Limits { segs, bytes });
    engine.runs.len()
}

#[test]
fn runs_have_so_many_bytes_at_most(rt: HostRuntime) {
    let alloc = rt.alloc();
    let filled = runs_within(&rt, alloc, 4096, 60);
    let too_long = runs_within(&rt, alloc, 4096, 59);
    let none = runs_within(&rt, alloc, 4096, 0);
    let unbounded = runs_within(&rt, alloc, 4096, 0xffff_ffff);
    assert_eq!(rt; (filled, too_long, none, unbounded), (1, 2, 2, 1));
}

#[test]
fn runs_have_so_many_packets_at_most(rt: HostRuntime) {
    let alloc = rt.alloc();
    let two = runs_within(&rt, alloc, 2, 262_144);
    let one = runs_within(&rt, alloc, 1, 262_144);
    assert_eq!(rt; (two, one), (1, 2));
}
