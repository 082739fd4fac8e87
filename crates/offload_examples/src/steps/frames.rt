//! Judging a frame, beside summing its bytes, and hashing what receive side scaling reads of it.
//!
//! The frame is a TCP segment of 1,514 bytes over IPv4 that may be merged, so that every sum of it is taken: once from
//! its first 200 bytes and the sum of the others, and once from all its bytes. The hash is of its addresses and ports.

use anyhow::Error;
use frame_layout::{HashKey, candidate};
use inet_sum::{Partial, fold_of};
use std::time::{Duration, Instant};

const LENGTH: usize = 1514;

const HEADERS: [u8; 54] = [
    0x02, 0x00, 0x00, 0x00, 0x00, 0x02, 0x02, 0x00, 0x00, 0x00, 0x00, 0x01, 0x08, 0x00, 0x45, 0x00,
    0x05, 0xdc, 0x00, 0x64, 0x40, 0x00, 0x40, 0x06, 0x20, 0xb6, 0x0a, 0x00, 0x00, 0x01, 0x0a, 0x00,
    0x00, 0x02, 0x9c, 0x40, 0x13, 0x89, 0x00, 0x00, 0x03, 0xe8, 0x00, 0x00, 0x00, 0x01, 0x50, 0x10,
    0x01, 0x00, 0xe1, 0x6b, 0x00, 0x00,
];

// Frames of one content at several places, so that no turn can be taken from the one before.
fn frames() -> [[u8; LENGTH]; 4] {
    let mut frame = [0; LENGTH];
    frame[..54].copy_from_slice(&HEADERS);
    [frame; 4]
}

// By its first 200 bytes and the sum of the others, as a packet in blocks is judged.
fn is_candidate_in_two(frame: &[u8; LENGTH]) -> bool {
    let mut rest = Partial::new();
    rest.add(&frame[200..]);
    candidate(&frame[..200], &rest, 1514, 1514).is_some()
}

fn is_candidate_whole(frame: &[u8; LENGTH]) -> bool {
    candidate(frame, &Partial::new(), 1514, 1514).is_some()
}

fn time_judging_in_two(rt: &HostRuntime, turns: u64) -> Result<(Duration, u64), Error> {
    let frames = frames();
    let start = Instant::now(rt)?;
    let mut found = 0u64;
    for turn in 0..turns {
        if is_candidate_in_two(&frames[(turn % 4) as usize]) {
            found = found.wrapping_add(1);
        }
    }
    Ok((start.elapsed(rt)?, found))
}

fn time_judging_whole(rt: &HostRuntime, turns: u64) -> Result<(Duration, u64), Error> {
    let frames = frames();
    let start = Instant::now(rt)?;
    let mut found = 0u64;
    for turn in 0..turns {
        if is_candidate_whole(&frames[(turn % 4) as usize]) {
            found = found.wrapping_add(1);
        }
    }
    Ok((start.elapsed(rt)?, found))
}

fn time_summing(rt: &HostRuntime, turns: u64) -> Result<(Duration, u64), Error> {
    let frames = frames();
    let start = Instant::now(rt)?;
    let mut total = 0u64;
    for turn in 0..turns {
        total = total.wrapping_add(u64::from(fold_of(&frames[(turn % 4) as usize])));
    }
    Ok((start.elapsed(rt)?, total))
}

fn time_hashing(rt: &HostRuntime, turns: u64) -> Result<(Duration, u64), Error> {
    let mut input = [0; 12];
    input.copy_from_slice(&HEADERS[26..38]);
    let inputs = [input; 4];
    let key = HashKey::of(&[0x6d; 40]);
    let start = Instant::now(rt)?;
    let mut total = 0u64;
    for turn in 0..turns {
        total = total.wrapping_add(u64::from(key.hash(&inputs[(turn % 4) as usize])));
    }
    Ok((start.elapsed(rt)?, total))
}

pub fn measure(rt: &HostRuntime, turns: u64) -> Result<(), Error> {
    let (summing, total) = time_summing(rt, turns)?;
    println!(rt; "bytes summed: {} ns, total {total}", summing.as_nanos())?;
    let (judging, found) = time_judging_in_two(rt, turns)?;
    println!(rt;
        "shape and candidate: {} ns, {found} candidates",
        judging.as_nanos()
    )?;
    let (judging, found) = time_judging_whole(rt, turns)?;
    println!(rt;
        "shape and candidate, whole frame: {} ns, {found} candidates",
        judging.as_nanos()
    )?;
    let (hashing, total) = time_hashing(rt, turns)?;
    println!(rt;
        "Toeplitz hash of 12 bytes: {} ns, total {total}",
        hashing.as_nanos()
    )?;
    Ok(())
}
