//! The calls on a block, each pair as it follows in use. `bench/block-steps` sets them beside the same turns of Rust's
//! `Arc`.

use anyhow::Error;
use raw_block::{Claimed, Part, Released, Sole};
use std::time::{Duration, Instant};

pub fn spend(part: Part) {
    match part.release() {
        Released::Left(receipt) => receipt.close(),
        Released::Last(_) => {}
    }
}

fn split_and_release(part: &mut Part) {
    if part.weight() > 1 {
        spend(part.split(1));
    }
}

fn claim_and_share(part: Part) -> Part {
    match part.claim() {
        Claimed::Sole(sole) => sole.share(),
        Claimed::Shared(part, _) => part,
    }
}

fn share_and_release(sole: Sole) -> Sole {
    match sole.share().release() {
        Released::Last(sole) => sole,
        Released::Left(receipt) => {
            receipt.close();
            unreachable!()
        }
    }
}

fn time_splits(rt: &HostRuntime, sole: Sole, turns: u64) -> Result<Duration, Error> {
    let start = Instant::now(rt)?;
    let mut part = sole.share();
    for _ in 0..turns {
        split_and_release(&mut part);
    }
    let taken = start.elapsed(rt);
    spend(part);
    Ok(taken?)
}

fn time_claims(rt: &HostRuntime, sole: Sole, turns: u64) -> Result<Duration, Error> {
    let start = Instant::now(rt)?;
    let mut part = sole.share();
    for _ in 0..turns {
        part = claim_and_share(part);
    }
    let taken = start.elapsed(rt);
    spend(part);
    Ok(taken?)
}

fn time_shares(rt: &HostRuntime, mut sole: Sole, turns: u64) -> Result<Duration, Error> {
    let start = Instant::now(rt)?;
    for _ in 0..turns {
        sole = share_and_release(sole);
    }
    Ok(start.elapsed(rt)?)
}

pub fn measure(rt: &HostRuntime, turns: u64) -> Result<(), Error> {
    let splits = time_splits(rt, Sole::new(rt.alloc())?, turns)?;
    println!(rt; "split + release: {} ns", splits.as_nanos())?;
    let claims = time_claims(rt, Sole::new(rt.alloc())?, turns)?;
    println!(rt; "claim + share: {} ns", claims.as_nanos())?;
    let shares = time_shares(rt, Sole::new(rt.alloc())?, turns)?;
    println!(rt; "share + release: {} ns", shares.as_nanos())?;
    Ok(())
}
