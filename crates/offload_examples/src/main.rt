//! The program over the sample captures of `data/`, as the gate runs it; with words, nanoseconds that calls take, as
//! the scripts of `bench/` run it: `offload_examples frames 1000000`, and so with `blocks`, `buffers`, `merging`,
//! `pools`, `segmenting` and `taps`; `offload_examples sums 1000000 1460` sums lists of that many bytes.
//!
//! Both stand on the whole engine, which a program pays for once. Its parts: `samples`, and `steps` with a module for
//! each word.
#![tactic(auto)]

mod samples;
mod steps;

use anyhow::Error;
use std::env;
use steps::{blocks, buffers, cutting, frames, merging, pools, sums, windows};

fn tell_usage(rt: &HostRuntime) -> Result<(), Error> {
    println!(rt;
        "usage: offload_examples frames|blocks|buffers|merging|pools|segmenting|taps TURNS, or sums TURNS LENGTH"
    )?;
    Ok(())
}

fn main(rt: HostRuntime) -> Result<(), Error> {
    let mut words = env::args(&rt)?;
    let Some(which) = words.nth(1) else {
        return samples::show(&rt);
    };
    let Some(turns) = words.next() else {
        return tell_usage(&rt);
    };
    let turns = turns.parse::<u64>()?;
    match which.as_str() {
        "frames" => frames::measure(&rt, turns),
        "blocks" => blocks::measure(&rt, turns),
        "buffers" => buffers::measure(&rt, turns),
        "merging" => merging::measure(&rt, turns),
        "pools" => pools::measure(&rt, turns),
        "segmenting" => cutting::measure(&rt, turns),
        "taps" => windows::measure(&rt, turns),
        "sums" => match words.next() {
            Some(length) => sums::measure(&rt, turns, length.parse::<usize>()?),
            None => tell_usage(&rt),
        },
        _ => tell_usage(&rt),
    }
}
