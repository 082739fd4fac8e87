//! Summing lists of bytes of one length, which is a word of the line, so that no length is known when this is compiled.

use anyhow::Error;
use inet_sum::fold_of;
use std::time::Instant;

// The longest list: an IP packet's payload is no longer.
const LONGEST: usize = 65_535;

// Bytes with no pattern, of which the lists of the turns begin at several places.
fn some_bytes(rt: &HostRuntime, count: usize) -> Result<Vec<u8>, Error> {
    let mut bytes = Vec::new(rt.alloc());
    let mut state = 12_345_u32;
    for _ in 0..count {
        state = state.wrapping_mul(1_664_525).wrapping_add(1_013_904_223);
        bytes.push((state >> 24) as u8)?;
    }
    Ok(bytes)
}

pub fn measure(rt: &HostRuntime, turns: u64, length: usize) -> Result<(), Error> {
    if length > LONGEST {
        println!(rt; "a list has at most {LONGEST} bytes")?;
        return Ok(());
    }
    let bytes = some_bytes(rt, 64 + length)?;
    let start = Instant::now(rt)?;
    let mut total = 0u64;
    for turn in 0..turns {
        let at = 2 + 16 * (turn % 4) as usize;
        if let Some(list) = bytes.get(at..at + length) {
            total = total.wrapping_add(u64::from(fold_of(list)));
        }
    }
    let taken = start.elapsed(rt)?;
    println!(rt; "{length} bytes: {} ns, total {total}", taken.as_nanos())?;
    Ok(())
}
