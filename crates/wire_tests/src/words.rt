//! The words of `wire`.

use crate::whole::{capture, wired, words};
use std::test::Fail;
use wire_model::Wiring;
use wire_words::{WireOptions, WordsFault, parse_words};

/// Lines that are options, and what they say.
static LINES: [(&str, u32, bool, u32, bool); 3] = [
    ("wire", 1448, false, 131, false),
    (
        "wire --mss=9 --sums all --blocks 65536 --summary",
        9,
        true,
        65536,
        true,
    ),
    ("wire --sums partial --mss 65535", 65535, false, 131, false),
];

/// And lines that are none.
static FAULTS: [&str; 9] = [
    "wire --mss 0",
    "wire --mss 65536",
    "wire --blocks 0",
    "wire --blocks 65537",
    "wire --sums none",
    "wire --sums",
    "wire --mss 1 --mss 2",
    "wire merge",
    "wire --help",
];

#[test]
fn words_are_options(rt: HostRuntime) -> Result<(), Fail> {
    let alloc = rt.alloc();
    for (line, mss, fills_all, blocks, has_summary) in &LINES {
        let words = words(alloc, line)?;
        let wanted = WireOptions {
            wiring: Wiring {
                mss: *mss,
                fills_all: *fills_all,
            },
            blocks: *blocks,
            has_summary: *has_summary,
        };
        assert_eq!(rt; parse_words(alloc, &words), Ok(wanted));
    }
    for line in &FAULTS {
        let words = words(alloc, line)?;
        assert_eq!(rt; parse_words(alloc, &words), Err(WordsFault::Usage));
    }
    Ok(())
}

#[test]
fn wrong_words_are_told(rt: HostRuntime) -> Result<(), Fail> {
    let alloc = rt.alloc();
    let given = capture(alloc, &[])?;
    let (code, written, log) = wired(alloc, "wire --sums none", given)?;
    let usage = "usage: wire [--mss N] [--sums partial|all] [--blocks N] [--summary]\n";
    assert_eq!(rt;
        (code, written.len(), log.as_slice()),
        (2, 0, usage.as_bytes())
    );
    Ok(())
}
