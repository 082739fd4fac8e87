//! What taps read of packets of many lengths, with filters and without, the gate, and the blocks that come home.
ghost use Rattle.std.specs.Prelude.{◌<◌, ◌≤◌};

use super::packets::{byte_of, task_over};
use crate::home::home_of;
use crate::seeing::assert_same;
use off_io::{Gate, NoGate, Who};
use std::alloc::Global;
use std::process::Abort;
use std::sync::atomic::{AtomicU32, Ordering};
use tap_filter::Program;
use taps::{TapResult, TapText, TapTexts};

const LENGTHS: [usize; 7] = [0, 1, 63, 64, 65, 128, 262_144];

// Whether a text is the window of this packet from `from` on.
fn is_window(text: &TapText<'_>, number: usize, from: usize) -> bool {
    let mut place = from;
    for byte in text.bytes {
        if *byte != byte_of(place) {
            return false;
        }
        place = place.wrapping_add(1);
    }
    text.number as usize == number && (text.sec, text.frac, text.original) == (1000, 7, 70_000)
}

// Of a packet of so many bytes as many are shown: none of one that is shorter than the least length.
#[derive(Clone, Copy)]
struct Shown {
    least: usize,
    most: usize,
}

const ALL: Shown = Shown {
    least: 0,
    most: usize::MAX,
};

impl Shown {
    fn of(self, len: usize) -> usize {
        if len < self.least {
            0
        } else {
            len.min(self.most)
        }
    }
}

// Whether these are the windows of the packets, by the rule as it is told: of what is shown from `tap * snap` on, at
// most `snap`, never empty.
fn are_windows(texts: &TapTexts, tap: usize, snap: usize, shown: Shown) -> bool {
    let mut next = 0usize;
    for (number, len) in LENGTHS.iter().enumerate() {
        let from = tap.wrapping_mul(snap);
        let end = shown.of(*len);
        if from >= end {
            continue;
        }
        if next >= texts.len() {
            return false;
        }
        let text = texts.get(next);
        if text.bytes.len() != (end - from).min(snap) || !is_window(&text, number, from) {
            return false;
        }
        next = next.wrapping_add(1);
    }
    next == texts.len()
}

// Blocks of the packets, where the head takes `head` bytes and each piece `piece`.
fn blocks(head: usize, piece: usize) -> usize {
    let mut blocks = 0usize;
    for len in LENGTHS {
        let behind = len - len.min(head);
        if 0 < piece {
            blocks = blocks.wrapping_add(behind.div_ceil(piece)).wrapping_add(1);
        }
    }
    blocks
}

// Whether a task reads these windows of packets of these sizes of head and pieces, and all blocks come home.
fn are_read<A: Abort>(
    rt: &A,
    alloc: Global,
    reads: (u32, u32),
    filter: Option<&Program>,
    sizes: (usize, usize),
    shown: Shown,
) -> bool
    requires sizes { (sizes.0 ≤ 1984) × (0 < sizes.1) × (sizes.1 ≤ 2000) }
{
    let task = task_over(rt, alloc, reads, filter, sizes, &LENGTHS);
    let TapResult { texts, outcomes } = task.run(&NoGate);
    let home = home_of(outcomes);
    let Ok(texts) = texts else {
        return false;
    };
    home == blocks(sizes.0, sizes.1)
        && texts.is_empty() == (texts.len() == 0)
        && are_windows(&texts, reads.0 as usize, reads.1 as usize, shown)
}

// The same of packets of three sizes of head and pieces.
fn are_all_read<A: Abort>(
    rt: &A,
    alloc: Global,
    reads: (u32, u32),
    filter: Option<&Program>,
    shown: Shown,
) -> bool {
    are_read(rt, alloc, reads, filter, (1984, 2000), shown)
        && are_read(rt, alloc, reads, filter, (0, 1999), shown)
        && are_read(rt, alloc, reads, filter, (63, 1000), shown)
}

// Taps, and what each reads at most.
static READS: [(u32, u32); 9] = [
    (0, 1),
    (7, 1),
    (0, 64),
    (1, 64),
    (2, 64),
    (7, 64),
    (0, 2048),
    (1, 2048),
    (7, 2048),
];

// The first tap, and what it reads at most, whose windows are others.
fn first_other_tap<A: Abort>(rt: &A, alloc: Global) -> Option<(u32, u32)> {
    for (tap, snap) in &READS {
        if !are_all_read(rt, alloc, (*tap, *snap), None, ALL) {
            return Some((*tap, *snap));
        }
    }
    None
}

#[test]
fn windows_are_those_of_the_packets(rt: HostRuntime) {
    assert_same(&rt, &first_other_tap(&rt, rt.alloc()), &None);
}

// The texts of filters, and what they show: 40 bytes; 100 of those whose word at 61, which may lie in the head and a
// piece, has the bytes 61 to 64; all of those that are longer than 128; and none.
static FILTERS: [(&str, Shown); 4] = [
    ("1,6 0 0 40", Shown { least: 0, most: 40 }),
    (
        "4,32 0 0 61,21 0 1 1027489600,6 0 0 100,6 0 0 0",
        Shown {
            least: 65,
            most: 100,
        },
    ),
    (
        "4,128 0 0 0,37 0 1 128,6 0 0 4294967295,6 0 0 0",
        Shown {
            least: 129,
            most: usize::MAX,
        },
    ),
    ("1,22 0 0 0", Shown { least: 0, most: 0 }),
];

// Whether four taps read what this filter shows.
fn are_shown<A: Abort>(rt: &A, alloc: Global, text: &str, shown: Shown) -> bool {
    let filter = Program::of_text(alloc, text).expect(rt, "a filter");
    are_all_read(rt, alloc, (0, 64), Some(&filter), shown)
        && are_all_read(rt, alloc, (1, 64), Some(&filter), shown)
        && are_all_read(rt, alloc, (0, 2048), Some(&filter), shown)
        && are_all_read(rt, alloc, (7, 10), Some(&filter), shown)
}

// The first filter of which they read otherwise.
fn first_other_filter<A: Abort>(rt: &A, alloc: Global) -> &'static str {
    for (text, shown) in &FILTERS {
        if !are_shown(rt, alloc, text, *shown) {
            return text;
        }
    }
    "none"
}

#[test]
fn windows_are_those_of_what_a_filter_shows(rt: HostRuntime) {
    assert_same(&rt, &first_other_filter(&rt, rt.alloc()), &"none");
}

// Where the task is told to have been, a digit a pass: 1 for point 0, 2 for point 1, and 9 for another task.
#[derive(Drop)]
struct Passes {
    seen: AtomicU32,
}

impl Gate for Passes {
    fn pass(&self, who: Who, point: u32) {
        let digit = if who == Who::Tap(3) {
            point.wrapping_add(1)
        } else {
            9
        };
        let before = self.seen.load(Ordering::SeqCst);
        self.seen.store(
            before.wrapping_mul(10).wrapping_add(digit),
            Ordering::SeqCst,
        );
    }
}

#[test]
fn the_gate_is_passed_before_and_after(rt: HostRuntime) {
    let gate = Passes {
        seen: AtomicU32::new(0),
    };
    let task = task_over(&rt, rt.alloc(), (3, 64), None, (100, 100), &[300]);
    let TapResult { texts, outcomes } = task.run(&gate);
    let _ = home_of(outcomes);
    let seen = gate.seen.load(Ordering::SeqCst);
    let texts = texts.expect(&rt, "no memory");
    assert_same(&rt, &(texts.len(), seen), &(1, 12));
}
