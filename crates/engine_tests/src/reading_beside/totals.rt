//! The lines, byte for byte, in sinks that take them whole, byte by byte, or fail at each call; and totals that are
//! added.

ghost use Rattle.std.specs.Prelude.{◌≡◌, ◌≤◌, ◌^◌, length};
ghost use Rattle.std.specs.List.{AllByRecursion};
ghost use Rattle.check_totals.specs.Counts.{IsQueueWithin};

use crate::reading_beside::memory::sink_of;
use check_totals::{QueueTotals, TapTotals, Totals, write_made, write_totals};
use off_io::WriteFault;
use std::alloc::Global;
use std::process::Abort;

const LINES: &str = "queue 0: records 8 items 6 merged 2 returned 8\n\
    queue 1: records 0 items 0 merged 0 returned 0\n\
    tap 0: windows 4 bytes 18446744073709551615\n\
    total: records 8 items 6 merged 2 returned 8\n";

const QUEUES: [QueueTotals; 2] = [
    QueueTotals {
        records: 8,
        items: 6,
        merged: 2,
        returned: 8,
    },
    QueueTotals {
        records: 0,
        items: 0,
        merged: 0,
        returned: 0,
    },
];

const TAPS: [TapTotals; 1] = [TapTotals {
    windows: 4,
    bytes: u64::MAX,
}];

fn totals(rt: &impl Abort, alloc: Global) -> Totals
    ensures lanes { length result.queues ≤ 2 ^ 12 }
    ensures within { AllByRecursion (IsQueueWithin (2 ^ 50)) result.queues }
{
    Totals {
        queues: QUEUES.to_vec(alloc).expect(rt, "no memory"),
        taps: TAPS.to_vec(alloc).expect(rt, "no memory"),
    }
}

// Whether all lines are written where a call takes so many bytes at most.
fn are_written(rt: &impl Abort, alloc: Global, step: usize) -> bool {
    let mut sink = sink_of(rt, alloc, step, &[]);
    let is_ok = write_totals(&mut sink, &totals(rt, alloc)).is_ok();
    is_ok && sink.bytes() == LINES.as_bytes()
}

#[test]
fn lines_of_queues_and_taps(rt: HostRuntime) {
    let alloc = rt.alloc();
    let seen = [
        are_written(&rt, alloc, 1),
        are_written(&rt, alloc, 7),
        are_written(&rt, alloc, 4096),
    ];
    assert_eq!(rt; seen, [true; 3]);
}

// How many bytes of the lines are written where a call fails; `None` where they are others, or there is no fault.
fn front_before(rt: &impl Abort, alloc: Global, call: u64) -> Option<usize> {
    let mut sink = sink_of(rt, alloc, 4096, &[call]);
    let answer = write_totals(&mut sink, &totals(rt, alloc));
    let front = sink.bytes();
    if answer == Err(WriteFault) && LINES.as_bytes().starts_with(front) {
        Some(front.len())
    } else {
        None
    }
}

#[test]
fn a_sink_that_fails_has_a_front(rt: HostRuntime) {
    let alloc = rt.alloc();
    let fronts = [
        front_before(&rt, alloc, 0),
        front_before(&rt, alloc, 1),
        front_before(&rt, alloc, 2),
        front_before(&rt, alloc, 3),
    ];
    assert_eq!(rt; fronts, [Some(0), Some(47), Some(94), Some(138)]);
}

#[test]
fn the_line_of_a_made_capture(rt: HostRuntime) {
    let mut sink = sink_of(&rt, rt.alloc(), 4096, &[]);
    let answers = [
        write_made(&mut sink, 1, 1344),
        write_made(&mut sink, u32::MAX, u64::MAX),
    ];
    let want = "made: records 1 bytes 1344\n\
        made: records 4294967295 bytes 18446744073709551615\n";
    assert_eq!(rt; (answers, sink.bytes()), ([Ok(()); 2], want.as_bytes()));
}

// Two rounds, of which the second has nothing for the last queue and for the first tap.
const FIRST: [QueueTotals; 2] = [
    QueueTotals {
        records: 4,
        items: 3,
        merged: 1,
        returned: 4,
    },
    QueueTotals {
        records: 1,
        items: 1,
        merged: 0,
        returned: 1,
    },
];

const FIRST_TAPS: [TapTotals; 2] = [
    TapTotals {
        windows: 2,
        bytes: 164,
    },
    TapTotals {
        windows: 1,
        bytes: 9,
    },
];

const SECOND: [QueueTotals; 2] = [
    QueueTotals {
        records: 5,
        items: 2,
        merged: 2,
        returned: 5,
    },
    QueueTotals {
        records: 0,
        items: 0,
        merged: 0,
        returned: 0,
    },
];

const SECOND_TAPS: [TapTotals; 2] = [
    TapTotals {
        windows: 0,
        bytes: 0,
    },
    TapTotals {
        windows: 7,
        bytes: 448,
    },
];

const SUM: [QueueTotals; 2] = [
    QueueTotals {
        records: 9,
        items: 5,
        merged: 3,
        returned: 9,
    },
    QueueTotals {
        records: 1,
        items: 1,
        merged: 0,
        returned: 1,
    },
];

const SUM_OF_TAPS: [TapTotals; 2] = [
    TapTotals {
        windows: 2,
        bytes: 164,
    },
    TapTotals {
        windows: 8,
        bytes: 457,
    },
];

// The totals of these lanes, whose numbers are small.
fn of_lanes(
    rt: &impl Abort,
    alloc: Global,
    queues: &[QueueTotals; 2],
    taps: &[TapTotals; 2],
) -> Totals
    ensures same { result ≡ record { queues = queues.now; taps = taps.now } }
{
    Totals {
        queues: queues.to_vec(alloc).expect(rt, "no memory"),
        taps: taps.to_vec(alloc).expect(rt, "no memory"),
    }
}

#[test]
fn lanes_are_added_each_to_its_own(rt: HostRuntime) {
    let alloc = rt.alloc();
    let mut sum = of_lanes(&rt, alloc, &FIRST, &FIRST_TAPS);
    let second = of_lanes(&rt, alloc, &SECOND, &SECOND_TAPS);
    sum.add(&second);
    assert_eq!(rt;
        (sum.queues.as_slice(), sum.taps.as_slice()),
        (SUM.as_slice(), SUM_OF_TAPS.as_slice())
    );
}
