//! The example of each first page, as it stands there, and what it comes to.
use crate::home::home_of;
use crate::merging::{emptied, packet, plain, reserve, slot, spent};
use crate::segmenting::cutting::{buffer, merged};
use crate::tapping::packets::task_over;
use frags::Outcomes;
use frame_bursts::{BurstRun, Link, merge_burst};
use frame_causes::{Cause, PairCause, why, why_apart};
use frame_cuts::{CutSegment, cut_frame, fill_frame};
use frame_layout::{candidate, shape};
use frame_runs::{Engine, Lent};
use gro::Packets;
use gro_table::RoundTable;
use gso::{Plan, Segments, check_super};
use gso_cutter::{Cut, Cutter};
use inet_sum::Partial;
use merge_rule::{first_progress, is_next, next_progress};
use off_io::NoGate;
use offload_model::Limits;
use pcap_io::OffHead2;
use raw_block::Sole;
use segment_rule::{is_merged, segmentation_of};
use std::test::Fail;
use taps::TapResult;
use worked_captures::{FIRST, MERGED, SECOND};

const NO_RUN: BurstRun = BurstRun {
    first: 0,
    n: 0,
    m: 0,
    length: 0,
    headers_length: 0,
    pseudo: 0,
    kind: 0,
    modes: 0,
    ip_at: 0,
    leaf_at: 0,
    leaf: 0,
    headers: [0; 200],
};

const NO_SEGMENT: CutSegment = CutSegment {
    at: 0,
    length: 0,
    headers_length: 0,
    headers: [0; 200],
};

#[test]
fn example_of_merge_rule(rt: HostRuntime) {
    let (first, next) = (FIRST.as_slice(), SECOND.as_slice());
    let Some(layout) = &shape(first) else {
        panic!(rt; "no shape");
    };
    let mut progress = first_progress(layout, first, first.len());
    if progress.is_open && is_next(layout, first, first.len(), 1, &progress, next, next.len()) {
        progress = next_progress(layout, first, first.len(), 0, &progress, next, next.len());
    }
    assert_eq!(rt; (progress.total, progress.is_open), (60, false));
}

#[test]
fn example_of_segment_rule(rt: HostRuntime) {
    let frame = MERGED.as_slice();
    let (len, original) = (60, 60);
    let head = OffHead2 {
        version: 2,
        kind: 1,
        modes: 0,
        lane: 0,
        n: 2,
        m: 4,
        number: 0,
    };
    let mut bytes = MERGED;
    if is_merged(&head)
        && let Some(seg) = candidate(frame, &Partial::new(), len, original)
        && let Some(cut) = segmentation_of(&head, frame, seg)
    {
        let (header_bytes, payload) = bytes.split_at_mut(cut.layout.payload_at());
        let mut payload_sum = Partial::new();
        payload_sum.add(&payload[..cut.m as usize]);
        cut.put_headers(header_bytes, 0, payload_sum);
    }
    assert!(rt; bytes.starts_with(&FIRST) && frame == MERGED.as_slice());
}

#[test]
fn example_of_frame_runs(rt: HostRuntime) {
    let (first, next) = (FIRST.as_slice(), SECOND.as_slice());
    let mut engine = Engine::make(rt.alloc(), 2).expect(&rt, "engine");
    let frames = [
        Lent {
            bytes: first,
            original: 58,
            number: 0,
        },
        Lent {
            bytes: next,
            original: 56,
            number: 1,
        },
    ];
    engine.merge(&frames, Limits::up_to(4096));
    let runs = engine.runs.len(); // 1: the second frame follows the first one in its flow
    assert_eq!(rt; runs, 1);
}

#[test]
fn example_of_frame_bursts(rt: HostRuntime) {
    let (first, second) = (FIRST.as_slice(), SECOND.as_slice());
    let alloc = rt.alloc();
    let mut next = [0; 2];
    let mut runs = [NO_RUN; 2];
    let frames = [
        Lent {
            bytes: first,
            original: 58,
            number: 0,
        },
        Lent {
            bytes: second,
            original: 56,
            number: 1,
        },
    ];
    let limits = Limits::up_to(64);
    let merged = merge_burst(alloc, Link::Ethernet, limits, &frames, &mut next, &mut runs); // Ok(1)
    let run = runs[0];
    let is_one = matches!(merged, Ok(1));
    assert!(rt; is_one && (run.first, run.n, run.m, run.length, next[0]) == (0, 2, 4, 60, 1));
    assert!(rt; (run.ip_at, run.leaf_at, run.leaf) == (14, 34, 6));
    assert!(rt; run.headers_length == 54 && run.headers[..54] == MERGED[..54]);
}

// A frame of so many bytes.
fn lent(bytes: &[u8], original: u32) -> Lent<'_> {
    Lent {
        bytes,
        original,
        number: 0,
    }
}

#[test]
fn example_of_frame_causes(rt: HostRuntime) {
    let mut frame = FIRST;
    let (first, second) = (lent(&FIRST, 58), lent(&SECOND, 56));
    let whole = why(&frame, 58);
    frame[57] = 0;
    let cause = why(&frame, 58); // Cause::Sum: a byte of the payload was changed
    let apart = why_apart(&second, &first); // PairCause::Longer: the shorter one came first
    let short = why(&frame[..57], 58);
    let both = why_apart(&first, &second);
    assert_eq!(rt;
        (whole, cause, short),
        (Cause::Mergeable, Cause::Sum, Cause::Cut)
    );
    assert_eq!(rt; (both, apart), (PairCause::Mergeable, PairCause::Longer));
}

#[test]
fn example_of_frame_cuts(rt: HostRuntime) {
    let mut frame = MERGED;
    let mut segments = [NO_SEGMENT; 2];
    let filled = fill_frame(&mut frame); // none is partial
    let cut = cut_frame(&frame, 4, 0, &mut segments); // Ok(2): the payload has six bytes
    let (first, second) = (segments[0], segments[1]);
    let is_right = matches!(filled, Some(fates) if fates.filled == 0 && fates.wrong == 0);
    assert!(rt; is_right && matches!(cut, Ok(2)) && frame == MERGED);
    assert!(rt; (first.at, first.length, second.at, second.length) == (54, 4, 58, 2));
    assert!(rt; first.headers[..54] == FIRST[..54] && second.headers[..54] == SECOND[..54]);
}

#[test]
fn example_of_gro(rt: HostRuntime) {
    let alloc = rt.alloc();
    let payload = [9; 100];
    let mut engine = Engine::make(alloc, 2).expect(&rt, "engine");
    let mut packets = Packets::with_capacity(alloc, 2).expect(&rt, "list");
    let first = slot(&rt, alloc, 0, &plain(0, 0, 0x10, &payload), &payload);
    let next = slot(&rt, alloc, 1, &plain(1, 100, 0x10, &payload), &payload);
    assert!(rt; first.number < next.number);
    packets.push(first);
    packets.push(next);
    engine.merge(packets.slots(), Limits::up_to(4096));
    let blocks = packets.free(); // 2: each packet's own, as no run has moved any
    assert_eq!(rt; (engine.runs.len(), blocks), (1, 2));
}

#[test]
fn example_of_gro_table(rt: HostRuntime) {
    let alloc = rt.alloc();
    let payload = [9; 100];
    let first = packet(&rt, alloc, 0, &plain(0, 0, 0x10, &payload), &payload);
    let second = packet(&rt, alloc, 1, &plain(1, 100, 0x10, &payload), &payload);
    assert!(rt; first.number < second.number && first.skb.count() == 1 && second.skb.count() == 1);
    let mut outcomes = Outcomes::new(alloc);
    reserve(&rt, &mut outcomes, 6);
    let mut blocks = 0;
    let mut table = RoundTable::make(alloc, 2, 4096).expect(&rt, "memory");
    if let Err((packet, _)) = table.receive(first) {
        packet.release(&mut outcomes);
    }
    if let Err((packet, _)) = table.receive(second) {
        packet.release(&mut outcomes);
    }
    match table.finish() {
        Ok(items) => blocks = spent(&rt, items, &[(0, 2, 100, 0)]), // one item of both, with 100 bytes of each
        Err((table, _)) => table.release(&mut outcomes),
    }
    assert_eq!(rt; (blocks, emptied(&mut outcomes)), (6, 0));
    outcomes.settle();
}

#[test]
fn example_of_gso(rt: HostRuntime) {
    let head = merged(2, 4, 0);
    let original = 76;
    let mut sizes = (0, 0, 0);
    let skb = buffer(&rt, rt.alloc(), &MERGED, 60, 1);
    assert!(rt; skb.len().min(200) <= skb.head().len());
    if let Ok(Plan::Segments(cut, sums)) = &check_super(&head, &skb, original) {
        let segments = Segments::new(&skb, cut, sums);
        let payload = segments.payload_len(segments.first());
        sizes = (segments.count(), segments.headers_len(), payload); // two segments, 54 and 4 bytes of the first one
    }
    assert_eq!(rt; (sizes, skb.free()), ((2, 54, 4), 1));
}

#[test]
fn example_of_gso_cutter(rt: HostRuntime) -> Result<(), Fail> {
    let alloc = rt.alloc();
    let head = merged(2, 4, 0);
    let original = 76;
    let mut len = 0usize;
    let mut spares = Vec::new(alloc);
    spares.push(Sole::new(alloc)?)?;
    spares.push(Sole::new(alloc)?)?;
    spares.push(Sole::new(alloc)?)?;
    assert!(rt; spares.len() == 3);
    let mut outcomes = Outcomes::with_room(alloc, 16)?;
    let skb = buffer(&rt, alloc, &MERGED, 60, 1);
    assert!(rt; skb.len().min(200) <= skb.head().len());
    assert!(rt; skb.least_weight() >= 2048 && skb.count() <= 4);
    match check_super(&head, &skb, original) {
        Ok(plan) => {
            let mut cutter = Cutter::start(skb, plan);
            while let Some(spare) = spares.pop() {
                match cutter.next(spare) {
                    Ok(Cut::Segment(segment)) => {
                        len = len.wrapping_add(segment.len());
                        segment.release(&mut outcomes);
                    }
                    Ok(Cut::Done(spare)) => outcomes.keep_sole(spare),
                    Err((spare, _)) => outcomes.keep_sole(spare),
                }
            }
            cutter.release(&mut outcomes);
        }
        Err(_) => skb.release(&mut outcomes),
    }
    assert_eq!(rt; home_of(outcomes), 4);
    assert_eq!(rt; len, 114);
    Ok(())
}

#[test]
fn example_of_taps(rt: HostRuntime) -> Result<(), Fail> {
    let task = task_over(&rt, rt.alloc(), (0, 64), None, (100, 100), &[60, 300]);
    let mut read = 0usize;
    let TapResult { texts, outcomes } = task.run(&NoGate);
    let _ = home_of(outcomes);
    let texts = texts?;
    for i in 0..texts.len() {
        read = read.wrapping_add(texts.get(i).bytes.len());
    }
    assert_eq!(rt; read, 124);
    Ok(())
}
