//! Frames that were worked out by hand: their sums left to a card or wrong, and cut or not.

use crate::whole::{capture, wired};
use std::test::Fail;
use worked_captures::{FIRST, MERGED, SECOND};

/// A change of a frame: a place, and its two bytes there.
type Edit = (usize, [u8; 2]);

/// What stands on the wire of a frame.
#[derive(Clone, Copy)]
enum Wire {
    /// The two packets that merge into it.
    Both,
    /// One frame, changed so.
    One(&'static [Edit]),
}

/// A line of words, how the merged frame is changed and by how much its original length is greater, what stands on the
/// wire, and the numbers of the summary: frames cut, sums filled, and wrong sums left.
#[derive(Clone, Copy)]
struct Row(&'static str, &'static [Edit], u32, Wire, [u8; 3]);

/// The places of IPv4's total length and sum, and of TCP's control bits and sum.
const TOTAL: usize = 16;

const IP_SUM: usize = 24;

const FLAGS: usize = 46;

const SUM: usize = 50;

/// The sum of the pseudo header alone: 0a00, 0001, 0a00, 0002, protocol 6 and 26 bytes.
const PARTIAL: Edit = (SUM, [0x14, 0x23]);

static ROWS: [Row; 14] = [
    Row("wire --summary --mss 4", &[], 0, Wire::Both, [1, 0, 0]),
    Row(
        "wire --summary --mss 4",
        &[PARTIAL],
        0,
        Wire::Both,
        [1, 1, 0],
    ),
    Row(
        "wire --summary --mss 6",
        &[PARTIAL],
        0,
        Wire::One(&[]),
        [0, 1, 0],
    ),
    Row(
        "wire --summary --mss 7",
        &[PARTIAL],
        0,
        Wire::One(&[]),
        [0, 1, 0],
    ),
    Row("wire --summary", &[], 0, Wire::One(&[]), [0, 0, 0]),
    // A sum that is wrong in another way.
    Row(
        "wire --summary --mss 4",
        &[(SUM, [0, 0])],
        0,
        Wire::One(&[(SUM, [0, 0])]),
        [0, 0, 1],
    ),
    Row(
        "wire --summary --mss 4 --sums all",
        &[(SUM, [0, 0])],
        0,
        Wire::Both,
        [1, 1, 0],
    ),
    // IPv4's own sum stays, and so the frame isn't cut.
    Row(
        "wire --summary --mss 4",
        &[PARTIAL, (IP_SUM, [0, 0])],
        0,
        Wire::One(&[(IP_SUM, [0, 0])]),
        [0, 1, 1],
    ),
    Row(
        "wire --summary --mss 4 --sums=all",
        &[PARTIAL, (IP_SUM, [0, 0])],
        0,
        Wire::Both,
        [1, 2, 0],
    ),
    // SYN, and CWR beside ACK and PSH: the sum is less by what the word is more.
    Row(
        "wire --summary --mss 4",
        &[PARTIAL, (FLAGS, [0x50, 0x12])],
        0,
        Wire::One(&[(FLAGS, [0x50, 0x12]), (SUM, [0xbc, 0xea])]),
        [0, 1, 0],
    ),
    Row(
        "wire --summary --mss 4",
        &[PARTIAL, (FLAGS, [0x50, 0x98])],
        0,
        Wire::One(&[(FLAGS, [0x50, 0x98]), (SUM, [0xbc, 0x64])]),
        [0, 1, 0],
    ),
    // Cut short when it was captured; and a total length of 0.
    Row(
        "wire --summary --mss 4 --sums all",
        &[PARTIAL],
        1,
        Wire::One(&[PARTIAL]),
        [0, 0, 0],
    ),
    Row(
        "wire --summary --mss 4 --sums all",
        &[PARTIAL, (TOTAL, [0, 0])],
        0,
        Wire::One(&[PARTIAL, (TOTAL, [0, 0])]),
        [0, 0, 0],
    ),
    Row(
        "wire --summary --mss 4 --blocks 3",
        &[PARTIAL],
        0,
        Wire::Both,
        [1, 1, 0],
    ),
];

// The merged frame, changed so.
fn edited(edits: &[Edit]) -> [u8; 60] {
    let mut frame = MERGED;
    for (at, bytes) in edits {
        if let Some(place) = frame.get_mut(*at..at.saturating_add(2)) {
            place.copy_from_slice(bytes);
        }
    }
    frame
}

#[test]
fn frames_are_filled_and_cut(rt: HostRuntime) -> Result<(), Fail> {
    let alloc = rt.alloc();
    for row in &ROWS {
        let Row(line, edits, more, wire, [cut, filled, wrong]) = *row;
        let given = capture(alloc, &[(&edited(edits), 60 + more)])?;
        let wanted = match wire {
            Wire::Both => capture(alloc, &[(&FIRST, 58), (&SECOND, 56)])?,
            Wire::One(edits) => capture(alloc, &[(&edited(edits), 60 + more)])?,
        };
        let told = format!(in alloc;
            "cut {cut} frames, filled {filled} sums; left {wrong} wrong sums, 0 frames above 1514 bytes\n"
        )?;
        let (code, written, log) = wired(alloc, line, given)?;
        assert_eq!(rt;
            (code, written.as_slice(), log.as_slice()),
            (0, wanted.as_slice(), told.as_bytes())
        );
    }
    Ok(())
}

// A frame with a tag of network 1 behind its addresses.
fn tagged<const N: usize, const M: usize>(frame: &[u8; N]) -> [u8; M] {
    let mut out = [0; M];
    for (place, byte) in out.iter_mut().zip(frame.iter().take(12)) {
        *place = *byte;
    }
    for (place, byte) in out.iter_mut().skip(12).zip([0x81, 0, 0, 1]) {
        *place = byte;
    }
    for (place, byte) in out.iter_mut().skip(16).zip(frame.iter().skip(12)) {
        *place = *byte;
    }
    out
}

#[test]
fn tagged_frames_are_cut(rt: HostRuntime) -> Result<(), Fail> {
    let alloc = rt.alloc();
    let frame: [u8; 64] = tagged(&edited(&[PARTIAL]));
    let (first, second): ([u8; 62], [u8; 60]) = (tagged(&FIRST), tagged(&SECOND));
    let given = capture(alloc, &[(&frame, 64)])?;
    let wanted = capture(alloc, &[(&first, 62), (&second, 60)])?;
    let (code, written, log) = wired(alloc, "wire --mss 4", given)?;
    assert_eq!(rt;
        (code, written.as_slice(), log.len()),
        (0, wanted.as_slice(), 0)
    );
    Ok(())
}

/// An acknowledgment: the headers of the first packet, with 40 bytes in all.
const ACKNOWLEDGMENT: [u8; 54] = [
    0x02, 0x00, 0x00, 0x00, 0x00, 0x02, 0x02, 0x00, 0x00, 0x00, 0x00, 0x01, 0x08, 0x00, 0x45, 0x00,
    0x00, 0x28, 0x00, 0x64, 0x40, 0x00, 0x40, 0x06, 0x26, 0x6a, 0x0a, 0x00, 0x00, 0x01, 0x0a, 0x00,
    0x00, 0x02, 0x9c, 0x40, 0x13, 0x89, 0x00, 0x00, 0x03, 0xe8, 0x00, 0x00, 0x00, 0x01, 0x50, 0x10,
    0x01, 0x00, 0xe7, 0x1f, 0x00, 0x00,
];

#[test]
fn an_acknowledgment_gets_its_sum(rt: HostRuntime) -> Result<(), Fail> {
    let alloc = rt.alloc();
    let mut frame = ACKNOWLEDGMENT;
    frame[50] = 0x14;
    frame[51] = 0x1d;
    let given = capture(alloc, &[(&frame, 54), (&SECOND, 56)])?;
    let wanted = capture(alloc, &[(&ACKNOWLEDGMENT, 54), (&SECOND, 56)])?;
    let (code, written, _) = wired(alloc, "wire --mss 1", given)?;
    let cut = capture(alloc, &[(&ACKNOWLEDGMENT, 54)])?;
    assert_eq!(rt; (code, written.starts_with(&cut)), (0, true));
    let given = capture(alloc, &[(&frame, 54), (&SECOND, 56)])?;
    let (code, written, _) = wired(alloc, "wire --mss 2", given)?;
    assert_eq!(rt; (code, written.as_slice()), (0, wanted.as_slice()));
    Ok(())
}
