//! Bytes across pieces, and cuts at each kind of place.
use super::blocks::{counted, has_bytes, three_pieces};
use crate::memory::block;
use crate::seeing::assert_same;
use frags::{PieceBuilder, Pieces, ShareFault};
use std::alloc::Global;
use std::process::Abort;

// A copy across all three pieces, two single bytes and the second piece.
fn read(rt: &impl Abort, alloc: Global) -> ([u8; 12], [u8; 2], bool) {
    let (pieces, mut out) = three_pieces(rt, alloc);
    assert!(rt; pieces.len() == 25 && pieces.count() == 3);
    let mut copy = [0; 12];
    pieces.copy_out(7, &mut copy);
    let ends = [pieces.byte_at(10), pieces.byte_at(24)];
    let second = pieces.slice(1) == [100u8, 101, 102, 103, 104].as_slice();
    pieces.release(&mut out);
    let _ = counted(out);
    (copy, ends, second)
}

#[test]
fn bytes_are_read_across_pieces(rt: HostRuntime) {
    let alloc = rt.alloc();
    let copy = [7, 8, 9, 100, 101, 102, 103, 104, 50, 51, 52, 53];
    assert_same(&rt, &read(&rt, alloc), &(copy, [100, 59], true));
}

// Whether `cut_front` leaves all but the first `n` bytes, and what was given back until the end.
fn front_cut(rt: &impl Abort, alloc: Global, n: usize) -> (bool, (usize, usize)) {
    let (mut pieces, mut out) = three_pieces(rt, alloc);
    let cut = pieces.cut_front(n, &mut out).is_ok();
    let right = cut && has_bytes(&pieces, n, 25);
    pieces.release(&mut out);
    (right, counted(out))
}

// The same of `cut_back` and the last `n` bytes.
fn back_cut(rt: &impl Abort, alloc: Global, n: usize) -> (bool, (usize, usize)) {
    let (mut pieces, mut out) = three_pieces(rt, alloc);
    let cut = pieces.cut_back(n, &mut out).is_ok();
    let right = cut && n <= 25 && has_bytes(&pieces, 0, 25 - n);
    pieces.release(&mut out);
    (right, counted(out))
}

// Whether `split_at` leaves the first `at` bytes and answers the others, `join_back` makes the whole again, and `take`
// moves it out.
fn split_and_joined(rt: &impl Abort, alloc: Global, at: usize) -> (bool, bool, (usize, usize)) {
    let (mut pieces, mut out) = three_pieces(rt, alloc);
    let Ok(rest) = pieces.split_at(at) else {
        panic!(rt; "not split");
    };
    let split = has_bytes(&pieces, 0, at) && has_bytes(&rest, at, 25);
    if let Err((_rest, _)) = pieces.join_back(rest) {
        panic!(rt; "no memory");
    }
    let whole = pieces.take();
    let joined = has_bytes(&whole, 0, 25) && pieces.len() == 0;
    whole.release(&mut out);
    pieces.discard();
    (split, joined, counted(out))
}

// The first number of bytes by which either cut leaves others, or not a part of each piece.
fn first_other_cut(rt: &impl Abort, alloc: Global) -> Option<usize> {
    for n in [0, 3, 10, 12, 15, 24, 25] {
        let seen = [front_cut(rt, alloc, n), back_cut(rt, alloc, n)];
        if seen != [(true, (1, 2)); 2] {
            return Some(n);
        }
    }
    None
}

#[test]
fn cuts_leave_the_other_bytes(rt: HostRuntime) {
    assert_same(&rt, &first_other_cut(&rt, rt.alloc()), &None);
}

// The first place at which a split leaves other bytes, or other receipts than these: one more inside a piece.
fn first_other_split(rt: &impl Abort, alloc: Global) -> Option<usize> {
    for (at, receipts) in [(0, 2), (3, 3), (10, 2), (12, 3), (15, 2), (24, 3), (25, 2)] {
        if split_and_joined(rt, alloc, at) != (true, true, (1, receipts)) {
            return Some(at);
        }
    }
    None
}

#[test]
fn a_split_makes_one_part_more_inside_a_piece(rt: HostRuntime) {
    assert_same(&rt, &first_other_split(&rt, rt.alloc()), &None);
}

// What the three cuts behind the end answer.
fn short(rt: &impl Abort, alloc: Global) -> [(usize, usize); 3] {
    let (mut pieces, mut out) = three_pieces(rt, alloc);
    let mut numbers = [(0, 0); 3];
    if let Err(short) = pieces.cut_front(26, &mut out) {
        numbers[0] = (short.have, short.need);
    }
    if let Err(short) = pieces.cut_back(27, &mut out) {
        numbers[1] = (short.have, short.need);
    }
    match pieces.split_at(28) {
        Ok(rest) => rest.release(&mut out),
        Err(ShareFault::Short { have, need }) => numbers[2] = (have, need),
        Err(_) => {}
    }
    pieces.release(&mut out);
    let _ = counted(out);
    numbers
}

#[test]
fn a_cut_behind_the_end_is_short(rt: HostRuntime) {
    let alloc = rt.alloc();
    assert_same(&rt, &short(&rt, alloc), &[(25, 26), (25, 27), (25, 28)]);
}

// A piece and the three pieces of another block, put together in reserved places.
fn built(rt: &impl Abort, alloc: Global) -> (bool, usize, (usize, usize)) {
    let (three, mut out) = three_pieces(rt, alloc);
    let none = Pieces::new(alloc);
    let mut builder = PieceBuilder::with_room(none.allocator(), 4).expect(rt, "no room");
    builder.append(none);
    builder.push(block(rt, alloc).share(), 2000, 2048);
    builder.append(three);
    let room = builder.room();
    let mut pieces = builder.finish();
    let cut = pieces.cut_front(48, &mut out).is_ok();
    let right = cut && has_bytes(&pieces, 0, 25);
    pieces.release(&mut out);
    (right, room, counted(out))
}

#[test]
fn a_list_is_built_in_reserved_places(rt: HostRuntime) {
    let alloc = rt.alloc();
    assert_same(&rt, &built(&rt, alloc), &(true, 0, (2, 2)));
}
