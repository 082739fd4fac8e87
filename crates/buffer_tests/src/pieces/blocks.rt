//! A block's bytes in three pieces, and outcomes that are counted.
ghost use Rattle.std.specs.Prelude.{◌+◌, ◌<◌, ◌≤◌, length};
ghost use Rattle.frags.specs.PieceList.{size_of};

use crate::memory::{block, room_for};
use frags::{Outcomes, Pieces};
use raw_block::Part;
use std::alloc::Global;
use std::process::Abort;

/// The bytes of the three pieces, of a block whose bytes are their places.
pub const ALL: [u8; 25] = [
    0, 1, 2, 3, 4, 5, 6, 7, 8, 9, 100, 101, 102, 103, 104, 50, 51, 52, 53, 54, 55, 56, 57, 58, 59,
];

/// The Soles and the receipts that were given back.
pub fn counted(mut out: Outcomes) -> (usize, usize) {
    let mut soles = 0usize;
    while let Some(_) = out.pop_sole() {
        soles = soles.wrapping_add(1);
    }
    let mut receipts = 0usize;
    while let Some(receipt) = out.pop_receipt() {
        receipt.close();
        receipts = receipts.wrapping_add(1);
    }
    out.settle();
    (soles, receipts)
}

/// Puts a part behind the others. Where there is no memory for it, it is given back.
pub fn put(pieces: &mut Pieces, part: Part, from: usize, to: usize, out: &mut Outcomes)
    requires fits { (from < to) × (to ≤ 2048) × (size_of pieces.old < 1000000) × (1 ≤ out.old.spare) }
    ensures left { (length pieces.new ≤ length pieces.old + 1) × (size_of pieces.new ≤ size_of pieces.old + 2048)
        × (out.old.spare ≤ out.new.spare + 1) }
{
    if let Err((part, _)) = pieces.append(part, from, to) {
        out.give_back(part);
    }
}

/// The bytes 0 to 10, 100 to 105 and 50 to 60 of a block, each with a part of its own; and room for eight.
pub fn three_pieces(rt: &impl Abort, alloc: Global) -> (Pieces, Outcomes)
    ensures left { (length result.0 ≤ 3) × (size_of result.0 ≤ 6144) × (5 ≤ result.1.spare) }
{
    let mut out = room_for(rt, alloc, 8);
    let mut block = block(rt, alloc);
    let bytes = block.bytes_mut();
    for i in 0..200u8 {
        bytes[usize::from(i)] = i;
    }
    let mut first = block.share();
    let second = first.split(1 << 60);
    let third = first.split(1 << 60);
    let mut pieces = Pieces::new(alloc);
    put(&mut pieces, first, 0, 10, &mut out);
    put(&mut pieces, second, 100, 105, &mut out);
    put(&mut pieces, third, 50, 60, &mut out);
    (pieces, out)
}

/// The pieces have the bytes `from..to` of the three.
pub fn has_bytes(pieces: &Pieces, from: usize, to: usize) -> bool {
    let mut seen = [0; 25];
    let Some(wanted) = ALL.get(from..to) else {
        return false;
    };
    let size = pieces.len();
    if 25 < size {
        return false;
    }
    pieces.copy_out(0, &mut seen[..size]);
    &seen[..size] == wanted
}
