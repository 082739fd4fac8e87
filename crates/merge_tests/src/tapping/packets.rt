//! Packets whose bytes count, in a head and pieces of chosen sizes.
ghost use Rattle.std.specs.Prelude.{◌≡◌, ◌+◌, ◌<◌, ◌≤◌, IfOk};
ghost use Rattle.frags.specs.PieceList.{size_of};
ghost use Rattle.taps.specs.Clones.{blocks_of};

use frags::{Outcomes, PieceBuilder, Pieces};
use raw_block::Sole;
use skb::Skb;
use std::alloc::{AllocError, Global};
use std::process::Abort;
use tap_filter::Program;
use taps::{TapClone, TapTask};

/// Byte `i` of each packet.
pub fn byte_of(i: usize) -> u8 {
    (i % 251) as u8
}

// A block with the bytes of a packet from `from` on, `size` of them, from its place `place` on.
fn filled(alloc: Global, from: usize, place: usize, size: usize) -> Result<Sole, AllocError>
    requires inside { (from ≤ 300000) × (place + size ≤ 2048) }
{
    let mut block = Sole::new(alloc)?;
    let bytes = block.bytes_mut();
    for i in 0..size {
        bytes[place + i] = byte_of(from + i);
    }
    Ok(block)
}

// Pieces of these blocks, each from its place 5 on.
fn pieces_of(alloc: Global, blocks: Vec<(Sole, usize)>) -> Result<Pieces, AllocError>
    ensures small { IfOk result (λ pieces. size_of pieces ≤ 1002048) }
{
    let mut builder = PieceBuilder::with_room(alloc, blocks.len())?;
    let mut total = 0usize;
    for (block, size) in blocks {
        if 0 < size && size <= 2000 && total <= 1_000_000 && builder.room() > 0 {
            builder.push(block.share(), 5, 5 + size);
            total += size;
        }
    }
    Ok(builder.finish())
}

/// A packet of `len` bytes: at most `head` in the head, the others `piece` a block.
pub fn packet(alloc: Global, len: usize, head: usize, piece: usize) -> Result<Skb, AllocError>
    requires sizes { (len ≤ 300000) × (head ≤ 1984) × (0 < piece) × (piece ≤ 2000) }
{
    let of_head = len.min(head);
    let first = filled(alloc, 0, 64, of_head)?;
    let mut blocks = Vec::new(alloc);
    let mut from = of_head;
    while from < len {
        let size = (len - from).min(piece);
        let block = filled(alloc, from, 5, size)?;
        blocks.push((block, size))?;
        from += size;
    }
    let rest = pieces_of(alloc, blocks)?;
    Ok(Skb::new(first, 64, 64 + of_head, rest))
}

/// The task of a tap with its snap and its filter over a packet of each length, numbered from 0, of these sizes of head
/// and pieces. The packets themselves are given back before.
pub fn task_over<'a, A: Abort>(
    rt: &A,
    alloc: Global,
    reads: (u32, u32),
    filter: Option<&'a Program>,
    sizes: (usize, usize),
    lengths: &[usize],
) -> TapTask<'a>
    requires sizes { (sizes.0 ≤ 1984) × (0 < sizes.1) × (sizes.1 ≤ 2000) }
    ensures places { blocks_of result.clones.items ≤ result.outcomes.spare }
{
    let (tap, snap) = reads;
    let (head, piece) = sizes;
    let mut outcomes = Outcomes::new(alloc);
    assert!(rt; outcomes.reserve(2000).is_ok());
    let mut clones = Vec::with_capacity(alloc, lengths.len()).expect(rt, "no memory");
    for (number, len) in lengths.iter().enumerate() {
        assert!(rt; *len <= 300_000 && number < 1000);
        let mut packet = packet(alloc, *len, head, piece).expect(rt, "no memory");
        let skb = packet.clone().expect(rt, "no clone");
        assert!(rt; packet.count() <= outcomes.spare() && clones.len() < clones.capacity());
        packet.release(&mut outcomes);
        clones.push_reserved(TapClone {
            skb,
            sec: 1000,
            frac: 7,
            original: 70_000,
            number: number as u32,
        });
    }
    let task = TapTask {
        tap,
        snap,
        filter,
        clones,
        outcomes,
    };
    assert!(rt; task.has_room());
    task
}
