//! The blocks of a record.
ghost use Rattle.std.specs.Prelude.{◌≡◌, ℕ, ◌+◌, ◌-◌, ◌/◌, ◌<◌, ◌≤◌, ◌^◌, [], ◌∷◌, ◌++◌, min, length};
ghost use Rattle.std.specs.List.{sum_by};
ghost use Rattle.std.specs.VecDeque.{deque_capacity};
ghost use Rattle.block_pool.specs.PoolState.{home, weighed};
ghost use Rattle.frags.specs.PieceList.{size_of, bytes_of};
ghost use Rattle.frags.specs.declared.pieces.Piece.{Piece};
ghost use Rattle.skb.specs.SkbState.{buffer_bytes, buffer_size, weighed_in, IsAlone};
ghost use Rattle.reading.specs.Data.{data_of};
ghost use Rattle.reading.specs.Laid.{MarkedFrom, WholeFrom, most_original, most_read, most_short};
ghost use Rattle.offload_model.specs.Need.{data_blocks};
ghost use Rattle.reading.specs.Bodies.{Adds, IsPacketOf};

use block_pool::{Empty, Pool};
use frags::{PieceBuilder, Pieces};
use gro::{Packets, Slot};
use pcap_io::RecHead;
use raw_block::{BLOCK_SIZE, Sole};
use skb::{HEADROOM, Skb};
use std::alloc::Global;
use std::collections::VecDeque;

/// How many blocks hold `len` bytes behind their headroom.
pub(crate) fn blocks_of(len: u32) -> u32
    requires few { len ≤ most_read }
    ensures blocks { result ≡ data_blocks len }
{
    (len + 2111) / 2048
}

/// Takes a block from the pool, and marks it.
pub(crate) fn take_block(pool: &mut Pool, mark: u32) -> Sole
    requires home { 1 ≤ home pool.old }
    ensures mark { result.mark ≡ mark }
    ensures home { home pool.new + 1 ≡ home pool.old }
    ensures named { (h : ℕ → ℕ) → weighed h pool.new.blocks + h result.block ≡ weighed h pool.old.blocks }
    ensures made { pool.new.made ≡ pool.old.made }
    ensures taken { pool.new.taken ≡ min (pool.old.taken + 1) (2 ^ 64 - 1) }
{
    match pool.take() {
        Ok(block) => {
            let mut block = block;
            block.set_mark(mark);
            block
        }
        Err(Empty) => unreachable!(),
    }
}

/// Takes n blocks from the pool, and marks them in turn.
pub(crate) fn take_blocks(pool: &mut Pool, hold: &mut VecDeque<Sole>, n: u32, first: u32)
    requires room { n ≤ home pool.old }
    requires empty { hold.old.items ≡ [] }
    requires capacity { n ≤ deque_capacity hold.old }
    requires range { first + n < 2 ^ 32 }
    ensures marks { MarkedFrom first hold.new.items }
    ensures count { length hold.new.items ≡ n }
    ensures home { home pool.new + n ≡ home pool.old }
    ensures named { (h : ℕ → ℕ) → weighed h pool.new.blocks + weighed h hold.new.items ≡ weighed h pool.old.blocks }
    ensures made { pool.new.made ≡ pool.old.made }
    ensures taken { pool.new.taken ≡ min (pool.old.taken + n) (2 ^ 64 - 1) }
    ensures capacity { deque_capacity hold.new ≡ deque_capacity hold.old }
{
    let _ = pool.taken();
    for i in 0..n {
        let block = take_block(pool, first + i);
        hold.push_back_reserved(block);
    }
}

/// Blocks that were taken for a record go home again.
pub(crate) fn put_back(pool: &mut Pool, first: Sole, hold: &mut VecDeque<Sole>)
    requires room { home pool.old + (length hold.old.items + 1) ≤ pool.old.made }
    ensures empty { hold.new.items ≡ [] }
    ensures home { home pool.new ≡ home pool.old + (length hold.old.items + 1) }
    ensures named { (h : ℕ → ℕ) → weighed h pool.new.blocks
        ≡ weighed h pool.old.blocks + (h first.block + weighed h hold.old.items) }
    ensures made { (pool.new.made ≡ pool.old.made) × (pool.new.taken ≡ pool.old.taken) }
    ensures capacity { deque_capacity hold.new ≡ deque_capacity hold.old }
{
    pool.put(first);
    while let Some(sole) = hold.pop_front() {
        pool.put(sole);
    }
}

// The next of the blocks.
fn next_block(hold: &mut VecDeque<Sole>) -> Sole
    requires some { 1 ≤ length hold.old.items }
    ensures next { hold.old.items ≡ result ∷ hold.new.items }
    ensures capacity { deque_capacity hold.new ≡ deque_capacity hold.old }
{
    match hold.pop_front() {
        Some(sole) => sole,
        None => unreachable!(),
    }
}

// The pieces behind a record's head: `size` bytes in the next blocks, each shared.
fn build_pieces(hold: &mut VecDeque<Sole>, builder: PieceBuilder, size: usize, first: u32) -> Pieces
    requires empty { builder.pieces ≡ [] }
    requires marks { MarkedFrom first hold.old.items }
    requires blocks { (size + 2047) / 2048 ≤ length hold.old.items }
    requires room { (size + 2047) / 2048 ≤ builder.room }
    requires small { size < 2 ^ 32 }
    ensures whole { WholeFrom first result }
    ensures count { length result ≡ (size + 2047) / 2048 }
    ensures size { size_of result ≡ size }
    ensures bytes { bytes_of result ≡ data_of 0 size hold.old.items }
    ensures marks { MarkedFrom (first + length result) hold.new.items }
    ensures rest { length hold.new.items + length result ≡ length hold.old.items }
    ensures named { (h : ℕ → ℕ) → sum_by (λ (p : Piece). h p.part.life.block) result + weighed h hold.new.items
        ≡ weighed h hold.old.items }
    ensures capacity { deque_capacity hold.new ≡ deque_capacity hold.old }
{
    let mut builder = builder;
    let mut left = size;
    while left > 0 {
        let block = next_block(hold);
        let count = left.min(BLOCK_SIZE);
        builder.push(block.share(), 0, count);
        left -= count;
    }
    builder.finish()
}

// A buffer and its record's header go behind the packets that there are.
#[inline(always)]
fn push_packet(skb: Skb, head: RecHead, packets: &mut Packets)
    requires place { 1 ≤ packets.old.room }
    ensures items { packets.new.items ≡ packets.old.items ++ (record {
      skb = skb;
      sec = head.sec;
      frac = head.frac;
      original = head.original;
      number = head.number;
    }) ∷ [] }
    ensures room { packets.old.room ≤ packets.new.room + 1 }
    ensures size { buffer_size skb ≡ length (buffer_bytes skb) }
    ensures range { (head.number < 2 ^ 32) × (head.sec < 2 ^ 32) × (head.frac < 2 ^ 32) }
{
    let _ = skb.len();
    packets.push(Slot {
        skb,
        sec: head.sec,
        frac: head.frac,
        original: head.original,
        number: head.number,
    });
}

/// A record's packet, of the blocks that were taken for it, behind the packets that there are: `len` bytes behind the
/// headroom of the first. Blocks behind the first are shared, so that pieces have them; nobody else holds any.
#[inline(always)]
pub(crate) fn make_packet(
    block: Sole,
    hold: &mut VecDeque<Sole>,
    builder: PieceBuilder,
    head: &RecHead,
    len: u32,
    first: u32,
    packets: &mut Packets,
)
    requires len { len ≤ most_read }
    requires empty { builder.pieces ≡ [] }
    requires room { data_blocks len ≤ builder.room + 1 }
    requires mark { block.mark ≡ first }
    requires marks { MarkedFrom (first + 1) hold.old.items }
    requires count { length hold.old.items + 1 ≡ data_blocks len }
    requires range { first + 1 < 2 ^ 32 }
    requires original { head.now.original ≤ most_original }
    requires place { 1 ≤ packets.old.room }
    ensures made { Adds packets.old packets.new (IsPacketOf first len head.now (block ∷ hold.old.items)) }
    ensures none { hold.new.items ≡ [] }
    ensures capacity { deque_capacity hold.new ≡ deque_capacity hold.old }
{
    let size = len as usize;
    let in_head = size.min(BLOCK_SIZE - HEADROOM);
    let rest = build_pieces(hold, builder, size - in_head, first + 1);
    let skb = Skb::new(block, HEADROOM, HEADROOM + in_head, rest);
    push_packet(skb, *head, packets);
}

/// The same of a record that one block holds: it has no pieces, and asks for no memory.
#[inline(always)]
pub(crate) fn make_short(
    alloc: Global,
    block: Sole,
    head: &RecHead,
    len: u32,
    packets: &mut Packets,
)
    requires short { len ≤ most_short }
    requires original { head.now.original ≤ most_original }
    requires place { 1 ≤ packets.old.room }
    ensures made { Adds packets.old packets.new (IsPacketOf block.mark len head.now (block ∷ [])) }
{
    let none = Pieces::new(alloc);
    let skb = Skb::new(block, HEADROOM, HEADROOM + len as usize, none);
    push_packet(skb, *head, packets);
}

/// The blocks of a buffer that nobody else holds go home: just these, by their names.
pub fn bring_blocks(pool: &mut Pool, skb: Skb)
    requires alone { IsAlone skb }
    requires room { home pool.old + (length skb.rest + 1) ≤ pool.old.made }
    ensures home { home pool.new ≡ home pool.old + (length skb.rest + 1) }
    ensures blocks { (h : ℕ → ℕ) → weighed h pool.new.blocks ≡ weighed h pool.old.blocks + weighed_in h skb }
    ensures made { (pool.new.made ≡ pool.old.made) × (pool.new.taken ≡ pool.old.taken) }
{
    let (head, mut rest) = skb.into_blocks();
    pool.put(head);
    while let Some(block) = rest.pop_block() {
        pool.put(block);
    }
    rest.discard();
}
