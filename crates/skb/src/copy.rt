//! A buffer copied into blocks of its own.
ghost use Rattle.std.specs.Prelude.{◌≡◌, ◌<◌, ◌≤◌, ◌+◌, ◌-◌, ◌*◌, ◌^◌, ◌++◌, [], ℕ, Bool, length, min, take, drop};
ghost use Rattle.std.specs.Prelude.{IfOk};
ghost use Rattle.block_weight.specs.WeightRule.{full_weight};
ghost use Rattle.frags.specs.Account.{every, soles_home};
ghost use Rattle.frags.specs.PieceList.{bytes_of, size_of, pieces_held, least_weight};
ghost use Rattle.skb.specs.SkbState.{SkbState, buffer_bytes, buffer_size, of_buffer};
ghost use Rattle.skb.specs.Copy.{IsCopy, IsNextBlock, blocks_for};

use crate::{HEADROOM, Skb};
use frags::{PieceBuilder, Pieces};
use raw_block::{BLOCK_SIZE, Sole};
use thiserror::Error;

/// Why a buffer isn't copied.
#[derive(Debug, Drop, Error)]
pub enum CopyFault {
    /// The spares that are there, and the blocks that a copy needs.
    #[error("a copy needs {need} blocks, and there are {have}")]
    Empty { have: usize, need: usize },
    #[error("there is no memory for the copy's list of pieces")]
    NoMemory,
}

// The blocks that so many bytes fill.
fn blocks_for(bytes: usize) -> usize
    requires few { bytes < 2 ^ 33 }
    ensures blocks { result ≡ blocks_for bytes }
{
    (bytes + (BLOCK_SIZE - 1)) / BLOCK_SIZE
}

impl Skb {
    /// A buffer of the same bytes that shares nothing, with headroom 64. Its blocks are the last of `spares`: one for
    /// the head and the first 1984 bytes, and one for each 2048 that follow. `Empty` exactly where `spares` has fewer
    /// than these, `ceil((len() + 64) / 2048)`; then memory. A refused call takes none of them.
    pub fn copy(&self, spares: &mut Vec<Sole>) -> Result<Skb, CopyFault>
        ensures copy { IsCopy self.now spares.old.items spares.new.items result }
        ensures marks { IfOk result (λ c. (bs : ℕ → Bool) (m : ℕ)
            → (of_buffer c).held (every bs) m + full_weight
            * ((of_buffer c).homes bs m + soles_home bs m spares.new.items) ≡ full_weight
            * soles_home bs m spares.old.items) }
    {
        let len = self.len();
        let need = blocks_for(len + HEADROOM);
        if spares.len() < need {
            return Err(CopyFault::Empty {
                have: spares.len(),
                need,
            });
        }
        let Ok(blocks) = PieceBuilder::with_room(self.rest.allocator(), need - 1) else {
            return Err(CopyFault::NoMemory);
        };
        let Some(mut head) = spares.pop() else {
            unreachable!()
        };
        let of_head = len.min(BLOCK_SIZE - HEADROOM);
        self.copy_into(0, &mut head, HEADROOM, of_head);
        let rest = self.copy_blocks(of_head, spares, blocks);
        Ok(Skb::new(head, HEADROOM, HEADROOM + of_head, rest))
    }

    // The bytes from a place on, in blocks from the end of `spares`.
    fn copy_blocks(&self, from: usize, spares: &mut Vec<Sole>, none: PieceBuilder) -> Pieces
        requires empty { none.pieces ≡ [] }
        requires room { blocks_for (buffer_size self.now - from) ≤ none.room }
        requires spares { blocks_for (buffer_size self.now - from) ≤ length spares.old.items }
        requires within { from ≤ buffer_size self.now }
        ensures bytes { bytes_of result ≡ drop from (buffer_bytes self.now) }
        ensures size { size_of result ≡ buffer_size self.now - from }
        ensures count { length result ≡ blocks_for (buffer_size self.now - from) }
        ensures whole { least_weight result ≡ full_weight }
        ensures spares { spares.new.items ≡ take (length spares.old.items
            - blocks_for (buffer_size self.now - from)) spares.old.items }
        ensures marks { (bs : ℕ → Bool) (m : ℕ) → pieces_held (every bs) m result + full_weight
            * soles_home bs m spares.new.items ≡ full_weight * soles_home bs m spares.old.items }
    {
        let len = self.len();
        let mut copied = none;
        let mut at = from;
        while at < len {
            at = self.copy_block(at, spares, &mut copied);
        }
        copied.finish()
    }

    // Copies the bytes from a place on, as many as fit a block, into the last spare, and answers where they end.
    fn copy_block(&self, at: usize, spares: &mut Vec<Sole>, copied: &mut PieceBuilder) -> usize
        requires within { at < buffer_size self.now }
        requires spares { 1 ≤ length spares.old.items }
        requires room { 1 ≤ copied.old.room }
        requires small { size_of copied.old.pieces + (buffer_size self.now - at) < 2 ^ 32 }
        ensures end { result ≡ at + min (buffer_size self.now - at) 2048 }
        ensures block { IsNextBlock self.now at spares.old.items copied.old.pieces spares.new.items copied.new.pieces }
        ensures room { copied.new.room + 1 ≡ copied.old.room }
    {
        let n = (self.len() - at).min(BLOCK_SIZE);
        let Some(mut block) = spares.pop() else {
            unreachable!()
        };
        self.copy_into(at, &mut block, 0, n);
        copied.push(block.share(), 0, n);
        at + n
    }
}
