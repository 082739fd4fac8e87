//! A list of pieces that is put together in places that were reserved before.
ghost use Rattle.std.specs.Prelude.{◌≡◌, ◌+◌, ◌-◌, ◌<◌, ◌≤◌, ◌^◌, [], ◌∷◌, ◌++◌, length, IfOk};
ghost use Rattle.frags.specs.Account.{Keeps, both, of_part};
ghost use Rattle.frags.specs.PieceList.{size_of, of_pieces};

use crate::{Piece, Pieces};
use raw_block::Part;
use std::alloc::{AllocError, Global};
use std::collections::VecDeque;
use std::marker::Model;

/// Pieces in order, and room for more of them, so that putting one behind takes no memory. It must be spent: finished.
pub struct PieceBuilder {
    /// With room behind them for those that are still to come.
    items: VecDeque<Piece>,
    /// How many bytes the pieces have together, fewer than 2^32.
    size: usize,
}

impl Model for PieceBuilder {
    ghost use Rattle.std.specs.Prelude.{◌≡◌, ◌<◌, ◌^◌, ◌-◌};
    ghost use Rattle.std.specs.VecDeque.{deque_len, deque_capacity};
    ghost use Rattle.frags.specs.BuilderState.{BuilderState};

    ghost Value = { BuilderState };

    ghost use Rattle.frags.specs.PieceList.{size_of, AllFit};

    ghost view = { λ b. record { pieces = b.items.items; room = deque_capacity b.items - deque_len b.items } };

    ghost invariant = { λ b. (b.size ≡ size_of b.items.items) × (b.size < 2 ^ 32) × AllFit b.items.items };
}

impl PieceBuilder {
    /// No pieces, and room for `n`.
    pub fn with_room(alloc: Global, n: usize) -> Result<PieceBuilder, AllocError>
        ensures empty { IfOk result (λ b. b.pieces ≡ []) }
        ensures room { IfOk result (λ b. n ≤ b.room) }
    {
        let items = VecDeque::with_capacity(alloc, n)?;
        Ok(PieceBuilder { items, size: 0 })
    }

    /// The number of pieces that there is room for.
    pub fn room(&self) -> usize
        ensures value { result ≡ self.now.room }
    {
        self.items.capacity() - self.items.len()
    }

    /// The bytes `from..to` of a part stand behind the others, uncopied. It takes no memory.
    pub fn push(&mut self, part: Part, from: usize, to: usize)
        requires range { (from < to) × (to ≤ 2048) }
        requires reserved { 1 ≤ self.old.room }
        requires small { size_of self.old.pieces + (to - from) < 2 ^ 32 }
        ensures pushed { self.new.pieces ≡ self.old.pieces ++ (record { part = part; from = from; to = to }) ∷ [] }
        ensures room { self.new.room + 1 ≡ self.old.room }
        ensures kept { Keeps (both (of_pieces self.old.pieces) (of_part part)) (of_pieces self.new.pieces) }
    {
        let _ = part.bytes();
        let _ = part.weight();
        self.items.push_back_reserved(Piece { part, from, to });
        self.size += to - from;
    }

    /// The pieces of a list stand behind the others, uncopied. It takes no memory.
    pub fn append(&mut self, pieces: Pieces)
        requires reserved { length pieces ≤ self.old.room }
        requires small { size_of self.old.pieces + size_of pieces < 2 ^ 32 }
        ensures appended { self.new.pieces ≡ self.old.pieces ++ pieces }
        ensures room { self.old.room ≤ self.new.room + length pieces }
        ensures kept { Keeps (both (of_pieces self.old.pieces) (of_pieces pieces)) (of_pieces self.new.pieces) }
    {
        let Pieces { mut items, size } = pieces;
        match self.items.append(&mut items) {
            Ok(()) => {
                items.destroy_empty();
                self.size += size;
            }
            Err(_) => unreachable!(),
        }
    }

    /// The list of the pieces.
    pub fn finish(self) -> Pieces
        ensures pieces { result ≡ self.pieces }
    {
        let PieceBuilder { items, size } = self;
        Pieces { items, size }
    }
}
