//! Pieces of shared blocks, as one run of bytes.
ghost use Rattle.std.specs.Prelude.{◌≡◌, ℕ, ◌+◌, ◌-◌, ◌<◌, ◌≤◌, ◌^◌, [], ◌∷◌, ◌++◌, length, MatchResult, MatchOption};
ghost use Rattle.std.specs.Prelude.{IfOk, IfErr, IfSome, IfNone, drop, take, min, slice_index_or, slice_range};
ghost use Rattle.std.specs.Prelude.{◌≢◌, All, Bool, false};
ghost use Rattle.frags.specs.declared.pieces.Piece.{Piece};
ghost use Rattle.frags.specs.declared.holder.Holder.{Holder};
ghost use Rattle.raw_block.specs.Views.{PartState};
ghost use Rattle.frags.specs.Account.{Tests, Keeps, KeepsBlocks, KeepsMarks, both, of_part, of_holder, of_outcomes};
ghost use Rattle.frags.specs.Growth.{Grows};
ghost use Rattle.frags.specs.Gifts.{IsShare, IsSplit, front, cut_worn, worn};
ghost use Rattle.frags.specs.Holders.{IsAppend};
ghost use Rattle.frags.specs.PieceList.{bytes_of, piece_bytes, pieces_held, Fits, AllFit, size_of, of_pieces, byte_in};
ghost use Rattle.frags.specs.PieceList.{AreWhole};
ghost use Rattle.frags.specs.PieceList.{keep_front, least_weight, cut_front};
ghost use Rattle.frags.specs.Returns.{sole_of, ReturnsPart, ReturnsPieces};

use crate::cuts::split_into;
use crate::{Holder, Outcomes, give_share};
use core::mem::replace;
use raw_block::{FULL, Part, Released, Sole};
use std::alloc::{AllocError, Global};
use std::collections::VecDeque;
use std::marker::Model;
use thiserror::Error;

/// The bytes `from` to `to` of a part's block.
pub struct Piece {
    /// The piece's own hold on the block.
    pub part: Part,
    /// Where its bytes begin in the block, below `to`.
    pub from: usize,
    /// The place behind its last byte, at most 2048.
    pub to: usize,
}

/// A list of pieces of blocks that others may hold too, as one run of fewer than 2^32 bytes. It must be spent:
/// released.
pub struct Pieces {
    /// In the order of their bytes. None is empty.
    pub(crate) items: VecDeque<Piece>,
    /// How many bytes the pieces have together.
    pub(crate) size: usize,
}

impl Model for Pieces {
    ghost use Rattle.std.specs.Prelude.{List, ◌≡◌, ◌<◌, ◌^◌};
    ghost use Rattle.frags.specs.declared.pieces.Piece.{Piece};

    ghost Value = { List Piece };

    ghost use Rattle.frags.specs.PieceList.{size_of, AllFit};

    ghost view = { λ p. p.items.items };

    ghost invariant = { λ p. (p.size ≡ size_of p.items.items) × (p.size < 2 ^ 32) × AllFit p.items.items };
}

/// Why shared pieces aren't shared or cut.
#[derive(Debug, Drop, Error)]
pub enum ShareFault {
    /// The cut was asked for behind the end: the bytes that there are, and its place.
    #[error("a cut at {need} is behind the end of {have} bytes")]
    Short { have: usize, need: usize },
    /// A part of weight 1 has nothing to give.
    #[error("a part has no weight to give")]
    Worn,
    /// There is no memory for the second list.
    #[error("there is no memory for a second list of pieces")]
    NoMemory,
}

/// More bytes were asked for than there are: both numbers.
#[derive(Debug, Drop, Error)]
#[error("{need} bytes were asked for, and there are {have}")]
pub struct Short {
    pub have: usize,
    pub need: usize,
}

impl Pieces {
    /// No pieces.
    pub fn new(alloc: Global) -> Pieces
        ensures empty { result ≡ [] }
        ensures held { (t : Tests) (m : ℕ) → pieces_held t m result ≡ 0 }
    {
        Pieces {
            items: VecDeque::new(alloc),
            size: 0,
        }
    }

    /// The number of bytes.
    pub fn len(&self) -> usize
        ensures size { result ≡ size_of self.now }
        ensures bytes { result ≡ length (bytes_of self.now) }
        ensures small { result < 2 ^ 32 }
        ensures fits { AllFit self.now }
    {
        self.size
    }

    /// The number of pieces.
    pub fn count(&self) -> usize
        ensures count { result ≡ length self.now }
        ensures within { result ≤ size_of self.now }
    {
        self.items.len()
    }

    /// Some part weighs 1, and has nothing to give.
    pub fn is_worn(&self) -> bool
        ensures worn { result ≡ worn self.now }
    {
        for i in 0..self.items.len() {
            let piece = &self.items[i];
            if piece.part.weight() == 1 {
                return true;
            }
        }
        false
    }

    /// The least weight of a part, `FULL` where there is none.
    pub fn least_weight(&self) -> u64
        ensures least { result ≡ least_weight self.now }
    {
        let mut least = FULL;
        for i in 0..self.items.len() {
            least = least.min(self.items[i].part.weight());
        }
        least
    }

    /// The byte at a place.
    pub fn byte_at(&self, i: usize) -> u8
        requires within { i < size_of self.now }
        ensures byte { (d : ℕ) → result ≡ slice_index_or (bytes_of self.now) i d }
    {
        self.find_byte(i)
    }

    /// Copies the bytes from the place `at` on over `into`, as many as it has, in one pass over the pieces.
    pub fn copy_out(&self, at: usize, into: &mut [u8])
        requires within { at + length into.old ≤ size_of self.now }
        ensures bytes { into.new ≡ slice_range (bytes_of self.now) at (at + length into.old) }
    {
        let mut skip = at;
        let mut done = 0usize;
        for i in 0..self.items.len() {
            if done == into.len() {
                return;
            }
            let bytes = bytes_in(&self.items[i]);
            let start = skip.min(bytes.len());
            done = copy_on(into, done, &bytes[start..]);
            skip -= start;
        }
    }

    /// A Sole that stands beside pieces is of no block of theirs.
    pub fn differ_from(&mut self, sole: &mut Sole)
        ensures others { All (λ p. p.part.life.block ≢ sole.old.block) self.old }
        ensures same { (self.new ≡ self.old) × (sole.new ≡ sole.old) }
    {
        for i in 0..self.items.len() {
            sole.differ_from_part(&mut self.items[i].part);
        }
    }

    /// The bytes of the i-th piece, uncopied.
    pub fn slice(&self, i: usize) -> &[u8]
        requires within { i < length self.now }
        ensures bytes { (d : Piece) → result.now ≡ piece_bytes (slice_index_or self.now i d) }
    {
        bytes_in(&self.items[i])
    }

    /// The allocator that the list takes its places from.
    pub fn allocator(&self) -> Global {
        *self.items.allocator()
    }

    /// The bytes `from..to` of a part follow, uncopied. Where there is no memory for a piece more the part comes back.
    pub fn append(&mut self, part: Part, from: usize, to: usize) -> Result<(), (Part, AllocError)>
        requires range { (from < to) × (to ≤ 2048) }
        requires small { size_of self.old + (to - from) < 2 ^ 32 }
        ensures appended { MatchResult result (λ _. self.new ≡ self.old
            ++ (record { part = part; from = from; to = to }) ∷ []) (λ e. (self.new ≡ self.old) × (e.0 ≡ part)) }
        ensures kept { IfOk result (λ _. Keeps (both (of_pieces self.old) (of_part part)) (of_pieces self.new)) }
        ensures back { IfErr result (λ e. Keeps (both (of_pieces self.old) (of_part part))
            (both (of_pieces self.new) (of_part e.0))) }
    {
        let _ = part.bytes();
        let _ = part.weight();
        match self.items.push_back(Piece { part, from, to }) {
            Ok(()) => {
                self.size += to - from;
                Ok(())
            }
            Err(refused) => {
                let Piece {
                    part,
                    from: _,
                    to: _,
                } = refused.value;
                Err((part, AllocError))
            }
        }
    }

    /// A holder's bytes `from..to` follow, and other pieces after them, uncopied. A Sole becomes a part, once there is
    /// memory; where there is none both come back as they were.
    pub fn append_all(
        &mut self,
        holder: Holder,
        from: usize,
        to: usize,
        others: Pieces,
    ) -> Result<(), (Holder, Pieces, AllocError)>
        requires range { (from < to) × (to ≤ 2048) }
        requires small { size_of self.old + (to - from) + size_of others < 2 ^ 32 }
        ensures appended { IsAppend self.old holder from to others self.new result }
        ensures kept { IfOk result (λ _. (p : PartState) → holder ≡ Holder.Part p
            → Keeps (both (of_pieces self.old) (both (of_part p) (of_pieces others))) (of_pieces self.new)) }
        ensures marks { IfOk result (λ _. KeepsMarks (both (of_pieces self.old)
            (both (of_holder holder) (of_pieces others))) (of_pieces self.new)) }
        ensures back { IfErr result (λ e. Keeps (both (of_pieces self.old) (both (of_holder holder) (of_pieces others)))
            (both (of_pieces self.new) (both (of_holder e.0) (of_pieces e.1)))) }
    {
        if self.items.reserve(others.items.len() + 1).is_err() {
            return Err((holder, others, AllocError));
        }
        let Pieces {
            items: mut following,
            size,
        } = others;
        let part = holder.into_part();
        let _ = part.bytes();
        let _ = part.weight();
        self.items.push_back_reserved(Piece { part, from, to });
        self.size += to - from + size;
        match self.items.append(&mut following) {
            Ok(()) => {
                following.destroy_empty();
                Ok(())
            }
            Err(_) => unreachable!(),
        }
    }

    /// The other's pieces follow, uncopied. Where there is no memory for them the other comes back.
    pub fn join_back(&mut self, other: Pieces) -> Result<(), (Pieces, AllocError)>
        requires small { size_of self.old + size_of other < 2 ^ 32 }
        ensures joined { MatchResult result (λ _. self.new ≡ self.old ++ other)
            (λ e. (self.new ≡ self.old) × (e.0 ≡ other)) }
        ensures kept { IfOk result (λ _. Keeps (both (of_pieces self.old) (of_pieces other)) (of_pieces self.new)) }
        ensures back { IfErr result (λ e. Keeps (both (of_pieces self.old) (of_pieces other))
            (both (of_pieces self.new) (of_pieces e.0))) }
    {
        let Pieces { mut items, size } = other;
        match self.items.append(&mut items) {
            Ok(()) => {
                items.destroy_empty();
                self.size += size;
                Ok(())
            }
            Err(error) => Err((Pieces { items, size }, error)),
        }
    }

    /// All pieces move out, and none are left. It takes no memory.
    pub fn take(&mut self) -> Pieces
        ensures taken { result ≡ self.old }
        ensures empty { self.new ≡ [] }
    {
        let none = VecDeque::new(*self.items.allocator());
        let items = replace(&mut self.items, none);
        let size = self.size;
        self.size = 0;
        Pieces { items, size }
    }

    /// The first `n` bytes are gone. Pieces that are wholly cut are given back. `Short` exactly where `n > len()`.
    #[tactic(auto, using(crate::proofs::PieceBytes::cut_bytes))]
    pub fn cut_front(&mut self, n: usize, out: &mut Outcomes) -> Result<(), Short>
        requires spare { length self.old ≤ out.old.spare }
        ensures spans { MatchResult result (λ _. (n ≤ size_of self.old) × (self.new ≡ cut_front n self.old))
            (λ e. (e.have ≡ size_of self.old) × (e.need ≡ n) × (size_of self.old < n) × (self.new ≡ self.old)
            × (out.new ≡ out.old)) }
        ensures bytes { IfOk result (λ _. bytes_of self.new ≡ drop n (bytes_of self.old)) }
        ensures kept { Keeps (both (of_pieces self.old) (of_outcomes out.old))
            (both (of_pieces self.new) (of_outcomes out.new)) }
        ensures fewer { length self.new ≤ length self.old }
        ensures grows { Grows (length self.old - length self.new) out.old out.new }
        ensures places { out.old.spare + length self.new ≤ out.new.spare + length self.old }
    {
        if self.size < n {
            return Err(Short {
                have: self.size,
                need: n,
            });
        }
        let mut left = n;
        while let Some(mut piece) = self.items.pop_front() {
            let size = piece.to - piece.from;
            if left < size {
                piece.from += left;
                self.size -= left;
                self.items.push_front_reserved(piece);
                return Ok(());
            }
            left -= size;
            self.size -= size;
            give_back(piece, out);
        }
        Ok(())
    }

    /// The last `n` bytes are gone. Pieces that are wholly cut are given back. `Short` exactly where `n > len()`.
    pub fn cut_back(&mut self, n: usize, out: &mut Outcomes) -> Result<(), Short>
        requires spare { length self.old ≤ out.old.spare }
        ensures cut { MatchResult result (λ _. (n ≤ size_of self.old)
            × (self.new ≡ keep_front (size_of self.old - n) self.old))
            (λ e. (e.have ≡ size_of self.old) × (e.need ≡ n) × (size_of self.old < n) × (self.new ≡ self.old)
            × (out.new ≡ out.old)) }
        ensures bytes { IfOk result (λ _. bytes_of self.new ≡ take (size_of self.old - n) (bytes_of self.old)) }
        ensures kept { Keeps (both (of_pieces self.old) (of_outcomes out.old))
            (both (of_pieces self.new) (of_outcomes out.new)) }
        ensures fewer { length self.new ≤ length self.old }
        ensures grows { Grows (length self.old - length self.new) out.old out.new }
        ensures places { out.old.spare + length self.new ≤ out.new.spare + length self.old }
    {
        if self.size < n {
            return Err(Short {
                have: self.size,
                need: n,
            });
        }
        let keep = self.size - n;
        while let Some(mut piece) = self.items.pop_back() {
            let start = self.size - (piece.to - piece.from);
            if start < keep {
                piece.to = piece.from + (keep - start);
                self.size = keep;
                self.items.push_back_reserved(piece);
                return Ok(());
            }
            self.size = start;
            give_back(piece, out);
        }
        Ok(())
    }

    /// A second list of the same bytes, uncopied. Each part gives `max(1, weight / 4096)` away and keeps its life.
    /// `Worn` exactly where some part weighs 1, which is judged before memory. A refusal changes nothing.
    pub fn share(&mut self) -> Result<Pieces, ShareFault>
        ensures share { IsShare self.old self.new result }
        ensures same { IfErr result (λ _. self.new ≡ self.old) }
        ensures count { IfOk result (λ c. (length self.new ≡ length self.old) × (length c ≡ length self.old)) }
        ensures sizes { IfOk result (λ c. (size_of self.new ≡ size_of self.old) × (size_of c ≡ size_of self.old)) }
        ensures bytes { IfOk result (λ c. (bytes_of self.new ≡ bytes_of self.old) × (bytes_of c ≡ bytes_of self.old)) }
        ensures sums { IfOk result (λ c. (t : Tests) (m : ℕ)
            → pieces_held t m self.new + pieces_held t m c ≡ pieces_held t m self.old) }
    {
        if self.is_worn() {
            return Err(ShareFault::Worn);
        }
        let n = self.items.len();
        let Ok(mut items) = VecDeque::with_capacity(*self.items.allocator(), n) else {
            return Err(ShareFault::NoMemory);
        };
        for i in 0..n {
            let piece = &mut self.items[i];
            let part = give_share(&mut piece.part);
            items.push_back_reserved(Piece {
                part,
                from: piece.from,
                to: piece.to,
            });
        }
        Ok(Pieces {
            items,
            size: self.size,
        })
    }

    /// Keeps the first `at` bytes, and answers the rest, as std's `split_off` does. `Short` exactly where `at > len()`;
    /// then `Worn` exactly where `at` falls inside a piece whose part weighs 1; then memory. Of a part that is cut the
    /// front keeps `max(1, weight / 4096)`, and the rest what remains. A refusal changes nothing.
    pub fn split_at(&mut self, at: usize) -> Result<Pieces, ShareFault>
        ensures split { IsSplit at self.old self.new result }
        ensures same { IfErr result (λ _. self.new ≡ self.old) }
        ensures count { IfOk result (λ c. length self.new + length c ≤ length self.old + 1) }
        ensures sizes { IfOk result (λ c. size_of self.new + size_of c ≡ size_of self.old) }
        ensures bytes { IfOk result (λ c. (bytes_of self.old ≡ bytes_of self.new ++ bytes_of c)
            × (size_of self.new ≡ at)) }
        ensures sums { IfOk result (λ c. (t : Tests) (m : ℕ)
            → pieces_held t m self.new + pieces_held t m c ≡ pieces_held t m self.old) }
    {
        if self.size < at {
            return Err(ShareFault::Short {
                have: self.size,
                need: at,
            });
        }
        let (count, is_worn) = self.cut_at(at);
        if is_worn {
            return Err(ShareFault::Worn);
        }
        let Ok(mut first) = VecDeque::with_capacity(*self.items.allocator(), count) else {
            return Err(ShareFault::NoMemory);
        };
        split_into(&mut self.items, &mut first, at);
        let items = replace(&mut self.items, first);
        let size = self.size - at;
        self.size = at;
        Ok(Pieces { items, size })
    }

    /// Spends an empty list. It takes no memory, and no outcomes.
    pub fn discard(self)
        requires empty { self ≡ [] }
    {
        let Pieces { items, size: _ } = self;
        items.destroy_empty();
    }

    /// Gives all parts back, frees the blocks that nobody else holds, and answers how many these are: all of them where
    /// each part has all the weight of its block. It takes no memory, and no outcomes.
    pub fn free(self) -> usize
        ensures few { result ≤ length self }
        ensures whole { AreWhole self → result ≡ length self }
    {
        let _ = self.count();
        let mut freed = 0;
        let Pieces { mut items, size: _ } = self;
        while let Some(piece) = items.pop_front() {
            let Piece {
                part,
                from: _,
                to: _,
            } = piece;
            freed += Holder::Part(part).free();
        }
        items.destroy_empty();
        freed
    }

    /// The block of the first piece, where nobody else holds the blocks of any. None exactly where there is no piece.
    pub fn pop_block(&mut self) -> Option<Sole>
        requires whole { AreWhole self.old }
        ensures some { IfSome result (λ block. (piece : Piece) × (self.old ≡ piece ∷ self.new)
            × (block ≡ sole_of piece.part)) }
        ensures whole { AreWhole self.new }
        ensures none { IfNone result ((self.old ≡ []) × (self.new ≡ [])) }
    {
        let Piece { part, from, to } = self.items.pop_front()?;
        self.size -= to - from;
        match part.release() {
            Released::Last(block) => Some(block),
            Released::Left(receipt) => {
                receipt.close();
                unreachable!()
            }
        }
    }

    /// Gives all parts back, the first piece's first.
    pub fn release(self, out: &mut Outcomes)
        requires spare { length self ≤ out.old.spare }
        ensures returned { ReturnsPieces self out.old out.new }
        ensures kept { Keeps (both (of_pieces self) (of_outcomes out.old)) (of_outcomes out.new) }
        ensures blocks { KeepsBlocks (both (of_pieces self) (of_outcomes out.old)) (of_outcomes out.new) }
        ensures grows { Grows (length self) out.old out.new }
        ensures places { out.old.spare ≤ out.new.spare + length self }
    {
        let Pieces { mut items, size: _ } = self;
        while let Some(piece) = items.pop_front() {
            give_back(piece, out);
        }
        items.destroy_empty();
    }

    fn find_byte(&self, i: usize) -> u8
        requires within { i < size_of self.now }
        ensures byte { result ≡ byte_in i self.now }
        ensures fits { AllFit self.now }
    {
        let mut left = i;
        for k in 0..self.items.len() {
            let piece = &self.items[k];
            let size = piece.to - piece.from;
            if left < size {
                return piece.part.bytes()[piece.from + left];
            }
            left -= size;
        }
        unreachable!()
    }

    // How many pieces the first `at` bytes are, and whether the part that is cut there has nothing to give.
    fn cut_at(&self, at: usize) -> (usize, bool)
        ensures count { result.0 ≡ length (front at self.now) }
        ensures worn { result.1 ≡ cut_worn at self.now }
    {
        let mut left = at;
        for i in 0..self.items.len() {
            let piece = &self.items[i];
            let size = piece.to - piece.from;
            if left < size {
                if left == 0 {
                    return (i, false);
                }
                return (i + 1, piece.part.weight() == 1);
            }
            left -= size;
        }
        (self.items.len(), false)
    }
}

// The bytes of a piece.
fn bytes_in(piece: &Piece) -> &[u8]
    requires fits { Fits piece.now }
    ensures bytes { result.now ≡ piece_bytes piece.now }
{
    &piece.part.bytes()[piece.from..piece.to]
}

// Copies bytes over `into` from the place `done` on, as many as fit, and answers where they end.
fn copy_on(into: &mut [u8], done: usize, bytes: &[u8]) -> usize
    requires within { done ≤ length into.old }
    ensures end { result ≡ done + min (length bytes.now) (length into.old - done) }
    ensures written { take result into.new ≡ take done into.old ++ take (result - done) bytes.now }
    ensures size { length into.new ≡ length into.old }
{
    let n = bytes.len().min(into.len() - done);
    into[done..done + n].copy_from_slice(&bytes[..n]);
    done + n
}

// A piece that is gone gives its part back.
fn give_back(piece: Piece, out: &mut Outcomes)
    requires spare { 1 ≤ out.old.spare }
    ensures gave { ReturnsPart piece.part out.old out.new }
    ensures grows { Grows 1 out.old out.new }
    ensures kept { Keeps (both (of_part piece.part) (of_outcomes out.old)) (of_outcomes out.new) }
    ensures blocks { KeepsBlocks (both (of_part piece.part) (of_outcomes out.old)) (of_outcomes out.new) }
    ensures places { out.old.spare ≤ out.new.spare + 1 }
{
    let Piece {
        part,
        from: _,
        to: _,
    } = piece;
    out.give_back(part);
}
