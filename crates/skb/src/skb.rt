//! A packet buffer: what it is, and what is read of it.
ghost use Rattle.std.specs.Prelude.{◌≡◌, ℕ, ◌+◌, ◌-◌, ◌<◌, ◌≤◌, ◌^◌, ◌*◌, length, MatchOption, slice_index_or};
ghost use Rattle.std.specs.Prelude.{slice_range, false, true};
ghost use Rattle.std.specs.Borrow.{sem};
ghost use Rattle.frags.specs.Account.{Keeps, KeepsBlocks, both, of_sole, of_outcomes};
ghost use Rattle.frags.specs.Growth.{Grows};
ghost use Rattle.frags.specs.PieceList.{AllFit, size_of, of_pieces, piece_bytes};
ghost use Rattle.frags.specs.declared.holder.Holder.{Holder};
ghost use Rattle.frags.specs.declared.pieces.Piece.{Piece};
ghost use Rattle.skb.specs.Checksum.{AreBytes};
ghost use Rattle.skb.specs.Lending.{lends_head, lends_head_if};
ghost use Rattle.skb.specs.SkbState.{head_size, buffer_least, buffer_bytes, buffer_size, head_bytes, headroom};
ghost use Rattle.frags.specs.OutcomesState.{OutcomesState};
ghost use Rattle.frags.specs.Returns.{ReturnsHolder, ReturnsPieces};
ghost use Rattle.skb.specs.SkbState.{tailroom, is_sole, of_buffer, IsAlone, IsApartFrom};

use crate::checksum::in_bytes;
use crate::lend::range_of;
use frags::{Holder, Outcomes, Pieces};
use raw_block::{BLOCK_SIZE, FULL, Sole};
use std::alloc::Global;
use std::marker::Model;

/// A packet buffer: the bytes `from..to` of a head block, and pieces of other blocks after them. It must be spent:
/// attached or released.
///
/// ```text
///   head: a block of 2048 bytes                        rest: pieces of other blocks
/// +----------+-----------------------+----------+     +---------+   +---------+
/// | headroom | the bytes from..to    | tailroom |---->| piece 0 |-->| piece 1 |--> ..
/// +----------+-----------------------+----------+     +---------+   +---------+
/// 0         from                     to       2048
/// ```
pub struct Skb {
    /// The block of the first bytes. Only one that is a Sole is written.
    pub(crate) head: Holder,
    /// Where the head's bytes begin in its block. So many bytes before them are the headroom.
    pub(crate) from: usize,
    /// The place behind the head's bytes, from `from` to 2048. What the block has behind it is the tailroom, where no
    /// piece follows.
    pub(crate) to: usize,
    /// The bytes behind the head's. With the head's they are fewer than 2^32.
    pub(crate) rest: Pieces,
}

impl Model for Skb {
    ghost use Rattle.skb.specs.SkbState.{SkbState};

    ghost Value = { SkbState };

    ghost use Rattle.std.specs.Prelude.{◌≡◌, ◌≤◌, ◌<◌, ◌+◌, ◌-◌, ◌^◌, length};
    ghost use Rattle.frags.specs.Holders.{block};
    ghost use Rattle.frags.specs.PieceList.{size_of};

    ghost view = { λ s. record { head = s.head; from = s.from; to = s.to; rest = s.rest } };

    ghost invariant = { λ s. (s.from ≤ s.to) × (s.to ≤ 2048) × (length (block s.head) ≡ 2048)
        × ((s.to - s.from) + size_of s.rest < 2 ^ 32) };
}

impl Skb {
    /// A buffer of the bytes `from..to` of a head block, and the pieces after them.
    pub fn new(head: Sole, from: usize, to: usize, rest: Pieces) -> Skb
        requires range { (from ≤ to) × (to ≤ 2048) }
        requires small { (to - from) + size_of rest < 2 ^ 32 }
        ensures same { result ≡ record { head = Holder.Sole head; from = from; to = to; rest = rest } }
        ensures account { of_buffer result ≡ both (of_sole head) (of_pieces rest) }
    {
        let _ = head.bytes();
        Skb {
            head: Holder::Sole(head),
            from,
            to,
            rest,
        }
    }

    /// The number of bytes.
    pub fn len(&self) -> usize
        ensures size { result ≡ buffer_size self.now }
        ensures bytes { result ≡ length (buffer_bytes self.now) }
        ensures small { result < 2 ^ 32 }
        ensures fits { AllFit self.now.rest }
    {
        self.to - self.from + self.rest.len()
    }

    /// The bytes in front of the head's, which `push` may take.
    pub fn headroom(&self) -> usize
        ensures value { result ≡ headroom self.now }
        ensures within { result ≤ 2048 }
    {
        self.from
    }

    /// The bytes behind the head's, which `put_tail` may take. There are none where a piece follows.
    pub fn tailroom(&self) -> usize
        ensures value { result ≡ tailroom self.now }
        ensures within { result ≤ 2048 }
    {
        if self.rest.count() == 0 {
            BLOCK_SIZE - self.to
        } else {
            0
        }
    }

    /// Nobody else holds the head's block, so it may be written.
    pub fn head_is_sole(&self) -> bool
        ensures sole { result ≡ is_sole self.now.head }
    {
        match &self.head {
            Holder::Sole(_) => true,
            Holder::Part(_) => false,
        }
    }

    /// The number of blocks: the head's, and one for each piece.
    pub fn count(&self) -> usize
        ensures value { result ≡ length self.now.rest + 1 }
    {
        self.rest.count() + 1
    }

    /// The head's bytes.
    pub fn head(&self) -> &[u8]
        ensures bytes { result.now ≡ head_bytes self.now }
        ensures size { length result.now ≡ head_size self.now }
        ensures in_bytes { AreBytes result.now }
    {
        let all = match &self.head {
            Holder::Sole(sole) => sole.bytes(),
            Holder::Part(part) => part.bytes(),
        };
        in_bytes(&all[self.from..self.to])
    }

    /// The head's bytes, for writing. None exactly where not `head_is_sole()`, and then nothing has changed.
    pub fn head_mut(&mut self) -> Option<&mut [u8]>
        ensures* writes_back { sem 𝓛 (lends_head_if self.entry result) }
        ensures value { MatchOption result (is_sole self.old.head ≡ false)
            (λ r. (is_sole self.old.head ≡ true) × (r.now ≡ head_bytes self.old)) }
    {
        if self.has_sole_head() {
            Some(self.head_bytes_mut())
        } else {
            None
        }
    }

    // `head_is_sole` over a borrow for writing, which the proof of `head_mut` has back.
    fn has_sole_head(&mut self) -> bool
        ensures answer { result ≡ is_sole self.old.head }
        ensures same { self.new ≡ self.old }
    {
        self.head_is_sole()
    }

    /// The head's bytes, for writing. The condition is `head_is_sole()`.
    pub fn head_bytes_mut(&mut self) -> &mut [u8]
        requires sole { is_sole self.old.head ≡ true }
        ensures* writes_back { sem 𝓛 (lends_head self.entry result) }
        ensures value { result.now ≡ head_bytes self.old }
    {
        let from = self.from;
        let to = self.to;
        range_of(&mut self.head, from, to)
    }

    /// The byte at a place.
    pub fn byte_at(&self, i: usize) -> u8
        requires within { i < buffer_size self.now }
        ensures byte { (d : ℕ) → result ≡ slice_index_or (buffer_bytes self.now) i d }
    {
        let head = self.head();
        if i < head.len() {
            return head[i];
        }
        self.rest.byte_at(i - head.len())
    }

    /// Copies the bytes from the place `at` on over `into`, as many as it has.
    pub fn copy_out(&self, at: usize, into: &mut [u8])
        requires within { at + length into.old ≤ buffer_size self.now }
        ensures bytes { into.new ≡ slice_range (buffer_bytes self.now) at (at + length into.old) }
    {
        let head = self.head();
        let start = at.min(head.len());
        let of_head = (head.len() - start).min(into.len());
        let (front, back) = into.split_at_mut(of_head);
        front.copy_from_slice(&head[start..start + of_head]);
        self.rest.copy_out(at - start, back);
    }

    /// The least weight of a part, `FULL` where there is none.
    pub fn least_weight(&self) -> u64
        ensures least { result ≡ buffer_least self.now }
    {
        let head = match &self.head {
            Holder::Sole(_) => FULL,
            Holder::Part(part) => part.weight(),
        };
        head.min(self.rest.least_weight())
    }

    /// The bytes of the i-th piece behind the head, uncopied. `count` has the head too.
    pub fn slice(&self, i: usize) -> &[u8]
        requires within { i < length self.now.rest }
        ensures bytes { (d : Piece) → result.now ≡ piece_bytes (slice_index_or self.now.rest i d) }
    {
        self.rest.slice(i)
    }

    /// The allocator that the list of pieces takes its places from.
    pub fn allocator(&self) -> Global {
        self.rest.allocator()
    }

    /// A Sole that stands beside a buffer is of no block of it.
    pub fn differ_from(&mut self, sole: &mut Sole)
        ensures others { IsApartFrom sole.old.block self.old }
        ensures same { (self.new ≡ self.old) × (sole.new ≡ sole.old) }
    {
        self.head.differ_from(sole);
        self.rest.differ_from(sole);
    }

    /// Takes a buffer apart whose head is a Sole: the head's block, and the pieces after it.
    pub fn into_blocks(self) -> (Sole, Pieces)
        requires sole { is_sole self.head ≡ true }
        ensures head { self.head ≡ Holder.Sole result.0 }
        ensures rest { result.1 ≡ self.rest }
    {
        let Skb {
            head,
            from: _,
            to: _,
            rest,
        } = self;
        match head {
            Holder::Sole(block) => (block, rest),
            part => {
                part.free();
                rest.free();
                unreachable!()
            }
        }
    }

    /// Gives the head and all pieces back, the head first.
    pub fn release(self, out: &mut Outcomes)
        requires spare { length self.rest + 1 ≤ out.old.spare }
        ensures returned { (mid : OutcomesState) × ReturnsHolder self.head out.old mid
            × ReturnsPieces self.rest mid out.new }
        ensures kept { Keeps (both (of_buffer self) (of_outcomes out.old)) (of_outcomes out.new) }
        ensures blocks { KeepsBlocks (both (of_buffer self) (of_outcomes out.old)) (of_outcomes out.new) }
        ensures grows { Grows (length self.rest + 1) out.old out.new }
        ensures places { out.old.spare ≤ out.new.spare + (length self.rest + 1) }
    {
        let Skb {
            head,
            from: _,
            to: _,
            rest,
        } = self;
        out.give_back_holder(head);
        rest.release(out);
    }

    /// Gives the head and all pieces back, frees the blocks that nobody else holds, and answers how many these are: all
    /// of the buffer's where it is alone. It takes no memory, and no outcomes.
    pub fn free(self) -> usize
        ensures few { result ≤ length self.rest + 1 }
        ensures alone { IsAlone self → result ≡ length self.rest + 1 }
    {
        let _ = self.count();
        let Skb {
            head,
            from: _,
            to: _,
            rest,
        } = self;
        let freed = head.free();
        freed + rest.free()
    }
}
