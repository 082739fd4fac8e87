//! Buffers moved behind the pieces of a list that is put together.
ghost use Rattle.std.specs.Prelude.{◌≡◌, ◌+◌, ◌<◌, ◌≤◌, ◌^◌, ◌++◌, length, false};
ghost use Rattle.frags.specs.Account.{Keeps, KeepsMarks, both, of_outcomes};
ghost use Rattle.frags.specs.PieceList.{bytes_of, size_of, of_pieces};
ghost use Rattle.skb.specs.SkbState.{is_sole, buffer_bytes, buffer_size, of_buffer};
ghost use Rattle.skb.specs.Moving.{Moves, JoinsAccount, KeepsLeast, given_back};

use crate::Skb;
use frags::{Outcomes, PieceBuilder};

impl Skb {
    /// The bytes stand behind those of `pieces`, uncopied: the head as a piece, and the buffer's pieces after it. A
    /// Sole head becomes a part, and an empty head is given back. Where many buffers become one, the memory is taken
    /// before, for `pieces`, and this takes none.
    pub fn move_into(self, pieces: &mut PieceBuilder, out: &mut Outcomes)
        requires reserved { length self.rest + 1 ≤ pieces.old.room }
        requires small { size_of pieces.old.pieces + buffer_size self < 2 ^ 32 }
        requires spare { 1 ≤ out.old.spare }
        ensures moved { Moves self pieces.old.pieces out.old pieces.new.pieces out.new }
        ensures bytes { bytes_of pieces.new.pieces ≡ bytes_of pieces.old.pieces ++ buffer_bytes self }
        ensures size { size_of pieces.new.pieces ≡ size_of pieces.old.pieces + buffer_size self }
        ensures count { length pieces.new.pieces + given_back out.new ≡ length pieces.old.pieces + given_back out.old
            + (length self.rest + 1) }
        ensures account { JoinsAccount self (of_pieces pieces.old.pieces) out.old
            (of_pieces pieces.new.pieces) out.new }
        ensures kept { is_sole self.head ≡ false → Keeps
            (both (of_pieces pieces.old.pieces) (both (of_buffer self) (of_outcomes out.old)))
            (both (of_pieces pieces.new.pieces) (of_outcomes out.new)) }
        ensures marks { KeepsMarks (both (of_pieces pieces.old.pieces) (both (of_buffer self) (of_outcomes out.old)))
            (both (of_pieces pieces.new.pieces) (of_outcomes out.new)) }
        ensures least { KeepsLeast self pieces.old.pieces pieces.new.pieces }
        ensures room { pieces.old.room ≤ pieces.new.room + (length self.rest + 1) }
        ensures places { out.old.spare ≤ out.new.spare + 1 }
    {
        let Skb {
            head,
            from,
            to,
            rest,
        } = self;
        if from == to {
            pieces.append(rest);
            out.give_back_holder(head);
            return;
        }
        pieces.push(head.into_part(), from, to);
        pieces.append(rest);
    }
}
