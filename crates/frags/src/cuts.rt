//! Cutting pieces in two.
ghost use Rattle.std.specs.Prelude.{◌≡◌, ◌+◌, ◌-◌, ◌≤◌, ◌++◌, [], false, length};
ghost use Rattle.std.specs.VecDeque.{deque_len, deque_capacity};
ghost use Rattle.frags.specs.Gifts.{front, back, cut_worn};
ghost use Rattle.frags.specs.PieceList.{AllFit, size_of};

use crate::{Piece, give_share};
use std::collections::VecDeque;

// Moves the first `at` bytes over.
pub(crate) fn split_into(items: &mut VecDeque<Piece>, first: &mut VecDeque<Piece>, at: usize)
    requires fits { AllFit items.old.items }
    requires within { at ≤ size_of items.old.items }
    requires fresh { cut_worn at items.old.items ≡ false }
    requires empty { (first.old.items ≡ []) × (deque_len first.old ≡ 0) }
    requires room { length (front at items.old.items) ≤ deque_capacity first.old }
    ensures front { first.new.items ≡ front at items.old.items }
    ensures back { items.new.items ≡ back at items.old.items }
{
    let mut left = at;
    while let Some(mut piece) = items.pop_front() {
        let size = piece.to - piece.from;
        if left < size {
            if 0 < left {
                let part = give_share(&mut piece.part);
                first.push_back_reserved(Piece {
                    part,
                    from: piece.from,
                    to: piece.from + left,
                });
                piece.from += left;
            }
            items.push_front_reserved(piece);
            return;
        }
        left -= size;
        first.push_back_reserved(piece);
    }
}
