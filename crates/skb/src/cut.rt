//! Buffers cut in two.
ghost use Rattle.std.specs.Prelude.{◌≡◌, ◌<◌, ◌≤◌, ◌+◌, ◌*◌, ◌++◌, ℕ, Bool, false, length, IfOk, IfErr};
ghost use Rattle.block_weight.specs.WeightRule.{full_weight};
ghost use Rattle.frags.specs.Account.{Tests, every};
ghost use Rattle.frags.specs.PieceList.{bytes_of, pieces_held};
ghost use Rattle.skb.specs.SkbState.{buffer_bytes, buffer_size, head_size, is_sole, of_buffer};
ghost use Rattle.skb.specs.Cut.{IsCut};

use crate::Skb;
use crate::heads::{is_worn, keeps_gift};
use core::mem::replace_with;
use frags::{PieceBuilder, Pieces, ShareFault};

impl Skb {
    /// Keeps the first `at` bytes, and answers the rest, uncopied, as std's `split_off` does. A head is cut at each
    /// place below its length, 0 too, and a Sole becomes a part for that; of a part that is cut the buffer keeps
    /// `max(1, weight / 4096)`. `Short` exactly where `at > len()`; then `Worn` exactly where the part that is cut
    /// weighs 1; then memory. A refused call changes nothing.
    pub fn split_at(&mut self, at: usize) -> Result<Pieces, ShareFault>
        ensures split { IsCut at self.old self.new result }
        ensures same { IfErr result (λ _. self.new ≡ self.old) }
        ensures bytes { IfOk result (λ c. (buffer_bytes self.old ≡ buffer_bytes self.new ++ bytes_of c)
            × (buffer_size self.new ≡ at)) }
        ensures count { IfOk result (λ c. length self.new.rest + length c ≤ length self.old.rest + 1) }
        ensures sums { (at < head_size self.old → is_sole self.old.head ≡ false)
            → IfOk result (λ c. (t : Tests) (m : ℕ) → (of_buffer self.new).held t m + pieces_held t m c
            ≡ (of_buffer self.old).held t m) }
        ensures marks { IfOk result (λ c. (bs : ℕ → Bool) (m : ℕ)
            → (of_buffer self.new).held (every bs) m + full_weight * (of_buffer self.new).homes bs m
            + pieces_held (every bs) m c ≡ (of_buffer self.old).held (every bs) m + full_weight
            * (of_buffer self.old).homes bs m) }
    {
        let have = self.len();
        if have < at {
            return Err(ShareFault::Short { have, need: at });
        }
        let of_head = self.to - self.from;
        if of_head <= at {
            return self.rest.split_at(at - of_head);
        }
        self.split_head(at)
    }

    // Cuts the head. All pieces go with what follows the cut.
    fn split_head(&mut self, at: usize) -> Result<Pieces, ShareFault>
        requires within { at < head_size self.old }
        ensures split { IsCut at self.old self.new result }
        ensures bytes { IfOk result (λ c. buffer_bytes self.old ≡ buffer_bytes self.new ++ bytes_of c) }
        ensures sums { is_sole self.old.head ≡ false → IfOk result
            (λ c. (t : Tests) (m : ℕ) → (of_buffer self.new).held t m + pieces_held t m c
            ≡ (of_buffer self.old).held t m) }
        ensures marks { IfOk result (λ c. (bs : ℕ → Bool) (m : ℕ)
            → (of_buffer self.new).held (every bs) m + full_weight * (of_buffer self.new).homes bs m
            + pieces_held (every bs) m c ≡ (of_buffer self.old).held (every bs) m + full_weight
            * (of_buffer self.old).homes bs m) }
    {
        if is_worn(&self.head) {
            return Err(ShareFault::Worn);
        }
        let count = self.rest.count();
        let Ok(mut cut) = PieceBuilder::with_room(self.rest.allocator(), count + 1) else {
            return Err(ShareFault::NoMemory);
        };
        let part = replace_with(&mut self.head, (), keeps_gift);
        cut.push(part, self.from + at, self.to);
        cut.append(self.rest.take());
        self.to = self.from + at;
        Ok(cut.finish())
    }
}
