//! A second buffer of the same bytes, and a head that is made a part or a Sole.
ghost use Rattle.std.specs.Prelude.{◌≡◌, ℕ, ◌+◌, ◌*◌, length, MatchResult, IfOk, Bool, false};
ghost use Rattle.block_weight.specs.WeightRule.{full_weight};
ghost use Rattle.frags.specs.Account.{Tests, Keeps, KeepsMarks, both, every, of_sole};
ghost use Rattle.skb.specs.SkbState.{buffer_bytes, is_sole, Owned, IsClone, IsLent, buffer_worn, of_buffer};
ghost use Rattle.skb.specs.SkbState.{of_unshared};

use crate::Skb;
use crate::heads::{is_worn, shared, shared_off, unshared};
use core::mem::replace_with;
use frags::{Holder, ShareFault};
use raw_block::{Released, Sight, Sole};

/// What `unshare` gives back.
pub enum Unshared {
    /// The spare: the head was a Sole, or its claim was granted.
    Unused(Sole),
    /// What the old head's release left, and what its failed claim saw.
    Gave(Released, Sight),
}

impl Skb {
    /// A second buffer of the same bytes, headroom and pieces, uncopied. Each part gives `max(1, weight / 4096)` away
    /// and keeps its life. A Sole head becomes a part first, also where memory is refused. `Worn` exactly where a part
    /// weighs 1, which is judged before all else.
    pub fn clone(&mut self) -> Result<Skb, ShareFault>
        ensures clone { IsClone self.old self.new result }
        ensures bytes { MatchResult result (λ c. (buffer_bytes self.new ≡ buffer_bytes self.old)
            × (buffer_bytes c ≡ buffer_bytes self.old)) (λ _. buffer_bytes self.new ≡ buffer_bytes self.old) }
        ensures count { MatchResult result (λ c. (length self.new.rest ≡ length self.old.rest)
            × (length c.rest ≡ length self.old.rest)) (λ _. length self.new.rest ≡ length self.old.rest) }
        ensures sums { is_sole self.old.head ≡ false → IfOk result
            (λ c. (t : Tests) (m : ℕ) → (of_buffer self.new).held t m + (of_buffer c).held t m
            ≡ (of_buffer self.old).held t m) }
        ensures marks { MatchResult result (λ c. (bs : ℕ → Bool) (m : ℕ)
            → (of_buffer self.new).held (every bs) m + (of_buffer c).held (every bs) m
            ≡ (of_buffer self.old).held (every bs) m + full_weight * (of_buffer self.old).homes bs m)
            (λ _. KeepsMarks (of_buffer self.old) (of_buffer self.new)) }
    {
        if self.is_worn() {
            return Err(ShareFault::Worn);
        }
        replace_with(&mut self.head, (), shared);
        let rest = self.rest.share()?;
        let part = replace_with(&mut self.head, (), shared_off);
        Ok(Skb {
            head: Holder::Part(part),
            from: self.from,
            to: self.to,
            rest,
        })
    }

    // A part weighs 1, and has nothing to give.
    fn is_worn(&self) -> bool
        ensures worn { result ≡ buffer_worn self.now }
    {
        is_worn(&self.head) || self.rest.is_worn()
    }

    /// A Sole head becomes a part, with the same bytes and room: its life begins here, and no later call begins one.
    pub fn share_head(&mut self)
        ensures head { IsLent self.old.head self.new.head }
        ensures rest { (self.new.from ≡ self.old.from) × (self.new.to ≡ self.old.to) × (self.new.rest ≡ self.old.rest) }
        ensures bytes { buffer_bytes self.new ≡ buffer_bytes self.old }
        ensures marks { KeepsMarks (of_buffer self.old) (of_buffer self.new) }
    {
        replace_with(&mut self.head, (), shared);
    }

    /// The head becomes a Sole, with the same bytes and room. `Unused` exactly where it was one, or its claim was
    /// granted; else its bytes were copied into the spare, and `Gave` has what its release left and what the claim saw.
    pub fn unshare(&mut self, spare: Sole) -> Unshared
        ensures head { Owned self.old.head spare self.new.head result }
        ensures room { (self.new.from ≡ self.old.from) × (self.new.to ≡ self.old.to) × (self.new.rest ≡ self.old.rest) }
        ensures bytes { buffer_bytes self.new ≡ buffer_bytes self.old }
        ensures kept { Keeps (both (of_buffer self.old) (of_sole spare))
            (both (of_buffer self.new) (of_unshared result)) }
    {
        let _ = spare.bytes();
        replace_with(&mut self.head, spare, unshared)
    }
}
