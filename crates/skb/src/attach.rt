//! Another buffer's bytes put behind a buffer's own.
ghost use Rattle.std.specs.Prelude.{◌≡◌, ◌+◌, ◌-◌, ◌<◌, ◌≤◌, ◌^◌, length, IfOk, false};
ghost use Rattle.frags.specs.Account.{Keeps, KeepsMarks, both, of_outcomes};
ghost use Rattle.frags.specs.Growth.{Grows};
ghost use Rattle.skb.specs.Moving.{JoinsAccount};
ghost use Rattle.skb.specs.SkbState.{buffer_size, is_sole, of_buffer, Attaches};

use crate::Skb;
use frags::Outcomes;
use std::alloc::AllocError;

impl Skb {
    /// The other's bytes follow, uncopied. A Sole head of the other becomes a part, and an empty head is given back.
    pub fn attach(&mut self, other: Skb, out: &mut Outcomes) -> Result<(), (Skb, AllocError)>
        requires small { buffer_size self.old + buffer_size other < 2 ^ 32 }
        requires room { 1 ≤ out.old.spare }
        ensures attached { Attaches self.old other out.old self.new out.new result }
        ensures count { IfOk result (λ _. length self.new.rest ≤ length self.old.rest + (length other.rest + 1)) }
        ensures grows { IfOk result (λ _. Grows (length other.rest + 1
            - (length self.new.rest - length self.old.rest)) out.old out.new) }
        ensures places { out.old.spare ≤ out.new.spare + 1 }
        ensures account { IfOk result (λ _. JoinsAccount other (of_buffer self.old) out.old
            (of_buffer self.new) out.new) }
        ensures kept { is_sole other.head ≡ false → IfOk result
            (λ _. Keeps (both (of_buffer self.old) (both (of_buffer other) (of_outcomes out.old)))
            (both (of_buffer self.new) (of_outcomes out.new))) }
        ensures marks { IfOk result (λ _. KeepsMarks (both (of_buffer self.old)
            (both (of_buffer other) (of_outcomes out.old))) (both (of_buffer self.new) (of_outcomes out.new))) }
    {
        let Skb {
            head,
            from,
            to,
            rest,
        } = other;
        if from == to {
            if let Err((rest, error)) = self.rest.join_back(rest) {
                let other = Skb {
                    head,
                    from,
                    to,
                    rest,
                };
                return Err((other, error));
            }
            out.give_back_holder(head);
            return Ok(());
        }
        if let Err((head, rest, error)) = self.rest.append_all(head, from, to, rest) {
            let other = Skb {
                head,
                from,
                to,
                rest,
            };
            return Err((other, error));
        }
        Ok(())
    }
}
