//! The first bytes of a buffer brought together in its head.
ghost use Rattle.std.specs.Prelude.{◌≡◌, ◌+◌, ◌-◌, ◌<◌, ◌≤◌, length, slice_range, IfOk};
ghost use Rattle.raw_block.specs.Views.{SoleState};
ghost use Rattle.frags.specs.Account.{Keeps, both, of_sole, of_outcomes};
ghost use Rattle.frags.specs.Growth.{Grows};
ghost use Rattle.skb.specs.SkbState.{SkbState, buffer_bytes, buffer_size, head_size, of_buffer, written};
ghost use Rattle.skb.specs.PullUp.{IsPullUp, of_pulled};

use crate::Skb;
use crate::heads::replaced;
use core::mem::replace_with;
use frags::Outcomes;
use raw_block::{BLOCK_SIZE, Released, Sole};
use thiserror::Error;

/// The headroom that `pull_up` and `copy` leave in front of a new head.
pub const HEADROOM: usize = 64;

/// How many first bytes of a frame hold all its headers. A buffer whose headers are read has so many in its head, or
/// all of fewer.
pub const FRONT: usize = 200;

/// Why bytes can't be brought into a head.
#[derive(Debug, Drop, Error)]
pub enum PullFault {
    /// The bytes that are there, and what was asked for.
    #[error("{need} bytes were asked for, and there are {have}")]
    Short { have: usize, need: usize },
    /// More than a block has room for behind the headroom.
    #[error("a block has no room for so many bytes behind its headroom")]
    TooBig,
}

/// What `pull_up` gives back.
pub enum Returned {
    /// The spare: the bytes lay in the head already.
    Unused(Sole),
    /// What the old head's release left.
    Gave(Released),
}

impl Skb {
    /// The first `n` bytes lie in the head, and all bytes are as before. `Unused` exactly where they lay there already,
    /// and nothing changes; else the spare is the new head, with headroom 64, and the pieces give up the bytes that it
    /// took. `Short` exactly where `n > len()`, then `TooBig` exactly where `n > 1984`; the spare comes back then. No
    /// memory is taken.
    pub fn pull_up(
        &mut self,
        n: usize,
        spare: Sole,
        out: &mut Outcomes,
    ) -> Result<Returned, (PullFault, Sole)>
        requires spare { length self.old.rest ≤ out.old.spare }
        ensures pull_up { IsPullUp n self.old spare out.old self.new out.new result }
        ensures bytes { buffer_bytes self.new ≡ buffer_bytes self.old }
        ensures head { IfOk result (λ _. n ≤ head_size self.new) }
        ensures kept { Keeps (both (of_buffer self.old) (both (of_sole spare) (of_outcomes out.old)))
            (both (of_buffer self.new) (both (of_pulled result) (of_outcomes out.new))) }
        ensures fewer { length self.new.rest ≤ length self.old.rest }
        ensures grows { Grows (length self.old.rest - length self.new.rest) out.old out.new }
        ensures places { out.old.spare + length self.new.rest ≤ out.new.spare + length self.old.rest }
    {
        let have = self.len();
        if have < n {
            return Err((PullFault::Short { have, need: n }, spare));
        }
        if BLOCK_SIZE - HEADROOM < n {
            return Err((PullFault::TooBig, spare));
        }
        let of_head = self.to - self.from;
        if n <= of_head {
            return Ok(Returned::Unused(spare));
        }
        let mut spare = spare;
        self.copy_into(0, &mut spare, HEADROOM, n);
        let Ok(()) = self.rest.cut_front(n - of_head, out) else {
            unreachable!()
        };
        let released = replace_with(&mut self.head, spare, replaced);
        self.from = HEADROOM;
        self.to = HEADROOM + n;
        Ok(Returned::Gave(released))
    }

    // Copies `n` bytes from a place on over those of a block.
    pub(crate) fn copy_into(&self, at: usize, block: &mut Sole, to: usize, n: usize)
        requires within { (to + n ≤ 2048) × (at + n ≤ buffer_size self.now) }
        ensures written { block.new ≡ record block.old {
          bytes = written block.old.bytes to
              (slice_range (buffer_bytes self.now) at (at + n));
        } }
        ensures copied { (length (slice_range (buffer_bytes self.now) at (at + n)) ≡ n)
            × (slice_range block.new.bytes to (to + n) ≡ slice_range (buffer_bytes self.now) at (at + n)) }
        ensures size { length block.new.bytes ≡ 2048 }
    {
        let _ = block.bytes();
        let range = block.range_mut(to, to + n);
        self.copy_out(at, range);
        let _ = block.bytes();
    }
}
