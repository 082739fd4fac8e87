//! Bytes put in front of a buffer or behind it, and bytes dropped there.
ghost use Rattle.std.specs.Prelude.{◌≡◌, ◌+◌, ◌-◌, ◌<◌, ◌≤◌, ◌^◌, [], length, MatchResult, IfOk, drop, take, min};
ghost use Rattle.frags.specs.Account.{Keeps, both, of_outcomes};
ghost use Rattle.frags.specs.Growth.{Grows};
ghost use Rattle.frags.specs.PieceList.{size_of, cut_front, keep_front};
ghost use Rattle.skb.specs.SkbState.{head_size, buffer_bytes, buffer_size, headroom, tailroom, IsPush, IsPut};
ghost use Rattle.skb.specs.SkbState.{of_buffer};

use crate::Skb;
use crate::heads::write_at;
use frags::{Holder, Outcomes, Short};
use thiserror::Error;

/// Why bytes can't be put into a head.
#[derive(Debug, Drop, Error)]
pub enum RoomFault {
    /// The room that is there, and what was asked for.
    #[error("{need} bytes have no room in {have}")]
    NoRoom { have: usize, need: usize },
    /// Others hold the head's block.
    #[error("others hold the head's block")]
    Shared,
}

impl Skb {
    /// The bytes stand in front. `NoRoom` exactly where there are more of them than `headroom()`; else `Shared` exactly
    /// where not `head_is_sole()`.
    pub fn push(&mut self, bytes: &[u8]) -> Result<(), RoomFault>
        requires small { length bytes.now ≤ headroom self.old → buffer_size self.old + length bytes.now < 2 ^ 32 }
        ensures push { IsPush self.old bytes.now self.new result }
        ensures account { of_buffer self.new ≡ of_buffer self.old }
    {
        if self.from < bytes.len() {
            return Err(RoomFault::NoRoom {
                have: self.from,
                need: bytes.len(),
            });
        }
        let start = self.from - bytes.len();
        match &mut self.head {
            Holder::Part(_) => Err(RoomFault::Shared),
            Holder::Sole(sole) => {
                write_at(sole, start, bytes);
                self.from = start;
                Ok(())
            }
        }
    }

    /// The bytes stand at the end. `NoRoom` exactly where there are more of them than `tailroom()`; else `Shared`
    /// exactly where not `head_is_sole()`.
    pub fn put_tail(&mut self, bytes: &[u8]) -> Result<(), RoomFault>
        requires small { length bytes.now ≤ tailroom self.old → buffer_size self.old + length bytes.now < 2 ^ 32 }
        ensures put { IsPut self.old bytes.now self.new result }
        ensures account { of_buffer self.new ≡ of_buffer self.old }
    {
        let room = self.tailroom();
        if room < bytes.len() {
            return Err(RoomFault::NoRoom {
                have: room,
                need: bytes.len(),
            });
        }
        let end = self.to;
        match &mut self.head {
            Holder::Part(_) => Err(RoomFault::Shared),
            Holder::Sole(sole) => {
                write_at(sole, end, bytes);
                self.to = end + bytes.len();
                Ok(())
            }
        }
    }

    /// The first `n` bytes are gone. Pieces that are wholly gone are given back, and a head left empty stays. `Short`
    /// exactly where `n > len()`.
    pub fn pull(&mut self, n: usize, out: &mut Outcomes) -> Result<(), Short>
        requires spare { head_size self.old < n → length self.old.rest ≤ out.old.spare }
        ensures bytes { MatchResult result (λ _. buffer_bytes self.new ≡ drop n (buffer_bytes self.old))
            (λ e. (buffer_size self.old < n) × (e.have ≡ buffer_size self.old) × (e.need ≡ n) × (self.new ≡ self.old)
            × (out.new ≡ out.old)) }
        ensures head { (self.new.head ≡ self.old.head) × (self.new.to ≡ self.old.to) }
        ensures room { IfOk result (λ _. self.new.from ≡ min (self.old.from + n) self.old.to) }
        ensures rest { IfOk result (λ _. self.new.rest ≡ cut_front (n - head_size self.old) self.old.rest) }
        ensures within { n ≤ head_size self.old → (self.new ≡ record self.old { from = self.old.from + n })
            × (out.new ≡ out.old) }
        ensures bare { self.old.rest ≡ [] → self.new.rest ≡ [] }
        ensures kept { Keeps (both (of_buffer self.old) (of_outcomes out.old))
            (both (of_buffer self.new) (of_outcomes out.new)) }
        ensures fewer { length self.new.rest ≤ length self.old.rest }
        ensures grows { Grows (length self.old.rest - length self.new.rest) out.old out.new }
        ensures places { out.old.spare + length self.new.rest ≤ out.new.spare + length self.old.rest }
    {
        let have = self.len();
        if have < n {
            return Err(Short { have, need: n });
        }
        let of_head = self.to - self.from;
        if n <= of_head {
            self.from += n;
            return Ok(());
        }
        self.rest.cut_front(n - of_head, out)?;
        self.from = self.to;
        Ok(())
    }

    /// The last `n` bytes are gone; Linux's `skb_trim` is told how many stay. Pieces that are wholly gone are given
    /// back, and a head left empty stays. `Short` exactly where `n > len()`.
    pub fn trim(&mut self, n: usize, out: &mut Outcomes) -> Result<(), Short>
        requires spare { length self.old.rest ≤ out.old.spare }
        ensures bytes { MatchResult result (λ _. buffer_bytes self.new
            ≡ take (buffer_size self.old - n) (buffer_bytes self.old))
            (λ e. (buffer_size self.old < n) × (e.have ≡ buffer_size self.old) × (e.need ≡ n) × (self.new ≡ self.old)
            × (out.new ≡ out.old)) }
        ensures head { (self.new.head ≡ self.old.head) × (self.new.from ≡ self.old.from) }
        ensures room { IfOk result (λ _. self.new.to ≡ self.old.to - (n - size_of self.old.rest)) }
        ensures rest { IfOk result (λ _. self.new.rest ≡ keep_front (size_of self.old.rest - n) self.old.rest) }
        ensures bare { self.old.rest ≡ [] → self.new.rest ≡ [] }
        ensures kept { Keeps (both (of_buffer self.old) (of_outcomes out.old))
            (both (of_buffer self.new) (of_outcomes out.new)) }
        ensures fewer { length self.new.rest ≤ length self.old.rest }
        ensures grows { Grows (length self.old.rest - length self.new.rest) out.old out.new }
        ensures places { out.old.spare + length self.new.rest ≤ out.new.spare + length self.old.rest }
    {
        let have = self.len();
        if have < n {
            return Err(Short { have, need: n });
        }
        let of_rest = n.min(self.rest.len());
        self.rest.cut_back(of_rest, out)?;
        self.to -= n - of_rest;
        Ok(())
    }
}
