//! A buffer that can be dropped, and what C does with one.
ghost use Rattle.std.specs.Prelude.{◌≡◌, [], ◌+◌, ◌<◌, ◌≤◌, ◌^◌, length, true, false, slice_range, MatchResult, Some};
ghost use Rattle.std.specs.Prelude.{None};
ghost use Rattle.frags.specs.declared.holder.Holder.{Holder};
ghost use Rattle.skb.specs.SkbState.{buffer_bytes, buffer_size, is_sole};
ghost use Rattle.skb_c.specs.Does.{IsCloned, IsPushed, IsPutBehind, IsRead};

use crate::codes::{NO_MEMORY, OK, USAGE, room_code, share_code};
use frags::Pieces;
use raw_block::{BLOCK_SIZE, Sole};
use skb::Skb;
use std::alloc::Global;
use std::marker::Model;

/// So many bytes a buffer can't have.
pub(crate) const TOO_MANY: usize = 1 << 32;

/// A buffer, which frees its blocks where it is dropped.
pub struct Buffer {
    pub(crate) skb: Skb,
}

impl Model for Buffer {
    ghost use Rattle.skb.specs.SkbState.{SkbState};

    ghost Value = { SkbState };

    ghost view = { λ b. b.skb };
}

impl Drop for Buffer {
    fn drop(self) {
        let Buffer { skb } = self;
        let _ = skb.free();
    }
}

impl Buffer {
    /// The buffer itself, which has to be spent.
    pub(crate) fn into_skb(self) -> Skb
        ensures same { result ≡ self }
    {
        let Buffer { skb } = self;
        skb
    }

    /// No bytes, in a block of its own.
    pub(crate) fn empty(block: Sole, alloc: Global) -> Buffer
        ensures same { result ≡ record { head = Holder.Sole block; from = 0; to = 0; rest = [] } }
    {
        Buffer {
            skb: Skb::new(block, 0, 0, Pieces::new(alloc)),
        }
    }

    /// The number of bytes.
    pub(crate) fn len(&self) -> usize
        ensures size { (result ≡ buffer_size self.now) × (result ≡ length (buffer_bytes self.now)) }
        ensures small { result < 2 ^ 32 }
    {
        self.skb.len()
    }

    /// The bytes stand in front.
    pub(crate) fn push(&mut self, bytes: &[u8]) -> u32
        ensures push { IsPushed bytes.now self.old self.new result }
    {
        if bytes.len() >= TOO_MANY - self.skb.len() {
            return USAGE;
        }
        room_code(self.skb.push(bytes))
    }

    /// The bytes stand behind.
    pub(crate) fn put_tail(&mut self, bytes: &[u8]) -> u32
        ensures put { IsPutBehind bytes.now self.old self.new result }
    {
        let _ = self.skb.len();
        room_code(self.skb.put_tail(bytes))
    }

    /// Copies the bytes from a place on over `into`, as many as it has.
    pub(crate) fn read(&self, at: usize, into: &mut [u8]) -> u32
        ensures read { IsRead at self.now into.old into.new result }
    {
        let len = self.skb.len();
        if at > len || into.len() > len - at {
            return USAGE;
        }
        self.skb.copy_out(at, into);
        OK
    }

    /// A second buffer of the same bytes, uncopied, and else why not.
    pub(crate) fn clone(&mut self, alloc: Global) -> Result<Box<Buffer, Global>, u32>
        ensures cloned { MatchResult result (λ c. IsCloned self.old self.new (Some c.value) 0)
            (λ code. IsCloned self.old self.new None code) }
    {
        match self.skb.clone() {
            Ok(skb) => match Box::new(alloc, Buffer { skb }) {
                Ok(own) => Ok(own),
                Err(_) => Err(NO_MEMORY),
            },
            Err(fault) => Err(share_code(fault)),
        }
    }
}

/// Pieces stand behind the head of a buffer that has none, and that is a Sole.
pub(crate) fn with_rest(buffer: Buffer, rest: Pieces) -> (Buffer, ())
    requires bare { (is_sole buffer.head ≡ true) × (buffer.rest ≡ []) × (buffer.from ≡ buffer.to) × (buffer.to ≡ 2048) }
    ensures same { result.0 ≡ record buffer { rest = rest } }
{
    let (head, none) = buffer.into_skb().into_blocks();
    none.discard();
    let _ = rest.len();
    (
        Buffer {
            skb: Skb::new(head, BLOCK_SIZE, BLOCK_SIZE, rest),
        },
        (),
    )
}
