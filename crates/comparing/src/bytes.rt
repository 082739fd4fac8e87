//! A buffer's bytes, read from the front where they lie.
ghost use Rattle.std.specs.Prelude.{◌≡◌, ◌<◌, ◌≤◌, ◌^◌, ◌++◌, length, drop};
ghost use Rattle.frags.specs.PieceList.{AllFit};
ghost use Rattle.skb.specs.SkbState.{buffer_bytes, head_size};
ghost use Rattle.comparing.specs.Bytes.{bytes_left};

use skb::Skb;
use std::marker::Model;

/// The bytes of a buffer that weren't read yet.
#[derive(Drop)]
pub(crate) struct Bytes<'a> {
    // What is left of the head or the piece that is being read.
    piece: &'a [u8],
    skb: &'a Skb,
    // The piece behind that.
    next: usize,
    // How many bytes are left in all.
    left: usize,
}

impl<'a> Model for Bytes<'a> {
    ghost use Rattle.std.specs.Prelude.{List, ℕ};
    ghost use Rattle.comparing.specs.Bytes.{bytes_left, IsLeft};

    ghost Value = { List ℕ };

    ghost view = { λ b. bytes_left b.piece.now b.skb.now b.next };

    ghost invariant = { λ b. IsLeft b.piece.now b.skb.now b.next b.left };
}

impl<'a> Bytes<'a> {
    /// All bytes of a buffer from a place of its head on.
    pub(crate) fn behind(skb: &'a Skb, at: usize) -> Bytes<'a>
        requires inside { at ≤ head_size skb.now }
        ensures all { result ≡ drop at (buffer_bytes skb.now) }
    {
        let left = skb.len() - at;
        Bytes {
            piece: &skb.head()[at..],
            skb,
            next: 0,
            left,
        }
    }

    /// The same bytes, to be read again.
    pub(crate) fn again(&self) -> Bytes<'a>
        ensures same { result ≡ self.now }
    {
        Bytes {
            piece: self.piece,
            skb: self.skb,
            next: self.next,
            left: self.left,
        }
    }

    /// The number of bytes that are left.
    pub(crate) fn len(&self) -> usize
        ensures len { result ≡ length self.now }
        ensures small { result < 2 ^ 32 }
    {
        self.left
    }

    /// The next bytes, at most so many of them, as they lie in one piece. There is one at least, where there is any.
    pub(crate) fn take(&mut self, most: usize) -> &'a [u8]
        ensures bytes { self.old ≡ result.now ++ self.new }
        ensures most { length result.now ≤ most }
        ensures some { 1 ≤ most → 1 ≤ length self.old → 1 ≤ length result.now }
    {
        if self.left == 0 {
            return self.piece;
        }
        let (piece, next) = opened(self.piece, self.skb, self.next);
        let n = piece.len().min(most);
        let (front, behind) = piece.split_at(n);
        self.piece = behind;
        self.next = next;
        self.left -= n;
        front
    }
}

// The piece that is being read, or where that has ended the one behind it, and the place of the next one.
fn opened<'a>(piece: &'a [u8], skb: &'a Skb, next: usize) -> (&'a [u8], usize)
    requires some { 1 ≤ length (bytes_left piece.now skb.now next) }
    requires within { next ≤ length skb.now.rest }
    requires fit { AllFit skb.now.rest }
    ensures same { bytes_left result.0.now skb.now result.1 ≡ bytes_left piece.now skb.now next }
    ensures some { 1 ≤ length result.0.now }
    ensures within { result.1 ≤ length skb.now.rest }
{
    let _ = skb.count();
    if !piece.is_empty() {
        return (piece, next);
    }
    (skb.slice(next), next + 1)
}
