//! Bytes cut off as pieces, with no part worn.

ghost use Rattle.std.specs.Prelude.{◌≡◌, ◌≢◌, ◌+◌, ◌≤◌, ◌++◌, [], false, length, IfOk, IfErr};
ghost use Rattle.frags.specs.PieceList.{bytes_of, size_of};
ghost use Rattle.skb.specs.SkbState.{buffer_bytes, buffer_size, buffer_least, head_size, is_sole};
ghost use Rattle.gso_cutter.specs.Opening.{Enough, OpensAccount, KeepsPieces};

use core::mem::replace;
use frags::{Pieces, ShareFault};
use skb::Skb;
use std::alloc::AllocError;

/// Cuts off all bytes from a place of the head on. Refused for memory alone; then nothing has changed.
pub(crate) fn cut_behind(skb: &mut Skb, at: usize) -> Result<Pieces, AllocError>
    requires front { at ≤ head_size skb.old }
    requires least { 2048 ≤ buffer_least skb.old }
    ensures bytes { IfOk result (λ cut. buffer_bytes skb.old ≡ buffer_bytes skb.new ++ bytes_of cut) }
    ensures size { IfOk result (λ cut. buffer_size skb.new ≡ at) }
    ensures long { IfOk result (λ cut. length (buffer_bytes skb.new) ≡ at) }
    ensures front { IfOk result (λ cut. at ≤ head_size skb.new) }
    ensures bare { IfOk result (λ cut. skb.new.rest ≡ []) }
    ensures enough { 1 ≤ at → IfOk result (λ cut. Enough cut) }
    ensures same { IfErr result (λ _. skb.new ≡ skb.old) }
    ensures count { IfOk result (λ cut. length cut ≤ length skb.old.rest + 1) }
    ensures account { IfOk result (λ cut. OpensAccount skb.old [] skb.new cut) }
    ensures shared { is_sole skb.old.head ≡ false → is_sole skb.new.head ≡ false }
{
    let _ = skb.len();
    match skb.split_at(at) {
        Ok(cut) => {
            let _ = (cut.len(), skb.len());
            Ok(cut)
        }
        Err(ShareFault::NoMemory) => Err(AllocError),
        Err(ShareFault::Worn) => unreachable!(),
        Err(ShareFault::Short { have: _, need: _ }) => unreachable!(),
    }
}

/// The bytes from `at` on become the pieces, where they still stand in the buffer.
pub(crate) fn open(skb: &mut Skb, pieces: &mut Pieces, at: usize) -> Result<(), AllocError>
    requires some { 1 ≤ at }
    requires front { at ≤ head_size skb.old }
    requires closed { buffer_size skb.old ≢ at → (pieces.old ≡ []) × (2048 ≤ buffer_least skb.old) }
    requires enough { Enough pieces.old }
    ensures bytes { buffer_bytes skb.new ++ bytes_of pieces.new ≡ buffer_bytes skb.old ++ bytes_of pieces.old }
    ensures front { at ≤ head_size skb.new }
    ensures size { IfOk result (λ _. buffer_size skb.new ≡ at) }
    ensures long { IfOk result (λ _. length (buffer_bytes skb.new) ≡ at) }
    ensures bare { IfOk result (λ _. skb.new.rest ≡ []) }
    ensures enough { Enough pieces.new }
    ensures same { IfErr result (λ _. (skb.new ≡ skb.old) × (pieces.new ≡ pieces.old)) }
    ensures count { length skb.new.rest + length pieces.new ≤ length skb.old.rest + length pieces.old + 1 }
    ensures account { OpensAccount skb.old pieces.old skb.new pieces.new }
    ensures shared { is_sole skb.old.head ≡ false → is_sole skb.new.head ≡ false }
{
    if skb.len() == at {
        return Ok(());
    }
    let cut = cut_behind(skb, at)?;
    replace(pieces, cut).discard();
    Ok(())
}

/// The first `n` bytes move out, as pieces of their own. Refused for memory alone; then nothing has changed.
pub(crate) fn cut_off(pieces: &mut Pieces, n: usize) -> Result<Pieces, AllocError>
    requires within { n ≤ size_of pieces.old }
    requires enough { Enough pieces.old }
    ensures bytes { IfOk result (λ front. (bytes_of pieces.old ≡ bytes_of front ++ bytes_of pieces.new)
        × (size_of front ≡ n) × (length (bytes_of front) ≡ n)) }
    ensures enough { Enough pieces.new }
    ensures same { IfErr result (λ _. pieces.new ≡ pieces.old) }
    ensures count { IfOk result (λ front. length front + length pieces.new ≤ length pieces.old + 1) }
    ensures account { IfOk result (λ front. KeepsPieces pieces.old front pieces.new) }
{
    let _ = pieces.len();
    match pieces.split_at(n) {
        Ok(rest) => {
            let front = replace(pieces, rest);
            let _ = front.len();
            Ok(front)
        }
        Err(ShareFault::NoMemory) => Err(AllocError),
        Err(ShareFault::Worn) => unreachable!(),
        Err(ShareFault::Short { have: _, need: _ }) => unreachable!(),
    }
}
