//! What becomes of a buffer's head.
ghost use Rattle.std.specs.Prelude.{◌≡◌, ◌+◌, ◌≤◌, length, false};
ghost use Rattle.skb.specs.Cut.{KeepsGift};
ghost use Rattle.skb.specs.PullUp.{HeadReleased};
ghost use Rattle.skb.specs.SkbState.{written, Owned, IsLent, Gives, head_worn};

use crate::sharing::Unshared;
use frags::{Holder, give_share};
use raw_block::{Claimed, Part, Released, Sole};

/// Writes over a block's bytes from a place on.
pub fn write_at(sole: &mut Sole, at: usize, bytes: &[u8])
    requires within { (length sole.old.bytes ≡ 2048) × (at + length bytes.now ≤ 2048) }
    ensures bytes { sole.new.bytes ≡ written sole.old.bytes at bytes.now }
    ensures mark { sole.new.mark ≡ sole.old.mark }
    ensures block { sole.new.block ≡ sole.old.block }
{
    if bytes.is_empty() {
        return;
    }
    let range = sole.range_mut(at, at + bytes.len());
    range.copy_from_slice(bytes);
}

// A head that is a Sole, and what became of the spare.
pub(crate) fn unshared(head: Holder, spare: Sole) -> (Holder, Unshared)
    ensures owned { Owned head spare result.0 result.1 }
{
    match head {
        Holder::Sole(sole) => (Holder::Sole(sole), Unshared::Unused(spare)),
        Holder::Part(part) => {
            let _ = part.weight();
            match part.claim() {
                Claimed::Sole(sole) => (Holder::Sole(sole), Unshared::Unused(spare)),
                Claimed::Shared(part, sight) => {
                    let mut spare = spare;
                    copy_block(&mut spare, part.bytes());
                    (Holder::Sole(spare), Unshared::Gave(part.release(), sight))
                }
            }
        }
    }
}

fn copy_block(sole: &mut Sole, bytes: &[u8])
    requires whole { length bytes.now ≡ 2048 }
    ensures copied { (sole.new.bytes ≡ bytes.now) × (sole.new.mark ≡ sole.old.mark)
        × (sole.new.block ≡ sole.old.block) }
{
    let all = sole.bytes_mut();
    all.copy_from_slice(bytes);
}

// Another block's Sole becomes the head, and the old one is released.
pub(crate) fn replaced(head: Holder, other: Sole) -> (Holder, Released)
    ensures released { (result.0 ≡ Holder.Sole other) × HeadReleased head result.1 }
{
    let released = match head {
        Holder::Sole(sole) => Released::Last(sole),
        Holder::Part(part) => {
            let _ = part.weight();
            part.release()
        }
    };
    (Holder::Sole(other), released)
}

// A Sole head becomes a part.
pub(crate) fn shared(head: Holder, none: ()) -> (Holder, ())
    ensures shared { IsLent head result.0 }
{
    (Holder::Part(head.into_part()), none)
}

// The head gives a part away.
pub(crate) fn shared_off(head: Holder, none: ()) -> (Holder, Part)
    requires fresh { head_worn head ≡ false }
    ensures gift { Gives head result.0 result.1 }
{
    let _ = none;
    let mut part = head.into_part();
    let gift = give_share(&mut part);
    (Holder::Part(part), gift)
}

// The head keeps its gift, and the rest of it is another part.
pub(crate) fn keeps_gift(head: Holder, none: ()) -> (Holder, Part)
    requires fresh { head_worn head ≡ false }
    ensures kept { KeepsGift head result.0 result.1 }
{
    let _ = none;
    let mut part = head.into_part();
    let gift = give_share(&mut part);
    (Holder::Part(gift), part)
}

// A part of weight 1 has nothing to give.
pub(crate) fn is_worn(head: &Holder) -> bool
    ensures worn { result ≡ head_worn head.now }
{
    match head {
        Holder::Sole(_) => false,
        Holder::Part(part) => part.weight() == 1,
    }
}
