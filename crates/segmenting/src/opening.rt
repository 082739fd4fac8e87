//! Takes the offload header off a record.
ghost use Rattle.std.specs.Prelude.{◌≡◌, ◌+◌, ◌-◌, ◌<◌, ◌≤◌, ◌++◌, ◌↔◌, drop, length, min, IsSome, IfSome, IfNone};
ghost use Rattle.pcap_io.specs.Headers.{any_head, head_size as head_size_of};
ghost use Rattle.pcap_io.specs.Limits.{off_head_size};
ghost use Rattle.skb.specs.Fronts.{IsFronted};
ghost use Rattle.skb.specs.SkbState.{buffer_bytes, buffer_size, head_size};

use frags::Outcomes;
use pcap_io::{AnyHead, OFF_HEAD_LEN, OFF_HEAD2_LEN};
use skb::Skb;

// The bytes of an offload header of version 2 that version 1 doesn't have: they lie in the blocks, in front of the
// frame.
const BEHIND_FRONT: usize = OFF_HEAD2_LEN - OFF_HEAD_LEN;

// All bytes of an offload header of version 2.
fn joined(front: &[u8; OFF_HEAD_LEN], rest: &[u8; BEHIND_FRONT]) -> [u8; OFF_HEAD2_LEN]
    ensures bytes { result ≡ front.now ++ rest.now }
{
    let mut bytes = [0u8; OFF_HEAD2_LEN];
    bytes[..OFF_HEAD_LEN].copy_from_slice(front);
    bytes[OFF_HEAD_LEN..].copy_from_slice(rest);
    bytes
}

// The offload header of a record whose first bytes are `front`, and the others the buffer's. `None` where it isn't
// there.
fn read_head(front: &[u8; OFF_HEAD_LEN], skb: &Skb) -> Option<AnyHead>
    requires long { length front.now ≡ off_head_size }
    requires front { min (buffer_size skb.now) (2048 - 64) ≤ head_size skb.now }
    ensures head { IfSome result (λ head. head ≡ any_head (front.now ++ buffer_bytes skb.now)) }
    ensures there { IsSome result
        ↔ (head_size_of (any_head (front.now ++ buffer_bytes skb.now)) ≤ length (front.now ++ buffer_bytes skb.now)) }
{
    if let Some(head) = AnyHead::read(front) {
        return Some(head);
    }
    let _ = skb.len();
    match skb.head().first_chunk::<BEHIND_FRONT>() {
        Some(rest) => AnyHead::read(&joined(front, rest)),
        None => None,
    }
}

/// Takes the offload header off a record whose first bytes are `front`, and the others the buffer's: its packet's bytes
/// stay. `None` where it isn't there, and then nothing has changed.
pub(crate) fn take_head(
    front: &[u8; OFF_HEAD_LEN],
    skb: &mut Skb,
    out: &mut Outcomes,
) -> Option<AnyHead>
    requires long { length front.now ≡ off_head_size }
    requires front { min (buffer_size skb.old) (2048 - 64) ≤ head_size skb.old }
    ensures head { IfSome result (λ head. head ≡ any_head (front.now ++ buffer_bytes skb.old)) }
    ensures size { IfSome result
        (λ head. head_size_of head + length (buffer_bytes skb.new) ≡ length (front.now ++ buffer_bytes skb.old)) }
    ensures behind { IfSome result
        (λ head. buffer_bytes skb.new ≡ drop (head_size_of head) (front.now ++ buffer_bytes skb.old)) }
    ensures within { IfSome result
        (λ head. skb.new ≡ record skb.old { from = skb.old.from + (head_size_of head - off_head_size) }) }
    ensures front { IsFronted skb.new }
    ensures none { IfNone result ((length (front.now ++ buffer_bytes skb.old)
        < head_size_of (any_head (front.now ++ buffer_bytes skb.old))) × (skb.new ≡ skb.old)) }
    ensures out { out.new ≡ out.old }
{
    let _ = skb.len();
    let Some(head) = read_head(front, skb) else {
        return None;
    };
    match skb.pull(head.size() as usize - OFF_HEAD_LEN, out) {
        Ok(()) => Some(head),
        Err(_) => unreachable!(),
    }
}
