//! A frame's first bytes, which hold all headers.

ghost use Rattle.std.specs.Prelude.{◌≡◌, ◌≤◌, ◌++◌, length, drop, min};
ghost use Rattle.skb.specs.Checksum.{AreBytes};
ghost use Rattle.skb.specs.Fronts.{IsFronted};
ghost use Rattle.skb.specs.SkbState.{buffer_bytes, head_bytes, head_size};

use skb::{FRONT, Skb};

/// What a slice holds are bytes.
fn in_bytes(bytes: &[u8]) -> &[u8]
    ensures same { result.now ≡ bytes.now }
    ensures in_bytes { AreBytes result.now }
{
    bytes
}

/// A frame's first bytes, which hold all headers.
pub(crate) fn front_bytes(skb: &Skb) -> &[u8]
    requires front { IsFronted skb.now }
    ensures joined { buffer_bytes skb.now ≡ result.now ++ drop (length result.now) (buffer_bytes skb.now) }
    ensures enough { min (length (buffer_bytes skb.now)) 200 ≤ length result.now }
    ensures inside { length result.now ≤ length (head_bytes skb.now) }
    ensures size { length (head_bytes skb.now) ≡ head_size skb.now }
    ensures in_bytes { AreBytes result.now }
{
    let _ = skb.len();
    let bytes = skb.head();
    in_bytes(&bytes[..bytes.len().min(FRONT)])
}
