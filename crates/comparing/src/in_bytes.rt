//! What packets hold are bytes: a fact of slices, which whoever cuts a merged frame wants of all its bytes. No byte is
//! read.
ghost use Rattle.skb.specs.Checksum.{AreBytes};
ghost use Rattle.skb.specs.SkbState.{buffer_bytes};
ghost use Rattle.comparing.specs.Items.{AreInBytes};

use gro::Slot;
use skb::Skb;

// What a slice holds are bytes.
fn in_bytes(bytes: &[u8])
    ensures in_bytes { AreBytes bytes.now }
{}

// What a buffer holds are bytes.
fn is_in_bytes(skb: &Skb)
    ensures in_bytes { AreBytes (buffer_bytes skb.now) }
{
    in_bytes(skb.head());
    let n = skb.count() - 1;
    for i in 0..n {
        in_bytes(skb.slice(i));
    }
}

/// What packets hold are bytes.
pub(crate) fn are_in_bytes(packets: &[Slot])
    ensures in_bytes { AreInBytes packets.now }
{
    for i in 0..packets.len() {
        is_in_bytes(&packets[i].skb);
    }
}
