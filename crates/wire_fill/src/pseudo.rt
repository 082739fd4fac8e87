//! The sum of a pseudo header alone.

ghost use Rattle.std.specs.Prelude.{◌≡◌, ℕ, ◌+◌, ◌<◌, ◌≤◌, ◌^◌, ◌++◌, List, length};
ghost use Rattle.inet_sum.specs.Sum.{fold_of};
ghost use Rattle.inet_sum.specs.Stands.{StandsFor};
ghost use Rattle.frame_layout.specs.Candidate.{pseudo, pseudo_header};
ghost use Rattle.frame_layout.specs.declared.layout.Layer.TheVariants.{Ip4, Ip6};
ghost use Rattle.frame_layout.specs.Front.{AreAddressesWithin};

use frame_layout::{Header, Layer};
use inet_sum::Partial;

// The sum of IPv4's pseudo header (RFC 9293, section 3.1).
fn pseudo4(head: &[u8], at: usize, protocol: u8, len: u32) -> Partial
    requires there { at + 20 ≤ length head.now }
    ensures sum { (rest : List ℕ) → StandsFor result (pseudo_header (head.now ++ rest) Ip4 at protocol len) }
{
    let mut sum = Partial::new();
    sum.add(&head[at + 12..at + 20]);
    sum.add(&[0, protocol]);
    sum.add_number(len);
    sum
}

// The sum of IPv6's (RFC 8200, section 8.1).
fn pseudo6(head: &[u8], at: usize, protocol: u8, len: u32) -> Partial
    requires there { at + 40 ≤ length head.now }
    ensures sum { (rest : List ℕ) → StandsFor result (pseudo_header (head.now ++ rest) Ip6 at protocol len) }
{
    let mut sum = Partial::new();
    sum.add(&head[at + 8..at + 40]);
    sum.add_number(len / 65536);
    sum.add_number(len % 65536);
    sum.add(&[0, 0, 0, protocol]);
    sum
}

/// The fold of the pseudo header of what an IP header carries, which is the partial sum that a host leaves for its
/// card.
pub(crate) fn pseudo_sum(head: &[u8], ip: Header, protocol: u8, len: u32) -> u16
    requires there { AreAddressesWithin (length head.now) ip.layer ip.at }
    ensures fold { (rest : List ℕ) → result ≡ fold_of (pseudo (head.now ++ rest) ip protocol len) }
{
    let at = ip.at as usize;
    let sum = match ip.layer {
        Layer::Ip4 => pseudo4(head, at, protocol, len),
        Layer::Ip6 => pseudo6(head, at, protocol, len),
        _ => Partial::new(),
    };
    sum.fold()
}
