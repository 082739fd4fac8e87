//! The header of generic routing encapsulation (RFC 2784), with a key (RFC 2890) or without one.

ghost use Rattle.std.specs.Prelude.{◌≡◌, ◌↔◌, ◌+◌, ◌≤◌, ◌&&◌, Option, Some, None, true, false, if◌then◌else◌, length};
ghost use Rattle.std.specs.Prelude.{IsSome, IfSome};
ghost use Rattle.net_bytes.specs.View.{Placed};
ghost use Rattle.vxlan.specs.Gre.{is_there, is_plain as is_plain_there, is_keyed as is_keyed_there};
ghost use Rattle.vxlan.specs.Gre.{protocol as protocol_of, key as key_of};

use net_bytes::{be16, be32, is_inside};
use std::marker::Model;

/// The IP protocol number that is assigned to GRE.
pub const PROTOCOL: u8 = 47;

/// Whether a header of four bytes stands at `at`: its first two are 0, so it has neither checksum nor key nor sequence
/// number.
pub fn is_plain(frame: &[u8], at: usize) -> bool
    ensures there { result ≡ is_plain_there frame.now at }
{
    is_inside(frame, at, 4) && be16(frame, at) == 0
}

/// Whether a header of eight bytes stands at `at`, with a key and no other field.
pub fn is_keyed(frame: &[u8], at: usize) -> bool
    ensures there { result ≡ is_keyed_there frame.now at }
{
    is_inside(frame, at, 8) && be16(frame, at) == 0x2000
}

/// The Ethernet type of what the header at `at` carries.
pub fn protocol(frame: &[u8], at: usize) -> u16
    requires there { at + 4 ≤ length frame.now }
    ensures field { result ≡ protocol_of frame.now at }
{
    be16(frame, at + 2)
}

/// A GRE header in a frame, of four bytes, or of eight with a key.
#[derive(Drop)]
pub struct GreView<'a> {
    frame: &'a [u8],
    /// Where the header begins in the frame, from 0.
    at: usize,
}

impl<'a> Model for GreView<'a> {
    ghost Value = { Placed };

    ghost view = { λ v. record { frame = v.frame.now; at = v.at } };

    ghost invariant = { λ v. is_there v.frame.now v.at ≡ true };
}

impl<'a> GreView<'a> {
    /// The header at `at`. There is none where its bytes aren't there, or its first two are neither 0000 nor 2000.
    pub fn read(frame: &'a [u8], at: usize) -> Option<GreView<'a>>
        ensures found { IsSome result ↔ (is_there frame.now at ≡ true) }
        ensures view { IfSome result (λ v. v ≡ record { frame = frame.now; at = at }) }
    {
        if !is_plain(frame, at) && !is_keyed(frame, at) {
            return None;
        }
        Some(GreView { frame, at })
    }

    /// Whether it has a key.
    pub fn is_keyed(&self) -> bool
        ensures keyed { result ≡ is_keyed_there self.now.frame self.now.at }
    {
        is_keyed(self.frame, self.at)
    }

    /// How many bytes it has: 4, or 8 with a key.
    pub fn len(&self) -> usize
        ensures len { result ≡ (if is_keyed_there self.now.frame self.now.at then 8 else 4) }
    {
        if self.is_keyed() { 8 } else { 4 }
    }

    /// The Ethernet type of what it carries.
    pub fn protocol(&self) -> u16
        ensures field { result ≡ protocol_of self.now.frame self.now.at }
    {
        protocol(self.frame, self.at)
    }

    /// The key; None of a header of four bytes.
    pub fn key(&self) -> Option<u32>
        ensures field { result ≡ (if is_keyed_there self.now.frame self.now.at
            then Some (key_of self.now.frame self.now.at) else None) }
    {
        if self.is_keyed() {
            Some(be32(self.frame, self.at + 4))
        } else {
            None
        }
    }
}
