//! A VLAN tag behind its type (IEEE 802.1Q, clause 9.6).

ghost use Rattle.std.specs.Prelude.{◌≡◌, ◌↔◌, ◌+◌, ◌≤◌, true, length, IsSome, IfSome};
ghost use Rattle.net_bytes.specs.View.{Placed};
ghost use Rattle.eth_vlan.specs.Tag.{is_there, control, next_type as next_type_of, is_tag as is_tag_type};

use net_bytes::{be16, is_inside};
use std::marker::Model;

/// A VLAN tag in a frame, without the type before it.
#[derive(Drop)]
pub struct TagView<'a> {
    frame: &'a [u8],
    /// Where the tag's control information begins in the frame, from 0.
    at: usize,
}

impl<'a> Model for TagView<'a> {
    ghost Value = { Placed };

    ghost view = { λ v. record { frame = v.frame.now; at = v.at } };

    ghost invariant = { λ v. v.at + 4 ≤ length v.frame.now };
}

impl<'a> TagView<'a> {
    /// The tag at `at`. There is none where its four bytes aren't there; the type before them isn't looked at.
    pub fn read(frame: &'a [u8], at: usize) -> Option<TagView<'a>>
        ensures found { IsSome result ↔ (is_there frame.now at ≡ true) }
        ensures view { IfSome result (λ v. v ≡ record { frame = frame.now; at = at }) }
    {
        if !is_inside(frame, at, 4) {
            return None;
        }
        Some(TagView { frame, at })
    }

    /// The tag control information: three bits of priority, one of drop eligibility, twelve of VLAN identifier.
    pub fn tci(&self) -> u16
        ensures field { result ≡ control self.now.frame self.now.at }
    {
        be16(self.frame, self.at)
    }

    /// The type of what follows the tag.
    pub fn next_type(&self) -> u16
        ensures field { result ≡ next_type_of self.now.frame self.now.at }
    {
        be16(self.frame, self.at + 2)
    }
}

/// Whether a type is that of a customer tag (0x8100) or of a service tag (0x88a8).
pub fn is_tag(kind: u16) -> bool
    ensures tag { result ≡ is_tag_type kind }
{
    kind == 0x8100 || kind == 0x88a8
}
