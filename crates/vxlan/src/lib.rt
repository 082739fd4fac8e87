//! The VXLAN header (RFC 7348, section 5), which stands behind UDP to port [`PORT`] and before an inner Ethernet frame.
//!
//! [`VxlanView`] reads its fields in a frame. `read` gives a view exactly where the header's bytes are there (`found`),
//! and each reader gives the number in the field's bytes (`field`).
//!
//! ```
//! let mut network = None;
//! if let Some(tunnel) = VxlanView::read(frame, 42)
//!     && tunnel.flags() & 0x08 != 0
//! {
//!     network = Some(tunnel.vni());
//! }
//! ```
//!
//! Tests: `header_tests`, modules `tunnels` and `encapsulated`.
#![tactic(auto)]

ghost use Rattle.std.specs.Prelude.{◌≡◌, ◌↔◌, ◌+◌, ◌≤◌, true, length, IsSome, IfSome};
ghost use Rattle.net_bytes.specs.View.{Placed};
ghost use Rattle.vxlan.specs.Vxlan.{is_there, flags as flags_of, network_identifier};

pub mod gre;

pub use gre::GreView;
use net_bytes::{be16, is_inside};
use std::marker::Model;

/// The UDP port that is assigned to VXLAN.
pub const PORT: u16 = 4789;

/// The UDP port that Linux took for VXLAN before one was assigned.
pub const OLD_PORT: u16 = 8472;

/// A VXLAN header in a frame.
#[derive(Drop)]
pub struct VxlanView<'a> {
    frame: &'a [u8],
    /// Where the header begins in the frame, from 0.
    at: usize,
}

impl<'a> Model for VxlanView<'a> {
    ghost Value = { Placed };

    ghost view = { λ v. record { frame = v.frame.now; at = v.at } };

    ghost invariant = { λ v. v.at + 8 ≤ length v.frame.now };
}

impl<'a> VxlanView<'a> {
    /// The header at `at`. There is none where its eight bytes aren't there.
    pub fn read(frame: &'a [u8], at: usize) -> Option<VxlanView<'a>>
        ensures found { IsSome result ↔ (is_there frame.now at ≡ true) }
        ensures view { IfSome result (λ v. v ≡ record { frame = frame.now; at = at }) }
    {
        if !is_inside(frame, at, 8) {
            return None;
        }
        Some(VxlanView { frame, at })
    }

    /// The flags: 0x08 says that the network identifier is valid.
    pub fn flags(&self) -> u8
        ensures field { result ≡ flags_of self.now.frame self.now.at }
    {
        self.frame[self.at]
    }

    /// The VXLAN network identifier, of 24 bits.
    pub fn vni(&self) -> u32
        ensures field { result ≡ network_identifier self.now.frame self.now.at }
    {
        u32::from(be16(self.frame, self.at + 4)) * 256 + u32::from(self.frame[self.at + 6])
    }
}
