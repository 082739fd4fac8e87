//! The header of an Ethernet frame (IEEE 802.3, clause 3.2).

ghost use Rattle.std.specs.Prelude.{◌≡◌, ◌↔◌, ◌+◌, ◌≤◌, true, length, IsSome, IfSome};
ghost use Rattle.net_bytes.specs.View.{Placed};
ghost use Rattle.eth_vlan.specs.Ethernet.{is_there, destination as destination_of, source as source_of};
ghost use Rattle.eth_vlan.specs.Ethernet.{ether_type as ether_type_of};

use net_bytes::{be16, is_inside};
use std::marker::Model;

/// An Ethernet header in a frame.
#[derive(Drop)]
pub struct EthView<'a> {
    frame: &'a [u8],
    /// Where the header begins in the frame, from 0.
    at: usize,
}

impl<'a> Model for EthView<'a> {
    ghost Value = { Placed };

    ghost view = { λ v. record { frame = v.frame.now; at = v.at } };

    ghost invariant = { λ v. v.at + 14 ≤ length v.frame.now };
}

impl<'a> EthView<'a> {
    /// The header at `at`. There is none where its 14 bytes aren't there.
    pub fn read(frame: &'a [u8], at: usize) -> Option<EthView<'a>>
        ensures found { IsSome result ↔ (is_there frame.now at ≡ true) }
        ensures view { IfSome result (λ v. v ≡ record { frame = frame.now; at = at }) }
    {
        if !is_inside(frame, at, 14) {
            return None;
        }
        Some(EthView { frame, at })
    }

    /// The address of the receiver.
    pub fn destination(&self) -> [u8; 6]
        ensures field { result ≡ destination_of self.now.frame self.now.at }
    {
        let mut address = [0; 6];
        address.copy_from_slice(&self.frame[self.at..self.at + 6]);
        address
    }

    /// The address of the sender.
    pub fn source(&self) -> [u8; 6]
        ensures field { result ≡ source_of self.now.frame self.now.at }
    {
        let mut address = [0; 6];
        address.copy_from_slice(&self.frame[self.at + 6..self.at + 12]);
        address
    }

    /// The type of what follows: 0x0800 is IPv4, 0x86dd is IPv6.
    pub fn ether_type(&self) -> u16
        ensures field { result ≡ ether_type_of self.now.frame self.now.at }
    {
        be16(self.frame, self.at + 12)
    }
}
