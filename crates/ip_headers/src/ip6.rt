//! The IPv6 header (RFC 8200, section 3).

ghost use Rattle.std.specs.Prelude.{◌≡◌, ◌↔◌, ℕ, ◌+◌, ◌<◌, ◌≤◌, ◌⊎◌, ◌++◌, true, List, length, IsSome, IfSome};
ghost use Rattle.net_bytes.specs.Bytes.{byte, put16};
ghost use Rattle.net_bytes.specs.View.{Placed};
ghost use Rattle.ip_headers.specs.Ip6.{is_there, payload_length as payload_length_of, next_header as next_header_of};
ghost use Rattle.ip_headers.specs.Ip6.{hop_limit as hop_limit_of, source as source_of, destination as destination_of};

use net_bytes::{be16, is_inside, put_be16};
use std::marker::Model;

/// An IPv6 header in a frame.
#[derive(Drop)]
pub struct Ip6View<'a> {
    frame: &'a [u8],
    /// Where the header begins in the frame, from 0.
    at: usize,
}

impl<'a> Model for Ip6View<'a> {
    ghost Value = { Placed };

    ghost view = { λ v. record { frame = v.frame.now; at = v.at } };

    ghost invariant = { λ v. v.at + 40 ≤ length v.frame.now };
}

impl<'a> Ip6View<'a> {
    /// The header at `at`. There is none where its 40 bytes aren't there, or the high four bits of the first aren't 6,
    /// the version.
    pub fn read(frame: &'a [u8], at: usize) -> Option<Ip6View<'a>>
        ensures found { IsSome result ↔ (is_there frame.now at ≡ true) }
        ensures view { IfSome result (λ v. v ≡ record { frame = frame.now; at = at }) }
    {
        if !is_inside(frame, at, 40) {
            return None;
        }
        if frame[at] / 16 != 6 {
            return None;
        }
        Some(Ip6View { frame, at })
    }

    /// The length of what follows the header, in bytes.
    pub fn payload_length(&self) -> u16
        ensures field { result ≡ payload_length_of self.now.frame self.now.at }
    {
        payload_length(self.frame, self.at)
    }

    /// What follows the header: 6 is TCP, 17 is UDP.
    pub fn next_header(&self) -> u8
        ensures field { result ≡ next_header_of self.now.frame self.now.at }
    {
        next_header(self.frame, self.at)
    }

    /// How many hops are left.
    pub fn hop_limit(&self) -> u8
        ensures field { result ≡ hop_limit_of self.now.frame self.now.at }
    {
        self.frame[self.at + 7]
    }

    /// The address of the sender.
    pub fn source(&self) -> [u8; 16]
        ensures field { result ≡ source_of self.now.frame self.now.at }
    {
        let mut address = [0; 16];
        address.copy_from_slice(&self.frame[self.at + 8..self.at + 24]);
        address
    }

    /// The address of the receiver.
    pub fn destination(&self) -> [u8; 16]
        ensures field { result ≡ destination_of self.now.frame self.now.at }
    {
        let mut address = [0; 16];
        address.copy_from_slice(&self.frame[self.at + 24..self.at + 40]);
        address
    }
}

/// What follows the IPv6 header at `at`: 6 is TCP, 17 is UDP.
pub fn next_header(frame: &[u8], at: usize) -> u8
    requires there { at + 7 ≤ length frame.now }
    ensures field { result ≡ next_header_of frame.now at }
    ensures front { (rest : List ℕ) → result ≡ next_header_of (frame.now ++ rest) at }
{
    frame[at + 6]
}

/// The payload length in the IPv6 header at `at`: what follows the header, in bytes.
pub fn payload_length(frame: &[u8], at: usize) -> u16
    requires there { at + 6 ≤ length frame.now }
    ensures field { result ≡ payload_length_of frame.now at }
    ensures front { (rest : List ℕ) → result ≡ payload_length_of (frame.now ++ rest) at }
{
    be16(frame, at + 4)
}

/// Writes the payload length of the IPv6 header at `at`.
pub fn set_payload_len(bytes: &mut [u8], at: usize, value: u16)
    requires inside { at + 6 ≤ length bytes.old }
    ensures written { (rest : List ℕ) → bytes.new ++ rest ≡ put16 (bytes.old ++ rest) (at + 4) value }
    ensures field { payload_length_of bytes.new at ≡ value }
    ensures others { (k : ℕ) → (k < at + 4) ⊎ (at + 6 ≤ k) → byte bytes.new k ≡ byte bytes.old k }
    ensures len { length bytes.new ≡ length bytes.old }
{
    put_be16(bytes, at + 4, value);
}
