//! The IPv4 header without options (RFC 791, section 3.1).

ghost use Rattle.std.specs.Prelude.{◌≡◌, ◌↔◌, ℕ, ◌+◌, ◌<◌, ◌≤◌, ◌⊎◌, ◌++◌, true, List, length, IsSome, IfSome};
ghost use Rattle.net_bytes.specs.Bytes.{byte, put16};
ghost use Rattle.net_bytes.specs.View.{Placed};
ghost use Rattle.ip_headers.specs.Ip4.{is_there, total_length as total_length_of, identification as identification_of};
ghost use Rattle.ip_headers.specs.Ip4.{flags_and_offset as flags_and_offset_of};
ghost use Rattle.ip_headers.specs.Ip4.{is_reserved_zero as is_reserved_zero_of, dont_fragment, time_to_live};
ghost use Rattle.ip_headers.specs.Ip4.{protocol as protocol_of, header_checksum as header_checksum_of};
ghost use Rattle.ip_headers.specs.Ip4.{source as source_of, destination as destination_of};

use net_bytes::{be16, is_inside, put_be16};
use std::marker::Model;

/// An IPv4 header of 20 bytes in a frame.
#[derive(Drop)]
pub struct Ip4View<'a> {
    frame: &'a [u8],
    /// Where the header begins in the frame, from 0.
    at: usize,
}

impl<'a> Model for Ip4View<'a> {
    ghost Value = { Placed };

    ghost view = { λ v. record { frame = v.frame.now; at = v.at } };

    ghost invariant = { λ v. v.at + 20 ≤ length v.frame.now };
}

impl<'a> Ip4View<'a> {
    /// The header at `at`. There is none where its 20 bytes aren't there, or the first isn't 0x45, which says version 4
    /// and no options.
    pub fn read(frame: &'a [u8], at: usize) -> Option<Ip4View<'a>>
        ensures found { IsSome result ↔ (is_there frame.now at ≡ true) }
        ensures view { IfSome result (λ v. v ≡ record { frame = frame.now; at = at }) }
    {
        if !is_inside(frame, at, 20) {
            return None;
        }
        if frame[at] != 0x45 {
            return None;
        }
        Some(Ip4View { frame, at })
    }

    /// The length of header and data, in bytes.
    pub fn total_length(&self) -> u16
        ensures field { result ≡ total_length_of self.now.frame self.now.at }
    {
        total_length(self.frame, self.at)
    }

    /// The number that fragments of one datagram share.
    pub fn identification(&self) -> u16
        ensures field { result ≡ identification_of self.now.frame self.now.at }
    {
        identification(self.frame, self.at)
    }

    /// Three flags, reserved (0x8000), "don't fragment" (0x4000) and "more fragments" (0x2000), and the fragment's
    /// offset in units of eight bytes.
    pub fn flags_and_offset(&self) -> u16
        ensures field { result ≡ flags_and_offset_of self.now.frame self.now.at }
    {
        be16(self.frame, self.at + 6)
    }

    /// The time to live, in hops.
    pub fn ttl(&self) -> u8
        ensures field { result ≡ time_to_live self.now.frame self.now.at }
    {
        self.frame[self.at + 8]
    }

    /// The protocol of the data: 6 is TCP, 17 is UDP.
    pub fn protocol(&self) -> u8
        ensures field { result ≡ protocol_of self.now.frame self.now.at }
    {
        protocol(self.frame, self.at)
    }

    /// The checksum of the header.
    pub fn header_sum(&self) -> u16
        ensures field { result ≡ header_checksum_of self.now.frame self.now.at }
    {
        header_checksum(self.frame, self.at)
    }

    /// The address of the sender.
    pub fn source(&self) -> [u8; 4]
        ensures field { result ≡ source_of self.now.frame self.now.at }
    {
        let mut address = [0; 4];
        address.copy_from_slice(&self.frame[self.at + 12..self.at + 16]);
        address
    }

    /// The address of the receiver.
    pub fn destination(&self) -> [u8; 4]
        ensures field { result ≡ destination_of self.now.frame self.now.at }
    {
        let mut address = [0; 4];
        address.copy_from_slice(&self.frame[self.at + 16..self.at + 20]);
        address
    }
}

/// The total length in the IPv4 header at `at`: header and data, in bytes.
pub fn total_length(frame: &[u8], at: usize) -> u16
    requires there { at + 4 ≤ length frame.now }
    ensures field { result ≡ total_length_of frame.now at }
    ensures front { (rest : List ℕ) → result ≡ total_length_of (frame.now ++ rest) at }
{
    be16(frame, at + 2)
}

/// The identification in the IPv4 header at `at`.
pub fn identification(frame: &[u8], at: usize) -> u16
    requires there { at + 6 ≤ length frame.now }
    ensures field { result ≡ identification_of frame.now at }
    ensures front { (rest : List ℕ) → result ≡ identification_of (frame.now ++ rest) at }
{
    be16(frame, at + 4)
}

/// Whether the IPv4 header at `at` says "don't fragment".
pub fn has_dont_fragment(frame: &[u8], at: usize) -> bool
    requires there { at + 7 ≤ length frame.now }
    ensures field { result ≡ dont_fragment frame.now at }
    ensures front { (rest : List ℕ) → result ≡ dont_fragment (frame.now ++ rest) at }
{
    frame[at + 6] / 0x40 % 2 == 1
}

/// Whether the reserved flag in the IPv4 header at `at` is zero, as it must be.
pub fn is_reserved_zero(frame: &[u8], at: usize) -> bool
    requires there { at + 7 ≤ length frame.now }
    ensures field { result ≡ is_reserved_zero_of frame.now at }
    ensures front { (rest : List ℕ) → result ≡ is_reserved_zero_of (frame.now ++ rest) at }
{
    frame[at + 6] < 0x80
}

/// The protocol of the data in the IPv4 header at `at`: 6 is TCP, 17 is UDP.
pub fn protocol(frame: &[u8], at: usize) -> u8
    requires there { at + 10 ≤ length frame.now }
    ensures field { result ≡ protocol_of frame.now at }
    ensures front { (rest : List ℕ) → result ≡ protocol_of (frame.now ++ rest) at }
{
    frame[at + 9]
}

/// The header checksum in the IPv4 header at `at`.
pub fn header_checksum(frame: &[u8], at: usize) -> u16
    requires there { at + 12 ≤ length frame.now }
    ensures field { result ≡ header_checksum_of frame.now at }
    ensures front { (rest : List ℕ) → result ≡ header_checksum_of (frame.now ++ rest) at }
{
    be16(frame, at + 10)
}

/// Writes the total length of the IPv4 header at `at`.
pub fn set_total(bytes: &mut [u8], at: usize, value: u16)
    requires inside { at + 4 ≤ length bytes.old }
    ensures written { (rest : List ℕ) → bytes.new ++ rest ≡ put16 (bytes.old ++ rest) (at + 2) value }
    ensures field { total_length_of bytes.new at ≡ value }
    ensures others { (k : ℕ) → (k < at + 2) ⊎ (at + 4 ≤ k) → byte bytes.new k ≡ byte bytes.old k }
    ensures len { length bytes.new ≡ length bytes.old }
{
    put_be16(bytes, at + 2, value);
}

/// Writes the identification of the IPv4 header at `at`.
pub fn set_id(bytes: &mut [u8], at: usize, value: u16)
    requires inside { at + 6 ≤ length bytes.old }
    ensures written { (rest : List ℕ) → bytes.new ++ rest ≡ put16 (bytes.old ++ rest) (at + 4) value }
    ensures field { identification_of bytes.new at ≡ value }
    ensures others { (k : ℕ) → (k < at + 4) ⊎ (at + 6 ≤ k) → byte bytes.new k ≡ byte bytes.old k }
    ensures len { length bytes.new ≡ length bytes.old }
{
    put_be16(bytes, at + 4, value);
}

/// Writes the header checksum of the IPv4 header at `at`.
pub fn set_header_sum(bytes: &mut [u8], at: usize, value: u16)
    requires inside { at + 12 ≤ length bytes.old }
    ensures written { (rest : List ℕ) → bytes.new ++ rest ≡ put16 (bytes.old ++ rest) (at + 10) value }
    ensures field { header_checksum_of bytes.new at ≡ value }
    ensures others { (k : ℕ) → (k < at + 10) ⊎ (at + 12 ≤ k) → byte bytes.new k ≡ byte bytes.old k }
    ensures len { length bytes.new ≡ length bytes.old }
{
    put_be16(bytes, at + 10, value);
}
