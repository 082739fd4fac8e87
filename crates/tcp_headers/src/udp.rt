//! The UDP header (RFC 768).

ghost use Rattle.std.specs.Prelude.{◌≡◌, ◌↔◌, ℕ, ◌+◌, ◌<◌, ◌≤◌, ◌⊎◌, ◌++◌, true, List, length, IsSome, IfSome};
ghost use Rattle.net_bytes.specs.Bytes.{byte, put16};
ghost use Rattle.net_bytes.specs.View.{Placed};
ghost use Rattle.tcp_headers.specs.Udp.{is_there, source_port as source_port_of};
ghost use Rattle.tcp_headers.specs.Udp.{destination_port as destination_port_of, udp_length, checksum as checksum_of};

use net_bytes::{be16, is_inside, put_be16};
use std::marker::Model;

/// A UDP header in a frame.
#[derive(Drop)]
pub struct UdpView<'a> {
    frame: &'a [u8],
    /// Where the header begins in the frame, from 0.
    at: usize,
}

impl<'a> Model for UdpView<'a> {
    ghost Value = { Placed };

    ghost view = { λ v. record { frame = v.frame.now; at = v.at } };

    ghost invariant = { λ v. v.at + 8 ≤ length v.frame.now };
}

impl<'a> UdpView<'a> {
    /// The header at `at`. There is none where its eight bytes aren't there.
    pub fn read(frame: &'a [u8], at: usize) -> Option<UdpView<'a>>
        ensures found { IsSome result ↔ (is_there frame.now at ≡ true) }
        ensures view { IfSome result (λ v. v ≡ record { frame = frame.now; at = at }) }
    {
        if !is_inside(frame, at, 8) {
            return None;
        }
        Some(UdpView { frame, at })
    }

    /// The port of the sender.
    pub fn source_port(&self) -> u16
        ensures field { result ≡ source_port_of self.now.frame self.now.at }
    {
        be16(self.frame, self.at)
    }

    /// The port of the receiver.
    pub fn destination_port(&self) -> u16
        ensures field { result ≡ destination_port_of self.now.frame self.now.at }
    {
        be16(self.frame, self.at + 2)
    }

    /// The length of header and data, in bytes.
    pub fn length(&self) -> u16
        ensures field { result ≡ udp_length self.now.frame self.now.at }
    {
        total_length(self.frame, self.at)
    }

    /// The checksum of pseudo header, header and data; 0 says that the sender made none.
    pub fn sum(&self) -> u16
        ensures field { result ≡ checksum_of self.now.frame self.now.at }
    {
        checksum(self.frame, self.at)
    }
}

/// The length in the UDP header at `at`: header and data, in bytes.
pub fn total_length(frame: &[u8], at: usize) -> u16
    requires there { at + 6 ≤ length frame.now }
    ensures field { result ≡ udp_length frame.now at }
    ensures front { (rest : List ℕ) → result ≡ udp_length (frame.now ++ rest) at }
{
    be16(frame, at + 4)
}

/// The checksum in the UDP header at `at`; 0 says that there is none.
pub fn checksum(frame: &[u8], at: usize) -> u16
    requires there { at + 8 ≤ length frame.now }
    ensures field { result ≡ checksum_of frame.now at }
    ensures front { (rest : List ℕ) → result ≡ checksum_of (frame.now ++ rest) at }
{
    be16(frame, at + 6)
}

/// Writes the length of the UDP header at `at`.
pub fn set_udp_len(bytes: &mut [u8], at: usize, value: u16)
    requires inside { at + 6 ≤ length bytes.old }
    ensures written { (rest : List ℕ) → bytes.new ++ rest ≡ put16 (bytes.old ++ rest) (at + 4) value }
    ensures field { udp_length bytes.new at ≡ value }
    ensures others { (k : ℕ) → (k < at + 4) ⊎ (at + 6 ≤ k) → byte bytes.new k ≡ byte bytes.old k }
    ensures len { length bytes.new ≡ length bytes.old }
{
    put_be16(bytes, at + 4, value);
}

/// Writes the checksum of the UDP header at `at`.
pub fn set_udp_sum(bytes: &mut [u8], at: usize, value: u16)
    requires inside { at + 8 ≤ length bytes.old }
    ensures written { (rest : List ℕ) → bytes.new ++ rest ≡ put16 (bytes.old ++ rest) (at + 6) value }
    ensures field { checksum_of bytes.new at ≡ value }
    ensures others { (k : ℕ) → (k < at + 6) ⊎ (at + 8 ≤ k) → byte bytes.new k ≡ byte bytes.old k }
    ensures len { length bytes.new ≡ length bytes.old }
{
    put_be16(bytes, at + 6, value);
}
