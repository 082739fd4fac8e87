//! The TCP header (RFC 9293, section 3.1).

ghost use Rattle.std.specs.Prelude.{◌≡◌, ◌↔◌, ℕ, ◌+◌, ◌<◌, ◌≤◌, ◌≢◌, ◌⊎◌, ◌++◌, true, List, length, slice_set, IsSome};
ghost use Rattle.std.specs.Prelude.{IfSome};
ghost use Rattle.net_bytes.specs.Bytes.{byte, put16, put32};
ghost use Rattle.net_bytes.specs.View.{Placed};
ghost use Rattle.tcp_headers.specs.Tcp.{is_there, data_offset as data_offset_of, source_port as source_port_of};
ghost use Rattle.tcp_headers.specs.Tcp.{destination_port as destination_port_of, sequence as sequence_of};
ghost use Rattle.tcp_headers.specs.Tcp.{acknowledgment as acknowledgment_of, reserved as reserved_of};
ghost use Rattle.tcp_headers.specs.Tcp.{flags as flags_of, window as window_of, checksum as checksum_of};
ghost use Rattle.tcp_headers.specs.Tcp.{urgent_pointer};

use net_bytes::{be16, be32, is_inside, put_be16, put_be32};
use std::marker::Model;

/// A TCP header in a frame.
#[derive(Drop)]
pub struct TcpView<'a> {
    frame: &'a [u8],
    /// Where the header begins in the frame, from 0.
    at: usize,
}

impl<'a> Model for TcpView<'a> {
    ghost Value = { Placed };

    ghost view = { λ v. record { frame = v.frame.now; at = v.at } };

    ghost invariant = { λ v. v.at + 20 ≤ length v.frame.now };
}

impl<'a> TcpView<'a> {
    /// The header at `at`. There is none where its first 20 bytes aren't there, its data offset is below 5, or the
    /// bytes that the data offset counts aren't all there.
    pub fn read(frame: &'a [u8], at: usize) -> Option<TcpView<'a>>
        ensures found { IsSome result ↔ (is_there frame.now at ≡ true) }
        ensures view { IfSome result (λ v. v ≡ record { frame = frame.now; at = at }) }
    {
        if !is_inside(frame, at, 20) {
            return None;
        }
        let words = usize::from(frame[at + 12] / 16);
        if words < 5 || frame.len() - at < 4 * words {
            return None;
        }
        Some(TcpView { frame, at })
    }

    /// The port of the sender.
    pub fn source_port(&self) -> u16
        ensures field { result ≡ source_port_of self.now.frame self.now.at }
    {
        be16(self.frame, self.at)
    }

    /// The port of the receiver.
    pub fn destination_port(&self) -> u16
        ensures field { result ≡ destination_port_of self.now.frame self.now.at }
    {
        be16(self.frame, self.at + 2)
    }

    /// The sequence number of the first payload byte.
    pub fn sequence(&self) -> u32
        ensures field { result ≡ sequence_of self.now.frame self.now.at }
    {
        sequence(self.frame, self.at)
    }

    /// The next sequence number that the sender of this segment waits for.
    pub fn acknowledgment(&self) -> u32
        ensures field { result ≡ acknowledgment_of self.now.frame self.now.at }
    {
        be32(self.frame, self.at + 8)
    }

    /// The length of the header in words of 32 bits, at least 5.
    pub fn data_offset(&self) -> u8
        ensures field { result ≡ data_offset_of self.now.frame self.now.at }
    {
        data_offset(self.frame, self.at)
    }

    /// The four reserved bits.
    pub fn reserved(&self) -> u8
        ensures field { result ≡ reserved_of self.now.frame self.now.at }
    {
        reserved(self.frame, self.at)
    }

    /// The control bits: CWR 0x80, ECE 0x40, URG 0x20, ACK 0x10, PSH 0x08, RST 0x04, SYN 0x02, FIN 0x01.
    pub fn flags(&self) -> u8
        ensures field { result ≡ flags_of self.now.frame self.now.at }
    {
        flags(self.frame, self.at)
    }

    /// How many bytes the sender of this segment can take.
    pub fn window(&self) -> u16
        ensures field { result ≡ window_of self.now.frame self.now.at }
    {
        be16(self.frame, self.at + 14)
    }

    /// The checksum of pseudo header, header and payload.
    pub fn sum(&self) -> u16
        ensures field { result ≡ checksum_of self.now.frame self.now.at }
    {
        checksum(self.frame, self.at)
    }

    /// The urgent pointer.
    pub fn urgent(&self) -> u16
        ensures field { result ≡ urgent_pointer self.now.frame self.now.at }
    {
        be16(self.frame, self.at + 18)
    }
}

/// The sequence number in the TCP header at `at`.
pub fn sequence(frame: &[u8], at: usize) -> u32
    requires there { at + 8 ≤ length frame.now }
    ensures field { result ≡ sequence_of frame.now at }
    ensures front { (rest : List ℕ) → result ≡ sequence_of (frame.now ++ rest) at }
{
    be32(frame, at + 4)
}

/// The data offset in the TCP header at `at`: the header's length in words of four bytes.
pub fn data_offset(frame: &[u8], at: usize) -> u8
    requires there { at + 13 ≤ length frame.now }
    ensures field { result ≡ data_offset_of frame.now at }
    ensures front { (rest : List ℕ) → result ≡ data_offset_of (frame.now ++ rest) at }
{
    frame[at + 12] / 16
}

/// The four reserved bits in the TCP header at `at`.
pub fn reserved(frame: &[u8], at: usize) -> u8
    requires there { at + 13 ≤ length frame.now }
    ensures field { result ≡ reserved_of frame.now at }
    ensures front { (rest : List ℕ) → result ≡ reserved_of (frame.now ++ rest) at }
{
    frame[at + 12] % 16
}

/// The control bits in the TCP header at `at`.
pub fn flags(frame: &[u8], at: usize) -> u8
    requires there { at + 14 ≤ length frame.now }
    ensures field { result ≡ flags_of frame.now at }
    ensures front { (rest : List ℕ) → result ≡ flags_of (frame.now ++ rest) at }
{
    frame[at + 13]
}

/// The checksum in the TCP header at `at`.
pub fn checksum(frame: &[u8], at: usize) -> u16
    requires there { at + 18 ≤ length frame.now }
    ensures field { result ≡ checksum_of frame.now at }
    ensures front { (rest : List ℕ) → result ≡ checksum_of (frame.now ++ rest) at }
{
    be16(frame, at + 16)
}

/// Writes the sequence number of the TCP header at `at`.
pub fn set_seq(bytes: &mut [u8], at: usize, value: u32)
    requires inside { at + 8 ≤ length bytes.old }
    ensures written { (rest : List ℕ) → bytes.new ++ rest ≡ put32 (bytes.old ++ rest) (at + 4) value }
    ensures field { sequence_of bytes.new at ≡ value }
    ensures others { (k : ℕ) → (k < at + 4) ⊎ (at + 8 ≤ k) → byte bytes.new k ≡ byte bytes.old k }
    ensures len { length bytes.new ≡ length bytes.old }
{
    put_be32(bytes, at + 4, value);
}

/// Writes the control bits of the TCP header at `at`.
pub fn set_flags(bytes: &mut [u8], at: usize, value: u8)
    requires inside { at + 14 ≤ length bytes.old }
    ensures written { (rest : List ℕ) → bytes.new ++ rest ≡ slice_set (bytes.old ++ rest) (at + 13) value }
    ensures field { flags_of bytes.new at ≡ value }
    ensures others { (k : ℕ) → k ≢ at + 13 → byte bytes.new k ≡ byte bytes.old k }
    ensures len { length bytes.new ≡ length bytes.old }
{
    bytes[at + 13] = value;
}

/// Writes the checksum of the TCP header at `at`.
pub fn set_tcp_sum(bytes: &mut [u8], at: usize, value: u16)
    requires inside { at + 18 ≤ length bytes.old }
    ensures written { (rest : List ℕ) → bytes.new ++ rest ≡ put16 (bytes.old ++ rest) (at + 16) value }
    ensures field { checksum_of bytes.new at ≡ value }
    ensures others { (k : ℕ) → (k < at + 16) ⊎ (at + 18 ≤ k) → byte bytes.new k ≡ byte bytes.old k }
    ensures len { length bytes.new ≡ length bytes.old }
{
    put_be16(bytes, at + 16, value);
}
