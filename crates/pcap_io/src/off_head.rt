//! The offload header, in two versions: what a record of link type 147 is.
ghost use Rattle.std.specs.Prelude.{◌≡◌, ◌≤◌, ◌↔◌, length, IsSome, IfSome};
ghost use Rattle.pcap_io.specs.Written.{off_bytes, off_bytes2};
ghost use Rattle.pcap_io.specs.Headers.{off_head, off_head2, any_head, head_size, fields_in};
ghost use Rattle.pcap_io.specs.Headers.{says_version as says_version_of};

use net_bytes::{Order, be16, be32};

/// The bytes of a frame, at most.
pub const FRAME_LIMIT: u32 = 262_144;

/// The bytes of an offload header of version 1.
pub const OFF_HEAD_LEN: usize = 12;

/// The 12 bytes before each frame in a capture of link type 147, its fields as they stand, unjudged. Numbers are
/// big-endian whatever the file's order is.
///
/// | place | field | single (kind 0) | merged (kind 1) | tap window (kind 2) |
/// |---|---|---|---|---|
/// | 0 | version | 1 | 1 | 1 |
/// | 2 | n | 1 | number of packets | 0 |
/// | 4 | m | 0 | payload length of the first packet | 0 |
/// | 6 | modes | 0 | which IP layers have a fixed identification | 0 |
/// | 7 | lane | queue | queue | tap |
/// | 8 | number | record number | record number of the first packet | record number |
#[derive(Clone, Copy, Debug, PartialEq, Eq)]
pub struct OffHead {
    pub version: u8,
    /// 0 for a single packet, 1 for a merged one, 2 for a tap's window.
    pub kind: u8,
    pub n: u16,
    pub m: u16,
    /// A bit for each IP header, the lowest for the first, set where it is IPv4 with a fixed identification.
    pub modes: u8,
    pub lane: u8,
    pub number: u32,
}

impl OffHead {
    /// The header's fields in 12 bytes.
    pub fn read(bytes: &[u8; OFF_HEAD_LEN]) -> OffHead
        ensures fields { result ≡ off_head bytes.now }
    {
        OffHead {
            version: bytes[0],
            kind: bytes[1],
            n: be16(bytes, 2),
            m: be16(bytes, 4),
            modes: bytes[6],
            lane: bytes[7],
            number: be32(bytes, 8),
        }
    }

    /// The header's 12 bytes.
    pub fn bytes(&self) -> [u8; OFF_HEAD_LEN]
        ensures bytes { result ≡ off_bytes self.now }
    {
        let mut out = [0u8; OFF_HEAD_LEN];
        Order::Big.put32(&mut out[8..], self.number);
        out[7] = self.lane;
        out[6] = self.modes;
        Order::Big.put16(&mut out[4..], self.m);
        Order::Big.put16(&mut out[2..], self.n);
        out[1] = self.kind;
        out[0] = self.version;
        out
    }
}

/// The bytes of an offload header of version 2.
pub const OFF_HEAD2_LEN: usize = 16;

/// The 16 bytes of version 2, with the fields of version 1 in another order, of which `n` and `m` have 32 bits.
///
/// | place | field |
/// |---|---|
/// | 0 | version, 2 |
/// | 1 | kind |
/// | 2 | modes |
/// | 3 | lane |
/// | 4 | n |
/// | 8 | m |
/// | 12 | number |
#[derive(Clone, Copy, Debug, PartialEq, Eq)]
pub struct OffHead2 {
    pub version: u8,
    /// 0 for a single packet, 1 for a merged one, 2 for a tap's window.
    pub kind: u8,
    /// A bit for each IP header, the lowest for the first, set where it is IPv4 with a fixed identification.
    pub modes: u8,
    /// The number of the queue, or of the tap whose window it is, from 0.
    pub lane: u8,
    /// How many packets were merged: 1 of a single one, 0 of a window.
    pub n: u32,
    /// How many bytes of payload the first packet has where several were merged, else 0.
    pub m: u32,
    /// The number of the record, or of the first one that was merged, from 0.
    pub number: u32,
}

impl OffHead2 {
    /// The header's fields in 16 bytes.
    pub fn read(bytes: &[u8; OFF_HEAD2_LEN]) -> OffHead2
        ensures fields { result ≡ off_head2 bytes.now }
    {
        OffHead2 {
            version: bytes[0],
            kind: bytes[1],
            modes: bytes[2],
            lane: bytes[3],
            n: be32(bytes, 4),
            m: be32(bytes, 8),
            number: be32(bytes, 12),
        }
    }

    /// The header's 16 bytes.
    pub fn bytes(&self) -> [u8; OFF_HEAD2_LEN]
        ensures bytes { result ≡ off_bytes2 self.now }
    {
        let mut out = [0u8; OFF_HEAD2_LEN];
        Order::Big.put32(&mut out[12..], self.number);
        Order::Big.put32(&mut out[8..], self.m);
        Order::Big.put32(&mut out[4..], self.n);
        out[3] = self.lane;
        out[2] = self.modes;
        out[1] = self.kind;
        out[0] = self.version;
        out
    }
}

/// An offload header of either version, as its first byte tells it.
#[derive(Clone, Copy, Debug, PartialEq, Eq)]
pub enum AnyHead {
    V1(OffHead),
    V2(OffHead2),
}

impl AnyHead {
    /// The header that these bytes begin with: of version 2 where the first is 2, and else of version 1, whatever it
    /// says. `None` where fewer bytes are there than that version has.
    pub fn read(bytes: &[u8]) -> Option<AnyHead>
        ensures fields { IfSome result (λ head. head ≡ any_head bytes.now) }
        ensures there { IsSome result ↔ (head_size (any_head bytes.now) ≤ length bytes.now) }
    {
        match bytes.first() {
            Some(2) => match bytes.first_chunk::<OFF_HEAD2_LEN>() {
                Some(front) => Some(AnyHead::V2(OffHead2::read(front))),
                None => None,
            },
            _ => match bytes.first_chunk::<OFF_HEAD_LEN>() {
                Some(front) => Some(AnyHead::V1(OffHead::read(front))),
                None => None,
            },
        }
    }

    /// How many bytes it has.
    pub fn size(&self) -> u32
        ensures size { result ≡ head_size self.now }
    {
        match self {
            AnyHead::V1(_) => OFF_HEAD_LEN as u32,
            AnyHead::V2(_) => OFF_HEAD2_LEN as u32,
        }
    }

    /// Its fields, those of version 1 in the wider ones of version 2.
    pub fn fields(&self) -> OffHead2
        ensures fields { result ≡ fields_in self.now }
    {
        match self {
            AnyHead::V1(head) => OffHead2 {
                version: head.version,
                kind: head.kind,
                modes: head.modes,
                lane: head.lane,
                n: u32::from(head.n),
                m: u32::from(head.m),
                number: head.number,
            },
            AnyHead::V2(head) => *head,
        }
    }

    /// Whether it says the version that it was read as.
    pub fn says_version(&self) -> bool
        ensures version { result ≡ says_version_of self.now }
    {
        match self {
            AnyHead::V1(head) => head.version == 1,
            AnyHead::V2(head) => head.version == 2,
        }
    }
}
