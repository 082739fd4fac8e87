//! The headers of a capture.
ghost use Rattle.std.specs.Prelude.{◌≡◌, ◌≤◌, length};
ghost use Rattle.pcap_io.specs.Headers.{spelling_of};

use byteorder::{BigEndian, ByteOrder, LittleEndian};
use net_bytes::Order;

/// The link type of a capture: what a record's bytes are.
#[derive(Clone, Copy, Debug, PartialEq, Eq)]
pub enum Link {
    /// Number 1: Ethernet frames.
    Ethernet,
    /// Number 147, the first one for private use: an offload header of 12 or 16 bytes before each frame.
    Offload,
}

/// A file header's fields that a reader passes on: byte order, whether fractions are nanoseconds (else microseconds),
/// and the two fields after the version, unjudged.
#[derive(Clone, Copy, Debug, PartialEq, Eq)]
pub struct FileHead {
    /// Of all numbers in the file header and in record headers.
    pub order: Order,
    pub nanos: bool,
    /// Bytes 8 to 11, once the time zone, now reserved.
    pub zone: u32,
    /// Bytes 12 to 15, once the accuracy of times, now reserved.
    pub sigfigs: u32,
}

/// A record header: time, captured and original length in bytes; and the record's number and its place in the file.
#[derive(Clone, Copy, Debug, PartialEq, Eq)]
pub struct RecHead {
    /// The seconds of the packet's time, unjudged.
    pub sec: u32,
    /// The fraction of a second, in the file header's unit, unjudged.
    pub frac: u32,
    /// How many bytes of the record follow its header.
    pub captured: u32,
    /// How many bytes the packet had on the wire. In link type 147 those of the offload header count too.
    pub original: u32,
    /// From 0, or from where the reader was told to begin.
    pub number: u32,
    /// Where the header begins, in bytes from the file's start.
    pub offset: u64,
}

pub(crate) const MICROS: u32 = 0xa1b2c3d4;

pub(crate) const NANOS: u32 = 0xa1b23c4d;

// The byte order and the unit of time (true: nanoseconds) that a capture's first four bytes name.
pub(crate) fn spelling(bytes: &[u8]) -> Option<(Order, bool)>
    requires long { 4 ≤ length bytes.now }
    ensures value { result ≡ spelling_of bytes.now }
{
    match BigEndian::read_u32(bytes) {
        MICROS => return Some((Order::Big, false)),
        NANOS => return Some((Order::Big, true)),
        _ => {}
    }
    match LittleEndian::read_u32(bytes) {
        MICROS => Some((Order::Little, false)),
        NANOS => Some((Order::Little, true)),
        _ => None,
    }
}
