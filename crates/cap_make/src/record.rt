//! The bytes of one record.
ghost use Rattle.std.specs.Prelude.{◌≡◌, ◌+◌, ◌≤◌, ◌++◌, ◌↔◌, [], length, take, drop, min, IsTrue};
ghost use Rattle.pcap_io.specs.declared.heads.Link.TheVariants.{Ethernet};
ghost use Rattle.pcap_io.specs.Written.{file_bytes};
ghost use Rattle.cap_make.specs.Frames.{counting};
ghost use Rattle.cap_make.specs.Capture.{made_head};

use std::marker::Model;

/// The most bytes of a record: its header, the headers of a tunnel, and the payload.
pub const SIZE: usize = 1320;

/// The bytes of a record, of which a front may be gone. Each header is pushed before what it carries.
#[derive(Drop)]
pub struct RecordBytes {
    /// Filled from its end.
    bytes: [u8; SIZE],
    /// Where the bytes begin that are there; they end with the array.
    from: usize,
}

impl Model for RecordBytes {
    ghost use Rattle.std.specs.Prelude.{ℕ, List, ◌≤◌, drop};

    ghost Value = { List ℕ };

    ghost view = { λ r. drop r.from r.bytes };

    ghost invariant = { λ r. r.from ≤ 1320 };
}

impl RecordBytes {
    /// The file header of a generated capture, in a record's place.
    pub fn of_file_header() -> Self
        ensures bytes { result ≡ file_bytes made_head Ethernet }
    {
        let mut buffer = RecordBytes {
            bytes: [0; SIZE],
            from: SIZE,
        };
        buffer.push(&file_header());
        buffer
    }

    /// Whether it holds no byte.
    pub fn is_empty(&self) -> bool
        ensures empty { IsTrue result ↔ self.now ≡ [] }
    {
        self.bytes().is_empty()
    }

    /// The bytes of the record, at most 1,320.
    pub fn bytes(&self) -> &[u8]
        ensures bytes { result.now ≡ self.now }
        ensures short { length self.now ≤ 1320 }
    {
        &self.bytes[self.from..]
    }

    /// Begins a record, by its payload: `len` bytes that count up from `first`.
    pub fn start(&mut self, first: u32, len: usize)
        requires room { len ≤ 1320 }
        ensures bytes { self.new ≡ counting first len }
        ensures len { length self.new ≡ len }
    {
        self.from = SIZE - len;
        count_up(&mut self.bytes[self.from..], (first % 256) as u8);
    }

    /// Pushes a header.
    #[inline(always)]
    pub fn push(&mut self, header: &[u8])
        requires room { length header.now + length self.old ≤ 1320 }
        ensures bytes { self.new ≡ header.now ++ self.old }
    {
        let end = self.from;
        self.from = end - header.len();
        self.bytes[self.from..end].copy_from_slice(header);
    }

    /// Moves a front to `into`, as much as there is and as fits.
    pub fn take(&mut self, into: &mut [u8]) -> usize
        ensures count { result ≡ min (length self.old) (length into.new) }
        ensures front { take result into.new ≡ take result self.old }
        ensures rest { self.new ≡ drop result self.old }
    {
        let count = self.bytes().len().min(into.len());
        into[..count].copy_from_slice(&self.bytes[self.from..self.from + count]);
        self.from += count;
        count
    }
}

fn count_up(bytes: &mut [u8], first: u8)
    ensures bytes { bytes.new ≡ counting first (length bytes.old) }
{
    let mut next = first;
    for byte in bytes.iter_mut() {
        *byte = next;
        next = next.wrapping_add(1);
    }
}

// Little-endian, microseconds, version 2.4, the greatest captured length as snaplen, Ethernet (pcap file format,
// section 4).
fn file_header() -> [u8; 24]
    ensures bytes { result ≡ file_bytes made_head Ethernet }
{
    [
        0xd4, 0xc3, 0xb2, 0xa1, 2, 0, 4, 0, 0, 0, 0, 0, 0, 0, 0, 0, 0, 0, 4, 0, 1, 0, 0, 0,
    ]
}
