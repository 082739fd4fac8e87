//! Why a capture is refused, and where.
ghost use Rattle.std.specs.Prelude.{◌≡◌};

/// What is wrong with a capture, in the order in which it is judged.
#[derive(Clone, Copy, Debug, PartialEq, Eq)]
pub enum CapKind {
    /// Fewer than 24 bytes.
    ShortHeader,
    /// The first four bytes are none of the four spellings of the two magic numbers.
    BadMagic,
    /// The version isn't 2.4.
    BadVersion,
    /// The link type isn't the wanted one, all 32 bits.
    BadLinkType,
    /// 1 to 15 bytes are left where a record header should stand.
    ShortRecordHeader,
    /// A record header follows whose number would be 2^32.
    TooMany,
    /// The captured length is above 262,144 (262,160 in link type 147).
    TooLong,
    /// The original length is above 2^31 - 1 (in link type 147 above 2^31 + 15, or below 12).
    BadOriginal,
    /// In link type 147, the captured length is below 12.
    BadOffload,
    /// Fewer bytes follow a record header than were captured.
    ShortRecord,
}

/// A capture's fault: its kind, the place of the refused field or record in the file, and the record's number (0 for a
/// fault of the file header).
#[derive(Clone, Copy, Debug, PartialEq, Eq)]
pub struct CapFault {
    pub kind: CapKind,
    /// In bytes from the file's start. A record's place is that of its header.
    pub offset: u64,
    /// From 0, or from where the reader was told to begin.
    pub number: u64,
}

/// Why reading stopped: the capture's own fault, or the source's.
#[derive(Clone, Copy, Debug, PartialEq, Eq)]
pub enum InFault {
    Cap(CapFault),
    ReadFault,
}

impl CapKind {
    ghost use Rattle.pcap_io.specs.Headers.{file_place};

    // Where in a file header a fault of this kind lies.
    pub(crate) fn file_place(self) -> u64
        ensures place { result ≡ file_place self }
    {
        match self {
            CapKind::BadVersion => 4,
            CapKind::BadLinkType => 20,
            _ => 0,
        }
    }
}
