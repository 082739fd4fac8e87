//! Laws of the definitions, each carried by a function that does nothing.

ghost use Rattle.frame_layout.specs.Rss.{RssIsOfLayers};
ghost use Rattle.frame_layout.specs.Laws.{HeadersAreLaid, AlikeKeepsShape, AlikeKeepsKey, CandidatesAreShort};

/// The headers of a shape lie one behind the other, within the frame and within its first 200 bytes.
pub fn headers_are_laid()
    ensures law { HeadersAreLaid }
{}

/// A frame that differs from one with a shape in lengths, sums, identifications, sequence numbers and TCP flags alone
/// has the same shape.
pub fn alike_keeps_shape()
    ensures law { AlikeKeepsShape }
{}

/// Such a frame is of the same flow.
pub fn alike_keeps_key()
    ensures law { AlikeKeepsKey }
{}

/// The payload of a candidate of at most 262,144 bytes has at most 262,070.
pub fn candidates_are_short()
    ensures law { CandidatesAreShort }
{}

/// What receive side scaling reads of a frame's key is what the frame's layers say: the addresses of the first IP
/// header, and the ports of a TCP or UDP header directly behind it.
pub fn rss_is_of_layers()
    ensures law { RssIsOfLayers }
{}
