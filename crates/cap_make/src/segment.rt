//! What tells one generated TCP segment from another.

/// A flow's number, and what a segment of the flow has in its headers.
#[derive(Clone, Copy, Debug, PartialEq, Eq)]
pub struct Segment {
    /// From 0 to 7.
    pub flow: u8,
    /// The number of its first payload byte in the TCP stream.
    pub sequence: u32,
    /// That of its IPv4 headers, if it has any.
    pub identification: u16,
    /// TCP's control bits.
    pub flags: u8,
}
