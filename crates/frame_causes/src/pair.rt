//! The causes of two frames.

/// Why the second of two frames doesn't continue the first.
#[derive(Clone, Copy, Debug, PartialEq, Eq)]
pub enum PairCause {
    /// It does.
    Mergeable,
    /// The first can't be merged itself.
    First,
    /// The second can't.
    Second,
    /// They are of two flows.
    Flow,
    /// Another field of their headers differs.
    Headers,
    /// One of them has a UDP sum, and the other none.
    UdpSum,
    /// The second is longer than the first.
    Longer,
    /// The first has another control bit of TCP than ACK, so its run ends with it.
    Flags,
    /// The second's sequence number isn't the one behind the first's payload.
    Sequence,
    /// An IPv4 identification neither rises by one nor stays under "don't fragment".
    Identification,
    /// Together they are longer than a length in their headers can say, or than any frame.
    TooLong,
}
