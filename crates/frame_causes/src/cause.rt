//! The causes.

/// Why a frame can't be merged.
#[derive(Clone, Copy, Debug, PartialEq, Eq)]
pub enum Cause {
    /// It can.
    Mergeable,
    /// It was cut short.
    Cut,
    /// It is a fragment.
    Fragment,
    /// Its IPv4 header has options.
    Options,
    /// Its IPv6 header is followed by an extension header.
    Extension,
    /// Its headers are others than those that merge.
    Layout,
    /// A length in its headers doesn't count to its end.
    Length,
    /// A reserved bit is set, or TCP's control bits are others than ACK with at most PSH and FIN.
    Flags,
    /// It has no payload.
    Empty,
    /// A sum is wrong.
    Sum,
}
