//! What was done to packets.

/// What was done to packets. Each count stays at `2^64 - 1`.
#[derive(Clone, Copy, Debug, PartialEq, Eq)]
pub struct Counts {
    /// Sums that were filled in.
    pub filled: u64,
    /// Sums that were left though they aren't right, of packets with a shape and right lengths.
    pub wrong: u64,
    /// Packets that were cut.
    pub cut: u64,
    /// Packets of more than 1,514 bytes that were left uncut.
    pub long: u64,
}

impl Counts {
    /// Of no packets.
    pub const NONE: Counts = Counts {
        filled: 0,
        wrong: 0,
        cut: 0,
        long: 0,
    };
}
