//! How packets that a host captured go on the wire.

/// How packets that a host captured go on the wire.
#[derive(Clone, Copy, Debug, PartialEq, Eq)]
pub struct Wiring {
    /// How many bytes of payload a segment has at most: 1 to 65,535.
    pub mss: u32,
    /// All sums that aren't right are filled in, tunnels' and IPv4 headers' as well, and not the partial ones alone.
    pub fills_all: bool,
}
