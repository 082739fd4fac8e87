//! What packets begin with.

/// What the packets of a burst begin with.
#[derive(Clone, Copy)]
pub enum Link {
    /// An Ethernet header.
    Ethernet,
    /// An IP header, as those of a TUN device. They are merged as if an Ethernet header stood in front of each, with
    /// addresses of zeros and the type of their version, and nothing that is told has that header.
    RawIp,
}
