//! Bounds of what packets are merged into.
ghost use Rattle.std.specs.Prelude.{◌≡◌};
ghost use Rattle.offload_model.specs.Mergeable.{up_to as limits_up_to};

use pcap_io::FRAME_LIMIT;

/// Bounds of what packets are merged into.
#[derive(Clone, Copy)]
pub struct Limits {
    /// How many packets there are at most.
    pub segs: u32,
    /// How many bytes the merged frame has at most.
    pub bytes: u32,
}

impl Limits {
    /// At most so many packets, and as many bytes as a frame may have.
    pub fn up_to(segs: u32) -> Limits
        ensures limits { result ≡ limits_up_to segs }
    {
        Limits {
            segs,
            bytes: FRAME_LIMIT,
        }
    }
}
