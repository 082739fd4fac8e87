//! What judging a packet gives.
ghost use Rattle.std.specs.Prelude.{◌≡◌, None};

use frame_layout::Layout;
use inet_sum::Partial;

/// Whether a packet may be merged: the layout of its headers, or `None`. If so, also the sum of its payload and its TCP
/// control bits.
#[derive(Drop)]
pub struct Candidacy {
    /// None where the packet may not be merged.
    pub layout: Option<Layout>,
    /// Of no bytes where there is no layout.
    pub payload: Partial,
    /// 0 where there is no layout, and of a datagram.
    pub flags: u8,
}

impl Candidacy {
    /// Of a packet that may not be merged.
    pub fn none() -> Candidacy
        ensures layout { result.layout ≡ None }
    {
        Candidacy {
            layout: None,
            payload: Partial::new(),
            flags: 0,
        }
    }
}
