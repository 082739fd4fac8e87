//! How the work of a round is divided.

use crate::shared::SharedProgram;
use frame_layout::Choice;

/// How many lanes there are, and how far a tap reads.
#[derive(Drop)]
pub struct LanePlan {
    /// The receive queues, from 1 to 64.
    pub queues: u32,
    /// The taps, from 0 to 8.
    pub taps: u32,
    /// The bytes of a tap's window, from 1 to 2,048.
    pub snap: u32,
    /// How flows go to the queues.
    pub choice: Choice,
    /// The packets of a run, at most.
    pub segs: u32,
    /// What taps are shown of each packet: as many bytes as its value. All where there is none.
    pub filter: Option<SharedProgram>,
}
