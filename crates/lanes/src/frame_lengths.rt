//! How long frames are on average, by which it is decided who works them. Only speed rests on it.
use crate::lane::Lanes;
use gro::Packets;

/// Frames are short below so many bytes on average.
const SHORT_FRAME: usize = 1024;

/// Fewer packets say little of those behind them.
pub const SOME_PACKETS: usize = 16;

/// How many packets there are, and how many bytes their frames have together.
#[derive(Clone, Copy)]
pub struct FrameLengths {
    packets: usize,
    bytes: usize,
}

impl FrameLengths {
    /// Those of no packets.
    pub fn new() -> FrameLengths {
        FrameLengths {
            packets: 0,
            bytes: 0,
        }
    }

    /// These packets are counted too.
    pub fn add(&mut self, packets: &Packets) {
        self.packets = self.packets.saturating_add(packets.len());
        for slot in packets.slots() {
            self.bytes = self.bytes.saturating_add(slot.skb.len());
        }
    }

    /// Whether there are some packets whose frames are short on average. Such are best worked where they are read: to
    /// hand their blocks from one processor to another costs more than work side by side saves.
    pub fn are_short(&self) -> bool {
        self.packets >= SOME_PACKETS && self.bytes / SHORT_FRAME < self.packets
    }
}

/// Whether the lanes of a round have some packets whose frames are short on average.
pub fn have_short_frames(lanes: &Lanes) -> bool {
    let mut lengths = FrameLengths::new();
    for lane in &lanes.queues {
        lengths.add(&lane.packets);
    }
    lengths.are_short()
}
