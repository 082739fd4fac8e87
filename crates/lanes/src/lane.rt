//! The lanes of a round: what each worker and each tap has to do, and then what it has done. Between two rounds they
//! are idle, and keep their memory.
ghost use Rattle.lanes.specs.Lanes.{AreIdle, IsIdleQueue, IsIdleTap};

use crate::free::{free_queues, free_taps};
use frags::Outcomes;
use frame_runs::Engine;
use gro::Packets;
use std::alloc::Global;
use taps::{TapClone, TapTexts};

/// The lane of a receive queue. It must be spent: its packets.
pub struct QueueLane {
    /// The queue's number, from 0.
    pub queue: u32,
    /// Its packets, in the order of their numbers. They lie still until they are brought home.
    pub packets: Packets,
    /// Their runs, by index, once they are merged. It keeps its memory from round to round.
    pub engine: Engine,
}

/// The lane of a tap. It must be spent: its clones and its outcomes.
pub struct TapLane {
    /// The tap's number, from 0.
    pub tap: u32,
    /// A clone of each packet that it still has to read.
    pub clones: Vec<TapClone>,
    /// The windows that it has read; None before, and where memory was refused.
    pub texts: Option<TapTexts>,
    /// Where it writes them: those of the round before, as memory alone.
    pub memory: TapTexts,
    /// What its clones left.
    pub outcomes: Outcomes,
}

/// All lanes of a round. They must be spent. Idle ones serve the next round, of whichever plan.
pub struct Lanes {
    /// By queue.
    pub queues: Vec<QueueLane>,
    /// By tap.
    pub taps: Vec<TapLane>,
}

impl QueueLane {
    /// An idle lane, which has no memory yet.
    pub fn new(alloc: Global, queue: u32) -> QueueLane
        ensures idle { IsIdleQueue result }
    {
        QueueLane {
            queue,
            packets: Packets::new(alloc),
            engine: Engine::new(alloc),
        }
    }
}

impl TapLane {
    /// An idle lane, which has no memory yet.
    pub fn new(alloc: Global, tap: u32) -> TapLane
        ensures idle { IsIdleTap result }
    {
        TapLane {
            tap,
            clones: Vec::new(alloc),
            texts: None,
            memory: TapTexts::new(alloc),
            outcomes: Outcomes::new(alloc),
        }
    }
}

impl Lanes {
    /// No lanes yet. The first round makes them.
    pub fn new(alloc: Global) -> Lanes
        ensures idle { AreIdle result }
    {
        Lanes {
            queues: Vec::new(alloc),
            taps: Vec::new(alloc),
        }
    }

    /// Frees the memory of lanes that are idle. They hold no block.
    pub fn free(self)
        requires idle { AreIdle self }
    {
        let Lanes { queues, taps } = self;
        free_queues(queues);
        free_taps(taps);
    }
}
