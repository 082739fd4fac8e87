//! What is away from the side that reads.

/// How many blocks are away with rounds. It tells whether more is worth waiting for, and no proof rests on it: the side
/// that reads counts what it sends and what comes.
#[derive(Clone, Copy)]
pub struct Away {
    /// The blocks that went with rounds and are still to come.
    out: u32,
    // Of the round that went last, those that come back only once it is written.
    last: u32,
}

impl Away {
    /// One round is away, of so many blocks, and so many of these are spares.
    pub fn new(blocks: u32, spares: u32) -> Away {
        let mut away = Away { out: 0, last: 0 };
        away.lend(blocks, spares);
        away
    }

    /// Another round goes.
    pub(crate) fn lend(&mut self, blocks: u32, spares: u32) {
        self.out = self.out.saturating_add(blocks);
        self.last = blocks.saturating_sub(spares);
    }

    /// So many blocks came.
    pub(crate) fn meet(&mut self, blocks: u32) {
        self.out = self.out.saturating_sub(blocks);
    }

    /// Whether a list may come before the last round is written: of its spares, or of an older round.
    pub(crate) fn may_bring(&self) -> bool {
        self.out > self.last
    }
}
