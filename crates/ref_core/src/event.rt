/// What a holder does with a block.
///
/// Blocks and holders are told by their numbers, and a place is that of a byte in its block, from 0.
#[derive(Clone, Copy, Debug, PartialEq, Eq)]
pub enum Event {
    /// A fresh holder takes a block that nobody holds.
    Take { block: u32, holder: u32 },
    /// A holder lets a fresh one hold its block too, and gives it a part of its weight.
    Share { holder: u32, fresh: u32, give: u64 },
    /// A holder reads a byte of its block.
    Read { holder: u32, place: u32 },
    /// A block's only holder writes a byte.
    Write { holder: u32, place: u32, byte: u8 },
    /// A holder is no longer live.
    GiveBack { holder: u32 },
    /// A holder asks whether it is the only one.
    Claim { holder: u32 },
    /// Two holders of one block become one.
    Join { holder: u32, other: u32 },
}

/// What a machine answers to an event.
#[derive(Clone, Copy, Debug, PartialEq, Eq)]
pub enum Answer {
    Done,
    Byte(u8),
    /// No holder of the block is left.
    Last,
    /// Others still hold the block.
    Left,
    Yes,
    No,
    /// The weight to be given is 0, or not below the holder's own.
    BadGive,
    /// The event is not lawful, and changed nothing.
    Unlawful,
}
