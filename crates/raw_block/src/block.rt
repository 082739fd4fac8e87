//! The memory of a block: a count word, and what it counts the holders of.
//!
//! ```text
//! Box<Block<Bytes>>, one allocation of 2056 bytes
//! +-----------+----------------------------------+
//! | word: u64 | content: 2048 bytes              |
//! +-----------+----------------------------------+
//! ```
//!
//! While a `Sole` has the box nobody steps the word. While parts hold the block its word is what they weigh together,
//! and the content is shared memory that nobody writes.
ghost use Rattle.std.specs.Prelude.{◌≡◌, ◌+◌, ◌≤◌, length, slice_range};
ghost use Rattle.std.specs.Borrow.{sem};
ghost use Rattle.raw_block.specs.Lending.{lends_range};

use block_weight::BLOCK_SIZE;

/// A count word and a content, side by side in one allocation.
#[derive(Drop)]
pub(crate) struct Block<T> {
    pub(crate) word: u64,
    pub(crate) content: T,
}

/// The bytes of a block, in a struct of their own, so that a clause can say what a loan of some of them leaves.
#[derive(Drop)]
pub(crate) struct Bytes {
    pub(crate) bytes: [u8; BLOCK_SIZE],
}

impl Bytes {
    /// The bytes `from..to`, for writing.
    pub(crate) fn range_mut(&mut self, from: usize, to: usize) -> &mut [u8]
        requires range { (from ≤ to) × (to ≤ 2048) }
        ensures* writes_back { sem 𝓛 (lends_range self.entry from result) }
        ensures value { (result.now ≡ slice_range self.old.bytes from to) × (length result.now + from ≡ to) }
    {
        &mut self.bytes[from..to]
    }
}
