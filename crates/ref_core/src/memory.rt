//! The bytes of the blocks of a machine.
ghost use Rattle.std.specs.Prelude.{◌≡◌, ◌<◌, length, IfOk, slice_index_or};
ghost use Rattle.ref_core.specs.Memory.{byte_at, with_byte, zeroed, block_size};

use block_weight::BLOCK_SIZE;
use std::alloc::{AllocError, Global};
use std::marker::Model;

#[derive(Drop)]
pub(crate) struct Memory {
    blocks: Vec<[u8; BLOCK_SIZE]>,
}

impl Model for Memory {
    ghost use Rattle.ref_core.specs.Memory.{Memory};

    ghost Value = { Memory };

    ghost view = { λ m. m.blocks.items };
}

impl Memory {
    pub(crate) fn zeroed(alloc: Global, blocks: usize) -> Result<Memory, AllocError>
        ensures zeros { IfOk result (λ m. m ≡ zeroed blocks) }
    {
        let mut zeros = Vec::with_capacity(alloc, blocks)?;
        for made in 0..blocks {
            zeros.push_reserved([0; BLOCK_SIZE]);
        }
        Ok(Memory { blocks: zeros })
    }

    pub(crate) fn len(&self) -> usize
        ensures len { result ≡ length self.now }
    {
        self.blocks.len()
    }

    pub(crate) fn byte(&self, block: usize, place: usize) -> u8
        requires inside { (block < length self.now) × (place < block_size) }
        ensures value { result ≡ byte_at self.now block place }
    {
        self.blocks[block][place]
    }

    pub(crate) fn set_byte(&mut self, block: usize, place: usize, byte: u8)
        requires inside { (block < length self.old) × (place < block_size) }
        ensures written { self.new ≡ with_byte self.old block place byte }
    {
        self.blocks[block][place] = byte;
    }
}
