//! The only holder of a block.
ghost use Rattle.std.specs.Prelude.{◌≡◌, ◌≢◌, ◌+◌, ◌≤◌, length, replicate, slice_range, IfOk};
ghost use Rattle.std.specs.Borrow.{sem};
ghost use Rattle.block_weight.specs.WeightRule.{full_weight};
ghost use Rattle.raw_block.specs.Lending.{lends_bytes, lends_content};

use crate::block::{Block, Bytes};
use crate::heap::OnHeap;
use crate::held::Share;
use crate::name::Name;
use crate::part::Part;
use block_weight::{BLOCK_SIZE, FULL};
use std::alloc::{AllocError, Global};
use std::marker::Model;

/// A block that nobody else holds: the only one who may write its bytes.
#[derive(Drop)]
pub struct Sole {
    /// The word, which nobody steps meanwhile, and the 2048 bytes behind it.
    pub(crate) block: Box<Block<Bytes>, Global>,
    /// The block's number for proofs, the same through all of its lives. It has no bytes.
    pub(crate) name: Name,
    /// Where the block's memory came from. The parts of its next life carry it.
    pub(crate) alloc: Global,
    /// A number that whoever has the Sole may set, 0 in a new block. The parts of its next life carry it.
    pub(crate) mark: u32,
}

impl Model for Sole {
    ghost use Rattle.raw_block.specs.Views.{SoleState};

    ghost Value = { SoleState };

    ghost view = { λ s. record {
      block = s.name.id;
      bytes = s.block.value.content.bytes;
      mark = s.mark;
    } };
}

// The bytes `from..to` of a block, for writing.
fn range_of(block: &mut Block<Bytes>, from: usize, to: usize) -> &mut [u8]
    requires range { (from ≤ to) × (to ≤ 2048) }
    ensures* writes_back { sem 𝓛 (lends_content block.entry from result) }
    ensures value { (result.now ≡ slice_range block.old.content.bytes from to) × (length result.now + from ≡ to) }
{
    block.content.range_mut(from, to)
}

impl Sole {
    /// A block of zeros, with the mark 0.
    pub fn new(alloc: Global) -> Result<Sole, AllocError>
        ensures zeros { IfOk result (λ sole. (sole.bytes ≡ replicate 2048 0) × (sole.mark ≡ 0)) }
    {
        let content = Bytes {
            bytes: [0; BLOCK_SIZE],
        };
        let block = Box::new(alloc, Block { word: 0, content })?;
        Ok(Sole {
            block,
            name: Name::new(),
            alloc,
            mark: 0,
        })
    }

    /// The 2048 bytes.
    pub fn bytes(&self) -> &[u8]
        ensures value { result.now ≡ self.now.bytes }
        ensures size { length result.now ≡ 2048 }
    {
        &self.block.content.bytes
    }

    /// The 2048 bytes, for writing.
    pub fn bytes_mut(&mut self) -> &mut [u8]
        ensures* writes_back { sem 𝓛 (lends_bytes self.entry 0 result) }
        ensures value { result.now ≡ self.old.bytes }
        ensures size { length result.now ≡ 2048 }
    {
        let size = self.bytes().len();
        self.range_mut(0, size)
    }

    /// The bytes `from..to` for writing.
    pub fn range_mut(&mut self, from: usize, to: usize) -> &mut [u8]
        requires range { (from ≤ to) × (to ≤ 2048) }
        ensures* writes_back { sem 𝓛 (lends_bytes self.entry from result) }
        ensures value { result.now ≡ slice_range self.old.bytes from to }
        ensures size { length result.now + from ≡ to }
    {
        range_of(&mut self.block, from, to)
    }

    /// Sets the mark, a number that the block's holders carry.
    pub fn set_mark(&mut self, mark: u32)
        ensures set { self.new ≡ record self.old { mark = mark } }
    {
        self.mark = mark;
    }

    /// The number that [`Sole::set_mark`] set.
    pub fn mark(&self) -> u32
        ensures value { result ≡ self.now.mark }
    {
        self.mark
    }

    /// Two Soles that stand side by side are of two blocks.
    pub fn differ(&mut self, other: &mut Sole)
        ensures blocks { self.old.block ≢ other.old.block }
        ensures same { (self.new ≡ self.old) × (other.new ≡ other.old) }
    {
        self.name.differ(&mut other.name);
    }

    /// A Sole and a part of a life that stand side by side are of two blocks.
    pub fn differ_from_part(&mut self, part: &mut Part)
        ensures blocks { part.old.life.block ≢ self.old.block }
        ensures same { (self.new ≡ self.old) × (part.new ≡ part.old) }
    {
        part.share.differ_from(&mut self.name);
    }

    /// A life of the block begins: one part with all the weight, the same bytes and the same mark.
    pub fn share(self) -> Part
        ensures whole { result.weight ≡ full_weight }
        ensures same { (result.life.block ≡ self.block) × (result.bytes ≡ self.bytes) × (result.mark ≡ self.mark) }
    {
        let Sole {
            mut block,
            name,
            alloc,
            mark,
        } = self;
        block.word = FULL;
        let share = Share::begin(OnHeap::of(block), mark, name);
        Part {
            share,
            weight: FULL,
            alloc,
            mark,
        }
    }
}
