//! The name of a block: a number that is chosen as the block is made, and that no program can read.
ghost use Rattle.std.specs.Prelude.{◌≡◌, ◌≢◌, ℕ};

use std::marker::Model;

/// A block's name, which its Sole has, and a life of the block while it lasts. Of each name there is only one that is
/// owned, so no two live blocks have the same.
#[derive(Drop)]
pub(crate) struct Name {
    ghost id: { ℕ },
}

impl Model for Name {
    ghost use Rattle.raw_block.specs.Shares.{name_owns};

    ghost also_owns = { λ n. name_owns n.id };
}

impl Name {
    /// A name that no block has.
    pub(crate) fn new() -> Name {
        Name {}
    }

    /// Two names that are owned side by side are not the same.
    pub(crate) fn differ(&mut self, other: &mut Name)
        ensures names { self.old.id ≢ other.old.id }
        ensures same { (self.new.id ≡ self.old.id) × (other.new.id ≡ other.old.id) }
    {}
}

unsafe impl Send for Name {}

unsafe impl Sync for Name {}
