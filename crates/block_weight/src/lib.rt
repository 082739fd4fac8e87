//! The size of a block, what it weighs, and the rule of weights that each step on a shared block's word keeps.
#![tactic(auto)]

ghost use Rattle.block_weight.specs.WeightRule.{WeightRule};

/// The weight of a whole block.
pub const FULL: u64 = 1 << 62;

/// How many bytes a block has.
pub const BLOCK_SIZE: usize = 2048;

/// The rule of weights, which each step on a shared block's word keeps.
pub fn weights_balance()
    ensures law { WeightRule }
{}
