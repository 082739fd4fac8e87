//! The rounds of a command that merges, over one pool of blocks.
ghost use Rattle.std.specs.Prelude.{◌≡◌, length, IfOk};
ghost use Rattle.offload_words.specs.Merge.{IsInRange};
ghost use Rattle.command_rounds.specs.Plans.{plan_of};

use lanes::{LanePlan, SharedProgram};
use offload_words::MergeOptions;
use rounds::Rounds;
use std::alloc::{AllocError, Global};

/// The pool, and memory for rounds of these options. To be checked, rounds keep a clone of each packet.
pub fn make_rounds(alloc: Global, options: MergeOptions, keep: bool) -> Result<Rounds, AllocError>
    requires range { IsInRange options }
    ensures made { IfOk result (λ rounds. rounds ≡ record {
      stock = rounds.stock;
      blocks = options.blocks;
      taken = 0;
      empties = 0;
      pauses = 0;
      spares = record { lent = 0; given = 0; refused = 0 };
      budget = options.budget;
      plan = plan_of options;
      keep = keep;
    }) }
    ensures stock { IfOk result (λ rounds. length rounds.stock ≡ options.blocks) }
{
    let MergeOptions {
        queues,
        budget,
        blocks,
        taps,
        snap,
        segs,
        choice,
        filter,
    } = options;
    let filter = match filter {
        Some(program) => Some(SharedProgram::new(alloc, program)?),
        None => None,
    };
    let plan = LanePlan {
        queues,
        taps,
        snap,
        choice,
        segs,
        filter,
    };
    Rounds::make(alloc, blocks, budget, plan, keep)
}
