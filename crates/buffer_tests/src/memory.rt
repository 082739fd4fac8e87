//! Blocks, and room for what comes home of them. Where there is no memory the test ends.
ghost use Rattle.std.specs.Prelude.{◌≤◌};

use frags::Outcomes;
use raw_block::Sole;
use std::alloc::Global;
use std::process::Abort;

pub fn block(rt: &impl Abort, alloc: Global) -> Sole {
    Sole::new(alloc).expect(rt, "no block")
}

/// Room for so many.
pub fn room_for(rt: &impl Abort, alloc: Global, n: usize) -> Outcomes
    ensures room { n ≤ result.spare }
{
    Outcomes::with_room(alloc, n).expect(rt, "no room")
}
