//! Blocks that nobody reads go back to whoever takes lists, as soon as a lane is worked.
ghost use Rattle.block_pool.specs.Giving.{LeavesNone, MayGive};

use block_pool::Giver;
use std::sync::Wait;

/// The list goes back, where somebody gives. What finds no place stays.
pub fn give_back<R: Wait>(rt: &R, giver: &mut Option<Giver>)
    ensures gave { MayGive giver.old giver.new }
    ensures none_left { LeavesNone giver.old giver.new }
{
    if let Some(own) = giver {
        own.give(rt);
    }
}
