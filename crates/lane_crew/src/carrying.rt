//! What tasks carry of the blocks that go back, and what comes back with them.
ghost use Rattle.std.specs.Prelude.{◌≡◌, ◌⊎◌, ◌+◌, ◌*◌, ◌<◌, ◌≤◌, max, IfOk, MatchOption, MatchResult};
ghost use Rattle.block_pool.specs.Giving.{Split};
ghost use Rattle.block_pool.specs.PoolState.{home};
ghost use Rattle.lane_crew.specs.Givers.{carried_in, Carries, MayJoin, Rejoined};

use block_pool::Giver;
use std::alloc::AllocError;
use std::sync::Wait;

// What one of so many has of the blocks that lie there. None where these are more than the blocks, or where there is no
// part of the pass for another.
fn part_for(own: &mut Giver, among: usize) -> Result<Option<Giver>, AllocError>
    ensures part { MatchResult result
        (λ part. MatchOption part (own.new ≡ own.old) (λ p. Split own.old p own.new)) (λ _. own.new ≡ own.old) }
    ensures even { IfOk result (λ part. (home own.old.list < (carried_in part + 1) * max 1 among)
        ⊎ (own.old.pass.parts ≤ 1)) }
{
    if own.parts() < 2 {
        return Ok(None);
    }
    let lying = own.lying() as usize;
    let n = (lying / among.max(1)).min(lying) as u32;
    if n == 0 {
        return Ok(None);
    }
    match own.split(n) {
        Ok(part) => Ok(Some(part)),
        Err(error) => Err(error),
    }
}

/// What one of so many tasks carries that are still to go: its even part of the list. For want of memory all stays.
pub(crate) fn carry(giver: &mut Option<Giver>, among: usize) -> Result<Option<Giver>, AllocError>
    ensures carried { MatchResult result (Carries (max 1 among) giver.old giver.new) (λ _. giver.new ≡ giver.old) }
{
    match giver {
        Some(own) => part_for(own, among),
        None => Ok(None),
    }
}

/// What a task carried comes back.
pub(crate) fn take_back<R: Wait>(rt: &R, giver: &mut Option<Giver>, back: Option<Giver>)
    requires may { MayJoin giver.old back }
    ensures back { Rejoined giver.old back giver.new }
{
    let Some(back) = back else { return };
    let Some(own) = giver else { unreachable!() };
    own.join(rt, back);
}
