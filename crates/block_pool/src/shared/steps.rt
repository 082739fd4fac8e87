//! The steps on the queue. Only `pop_once` and `push_once` take and put, and only they count what was refused.
ghost use Rattle.std.specs.Prelude.{◌≡◌, ℕ, ◌+◌, ◌<◌, [], ◌∷◌, ◌++◌, length, OnErr, MatchResult, MatchOption};
ghost use Rattle.std.specs.List.{sum_by};
ghost use Rattle.crossbeam_queue.specs.Passes.{view, IsPassOf, ruled_capacity};
ghost use Rattle.block_pool.specs.QueueRule.{tally};
ghost use Rattle.block_pool.specs.PassState.{Took, Put, FoundEmpty, FoundFull};

use super::QueuePass;
use super::rule::{Fills, Items, Puts, Takes, Tally};
use crossbeam_queue::Pass;
use std::sync::Wait;

// Waits for ever. A count of what was done can't wrap: whoever stands at its end, after 2^64 - 1 steps, goes no
// further, as the queue itself doesn't after 2^62 pushes.
pub(super) fn stall<R: Wait>(rt: &R)
    ensures never { ⊥ }
{
    for _ in rt.forever() {}
    unreachable!()
}

/// One of the items that the pool is made with goes home.
pub(super) fn fill_once<T: Drop, R: Wait>(
    rt: &R,
    queue: &Items<T>,
    pass: &mut Pass<T, Tally<T>>,
    item: T,
)
    requires queue { IsPassOf queue.now pass.old }
    requires view { view pass.old ≡ tally 65536 (view pass.old).made [] [] }
    requires room { length (view pass.old).made < ruled_capacity queue.now }
    ensures queue { IsPassOf queue.now pass.new }
    ensures view { view pass.new ≡ tally 65536 ((view pass.old).made ++ item ∷ []) [] [] }
{
    match queue.push_as::<Fills, R>(rt, pass, item) {
        Ok(()) => {}
        Err(_) => unreachable!(),
    }
}

/// One pop. `None` where the queue was empty at its step, which is counted.
pub(super) fn pop_once<T, R: Wait>(rt: &R, queue: &Items<T>, pass: &mut QueuePass<T>) -> Option<T>
    requires own { pass.old.pool ≡ queue.now.table.shared.table_id }
    ensures step { MatchOption result (FoundEmpty pass.old pass.new) (λ item. Took pass.old item pass.new) }
    ensures sure { pass.old.parts ≡ 65536 → MatchOption result (pass.old.takes ≡ pass.old.size + pass.old.puts)
        (λ _. Unit {0}) }
    ensures weighed { pass.old.parts ≡ 65536 → MatchOption result
        ((h : T → ℕ) → sum_by h pass.old.taken ≡ sum_by h pass.old.made + sum_by h pass.old.put) (λ _. Unit {0}) }
{
    if pass.takes == u64::MAX {
        stall(rt);
    }
    let taken = queue.pop_as::<Takes, R>(rt, &mut pass.pass);
    if taken.is_some() {
        pass.takes += 1;
    } else {
        pass.empties = pass.empties.saturating_add(1);
    }
    taken
}

/// One push. The item comes back where the queue was full at its step, which is counted.
pub(super) fn push_once<T, R: Wait>(
    rt: &R,
    queue: &Items<T>,
    pass: &mut QueuePass<T>,
    item: T,
) -> Result<(), T>
    requires own { pass.old.pool ≡ queue.now.table.shared.table_id }
    ensures step { MatchResult result (λ _. Put pass.old item pass.new)
        (λ back. (back ≡ item) × FoundFull pass.old pass.new) }
    ensures sure { pass.old.parts ≡ 65536
        → OnErr result (ruled_capacity queue.now + pass.old.takes ≡ pass.old.size + pass.old.puts) }
{
    if pass.puts == u64::MAX {
        stall(rt);
    }
    match queue.push_as::<Puts, R>(rt, &mut pass.pass, item) {
        Ok(()) => {
            pass.puts += 1;
            Ok(())
        }
        Err(back) => {
            pass.fulls = pass.fulls.saturating_add(1);
            Err(back)
        }
    }
}
