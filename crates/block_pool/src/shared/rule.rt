//! The rule under which threads share the pool's queue, and the kinds of step that keep it.
//!
//! The queue holds items: blocks, or whole lists of blocks. Each pass knows its parts of the whole, what was made, and
//! what it took and put. The rule is `Kept`: whatever the threads do, what the queue holds and all that was taken is
//! what was made and all that was put.
use crossbeam_queue::RuledArrayQueue;
use crossbeam_queue::protocol::{Join, Lesson, Outcome, Protocol, Split};
use std::collections::LinkedList;

/// What a pass knows. No value of it is made.
pub struct Tally<T> {
    /// How many of the queue's 65,536 parts the pass has.
    pub parts: u32,
    /// The items that the pool was made with, in order.
    pub made: LinkedList<T>,
    /// The items that the pass took, in order, and behind them those of passes that were gathered into it.
    pub taken: LinkedList<T>,
    /// The items that the pass put, in the same order.
    pub put: LinkedList<T>,
}

/// The queue starts empty, and its first pass has all parts.
pub struct Fair;

impl<T> Protocol<T, Tally<T>> for Fair {
    ghost use Rattle.std.specs.Prelude.{[]};
    ghost use Rattle.block_pool.specs.QueueRule.{tally, Kept};

    ghost holds = { Kept };

    ghost first = { tally 65536 [] [] [] };
}

/// The queue of a pool's items.
pub type Items<T> = RuledArrayQueue<T, Tally<T>, Fair>;

/// A push while the pool is made.
pub struct Fills;

impl<T> Outcome<T, Tally<T>> for Fills {
    ghost use Rattle.std.specs.Prelude.{◌≡◌, [], ◌∷◌, ◌++◌};
    ghost use Rattle.block_pool.specs.QueueRule.{tally};

    ghost then = { λ v x w. w ≡ tally v.parts (v.made ++ x ∷ []) v.taken v.put };
}

impl<T> Lesson<T, Tally<T>> for Fills {
    ghost use Rattle.block_pool.specs.QueueRule.{Shown};

    ghost fact = { Shown };
}

/// A pop: the pass took the item that leaves at the front.
pub struct Takes;

impl<T> Outcome<T, Tally<T>> for Takes {
    ghost use Rattle.std.specs.Prelude.{◌≡◌, [], ◌∷◌, ◌++◌};
    ghost use Rattle.block_pool.specs.QueueRule.{tally};

    ghost then = { λ v x w. w ≡ tally v.parts v.made (v.taken ++ x ∷ []) v.put };
}

impl<T> Lesson<T, Tally<T>> for Takes {
    ghost use Rattle.block_pool.specs.QueueRule.{Shown};

    ghost fact = { Shown };
}

/// A push: the pass put the item that joins at the back.
pub struct Puts;

impl<T> Outcome<T, Tally<T>> for Puts {
    ghost use Rattle.std.specs.Prelude.{◌≡◌, [], ◌∷◌, ◌++◌};
    ghost use Rattle.block_pool.specs.QueueRule.{tally};

    ghost then = { λ v x w. w ≡ tally v.parts v.made v.taken (v.put ++ x ∷ []) };
}

impl<T> Lesson<T, Tally<T>> for Puts {
    ghost use Rattle.block_pool.specs.QueueRule.{Shown};

    ghost fact = { Shown };
}

/// A fork moves one part to a new pass. A gather adds up parts and what was taken and put.
pub struct Parts;

impl<T> Split<Tally<T>> for Parts {
    ghost use Rattle.std.specs.Prelude.{◌-◌, []};
    ghost use Rattle.block_pool.specs.QueueRule.{tally};

    ghost left = { λ v. tally (v.parts - 1) v.made v.taken v.put };

    ghost right = { λ v. tally 1 v.made [] [] };
}

impl<T> Join<Tally<T>> for Parts {
    ghost use Rattle.std.specs.Prelude.{◌+◌, [], ◌++◌};
    ghost use Rattle.block_pool.specs.QueueRule.{tally};

    ghost both = { λ v w. tally (v.parts + w.parts) v.made (v.taken ++ w.taken) (v.put ++ w.put) };

    ghost spent = { tally 0 [] [] [] };
}
