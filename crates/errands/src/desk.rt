//! Who asks, and who runs tasks.
ghost use Rattle.std.specs.Prelude.{◌≡◌, ℕ, ◌+◌, ◌<◌, ◌≤◌, [], ◌∷◌, ◌++◌, length, All, IfOk, IfSome, true};
ghost use Rattle.atomic_table.specs.Seated.{TableId};
ghost use mathlib.Core.Option.{some};
ghost use lib.ListN.{get_elem?};
ghost use Rattle.crossbeam_queue.specs.Passes.{view, IsPassOf, IsSamePass};
ghost use Rattle.errands.specs.Rule.{times, slip};

use crate::rule::{Asked, Asks, Brings, Ends, FreshPass, Knows, Notes, Slip, TakesTask, Tasks};
use crossbeam_queue::Pass;
use std::alloc::{AllocError, Global};
use std::marker::Model;
use std::sync::Wait;
use std::thread;

/// The desk where tasks wait, which threads share by `&`.
#[derive(Drop)]
pub struct Errands<T: Drop> {
    /// First in, first out.
    queue: Tasks<T>,
}

impl<T: Drop> Model for Errands<T> {
    ghost use Rattle.atomic_table.specs.Seated.{TableId};

    ghost Value = { TableId };

    ghost view = { λ e. e.queue.table.shared.table_id };
}

/// Who asks.
#[derive(Drop)]
pub struct Asker<T> {
    /// The one pass that asks. Proofs read there what was asked, and which notes came back.
    pass: Pass<Asked<T>, Slip<T>>,
    /// How many tasks were asked, and so the number of the next one.
    asked: u64,
}

impl<T> Model for Asker<T> {
    ghost use Rattle.std.specs.Prelude.{◌≡◌, ℕ, ◌≤◌, length};
    ghost use Rattle.errands.specs.Passes.{AskerState};
    ghost use Rattle.errands.specs.Rule.{times};
    ghost use Rattle.errands.specs.Ties.{known, IsAsking};

    ghost Value = { AskerState T };

    ghost view = { λ a. record { desk = a.pass.table_id; log = (known a.pass).log; back = (known a.pass).back } };

    ghost invariant = { λ a. IsAsking a.pass × (length (known a.pass).log ≡ a.asked)
        × ((k : ℕ) → a.asked ≤ k → times k (known a.pass).back ≡ 0) };
}

/// Who takes tasks.
#[derive(Drop)]
pub struct Runner<T> {
    /// The right to take from the queue. Between calls it has no task.
    pass: Pass<Asked<T>, Slip<T>>,
}

impl<T> Model for Runner<T> {
    ghost use Rattle.atomic_table.specs.Seated.{TableId};
    ghost use Rattle.errands.specs.Ties.{IsIdle};

    ghost Value = { TableId };

    ghost view = { λ h. h.pass.table_id };

    ghost invariant = { λ h. IsIdle h.pass };
}

/// That a task was taken. It goes to who asked, with the answer.
#[derive(Drop)]
pub struct Note<T> {
    /// It was split off as the task was taken, and claims that the task is the one of this number.
    pass: Pass<Asked<T>, Slip<T>>,
    /// The task's among all that were asked, from 0.
    number: u64,
}

impl<T> Model for Note<T> {
    ghost use Rattle.std.specs.Prelude.{◌≡◌, length};
    ghost use Rattle.errands.specs.Passes.{NoteState};
    ghost use Rattle.errands.specs.Ties.{known, IsAtRest};

    ghost Value = { NoteState T };

    ghost view = { λ n. record { desk = n.pass.table_id; task = (known n.pass).task } };

    ghost invariant = { λ n. IsAtRest n.pass × ((known n.pass).number ≡ n.number) × (length (known n.pass).task ≡ 1) };
}

impl<T> Asker<T> {
    /// How many tasks were asked.
    pub fn asked(&self) -> u64
        ensures count { result ≡ length self.now.log }
        ensures later { (k : ℕ) → length self.now.log ≤ k → times k self.now.back ≡ 0 }
    {
        self.asked
    }
}

impl<T: Drop> Errands<T> {
    /// A desk where so many tasks may wait, and who asks.
    pub fn open(alloc: Global, places: usize) -> Result<(Errands<T>, Asker<T>), AllocError>
        requires some { 0 < places }
        ensures own { IfOk result (λ r. r.1.desk ≡ r.0) }
        ensures none { IfOk result (λ r. (r.1.log ≡ []) × (r.1.back ≡ [])) }
    {
        let (queue, pass) = Tasks::ruled(alloc, places)?;
        Ok((Errands { queue }, Asker { pass, asked: 0 }))
    }

    /// One more who takes tasks.
    pub fn enlist(&self, asker: &mut Asker<T>) -> Runner<T>
        requires own { asker.old.desk ≡ self.now }
        ensures same { asker.new ≡ asker.old }
        ensures own { result ≡ self.now }
    {
        let pass = self.queue.another::<FreshPass>(&mut asker.pass);
        Runner { pass }
    }

    /// So many more who take tasks.
    pub fn enlist_all(
        &self,
        alloc: Global,
        asker: &mut Asker<T>,
        count: u32,
    ) -> Result<Vec<Runner<T>>, AllocError>
        requires own { asker.old.desk ≡ self.now }
        ensures same { asker.new ≡ asker.old }
        ensures own { IfOk result (λ runners. All (λ r. r ≡ self.now) runners.items) }
        ensures count { IfOk result (λ runners. length runners.items ≡ count) }
    {
        let mut runners = Vec::new(alloc);
        for _ in 0..count {
            runners.push(self.enlist(asker))?;
        }
        Ok(runners)
    }

    /// Asks for a task. It waits where no place is free.
    pub fn ask<R: Wait>(&self, rt: &R, asker: &mut Asker<T>, task: T)
        requires own { asker.old.desk ≡ self.now }
        ensures asked { asker.new ≡ record asker.old { log = asker.old.log ++ task ∷ [] } }
    {
        let number = asker.asked;
        if number == u64::MAX {
            stall(rt);
        }
        push_task(rt, &self.queue, &mut asker.pass, Asked { number, task });
        asker.asked += 1;
    }

    /// Whether no task waits. To ask costs less than a `take` that finds none, which has a task's place on its stack.
    pub fn is_empty(&self, runner: &mut Runner<T>) -> bool
        requires own { runner.old ≡ self.now }
        ensures same { runner.new ≡ runner.old }
    {
        self.queue.is_empty_as::<TakesTask>(&mut runner.pass)
    }

    /// The task that waits for longest, if any does, and a note of it.
    pub fn take<R: Wait>(&self, rt: &R, runner: &mut Runner<T>) -> Option<(T, Note<T>)>
        requires own { runner.old ≡ self.now }
        ensures same { runner.new ≡ runner.old }
        ensures note { IfSome result (λ r. (r.1.desk ≡ self.now) × (r.1.task ≡ r.0 ∷ [])) }
    {
        let Asked { number, task } = self.queue.pop_as::<TakesTask, R>(rt, &mut runner.pass)?;
        let pass = self.queue.another::<Notes>(&mut runner.pass);
        Some((task, Note { pass, number }))
    }

    /// A note comes back: its task is the one that was asked with this number, and no note of it came before.
    pub fn redeem(&self, asker: &mut Asker<T>, note: Note<T>) -> u64
        requires own { (asker.old.desk ≡ self.now) × (note.desk ≡ self.now) }
        ensures task { (x : T) → note.task ≡ x ∷ [] → get_elem? asker.old.log result ≡ some x }
        ensures below { result < length asker.old.log }
        ensures first { times result asker.old.back ≡ 0 }
        ensures one { length note.task ≡ 1 }
        ensures back { asker.new ≡ record asker.old { back = result ∷ asker.old.back } }
    {
        let Note { pass, number } = note;
        self.queue.absorb::<Brings>(&mut asker.pass, pass);
        self.queue.learn_as::<Knows>(&mut asker.pass);
        let _spent = self.queue.another::<Ends>(&mut asker.pass);
        number
    }
}

// A task comes behind those that wait.
fn push_task<T: Drop, R: Wait>(
    rt: &R,
    queue: &Tasks<T>,
    pass: &mut Pass<Asked<T>, Slip<T>>,
    item: Asked<T>,
)
    requires own { IsPassOf queue.now pass.old }
    requires gives { (view pass.old).gives ≡ true }
    requires number { item.number ≡ length (view pass.old).log }
    ensures own { IsSamePass pass.old pass.new }
    ensures view { view pass.new ≡ slip (view pass.old).gives ((view pass.old).log ++ item.task ∷ [])
        (view pass.old).back (view pass.old).number (view pass.old).task }
{
    let mut waiting = item;
    for _ in rt.forever() {
        match queue.push_as::<Asks, R>(rt, pass, waiting) {
            Ok(()) => return,
            Err(back) => waiting = back,
        }
        thread::yield_now();
    }
    unreachable!()
}

// Waits for ever: so many tasks aren't asked.
fn stall<R: Wait>(rt: &R)
    ensures never { ⊥ }
{
    for _ in rt.forever() {}
    unreachable!()
}
