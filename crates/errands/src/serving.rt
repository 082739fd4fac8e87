//! Tasks that others do, and their answers in the order of the tasks.
ghost use Rattle.std.specs.Prelude.{◌≡◌, ℕ, ◌+◌, ◌-◌, ◌<◌, ◌≤◌, Option, List, [], ◌++◌, length, vec_capacity};
ghost use Rattle.atomic_table.specs.Seated.{TableId};
ghost use Rattle.std.specs.Prelude.{None, Some, map};
ghost use Rattle.std.specs.VecDeque.{deque_capacity};
ghost use Rattle.std.specs.List.{AllByRecursion};
ghost use Rattle.errands.specs.Answers.{Places, AllBack, EachDid, missing};

use crate::desk::{Asker, Errands, Note, Runner};
use crossbeam_queue::ArrayQueue;
use std::alloc::{AllocError, Global};
use std::collections::VecDeque;
use std::marker::{Brand, Model, PhantomData};
use std::sync::Wait;
use std::sync::atomic::{AtomicBool, Ordering};
use std::thread::Parker;
use std::{hint, thread};

/// Before a thread sleeps it tries this often: about as long as a small round lasts.
const TRIES: u32 = 2_000;

/// What a task asks for.
pub trait Job<T, D> {
    ghost did: { T → D → Type 0 };

    fn run(&self, task: T) -> D
        ensures did { did task result };
}

/// Whose desk it is: the call of a whole run says it.
pub trait DeskName {
    ghost desk: { TableId };
}

impl DeskName for Brand {
    ghost use Rattle.errands.specs.Answers.{no_desk};

    ghost desk = { no_desk };
}

/// An answer, and the note of its task.
#[derive(Drop)]
pub struct Reply<T: Drop, D: Drop, J: Job<T, D>, N: DeskName> {
    done: D,
    /// By which who asked learns what the task was.
    note: Note<T>,
    /// By which job it was done, for contracts alone.
    of: PhantomData<J>,
    /// At whose desk, for contracts alone.
    at: PhantomData<N>,
}

impl<T: Drop, D: Drop, J: Job<T, D>, N: DeskName> Model for Reply<T, D, J, N> {
    ghost use Rattle.std.specs.Prelude.{◌≡◌};
    ghost use Rattle.errands.specs.Answers.{IsAnswer};
    ghost use Rattle.errands.specs.Passes.{ReplyState};

    ghost Value = { ReplyState T D };

    ghost view = { λ r. record { task = r.note.task; done = r.done } };

    ghost invariant = { λ r. (r.note.desk ≡ N.desk) × IsAnswer J.did r.note.task r.done };
}

/// Who wakes whom, and whether the run is over.
#[derive(Drop)]
pub struct Parkers {
    /// Woken as an answer comes.
    asker: Parker,
    /// One for each who runs tasks beside who asks, by index.
    runners: Vec<Parker>,
    /// Set once no more is asked, and never taken back. Then who runs tasks ends as soon as none waits.
    closed: AtomicBool,
}

impl Parkers {
    /// Those of who asks and of so many who run tasks, of a run that isn't over.
    pub fn make(alloc: Global, runners: u32) -> Result<Parkers, AllocError> {
        let mut own = Vec::new(alloc);
        for _ in 0..runners {
            own.push(Parker::new())?;
        }
        Ok(Parkers {
            asker: Parker::new(),
            runners: own,
            closed: AtomicBool::new(false),
        })
    }

    /// Wakes all who run tasks.
    pub fn wake_runners(&self) {
        for parker in &self.runners {
            parker.unpark();
        }
    }

    /// No more is asked.
    pub fn close(&self) {
        self.closed.store(true, Ordering::SeqCst);
        self.wake_runners();
    }

    fn is_closed(&self) -> bool {
        self.closed.load(Ordering::SeqCst)
    }

    // Sleeps until it is woken.
    fn sleep<R: Wait>(&self, rt: &R, index: usize) {
        match self.runners.get(index) {
            Some(parker) => parker.park(rt),
            None => thread::yield_now(),
        }
    }
}

// Does the task that waits for longest, if any does.
fn answer<T: Drop, D: Drop, J: Job<T, D>, N: DeskName, R: Wait>(
    rt: &R,
    errands: &Errands<T>,
    runner: &mut Runner<T>,
    job: &J,
) -> Option<Reply<T, D, J, N>>
    requires own { (runner.old ≡ errands.now) × (errands.now ≡ N.desk) }
    ensures same { runner.new ≡ runner.old }
{
    let (task, note) = errands.take(rt, runner)?;
    let done = job.run(task);
    Some(Reply {
        done,
        note,
        of: PhantomData,
        at: PhantomData,
    })
}

// An answer goes to who asked.
fn hand<T: Drop, D: Drop, J: Job<T, D>, N: DeskName, R: Wait>(
    rt: &R,
    replies: &ArrayQueue<Reply<T, D, J, N>>,
    reply: Reply<T, D, J, N>,
) {
    let mut reply = reply;
    for _ in rt.forever() {
        match replies.push(rt, reply) {
            Ok(()) => return,
            Err(back) => reply = back,
        }
        thread::yield_now();
    }
    unreachable!()
}

/// One who runs tasks until the run is over.
pub fn serve<T: Drop, D: Drop, J: Job<T, D>, N: DeskName, R: Wait>(
    rt: &R,
    errands: &Errands<T>,
    runner: &mut Runner<T>,
    replies: &ArrayQueue<Reply<T, D, J, N>>,
    job: &J,
    parkers: &Parkers,
    index: usize,
)
    requires own { (runner.old ≡ errands.now) × (errands.now ≡ N.desk) }
    ensures same { runner.new ≡ runner.old }
{
    let mut tries = 0u32;
    for _ in rt.forever() {
        if !errands.is_empty(runner)
            && let Some(reply) = answer(rt, errands, runner, job)
        {
            hand(rt, replies, reply);
            parkers.asker.unpark();
            tries = 0;
        } else {
            if parkers.is_closed() {
                return;
            }
            if tries < TRIES {
                tries += 1;
                hint::spin_loop();
            } else {
                parkers.sleep(rt, index);
                tries = 0;
            }
        }
    }
    unreachable!()
}

// The next answer. While it waits it does tasks itself, so that it needs no runner.
fn next_reply<T: Drop, D: Drop, J: Job<T, D>, N: DeskName, R: Wait>(
    rt: &R,
    errands: &Errands<T>,
    runner: &mut Runner<T>,
    replies: &ArrayQueue<Reply<T, D, J, N>>,
    job: &J,
    parkers: &Parkers,
) -> Reply<T, D, J, N>
    requires own { (runner.old ≡ errands.now) × (errands.now ≡ N.desk) }
    ensures same { runner.new ≡ runner.old }
{
    let mut tries = 0u32;
    for _ in rt.forever() {
        if let Some(reply) = replies.pop(rt) {
            return reply;
        }
        if !errands.is_empty(runner)
            && let Some(reply) = answer(rt, errands, runner, job)
        {
            return reply;
        }
        if tries < TRIES {
            tries += 1;
            hint::spin_loop();
        } else {
            parkers.asker.park(rt);
            tries = 0;
        }
    }
    unreachable!()
}

// An answer stands at the place of its task.
fn accept<T: Drop, D: Drop, J: Job<T, D>, N: DeskName>(
    errands: &Errands<T>,
    asker: &mut Asker<T>,
    reply: Reply<T, D, J, N>,
    first: u64,
    places: &mut Vec<Option<D>>,
)
    requires own { (asker.old.desk ≡ errands.now) × (errands.now ≡ N.desk) }
    requires size { length asker.old.log ≡ first + length places.old.items }
    requires before { AllBack first asker.old.back }
    requires places { Places J.did asker.old.log asker.old.back first places.old.items }
    ensures desk { asker.new.desk ≡ asker.old.desk }
    ensures log { asker.new.log ≡ asker.old.log }
    ensures size { length places.new.items ≡ length places.old.items }
    ensures before { AllBack first asker.new.back }
    ensures places { Places J.did asker.old.log asker.new.back first places.new.items }
    ensures fewer { missing places.new.items + 1 ≡ missing places.old.items }
{
    let Reply {
        done,
        note,
        of: _,
        at: _,
    } = reply;
    let number = errands.redeem(asker, note);
    let at = (number - first) as usize;
    places[at] = Some(done);
}

// All tasks are asked, and a place is open for each.
fn ask_all<T: Drop, D: Drop, R: Wait>(
    rt: &R,
    errands: &Errands<T>,
    asker: &mut Asker<T>,
    tasks: &mut VecDeque<T>,
    places: &mut Vec<Option<D>>,
)
    requires own { asker.old.desk ≡ errands.now }
    requires none { places.old.items ≡ [] }
    requires room { length tasks.old.items ≤ vec_capacity places.old }
    ensures desk { asker.new.desk ≡ asker.old.desk }
    ensures log { asker.new.log ≡ asker.old.log ++ tasks.old.items }
    ensures back { asker.new.back ≡ asker.old.back }
    ensures open { AllByRecursion (λ p. p ≡ None) places.new.items }
    ensures size { length places.new.items ≡ length tasks.old.items }
    ensures none { tasks.new.items ≡ [] }
{
    while let Some(task) = tasks.pop_front() {
        errands.ask(rt, asker, task);
        places.push_reserved(None);
    }
}

// Waits for the answer of each place.
fn collect<T: Drop, D: Drop, J: Job<T, D>, N: DeskName, R: Wait>(
    rt: &R,
    errands: &Errands<T>,
    asker: &mut Asker<T>,
    runner: &mut Runner<T>,
    replies: &ArrayQueue<Reply<T, D, J, N>>,
    job: &J,
    parkers: &Parkers,
    first: u64,
    places: &mut Vec<Option<D>>,
)
    requires own { (asker.old.desk ≡ errands.now) × (runner.old ≡ errands.now) × (errands.now ≡ N.desk) }
    requires size { length asker.old.log ≡ first + length places.old.items }
    requires before { AllBack first asker.old.back }
    requires places { Places J.did asker.old.log asker.old.back first places.old.items }
    requires open { missing places.old.items ≡ length places.old.items }
    ensures desk { asker.new.desk ≡ asker.old.desk }
    ensures runner { runner.new ≡ runner.old }
    ensures log { asker.new.log ≡ asker.old.log }
    ensures size { length places.new.items ≡ length places.old.items }
    ensures before { AllBack first asker.new.back }
    ensures places { Places J.did asker.old.log asker.new.back first places.new.items }
    ensures all { missing places.new.items ≡ 0 }
{
    for got in 0..places.len() {
        prove!(got < places.len());
        let reply = next_reply(rt, errands, runner, replies, job, parkers);
        accept(errands, asker, reply, first, places);
    }
}

// The answers leave their places, in order.
fn give_out<D: Drop>(places: &mut Vec<Option<D>>, done: &mut VecDeque<D>)
    requires all { missing places.old.items ≡ 0 }
    requires none { done.old.items ≡ [] }
    requires room { length places.old.items ≤ deque_capacity done.old }
    ensures out { map Some done.new.items ≡ places.old.items }
    ensures none { places.new.items ≡ [] }
{
    while let Some(place) = places.pop() {
        match place {
            Some(answer) => done.push_front_reserved(answer),
            None => unreachable!(),
        }
    }
}

/// All tasks are done, by whoever runs them, and their answers stand in the order of the tasks.
pub fn do_all<T: Drop, D: Drop, J: Job<T, D>, N: DeskName, R: Wait>(
    rt: &R,
    errands: &Errands<T>,
    asker: &mut Asker<T>,
    runner: &mut Runner<T>,
    replies: &ArrayQueue<Reply<T, D, J, N>>,
    job: &J,
    parkers: &Parkers,
    tasks: &mut VecDeque<T>,
    places: &mut Vec<Option<D>>,
    done: &mut VecDeque<D>,
)
    requires own { (asker.old.desk ≡ errands.now) × (runner.old ≡ errands.now) × (errands.now ≡ N.desk) }
    requires before { AllBack (length asker.old.log) asker.old.back }
    requires none { (places.old.items ≡ []) × (done.old.items ≡ []) }
    requires room { (length tasks.old.items ≤ vec_capacity places.old)
        × (length tasks.old.items ≤ deque_capacity done.old) }
    ensures own { (asker.new.desk ≡ asker.old.desk) × (runner.new ≡ runner.old) }
    ensures before { AllBack (length asker.new.log) asker.new.back }
    ensures none { (tasks.new.items ≡ []) × (places.new.items ≡ []) }
    ensures did { EachDid J.did tasks.old.items done.new.items }
{
    let first = asker.asked();
    ask_all(rt, errands, asker, tasks, places);
    parkers.wake_runners();
    collect(
        rt, errands, asker, runner, replies, job, parkers, first, places,
    );
    give_out(places, done);
}
