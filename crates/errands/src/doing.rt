//! One way to have tasks done, whoever does them: the thread that calls, or all who run tasks.
ghost use Rattle.std.specs.Prelude.{◌≡◌, [], OnOk, OnErr};
ghost use Rattle.errands.specs.Answers.{EachDid};

use crate::desk::{Asker, Errands, Runner};
use crate::serving::{DeskName, Job, Parkers, Reply, do_all};
use crossbeam_queue::ArrayQueue;
use std::alloc::AllocError;
use std::collections::VecDeque;
use std::marker::Model;
use std::sync::Wait;

/// Who does tasks. A body over this trait serves a thread that works alone and a crew, since asking a crew starts no
/// thread.
pub trait DoesTasks<T, D> {
    ghost did: { T → D → Type 0 };

    /// Does all tasks, and their answers stand in the order of the tasks.
    ///
    /// `AllocError` where there is no memory for the answers: then nothing was begun.
    fn do_tasks(
        &mut self,
        tasks: &mut VecDeque<T>,
        done: &mut VecDeque<D>,
    ) -> Result<(), AllocError>
        requires none { done.old.items ≡ [] }
        ensures did { OnOk result (EachDid did tasks.old.items done.new.items) }
        ensures all { OnOk result (tasks.new.items ≡ []) }
        ensures refused { OnErr result ((tasks.new.items ≡ tasks.old.items) × (done.new.items ≡ [])) };
}

/// The thread that calls. It needs no handle.
#[derive(Drop)]
pub struct Caller<'a, J> {
    pub job: &'a J,
}

impl<T, D, J: Job<T, D>> DoesTasks<T, D> for Caller<'_, J> {
    ghost did = { J.did };

    fn do_tasks(
        &mut self,
        tasks: &mut VecDeque<T>,
        done: &mut VecDeque<D>,
    ) -> Result<(), AllocError> {
        done.reserve(tasks.len())?;
        while let Some(task) = tasks.pop_front() {
            done.push_back_reserved(self.job.run(task));
        }
        Ok(())
    }
}

/// Who asks at a desk, with all who run its tasks. While it waits it runs tasks itself, so it needs no one else.
#[derive(Drop)]
pub struct Crew<'a, T: Drop, D: Drop, J: Job<T, D>, N: DeskName, R> {
    rt: &'a R,
    /// Where the tasks wait.
    errands: &'a Errands<T>,
    /// Where answers come back, in whichever order.
    replies: &'a ArrayQueue<Reply<T, D, J, N>>,
    /// What is done of each task, by runners and by this thread alike.
    job: &'a J,
    /// By which this thread and the runners wake each other.
    parkers: &'a Parkers,
    /// Between calls all its notes are back.
    asker: Asker<T>,
    /// By which this thread takes tasks while it waits.
    runner: Runner<T>,
    /// The answer of each task, at the task's place; empty between calls.
    places: Vec<Option<D>>,
}

impl<'a, T: Drop, D: Drop, J: Job<T, D>, N: DeskName, R> Model for Crew<'a, T, D, J, N, R> {
    ghost use Rattle.std.specs.Prelude.{◌≡◌, [], length};
    ghost use Rattle.atomic_table.specs.Seated.{TableId};
    ghost use Rattle.errands.specs.Answers.{AllBack};

    ghost Value = { TableId };

    ghost view = { λ c. c.asker.desk };

    ghost invariant = { λ c. (c.asker.desk ≡ N.desk) × (c.runner ≡ N.desk) × (c.errands.now ≡ N.desk)
        × AllBack (length c.asker.log) c.asker.back × (c.places.items ≡ []) };
}

impl<'a, T: Drop, D: Drop, J: Job<T, D>, N: DeskName, R> Crew<'a, T, D, J, N, R> {
    /// The crew of a desk at which nothing was asked yet.
    pub fn new(
        rt: &'a R,
        errands: &'a Errands<T>,
        replies: &'a ArrayQueue<Reply<T, D, J, N>>,
        job: &'a J,
        parkers: &'a Parkers,
        asker: Asker<T>,
        runner: Runner<T>,
        places: Vec<Option<D>>,
    ) -> Crew<'a, T, D, J, N, R>
        requires own { (asker.desk ≡ errands.now) × (runner ≡ errands.now) × (errands.now ≡ N.desk) }
        requires none { (asker.log ≡ []) × (places.items ≡ []) }
        ensures own { result ≡ N.desk }
    {
        Crew {
            rt,
            errands,
            replies,
            job,
            parkers,
            asker,
            runner,
            places,
        }
    }

    /// Nothing more is asked: whoever runs tasks ends.
    pub fn close(&self) {
        self.parkers.close();
    }
}

impl<T: Drop, D: Drop, J: Job<T, D>, N: DeskName, R: Wait> DoesTasks<T, D>
    for Crew<'_, T, D, J, N, R> {
    ghost did = { J.did };

    fn do_tasks(
        &mut self,
        tasks: &mut VecDeque<T>,
        done: &mut VecDeque<D>,
    ) -> Result<(), AllocError> {
        let count = tasks.len();
        self.places.reserve(count)?;
        done.reserve(count)?;
        do_all(
            self.rt,
            self.errands,
            &mut self.asker,
            &mut self.runner,
            self.replies,
            self.job,
            self.parkers,
            tasks,
            &mut self.places,
            done,
        );
        Ok(())
    }
}
