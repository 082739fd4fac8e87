//! Tasks of a desk, done by one thread and by several.
//!
//! - 300 rounds of seven tasks: each answer is its task's, in the order of the tasks, by the thread that asks alone,
//!   with three who run tasks beside it, and without a desk
//! - two tasks that wait for each other meet, where one runs beside the thread that asks
ghost use Rattle.std.specs.Prelude.{◌≡◌, ◌<◌, [], All, length};

use crate::seeing::assert_same;
use crossbeam_queue::ArrayQueue;
use errands::{
    Asker, Caller, Crew, DeskName, DoesTasks, Errands, Job, Parkers, Reply, Runner, serve,
};
use off_io::{Gate, Meeting, NoGate, Who};
use std::alloc::{AllocError, Global};
use std::collections::VecDeque;
use std::marker::Brand;
use std::sync::Wait;
use std::thread::{Threads, for_each_mut, join_mut};

const TASKS: u32 = 7;

#[derive(Drop)]
struct Task {
    number: u32,
}

#[derive(Drop)]
struct Answer {
    number: u32,
}

// A task passes the gate as the worker of its number.
#[derive(Drop)]
struct Passing<'a, G> {
    gate: &'a G,
}

impl<G: Gate> Job<Task, Answer> for Passing<'_, G> {
    ghost did = { λ task answer. answer.number ≡ task.number };

    fn run(&self, task: Task) -> Answer {
        self.gate.pass(Who::Worker(task.number), 0);
        Answer {
            number: task.number,
        }
    }
}

// Whether each answer of a round stands at its task's place.
fn is_round_right<W: DoesTasks<Task, Answer>>(
    works: &mut W,
    alloc: Global,
    count: u32,
) -> Result<bool, AllocError> {
    let mut tasks = VecDeque::new(alloc);
    let mut answers = VecDeque::new(alloc);
    for number in 0..count {
        if tasks.push_back(Task { number }).is_err() {
            return Err(AllocError);
        }
    }
    works.do_tasks(&mut tasks, &mut answers)?;
    let mut is_right = answers.len() == count as usize;
    for i in 0..answers.len() {
        is_right = is_right && answers[i].number as usize == i;
    }
    Ok(is_right)
}

// How many rounds are right.
fn rounds_by<W: DoesTasks<Task, Answer>>(
    works: &mut W,
    alloc: Global,
    rounds: u32,
    count: u32,
) -> Result<u32, AllocError> {
    let mut right = 0u32;
    for _ in 0..rounds {
        if is_round_right(works, alloc, count)? {
            right = right.saturating_add(1);
        }
    }
    Ok(right)
}

// The same beside all who run tasks.
fn beside<
    'a,
    J: Job<Task, Answer> + Send + Sync,
    N: DeskName + Send + Sync,
    R: Threads + Wait + Sync,
    W: DoesTasks<Task, Answer>,
>(
    rt: &'a R,
    alloc: Global,
    errands: &'a Errands<Task>,
    replies: &'a ArrayQueue<Reply<Task, Answer, J, N>>,
    job: &'a J,
    parkers: &'a Parkers,
    runners: &'a mut [Runner<Task>],
    works: &'a mut W,
    rounds: u32,
    count: u32,
) -> Result<u32, AllocError>
    requires own { errands.now ≡ N.desk }
    requires runners { All (λ r. r ≡ errands.now) runners.old }
{
    let beside = runners.len();
    if beside == 0 {
        return rounds_by(works, alloc, rounds, count);
    }
    let ((), right) = join_mut(
        rt,
        &mut ||
            requires own { errands.now ≡ N.desk }
            requires runners { All (λ r. r ≡ errands.now) runners.now }
            requires some { (0 < beside) × (beside ≡ length runners.now) }
        {
            for_each_mut(
                rt,
                runners,
                beside,
                &|index, runner| { serve(rt, errands, runner, replies, job, parkers, index) },
            )
        },
        &mut || -> Result<u32, AllocError> {
            let right = rounds_by(works, alloc, rounds, count);
            parkers.close();
            right
        },
    );
    right
}

// Rounds by a crew with so many beside the thread that asks.
fn by_crew_named<N: DeskName + Send + Sync, R: Threads + Wait + Sync, G: Gate + Sync>(
    rt: &R,
    alloc: Global,
    errands: &Errands<Task>,
    asker: Asker<Task>,
    gate: &G,
    beside_it: u32,
    rounds: u32,
    count: u32,
) -> Result<u32, AllocError>
    requires own { (asker.desk ≡ errands.now) × (errands.now ≡ N.desk) }
    requires none { asker.log ≡ [] }
{
    let mut asker = asker;
    let job = Passing { gate };
    let replies = ArrayQueue::new(alloc, 8)?;
    let parkers = Parkers::make(alloc, beside_it)?;
    let mut runners = errands.enlist_all(alloc, &mut asker, beside_it)?;
    let own = errands.enlist(&mut asker);
    let mut crew = Crew::new(
        rt,
        errands,
        &replies,
        &job,
        &parkers,
        asker,
        own,
        Vec::new(alloc),
    );
    beside::<Passing<'_, G>, N, R, Crew<'_, Task, Answer, Passing<'_, G>, N, R>>(
        rt,
        alloc,
        errands,
        &replies,
        &job,
        &parkers,
        &mut runners,
        &mut crew,
        rounds,
        count,
    )
}

fn by_crew<R: Threads + Wait + Sync, G: Gate + Sync>(
    rt: &R,
    alloc: Global,
    gate: &G,
    beside_it: u32,
    rounds: u32,
    count: u32,
) -> Result<u32, AllocError> {
    let (errands, asker) = Errands::open(alloc, 8)?;
    by_crew_named::<Brand, R, G>(rt, alloc, &errands, asker, gate, beside_it, rounds, count)
}

#[test]
fn answers_stand_in_the_order_of_the_tasks(rt: HostRuntime) {
    let alloc = rt.alloc();
    let mut alone = Caller {
        job: &Passing { gate: &NoGate },
    };
    let right = [
        rounds_by(&mut alone, alloc, 300, TASKS).expect(&rt, "no memory"),
        by_crew(&rt, alloc, &NoGate, 0, 300, TASKS).expect(&rt, "no memory"),
        by_crew(&rt, alloc, &NoGate, 3, 300, TASKS).expect(&rt, "no memory"),
    ];
    assert_same(&rt, &right, &[300, 300, 300]);
}

#[test]
fn two_tasks_meet(rt: HostRuntime) {
    let meeting = Meeting::of(Who::Worker(0), Who::Worker(1));
    let right = by_crew(&rt, rt.alloc(), &meeting, 1, 1, 2).expect(&rt, "no memory");
    assert_same(&rt, &(right, meeting.met()), &(1, 2));
}
