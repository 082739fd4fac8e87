//! Errands: one thread asks for tasks, others do them, and each answer is known to be that of its task.
//!
//! ```text
//!   who asks ── task 7 ──>  the desk, one queue  ── task 7, and a note of it ──> whoever is free
//!      ^                                                                              │
//!      └────────────── the answer, and the note: "task 7 of all that were asked" ─────┘
//! ```
//!
//! Threads that live for a whole run do the tasks of its rounds, and no thread is started in a round. What such a
//! thread did is known before it ends, and so before any join: a task leaves the desk with a *note*, which claims that
//! this task is the one of its number among all that were asked, and the queue's rule (`specs/Rule`) keeps each claim
//! true. Who asked takes the note in with the answer, and learns that its own list has just that task there.
//!
//! | | |
//! |---|---|
//! | [`Errands`] | the desk: tasks wait here, in turn |
//! | [`Asker`] | asks, and takes notes in; there is one |
//! | [`Runner`] | takes tasks; as many as are enlisted |
//! | [`Job`] | what is done of a task |
//! | [`DoesTasks`] | all tasks of a list, done by the thread that calls ([`Caller`]) or by a crew ([`Crew`]) |
//!
//! Proved: `task`, `first` of `Errands::redeem`: a note's task is the one of its number, and no note of that number
//! came before. `did` of `do_all` and of `DoesTasks::do_tasks`: each answer is one of its task, in the order of the
//! tasks, whoever did it and in whatever order. Only tested: that several run at once. Not said: that a thread runs or
//! is woken; who asks runs tasks itself while it waits, so a run ends without any runner.
//!
//! ```
//! let (desk, mut asker) = Errands::open(alloc, 8)?;
//! let mut runner = desk.enlist(&mut asker); // another thread may have it
//! desk.ask(&rt, &mut asker, 7u64);
//! if let Some((task, note)) = desk.take(&rt, &mut runner) {
//!     done = Some((desk.redeem(&mut asker, note), task)); // (0, 7): the first task was 7
//! }
//! ```
//!
//! Tests: `buffer_tests`, module `desk`.
//!
//! Why so:
//!
//! - **What another thread did is known before it ends** (`errands`): by a note that is split off a pass of the ruled
//!   queue as the task is taken, and joined to the asker's as it comes back. A ring's own rule can't say it: it speaks
//!   of names that are chosen before the run, and blocks are made while it goes.
#![tactic(auto)]

mod desk;
mod doing;
mod rule;
mod serving;

pub use desk::{Asker, Errands, Note, Runner};
pub use doing::{Caller, Crew, DoesTasks};
pub use rule::{Asked, Slip};
pub use serving::{DeskName, Job, Parkers, Reply, do_all, serve};
