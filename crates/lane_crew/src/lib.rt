//! The lanes of a round as tasks, which whoever is free does, and the crew that does them.
//!
//! ```text
//!   who asks ── a lane, part of the list ──> the desk ── the task, a note ──> whoever is free, and who asks, waiting
//!      ^                                                                          │                      │
//!      └───── the lane once it is worked, what is left of the list, the note ─────┘                      │
//!   who reads <───────── pool of lists <───────── the list, as soon as the lane is worked ───────────────┘
//! ```
//!
//! A [`LaneCrew`] works by `errands`: threads that live for a whole run ([`serve_lanes`]) take the lanes of its rounds
//! from a desk ([`open_desk`]), so no thread is started in a round, and what the crew holds is reserved before. A lane
//! that has nothing to do is no task, and where one lane alone has something to do, whoever asks does it; so it does
//! with all lanes where frames are short (`have_short_frames`). Taps get clones, and read them as tasks, in rounds of
//! fewer than 16 packets and of more than 256 long ones; in all others their windows are read where packets lie, which
//! takes less time than a clone does (`reads_here`). A thread that can't be made costs nothing. The tasks of taps share
//! the filter by `lanes::SharedProgram`.
//!
//! Where blocks are lent that may go back while lanes are worked, each task carries as many as any other, a queue's or
//! a tap's, and a pass of its own, unless there are fewer blocks than tasks. It gives them as soon as its lane is
//! worked. A lane for whose part there is no memory is no task. What no task could carry goes behind them, and what
//! finds the pool full stays with who lent it.
//!
//! Proved of a crew is what `lanes::Works` asks (`did`, `gave`, `none_left` of `run_lanes`): each lane is worked, and
//! stands at its place again, by an answer that is known to be that of its task (`DidLane` in `specs/Tasks`), in
//! whatever order answers come; what was lent is there again, or was given. Each lane's task gives what it carries as
//! soon as its lane is worked (`none_left` of `QueueTask::run` and of `WatchTask::run`), and that is at least what
//! stays at hand, evenly divided among all lanes (`shares` of `send_all`). Of a desk that is opened: `open`, `count` of
//! [`open_desk`], `some`, `few` of [`count_runners`].
//!
//! Only tested: that lanes run at the same time. Not said: that a thread runs or is woken.
//!
//! ```
//! let desk = open_desk(alloc, count_runners(&rt, 6))?;
//! ```
//!
//! Its parts: `carrying` (a list that is lent, in parts and as one again), `loads` (the boxes that tasks carry),
//! `tasks` (lanes as tasks), `away` (out to the desk and back) and `crew`.
//!
//! Tests: `engine_tests`, module `rounds_in_turn::working`.
//!
//! Why so:
//!
//! - **As a task a lane leaves its place in a box**, with the number of that place, and comes back to it: so answers
//!   may come in any order, and lanes with nothing to do stay where they are.
//! - **What goes over the desk is the box's address**: a task, its answer and the note with it are moved some forty
//!   times a round. A box is made when a lane first goes away, and has an idle lane until the next one does, against
//!   which that is swapped: so a round takes no memory for it, and clears none.
//! - **A task carries its filter by a count** (`SharedProgram`), and not by a loan: tasks outlive each call, so what
//!   they hold has to be their own.
//! - **What is lent is counted whole, wherever it is** (`Divided` in `specs/Givers`): what is at hand and what tasks
//!   carry have as many parts and blocks as all that was lent. So answers may come in any order, and whether a task
//!   carries a part or none is nothing that a caller sees.
//! - **What is lent is divided evenly**, over all lanes that go away as tasks: no list grows with how unlike the queues
//!   are, and what no packet holds needn't wait for the lane with the most packets.
#![tactic(auto)]

mod away;
mod carrying;
mod crew;
mod loads;
mod tasks;

pub use crew::{LANES, LaneCrew, LaneDesk, count_runners, open_desk, serve_lanes};
pub use tasks::{LaneDone, LaneJob, LaneTask, QueueDone, QueueTask, TapDone, WatchTask};
