//! A round read beside the work of another, for whoever drives rounds one by one.
//!
//! [`work_and_read`] works a round and reads the next one at once, the reading in a thread of its own. The spares of
//! the round that is worked come home list by list meanwhile. Where the next one needs more blocks behind a record's
//! header than are home it is paused, and [`read_rest`] reads it to its end once the other has ended.
//!
//! Proved, by the names of the clauses:
//!
//! - `given`, `reads`, `waits`, `paused`, `rose` of [`work_and_read`]: what is said of working a round, and of reading
//!   the next, is what `rounds` says of both; the read pauses only behind the header of a record that needs more blocks
//!   than are home, and only where a take found no list of them, which `empties` counts; the header is kept.
//! - `gives` of [`work_and_read`]: the round's spares come home while it is worked, by who gives, unless a put found no
//!   place, which is counted, or there was no memory for a second side.
//! - `home`, `named`: no block is lost between the two, nor exchanged, whatever both came to.
//! - `given` of [`read_rest`]: what such a round comes to in the end, over all of its records.
//! - `taken`, `most`: `taken` rises by the blocks of what was read at least, and by as many as all blocks at most.
//!
//! That both run at the same time isn't proved.
//!
//! ```
//! let (worked, next) = work_and_read(&mut rounds, &rt, &mut works, round, &mut reader);
//! ```
//!
//! Its parts: `ahead` (both calls) on `next_lists` (the lists that the side that reads takes) and `paused` (what was
//! read meanwhile: a round, or one that goes on).
//!
//! Tests: `engine_tests`, modules `reading_beside::beside_work` and `reading_beside::refused`.
//!
//! Why so:
//!
//! - **Whoever drives rounds one by one reads the next one beside the work** by `work_and_read`: one join, in which the
//!   intake reads with all blocks that are home while the bench works. The spares of each queue come home as one list,
//!   by one step, as soon as its lane was worked; all other blocks come home when both have ended. So taking a block
//!   costs no locked step, and taking a list one. What a record needs is known once its header was taken, so a read
//!   pauses there, and by that need: the header is kept, no byte of its body was read, and whether a round exceeds the
//!   blocks was judged by all of them.
//! - **What `read_rest` says is over the whole round** (`GivesBehind`): of every place and bytes from which the first
//!   packets were read, and the header that was kept. So it has the ends of `read_round` with no ghost data in a round.
#![tactic(auto)]

mod ahead;
mod next_lists;
mod paused;

pub use ahead::{read_rest, work_and_read};
pub use paused::{Empty, Paused, ReadAhead};
