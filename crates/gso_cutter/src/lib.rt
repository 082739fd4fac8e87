//! Merged frames that lie in buffers, cut into packets that stay: each a buffer whose head is a spare's block with the
//! headers, and whose payload are pieces of the record's own blocks. No byte but the headers' is copied.
//!
//! A [`Cutter`] begins with a record's buffer and the plan that `gso::check_super` made of it, and gives one packet for
//! a spare.
//!
//! Proved: what it gives are the frames of the definition, in turn, each in the spare's block, and then `Done` (`left`
//! of [`Cutter::start`] and `next` of [`Cutter::next`]); where memory is refused the spare comes back, and the same
//! frames are still to come; no block and no weight is lost (`account`).
//!
//! ```
//! match check_super(&head, &skb, original) {
//!     Ok(plan) => {
//!         let mut cutter = Cutter::start(skb, plan);
//!         while let Some(spare) = spares.pop() {
//!             match cutter.next(spare) {
//!                 Ok(Cut::Segment(segment)) => {
//!                     len = len.wrapping_add(segment.len());
//!                     segment.release(&mut outcomes);
//!                 }
//!                 Ok(Cut::Done(spare)) => outcomes.keep_sole(spare),
//!                 Err((spare, _)) => outcomes.keep_sole(spare),
//!             }
//!         }
//!         cutter.release(&mut outcomes);
//!     }
//!     Err(_) => skb.release(&mut outcomes),
//! }
//! ```
//!
//! Its parts: `open` (bytes cut off, with no part worn), `headers` (a segment's headers in a spare), `sums` (the sum of
//! what was cut off), `merged` and `whole` (the two ways in which a record's frames are given), and on these `cutter`.
//!
//! Tests: `merge_tests`, module `segmenting`.
//!
//! Why so:
//!
//! - **What a cutter still gives is a list of frames, and a clause over every such list.** `start` says that the frames
//!   of the plan's packets are left, `next` that the first of them was given and the others are left. A caller counts
//!   nothing, and a refusal is one line: the same frames are left.
//! - **Each piece weighs at least as much as it has bytes**: that holds at the start, by a least weight of 2,048, and
//!   each cut inside a piece keeps it, since it takes a byte or more and gives away a 4096th. So no cut ever finds a
//!   part worn, and the count of earlier cuts comes in nowhere.
//! - **A frame that is given as it is gets an empty head in the spare's block**, with the record's own head as its
//!   first piece. So what a cutter gives has one form, and a spare is used up by each frame.
#![tactic(auto)]

mod cutter;
mod headers;
mod merged;
mod open;
mod sums;
mod whole;

pub use cutter::{Cut, Cutter};
