//! The command `segment`: a capture of link type 147 is cut, record by record over one pool of blocks, into the packets
//! that its records stand for.
//!
//! Proved, by the names of the clauses of [`run_segment`]: what is read and written for each answer, and when the sink
//! is flushed (`answered`, by `HasAnswered` of `command_answers`); that all blocks are home, and how many were taken
//! (`left`); and that a fault is answered only where the outside failed (`caused`).
//!
//! ```
//! let mut engine = None;
//! let status = run_segment(alloc, options, &mut source, &mut sink, &mut engine);
//! ```
//!
//! Tests: `run_tests`.
//!
//! Why so: **the blocks are made once the file header is lawful**, so a refused capture costs none. The output's file
//! header is written before that: where memory for the blocks is refused, it is all that was written.
#![tactic(auto)]

mod segment;

pub use segment::run_segment;
