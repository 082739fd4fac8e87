//! The command `merge`: a capture of Ethernet frames is merged, in rounds over one pool of blocks, into a capture of
//! link type 147.
//!
//! Proved, by the names of the clauses of [`run_merge`]: what is read and written for each answer, when the sink is
//! flushed, and that every flow comes back of what is written (`answered`, by `HasAnswered` of `command_answers`); that
//! all blocks are home, and how many were taken (`left`); and that a fault is answered only where the outside failed
//! (`caused`).
//!
//! ```
//! let mut engine = None;
//! let status = run_merge(
//!     &rt,
//!     alloc,
//!     options,
//!     &mut source,
//!     &mut sink,
//!     &NoGate,
//!     &mut engine,
//! );
//! ```
//!
//! Tests: `run_tests`.
//!
//! Why so: **the blocks are made once the file header is lawful**, so a refused capture costs none. The output's file
//! header is written before that: where memory for the blocks is refused, it is all that was written.
#![tactic(auto)]

mod merge;

pub use merge::run_merge;
