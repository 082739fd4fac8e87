//! The records of a capture, written one by one as they go over the wire, each read into the blocks of one pool and
//! home again.
//!
//! A record is judged in this order: its header, whether it needs more blocks than there are, its body. So one that
//! is too big for the pool takes no block, and nothing is written for one that isn't whole.
//!
//! Proved, by the names of the clauses of [`WireRun::next`]: what is written is what stands on the wire of the next
//! record, by the definition of the whole capture's, and for each fault how much of the source is gone (`given`); it
//! is counted (`counted`); all blocks are home after every answer (`home`); a fault is answered only where the
//! outside failed (`read`, `write`).
//!
//! ```
//! let mut run = WireRun::make(alloc, 131)?;
//! let moved = run.next(&mut reader, &mut sink, wiring, &mut counts);
//! ```
//!
//! Memory is taken in [`WireRun::make`], and for the list of pieces of a record of more than 1,984 bytes.
//!
//! Tests: `wire_tests`, module `frames`.
#![tactic(auto)]

mod run;

pub use run::WireRun;
pub use segmenting::{Moved, SegFault};
