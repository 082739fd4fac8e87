//! The records of an offload capture segmented one by one, each read into the blocks of one pool and home again.
//!
//! A record is judged in this order: its header, whether it needs more blocks than there are, its body, its offload
//! header and frame. So one that is too big for the pool takes no block, and nothing is written for one that isn't
//! whole and lawful.
//!
//! Of a record of link type 147 the first 12 bytes are read apart, as every offload header has them, and the need is
//! that of the bytes behind them. The last 4 bytes of a header of version 2 so stand in the first block, in front of
//! the frame, until the header is taken off.
//!
//! Proved, by the names of the clauses of [`SegmentRun`]:
//!
//! - `given` of `next`: what is written is the next record's segments, by the definition of the whole capture's; and
//!   for each fault how much of the source is gone, and that nothing is written for a record that isn't whole, lawful
//!   and within the blocks.
//! - `home`: all blocks are home after every answer; `named`: just those that were.
//! - `taken`: a record that was segmented took as many blocks as it needs; `most`: and no more than there are.
//! - `read`, `write`: a fault is answered only where the count of the source, or of the sink, rose.
//!
//! Memory is taken in [`SegmentRun::make`], and for the list of pieces of a record of more than 1,984 bytes.
//!
//! ```
//! let mut run = SegmentRun::make(alloc, 8)?;
//! let moved = run.next(&mut reader, &mut sink);
//! ```
//!
//! Its parts: `segment` (the type that segments, record by record) on `cut` (a record's packets written one by one, its
//! blocks brought home) and `opening` (its offload header, taken off).
//!
//! Tests: `engine_tests`, modules `rounds_in_turn::segments` and `rounds_in_turn::long_runs`.
//!
//! Why so:
//!
//! - **A record is segmented where it lies**: each packet's headers are put together beside it, and its payload goes to
//!   the sink from the record's own blocks. So no packet takes a block or memory, and the record goes home once, as it
//!   came, whether all of it was written or the sink failed.
#![tactic(auto)]

mod cut;
mod opening;
mod segment;

pub use segment::{Moved, SegFault, SegmentRun};
