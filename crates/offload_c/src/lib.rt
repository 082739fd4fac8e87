//! `offload` for C: a capture in memory is merged, or cut back into packets. `contrib/c/offload.h` declares what is
//! exported.
//!
//! No export has a `requires`: each option is tested and answered. A C caller owes what the header says, and nothing
//! checks that it keeps it.
//!
//! Proved, of [`offload_merge`] and [`offload_segment`], where `output` and `count` are what the call leaves in them:
//!
//! - `ok`, `malformed`, `empty`: which bytes stand at the front of `output`, and that the model of the command stops
//!   nowhere, at a fault of the capture, or at a round that needs more blocks than there are. The rest of `output` is
//!   as it was.
//! - `flows` of `offload_merge`: segmenting the output brings back each flow of the capture, packet by packet; where
//!   taps wrote windows too, of an output of at most 2^36 bytes, whose records can be read again.
//! - `short`: `output` is as it was, and `count` is the length of the whole output. `room`: it isn't too short where it
//!   has as many bytes as [`offload_merge_bound`] or [`offload_segment_bound`] says.
//! - `usage`, `refused`: the answer is 2 exactly where the options aren't lawful, but that memory may run out while a
//!   filter is read. `untouched`: then, and where there is no memory, nothing was written.
//! - `codes`: there are no other answers.
//!
//! And of [`offload_queue`] and [`offload_queue_rss`], that the queue is the definition's, by the fold or by the
//! Toeplitz hash.
//!
//! Each call makes its own pool, works on the caller's thread alone, and keeps nothing.
//!
//! Tests: within, `src/tests.rt`, and `contrib/c/check`.
//!
//! Why so:
//!
//! - **The exports have no `requires`.** Nothing checks a C caller, so each number is tested and answered, and what
//!   can't be tested (pointers, lengths, overlaps) stands at the head of the header as the caller's duty.
//! - **How much room an output wants at most is said by its length and by a count that the caller may know**, and not
//!   by one number alone. Merging: 16 bytes for each record, and for each tap 32 and the window; all windows are no
//!   more than the capture, since those of a frame don't overlap. Without the count as many records are counted as the
//!   bytes have room for, which comes to twice the capture at most. Segmenting repeats headers, 42 to 200 bytes for
//!   each packet and 16 of its record: by the length alone that is 217 times the capture, since a lawful record may
//!   have segments of one byte, so the count of packets is asked for. Exact is the sum over the records of n * (16 +
//!   headers) + payload, and a call without room tells it.
//! - **What comes back is said of the bytes in the caller's buffer**: `flows` segments these, and not the output of the
//!   model. With taps it is said of an output of at most 2^36 bytes: more records than 2^32 can't be read again, and by
//!   its length no such output has them.
//! - **The options of a merge stand in a struct** that a pointer leads to: numbers of one type in a row are swapped too
//!   easily, and a struct of 80 bytes by value is passed by each compiler's own rule.
//! - **The struct begins with its size**, as the caller's header has it, and another size is answered 2. A struct of
//!   version 1 began with the budget and the blocks; of these two the second is never 0, so that they aren't taken for
//!   the size 80.
//! - **No pointer in it is NULL; where there is nothing the length is 0.** A slice without bytes has a pointer too, and
//!   a proof can't compare a pointer of C's with NULL without knowing what it points into. `OFFLOAD_DEFAULTS` has a
//!   pointer in each place.
//! - **To options that aren't lawful the answer is 2, but where memory runs out while the filter is read**: reading it
//!   takes memory, so that 7 may come first. All else is tested before, without memory.
//! - **`offload_queue_rss` hashes bit by bit**: the tables by which rounds hash are made once for all of their packets,
//!   and cost more than one hash.
//! - **Each call makes its own pool and works every queue and tap in the caller's thread**: a static library may start
//!   no thread, and what it keeps between two calls it would have to be handed. What comes out is the same. That is
//!   what a call costs beyond its frames, some 130 ns a block: so a caller asks for as many blocks as its frames need
//!   (`OFFLOAD_BLOCKS_OF`), and lays several bursts out as one capture, whose rounds share the pool.
//! - **The sink isn't flushed by `segment`**: it is a vector, and nobody asks.
#![tactic(auto)]

mod bounds;
mod exports;
mod memory;
mod merging;
mod options;
mod queues;
mod segment_call;
#[cfg(test)]
mod tests;

pub use bounds::{merged_fits, offload_merge_bound, offload_segment_bound, segmented_fits};
pub use exports::{offload_merge, offload_segment};
pub use options::MergeOptions;
pub use queues::{offload_queue, offload_queue_rss};
