//! A packet that a host captured and that lies in a buffer, written as it goes over the wire.
//!
//! [`fill_packet`] fills in its sums where it lies, [`plan_cut`] tells how it is cut, and [`wire_packet`] writes what
//! stands on the wire of it, from its own blocks, counts it and brings the blocks home.
//!
//! Proved: what is written is the definition's (clause `writes` of [`wire_packet`]), and so is what is counted
//! (`counts`); the filled packet is the definition's (`filled` of [`fill_packet`]), in the same blocks (`kept`); and
//! the plan has its packets (`plan` of [`plan_cut`]).
//!
//! ```
//! let fates = fill_packet(&mut skb, original, false, &mut out);
//! let (plan, is_cut) = plan_cut(4, &skb, original); // true: two segments
//! ```
//!
//! Its parts: `front` (a frame's first bytes), `fill`, `cut` and `write`.
//!
//! Tests: `wire_tests`, module `frames`.
//!
//! Why so: **headers are put together beside the buffer and written over its first bytes**, since a row of bytes is all
//! that a sum wants; the payload is read once for its sum, and once more where the frame is cut.
#![tactic(auto)]

mod cut;
mod fill;
mod front;
mod write;

pub use cut::plan_cut;
pub use fill::fill_packet;
pub use write::wire_packet;
