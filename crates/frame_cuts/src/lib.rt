//! A merged frame that somebody lends, cut where it lies: no payload is copied.
//!
//! [`cut_frame`] takes a frame in a slice, and says of each of its segments what its headers are, written out, and
//! where in the frame its payload lies. [`fill_frame`] fills in the sums that a host left to its card, so that a
//! large send of a kernel is cut too.
//!
//! Proved:
//!
//! - `cut` of [`cut_frame`]: the frame is a lawful one of so many segments, and what is said of them is the
//!   definition's, byte for byte and in order. With the law that a run's segments are its packets, what a run of frames
//!   comes to gives them back.
//! - `refused`: which answer comes when. A frame that may be cut so is never refused; `untouched`: else nothing is
//!   written.
//! - `filled` of [`fill_frame`]: the frame is the one with its partial sums filled in, and no other byte of it changes;
//!   `fates`, `none`: how many were, and how many are wrong nevertheless.
//!
//! ```
//! let filled = fill_frame(&mut frame); // none is partial
//! let cut = cut_frame(&frame, 4, 0, &mut segments); // Ok(2): the payload has six bytes
//! ```
//!
//! Its parts: `cut` and `fill`. `specs/Cuts.antt` says what is told of a cut.
//!
//! Tests: `merge_tests`, module `examples`; `contrib/c/burst_check`.
//!
//! Why so:
//!
//! - **How many segments there are isn't asked for**: of a payload and their length one number alone is lawful.
//! - **Each byte of the payload is read twice**, to judge the frame and for its segment's sum: what is kept between
//!   would be a list of sums, and on the caller's lists nothing may be written before it is known that the frame is
//!   lawful.
//! - **Sums are filled in by a call of its own**, in the frame itself: who reads from a device with sums left to it has
//!   small packets too, which aren't cut.
#![tactic(auto)]

mod cut;
mod fill;

pub use cut::{CutRefused, CutSegment, cut_frame};
pub use fill::fill_frame;
