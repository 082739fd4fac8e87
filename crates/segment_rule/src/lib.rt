//! How the frame of a merged record is segmented: the test of the record, and the header bytes of each segment.
//!
//! A record of an offload capture (link type 147) is lawful where [`is_single`] or [`is_window`] holds of its header,
//! or where [`is_merged`] holds, its frame is a candidate for merging, and [`segmentation_of`] finds that the header's
//! numbers suit that. The [`Segmentation`] then makes the frame's header bytes those of each segment, from the sum of
//! the segment's payload. No payload byte is read here, so it is all the same where it lies.
//!
//! Proved: there is a segmentation exactly where the record is lawful, and it is the definition's (clause `judged` of
//! [`segmentation_of`]); header bytes and payload are the segment (`segment` of [`Segmentation::put_headers`]).
//!
//! ```
//! if is_merged(&head)
//!     && let Some(seg) = candidate(frame, &Partial::new(), len, original)
//!     && let Some(cut) = segmentation_of(&head, frame, seg)
//! {
//!     let (header_bytes, payload) = bytes.split_at_mut(cut.layout.payload_at());
//!     let mut payload_sum = Partial::new();
//!     payload_sum.add(&payload[..cut.m as usize]);
//!     cut.put_headers(header_bytes, 0, payload_sum);
//! }
//! ```
//!
//! Tests: `merge_tests`, module `segmenting`.
#![tactic(auto)]

mod lawful;
mod modes;
mod segmentation;

pub use lawful::{BadOffload, is_merged, is_opened, is_single, is_window, segmentation_of};
pub use segmentation::Segmentation;
