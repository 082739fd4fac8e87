//! Merged frames that lie in buffers, tested, and read as the packets that they stand for.
//!
//! [`check_super`] tests a whole record: its offload header, and the frame behind it, which lies in a buffer.
//! Each byte of the payload is read once, and the sums of the segments are kept in the [`Plan`]. [`Segments`] are then
//! the packets, for who writes them: the headers of each, and the [`Place`] in the record's own buffer from which its
//! payload is read, slice by slice. No byte but the headers' is copied, and it takes neither memory nor blocks. Who
//! keeps packets, each in a buffer, has `gso_cutter`.
//!
//! Proved: `BadOffload` exactly where the record isn't lawful (clause `lawful` of [`check_super`]); headers and payload
//! of each of the `Segments` are the segment of the definition (`segment` of [`Segments::put_headers`]), and the
//! payload's bytes are read in their order, each once (`bytes` of [`Segments::read`]).
//!
//! ```
//! if let Ok(Plan::Segments(cut, sums)) = &check_super(&head, &skb, original) {
//!     let segments = Segments::new(&skb, cut, sums);
//!     let payload = segments.payload_len(segments.first());
//!     sizes = (segments.count(), segments.headers_len(), payload); // two segments, 54 and 4 bytes of the first one
//! }
//! ```
//!
//! Its parts: `sums` (the sums of a payload's segments, taken as its bytes come in pieces), `judging` (`check_super`),
//! `place` (a place of a buffer's bytes, from which they are read) and on that `segments`. `proofs/Payloads.antt` has
//! the laws that a reader of payloads needs, `proofs/Least.antt` those of the first m bytes, or all of fewer.
//!
//! Tests: `merge_tests`, module `segmenting`.
//!
//! Why so:
//!
//! - **A record's payload is summed once, in the pieces that its segments will have.** The sums of the first 64
//!   segments and one of all behind them are kept in the plan, 520 bytes and no memory of the heap; the whole sum is
//!   joined from these. 64 hold each run whose segments have 1,024 bytes or more. Segments beyond are summed again as
//!   they are cut, so no byte is read more than twice; a vector of all sums would want memory in `check_super`, for
//!   frames of small segments alone.
//! - **A place says how many bytes are left from it on**, so the last segment's payload is the least of two numbers.
#![tactic(auto)]

mod judging;
mod place;
mod segments;
mod sums;

pub use judging::{Plan, check_super};
pub use place::Place;
pub use segment_rule::BadOffload;
pub use segments::Segments;
pub use sums::Sums;
