//! The rule of merging: which packet continues a run, and what a run has come to.
//!
//! A run is judged by what its first packet's headers say and by its [`Progress`]: whether all its packets are full,
//! how long its merged frame is, and which IPv4 identifications stay. What is read of a frame are its first bytes, with
//! all headers among them, and its length, so the rule is the same for frames in one piece and for frames that lie in
//! buffers: each clause speaks of every frame that has these first bytes and this length.
//!
//! Proved: [`is_next`] is true exactly where the frame continues the run (`next`), and the progress is that of the run
//! with it (`progress`). The lemmas of `proofs/Knows` tie both to the definition of mergeable packets, `proofs/Merge`
//! to the merged frame, and `proofs/Steps` to the runs of all flows.
//!
//! ```
//! let mut progress = first_progress(layout, first, first.len());
//! if progress.is_open && is_next(layout, first, first.len(), 1, &progress, next, next.len()) {
//!     progress = next_progress(layout, first, first.len(), 0, &progress, next, next.len());
//! }
//! ```
//!
//! Tests: `merge_tests`, module `merging`.
//!
//! Why so:
//!
//! - **The rule of merging reads first bytes and lengths** (`merge_rule`), and each of its clauses speaks of every
//!   frame that has these. So frames in one slice and in buffers stand on one rule, and the definition stays one of
//!   whole frames: `IsNext` is `IsNextBy` at the frames' own lengths, and one lemma, `next_by_head`, carries what was
//!   judged of heads to all frames.
//! - **Ethernet, IPv4 or IPv6, and TCP are compared at fixed places** (`plain`), as most packets have these alone, with
//!   no loop, where the walk over a list of headers takes three. Addresses and ports come first, so that another flow's
//!   packet is refused by one comparison. The clause is that of the walk over that list (`AreHeadersNext`), and what is
//!   to lie between the fields is computed from their table.
//! - **Bytes are compared as numbers of two, four and eight** (`alike`), read where they lie, of which two may have
//!   bytes in common: three instructions for eight bytes, where a comparison of slices is a call of some forty. Up to
//!   32 bytes are compared so in the walk too; options are mostly twelve.
#![tactic(auto)]

mod alike;
mod candidacy;
mod next;
mod plain;
mod rule;

pub use candidacy::Candidacy;
pub use rule::{Progress, first_progress, is_next, next_progress};
