//! Why a frame can't be merged, and why two frames don't continue one another, told by the first condition that fails.
//!
//! [`why`] asks of a frame in a slice what the model of merging asks of a candidate, and answers which of it fails.
//! [`why_apart`] asks of two, in the order in which they came, what it asks of a run.
//!
//! Proved, of [`why`]:
//!
//! - `cause`: the answer is the definition's (`cause_of`), which asks the model's conditions one by one: that it was
//!   captured whole, that it has a shape, its lengths, its flags, that it has a payload, and its sums.
//! - `candidate`: it is [`Cause::Mergeable`] exactly where the frame is a candidate.
//!
//! And of [`why_apart`]:
//!
//! - `cause`: the answer is the definition's (`pair_cause`): that each may be merged, that they are of one flow, and
//!   then the model's tests of a run in their order: headers, UDP sums, lengths, the first's control bits, the sequence
//!   number, identifications, and whether both together fit.
//! - `mergeable`: it is [`PairCause::Mergeable`] exactly where the two are a mergeable run (`IsMergeable`).
//!
//! ```
//! let cause = why(&frame, 58); // Cause::Sum: a byte of the payload was changed
//! let apart = why_apart(&second, &first); // PairCause::Longer: the shorter one came first
//! ```
//!
//! Its parts: `cause` (the causes), `network` (why a frame has no shape), `flags`, `judging` (the call); `pair` (the
//! causes of two), `asked` (what is asked of each header of both), `apart` (the call). `specs/Causes.antt` says which
//! cause a frame has, and `specs/Pairs.antt` which one two have.
//!
//! Tests: `merge_tests`, module `examples`; `contrib/c/burst_check`; `contrib/python/check`.
//!
//! Why so:
//!
//! - **Whether there is a payload is asked before the sums**, which cover it: an acknowledgment is told as one, and its
//!   sums aren't read.
//! - **That sums are wrong is told by what is left**: where all else holds, a frame is no candidate only for its sums.
//! - **Of a frame without a shape its first IP header is asked alone**, behind at most two tags: what stands further
//!   within a tunnel is another layout.
//! - **That two frames are of two flows is told before their headers are compared**: two that are alike are of one flow
//!   (`alike_keeps_key` of `frame_layout`), so it is the same condition, told in more detail.
//! - **All that is asked header by header is one loop over a list of conditions** (`Asked`), each of which is a test of
//!   the model (`asks`): so the call asks them in the model's order, and the loop is proved once.
#![tactic(auto)]

mod apart;
mod asked;
mod cause;
mod flags;
mod judging;
mod network;
mod pair;

pub use apart::why_apart;
pub use cause::Cause;
pub use judging::why;
pub use pair::PairCause;
