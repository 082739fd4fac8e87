//! The sums of a frame that a host left to its card, filled in where its headers lie.
//!
//! [`are_lengths_right`] tells whether each header's length counts to the frame's end, and [`fill_sums`] goes through
//! the headers from the innermost outward: a sum that is partial, or each one where all are wanted, gets its right
//! value. No payload byte is read: what is known of the payload is its sum.
//!
//! Proved: headers and payload are the frame of the definition (clause `filled` of [`fill_sums`]), and how many sums
//! were filled and how many stay wrong (`fates`); `right` of [`are_lengths_right`].
//!
//! ```
//! let fates = fill_sums(&mut headers, layout.headers(), payload, false);
//! ```
//!
//! Its parts: `pseudo` (the sum of a pseudo header alone), `sums` and `lengths`.
//!
//! Tests: `wire_tests`, module `frames`.
#![tactic(auto)]

mod lengths;
mod pseudo;
mod sums;

pub use lengths::are_lengths_right;
pub use sums::{Fates, fill_sums};
