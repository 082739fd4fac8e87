//! The command `check`: a capture of Ethernet frames, read or generated, is merged as `merge` does, what each round
//! comes to is compared with its packets, and lines of how many came back are written at the end.
//!
//! Proved, by the names of the clauses of [`run_check`]: what is read and written for each answer, and when the sink is
//! flushed (`answered`, by `HasAnswered` of `command_answers`); that all blocks are home, and how many were taken
//! (`engine`, `home`); and that a fault is answered only where the outside failed (`caused`).
//!
//! ```
//! let mut engine = None;
//! let status = run_check(
//!     &rt,
//!     alloc,
//!     options,
//!     &mut source,
//!     &mut sink,
//!     &NoGate,
//!     &mut engine,
//! );
//! ```
//!
//! Tests: `run_tests`.
//!
//! Why so: **a seeded check makes its capture twice**, once for the length in its first line (`made_len`), which stands
//! before anything is counted, and once to be checked. It needs no memory for it.
#![tactic(auto)]

mod check;

pub use check::run_check;
