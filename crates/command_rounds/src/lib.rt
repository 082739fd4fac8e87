//! The rounds of a command that merges, `merge` or `check`: they are made by its options ([`make_rounds`]), and what is
//! said of them where they are left (`specs/Leaving`): all blocks are home, and at least as many were taken as the
//! bytes that were given need.
//!
//! Proved, by the name of the clause: the rounds have the blocks, the budget and the plan of the options, and all
//! blocks are home (`made`).
//!
//! ```
//! let rounds = make_rounds(alloc, options, false)?;
//! let home = rounds.home(); // options.blocks
//! ```
//!
//! Tests: `run_tests`.
#![tactic(auto)]

mod made;

pub use made::make_rounds;
