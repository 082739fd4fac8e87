//! What checking counts: the totals of queues and taps, how they add round by round, and the lines that tell them.
//!
//! The definitions stand in `specs/`: what is counted of a round's packets (`Counts`), of these the ones that come
//! back, found by comparing (`Returned`), the lines (`Lines`), and what checking makes of a capture's bytes over a
//! number of blocks (`Checking`).
//!
//! Proved, by the names of the clauses: totals start at those of no packet ([`Totals::make`]) and add lane by lane
//! ([`Totals::add`]); [`write_totals`] appends just the lines, or a prefix of them where the sink failed (`ok`, `err`,
//! `cause`); and counting goes round by round ([`counting_goes_by_round`], [`totals_add_up`]). That as many come back
//! as went in is a law of what merging gives ([`records_return`]), and no evidence: that bytes are compared `comparing`
//! says.
//!
//! ```
//! let totals = Totals::make(alloc, 1, 1)?;
//! write_made(&mut sink, 0, 24)?;
//! write_totals(&mut sink, &totals)?;
//! ```
//!
//! ```text
//! made: records 0 bytes 24
//! queue 0: records 0 items 0 merged 0 returned 0
//! tap 0: windows 0 bytes 0
//! total: records 0 items 0 merged 0 returned 0
//! ```
//!
//! Its parts: `totals` (of queues and taps, and how they add), `lines` (which tell them) and `laws`.
//!
//! Tests: `engine_tests`, module `reading_beside::totals`, and `word_tests`, module `examples`.
//!
//! Why so: it knows of no lane and of no packet in memory, so that what a command says of its totals is proved beside
//! all that.
#![tactic(auto)]

mod laws;
mod lines;
mod totals;

pub use laws::{
    bounds_add, counting_goes_by_round, lanes_stay, records_return, totals_add_up, totals_are_few,
    totals_are_told, totals_go_by_round,
};
pub use lines::{write_made, write_totals};
pub use totals::{QueueTotals, TapTotals, Totals};
