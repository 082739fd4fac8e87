//! Checks the rounds of captures: each is worked, what it came to is compared with the packets that went in, and what
//! comes back is counted, round by round.
//!
//! [`check_round`] takes a round that was worked, with its lanes and a clone of each packet, whatever these hold, and
//! compares them (`comparing`). [`Counting`] is what is done with each round of a capture, for whoever gives rounds: it
//! works a round, compares it, ends it, and adds what it counts to totals, each addition exact. `checking_beside` gives
//! it the rounds of a capture and reads the next ones meanwhile.
//!
//! Proved, by the names of the clauses:
//!
//! - `compared` of [`check_round`]: whatever packets the lanes hold in runs, of each queue so many are counted as
//!   returned as are equal to the next packets of their flows (`compared_work`). It asks no more of the lanes than that
//!   they may be compared (`MayCompareWork`). So a body that compares nothing doesn't meet it.
//! - `totals` of [`check_round`]: where the lanes hold what the round comes to, the totals are the model's: that all
//!   come back, byte for byte. Such lanes may be compared (`may_compare` of `proofs/Kept.antt`).
//! - `did` of `RoundHandler::handle`, by [`Counting`]: the totals of a round are added, and checking goes on behind a
//!   full one and ends, with its cause, behind any other (`CountsRound` of `specs/Handling.antt`).
//!
//! What checking a whole capture says is one record (`Checked` of `specs/Whole.antt`). It follows of any rounds that
//! `Counting` handled one after another, whoever read them (`all_checked` of `proofs/Counted.antt`).
//!
//! ```
//! let RoundRead { round, end } = rounds.read_round(&mut reader);
//! let worked = rounds.work_round(&mut works, round)?;
//! let totals = check_round(&rounds, &worked);
//! rounds.end_round(worked);
//! write_totals(&mut sink, &totals?)?;
//! ```
//!
//! ```text
//! queue 0: records 2 items 1 merged 1 returned 2
//! queue 1: records 2 items 1 merged 1 returned 2
//! tap 0: windows 4 bytes 256
//! tap 1: windows 4 bytes 24
//! total: records 4 items 2 merged 2 returned 4
//! ```
//!
//! Its parts: `round_check` (a round, compared) and `counting` (a round of a capture, worked, compared and counted).
//!
//! Tests: `engine_tests`, module `reading_beside::checks`.
//!
//! Why so:
//!
//! - **It stands above the engine**: of rounds a comparison wants what any caller may see, their plan, a round's lanes
//!   and the clones that were kept of its packets, so merging and segmenting don't wait for its proof.
//! - **[`Counting`] works each round itself**, so its lanes are known, and of what it counts the model says all; each
//!   round goes through `compare_round`, which has `compared` too.
#![tactic(auto)]

mod counting;
mod round_check;

pub use counting::{CheckEnd, Counting};
pub use round_check::check_round;
