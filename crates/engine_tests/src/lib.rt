//! Tests of the engine: what stands above merging and cutting one list of packets.
//!
//! - `rounds_in_turn`: the work of the lanes of rounds ([`lanes`]), the records that are written ([`records`]), and
//!   rounds that are read, merged and segmented, one after another ([`rounds`]).
//! - `reading_beside`: rounds that are read beside the work of others: driven one by one ([`rounds`]), by two sides at
//!   once ([`pipeline`]), and compared as they are worked ([`comparing`], [`checking`], [`checking_beside`]).
//!
//! A crate of their own, since one with tests is proved twice, with them and without; and one for both, since each
//! pays once more for reading all that stands below it. Whole runs of the program have theirs, `run_tests`.
#![tactic(auto)]

#[cfg(test)]
mod byte_lists;
#[cfg(test)]
mod plans;
#[cfg(test)]
mod reading_beside;
#[cfg(test)]
mod rounds_in_turn;
