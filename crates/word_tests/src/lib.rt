//! Tests of what stands beside whole runs of the program: its words ([`offload_words`]), generated captures
//! ([`cap_make`]) and the lines of the log ([`status_log`]).
//!
//! A crate of their own, since one with tests is proved twice, with them and without.
#![tactic(auto)]

#[cfg(test)]
mod examples;
#[cfg(test)]
mod logged;
#[cfg(test)]
mod made;
#[cfg(test)]
mod seeing;
#[cfg(test)]
mod words;
