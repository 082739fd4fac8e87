//! Tests of `wire`: whole runs over frames that were worked out by hand, its words, and the examples of first pages.
//!
//! A crate of their own, since one with tests is proved twice, with them and without.
#![tactic(auto)]

#[cfg(test)]
mod examples;
#[cfg(test)]
mod frames;
#[cfg(test)]
mod layouts;
#[cfg(test)]
mod whole;
#[cfg(test)]
mod words;
