//! Tests of merging packets ([`frame_runs`]), in buffers ([`gro`]) and into buffers of their own ([`gro_table`]), of
//! cutting them again ([`gso`]), and of reading them as they arrived ([`taps`]).
//!
//! A crate of their own, since one with tests is proved twice, with them and without.
#![tactic(auto)]

#[cfg(test)]
mod examples;
#[cfg(test)]
mod home;
#[cfg(test)]
mod limits;
#[cfg(test)]
mod merging;
#[cfg(test)]
mod seeing;
#[cfg(test)]
mod segmenting;
#[cfg(test)]
mod tapping;
