//! Tests of the crates that hold packets: the two machines ([`ref_core`]), blocks and their weights ([`raw_block`]),
//! pools of them ([`block_pool`]), pieces of blocks ([`frags`]) and buffers ([`skb`]); and of the desk of tasks
//! ([`errands`]).
//!
//! A crate of their own, since one with tests is proved twice, with them and without.
#![tactic(auto)]

#[cfg(test)]
mod blocks;
#[cfg(test)]
mod buffers;
#[cfg(test)]
mod cuts;
#[cfg(test)]
mod desk;
#[cfg(test)]
mod examples;
#[cfg(test)]
mod machines;
#[cfg(test)]
mod memory;
#[cfg(test)]
mod pieces;
#[cfg(test)]
mod pools;
#[cfg(test)]
mod readers;
#[cfg(test)]
mod refused;
#[cfg(test)]
mod seeing;
