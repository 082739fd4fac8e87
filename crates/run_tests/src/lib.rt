//! Tests of the program: whole runs of [`offload_run`], over sources and sinks in memory.
//!
//! Each module runs command lines: `rows` and `datagrams` hold the rows of what merging and segmenting come to, over
//! the frames of `row_frames`; `queues`, `options` and `budgets` what the options do; `kinds` captures of each kind;
//! `failing` sources and sinks that fail; `hostile` what is refused; `checks` what `check` tells; `beside` rounds that
//! are read beside others; `streams` the program over std's readers and writers; `examples` the calls as their pages
//! show them.
//!
//! A crate of their own, beside that of the engine's tests, so that the two are proved side by side.
#![tactic(auto)]

#[cfg(test)]
mod beside;
#[cfg(test)]
mod budgets;
#[cfg(test)]
mod byte_lists;
#[cfg(test)]
mod checks;
#[cfg(test)]
mod datagrams;
#[cfg(test)]
mod examples;
#[cfg(test)]
mod failing;
#[cfg(test)]
mod hostile;
#[cfg(test)]
mod kinds;
#[cfg(test)]
mod lines;
#[cfg(test)]
mod options;
#[cfg(test)]
mod queues;
#[cfg(test)]
mod row_frames;
#[cfg(test)]
mod rows;
#[cfg(test)]
mod streams;
