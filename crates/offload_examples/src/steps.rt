//! Nanoseconds that calls take, a line for each.
pub mod blocks;
pub mod buffers;
pub mod cutting;
pub mod frames;
pub mod merging;
pub mod pools;
pub mod sums;
pub mod windows;
