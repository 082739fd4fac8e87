//! What the clauses leave to examples: weights by their numbers, bytes across pieces, and that each call succeeds where
//! there is memory.
pub mod blocks;
mod bytes;
mod weights;
