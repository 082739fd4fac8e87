//! Rounds that are read beside the work of others, and compared as they are worked.
mod beside_work;
mod checks;
mod compared;
mod driven;
mod examples;
mod halting;
mod memory;
mod pausing;
mod refused;
mod totals;
