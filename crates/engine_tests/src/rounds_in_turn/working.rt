//! Two flows in turn, over queues and taps: what the lanes come to, in one thread and by a crew, and tasks that meet.
mod crews;
pub(crate) mod frames;
pub(crate) mod packets;
mod turns;
