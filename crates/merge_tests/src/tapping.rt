//! Windows of packets in a head and pieces, of packets that change meanwhile, and the gate.
mod changes;
pub mod packets;
mod windows;
