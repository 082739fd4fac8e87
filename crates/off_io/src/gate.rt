//! A gate that tasks pass, for tests that hold them back.

/// Who passes a gate.
#[derive(Clone, Copy, Debug, PartialEq, Eq)]
pub enum Who {
    /// The worker of this receive queue.
    Worker(u32),
    /// The task of this tap.
    Tap(u32),
}

/// A gate returns always and changes no answer; a task passes point 0 before its work and point 1 after it.
pub trait Gate {
    fn pass(&self, who: Who, point: u32);
}

/// A gate that does nothing.
#[derive(Clone, Copy, Debug)]
pub struct NoGate;

impl Gate for NoGate {
    fn pass(&self, _who: Who, _point: u32) {}
}
