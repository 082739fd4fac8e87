//! Wakes who waits for blocks.

use std::sync::Wait;
use std::sync::atomic::{AtomicBool, Ordering};
use std::thread::Parker;

/// The bell of a thread that takes what others bring. Who brings rings it, and the thread is woken where it has said
/// that it waits.
#[derive(Drop)]
pub struct Bell {
    /// What the thread sleeps by.
    sleeper: Parker,
    /// Whether the thread has said that it waits. Where it hasn't, a ring is a look and no more.
    waits: AtomicBool,
}

impl Bell {
    /// Nobody waits.
    pub fn new() -> Bell {
        Bell {
            sleeper: Parker::new(),
            waits: AtomicBool::new(false),
        }
    }

    /// The thread says that it waits from here on. It looks once more before it sleeps, so what came before isn't
    /// missed.
    pub fn begin(&self) {
        self.waits.store(true, Ordering::SeqCst);
    }

    /// It waits no more.
    pub fn end(&self) {
        self.waits.store(false, Ordering::SeqCst);
    }

    /// Wakes the thread where it waits.
    pub fn ring(&self) {
        if self.waits.load(Ordering::SeqCst) {
            self.sleeper.unpark();
        }
    }

    /// Wakes the thread, whatever it said.
    pub fn wake(&self) {
        self.sleeper.unpark();
    }

    /// Sleeps until it is woken; not at all where it was since it last slept.
    pub fn sleep<R: Wait>(&self, rt: &R) {
        self.sleeper.park(rt);
    }
}
