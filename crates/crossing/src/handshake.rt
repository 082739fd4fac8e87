//! How the two sides wake each other, how they know that there are two, and that the one that works has ended.
use block_pool::Bell;
use std::sync::Arc;
use std::sync::atomic::{AtomicBool, Ordering};
use std::thread;

/// Each side sleeps by its own. Whoever gives blocks back while a round is worked has that of the reader too.
#[derive(Drop)]
pub struct Handshake {
    /// Of the side that reads: each round that is received rings it, and a list where that side has said that it waits.
    pub reader: Arc<Bell>,
    /// Of the side that works: each round that is sent rings it, and a reader that begins to wait for blocks.
    pub worker: Bell,
    // Whoever sets it first decides: the side that reads, that it begins; the other one, that it won't.
    begun: AtomicBool,
    // Set by the side that works once it takes no more rounds, and never taken back. No list says it: where the put of
    // one is refused it wouldn't arrive, and the reader would wait for ever; and a round may leave no block for one.
    ended: AtomicBool,
}

/// The side that works has ended. Only the flag that it set says so: nobody else makes one.
#[derive(Clone, Copy)]
pub struct Ended {
    // What keeps others from making one.
    _said: (),
}

/// The times that the worker yields to a reader that hasn't begun: a third of a second, beyond any delay of a thread
/// that was made.
const PATIENCE: u32 = 1_000_000;

impl Handshake {
    pub fn new(reader: Arc<Bell>) -> Handshake {
        Handshake {
            reader,
            worker: Bell::new(),
            begun: AtomicBool::new(false),
            ended: AtomicBool::new(false),
        }
    }

    /// Whether the reader may begin.
    pub fn begin(&self) -> bool {
        !self.begun.swap(true, Ordering::SeqCst)
    }

    /// Whether the reader has begun. Where it hasn't it never will: no thread could be made for it.
    pub fn has_begun(&self) -> bool {
        for _ in 0..PATIENCE {
            if self.begun.load(Ordering::SeqCst) {
                return true;
            }
            thread::yield_now();
        }
        self.begun.swap(true, Ordering::SeqCst)
    }

    /// No more rounds are taken, and no more blocks given.
    pub fn end(&self) {
        self.ended.store(true, Ordering::SeqCst);
        self.reader.wake();
    }

    /// That the side that works has ended, if it has. What it gave before is in the pool of lists then.
    pub fn has_ended(&self) -> Option<Ended> {
        if self.ended.load(Ordering::SeqCst) {
            return Some(Ended { _said: () });
        }
        None
    }
}
