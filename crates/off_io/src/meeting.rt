//! A gate at which two tasks wait for each other.

use crate::gate::{Gate, Who};
use std::sync::atomic::{AtomicBool, AtomicU32, Ordering};
use std::thread::yield_now;

/// The times that a task yields to one that hasn't come: some tenths of a second.
const PATIENCE: u32 = 1_000_000;

/// Each of two tasks says before its work that it is here, and waits a while for the other. Only tasks that run at the
/// same time both meet the other: for tests that threads are threads.
#[derive(Drop)]
pub struct Meeting {
    /// The tasks that are to meet.
    one: Who,
    other: Who,
    /// Set as that task comes to the gate, before its work, and never taken back.
    one_is_here: AtomicBool,
    other_is_here: AtomicBool,
    /// How many of the two saw the other come, from 0 to 2.
    met: AtomicU32,
}

impl Meeting {
    /// Nobody is here yet.
    pub fn of(one: Who, other: Who) -> Meeting {
        Meeting {
            one,
            other,
            one_is_here: AtomicBool::new(false),
            other_is_here: AtomicBool::new(false),
            met: AtomicU32::new(0),
        }
    }

    /// How many of the two have met the other.
    pub fn met(&self) -> u32 {
        self.met.load(Ordering::SeqCst)
    }

    fn turn_up(&self, mine: &AtomicBool, theirs: &AtomicBool) {
        mine.store(true, Ordering::SeqCst);
        for _ in 0..PATIENCE {
            if theirs.load(Ordering::SeqCst) {
                self.met.fetch_add(1, Ordering::SeqCst);
                return;
            }
            yield_now();
        }
    }
}

impl Gate for Meeting {
    fn pass(&self, who: Who, point: u32) {
        if point != 0 {
            return;
        }
        if who == self.one {
            self.turn_up(&self.one_is_here, &self.other_is_here);
        }
        if who == self.other {
            self.turn_up(&self.other_is_here, &self.one_is_here);
        }
    }
}
