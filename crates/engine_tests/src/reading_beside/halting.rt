//! A source, a sink and a gate that halt at every call, each for a while of its own.

use off_io::{Failed, Gate, Sink, Source, Who};
use std::hint;
use std::sync::atomic::{AtomicU32, Ordering};
use std::thread::yield_now;

// The next of a row of numbers.
fn next_number(number: u32) -> u32 {
    number.wrapping_mul(1_664_525).wrapping_add(1_013_904_223)
}

// Spins, at most about twice as long as a side tries before it sleeps; one time of 16 it gives way to another thread
// too.
fn halts_by(number: u32) {
    if number >> 28 == 0 {
        yield_now();
    }
    for _ in 0..number >> 23 {
        hint::spin_loop();
    }
}

/// How long to halt, call by call.
#[derive(Drop)]
pub(crate) struct Dice {
    number: u32,
}

impl Dice {
    pub(crate) fn new(seed: u32) -> Dice {
        Dice { number: seed }
    }

    fn halt(&mut self) {
        self.number = next_number(self.number);
        halts_by(self.number);
    }
}

/// A source or a sink that halts before each call.
#[derive(Drop)]
pub(crate) struct Halting<T> {
    pub(crate) inner: T,
    pub(crate) dice: Dice,
}

impl<T: Source> Source for Halting<T> {
    ghost left = { λ s. T.left s.inner };

    ghost faults = { λ s. T.faults s.inner };

    fn read(&mut self, into: &mut [u8]) -> Result<usize, Failed> {
        self.dice.halt();
        self.inner.read(into)
    }
}

impl<T: Sink> Sink for Halting<T> {
    ghost held = { λ s. T.held s.inner };

    ghost is_flushed = { λ s. T.is_flushed s.inner };

    ghost faults = { λ s. T.faults s.inner };

    fn write(&mut self, from: &[u8]) -> Result<usize, Failed> {
        self.dice.halt();
        self.inner.write(from)
    }

    fn flush(&mut self) -> Result<(), Failed> {
        self.dice.halt();
        self.inner.flush()
    }
}

/// A gate where whoever passes halts.
#[derive(Drop)]
pub(crate) struct HaltingGate {
    number: AtomicU32,
}

impl HaltingGate {
    pub(crate) fn new(seed: u32) -> HaltingGate {
        HaltingGate {
            number: AtomicU32::new(seed),
        }
    }
}

impl Gate for HaltingGate {
    fn pass(&self, _who: Who, _point: u32) {
        let number = next_number(self.number.load(Ordering::SeqCst));
        self.number.store(number, Ordering::SeqCst);
        halts_by(number);
    }
}
