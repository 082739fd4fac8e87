//! Waiting at the ends of a ring.
ghost use Rattle.std.specs.Prelude.{◌≡◌, ◌<◌, [], ◌∷◌, ◌++◌, length, true};
ghost use Rattle.rtrb.specs.Ring.{sent, known_items, ConsumerLooked, SameProducer};

use rtrb::{Consumer, Producer, Protocol, PushError};
use std::alloc::Global;
use std::sync::Wait;
use std::{hint, thread};

/// Before a thread sleeps it tries this often: about as long as a small round lasts.
const TRIES: u32 = 256;

/// Puts an item into the ring.
pub fn send<T, P: Protocol<T>, R: Wait>(rt: &R, ring: &mut Producer<T, Global, P>, item: T)
    requires allowed { P.allows (sent ring.old) item }
    ensures ring { SameProducer ring.old ring.new }
    ensures sent { sent ring.new ≡ sent ring.old ++ item ∷ [] }
{
    let mut item = item;
    for _ in rt.forever() {
        match ring.push(item) {
            Ok(()) => return,
            Err(PushError::Full(back)) => item = back,
        }
        thread::yield_now();
    }
    unreachable!()
}

/// Whether the ring has a place for an item, or gets one while a thread may try.
pub fn has_place<T, P: Protocol<T>>(ring: &mut Producer<T, Global, P>) -> bool
    ensures ring { SameProducer ring.old ring.new }
    ensures sent { sent ring.new ≡ sent ring.old }
{
    for _ in 0..TRIES {
        if !ring.is_full() {
            return true;
        }
        hint::spin_loop();
    }
    false
}

/// Whether the ring has an item, or gets one while a thread may try.
pub fn has_come<T, P: Protocol<T>>(ring: &mut Consumer<T, Global, P>) -> bool
    ensures looked { ConsumerLooked ring.old ring.new }
    ensures came { result ≡ true → 0 < length (known_items ring.new) }
{
    for _ in 0..TRIES {
        if !ring.is_empty() {
            return true;
        }
        hint::spin_loop();
    }
    false
}
