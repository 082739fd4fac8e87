//! What crosses between a side that reads rounds and one that works them: a ring, lists of blocks, and how each side
//! wakes the other.
//!
//! ```text
//!   reads ──────────── ring: rounds, and the memory of emptied lists ──────────> works
//!     ^                                                                            │
//!     └── arrivals <── taker: lists of blocks <── pool of lists <── giver ─────────┘
//! ```
//!
//! Nothing here knows what a round is: what goes to the side that works is whatever a ring takes ([`send`],
//! [`has_come`]). What comes back are blocks, by lists alone: a pool of lists that [`open_way`] makes, each list by one
//! step. They come in at the [`Arrivals`] of the side that reads, which are its supply of blocks (`Supply`). Each side
//! sleeps by a bell of its own, and a side that reads waits at its [`Post`], for blocks or for a place in the ring.
//! That both sides are there, and that the one that works has ended, are two flags beside the bells ([`Handshake`]).
//!
//! [`ROUNDS`] rounds are on their way at once, by the places of the ring: before one is read it has a place
//! ([`Arrivals::await_place`]). Of a list whose blocks are home the memory goes away with a round, for the blocks that
//! this one leaves (`Taker::take_spent`, [`Arrivals::pick`]). Before a round is read, what has come is taken.
//!
//! Proved: what was sent by a ring, item by item (`sent` of [`send`]); no block is lost as lists arrive, also by the
//! names of blocks (`meets` of the calls of [`Arrivals`], `Meets` of `specs/Arriving.antt`): what is home and what
//! hasn't come home of lists is what it was. As a supply they say yes only where as many blocks are home as are needed,
//! and no only behind a take that found no list (`enough` and `refused` of `bring`, `looked` of `look`). They say that
//! the other side has ended only where they have that from the flag which this side sets, as an [`Ended`] (`stopped` of
//! [`Arrivals::has_stopped`]). Not proved: that a thread that waits is woken.
//!
//! ```
//! let (mut out, mut from) = RingBuffer::new(alloc, IN_RING)?;
//! send(&rt, &mut out, 7);
//! let came = has_come(&mut from);
//! let next = from.pop();
//! ```
//!
//! Tests: `engine_tests`, modules `reading_beside::driven` and `reading_beside::pausing`, and `buffer_tests`, module
//! `examples`.
//!
//! Why so:
//!
//! - **The side that reads waits behind a record's header, for as many blocks as the record needs**: so it begins to
//!   wait as late as it can, and blocks that come soon are used soon. Whether a round exceeds the blocks is judged
//!   before, by how many were made, as in one thread.
//! - **Lists that have come are taken before each round, also where blocks abound**: those that somebody just had are
//!   in a cache, and those that never were out aren't. Who leaves lists until blocks are lacking reads through all
//!   blocks that there are, and takes a quarter longer.
//! - **It pauses only where the last round that is out has the blocks, and no list of it is due**, by what it counted
//!   itself (`Away`). No proof rests on that count: a pause that comes too early costs a wait for that round, and one
//!   that comes too late costs nothing.
//! - **A list rings the reader's bell only where the reader has said that it waits for blocks** (`block_pool::Bell`),
//!   so that giving one is a step and a look. Who wants blocks looks for lists for about as long as a small round
//!   lasts; then it says that it waits, looks once more, and sleeps between its looks. Where it waits for a place in
//!   the ring lists don't wake it.
//! - **That the other side has ended no list says**: where the put of one is refused it wouldn't arrive, and a reader
//!   that waits for blocks would wait for ever; and who takes a list counts on a block in it (`some` of
//!   `BlockList::into_pool`), which a round that ends the run may not leave. So it is a flag beside the bells.
#![tactic(auto)]

mod arrivals;
mod handshake;
mod lent;
mod meeting;
mod naming;
mod post;
mod ring;
mod way;

pub use arrivals::{Arrivals, IN_RING, ROUNDS, new_spent};
pub use handshake::{Ended, Handshake};
pub use lent::Away;
pub use naming::PoolName;
pub use post::{Post, Sleeper};
pub use ring::{has_come, has_place, send};
pub use way::{Way, open_way};
